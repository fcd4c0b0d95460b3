ghost use Rattle.std.specs.Prelude.{◌≡◌, ◌≢◌, ◌≤◌, length, take, false, IfSome, IfNone};
ghost use Rattle.gate_packet.specs.CheckWord.{after_bytes};
ghost use Rattle.gate_packet.specs.Layout.{IsPacketSize, packet_version, without_check_word};
ghost use Rattle.gate_packet.specs.Stream.{begins_short, block_bytes, Begins, IsRest};
ghost use Rattle.gate_packet.specs.inner.BlockRefs.{integrity_fault};

use crate::block::Block;
use crate::check_word::extended;
use crate::decoding::{PacketFault, u16_at, u32_at};
use crate::packet::{
    CHECK_WORD_OFFSET, CHECK_WORD_SIZE, PACKET_SIZE, SHORT_PACKET_SIZE, VERSION, VERSION_OFFSET,
};
use std::marker::Model;

/// A whole block where it stands, which is to be read as a packet. Its version and its check word
/// have been tested. Contracts see its bytes.
#[derive(Drop)]
pub struct BlockRef<'a> {
    bytes: &'a [u8],
    // The fault of its version or of its check word.
    fault: Option<PacketFault>,
}

impl<'a> Model for BlockRef<'a> {
    ghost use Rattle.std.specs.Prelude.{List, ℕ};
    ghost use Rattle.gate_packet.specs.inner.BlockRefs.{IsBlockRef};

    ghost Value = { List ℕ };

    ghost view = { λ block. block.bytes.now };

    ghost invariant = { λ block. IsBlockRef block.bytes.now block.fault };
}

// The word after the bytes, with zeros instead of the check word's four.
fn word_after(bytes: &[u8]) -> u32
    requires { 8 ≤ length bytes.now }
    ensures { result ≡ after_bytes 0xFFFFFFFF (without_check_word bytes.now) }
{
    let word = extended(u32::MAX, &bytes[..CHECK_WORD_OFFSET]);
    let word = extended(word, &[0; CHECK_WORD_SIZE]);
    extended(word, &bytes[CHECK_WORD_OFFSET + CHECK_WORD_SIZE..])
}

// The fault of the check word of bytes after which the word is this one.
fn check_word_fault(bytes: &[u8], word: u32) -> Option<PacketFault>
    requires long { 8 ≤ length bytes.now }
    requires version { packet_version bytes.now ≡ 3 }
    requires word { word ≡ after_bytes 0xFFFFFFFF (without_check_word bytes.now) }
    ensures { result ≡ integrity_fault bytes.now }
{
    if u32_at(bytes, CHECK_WORD_OFFSET) == !word {
        None
    } else {
        Some(PacketFault::BadCheckWord)
    }
}

impl<'a> BlockRef<'a> {
    /// The block that the bytes are, which have a packet's size.
    pub(crate) fn of(bytes: &'a [u8]) -> BlockRef<'a>
        requires { IsPacketSize (length bytes.now) }
        ensures { result ≡ bytes.now }
    {
        let fault = if u16_at(bytes, VERSION_OFFSET) == VERSION {
            check_word_fault(bytes, word_after(bytes))
        } else {
            Some(PacketFault::BadVersion)
        };
        BlockRef { bytes, fault }
    }

    /// The block's bytes.
    pub fn bytes(&self) -> &'a [u8]
        ensures bytes { result.now ≡ self.now }
        ensures size { IsPacketSize (length self.now) }
    {
        self.bytes
    }

    /// A copy of the block.
    pub(crate) fn to_block(&self) -> Block
        ensures bytes { block_bytes result ≡ self.now }
        ensures size { IsPacketSize (length self.now) }
    {
        if let Some(long) = self.bytes.first_chunk() {
            return Block::Long(*long);
        }
        let mut short = [0; SHORT_PACKET_SIZE];
        short.copy_from_slice(self.bytes);
        Block::Short(short)
    }

    // The fault of its version or of its check word.
    pub(crate) fn fault(&self) -> Option<PacketFault>
        ensures { result ≡ integrity_fault self.now }
    {
        self.fault
    }
}

// Splits off the first block, which has 4304 bytes since their version isn't 3.
fn split_unread(bytes: &[u8]) -> Option<(BlockRef<'_>, &[u8])>
    requires { packet_version bytes.now ≢ 3 }
    ensures some { IfSome result (λ split. Begins bytes.now split.0 split.1.now) }
    ensures none { IfNone result (IsRest bytes.now) }
{
    let Some((long, more)) = bytes.split_at_checked(PACKET_SIZE) else {
        return None;
    };
    let fault = Some(PacketFault::BadVersion);
    Some((BlockRef { bytes: long, fault }, more))
}

// Splits off the first block, which has 4304 bytes since the word after the first 720 isn't the one
// that they carry.
fn split_long(bytes: &[u8], word: u32) -> Option<(BlockRef<'_>, &[u8])>
    requires enough { 720 ≤ length bytes.now }
    requires version { packet_version bytes.now ≡ 3 }
    requires word { word ≡ after_bytes 0xFFFFFFFF (without_check_word (take 720 bytes.now)) }
    requires not_short { begins_short bytes.now ≡ false }
    ensures some { IfSome result (λ split. Begins bytes.now split.0 split.1.now) }
    ensures none { IfNone result (IsRest bytes.now) }
{
    let Some((long, more)) = bytes.split_at_checked(PACKET_SIZE) else {
        return None;
    };
    let fault = check_word_fault(long, extended(word, &long[SHORT_PACKET_SIZE..]));
    Some((BlockRef { bytes: long, fault }, more))
}

/// Splits the first block off the bytes, if it is whole, and tests its version and check word.
///
/// Own rule: where the first 720 bytes carry version 3 and their own check word, they are a block of
/// the older form; otherwise a block has 4304 bytes.
pub fn split_block(bytes: &[u8]) -> Option<(BlockRef<'_>, &[u8])>
    ensures some { IfSome result (λ split. Begins bytes.now split.0 split.1.now) }
    ensures none { IfNone result (IsRest bytes.now) }
{
    let Some((short, more)) = bytes.split_at_checked(SHORT_PACKET_SIZE) else {
        return None;
    };
    if u16_at(short, VERSION_OFFSET) != VERSION {
        return split_unread(bytes);
    }
    // Each byte of a block is gone through once: in a longer one the word goes on over the others.
    let word = word_after(short);
    match check_word_fault(short, word) {
        None => {
            let block = BlockRef {
                bytes: short,
                fault: None,
            };
            Some((block, more))
        }
        Some(_) => split_long(bytes, word),
    }
}
