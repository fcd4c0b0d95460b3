ghost use Rattle.std.specs.Prelude.{◌≡◌, ◌==◌, ◌<◌, ◌≤◌, ◌+◌, ℕ, List, position, length, IfOk, IfErr};
ghost use Rattle.std.specs.List.{before_first};
ghost use Rattle.gate_packet.specs.Layout.{IsPacketSize, integer_at, text_at, host_name};
ghost use Rattle.gate_packet.specs.Packet.{Content};
ghost use Rattle.gate_packet.specs.Decoding.{IsPacket, content_of, is_stale, IsFresh, fault_of, IsReportedFault, ReadsFreshPacket, ReportsFirstFault, IsAtMostOnePacket, IsContentOfBytes, IsPacketIfFaultless, IsFaultlessOrStale, FitsShortIfRead};
ghost use Rattle.gate_packet.specs.Stream.{block_bytes};

use crate::block::Block;
use crate::block_ref::BlockRef;
use crate::packet::{
    CODE_OFFSET, HOST_OFFSET, HOST_SIZE, OTHER_SIZE, OUTPUT_OFFSET, PACKET_SIZE, Packet,
    SERVICE_OFFSET, SERVICE_SIZE, SHORT_PACKET_SIZE, TIMESTAMP_OFFSET,
};
use byteorder::{BigEndian, ByteOrder};
use gate_model::{Moment, Text};
use std::alloc::{AllocError, Global};
use std::error::Error;
use std::fmt;

/// Why bytes are not read as a packet. The first that applies is reported, in this order.
#[derive(Clone, Copy, Debug, PartialEq)]
pub enum PacketFault {
    /// The version is not 3.
    BadVersion,
    /// The check word is not that of the bytes.
    BadCheckWord,
    /// The packet is older than the greatest age.
    Stale,
    /// The packet names no host.
    EmptyHost,
    /// The bytes have no fault, but no memory is left for the texts.
    OutOfMemory,
}

impl fmt::Display for PacketFault {
    fn fmt<W: fmt::Write>(&self, f: &mut fmt::Formatter<W>) -> fmt::Result {
        f.write_str(match self {
            PacketFault::BadVersion => "the packet's version is not 3",
            PacketFault::BadCheckWord => "the check word is not that of the packet's bytes",
            PacketFault::Stale => "the packet is older than the greatest age",
            PacketFault::EmptyHost => "the packet names no host",
            PacketFault::OutOfMemory => "out of memory",
        })
    }
}

impl Error for PacketFault {}

pub(crate) fn u16_at(bytes: &[u8], offset: usize) -> u16
    requires { offset + 2 ≤ length bytes.now }
    ensures { result ≡ integer_at bytes.now offset 2 }
{
    BigEndian::read_u16(&bytes[offset..offset + 2])
}

pub(crate) fn u32_at(bytes: &[u8], offset: usize) -> u32
    requires { offset + 4 ≤ length bytes.now }
    ensures { result ≡ integer_at bytes.now offset 4 }
{
    BigEndian::read_u32(&bytes[offset..offset + 4])
}

fn first_nul(bytes: &[u8]) -> Option<usize>
    ensures { result ≡ position (λ byte. byte == 0) bytes.now }
{
    bytes.iter().position(|byte| *byte == 0)
}

fn before_nul(bytes: &[u8]) -> &[u8]
    ensures { result.now ≡ before_first (λ byte. byte == 0) bytes.now }
{
    match first_nul(bytes) {
        Some(end) => &bytes[..end],
        None => bytes,
    }
}

// The text of the field of this size, whose last byte is read as a NUL.
fn text_at(bytes: &[u8], offset: usize, size: usize) -> &[u8]
    requires some { 0 < size }
    requires within { offset + size ≤ length bytes.now }
    ensures { result.now ≡ text_at bytes.now offset size }
{
    before_nul(&bytes[offset..offset + size - 1])
}

fn is_stale(timestamp: u32, now: Moment, greatest_age: u32) -> bool
    ensures { result ≡ is_stale timestamp now.0 greatest_age }
{
    greatest_age != 0 && timestamp <= now.0 && now.0 - timestamp > greatest_age
}

// The first fault of the block at this moment.
#[tactic(auto, unfolding(crate::specs::Decoding::fault_of))]
fn fault_of(block: &BlockRef<'_>, now: Moment, greatest_age: u32) -> Option<PacketFault>
    ensures { result ≡ fault_of block.now now.0 greatest_age }
{
    let fault = block.fault();
    if fault.is_some() {
        return fault;
    }
    let bytes = block.bytes();
    if is_stale(u32_at(bytes, TIMESTAMP_OFFSET), now, greatest_age) {
        return Some(PacketFault::Stale);
    }
    if text_at(bytes, HOST_OFFSET, HOST_SIZE).is_empty() {
        return Some(PacketFault::EmptyHost);
    }
    None
}

// The content of the bytes, whatever their version and check word.
fn packet_in(alloc: Global, bytes: &[u8]) -> Result<Packet, AllocError>
    requires whole { IsPacketSize (length bytes.now) }
    requires has_host { 0 < length (host_name bytes.now) }
    ensures { IfOk result (λ p. p ≡ content_of bytes.now) }
{
    let timestamp = Moment(u32_at(bytes, TIMESTAMP_OFFSET));
    let code = u16_at(bytes, CODE_OFFSET).cast_signed();
    let host = Text::copied(alloc, text_at(bytes, HOST_OFFSET, HOST_SIZE))?;
    let service = Text::copied(alloc, text_at(bytes, SERVICE_OFFSET, SERVICE_SIZE))?;
    let output = text_at(bytes, OUTPUT_OFFSET, bytes.len() - OTHER_SIZE);
    let output = Text::copied(alloc, output)?;
    Ok(Packet {
        timestamp,
        code,
        host,
        service,
        output,
    })
}

impl BlockRef<'_> {
    /// Reads the block as the packet that it is, by the rules of `decode`.
    pub fn decode(
        &self,
        alloc: Global,
        now: Moment,
        greatest_age: u32,
    ) -> Result<Packet, PacketFault>
        ensures packet { IfOk result (λ p. IsPacket self.now p) }
        ensures fresh { IfOk result (IsFresh now.0 greatest_age) }
        ensures every_packet { ReadsFreshPacket self.now now.0 greatest_age result }

        ensures first_fault { IfErr result (IsReportedFault self.now now.0 greatest_age) }
        ensures each_fault { ReportsFirstFault self.now now.0 greatest_age result }
    {
        if let Some(fault) = fault_of(self, now, greatest_age) {
            return Err(fault);
        }
        match packet_in(alloc, self.bytes()) {
            Ok(packet) => Ok(packet),
            Err(_) => Err(PacketFault::OutOfMemory),
        }
    }
}

/// Reads the bytes as the packet that they are, at the moment `now`.
///
/// The first fault is reported: `BadVersion`, `BadCheckWord`, `Stale`, `EmptyHost`, in this order.
/// `OutOfMemory` is reported only of bytes without a fault, when no memory is left for the texts.
///
/// `greatest_age` is in seconds, and with 0 no packet is stale; nor is one whose timestamp is later
/// than `now`. The check word covers the padding and the bytes after a text's NUL, which have no
/// meaning otherwise.
///
/// Source: `data_packet` of NSCA 2.9, `common.h`, version 3. Own rules: which packet is stale, that
/// a packet names a host, and the order of the faults.
pub fn decode(
    alloc: Global,
    bytes: &[u8; PACKET_SIZE],
    now: Moment,
    greatest_age: u32,
) -> Result<Packet, PacketFault>
    ensures packet { IfOk result (λ p. IsPacket bytes.now p) }
    ensures fresh { IfOk result (IsFresh now.0 greatest_age) }
    // A packet that isn't stale is read, if there is memory for its texts.
    ensures every_packet { ReadsFreshPacket bytes.now now.0 greatest_age result }

    ensures first_fault { IfErr result (IsReportedFault bytes.now now.0 greatest_age) }
    ensures each_fault { ReportsFirstFault bytes.now now.0 greatest_age result }
{
    BlockRef::of(bytes).decode(alloc, now, greatest_age)
}

/// Reads the bytes as the packet of the older form that they are, by the rules of `decode`.
pub fn decode_short(
    alloc: Global,
    bytes: &[u8; SHORT_PACKET_SIZE],
    now: Moment,
    greatest_age: u32,
) -> Result<Packet, PacketFault>
    ensures packet { IfOk result (λ p. IsPacket bytes.now p) }
    ensures fresh { IfOk result (IsFresh now.0 greatest_age) }
    ensures every_packet { ReadsFreshPacket bytes.now now.0 greatest_age result }

    ensures first_fault { IfErr result (IsReportedFault bytes.now now.0 greatest_age) }
    ensures each_fault { ReportsFirstFault bytes.now now.0 greatest_age result }
{
    BlockRef::of(bytes).decode(alloc, now, greatest_age)
}

/// Reads a block as the packet that it is, by the rules of `decode`.
pub fn decode_block(
    alloc: Global,
    block: &Block,
    now: Moment,
    greatest_age: u32,
) -> Result<Packet, PacketFault>
    ensures packet { IfOk result (λ p. IsPacket (block_bytes block.now) p) }
    ensures fresh { IfOk result (IsFresh now.0 greatest_age) }
    ensures every_packet { ReadsFreshPacket (block_bytes block.now) now.0 greatest_age result }

    ensures first_fault { IfErr result
        (IsReportedFault (block_bytes block.now) now.0 greatest_age) }
    ensures each_fault { ReportsFirstFault (block_bytes block.now) now.0 greatest_age result }
{
    match block {
        Block::Short(bytes) => decode_short(alloc, bytes, now, greatest_age),
        Block::Long(bytes) => decode(alloc, bytes, now, greatest_age),
    }
}

/// Does nothing. Its contract is a law: bytes are at most one packet, which is their content and
/// one that `Packet::new` accepts; bytes of a packet's size without a fault are a packet, and the
/// only fault that a packet's bytes can have is `Stale`. So what `encode` writes of a packet is read
/// by `decode` as that packet, unless it is stale or memory runs out; and what `decode_short` reads
/// can be written by `encode_short`.
pub fn one_reading()
    ensures one { (bytes : List ℕ) → IsAtMostOnePacket bytes }
    ensures content { (bytes : List ℕ) (p : Content) → IsContentOfBytes bytes p }
    ensures packet { (bytes : List ℕ) (now greatest_age : ℕ)
        → IsPacketIfFaultless bytes now greatest_age }
    ensures no_fault { (bytes : List ℕ) (p : Content) (now greatest_age : ℕ)
        → IsFaultlessOrStale bytes p now greatest_age }
    ensures short { (bytes : List ℕ) (p : Content) → FitsShortIfRead bytes p }
{}
