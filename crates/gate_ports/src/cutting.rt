//! Where whole packets end, and what is kept of lines.

ghost use Rattle.std.specs.Prelude.{◌≡◌, ◌≤◌, ◌<◌, ◌-◌, length, min, take, drop, false, IsTrue, IfSome, IfNone};
ghost use Rattle.gate_packet.specs.Stream.{begins_short, block_length, IsRest};
ghost use Rattle.gate_ports.specs.Held.{AreWhole, HasNoEnd, AreLines, line_ends};

use gate_packet::{PACKET_SIZE, SHORT_PACKET_SIZE, split_block};
use memchr::{memchr, memrchr};

// The bytes, or as many of them as are fewer than a long packet has.
fn fewer(bytes: &[u8]) -> &[u8]
    ensures { result.now ≡ take (min (length bytes.now) 4303) bytes.now }
{
    &bytes[..bytes.len().min(PACKET_SIZE - 1)]
}

// Whether the bytes begin with a short packet. Where it is known that they don't, its check word isn't
// taken.
fn begins_short(bytes: &[u8], is_long: bool) -> bool
    requires { IsTrue is_long → begins_short bytes.now ≡ false }
    ensures { result ≡ begins_short bytes.now }
{
    if is_long {
        return false;
    }
    // So that only a short packet's check word is taken.
    match split_block(fewer(bytes)) {
        Some(_) => true,
        None => false,
    }
}

// How many bytes the first packet has, where it is whole.
fn first_packet(bytes: &[u8], is_long: bool) -> Option<usize>
    requires { IsTrue is_long → begins_short bytes.now ≡ false }
    ensures some { IfSome result (λ size.
        (size ≡ block_length bytes.now) × (size ≤ length bytes.now)) }
    ensures none { IfNone result (IsRest bytes.now) }
{
    if begins_short(bytes, is_long) {
        Some(SHORT_PACKET_SIZE)
    } else if bytes.len() >= PACKET_SIZE {
        Some(PACKET_SIZE)
    } else {
        None
    }
}

/// The bytes after the first ones.
pub(crate) fn after(bytes: &[u8], count: usize) -> &[u8]
    requires { count ≤ length bytes.now }
    ensures { result.now ≡ drop count bytes.now }
{
    &bytes[count..]
}

/// The first bytes.
pub(crate) fn front(bytes: &[u8], count: usize) -> &[u8]
    requires { count ≤ length bytes.now }
    ensures { result.now ≡ take count bytes.now }
{
    &bytes[..count]
}

/// How many of the first bytes are whole packets, where the first so many of them are fewer than a
/// packet.
pub(crate) fn whole_packets(bytes: &[u8], begun: usize) -> usize
    requires begun { begun ≤ length bytes.now }
    requires fewer { IsRest (take begun bytes.now) }
    ensures bound { result ≤ length bytes.now }
    ensures whole { AreWhole bytes.now (drop result bytes.now) }
{
    let mut whole = 0;
    let mut is_long = begun >= SHORT_PACKET_SIZE;
    while let Some(size) = first_packet(after(bytes, whole), is_long) {
        whole += size;
        is_long = false;
    }
    whole
}

/// How many of the first bytes are whole lines: those up to the last LF.
pub(crate) fn whole_lines(bytes: &[u8]) -> usize
    ensures bound { result ≤ length bytes.now }
    ensures lines { AreLines (take result bytes.now) }
    ensures begun { HasNoEnd (drop result bytes.now) }
{
    match memrchr(b'\n', bytes) {
        Some(last) => last + 1,
        None => 0,
    }
}

/// How many of the first bytes are no more than so many lines, and how many lines end in them.
pub(crate) fn first_lines(bytes: &[u8], most: usize) -> (usize, usize)
    ensures bound { result.0 ≤ length bytes.now }
    ensures counted { result.1 ≡ line_ends (take result.0 bytes.now) }
    ensures most { result.1 ≤ most }
    ensures all { result.1 < most → result.0 ≡ length bytes.now }
    ensures ends { result.1 ≡ most → AreLines (take result.0 bytes.now) }
{
    let mut count = 0;
    for lines in 0..most {
        match memchr(b'\n', after(bytes, count)) {
            Some(end) => count += end + 1,
            None => return (bytes.len(), lines),
        }
    }
    (count, most)
}
