ghost use Rattle.std.specs.Prelude.{◌≡◌, ◌⊎◌, ◌≢◌, ◌+◌, ◌/◌, ◌==◌, count_by, ◌≤◌, ◌<◌, [], ◌∷◌, ◌++◌, length, false, true, MatchOption, List, IfOk, OnOk, IfSome, IfNone};
ghost use Rattle.gate_packet.specs.Decoding.{fault_of};
ghost use Rattle.gate_grammar.specs.Spelling.{holds};
ghost use Rattle.gate_kept.specs.Kept.{IsKept, begins_packet, IsBlock, IsGoodPacket, IsBadPacket, IsGoodLine, IsBadLine, IsPacketPart, IsLinePart, cut_line, IsAfterPackets};
ghost use Rattle.gate_kept.specs.inner.Judged.{IsJudged};

use crate::fault::KeptFault;
use gate_grammar::{LineFault, read_line};
use gate_model::{Body, Moment};
use gate_packet::{PACKET_SIZE, PacketFault, decode};
use memchr::memchr;
use std::alloc::{AllocError, Global};

/// What is taken of a text, and the faults of the rest.
#[derive(Drop)]
pub struct Kept {
    /// The packets, one after the other.
    pub packets: Vec<u8>,
    /// The lines, each with its LF.
    pub lines: Vec<u8>,
    /// The faults of the others, in the order of the text.
    pub faults: Vec<KeptFault>,
}

impl Kept {
    /// How many packets and lines there are.
    pub fn count(&self) -> u64
        ensures { result ≡ length self.now.packets.items / 4304
            + count_by (λ byte. byte == 10) self.now.lines.items }
    {
        let packets = self.packets.len() / PACKET_SIZE;
        let lines = self.lines.iter().filter(|byte| **byte == b'\n').count();
        packets as u64 + lines as u64
    }
}

// ---- packets

fn begins_packet(bytes: &[u8]) -> bool
    ensures { result ≡ begins_packet bytes.now }
{
    bytes.first() == Some(&0)
}

// Splits off the packet with which the bytes begin, if it is whole.
fn split_packet(bytes: &[u8]) -> Option<(&[u8; PACKET_SIZE], &[u8])>
    ensures some { IfSome result (λ parts. (bytes.now ≡ parts.0.now ++ parts.1.now)
        × IsBlock parts.0.now) }
    ensures none { IfNone result
        ((begins_packet bytes.now ≡ false) ⊎ (length bytes.now < 4304)) }
{
    if begins_packet(bytes) {
        bytes.split_first_chunk()
    } else {
        None
    }
}

// The fault of a packet, if it has one.
fn packet_fault(alloc: Global, bytes: &[u8; PACKET_SIZE]) -> Result<Option<PacketFault>, AllocError>
    ensures { IfOk result (λ fault. fault ≡ fault_of bytes.now 4294967295 1) }
{
    // At the last moment there is, so that one is too old whatever the daemon's clock shows.
    match decode(alloc, bytes, Moment(u32::MAX), 1) {
        Ok(packet) => {
            drop(packet);
            Ok(None)
        }
        Err(PacketFault::OutOfMemory) => Err(AllocError),
        Err(fault) => Ok(Some(fault)),
    }
}

// Takes a packet of this number, or names its fault.
fn take_packet(
    alloc: Global,
    number: u64,
    bytes: &[u8; PACKET_SIZE],
    packets: &mut Vec<u8>,
    faults: &mut Vec<KeptFault>,
) -> Result<(), AllocError>
    ensures { OnOk result (IsJudged IsGoodPacket IsBadPacket bytes.now number bytes.now
        packets.old.items packets.new.items faults.old.items faults.new.items) }
{
    match packet_fault(alloc, bytes)? {
        Some(fault) => faults.push(KeptFault::Packet(number, fault))?,
        None => packets.extend_from_slice(bytes)?,
    }
    Ok(())
}

// Takes the packets at the beginning of a text, and names their faults: what stands after them, and
// how many there were.
fn take_packets<'a>(
    alloc: Global,
    text: &'a [u8],
    packets: &mut Vec<u8>,
    faults: &mut Vec<KeptFault>,
) -> Result<(&'a [u8], u64), AllocError>
    requires packets { packets.old.items ≡ [] }
    requires faults { faults.old.items ≡ [] }
    ensures part { IfOk result (λ found. IsPacketPart text.now found.0.now packets.new.items
        found.1 faults.new.items) }
    ensures after { IfOk result (λ found. (begins_packet found.0.now ≡ false)
        ⊎ (length found.0.now < 4304)) }
    ensures few { IfOk result (λ found. found.1 ≤ length text.now) }
{
    let mut left = text;
    let mut count = 0;
    'packets: while let Some((bytes, more)) = split_packet(left) {
        count += 1;
        take_packet(alloc, count, bytes, packets, faults)?;
        left = more;
    }
    Ok((left, count))
}

// ---- lines

// The bytes before the first LF, and those after it.
fn split_line(bytes: &[u8]) -> Option<(&[u8], &[u8])>
    ensures { MatchOption result (holds 10 bytes.now ≡ false)
        (λ parts. (bytes.now ≡ parts.0.now ++ 10 ∷ parts.1.now)
        × (holds 10 parts.0.now ≡ false)) }
{
    let end = memchr(b'\n', bytes)?;
    Some((&bytes[..end], &bytes[end + 1..]))
}

// The fault of a line of this number, if it has one.
fn line_fault(alloc: Global, number: u64, line: &[u8]) -> Result<Option<KeptFault>, AllocError>
    ensures good { IfOk result (λ fault. IfNone fault (IsGoodLine line.now)) }
    ensures bad { IfOk result (λ fault. IfSome fault (IsBadLine number line.now)) }
{
    match read_line(alloc, line) {
        Ok(command) => {
            let is_shutdown = matches!(command.body, Body::Shutdown);
            drop(command);
            Ok(is_shutdown.then_some(KeptFault::Shutdown(number)))
        }
        Err(LineFault::OutOfMemory) => Err(AllocError),
        Err(fault) => Ok(Some(KeptFault::Line(number, fault))),
    }
}

// Takes a line of this number, or names its fault.
fn take_line(
    alloc: Global,
    number: u64,
    line: &[u8],
    lines: &mut Vec<u8>,
    faults: &mut Vec<KeptFault>,
) -> Result<(), AllocError>
    ensures { OnOk result (IsJudged IsGoodLine IsBadLine line.now number (line.now ++ 10 ∷ [])
        lines.old.items lines.new.items faults.old.items faults.new.items) }
{
    match line_fault(alloc, number, line)? {
        Some(fault) => faults.push(fault)?,
        None => {
            lines.extend_from_slice(line)?;
            lines.extend_from_slice(b"\n")?;
        }
    }
    Ok(())
}

// Takes lines, and names their faults.
fn take_lines(
    alloc: Global,
    bytes: &[u8],
    lines: &mut Vec<u8>,
    faults: &mut Vec<KeptFault>,
) -> Result<(), AllocError>
    requires { lines.old.items ≡ [] }
    ensures { OnOk result ((named : List KeptFault) × IsLinePart bytes.now lines.new.items named
        × (faults.new.items ≡ faults.old.items ++ named)) }
{
    let mut left = bytes;
    let mut number = 1;
    'lines: while let Some((line, more)) = split_line(left) {
        take_line(alloc, number, line, lines, faults)?;
        number += 1;
        left = more;
    }
    if !left.is_empty() {
        faults.push(KeptFault::CutLine(number))?;
    }
    Ok(())
}

/// What is taken of a text that an earlier run has left, and the faults of the rest. The only error is
/// out of memory. Own rule.
pub fn read_kept(alloc: Global, text: &[u8]) -> Result<Kept, AllocError>
    ensures { IfOk result (λ kept.
        IsKept text.now kept.packets.items kept.lines.items kept.faults.items) }
{
    let mut packets = Vec::new(alloc);
    let mut lines = Vec::new(alloc);
    let mut faults = Vec::new(alloc);
    let (after, count) = take_packets(alloc, text, &mut packets, &mut faults)?;
    if begins_packet(after) {
        faults.push(KeptFault::CutPacket(count + 1))?;
    } else {
        take_lines(alloc, after, &mut lines, &mut faults)?;
    }
    Ok(Kept {
        packets,
        lines,
        faults,
    })
}
