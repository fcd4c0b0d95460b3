ghost use Rattle.std.specs.Prelude.{◌≡◌, ◌≤◌, ◌==◌, ◌∷◌, ◌++◌, [], reverse, length, take, count_by, IfOk, OnOk};
ghost use Rattle.std.specs.List.{concat, AllByRecursion};
ghost use Rattle.gate_kept.specs.Pieces.{IsShort};

use gate_model::Text;
use gate_packet::PACKET_SIZE;
use std::alloc::{AllocError, Global};

/// What of a kept text a worker serves.
#[derive(Clone, Copy)]
pub enum Part {
    /// Packets, one after the other.
    Packets,
    /// Lines, each with its LF.
    Lines,
}

// Where the line ends that has this number, from 1; or all bytes, where there are fewer lines.
fn lines_end(bytes: &[u8], most: u32) -> usize
    requires { 1 ≤ most }
    ensures within { result ≤ length bytes.now }
    ensures some { 1 ≤ length bytes.now → 1 ≤ result }
    ensures few { count_by (λ byte. byte == 10) (take result bytes.now) ≤ most }
{
    let mut count = 0;
    for (index, byte) in bytes.iter().enumerate() {
        if *byte == b'\n' {
            count += 1;
            if count == most {
                return index + 1;
            }
        }
    }
    bytes.len()
}

// Where the piece at the front of these bytes ends.
fn piece_end(bytes: &[u8], most: u32, part: Part) -> usize
    requires { 1 ≤ most }
    ensures within { result ≤ length bytes.now }
    ensures some { 1 ≤ length bytes.now → 1 ≤ result }
    ensures few { IsShort part most (take result bytes.now) }
{
    match part {
        Part::Packets => bytes.len().min(most as usize * PACKET_SIZE),
        Part::Lines => lines_end(bytes, most),
    }
}

/// The bytes of a part in pieces of at most so many packets or lines, the first one last. The only error
/// is out of memory.
pub fn pieces_of(
    alloc: Global,
    bytes: &[u8],
    most: u32,
    part: Part,
) -> Result<Vec<Text>, AllocError>
    requires { 1 ≤ most }
    ensures whole { IfOk result (λ pieces. concat (reverse pieces.items) ≡ bytes.now) }
    ensures each { IfOk result (λ pieces.
        AllByRecursion (IsShort part most) (reverse pieces.items)) }
{
    let mut pieces = Vec::new(alloc);
    let mut left = bytes;
    'left: while !left.is_empty() {
        let end = piece_end(left, most, part);
        let (piece, more) = left.split_at(end);
        pieces.push(Text::copied(alloc, piece)?)?;
        left = more;
    }
    pieces.reverse();
    Ok(pieces)
}
