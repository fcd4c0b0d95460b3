ghost use Rattle.std.specs.Prelude.{◌≡◌, [], ◌++◌, ◌≤◌, ℕ, List, drop, length, IfSome, IfNone, OnOk, OnErr};
ghost use Rattle.gate_packet.specs.Stream.{Begins, IsRest, HasCut, HasOneCut, KeepsBlocks, IsRestInWords, IsReadAsShort, block_bytes};
ghost use Rattle.gate_packet.specs.Packet.{Content};

use crate::block::Block;
use crate::block_ref::split_block;
use std::alloc::{AllocError, Global};
use std::marker::Model;

// A copy of the first block of the bytes, if it is whole.
fn first_block(bytes: &[u8]) -> Option<Block>
    ensures some { IfSome result (λ block.
        Begins bytes.now (block_bytes block) (drop (length (block_bytes block)) bytes.now)
        × (length (block_bytes block) ≤ length bytes.now)) }
    ensures none { IfNone result (IsRest bytes.now) }
{
    match split_block(bytes) {
        Some((block, _)) => Some(block.to_block()),
        None => None,
    }
}

/// Cuts a stream into blocks, each of which is to be read as a packet. Contracts see the bytes that
/// it holds: those that were fed and not yet returned in a block.
#[derive(Drop)]
pub struct Cutter {
    fed: Vec<u8>,
    // How many of the first bytes were returned in blocks.
    returned: usize,
}

impl Model for Cutter {
    ghost use Rattle.std.specs.Prelude.{◌≤◌, List, ℕ, drop, vec_len};

    ghost Value = { List ℕ };

    ghost view = { λ c. drop c.returned c.fed.items };

    ghost invariant = { λ c. c.returned ≤ vec_len c.fed };
}

impl Cutter {
    /// Makes a Cutter that holds no bytes.
    pub fn new(alloc: Global) -> Cutter
        ensures { result ≡ [] }
    {
        Cutter {
            fed: Vec::new(alloc),
            returned: 0,
        }
    }

    /// Adds a piece of the stream after the bytes that are held.
    ///
    /// It fails only where memory runs out, and then holds what it held before. However the stream
    /// is cut into pieces, the bytes that feeding moves are at most some constant times those fed.
    pub fn feed(&mut self, piece: &[u8]) -> Result<(), AllocError>
        ensures ok { OnOk result (self.new ≡ self.old ++ piece.now) }
        ensures err { OnErr result (self.new ≡ self.old) }
    {
        // Each byte that is moved down has one of its own that was returned since the last move.
        if self.returned >= self.rest() {
            self.move_down();
        }
        self.fed.extend_from_slice(piece)
    }

    // Moves the bytes that are held to the start, so that their room can be used again.
    fn move_down(&mut self)
        ensures { self.new ≡ self.old }
    {
        let rest = self.rest();
        self.fed.copy_within(self.returned.., 0);
        self.fed.truncate(rest);
        self.returned = 0;
    }

    /// Returns the first block of the bytes that are held, which it then holds no longer. None is
    /// returned exactly where they are fewer than a block, and they stay.
    ///
    /// Own rule: where 720 bytes carry version 3 and their own check word, they are a block of the
    /// older form; otherwise a block has 4304 bytes.
    pub fn next_packet(&mut self) -> Option<Block>
        ensures some { IfSome result (λ block. Begins self.old (block_bytes block) self.new) }
        ensures none { IfNone result ((self.new ≡ self.old) × IsRest self.old) }
    {
        match first_block(self.bytes()) {
            Some(block) => {
                self.returned += block.bytes().len();
                Some(block)
            }
            None => None,
        }
    }

    fn bytes(&self) -> &[u8]
        ensures { result.now ≡ self.now }
    {
        &self.fed[self.returned..]
    }

    /// How many bytes are held.
    pub fn rest(&self) -> usize
        ensures { result ≡ length self.now }
    {
        self.fed.len() - self.returned
    }
}

/// Does nothing. Its contract is a law: a stream is cut into blocks and a rest in exactly one way,
/// and bytes that come later change none of its blocks. So however a stream is cut into pieces, a
/// Cutter returns the same blocks. A rest is fewer than 4304 bytes that don't begin with a block of
/// 720. Where the first 720 bytes of a packet are a block, they are read as that packet with the
/// first 511 bytes of its output.
pub fn one_cut()
    ensures some { (bytes : List ℕ) → HasCut bytes }
    ensures one { (bytes : List ℕ) → HasOneCut bytes }
    ensures later { (bytes later : List ℕ) → KeepsBlocks bytes later }
    ensures rest { (bytes : List ℕ) → IsRestInWords bytes }
    ensures read_as_short { (bytes : List ℕ) (p : Content) → IsReadAsShort bytes p }
{}
