ghost use Rattle.std.specs.Prelude.{◌≡◌, ◌≢◌, ◌≤◌, ◌<◌, ◌-◌, ◌+◌, ◌++◌, ◌↔◌, [], length, min, take, drop, IsTrue, OnOk, IfOk};
ghost use Rattle.gate_packet.specs.Stream.{IsRest};
ghost use Rattle.gate_ports.specs.Held.{AreWhole, IsBegunPacket, IsBegunLine, HasNoEnd, held_with, AreWholeLines, AddsLines, HandsOutLines};

use crate::cutting::{after, first_lines, front, whole_lines, whole_packets};
use gate_model::LINE_LENGTH;
use gate_turns::Role;
use memchr::memchr;
use std::alloc::{AllocError, Global};

// How many bytes of a line are kept: one more than a line may have. A longer one is too long whatever
// comes after them, so these are dropped, up to the end of the line.
const KEPT: usize = LINE_LENGTH + 1;

// How many lines a piece hands out at most. So its answers are few, and nobody waits for more than these.
const PIECE_LINES: usize = 64;

/// The bytes of a peer that are not served yet: whole packets, or lines, and after them the beginning of
/// one more. Of an agent it takes no memory while it holds nothing; an operator keeps its room.
#[derive(Drop)]
pub(crate) struct Held {
    alloc: Global,
    pub(crate) role: Role,
    bytes: Vec<u8>,
    // Where the last whole packet, or line, ends.
    whole: usize,
    // How many lines were handed out in this piece.
    pub(crate) lines: usize,
    ghost ends: { whole ≤ length bytes.items },
    // Fewer bytes than a packet come after the whole ones, and no end of a line.
    ghost packet: { IsBegunPacket role (drop whole bytes.items) },
    ghost line: { IsBegunLine role (drop whole bytes.items) },
    ghost few: { lines ≤ 64 },
}

impl Held {
    /// Nothing is held, and there is this room for what comes.
    pub(crate) fn new(alloc: Global, role: Role, room: Vec<u8>) -> Held
        requires { room.items ≡ [] }
        ensures role { result.role ≡ role }
        ensures bytes { result.bytes.items ≡ [] }
        ensures whole { result.whole ≡ 0 }
    {
        Held {
            alloc,
            role,
            bytes: room,
            whole: 0,
            lines: 0,
        }
    }

    /// Its room. What it held is dropped.
    pub(crate) fn into_room(self) -> Vec<u8>
        ensures { result.items ≡ [] }
    {
        let Held {
            bytes: mut room,
            ..
        } = self;
        room.clear();
        room
    }

    /// A piece begins: no line of it was handed out.
    pub(crate) fn begin_piece(&mut self)
        ensures role { self.new.role ≡ self.old.role }
        ensures bytes { self.new.bytes.items ≡ self.old.bytes.items }
        ensures whole { self.new.whole ≡ self.old.whole }
        ensures lines { self.new.lines ≡ 0 }
    {
        self.lines = 0;
    }

    // Adds whole lines, the first of which goes on with the one that has begun, and none of which is too
    // long.
    fn add_whole(&mut self, lines: &[u8]) -> Result<(), AllocError>
        requires { self.old.role ≡ Role.Operator }
        ensures role { self.new.role ≡ self.old.role }
        ensures bytes { OnOk result
            (self.new.bytes.items ≡ self.old.bytes.items ++ lines.now) }
        ensures whole { OnOk result (self.new.whole ≡ length self.new.bytes.items) }
        ensures lines { self.new.lines ≡ self.old.lines }
    {
        self.bytes.extend_from_slice(lines)?;
        self.whole = self.bytes.len();
        Ok(())
    }

    // Adds bytes of the line that has begun.
    fn add_begun(&mut self, bytes: &[u8]) -> Result<(), AllocError>
        requires role { self.old.role ≡ Role.Operator }
        requires begun { HasNoEnd bytes.now }
        requires room { length self.old.bytes.items - self.old.whole + length bytes.now ≤ 8193 }
        ensures role { self.new.role ≡ self.old.role }
        ensures bytes { OnOk result
            (self.new.bytes.items ≡ self.old.bytes.items ++ bytes.now) }
        ensures whole { self.new.whole ≡ self.old.whole }
        ensures lines { self.new.lines ≡ self.old.lines }
    {
        self.bytes.extend_from_slice(bytes)
    }

    // Drops what comes of a line, up to its LF: what comes after it.
    fn end_line<'a>(&mut self, bytes: &'a [u8]) -> Result<&'a [u8], AllocError>
        requires role { self.old.role ≡ Role.Operator }
        requires full { 0 < length bytes.now → length self.old.bytes.items - self.old.whole ≡ 8193 }
        ensures role { self.new.role ≡ self.old.role }
        ensures shorter { IfOk result (λ rest. length rest.now ≤ length bytes.now - 1) }
        ensures kept { IfOk result (λ rest.
            held_with self.new.whole self.new.bytes.items rest.now
            ≡ held_with self.old.whole self.old.bytes.items bytes.now) }
        ensures ends { OnOk result (AreWholeLines (take self.old.whole self.old.bytes.items)
            (take self.new.whole self.new.bytes.items)) }
        ensures lines { self.new.lines ≡ self.old.lines }
    {
        match memchr(b'\n', bytes) {
            Some(end) => {
                self.add_whole(b"\n")?;
                Ok(after(bytes, end + 1))
            }
            None => Ok(&[]),
        }
    }

    // Adds the lines that end in the first of these bytes, or else what is kept of the line with which
    // they begin: what is left of them.
    fn add_first<'a>(&mut self, bytes: &'a [u8]) -> Result<&'a [u8], AllocError>
        requires role { self.old.role ≡ Role.Operator }
        requires some { 0 < length bytes.now }
        ensures role { self.new.role ≡ self.old.role }
        ensures shorter { IfOk result (λ rest. length rest.now < length bytes.now) }
        ensures kept { IfOk result (λ rest.
            held_with self.new.whole self.new.bytes.items rest.now
            ≡ held_with self.old.whole self.old.bytes.items bytes.now) }
        ensures ends { OnOk result (AreWholeLines (take self.old.whole self.old.bytes.items)
            (take self.new.whole self.new.bytes.items)) }
        ensures lines { self.new.lines ≡ self.old.lines }
    {
        // As many as are kept of a line: so none that ends in them is too long.
        let room = KEPT - (self.bytes.len() - self.whole);
        let first = front(bytes, bytes.len().min(room));
        let whole = whole_lines(first);
        if whole > 0 {
            self.add_whole(front(bytes, whole))?;
            return Ok(after(bytes, whole));
        }
        self.add_begun(first)?;
        self.end_line(after(bytes, first.len()))
    }

    // Adds lines. Where memory is missing, only some of them were added.
    fn add_lines(&mut self, piece: &[u8]) -> Result<(), AllocError>
        requires { self.old.role ≡ Role.Operator }
        ensures role { self.new.role ≡ self.old.role }
        ensures added { OnOk result (AddsLines self.old.whole self.old.bytes.items piece.now
            self.new.whole self.new.bytes.items) }
        ensures lines { self.new.lines ≡ self.old.lines }
    {
        let mut rest = piece;
        while !rest.is_empty() {
            rest = self.add_first(rest)?;
        }
        Ok(())
    }

    // Adds packets. Where memory is missing, nothing was added.
    fn add_packets(&mut self, piece: &[u8]) -> Result<(), AllocError>
        requires { self.old.role ≡ Role.Agent }
        ensures role { self.new.role ≡ self.old.role }
        ensures added { OnOk result (self.new.bytes.items ≡ self.old.bytes.items ++ piece.now) }
        ensures whole { OnOk result (AreWhole
            (drop self.old.whole self.old.bytes.items ++ piece.now)
            (drop self.new.whole self.new.bytes.items)) }
        ensures lines { self.new.lines ≡ self.old.lines }
    {
        let begun = self.bytes.len() - self.whole;
        self.bytes.extend_from_slice(piece)?;
        let more = whole_packets(&self.bytes[self.whole..], begun);
        self.whole += more;
        Ok(())
    }

    /// Adds what came. What the reader of a page sends is dropped.
    pub(crate) fn add(&mut self, piece: &[u8]) -> Result<(), AllocError>
        ensures role { self.new.role ≡ self.old.role }
        ensures added { self.old.role ≡ Role.Agent
            → OnOk result (self.new.bytes.items ≡ self.old.bytes.items ++ piece.now) }
        ensures lines_added { self.old.role ≡ Role.Operator
            → OnOk result (AddsLines self.old.whole self.old.bytes.items piece.now
            self.new.whole self.new.bytes.items) }
        ensures lines { self.new.lines ≡ self.old.lines }
    {
        match self.role {
            Role::Agent => self.add_packets(piece),
            Role::Operator => self.add_lines(piece),
            Role::Reader => Ok(()),
        }
    }

    /// Whether there is something to serve: a whole packet, or a whole line.
    pub(crate) fn is_whole(&self) -> bool
        ensures { IsTrue result ↔ (0 < self.now.whole) }
    {
        self.whole > 0
    }

    /// No more comes: the beginning of a packet or of a line is served too.
    pub(crate) fn end(&mut self)
        ensures role { self.new.role ≡ self.old.role }
        ensures bytes { self.new.bytes.items ≡ self.old.bytes.items }
        ensures whole { self.new.whole ≡ length self.old.bytes.items }
        ensures lines { self.new.lines ≡ self.old.lines }
    {
        self.whole = self.bytes.len();
    }

    // Drops the first bytes.
    fn advance(&mut self, count: usize)
        requires { count ≤ self.old.whole }
        ensures role { self.new.role ≡ self.old.role }
        ensures bytes { self.new.bytes.items ≡ drop count self.old.bytes.items }
        ensures whole { self.new.whole ≡ self.old.whole - count }
        ensures lines { self.new.lines ≡ self.old.lines }
    {
        let rest = self.bytes.len() - count;
        self.bytes.copy_within(count.., 0);
        self.bytes.truncate(rest);
        self.whole -= count;
        if rest == 0 && self.role != Role::Operator {
            self.bytes = Vec::new(self.alloc);
        }
    }

    // How many of the first bytes are lines that may be handed out, of which it takes note.
    fn next_lines(&mut self, most: usize) -> usize
        requires { most ≤ self.old.whole }
        ensures role { self.new.role ≡ self.old.role }
        ensures bytes { self.new.bytes.items ≡ self.old.bytes.items }
        ensures whole { self.new.whole ≡ self.old.whole }
        ensures lines { HandsOutLines self.old.lines (take most self.old.bytes.items) result
            self.new.lines }
    {
        let (count, lines) = first_lines(front(&self.bytes, most), PIECE_LINES - self.lines);
        self.lines += lines;
        count
    }

    /// Moves what is to be served, or as much of it as there is room for, into the buffer: how many bytes.
    /// In a piece no more than 64 lines are moved.
    pub(crate) fn hand_out(&mut self, buf: &mut [u8]) -> usize
        ensures role { self.new.role ≡ self.old.role }
        ensures length { length buf.new ≡ length buf.old }
        ensures bound { result ≤ min self.old.whole (length buf.old) }
        ensures count { self.old.role ≢ Role.Operator
            → result ≡ min self.old.whole (length buf.old) }
        ensures lines { self.old.role ≡ Role.Operator → HandsOutLines self.old.lines
            (take (min self.old.whole (length buf.old)) self.old.bytes.items) result self.new.lines }
        ensures moved { take result buf.new ≡ take result self.old.bytes.items }
        ensures rest { self.new.bytes.items ≡ drop result self.old.bytes.items }
        ensures whole { self.new.whole ≡ self.old.whole - result }
    {
        let most = self.whole.min(buf.len());
        let count = match self.role {
            Role::Operator => self.next_lines(most),
            Role::Agent | Role::Reader => most,
        };
        buf[..count].copy_from_slice(&self.bytes[..count]);
        self.advance(count);
        count
    }

    /// Whether what comes next can be read into a buffer of this size, and split there: a packet's
    /// beginning leaves room in it.
    pub(crate) fn fits(&self, size: usize) -> bool
        ensures { IsTrue result → (self.now.role ≡ Role.Agent) × (self.now.whole ≡ 0)
            × (length self.now.bytes.items < size) }
    {
        matches!(self.role, Role::Agent) && self.whole == 0 && self.bytes.len() < size / 2
    }

    /// Copies the beginning of a packet to the front of the buffer: how many bytes it has. What comes after
    /// it is read there, and then split by `split`.
    pub(crate) fn copy_begun(&self, buf: &mut [u8]) -> usize
        requires { length self.now.bytes.items ≤ length buf.old }
        ensures length { length buf.new ≡ length buf.old }
        ensures count { result ≡ length self.now.bytes.items }
        ensures copied { take result buf.new ≡ self.now.bytes.items }
    {
        let count = self.bytes.len();
        buf[..count].copy_from_slice(&self.bytes);
        count
    }

    // Keeps this beginning of a packet alone. Where memory is missing, nothing is kept.
    fn keep(&mut self, begun: &[u8]) -> Result<(), AllocError>
        requires none { self.old.whole ≡ 0 }
        requires fewer { IsRest begun.now }
        requires role { self.old.role ≡ Role.Agent }
        ensures role { self.new.role ≡ self.old.role }
        ensures none { self.new.whole ≡ 0 }
        ensures kept { OnOk result (self.new.bytes.items ≡ begun.now) }
    {
        match Vec::from_slice(self.alloc, begun) {
            Ok(kept) => {
                self.bytes = kept;
                Ok(())
            }
            Err(error) => {
                self.bytes = Vec::new(self.alloc);
                Err(error)
            }
        }
    }

    /// Keeps of these bytes, which begin with those that are kept, what is no whole packet: how many of
    /// them are whole packets, and whether there was memory for the others.
    pub(crate) fn split(&mut self, bytes: &[u8]) -> (usize, Result<(), AllocError>)
        requires role { self.old.role ≡ Role.Agent }
        requires none { self.old.whole ≡ 0 }
        requires more { length self.old.bytes.items ≤ length bytes.now }
        requires begun { take (length self.old.bytes.items) bytes.now ≡ self.old.bytes.items }
        ensures role { self.new.role ≡ self.old.role }
        ensures bound { result.0 ≤ length bytes.now }
        ensures whole { AreWhole bytes.now (drop result.0 bytes.now) }
        ensures kept { OnOk result.1 (self.new.bytes.items ≡ drop result.0 bytes.now) }
        ensures none { self.new.whole ≡ 0 }
    {
        let whole = whole_packets(bytes, self.bytes.len());
        (whole, self.keep(after(bytes, whole)))
    }
}
