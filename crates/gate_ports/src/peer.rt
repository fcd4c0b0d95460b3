ghost use Rattle.std.specs.Prelude.{◌≡◌, ◌≢◌, ◌≤◌, ◌++◌, [], length, true, false, IsTrue, OnOk, OnErr, IfOk, IfSome};
ghost use Rattle.gate_ports.specs.Ending.{is_answered, HasAll};

use crate::cutting::front;
use crate::held::Held;
use crate::reading::{read_after, read_once, write_once};
use crate::resetting::{WasReset, reset};
use crate::standing::since_after;
use crate::texts::Texts;
use crate::unsent::Unsent;
use gate_turns::{Page, Role, Stage, Standing};
use std::alloc::Global;
use std::io;
use std::io::ErrorKind;
use std::net::{Shutdown, TcpStream};

// How often a peer is read from before others are looked at.
const READS: usize = 16;

/// How a connection ended.
#[derive(Clone, Copy)]
pub(crate) enum Ended {
    /// In order: its peer reads all that it was sent, and then the end.
    InOrder,
    /// By a reset: its peer can't take what it has for all that there is.
    Reset(WasReset),
}

/// A peer of a port. Its connection ends with it: in order where it has all that is written for it, else
/// by a reset. An agent gets no answers, so its connection ends in order.
pub(crate) struct Peer {
    pub(crate) stream: TcpStream,
    pub(crate) held: Held,
    // The bytes for it that the system hasn't taken yet.
    pub(crate) unsent: Unsent,
    // The text that it is sent last, and how many bytes that has, where it didn't take all at once.
    text: u64,
    text_bytes: u64,
    // Whether a read or a write may find something to do.
    pub(crate) may_read: bool,
    pub(crate) may_write: bool,
    // It sends no more.
    pub(crate) has_ended: bool,
    // No piece of it was served.
    pub(crate) is_new: bool,
    // Something was written for it in its last piece.
    has_answer: bool,
    // It took all, and was sent the end.
    has_all: bool,
    /// Why it can't be served any more.
    pub(crate) failure: Option<ErrorKind>,
    ghost all: { IsTrue has_all → HasAll held.role is_new has_answer unsent },
}

impl Drop for Peer {
    fn drop(self) {
        let (_ended, _room) = self.end();
    }
}

impl Peer {
    ghost use Rattle.gate_ports.specs.Since.{stopped};
    ghost use Rattle.gate_ports.specs.Peers.{page_of, can_begin, is_awaited, is_spent, is_interrupted, CountsLines, HandsOn, HandsOut, Sends, IsSameBy, KeepsTime};

    /// A new peer, with this room for what it sends. What it has sent by now is reported.
    pub(crate) fn new(alloc: Global, role: Role, stream: TcpStream, room: Vec<u8>) -> Peer
        requires { room.items ≡ [] }
        ensures role { result.held.role ≡ role }
        ensures held { result.held.bytes.items ≡ [] }
        ensures unsent { result.unsent ≡ [] }
        ensures is_new { result.is_new ≡ true }
        ensures unread { result.may_read ≡ false }
    {
        Peer {
            stream,
            held: Held::new(alloc, role, room),
            unsent: Unsent::new(alloc),
            text: 0,
            text_bytes: 0,
            may_read: false,
            may_write: true,
            has_ended: false,
            is_new: true,
            has_answer: false,
            has_all: false,
            failure: None,
        }
    }

    // Ends its connection: how, and the room that it had.
    fn end(self) -> (Ended, Vec<u8>)
        ensures in_order { result.0 ≡ Ended.InOrder → self.held.role ≢ Role.Agent
            → HasAll self.held.role self.is_new self.has_answer self.unsent }
        ensures all { IsTrue self.has_all → result.0 ≡ Ended.InOrder }
        ensures agent { self.held.role ≡ Role.Agent → result.0 ≡ Ended.InOrder }
        ensures room { result.1.items ≡ [] }
    {
        let Self {
            stream,
            held,
            has_all,
            unsent: _,
            text: _,
            text_bytes: _,
            may_read: _,
            may_write: _,
            has_ended: _,
            is_new: _,
            has_answer: _,
            failure: _,
        } = self;
        let ended = if has_all || held.role == Role::Agent {
            Ended::InOrder
        } else {
            Ended::Reset(reset(stream))
        };
        (ended, held.into_room())
    }

    /// Ends its connection: the room that it had, for the next one.
    pub(crate) fn leave(self) -> Vec<u8>
        ensures { result.items ≡ [] }
    {
        let (_ended, room) = self.end();
        room
    }

    /// From now on it is owed an answer: whether it was never owed one before.
    pub(crate) fn owe_answer(&mut self) -> bool
        ensures first { result ≡ self.old.is_new }
        ensures served { self.new.is_new ≡ false }
        ensures unanswered { self.new.has_answer ≡ false }
        ensures unsent { self.new.unsent ≡ self.old.unsent }
        ensures held { self.new.held ≡ self.old.held }
    {
        let is_first = self.is_new;
        self.has_all = false;
        self.is_new = false;
        self.has_answer = false;
        is_first
    }

    /// The daemon ends: how the peer stands from now on. None: it is let go at once. What an operator has
    /// brought, or sends by then, isn't answered any more.
    pub(crate) fn stop(&mut self, standing: Standing, now: u64) -> Option<Standing>
        ensures stands { result ≡ stopped standing now }
        ensures unanswered { standing.stage ≡ Stage.Open → IfSome result (λ _.
            (self.new.is_new ≡ false) × (self.new.has_answer ≡ false)) }
        ensures unsent { self.new.unsent ≡ self.old.unsent }
        ensures held { self.new.held ≡ self.old.held }
    {
        match (standing.stage, standing.role) {
            (Stage::Open, Role::Agent | Role::Reader) => None,
            (Stage::Open, Role::Operator) => {
                self.owe_answer();
                Some(Standing {
                    stage: Stage::Last,
                    since: now,
                    ..standing
                })
            }
            (Stage::Last, _) => Some(Standing {
                since: now,
                ..standing
            }),
            (Stage::Parting, _) => Some(standing),
        }
    }

    /// Whether it can be served: a reader as soon as it comes; an agent to be greeted, and once it brought
    /// a whole packet, or its end within one; an operator once a line has ended and its answers were taken.
    pub(crate) fn can_begin(&self) -> bool
        ensures { result ≡ can_begin self.now }
    {
        match self.held.role {
            Role::Reader => true,
            Role::Agent if self.is_new => true,
            Role::Agent | Role::Operator => self.held.is_whole() && self.unsent.is_empty(),
        }
    }

    // Whether more of it is awaited. What a reader sends is not.
    fn is_awaited(&self) -> bool
        ensures { result ≡ is_awaited self.now }
    {
        !matches!(self.held.role, Role::Reader)
            && !self.has_ended
            && !self.held.is_whole()
            && self.unsent.is_empty()
    }

    // It has ended, and nothing is left of it to serve: an agent was also greeted.
    fn is_spent(&self) -> bool
        ensures { result ≡ is_spent self.now }
    {
        let is_to_be_greeted = self.is_new && matches!(self.held.role, Role::Agent);
        self.has_ended && !is_to_be_greeted && !self.held.is_whole()
    }

    // Whether nothing is left to be answered.
    fn is_answered(&self) -> bool
        ensures { result ≡ is_answered self.now.held.role self.now.is_new self.now.has_answer }
    {
        match self.held.role {
            Role::Agent => true,
            Role::Operator => self.is_new || self.has_answer,
            Role::Reader => self.has_answer,
        }
    }

    /// Whether something is left to do that isn't reported again.
    pub(crate) fn is_interrupted(&self, stage: Stage) -> bool
        ensures { result ≡ is_interrupted stage self.now }
    {
        match stage {
            Stage::Open => self.may_read && self.is_awaited(),
            Stage::Last => false,
            Stage::Parting => self.may_read,
        }
    }

    // Reads once, and keeps what came.
    fn receive(&mut self, scratch: &mut [u8]) -> io::Result<()>
        ensures length { length scratch.new ≡ length scratch.old }
        ensures kept { OnOk result (HandsOn self.old 0 [] self.new) }
        ensures lines { CountsLines self.old 0 [] self.new }
        ensures same { IsSameBy self.old self.new }
    {
        let count = read_once(&self.stream, scratch)?;
        self.may_read = count.is_some();
        match count {
            None => {}
            Some(0) => {
                self.has_ended = true;
                self.held.end();
            }
            Some(count) => self.held.add(&scratch[..count])?,
        }
        Ok(())
    }

    // Reads packets into the buffer, after what is kept of one: how many bytes can be served. What is no
    // whole packet is kept.
    fn read_packets(&mut self, buf: &mut [u8]) -> io::Result<usize>
        requires role { self.old.held.role ≡ Role.Agent }
        requires none { self.old.held.whole ≡ 0 }
        requires room { length self.old.held.bytes.items ≤ length buf.old }
        ensures length { length buf.new ≡ length buf.old }
        ensures handed { IfOk result (λ count. HandsOut self.old count buf.new self.new) }
        ensures same { IsSameBy self.old self.new }
    {
        let begun = self.held.copy_begun(buf);
        let read = read_after(&self.stream, buf, begun)?;
        self.may_read = read.is_some();
        match read {
            None => Ok(0),
            Some(0) => {
                self.has_ended = true;
                self.held.end();
                Ok(self.held.hand_out(buf))
            }
            Some(count) => {
                let (whole, kept) = self.held.split(front(buf, begun + count));
                if kept.is_err() {
                    self.failure = Some(ErrorKind::OutOfMemory);
                }
                Ok(whole)
            }
        }
    }

    // Reads once: how many bytes that can be served were moved into the buffer.
    fn read_some(&mut self, buf: &mut [u8], scratch: &mut [u8]) -> io::Result<usize>
        ensures length { length buf.new ≡ length buf.old }
        ensures scratch { length scratch.new ≡ length scratch.old }
        ensures handed { IfOk result (λ count. HandsOut self.old count buf.new self.new) }
        ensures same { IsSameBy self.old self.new }
    {
        if self.held.fits(buf.len()) {
            return self.read_packets(buf);
        }
        self.receive(scratch)?;
        Ok(self.held.hand_out(buf))
    }

    /// Moves what is to be served into the buffer, also what can be read by now: how many bytes. 0: there
    /// is nothing more by now, or its piece has had its lines.
    pub(crate) fn hand_out(&mut self, buf: &mut [u8], scratch: &mut [u8]) -> io::Result<usize>
        ensures length { length buf.new ≡ length buf.old }
        ensures scratch { length scratch.new ≡ length scratch.old }
        ensures handed { IfOk result (λ count. HandsOut self.old count buf.new self.new) }
        ensures same { IsSameBy self.old self.new }
    {
        for _ in 0..READS {
            if let Some(kind) = self.failure {
                return Err(io::Error::from(kind));
            }
            if self.held.is_whole() {
                return Ok(self.held.hand_out(buf));
            }
            if !self.may_read || !self.is_awaited() {
                return Ok(0);
            }
            let count = self.read_some(buf, scratch)?;
            if count > 0 {
                return Ok(count);
            }
        }
        Ok(0)
    }

    // Sends what is left for it, as much as it takes.
    fn send(&mut self) -> io::Result<()>
        ensures sent { Sends self.old.unsent self.new.unsent }
        ensures held { self.new.held ≡ self.old.held }
        ensures is_new { self.new.is_new ≡ self.old.is_new }
    {
        for _ in 0..u64::MAX {
            if !self.may_write || self.unsent.is_empty() {
                return Ok(());
            }
            match write_once(&self.stream, self.unsent.next())? {
                None => self.may_write = false,
                Some(0) => return Err(io::Error::from(ErrorKind::WriteZero)),
                Some(count) => self.unsent.advance(count),
            }
        }
        Ok(())
    }

    // Sends these bytes, of which it keeps those that the peer doesn't take at once: for a reader with others
    // who read the same.
    fn put_all(&mut self, bytes: &[u8], texts: &mut Texts) -> io::Result<()>
        requires { self.old.has_all ≡ false }
        ensures sent { OnOk result
            (Sends (self.old.unsent ++ bytes.now) self.new.unsent) }
        ensures held { self.new.held ≡ self.old.held }
        ensures is_new { self.new.is_new ≡ self.old.is_new }
        ensures open { self.new.has_all ≡ false }
    {
        if !self.unsent.is_empty() {
            return Ok(self.unsent.add(bytes)?);
        }
        let mut rest = bytes;
        for _ in 0..u64::MAX {
            if rest.is_empty() {
                return Ok(());
            }
            match write_once(&self.stream, rest)? {
                None => break,
                Some(0) => return Err(io::Error::from(ErrorKind::WriteZero)),
                Some(count) => rest = &rest[count..],
            }
        }
        self.may_write = false;
        if let Role::Reader = self.held.role {
            let taken = bytes.len() - rest.len();
            let kept = texts.keep(bytes)?;
            self.text = kept.number;
            self.text_bytes = bytes.len() as u64;
            self.unsent.share(kept.text, taken);
            Ok(())
        } else {
            Ok(self.unsent.add(rest)?)
        }
    }

    /// Sends an answer, or a page, of which it keeps those bytes that the peer doesn't take at once. Where
    /// that fails, the peer can't have all.
    pub(crate) fn put(&mut self, bytes: &[u8], texts: &mut Texts) -> io::Result<()>
        ensures sent { OnOk result
            (Sends (self.old.unsent ++ bytes.now) self.new.unsent) }
        ensures held { self.new.held ≡ self.old.held }
        ensures is_new { self.new.is_new ≡ self.old.is_new }
        ensures answered { OnOk result (self.new.has_answer ≡ true) }
        ensures cut { OnErr result (self.new.has_answer ≡ false) }
    {
        self.has_all = false;
        let sent = self.put_all(bytes, texts);
        self.has_answer = sent.is_ok();
        sent
    }

    /// What it has of its page.
    pub(crate) fn page(&self) -> Page
        ensures { result ≡ page_of self.now }
    {
        let left = self.unsent.len();
        Page {
            text: self.text,
            bytes: self.text_bytes,
            taken: (u128::from(self.text_bytes).saturating_sub(left)) as u64,
        }
    }

    // Reads what is there by now, up to something to serve.
    fn receive_all(&mut self, scratch: &mut [u8]) -> io::Result<()>
        ensures length { length scratch.new ≡ length scratch.old }
        ensures kept { OnOk result (HandsOn self.old 0 [] self.new) }
        ensures same { IsSameBy self.old self.new }
    {
        for _ in 0..READS {
            if !self.may_read || !self.is_awaited() {
                break;
            }
            self.receive(scratch)?;
        }
        Ok(())
    }

    // Reads what is there by now, and drops it: whether the peer has ended its side.
    fn drop_all(&mut self, scratch: &mut [u8]) -> io::Result<bool>
        ensures length { length scratch.new ≡ length scratch.old }
        ensures unsent { self.new.unsent ≡ self.old.unsent }
    {
        for _ in 0..READS {
            if !self.may_read {
                break;
            }
            let count = read_once(&self.stream, scratch)?;
            self.may_read = count.is_some();
            if count == Some(0) {
                return Ok(true);
            }
        }
        Ok(false)
    }

    // What comes after a look at the peer: whether the connection goes on.
    fn go_further(
        &mut self,
        standing: &mut Standing,
        scratch: &mut [u8],
        now: u64,
    ) -> io::Result<bool>
        ensures length { length scratch.new ≡ length scratch.old }
        ensures time { KeepsTime standing.old standing.new }
    {
        if standing.stage == Stage::Open && self.is_spent() {
            if standing.role == Role::Agent {
                return Ok(false);
            }
            standing.stage = Stage::Last;
        }
        if standing.stage == Stage::Last && self.unsent.is_empty() {
            if self.is_answered() {
                self.stream.shutdown(Shutdown::Write)?;
                self.has_all = true;
            } else if standing.role == Role::Reader {
                return Ok(false);
            }
            standing.stage = Stage::Parting;
            standing.since = now;
        }
        if standing.stage == Stage::Parting {
            return Ok(!self.drop_all(scratch)?);
        }
        Ok(true)
    }

    /// Does what can be done without waiting: whether the connection goes on. What an agent sends gives it
    /// no more time.
    pub(crate) fn go_on(
        &mut self,
        standing: &mut Standing,
        scratch: &mut [u8],
        now: u64,
    ) -> io::Result<bool>
        ensures length { length scratch.new ≡ length scratch.old }
        ensures time { KeepsTime standing.old standing.new }
    {
        let (was_sent, was_whole) = (self.unsent.is_empty(), self.held.is_whole());
        self.send()?;
        if standing.stage == Stage::Open {
            self.receive_all(scratch)?;
        }
        let has_taken = !was_sent && self.unsent.is_empty();
        let has_brought = !was_whole && self.held.is_whole();
        standing.since = since_after(*standing, has_taken || has_brought, now);
        self.go_further(standing, scratch, now)
    }
}
