ghost use Rattle.std.specs.Prelude.{◌≡◌, ℕ, List, Option, None, Some, IfSome, IsSome, true, length, option_map};
ghost use Rattle.gate_model.specs.declared.record.Moment.{Moment};
ghost use Rattle.gate_model.specs.declared.record.Outcome.{Outcome};
ghost use Rattle.gate_model.specs.declared.record.Record.{Record};
ghost use Rattle.gate_environment.specs.Streams.{AreSent, ComesNext};
ghost use Rattle.gate_environment.specs.Parting.{parting};
ghost use Rattle.gate_environment.specs.Points.{passing};
ghost use Rattle.gate_environment.specs.declared.connections.PieceEnd.{PieceEnd};
ghost use Rattle.gate_environment.specs.declared.connections.Point.{Point};

use crate::clock::Clock;
use gate_model::{Moment, Outcome, Record};
use gate_streams::{Sink, Source};

/// A piece of a connection: packets or lines that its peer has sent, up to where others are served, or
/// all of them.
#[derive(Drop)]
pub struct Piece<I, O> {
    /// Which of a worker's connections it is of, from 0. Those that are open at the same time have
    /// different places.
    pub place: usize,
    /// Whether it is the first one of its connection.
    pub is_first: bool,
    /// What the peer sends. It ends where the piece ends.
    pub input: I,
    /// Where its answers go.
    pub output: O,
}

/// What becomes of a connection after a piece of it was served.
#[derive(Clone, Copy)]
pub enum PieceEnd {
    /// It may have more pieces. Whether something of this one was queued.
    GoesOn { has_queued: bool },
    /// It has none any more, whatever its peer sends.
    Over,
}

/// Where a worker's connections come from, in pieces: those of one connection in order, beside those of
/// others.
///
/// A type that leaves a member out claims nothing by it.
pub trait Connections {
    type In: Source + Drop + Send;

    type Out: Sink + Drop + Send;

    // What the connections from here on send, one after the other, where it is known. Then each of them is
    // one piece.
    ghost streams: { Self → Option (List (List ℕ)) } = { λ _. None };

    // What became of the pieces that were taken back, the first one first, where that is known.
    ghost parted: { Self → Option (List PieceEnd) } = { λ _. None };

    /// The next piece of a connection. None: there are no more.
    fn next(&mut self) -> Option<Piece<Self::In, Self::Out>>
        ensures comes { ComesNext (streams self.old)
            (option_map (λ piece. (Self.In.state piece.input).left) result)
            (streams self.new) }
        ensures whole { IsSome (streams self.old) → IfSome result (λ piece. piece.is_first ≡ true) }
        ensures none_parts { parted self.new ≡ parted self.old };

    /// Takes back a piece that was served, and ends its connection where that is over. Its peer receives
    /// all that was written.
    fn part(&mut self, piece: Piece<Self::In, Self::Out>, end: PieceEnd)
        ensures none_comes { streams self.new ≡ streams self.old }
        ensures parts { parted self.new ≡ parting end (parted self.old) };

    /// Ends all connections, once no more are asked for. None comes after it.
    fn end(&mut self)
        ensures sent { AreSent (streams self.new) }
        ensures none_parts { parted self.new ≡ parted self.old };
}

/// A point of a thread's way at which a `Hold` is called.
#[derive(Clone, Copy)]
pub enum Point {
    /// A worker has a piece of a connection, and serves it next.
    Session,
    /// A worker has the report of a piece.
    Answered,
    /// The applier has taken an item, and applies it next.
    BeforeApply,
}

/// Holds a thread up at some points of its way, and sees the applier's log.
///
/// A type that leaves a member out claims nothing by it.
pub trait Hold {
    // The points that the thread has passed, the first one first, where that is known.
    ghost passed: { Self → Option (List Point) } = { λ _. None };

    // The log as it was seen last, where that is known: its records in order, and the outcome of each.
    ghost seen: { Self → Option (List Record × List Outcome) } = { λ _. None };

    /// The thread has come to this point, and goes on once this returns.
    fn pass(&mut self, point: Point)
        ensures passed { passed self.new ≡ passing point (passed self.old) }
        ensures seen { seen self.new ≡ seen self.old };

    /// The applier's log is this by now: the moment of its opening, its records in order, and the outcome
    /// of each. The applier goes on once this returns.
    fn see(&mut self, opening: Moment, records: &[Record], outcomes: &[Outcome])
        requires { length records.now ≡ length outcomes.now }
        ensures seen { IsSome (seen self.old)
            → seen self.new ≡ Some (records.now, outcomes.now) }
        ensures passed { passed self.new ≡ passed self.old };
}

/// Holds no thread up, and sees nothing.
#[derive(Clone, Copy)]
pub struct NoHold;

impl Hold for NoHold {
    fn pass(&mut self, _point: Point) {}

    fn see(&mut self, _opening: Moment, _records: &[Record], _outcomes: &[Outcome]) {}
}

/// A clock that threads share.
///
/// A type that leaves the member out claims nothing by it.
pub trait Watch {
    // The clock may show this moment.
    ghost shows: { Self → Moment → Type 0 } = { λ _ _. Unit {0} };

    /// Reads the clock.
    fn read(&self) -> Moment
        ensures { shows self.now result };
}

/// A session's view of a shared clock. Each reading is one that the shared clock may show; which one
/// isn't known.
#[derive(Drop)]
pub struct SharedClock<'a, K: Watch>(pub &'a K);

impl<'a, K: Watch> Clock for SharedClock<'a, K> {
    ghost use Rattle.gate_environment.specs.Clock.{clock_within};

    ghost state = { λ clock. clock_within (K.shows clock.0.now) };

    fn now(&mut self) -> Moment {
        self.0.read()
    }
}

/// Wakes threads that wait for a connection or for a peer, so that they look at the gate or the board
/// again.
///
/// Who wants to know that they were woken has to wake them: only these calls tell. A type that leaves the
/// members out claims nothing by them.
pub trait Wake {
    // The workers that serve packets were woken.
    ghost has_woken_agents: { Self → Type 0 } = { λ _. Unit {0} };

    // The thread that serves pages was woken.
    ghost has_woken_pages: { Self → Type 0 } = { λ _. Unit {0} };

    /// Wakes the workers that serve packets, once the gate is closing.
    fn agents(&self)
        ensures { has_woken_agents self.now };

    /// Wakes the thread that serves pages, once a board is published that is marked closing.
    fn pages(&self)
        ensures { has_woken_pages self.now };
}
