ghost use Rattle.std.specs.Prelude.{◌≡◌, ◌≢◌, ◌≤◌, None, IsNone, IsSome, IsSomeAnd, true, false};
ghost use Rattle.gate_ports.specs.Serving.{last_time};

use crate::port::Worker;
use gate_environment::times::LAST_READER_MILLIS;
use gate_environment::{Connections, Piece, PieceEnd};
use gate_streams::{Sink, Source};
use gate_turns::Role;
use std::io;
use std::sync::Wait;
use std::sync::atomic::Ordering;
use std::time::{Clock, Instant};

/// Those who send packets.
#[derive(Clone, Copy)]
pub struct Agents;

/// Those who send lines.
#[derive(Clone, Copy)]
pub struct Operators;

/// Those who get pages.
#[derive(Clone, Copy)]
pub struct Readers;

/// The connections of agents, in pieces: each is greeted, and then served whenever it has brought whole
/// packets. There are no more once the daemon is to end.
pub type AgentConnections<'a, R> = PeerConnections<'a, R, Agents>;

/// The connections of operators, in pieces: each is served whenever it has brought a whole line. There are no
/// more once the daemon is to end and none has a line to serve.
pub type OperatorConnections<'a, R> = PeerConnections<'a, R, Operators>;

/// The connections of readers of pages, each of one piece. There are no more once the daemon is to end
/// and none comes for half a second.
pub type ReaderConnections<'a, R> = PeerConnections<'a, R, Readers>;

/// What a peer of a port sends: whole packets of an agent, whole lines of an operator. A piece ends where
/// nothing more is there by now, and where others can be served; no read waits. A read fails with
/// ConnectionAborted where the daemon is to end.
#[derive(Drop)]
pub struct PeerInput<'a, R> {
    rt: &'a R,
    worker: &'a Worker,
}

/// What a peer of a port is sent. What the peer doesn't take at once is kept, and sent as it takes it.
#[derive(Drop)]
pub struct PeerOutput<'a, R> {
    rt: &'a R,
    worker: &'a Worker,
}

/// The connections of one worker of a port, to peers of this kind.
#[derive(Drop)]
pub struct PeerConnections<'a, R, K: Copy> {
    rt: &'a R,
    worker: &'a Worker,
    _kind: K,
}

impl<'a, R, K: Copy> PeerConnections<'a, R, K> {
    pub(crate) fn new(rt: &'a R, worker: &'a Worker, kind: K) -> PeerConnections<'a, R, K>
        ensures { result.worker.now ≡ worker.now }
    {
        PeerConnections {
            rt,
            worker,
            _kind: kind,
        }
    }
}

// For how many milliseconds peers may still come once the daemon is to end.
fn last_millis(role: Role) -> u64
    ensures { result ≡ last_time role }
{
    match role {
        Role::Agent | Role::Operator => 0,
        Role::Reader => LAST_READER_MILLIS,
    }
}

// What is left of a time in milliseconds, from the first call on; nothing where the clock can't be read.
fn time_left<R: Clock>(rt: &R, began: &mut Option<Instant>, millis: u64) -> u64
    ensures bound { result ≤ millis }
    ensures first { IsNone began.old → result ≢ 0 → IsSome began.new }
{
    match *began {
        Some(first) => match first.elapsed(rt) {
            Ok(elapsed) => {
                millis.saturating_sub(u64::try_from(elapsed.as_millis()).unwrap_or(millis))
            }
            Err(_) => 0,
        },
        None => {
            *began = Instant::now(rt).ok();
            if began.is_some() { millis } else { 0 }
        }
    }
}

// For how long is waited at most: once the daemon is to end, for what is left of this time since then.
fn most_wait<R: Clock>(
    rt: &R,
    is_ending: bool,
    ended: &mut Option<Instant>,
    last: u64,
) -> Option<u64>
    ensures ending { is_ending ≡ true → IsSomeAnd result (λ most. most ≤ last) }
    ensures going { is_ending ≡ false → result ≡ None }
{
    if is_ending {
        Some(time_left(rt, ended, last))
    } else {
        None
    }
}

// A piece of the peer at this place, which its worker serves.
fn piece_at<'a, R>(
    rt: &'a R,
    worker: &'a Worker,
    place: usize,
    is_first: bool,
) -> Piece<PeerInput<'a, R>, PeerOutput<'a, R>>
    ensures { (result.place ≡ place) × (result.is_first ≡ is_first) }
{
    Piece {
        place,
        is_first,
        input: PeerInput { rt, worker },
        output: PeerOutput { rt, worker },
    }
}

impl<'a, R: Wait + Clock + Sync, K: Copy + Drop + Send> Connections for PeerConnections<'a, R, K> {
    type In = PeerInput<'a, R>;

    type Out = PeerOutput<'a, R>;

    fn next(&mut self) -> Option<Piece<PeerInput<'a, R>, PeerOutput<'a, R>>> {
        let shared = &self.worker.shared;
        let role = self.worker.rules.role;
        let last = last_millis(role);
        let mut ended = None;
        for _ in self.rt.forever() {
            // Before the look at the peers, so that none that waits by then is left out, and nobody waits
            // without end after the wake.
            let is_ending = shared.is_ending.load(Ordering::SeqCst);
            let is_open = shared.is_open.load(Ordering::SeqCst);
            if is_ending && role == Role::Agent {
                return None;
            }
            let most = most_wait(self.rt, is_ending, &mut ended, last);
            let next = self
                .worker
                .serving
                .lock(self.rt)
                .next(self.rt, is_open, is_ending, most);
            if let Some((place, is_first)) = next {
                return Some(piece_at(self.rt, self.worker, place, is_first));
            }
            if is_ending && most == Some(0) {
                return None;
            }
        }
        unreachable!()
    }

    fn part(&mut self, piece: Piece<PeerInput<'a, R>, PeerOutput<'a, R>>, end: PieceEnd)
        ensures { self.new ≡ self.old }
    {
        let mut serving = self.worker.serving.lock(self.rt);
        serving.part(self.rt, piece.is_first, end);
    }

    fn end(&mut self) {
        self.worker.serving.lock(self.rt).end(self.rt);
    }
}

impl<'a, R: Wait + Clock> Source for PeerInput<'a, R> {
    fn take_some(&mut self, buf: &mut [u8]) -> io::Result<usize> {
        let is_ending = self.worker.shared.is_ending.load(Ordering::SeqCst);
        let mut serving = self.worker.serving.lock(self.rt);
        serving.hand_out(self.rt, buf, is_ending)
    }
}

impl<'a, R: Wait + Clock> Sink for PeerOutput<'a, R> {
    fn put(&mut self, bytes: &[u8]) -> io::Result<()> {
        self.worker.serving.lock(self.rt).put(bytes)
    }

    fn deliver(&mut self) -> io::Result<()> {
        Ok(())
    }
}
