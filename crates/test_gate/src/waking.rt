ghost use Rattle.std.specs.Prelude.{◌≡◌};

use crate::fakes::{AlwaysAt, is_reached, packet, settings};
use gate_daemon::{Endpoints, run_gateway};
use gate_environment::{Connections, Hold, Piece, PieceEnd, Point, Wake};
use gate_model::{Moment, Outcome, Record};
use gate_worker::Endpoint;
use std::alloc::Global;
use std::sync::Wait;
use std::sync::atomic::{AtomicU64, Ordering};
use std::thread;
use std::thread::Threads;
use std::time::Clock;

// How often who wakes a thread looks whether it has gone on: far less often than a thread looks
// whether it is woken.
const TURNS: u64 = 10_000;

// The page of a gateway without objects that is closing.
const LAST_PAGE: &[u8] = b"status 1000\nclosing;1000\n";

// How often threads were woken, and what they served.
#[derive(Drop)]
struct Seen {
    agents: AtomicU64,
    pages: AtomicU64,
    packets: AtomicU64,
    lines: AtomicU64,
    shown: AtomicU64,
    last_pages: AtomicU64,
}

fn nothing_seen() -> Seen {
    Seen {
        agents: AtomicU64::new(0),
        pages: AtomicU64::new(0),
        packets: AtomicU64::new(0),
        lines: AtomicU64::new(0),
        shown: AtomicU64::new(0),
        last_pages: AtomicU64::new(0),
    }
}

fn wait_for(count: &AtomicU64) {
    for _ in 0..TURNS {
        if count.load(Ordering::SeqCst) > 0 {
            return;
        }
        thread::yield_now();
    }
}

// Whoever is woken goes on before the gateway does.
impl Wake for Seen {
    fn agents(&self) {
        self.agents.fetch_add(1, Ordering::SeqCst);
        wait_for(&self.packets);
    }

    fn pages(&self) {
        self.pages.fetch_add(1, Ordering::SeqCst);
        wait_for(&self.shown);
    }
}

// One connection, which sends these bytes and comes once its thread is woken, or at once.
#[derive(Drop)]
struct OnePeer<'a> {
    alloc: Global,
    is_left: bool,
    bytes: &'a [u8],
    woken: Option<&'a AtomicU64>,
    seen: &'a Seen,
}

fn one_that_sends<'a>(
    alloc: Global,
    bytes: &'a [u8],
    woken: Option<&'a AtomicU64>,
    seen: &'a Seen,
) -> OnePeer<'a> {
    OnePeer {
        alloc,
        is_left: true,
        bytes,
        woken,
        seen,
    }
}

impl<'a> Connections for OnePeer<'a> {
    type In = &'a [u8];

    type Out = Vec<u8>;

    fn next(&mut self) -> Option<Piece<&'a [u8], Vec<u8>>> {
        if !self.is_left {
            return None;
        }
        self.is_left = false;
        match self.woken {
            Some(woken) if !is_reached(woken, 1) => None,
            _ => Some(Piece {
                place: 0,
                is_first: true,
                input: self.bytes,
                output: Vec::new(self.alloc),
            }),
        }
    }

    fn part(&mut self, piece: Piece<&'a [u8], Vec<u8>>, _end: PieceEnd)
        ensures { self.new.is_left ≡ self.old.is_left }
    {
        let written = piece.output.as_slice();
        if written == LAST_PAGE {
            self.seen.last_pages.fetch_add(1, Ordering::SeqCst);
        }
        if written.starts_with(b"status") {
            self.seen.shown.fetch_add(1, Ordering::SeqCst);
        }
    }

    fn end(&mut self) {}
}

// Counts the connections that a worker serves.
#[derive(Clone, Copy)]
struct Served<'a> {
    count: &'a AtomicU64,
}

impl<'a> Hold for Served<'a> {
    fn pass(&mut self, point: Point) {
        if point == Point::Session {
            self.count.fetch_add(1, Ordering::SeqCst);
        }
    }

    fn see(&mut self, _opening: Moment, _records: &[Record], _outcomes: &[Outcome]) {}
}

// Runs an agents' worker, whose agent comes once it is woken, and a reader of a page who comes
// once the pages are woken, beside an operator who shuts down: whether it finished.
fn close_on<R: Threads + Wait + Clock + Sync>(rt: &R, alloc: Global, seen: &Seen) -> Option<bool> {
    let bytes = packet(alloc)?;
    let mut agents = Vec::with_capacity(alloc, 1).ok()?;
    agents.push_reserved(Endpoint {
        connections: one_that_sends(alloc, &bytes, Some(&seen.agents), seen),
        hold: Served {
            count: &seen.packets,
        },
    });
    let operators = Served { count: &seen.lines };
    let endpoints = Endpoints {
        agents,
        operator: Endpoint {
            connections: one_that_sends(alloc, b"[1] SHUTDOWN_PROGRAM\n", None, seen),
            hold: operators,
        },
        pages: one_that_sends(alloc, b"", Some(&seen.pages), seen),
        applier: operators,
    };
    let settings = settings(alloc, 1)?;
    let finished = run_gateway(rt, alloc, settings, endpoints, &AlwaysAt(1000), seen);
    let is_finished = finished.is_ok();
    drop(finished);
    Some(is_finished)
}

// How many packets, lines and pages were served, and how many of these were the last page.
fn counts_in(seen: &Seen) -> [u64; 4] {
    [
        seen.packets.load(Ordering::SeqCst),
        seen.lines.load(Ordering::SeqCst),
        seen.shown.load(Ordering::SeqCst),
        seen.last_pages.load(Ordering::SeqCst),
    ]
}

// Woken before the gate is closed, the worker would serve its agent; woken before the board is
// marked closing, the pages would show an earlier one.
#[test]
fn threads_are_woken_once_there_is_nothing_more_to_wait_for(rt: HostRuntime) {
    let seen = nothing_seen();
    assert!(rt; close_on(&rt, rt.alloc(), &seen) == Some(true));
    assert!(rt; counts_in(&seen) == [0, 1, 1, 1]);
}
