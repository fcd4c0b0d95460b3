ghost use Rattle.std.specs.Prelude.{◌≡◌, false, None, IsSomeAnd};

use crate::first::Turn;
use gate_environment::{Hold, Point, pause};
use gate_model::{Moment, Outcome, Record};
use std::sync::Wait;
use std::sync::atomic::{AtomicBool, AtomicU64, Ordering};
use std::thread;
use std::time::{Clock, Duration};

// How long the ports stay shut after the last item that is kept was taken by the applier, for a page that
// shows it: that is made 6 ms after the last item, of a large gateway later.
const SHOWN_MILLIS: u64 = 200;

// How many rests the applier may take no item, until those that are left are given up: a full log has no
// place for them.
const MOST_RESTS: u32 = 500;

/// What is opened to peers once all that is kept was served.
pub trait Opens {
    fn open(&self);
}

/// The order of what is kept: its packets, its lines, and then the peers.
#[derive(Drop)]
pub struct Order {
    are_packets_served: AtomicBool,
    taken: AtomicU64,
}

impl Order {
    /// Nothing was served yet.
    pub fn new() -> Order {
        Order {
            are_packets_served: AtomicBool::new(false),
            taken: AtomicU64::new(0),
        }
    }
}

/// Counts the items that the applier has taken. Of another thread it counts nothing.
#[derive(Drop)]
pub struct TakenCount<'a> {
    order: Option<&'a Order>,
}

impl<'a> TakenCount<'a> {
    /// Counts for this order.
    pub fn of(order: &'a Order) -> TakenCount<'a>
        ensures { IsSomeAnd result.order (λ counted. counted.now ≡ order.now) }
    {
        TakenCount { order: Some(order) }
    }

    /// Counts nothing.
    pub fn none() -> TakenCount<'a>
        ensures { result.order ≡ None }
    {
        TakenCount { order: None }
    }
}

impl<'a> Hold for TakenCount<'a> {
    fn pass(&mut self, point: Point) {
        if let (Some(order), Point::BeforeApply) = (self.order, point) {
            order.taken.fetch_add(1, Ordering::SeqCst);
        }
    }

    fn see(&mut self, _opening: Moment, _records: &[Record], _outcomes: &[Outcome]) {}
}

/// The turn of packets: at once. That of a worker without any is no turn.
#[derive(Drop)]
pub struct PacketTurn<'a> {
    order: Option<&'a Order>,
    is_over: bool,
}

impl<'a> PacketTurn<'a> {
    /// The turn of the worker that serves the packets.
    pub fn of(order: &'a Order) -> PacketTurn<'a>
        ensures order { IsSomeAnd result.order (λ told. told.now ≡ order.now) }
        ensures begins { result.is_over ≡ false }
    {
        PacketTurn {
            order: Some(order),
            is_over: false,
        }
    }

    /// That of another worker.
    pub fn none() -> PacketTurn<'a>
        ensures order { result.order ≡ None }
        ensures begins { result.is_over ≡ false }
    {
        PacketTurn {
            order: None,
            is_over: false,
        }
    }
}

impl<'a> Turn for PacketTurn<'a> {
    ghost use Rattle.std.specs.Prelude.{◌≡◌, true};

    ghost is_over = { λ turn. turn.is_over ≡ true };

    fn is_over(&self) -> bool {
        self.is_over
    }

    fn begin(&mut self) {}

    fn finish(&mut self) {
        if let Some(order) = self.order {
            order.are_packets_served.store(true, Ordering::SeqCst);
        }
        self.is_over = true;
    }
}

/// The turn of lines: after that of packets, which an acknowledgement needs. Then the ports are opened.
#[derive(Drop)]
pub struct LineTurn<'a, R, P> {
    rt: &'a R,
    order: &'a Order,
    ports: &'a P,
    items: u64,
    is_over: bool,
}

impl<'a, R, P> LineTurn<'a, R, P> {
    /// The turn of lines, after which these ports are opened; so many packets and lines are kept.
    pub fn new(rt: &'a R, order: &'a Order, ports: &'a P, items: u64) -> LineTurn<'a, R, P>
        ensures order { result.order.now ≡ order.now }
        ensures ports { result.ports.now ≡ ports.now }
        ensures items { result.items ≡ items }
        ensures begins { result.is_over ≡ false }
    {
        LineTurn {
            rt,
            order,
            ports,
            items,
            is_over: false,
        }
    }
}

// Waits until the applier has taken so many items, or takes none any more.
fn await_taken<R: Wait + Clock>(rt: &R, order: &Order, items: u64) {
    let mut last = 0;
    let mut rests = 0;
    for _ in rt.forever() {
        let taken = order.taken.load(Ordering::SeqCst);
        if taken >= items || rests >= MOST_RESTS {
            return;
        }
        rests = if taken == last { rests + 1 } else { 0 };
        last = taken;
        pause(rt);
    }
}

impl<'a, R: Wait + Clock, P: Opens> Turn for LineTurn<'a, R, P> {
    ghost use Rattle.std.specs.Prelude.{◌≡◌, true};

    ghost is_over = { λ turn. turn.is_over ≡ true };

    fn is_over(&self) -> bool {
        self.is_over
    }

    // The worker of packets comes to the end of its turn also where the gate closes.
    fn begin(&mut self) {
        for _ in self.rt.forever() {
            if self.order.are_packets_served.load(Ordering::SeqCst) {
                return;
            }
            pause(self.rt);
        }
    }

    fn finish(&mut self) {
        if self.items > 0 {
            await_taken(self.rt, self.order, self.items);
            thread::sleep(self.rt, Duration::from_millis(SHOWN_MILLIS));
        }
        self.ports.open();
        self.is_over = true;
    }
}
