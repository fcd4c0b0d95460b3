//! Bodies that are queued, refused and taken.
ghost use Rattle.std.specs.Prelude.{◌≡◌};

use crate::parts::{Answer, one_client, submitted, taken, two_clients};
use gate_core::{OpenFault, World};
use gate_queue::{Client, Gate, Taker, open_with};
use std::alloc::Global;
use std::sync::Wait;

// What two clients, who may queue two items each, and a taker are answered at a queue with room for
// one item.
fn answers_with_room_for_one<R: Wait>(
    rt: &R,
    gate: &Gate,
    one: &mut Client,
    two: &mut Client,
    taker: &mut Taker,
) -> bool
    requires one { one.old.gate ≡ gate.now }
    requires two { two.old.gate ≡ gate.now }
    requires taker { taker.old.gate ≡ gate.now }
    ensures one { one.new.gate ≡ gate.now }
    ensures taker { taker.new.gate ≡ gate.now }
{
    let empty = taken(rt, gate, taker);
    let submissions = (submitted(rt, gate, one, 5), submitted(rt, gate, two, 6));
    let first = taken(rt, gate, taker);
    let again = (submitted(rt, gate, two, 7), taken(rt, gate, taker));
    let last = (submitted(rt, gate, one, 8), taken(rt, gate, taker));
    let spent = submitted(rt, gate, one, 9);
    empty.is_none()
        && submissions == (Answer::Queued(1), Answer::Full(6))
        && first == Some((1, 1, 5))
        && again == (Answer::Queued(1), Some((2, 1, 7)))
        && last == (Answer::Queued(2), Some((1, 2, 8)))
        && spent == Answer::Spent(9)
}

// Whether the first client is taken in alone, once it has ended, with its two items.
fn is_taken_in_alone(gate: &Gate, taker: &mut Taker, one: Client) -> bool
    requires taker { taker.old.gate ≡ gate.now }
    requires one { one.gate ≡ gate.now }
{
    let ended = one.end();
    let is_first = ended.number() == 1 && !ended.knows_of_close();
    taker.take_in(gate, ended);
    is_first && taker.taken_in(1) && !taker.taken_in(2) && taker.total_queued() == 2
}

fn is_full_until_a_take<R: Wait>(rt: &R, alloc: Global) -> bool {
    match two_clients(alloc, 1, 2) {
        Some((gate, mut taker, closer, mut one, mut two)) => {
            drop(closer);
            let is_full = answers_with_room_for_one(rt, &gate, &mut one, &mut two, &mut taker);
            drop(two);
            let is_taken_in = is_taken_in_alone(&gate, &mut taker, one);
            let clients = gate.clients();
            drop(gate);
            drop(taker);
            is_full && is_taken_in && clients == 2
        }
        None => false,
    }
}

#[test]
fn a_full_queue_has_room_after_a_take(rt: HostRuntime) {
    assert!(rt; is_full_until_a_take(&rt, rt.alloc()));
}

// How many bodies are queued before the first that is refused as Full.
fn queued_before_full<R: Wait>(rt: &R, gate: &Gate, client: &mut Client) -> usize
    requires { client.old.gate ≡ gate.now }
{
    for count in 0..100_000usize {
        match submitted(rt, gate, client, 5) {
            Answer::Queued(_) => {}
            Answer::Full(5) => return count,
            _ => return 100_000,
        }
    }
    100_000
}

fn room<R: Wait>(rt: &R, alloc: Global, capacity: usize) -> usize {
    match one_client(alloc, capacity) {
        Some((gate, taker, mut client)) => {
            let count = queued_before_full(rt, &gate, &mut client);
            drop(client);
            drop(taker);
            drop(gate);
            count
        }
        None => 0,
    }
}

#[test]
fn a_queue_is_full_exactly_at_its_capacity(rt: HostRuntime) {
    for capacity in [1, 7, 65_536] {
        assert!(rt; room(&rt, rt.alloc(), capacity) == capacity, "{capacity}");
    }
}

// The limits are 1 to 64 clients, 1 to 65,536 places, and 1 submission or more of each client.
static BAD_OPENINGS: [(u32, usize, u32, OpenFault); 5] = [
    (0, 1, 9, OpenFault::BadCount),
    (65, 1, 9, OpenFault::BadCount),
    (1, 0, 9, OpenFault::BadCapacity),
    (1, 65_537, 9, OpenFault::BadCapacity),
    (1, 4, 0, OpenFault::BadQuota),
];

// Why a gate isn't opened, and why the model of one isn't.
fn opening_faults(
    alloc: Global,
    clients: u32,
    capacity: usize,
    quota: u32,
) -> (Option<OpenFault>, Option<OpenFault>) {
    let gate = match open_with(alloc, clients, capacity, quota) {
        Ok(_) => None,
        Err(fault) => Some(fault),
    };
    let world = match World::open_with(alloc, clients, capacity, quota) {
        Ok(_) => None,
        Err(fault) => Some(fault),
    };
    (gate, world)
}

#[test]
fn a_gate_out_of_its_limits_is_not_opened(rt: HostRuntime) {
    for (clients, capacity, quota, fault) in BAD_OPENINGS {
        let faults = opening_faults(rt.alloc(), clients, capacity, quota);
        assert!(rt; faults == (Some(fault), Some(fault)), "{fault}");
    }
}
