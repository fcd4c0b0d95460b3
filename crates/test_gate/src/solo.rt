//! A World and a gate, each used by one thread alone: the same calls get the same answers.
ghost use Rattle.gate_core.specs.Merge.{IsClient};
ghost use Rattle.gate_core.specs.Legal.{Run};

use crate::parts::{body, two_clients};
use gate_core::{LocalClient, World};
use gate_replay::{EndedQueue, SoloGate, SoloQueue};
use std::alloc::Global;
use std::sync::Wait;

fn let_go<T: Drop>(_value: T) {}

// The number of a client's item, if it is queued.
fn queued<D: SoloQueue>(queue: D, client: u32, id: u32) -> (D, Option<u64>)
    requires begun { (run : Run) × D.after queue run }
    requires client { IsClient 2 client }
    ensures { (run : Run) × D.after result.0 run }
{
    let mut queue = queue.turn_to(client);
    let number = queue.submit(body(id)).ok();
    (queue, number)
}

// The client and the number of the item that is taken.
fn taken<D: SoloQueue>(queue: D) -> (D, Option<(u32, u64)>)
    requires { (run : Run) × D.after queue run }
    ensures { (run : Run) × D.after result.0 run }
{
    let (queue, item) = queue.take();
    let key = item.as_ref().map(|item| (item.client, item.number));
    let_go(item);
    (queue, key)
}

// The client and the number of an item that is left at the end.
fn taken_left<E: EndedQueue>(queue: E) -> (E, Option<(u32, u64)>)
    requires { (run : Run) × E.after queue run }
    ensures { (run : Run) × E.after result.0 run }
{
    let (queue, item) = queue.take_left();
    let key = item.as_ref().map(|item| (item.client, item.number));
    let_go(item);
    (queue, key)
}

// Three submissions, a take, the end of both clients, and takes until nothing is left.
fn leaves_two_items<D: SoloQueue>(queue: D) -> bool
where
    D::Ended: Drop,
    requires { (run : Run) × D.after queue run }
{
    let (queue, one) = queued(queue, 1, 5);
    let (queue, two) = queued(queue, 2, 6);
    let (queue, three) = queued(queue, 2, 7);
    let (queue, item) = taken(queue);
    let (queue, first) = taken_left(queue.end());
    let (queue, second) = taken_left(queue);
    let (_, third) = taken_left(queue);
    (one, two, three) == (Some(1), Some(1), Some(2))
        && (item, first, second) == (Some((1, 1)), Some((2, 1)), Some((2, 2)))
        && third.is_none()
}

fn world_leaves_two(alloc: Global) -> bool {
    let Ok(world) = World::open(alloc, 2, 4) else {
        return false;
    };
    match LocalClient::new(world, 1) {
        Ok(client) => leaves_two_items(client),
        Err(_) => false,
    }
}

fn gate_leaves_two<R: Wait>(rt: &R, alloc: Global) -> bool {
    match two_clients(alloc, 4, 9) {
        Some((gate, taker, closer, one, two)) => {
            leaves_two_items(SoloGate::new(rt, alloc, &gate, taker, closer, one, two))
        }
        None => false,
    }
}

#[test]
fn a_world_leaves_what_was_queued(rt: HostRuntime) {
    assert!(rt; world_leaves_two(rt.alloc()));
}

#[test]
fn a_gate_leaves_what_was_queued(rt: HostRuntime) {
    assert!(rt; gate_leaves_two(&rt, rt.alloc()));
}
