//! Workers that serve connections, each of which sends the same bytes.
ghost use Rattle.std.specs.Prelude.{◌≡◌, [], IfSome};

use crate::fakes::{AlwaysAt, Sending, limits};
use crate::parts::one_client;
use crate::printing::{show_item, show_reports};
use gate_environment::NoHold;
use gate_queue::{Client, Closer, Gate, Taker};
use gate_worker::{WorkerEnd, run_worker};
use std::alloc::Global;
use std::io::Write;
use std::sync::Wait;
use std::time::Clock;

// Runs a worker over three connections, of which it may serve so many.
fn work<R: Wait + Clock>(
    rt: &R,
    alloc: Global,
    gate: &Gate,
    client: Client,
    closer: Option<Closer>,
    sessions: u32,
    bytes: &[u8],
) -> WorkerEnd
    requires gate { client.gate ≡ gate.now }
    requires closer { IfSome closer (λ c. c.cell ≡ gate.now.cell) }
    requires fresh { client.queued ≡ [] }
{
    let connections = 3;
    run_worker(
        rt,
        alloc,
        gate,
        client,
        closer,
        Sending { connections, bytes },
        &AlwaysAt(1500),
        NoHold,
        limits(sessions),
    )
}

fn show_end(end: WorkerEnd, shown: &mut Vec<u8>) {
    let _ = writeln!(shown, "{:?}", end.cause);
    show_reports(1, &end.reports, shown);
    drop(end);
}

// Takes and prints each item.
fn show_items<R: Wait>(rt: &R, gate: &Gate, taker: Taker, shown: &mut Vec<u8>)
    requires { taker.gate ≡ gate.now }
{
    let mut taker = taker;
    for _ in 0..16 {
        match taker.take(rt, gate) {
            Some(item) => show_item(&item, shown),
            None => break,
        }
    }
}

/// Plays an agents' worker that may serve two connections, over a queue with room: whether its gate
/// could be opened.
pub fn play_worker<R: Wait + Clock>(
    rt: &R,
    alloc: Global,
    bytes: &[u8],
    shown: &mut Vec<u8>,
) -> bool {
    match one_client(alloc, 16, shown) {
        Some((gate, taker, _, client)) => {
            show_end(work(rt, alloc, &gate, client, None, 2, bytes), shown);
            show_items(rt, &gate, taker, shown);
            true
        }
        None => false,
    }
}

/// Plays an operators' worker that may serve all connections, over a queue for one item: whether its
/// gate could be opened.
pub fn play_operator<R: Wait + Clock>(
    rt: &R,
    alloc: Global,
    bytes: &[u8],
    shown: &mut Vec<u8>,
) -> bool {
    match one_client(alloc, 1, shown) {
        Some((gate, taker, closer, client)) => {
            // What finds the queue full doesn't wait: the items are taken once the worker has ended.
            gate.stop_taking();
            show_end(
                work(rt, alloc, &gate, client, Some(closer), 4, bytes),
                shown,
            );
            show_items(rt, &gate, taker, shown);
            true
        }
        None => false,
    }
}
