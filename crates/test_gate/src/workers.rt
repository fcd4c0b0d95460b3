ghost use Rattle.std.specs.Prelude.{◌≡◌};

use crate::fakes::{AlwaysAt, Sending, limits, packet};
use crate::parts::one_client;
use gate_environment::NoHold;
use gate_queue::{Gate, Taker};
use gate_reader::{Answer, Report, Stop};
use gate_worker::{Cause, WorkerEnd, run_worker};
use std::alloc::Global;
use std::sync::Wait;
use std::time::Clock;

// Whether the one packet of a connection is queued as the item of this number.
fn is_queued(report: &Report, number: u64) -> bool {
    let is_number = match report.answers.as_slice() {
        [Answer::Queued(found)] => *found == number,
        _ => false,
    };
    is_number && report.stop == Stop::End
}

// Whether the worker ended after its connections, and reports two of a packet each.
fn reports_both(end: &WorkerEnd) -> bool {
    let are_queued = match end.reports.as_slice() {
        [first, second] => is_queued(first, 1) && is_queued(second, 2),
        _ => false,
    };
    are_queued && end.cause == Cause::NoMoreConnections
}

// Whether the next item is the first client's of this number.
fn is_next<R: Wait>(rt: &R, gate: &Gate, taker: &mut Taker, number: u64) -> bool
    requires { taker.old.gate ≡ gate.now }
    ensures { taker.new.gate ≡ taker.old.gate }
{
    match taker.take(rt, gate) {
        Some(item) => {
            let is_next = item.client == 1 && item.number == number;
            drop(item);
            is_next
        }
        None => false,
    }
}

// Whether two connections of a packet each are answered, and queued, one after the other.
fn accounts_for_both<R: Wait + Clock>(rt: &R, alloc: Global, bytes: &[u8]) -> bool {
    let Some((gate, mut taker, client)) = one_client(alloc, 16) else {
        return false;
    };
    let sending = Sending {
        alloc,
        connections: 2,
        bytes,
    };
    let end = run_worker(
        rt,
        alloc,
        &gate,
        client,
        None,
        sending,
        &AlwaysAt(1020),
        NoHold,
        limits(),
    );
    let are_reported = reports_both(&end);
    drop(end);
    let is_first = is_next(rt, &gate, &mut taker, 1);
    let is_second = is_next(rt, &gate, &mut taker, 2);
    let is_third = is_next(rt, &gate, &mut taker, 3);
    drop(taker);
    drop(gate);
    are_reported && is_first && is_second && !is_third
}

#[test]
fn a_worker_whose_connections_have_ended_reports_what_it_queued(rt: HostRuntime) {
    let accounts_for_both = match packet(rt.alloc()) {
        Some(bytes) => accounts_for_both(&rt, rt.alloc(), &bytes),
        None => false,
    };
    assert!(rt; accounts_for_both);
}

// Whether a worker without connections ends, at a gate that nobody has closed, and reports nothing.
fn ends_without_connections<R: Wait + Clock>(rt: &R, alloc: Global) -> bool {
    let Some((gate, taker, client)) = one_client(alloc, 16) else {
        return false;
    };
    let sending = Sending {
        alloc,
        connections: 0,
        bytes: &[],
    };
    let end = run_worker(
        rt,
        alloc,
        &gate,
        client,
        None,
        sending,
        &AlwaysAt(1020),
        NoHold,
        limits(),
    );
    let has_ended = end.cause == Cause::NoMoreConnections && end.reports.is_empty();
    drop(end);
    drop(taker);
    drop(gate);
    has_ended
}

#[test]
fn a_worker_without_connections_ends(rt: HostRuntime) {
    assert!(rt; ends_without_connections(&rt, rt.alloc()));
}
