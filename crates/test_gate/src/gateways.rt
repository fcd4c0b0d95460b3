//! Whole gateways on threads.
ghost use Rattle.std.specs.Prelude.{◌≡◌, ◌≤◌, IfSome, vec_len};

use crate::fakes::{AlwaysAt, NoWake, Sending, is_reached, packet, settings};
use gate_daemon::{Endpoints, Finished, GatewayFault, run_gateway};
use gate_environment::{Hold, Point};
use gate_model::{Moment, Outcome, Record};
use gate_worker::Endpoint;
use std::alloc::Global;
use std::sync::Wait;
use std::sync::atomic::{AtomicU64, Ordering};
use std::thread::Threads;
use std::time::Clock;

// How often the threads that are counted have passed each point, and how often a thread was kept for
// all of its turns.
#[derive(Drop)]
struct Met {
    sessions: AtomicU64,
    answered: AtomicU64,
    applied: AtomicU64,
    late: AtomicU64,
}

fn nobody_met() -> Met {
    Met {
        sessions: AtomicU64::new(0),
        answered: AtomicU64::new(0),
        applied: AtomicU64::new(0),
        late: AtomicU64::new(0),
    }
}

// Counts the points that a thread passes, if it is one that is counted, and keeps it at one of them
// until each count is reached.
#[derive(Clone, Copy)]
struct Meeting<'a> {
    met: &'a Met,
    is_counted: bool,
    kept: Point,
    sessions: u64,
    answered: u64,
    applied: u64,
}

impl<'a> Hold for Meeting<'a> {
    fn pass(&mut self, point: Point) {
        let met = self.met;
        if self.is_counted {
            let count = match point {
                Point::Session => &met.sessions,
                Point::Answered => &met.answered,
                Point::BeforeApply => &met.applied,
            };
            count.fetch_add(1, Ordering::SeqCst);
        }
        if point == self.kept
            && !(is_reached(&met.sessions, self.sessions)
                && is_reached(&met.answered, self.answered)
                && is_reached(&met.applied, self.applied))
        {
            met.late.fetch_add(1, Ordering::SeqCst);
        }
    }

    fn see(&mut self, _opening: Moment, _records: &[Record], _outcomes: &[Outcome]) {}
}

// A thread that waits for nothing and isn't counted.
fn free<'a>(met: &'a Met) -> Meeting<'a> {
    Meeting {
        met,
        is_counted: false,
        kept: Point::Session,
        sessions: 0,
        answered: 0,
        applied: 0,
    }
}

// One connection that sends these bytes, or none where there are none.
fn sending<'a>(alloc: Global, bytes: &'a [u8]) -> Sending<'a> {
    Sending {
        alloc,
        connections: u32::from(!bytes.is_empty()),
        bytes,
    }
}

// So many agents' workers, each with a connection that sends these packets.
fn agents<'a>(
    alloc: Global,
    workers: u32,
    packets: &'a [u8],
    hold: Meeting<'a>,
) -> Option<Vec<Endpoint<Sending<'a>, Meeting<'a>>>>
    ensures { IfSome result (λ agents. vec_len agents ≡ workers) }
{
    let mut agents = Vec::new(alloc);
    for _ in 0..workers {
        agents
            .push(Endpoint {
                connections: sending(alloc, packets),
                hold,
            })
            .ok()?;
    }
    if agents.len() == workers as usize {
        Some(agents)
    } else {
        None
    }
}

// How many records a gateway left, which client's the first one is, and of each of the first four
// clients the numbers of its records, as digits.
pub fn left_by(finished: Result<Finished, GatewayFault>) -> Option<(usize, u32, [u64; 4])> {
    let finished = finished.ok()?;
    let mut numbers = [0_u64; 4];
    let records = finished.closed.applier.records();
    for record in records {
        if let Some(digits) = numbers.get_mut((record.item.client as usize).wrapping_sub(1)) {
            *digits = digits.wrapping_mul(10).wrapping_add(record.item.number);
        }
    }
    let first = match records.first() {
        Some(record) => record.item.client,
        None => 0,
    };
    let left = (records.len(), first, numbers);
    drop(finished);
    Some(left)
}

// Runs agents' workers beside an operator who sends these lines, if there are any: what is left. The
// holds are those of each agents' worker, of the operator's and of the applier.
fn run<'a, R: Threads + Wait + Clock + Sync>(
    rt: &R,
    alloc: Global,
    workers: u32,
    packets: &'a [u8],
    lines: &'a [u8],
    holds: (Meeting<'a>, Meeting<'a>, Meeting<'a>),
) -> Option<(usize, u32, [u64; 4])>
    requires { workers ≤ 63 }
{
    let agents = agents(alloc, workers, packets, holds.0)?;
    let endpoints = Endpoints {
        agents,
        operator: Endpoint {
            connections: sending(alloc, lines),
            hold: holds.1,
        },
        pages: sending(alloc, &[]),
        applier: holds.2,
    };
    let settings = settings(alloc, workers)?;
    left_by(run_gateway(rt, alloc, settings, endpoints, &AlwaysAt(1000), &NoWake))
}

fn two_packets(alloc: Global) -> Option<Vec<u8>> {
    let one = packet(alloc)?;
    let mut both = one.to_vec(alloc).ok()?;
    both.extend_from_slice(&one).ok()?;
    Some(both)
}

// Three workers, each kept at its session of two packets until all have come to theirs; the operator
// shuts down once all have answered.
fn meet<R: Threads + Wait + Clock + Sync>(
    rt: &R,
    alloc: Global,
    met: &Met,
) -> Option<(usize, [u64; 4])> {
    let both = two_packets(alloc)?;
    let worker = Meeting {
        is_counted: true,
        sessions: 3,
        ..free(met)
    };
    let operator = Meeting {
        answered: 3,
        ..free(met)
    };
    let holds = (worker, operator, free(met));
    let left = run(rt, alloc, 3, &both, b"[1] SHUTDOWN_PROGRAM\n", holds);
    drop(both);
    let (records, _, numbers) = left?;
    Some((records, numbers))
}

#[test]
fn three_workers_serve_at_once(rt: HostRuntime) {
    let met = nobody_met();
    // Of each agents' worker item 1 and then item 2, of the operator none.
    assert!(rt; meet(&rt, rt.alloc(), &met) == Some((6, [12, 12, 12, 0])));
    assert!(rt; met.late.load(Ordering::SeqCst) == 0);
}

// An agents' worker and the operator's, each kept at its session until both have come to theirs.
fn meet_the_operator<R: Threads + Wait + Clock + Sync>(
    rt: &R,
    alloc: Global,
    met: &Met,
) -> Option<(usize, [u64; 4])> {
    let worker = Meeting {
        is_counted: true,
        sessions: 2,
        ..free(met)
    };
    let bytes = packet(alloc)?;
    let lines = b"[1] ADD_HOST_COMMENT;web1;0;ann;hi\n";
    let left = run(rt, alloc, 1, &bytes, lines, (worker, worker, free(met)));
    let (records, _, numbers) = left?;
    Some((records, numbers))
}

#[test]
fn an_agent_and_an_operator_are_served_at_once(rt: HostRuntime) {
    let met = nobody_met();
    assert!(rt; meet_the_operator(&rt, rt.alloc(), &met) == Some((2, [1, 1, 0, 0])));
    assert!(rt; met.late.load(Ordering::SeqCst) == 0);
}

// The operator waits until the packet's item is about to be applied, and that waits until the
// operator's lines are answered.
fn apply_beside_workers<R: Threads + Wait + Clock + Sync>(
    rt: &R,
    alloc: Global,
    met: &Met,
) -> Option<(usize, u32, [u64; 4])> {
    let operator = Meeting {
        is_counted: true,
        applied: 1,
        ..free(met)
    };
    let applier = Meeting {
        is_counted: true,
        kept: Point::BeforeApply,
        answered: 1,
        ..free(met)
    };
    let bytes = packet(alloc)?;
    let lines = b"[1] ADD_HOST_COMMENT;web1;0;ann;hi\n[1] SHUTDOWN_PROGRAM\n";
    run(rt, alloc, 1, &bytes, lines, (free(met), operator, applier))
}

#[test]
fn a_line_is_answered_while_an_item_is_applied(rt: HostRuntime) {
    let met = nobody_met();
    let left = apply_beside_workers(&rt, rt.alloc(), &met);
    assert!(rt; left == Some((2, 1, [1, 1, 0, 0])));
    assert!(rt; met.late.load(Ordering::SeqCst) == 0);
}

// The operator never connects, so its worker ends at once. The agents' worker is kept at its
// session for all of its turns.
fn serve_on<R: Threads + Wait + Clock + Sync>(
    rt: &R,
    alloc: Global,
    met: &Met,
) -> Option<(usize, u32, [u64; 4])> {
    let worker = Meeting {
        answered: 1,
        ..free(met)
    };
    let bytes = packet(alloc)?;
    run(rt, alloc, 1, &bytes, b"", (worker, free(met), free(met)))
}

#[test]
fn packets_are_queued_after_the_operators_worker_has_ended(rt: HostRuntime) {
    let met = nobody_met();
    assert!(rt; serve_on(&rt, rt.alloc(), &met) == Some((1, 1, [1, 0, 0, 0])));
    assert!(rt; met.late.load(Ordering::SeqCst) == 1);
}

// The most agents' workers that there may be, none of which has a connection; nor has the operator's.
fn run_without_connections<R: Threads + Wait + Clock + Sync>(
    rt: &R,
    alloc: Global,
    met: &Met,
) -> Option<(usize, u32, [u64; 4])> {
    let nobody = (free(met), free(met), free(met));
    run(rt, alloc, 63, b"", b"", nobody)
}

#[test]
fn sixty_three_workers_without_connections_end(rt: HostRuntime) {
    let met = nobody_met();
    let left = run_without_connections(&rt, rt.alloc(), &met);
    assert!(rt; left == Some((0, 0, [0, 0, 0, 0])));
}
