//! The first close, and who learns of it.
ghost use Rattle.std.specs.Prelude.{◌≡◌};

use crate::parts::{Answer, closed, submitted, two_clients};
use gate_model::Moment;
use gate_queue::{Client, Closer, Gate, Notice, Taker};
use std::alloc::Global;
use std::sync::Wait;
use std::thread;
use std::thread::Threads;

// Closes the gate on another thread.
fn close_elsewhere<R: Threads>(rt: &R, alloc: Global, gate: &Gate, closer: Closer)
    requires { closer.cell ≡ gate.now.cell }
{
    let mut closer = closer;
    let _ = thread::join(
        rt,
        move || -> Result<u32, Option<u32>>
            requires { closer.cell ≡ gate.now.cell }
        { closed(alloc, gate, &mut closer, 1500) },
        || (),
    );
}

// What a client is answered that no notice reached, before and after another thread closed the
// gate, and what the taker then finds.
fn answers_before_and_after_a_close<R: Threads + Wait>(
    rt: &R,
    alloc: Global,
    gate: &Gate,
    closer: Closer,
    client: &mut Client,
    taker: &mut Taker,
) -> (Answer, Answer, Option<Moment>)
    requires closer { closer.cell ≡ gate.now.cell }
    requires client { client.old.gate ≡ gate.now }
    requires taker { taker.old.gate ≡ gate.now }
{
    let before = submitted(rt, gate, client, 5);
    close_elsewhere(rt, alloc, gate, closer);
    (before, submitted(rt, gate, client, 6), taker.look(gate))
}

fn is_found<R: Threads + Wait>(rt: &R, alloc: Global, capacity: usize, quota: u32) -> bool {
    match two_clients(alloc, capacity, quota) {
        Some((gate, mut taker, closer, mut one, two)) => {
            drop(two);
            let answers = answers_before_and_after_a_close(
                rt, alloc, &gate, closer, &mut one, &mut taker,
            );
            drop(one);
            drop(taker);
            drop(gate);
            answers
                == (
                    Answer::Queued(1),
                    Answer::Closing(1500, 6),
                    Some(Moment(1500)),
                )
        }
        None => false,
    }
}

// With room for one item the second body would find the queue full, and with a quota of one it would
// find that used up.
#[test]
fn a_client_finds_the_close_of_another_thread_before_all_else(rt: HostRuntime) {
    for (capacity, quota) in [(9, 9), (1, 9), (9, 1)] {
        assert!(rt;
            is_found(&rt, rt.alloc(), capacity, quota),
            "{capacity} {quota}"
        );
    }
}

// Hands a notice to three parts: whether each of them then knows of the close.
fn is_known_by_all(
    alloc: Global,
    gate: &Gate,
    notice: &Notice,
    client: &mut Client,
    taker: &mut Taker,
    closer: &mut Closer,
) -> bool
    requires notice { notice.now.cell ≡ gate.now.cell }
    requires client { client.old.gate ≡ gate.now }
    requires taker { taker.old.gate ≡ gate.now }
    requires closer { closer.old.cell ≡ gate.now.cell }
{
    client.learn(notice);
    taker.learn(&notice.again());
    closer.learn(notice);
    let known = match closer.notice() {
        Some(notice) => Some(notice.moment()),
        None => None,
    };
    let first = Some(Moment(1500));
    known == first
        && client.look(gate) == first
        && taker.look(gate) == first
        && closed(alloc, gate, closer, 1600) == Err(Some(1500))
}

fn is_learned(alloc: Global) -> bool {
    match two_clients(alloc, 9, 9) {
        Some((gate, mut taker, mut closer, mut one, two)) => {
            drop(two);
            let mut other = closer.another();
            let is_learned = match closer.close(alloc, &gate, Moment(1500)) {
                Ok(notice) => {
                    is_known_by_all(alloc, &gate, &notice, &mut one, &mut taker, &mut other)
                }
                Err(_) => false,
            };
            drop(one);
            drop(taker);
            drop(gate);
            is_learned
        }
        None => false,
    }
}

#[test]
fn a_notice_of_the_close_is_learned(rt: HostRuntime) {
    assert!(rt; is_learned(rt.alloc()));
}
