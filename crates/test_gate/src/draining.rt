//! The close that applies all that was queued.
ghost use Rattle.std.specs.Prelude.{◌≡◌, [], All, IfSome, IfErr};
ghost use Rattle.gate_close.specs.DrainedClose.{close_parts, CanClose};

use crate::parts::{applier, closed, submitted, two_clients};
use gate_close::{CloseAllCause, CloseAllFault, Closed, close_all};
use gate_model::Moment;
use gate_queue::{Client, Closer, Ended, Gate, Taker};
use std::alloc::Global;
use std::sync::Wait;

// Why a close stopped, if it did, and how many records there are.
type Shown = (Option<CloseAllCause>, usize);

const ALL: Shown = (None, 3);

const FULL: Shown = (Some(CloseAllCause::LogFull), 2);

fn shown(closed: &Result<Closed, CloseAllFault>) -> Shown {
    match closed {
        Ok(closed) => (None, closed.applier.records().len()),
        Err(fault) => (Some(fault.cause), fault.applier.records().len()),
    }
}

// The clients that have ended, and this one, if there is one.
fn with(gate: &Gate, ended: Vec<Ended>, later: Option<Ended>) -> Vec<Ended>
    requires ended { All (λ client. client.gate ≡ gate.now) ended.items }
    requires later { IfSome later (λ client. client.gate ≡ gate.now) }
    ensures { All (λ client. client.gate ≡ gate.now) result.items }
{
    let mut ended = ended;
    if let Some(client) = later {
        let _ = ended.push(client);
    }
    ended
}

// Calls the close again with the parts that it returned, if it did, and this client.
fn again<R: Wait>(
    rt: &R,
    gate: &Gate,
    closed: Result<Closed, CloseAllFault>,
    later: Option<Ended>,
) -> Result<Closed, CloseAllFault>
    requires closed { IfErr closed (λ fault. CanClose gate.now
        (close_parts fault.taker fault.ended.items fault.applier)) }
    requires later { IfSome later (λ client. client.gate ≡ gate.now) }
{
    match closed {
        Ok(closed) => Ok(closed),
        Err(fault) => close_all(
            rt,
            gate,
            fault.taker,
            with(gate, fault.ended, later),
            fault.applier,
            Moment(1700),
        ),
    }
}

// Two clients that have ended: two items of the first and one of the second are queued.
fn three_queued<R: Wait>(rt: &R, gate: &Gate, one: Client, two: Client) -> (Ended, Ended)
    requires one { one.gate ≡ gate.now }
    requires two { two.gate ≡ gate.now }
    ensures one { result.0.gate ≡ gate.now }
    ensures two { result.1.gate ≡ gate.now }
{
    let (mut one, mut two) = (one, two);
    let _ = submitted(rt, gate, &mut one, 5);
    let _ = submitted(rt, gate, &mut two, 6);
    let _ = submitted(rt, gate, &mut one, 7);
    (one.end(), two.end())
}

// Closes all, and once the gate is closed again with the client that was missing.
fn closes_all_twice<R: Wait>(
    rt: &R,
    alloc: Global,
    gate: &Gate,
    closer: &mut Closer,
    taker: Taker,
    ended: (Vec<Ended>, Option<Ended>),
    limit: u32,
) -> Option<(Shown, Shown)>
    requires closer { closer.old.cell ≡ gate.now.cell }
    requires taker { (taker.gate ≡ gate.now) × (taker.taken ≡ []) }
    requires ended { All (λ client. client.gate ≡ gate.now) ended.0.items }
    requires later { IfSome ended.1 (λ client. client.gate ≡ gate.now) }
{
    let Some(applier) = applier(alloc, limit) else {
        drop(taker);
        drop(ended);
        return None;
    };
    let first = close_all(rt, gate, taker, ended.0, applier, Moment(1500));
    let early = shown(&first);
    let _ = closed(alloc, gate, closer, 1600);
    let second = again(rt, gate, first, ended.1);
    let late = shown(&second);
    drop(second);
    Some((early, late))
}

// What is done before the first call: whether the gate is closed, and whether the second client is
// among those that are given; and the limit of the log.
type Trial = (bool, bool, u32);

fn parted(
    alloc: Global,
    gate: &Gate,
    one: Ended,
    two: Ended,
    is_whole: bool,
) -> (Vec<Ended>, Option<Ended>)
    requires one { one.gate ≡ gate.now }
    requires two { two.gate ≡ gate.now }
    ensures ended { All (λ client. client.gate ≡ gate.now) result.0.items }
    ensures later { IfSome result.1 (λ client. client.gate ≡ gate.now) }
{
    let ended = with(gate, Vec::new(alloc), Some(one));
    if is_whole {
        (with(gate, ended, Some(two)), None)
    } else {
        (ended, Some(two))
    }
}

fn shown_twice<R: Wait>(rt: &R, alloc: Global, trial: Trial) -> Option<(Shown, Shown)> {
    let (is_closed, is_whole, limit) = trial;
    match two_clients(alloc, 9, 9) {
        Some((gate, taker, mut closer, one, two)) => {
            let (one, two) = three_queued(rt, &gate, one, two);
            if is_closed {
                let _ = closed(alloc, &gate, &mut closer, 1500);
            }
            let ended = parted(alloc, &gate, one, two, is_whole);
            closes_all_twice(rt, alloc, &gate, &mut closer, taker, ended, limit)
        }
        None => None,
    }
}

static TRIALS: [(Trial, Shown, Shown); 4] = [
    ((true, true, 3), ALL, ALL),
    ((true, true, 2), FULL, FULL),
    ((false, true, 3), (Some(CloseAllCause::NotClosing), 0), ALL),
    ((true, false, 3), (Some(CloseAllCause::Missing(2)), 0), ALL),
];

#[test]
fn all_is_applied_once_nothing_is_in_the_way(rt: HostRuntime) {
    for (trial, early, late) in TRIALS {
        assert!(rt; shown_twice(&rt, rt.alloc(), trial) == Some((early, late)));
    }
}
