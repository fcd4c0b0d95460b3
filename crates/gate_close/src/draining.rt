ghost use Rattle.std.specs.Prelude.{◌≡◌, ◌↔◌, ◌<◌, ◌≤◌, ◌==◌, All, length, IsTrue};
ghost use Rattle.std.specs.Prelude.{IfNone, IfSome, IfOk, IfErr, Some, is_some};
ghost use Rattle.std.specs.List.{list_any};
ghost use Rattle.gate_model.specs.Record.{items_of_records};
ghost use Rattle.gate_core.specs.Merge.{IsMerge};
ghost use Rattle.gate_applier.specs.declared.applier.PrepareCause.TheVariants.{LogFull, OutOfMemory};
ghost use Rattle.gate_queue.specs.Taker.{taker_state, list_of, total_queued};
ghost use Rattle.gate_close.specs.DrainedClose.{is_present, AreAllPresent, IsLeastMissing};
ghost use Rattle.gate_close.specs.DrainedClose.{AppliesMore, LeavesSome};
ghost use Rattle.gate_close.specs.inner.Draining.{AllTakenIn, TakesInAll, is_known};

use gate_applier::{Applier, PrepareFault};
use gate_model::Moment;
use gate_queue::{Ended, Gate, Taker, conservation};
use std::sync::Wait;

// Whether a client with this number is among those given.
fn is_given(given: &[Ended], client: u32) -> bool
    ensures { result ≡ list_any (λ e. e.number == client) given.now }
{
    given.iter().any(|ended| ended.number() == client)
}

// Whether the client was taken in, or is among those given.
fn is_here(taker: &Taker, given: &[Ended], client: u32) -> bool
    ensures { IsTrue result ↔ IsTrue (is_present given.now taker.now.ended client) }
{
    taker.taken_in(client) || is_given(given, client)
}

/// The least of the clients that was neither taken in nor is among those given.
pub(crate) fn missing(taker: &Taker, given: &[Ended], clients: u32) -> Option<u32>
    ensures all { IfNone result (AreAllPresent clients given.now taker.now.ended) }
    ensures least { IfSome result (λ client.
        IsLeastMissing clients given.now taker.now.ended client) }
{
    for before in 0..clients {
        if !is_here(taker, given, before + 1) {
            return Some(before + 1);
        }
    }
    None
}

// Whether one of these clients knows of the close.
fn any_knows(given: &[Ended]) -> bool
    ensures { result ≡ list_any (λ e. is_some e.known_close) given.now }
{
    given.iter().any(|ended| ended.knows_of_close())
}

/// Whether a close has begun: the taker looks, and learns of it. One of the clients may know of it.
pub(crate) fn is_closing(gate: &Gate, taker: &mut Taker, given: &[Ended]) -> bool
    requires { taker.old.gate ≡ gate.now }
    ensures taker { taker.new ≡ taker_state
        taker.old.gate taker.old.taken taker.old.ended taker.new.known_close }
    ensures knew { IfSome taker.old.known_close (λ first. taker.new.known_close ≡ Some first) }
    ensures closing { result ≡ is_known taker.new.known_close given.now }
{
    taker.look(gate).is_some() || any_knows(given)
}

/// Takes in all these clients.
pub(crate) fn take_in_all(gate: &Gate, taker: &mut Taker, given: Vec<Ended>)
    requires gate { taker.old.gate ≡ gate.now }
    requires given { All (λ e. e.gate ≡ gate.now) given.items }
    ensures { TakesInAll given.items taker.old taker.new }
{
    for ended in given {
        taker.take_in(gate, ended);
    }
}

/// Takes and applies all that is left, once every client was taken in.
///
/// It stops with LogFull where an item is left and the log is full, and with OutOfMemory where an
/// item is left and memory is missing to apply it.
pub(crate) fn drain<R: Wait>(
    rt: &R,
    gate: &Gate,
    taker: &mut Taker,
    applier: Applier,
    now: Moment,
) -> Result<Applier, PrepareFault>
    requires gate { taker.old.gate ≡ gate.now }
    requires all { AllTakenIn taker.old }
    requires applied { items_of_records applier.records ≡ taker.old.taken }

    ensures merge { IfOk result (λ applied. IsMerge gate.now.limits.clients
        (list_of taker.old.ended) (items_of_records applied.records)) }
    ensures applied { IfOk result (λ applied. AppliesMore now applier applied) }

    ensures taker { IfErr result (λ fault. taker.new ≡ taker_state taker.old.gate
        (items_of_records fault.applier.records) taker.old.ended taker.old.known_close) }
    ensures more { IfErr result (λ fault. AppliesMore now applier fault.applier) }
    ensures left { IfErr result (λ fault. LeavesSome gate.now.limits.clients
        (list_of taker.old.ended) (items_of_records fault.applier.records)) }
    ensures log_full { IfErr result (λ fault.
        fault.cause ≡ LogFull → length fault.applier.records ≡ fault.applier.limit) }
    ensures has_room { IfErr result (λ fault. fault.cause ≡ OutOfMemory
        → length fault.applier.records < fault.applier.limit) }
{
    let mut applier = applier;
    let queued = taker.total_queued();
    for _ in rt.forever() {
        if applier.records().len() as u64 >= queued {
            shows_all(taker);
            return Ok(applier);
        }
        shows_some(taker);
        let ready = applier.prepare()?;
        match taker.take(rt, gate) {
            Some(item) => applier = ready.apply(item, now).0,
            None => return Ok(ready.give_back()),
        }
    }
    unreachable!()
}

// Where as many items were taken as were queued, all were taken.
fn shows_all(taker: &Taker)
    requires all { AllTakenIn taker.now }
    requires count { total_queued taker.now.ended taker.now.gate.limits.clients
        ≤ length taker.now.taken }
    ensures { IsMerge taker.now.gate.limits.clients (list_of taker.now.ended) taker.now.taken }
{
    conservation(taker);
}

// Where fewer items were taken than were queued, one is left.
fn shows_some(taker: &Taker)
    requires all { AllTakenIn taker.now }
    requires count { length taker.now.taken
        < total_queued taker.now.ended taker.now.gate.limits.clients }
    ensures { LeavesSome taker.now.gate.limits.clients (list_of taker.now.ended) taker.now.taken }
{
    conservation(taker);
}
