ghost use Rattle.std.specs.Prelude.{◌≡◌, IfOk};
ghost use Rattle.gate_boards.specs.Applying.{AreShown, IsApplied, IsSameLog};
ghost use Rattle.gate_boards.specs.Showing.{IsShowing};

use crate::applying::{ApplierStop, run_applier};
use crate::pages::{PagesEnd, run_pages};
use gate_applier::Applier;
use gate_environment::{Connections, Hold, SharedClock, Unstarted, Watch};
use gate_pages::Board;
use gate_queue::{Gate, Taker};
use std::alloc::Global;
use std::snapshot::Snapshot;
use std::sync::{Mutex, Wait};
use std::thread::{Promise, PromisedHandle, Scope, Threads};
use std::time::Clock;

/// The applier returns what it took from this gate, in a log of the same table, opening and limit,
/// at moments that the clock may show, and took no client in.
#[derive(Drop)]
pub struct KeepsLog<'a, K> {
    pub gate: &'a Gate,
    pub clock: &'a K,
    /// The applier as it was started.
    pub before: Snapshot<Applier>,
}

impl<'a, K: Watch> Promise<(Taker, Applier, ApplierStop)> for KeepsLog<'a, K> {
    ghost use Rattle.gate_boards.specs.Applying.{AreShown, IsApplied, IsSameLog};

    ghost kept_by = { λ promise end. IsApplied promise.gate.now end.0 end.1
        × IsSameLog promise.before.value end.1
        × (AreShown (K.shows promise.clock.now) promise.before.value
        → AreShown (K.shows promise.clock.now) end.1) };
}

/// Starts the applier on a thread of its own: `run_applier`. It fails where the thread can't be
/// started. Own rule.
pub fn start_applier<
    's,
    E,
    R: Threads + Wait + Clock + Sync,
    K: Watch + Sync,
    A: Hold + Send + Drop + 's,
>(
    rt: &'s R,
    alloc: Global,
    gate: &'s Gate,
    clock: &'s K,
    scope: &Scope<'s, E>,
    taker: Taker,
    applier: Applier,
    hold: A,
    board: &'s Mutex<Board>,
) -> Result<PromisedHandle<(Taker, Applier, ApplierStop), KeepsLog<'s, K>>, Unstarted>
    requires { IsApplied gate.now taker applier }
    ensures { IfOk result (λ handle. (handle.promise.gate.now ≡ gate.now)
        × (handle.promise.clock.now ≡ clock.now)
        × (handle.promise.before.value ≡ applier)) }
{
    let before = Snapshot::of(&applier);
    let run = move || -> (Taker, Applier, ApplierStop)
        requires { IsApplied gate.now taker applier }
        ensures { IsApplied gate.entry.now result.0 result.1 × IsSameLog applier result.1
            × (AreShown (K.shows clock.entry.now) applier
            → AreShown (K.shows clock.entry.now) result.1) }
    {
        let mut hold = hold;
        run_applier(
            rt,
            alloc,
            gate,
            taker,
            applier,
            &mut SharedClock(clock),
            &mut hold,
            board,
        )
    };
    let promise = KeepsLog {
        gate,
        clock,
        before,
    };
    match scope.spawn_with(promise, run) {
        Ok(handle) => Ok(handle),
        Err(failed) => {
            drop(failed);
            Err(Unstarted)
        }
    }
}

/// A server of the status page shows boards to these connections.
#[derive(Drop)]
pub struct Shows<C> {
    connections: Snapshot<C>,
}

impl<C: Connections> Promise<PagesEnd> for Shows<C> {
    ghost use Rattle.gate_boards.specs.Showing.{IsShowing};

    ghost kept_by = { λ promise end. IsShowing (C.streams promise.connections.value) end };
}

/// Starts the server of the status page on a thread of its own: `run_pages`. It fails where the thread
/// can't be started. Own rule.
pub fn start_pages<'s, E, R: Threads + Wait + Clock + Sync, P: Connections + Send + Drop + 's>(
    rt: &'s R,
    alloc: Global,
    scope: &Scope<'s, E>,
    pages: P,
    board: &'s Mutex<Board>,
) -> Result<PromisedHandle<PagesEnd, Shows<P>>, Unstarted>
    ensures { IfOk result (λ handle. handle.promise.connections.value ≡ pages) }
{
    let promise = Shows {
        connections: Snapshot::of(&pages),
    };
    let run = move || -> PagesEnd
        ensures { IsShowing (P.streams pages) result }
    { run_pages(rt, alloc, pages, board) };
    match scope.spawn_with(promise, run) {
        Ok(handle) => Ok(handle),
        Err(failed) => {
            drop(failed);
            Err(Unstarted)
        }
    }
}
