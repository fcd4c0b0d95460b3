ghost use Rattle.std.specs.Prelude.{◌≡◌, ◌+◌, ◌≤◌, ℕ, List, [], Option, None, length, vec_len, map, IfOk, IfErr};
ghost use Rattle.gate_model.specs.Record.{items_of_records};
ghost use Rattle.gate_queue.specs.Client.{client_state};
ghost use Rattle.gate_worker.specs.declared.limits.WorkerLimits.{WorkerLimits};
ghost use Rattle.gate_worker.specs.Answered.{reports_of_each, queued_by_each, HoldsAll};
ghost use Rattle.gate_boards.specs.Applying.{AreShown, IsSameLog};
ghost use Rattle.gate_daemon.specs.Faults.{AreShownUntil};
ghost use Rattle.gate_opening.specs.Faults.{IsGatewayFault};
ghost use Rattle.gate_worker.specs.Served.{AllServed};
ghost use Rattle.gate_worker.specs.Collecting.{AllEnded};
ghost use Rattle.gate_daemon.specs.inner.Joining.{AreJoined, HaveRun, IsStart};

use crate::endpoints::Endpoints;
use crate::joined::Joined;
use crate::settings::GatewaySettings;
use crate::threads::{run_threads, start_on};
use gate_close::close_all;
use gate_environment::{Connections, Hold, Unstarted, Wake, Watch};
use gate_opening::{Finished, GatewayFault, open_parts};
use gate_queue::Gate;
use gate_worker::{Collected, Shared};
use std::alloc::Global;
use std::sync::Wait;
use std::thread;
use std::thread::Threads;
use std::time::Clock;

// Drains the gate of so many agents' workers, once all threads are joined.
fn finish<R: Wait, K: Watch>(
    rt: &R,
    workers: u32,
    gate: Gate,
    joined: Joined,
    clock: &K,
) -> Result<Finished, GatewayFault>
    requires clients { gate.limits.clients ≡ workers + 1 }
    requires joined { AreJoined gate workers joined }
    ensures holds { IfOk result (λ finished. HoldsAll workers
        (queued_by_each (reports_of_each finished.reports.items))
        (items_of_records finished.closed.applier.records)) }
    ensures served { IfOk result (λ finished. (limits : WorkerLimits)
        (agents : List (Option (List (List ℕ)))) (operators : Option (List (List ℕ)))
        → length agents ≡ workers
        → AllEnded limits (K.shows clock.now) gate agents operators (client_state gate (workers + 1) [] None)
        joined.operator joined.collected.ended.items
        (reports_of_each joined.collected.reports.items)
        → AllServed limits (K.shows clock.now) agents operators
        (reports_of_each finished.reports.items)
        finished.operator (items_of_records finished.closed.applier.records)) }
    ensures same { IfOk result (λ finished.
        IsSameLog joined.applier finished.closed.applier) }
    ensures fault { IfErr result (λ fault. (capacity : ℕ)
        → IsGatewayFault workers capacity joined.applier.limit joined.applier.table fault) }
    // What is applied now stands at a moment of the clock or the applier's, whichever is later.
    ensures shown { AreShown (K.shows clock.now) joined.applier
        → IfOk result (λ finished. AreShown (K.shows clock.now) finished.closed.applier) }
    ensures shown_until_fault { AreShown (K.shows clock.now) joined.applier
        → IfErr result (AreShownUntil (K.shows clock.now)) }
{
    let Joined {
        taker,
        applier,
        collected,
        operator,
    } = joined;
    let Collected { ended, reports } = collected;
    match close_all(rt, &gate, taker, ended, applier, clock.read()) {
        Ok(closed) => Ok(Finished {
            closed,
            reports,
            operator,
        }),
        Err(fault) => Err(GatewayFault::CloseAll {
            gate,
            fault,
            reports,
        }),
    }
}

/// Runs a gateway until it is closed: a thread for each agents' worker, one for the operator's
/// lines, one that applies and one that serves pages, around one queue. Of the agents' workers,
/// which are clients 1, 2 and so on, `endpoints` has as many as the configuration; the operator is the
/// last client.
///
/// Once the operator's worker has ended, the agents' workers are woken where it closed the gate,
/// and joined; the gate is closed where nobody has; the applier is joined, the pages end with a
/// board that is marked closing, and what is left in the queue is applied. A close or a board for
/// which memory is missing is tried again. Where the operator's worker has ended for lack of memory,
/// nobody could close the gate any more: it is closed then, and all ends as above.
///
/// It fails where the queue or the applier can't be opened, where memory is missing at the start,
/// where a thread can't be started (all others are ended then as above), and where `close_all`
/// fails with LogFull or OutOfMemory. Then nothing is lost: the log and the items that are left hold
/// what the reports answer with Queued, and `close_all` may be called again with what is returned.
/// It waits for all of its threads. Own rule.
pub fn run_gateway<
    R: Threads + Wait + Clock + Sync,
    A: Connections + Send + Drop,
    O: Connections + Send + Drop,
    P: Connections + Send + Drop,
    H: Hold + Send + Drop,
    K: Watch + Sync,
    W: Wake,
>(
    rt: &R,
    alloc: Global,
    settings: GatewaySettings,
    endpoints: Endpoints<A, O, P, H>,
    clock: &K,
    wake: &W,
) -> Result<Finished, GatewayFault>
    requires workers { settings.workers ≤ 63 }
    requires endpoints { vec_len endpoints.agents ≡ settings.workers }

    // Every client was joined, and the log holds for each of them the items that its reports answer
    // with Queued, numbered from 1, in that order, and no others.
    ensures holds { IfOk result (λ finished. HoldsAll settings.workers
        (queued_by_each (reports_of_each finished.reports.items))
        (items_of_records finished.closed.applier.records)) }
    // Each client's worker served its connections piece by piece, each connection with the limits of
    // the settings: packets of agents and lines of operators. What they mean is what the log holds for
    // it.
    ensures served { IfOk result (λ finished. AllServed settings.worker
        (K.shows clock.now) (map (λ endpoint. A.streams endpoint.connections) endpoints.agents.items)
        (O.streams endpoints.operator.connections) (reports_of_each finished.reports.items)
        finished.operator (items_of_records finished.closed.applier.records)) }
    // State and pages are what these records mean for the objects of the configuration.
    ensures table { IfOk result (λ finished. finished.closed.applier.table ≡ settings.table) }
    ensures limit { IfOk result (λ finished. finished.closed.applier.limit ≡ settings.limit) }
    // The log was opened at a moment of the clock, and each record stands at one.
    ensures moments { IfOk result (λ finished.
        AreShown (K.shows clock.now) finished.closed.applier) }

    ensures fault { IfErr result (λ fault.
        IsGatewayFault settings.workers settings.capacity settings.limit settings.table fault) }
    ensures moments_until_fault { IfErr result (AreShownUntil (K.shows clock.now)) }
{
    let GatewaySettings {
        workers,
        capacity,
        limit,
        worker,
        table,
    } = settings;
    let parts = match open_parts(alloc, workers, capacity, limit, table, clock.read()) {
        Ok(parts) => parts,
        Err(fault) => return Err(fault),
    };
    let (gate, board, start) = start_on(parts, endpoints);
    let shared = Shared {
        rt,
        alloc,
        gate: &gate,
        clock,
        wake,
        limits: worker,
    };
    let board = &board;
    let joined = thread::scope(
        thread::scope_env(),
        rt,
        move |scope| -> Result<Joined, Unstarted>
            requires { IsStart shared.gate.now start }
            ensures { IfOk result (HaveRun shared.entry.gate.now shared.entry.limits
                (K.shows shared.entry.clock.now)
                (map (λ endpoint. A.streams endpoint.connections) start.workers.endpoints.items)
                (O.streams start.workers.operator_endpoint.connections) start) }
        { run_threads(&shared, scope, start, board) },
    );
    match joined {
        Ok(joined) => finish(rt, workers, gate, joined, clock),
        Err(Unstarted) => Err(GatewayFault::Spawn),
    }
}
