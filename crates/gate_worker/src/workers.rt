ghost use Rattle.std.specs.Prelude.{◌≡◌, ◌+◌, ◌≤◌, [], length, map};
ghost use Rattle.gate_worker.specs.Joining.{AreCollected, AreNew, HasRoom};
ghost use Rattle.gate_worker.specs.inner.Starting.{JoinsAll};

use crate::closing::close_and_wake;
use crate::collected::Collected;
use crate::endpoint::Endpoint;
use crate::limits::WorkerLimits;
use crate::shared::Closable;
use crate::starting::{start_agents, start_worker};
use crate::worker::{Cause, WorkerEnd};
use gate_environment::{Connections, Hold, Unstarted, Wake, Watch};
use gate_queue::Client;
use std::sync::Wait;
use std::thread::{Promise, PromisedHandle, Scope, Threads};
use std::time::Clock;

// What the operator's worker serves: were its connections limited, nobody could shut the daemon
// down once they are used up.
fn unlimited(limits: WorkerLimits) -> WorkerLimits
    ensures { result ≡ record limits { sessions = 4294967295 } }
{
    WorkerLimits {
        sessions: u32::MAX,
        ..limits
    }
}

/// The workers before they start: the clients and endpoints of those of packets, those of the operator's
/// worker, and room for what all of them return.
#[derive(Drop)]
pub struct Workers<A, O, H> {
    pub clients: Vec<Client>,
    pub endpoints: Vec<Endpoint<A, H>>,
    pub operator: Client,
    pub operator_endpoint: Endpoint<O, H>,
    pub collected: Collected,
}

// Starts the operator's worker, and joins it: why it ended. None: it was not started.
//
// Where it has no memory to go on, or as many connections as it may had something queued, nobody can
// shut the daemon down any more: the gate is closed then, as it is where it was not started.
fn run_operator<
    's,
    E,
    R: Threads + Wait + Clock + Sync,
    C: Connections + Send + Drop + 's,
    K: Watch + Sync,
    H: Hold + Send + Drop + 's,
    W: Wake,
>(
    closable: &Closable<'_, 's, R, K, W>,
    scope: &Scope<'s, E>,
    client: Client,
    endpoint: Endpoint<C, H>,
    collected: &mut Collected,
) -> Option<Cause>
    requires gate { client.gate ≡ closable.now.shared.now.gate.now }
    requires fresh { client.queued ≡ [] }
    requires room { HasRoom 1 collected.old }
    ensures ends { let shared = closable.now.shared.now in
        AreCollected shared.limits (K.shows shared.clock.now) shared.gate.now [] client
        (C.streams endpoint.connections) collected.old collected.new result }
{
    let shared = closable.shared;
    let limits = unlimited(shared.limits);
    let closer = Some(closable.closer.another());
    match start_worker(shared, scope, limits, client, closer, endpoint) {
        Ok(handle) => {
            let end = handle.join(shared.rt);
            let cause = end.cause;
            match cause {
                Cause::Closing | Cause::TooManySessions | Cause::OutOfMemory => {
                    close_and_wake(closable);
                }
                Cause::NoMoreConnections => {}
            }
            collected.add(end);
            Some(cause)
        }
        Err(Unstarted) => {
            close_and_wake(closable);
            None
        }
    }
}

// Joins the agents' workers that were started, the one that was started last first.
fn join_agents<R: Threads, P: Promise<WorkerEnd>>(
    rt: &R,
    started: Vec<PromisedHandle<WorkerEnd, P>>,
    collected: &mut Collected,
)
    requires room { (length collected.old.ended.items + length started.items
        ≤ collected.old.ended.cap) × (length collected.old.ended.items + length started.items
        ≤ collected.old.reports.cap) }
    ensures joined { JoinsAll (λ handle. P.kept_by handle.promise) started.items
        collected.old collected.new }
{
    let mut started = started;
    while let Some(handle) = started.pop() {
        collected.add(handle.join(rt));
    }
}

/// Starts the agents' workers, the last one first, and then the operator's, which is joined first:
/// then that of client 1, of client 2 and so on. What they returned, and why the operator's ended, if
/// all were started. Where one can't be started, the gate is closed, and those that were started are
/// joined. It waits for all of them. Own rule.
pub fn run_workers<
    's,
    E,
    R: Threads + Wait + Clock + Sync,
    A: Connections + Send + Drop + 's,
    O: Connections + Send + Drop + 's,
    H: Hold + Send + Drop + 's,
    K: Watch + Sync,
    W: Wake,
>(
    closable: &Closable<'_, 's, R, K, W>,
    scope: &Scope<'s, E>,
    workers: Workers<A, O, H>,
) -> (Collected, Option<Cause>)
    requires new { AreNew closable.now.shared.now.gate.now
        workers.clients.items (length workers.endpoints.items) workers.operator }
    requires room { HasRoom (length workers.clients.items + 1) workers.collected }
    ensures ends { let shared = closable.now.shared.now in
        AreCollected shared.limits (K.shows shared.clock.now) shared.gate.now
        (map (λ endpoint. A.streams endpoint.connections) workers.endpoints.items)
        workers.operator (O.streams workers.operator_endpoint.connections)
        workers.collected result.0 result.1 }
{
    let Workers {
        clients,
        endpoints,
        operator,
        operator_endpoint,
        mut collected,
    } = workers;
    let shared = closable.shared;
    let mut started = Vec::new(shared.alloc);
    if !start_agents(shared, scope, clients, endpoints, &mut started) {
        drop((operator, operator_endpoint));
        close_and_wake(closable);
        join_agents(shared.rt, started, &mut collected);
        return (collected, None);
    }
    let cause = run_operator(closable, scope, operator, operator_endpoint, &mut collected);
    join_agents(shared.rt, started, &mut collected);
    (collected, cause)
}
