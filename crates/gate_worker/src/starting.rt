ghost use Rattle.std.specs.Prelude.{◌≡◌, ◌≤◌, List, Option, ℕ, [], length, map, true, IfOk, IfSome, is_some};
ghost use Rattle.gate_queue.specs.Opening.{new_clients};
ghost use Rattle.gate_worker.specs.Served.{EndsSo};
ghost use Rattle.gate_worker.specs.inner.Starting.{AreStarted};

use crate::endpoint::Endpoint;
use crate::limits::WorkerLimits;
use crate::shared::Shared;
use crate::worker::{WorkerEnd, run_worker};
use gate_environment::{Connections, Hold, Unstarted, Watch};
use gate_queue::{Client, Closer};
use std::snapshot::Snapshot;
use std::sync::Wait;
use std::thread::{Promise, PromisedHandle, Scope, Threads};
use std::time::Clock;

// A worker with these limits serves these connections by this clock, from this client on.
#[derive(Drop)]
pub struct Works<'a, C, K> {
    is_operator: bool,
    limits: WorkerLimits,
    clock: &'a K,
    client: Snapshot<Client>,
    connections: Snapshot<C>,
}

impl<'a, C: Connections, K: Watch> Promise<WorkerEnd> for Works<'a, C, K> {
    ghost use Rattle.gate_worker.specs.Served.{EndsSo};

    ghost kept_by = { λ promise end. EndsSo promise.is_operator promise.limits
        (K.shows promise.clock.now) (C.streams promise.connections.value) promise.client.value
        end.reports.items end.ended end.cause };
}

// Starts a worker: of operators where there is a closer, else of agents.
pub(crate) fn start_worker<
    's,
    E,
    R: Threads + Wait + Clock + Sync,
    C: Connections + Send + Drop + 's,
    K: Watch + Sync,
    H: Hold + Send + Drop + 's,
    W,
>(
    shared: &Shared<'s, R, K, W>,
    scope: &Scope<'s, E>,
    limits: WorkerLimits,
    client: Client,
    closer: Option<Closer>,
    endpoint: Endpoint<C, H>,
) -> Result<PromisedHandle<WorkerEnd, Works<'s, C, K>>, Unstarted>
    requires gate { client.gate ≡ shared.now.gate.now }
    requires closer { IfSome closer (λ c. c.cell ≡ shared.now.gate.now.cell) }
    requires fresh { client.queued ≡ [] }
    ensures role { IfOk result (λ handle. handle.promise.is_operator ≡ is_some closer) }
    ensures limits { IfOk result (λ handle. handle.promise.limits ≡ limits) }
    ensures clock { IfOk result (λ handle. handle.promise.clock.now ≡ shared.now.clock.now) }
    ensures client { IfOk result (λ handle. handle.promise.client.value ≡ client) }
    ensures connections { IfOk result (λ handle.
        handle.promise.connections.value ≡ endpoint.connections) }
{
    let Shared {
        rt,
        alloc,
        gate,
        clock,
        ..
    } = *shared;
    let Endpoint { connections, hold } = endpoint;
    let promise = Works {
        is_operator: closer.is_some(),
        limits,
        clock,
        client: Snapshot::of(&client),
        connections: Snapshot::of(&connections),
    };
    let run = move || -> WorkerEnd
        requires { (client.gate ≡ gate.now) × IfSome closer (λ c. c.cell ≡ gate.now.cell)
            × (client.queued ≡ []) }
        ensures { EndsSo (is_some closer) limits (K.shows clock.entry.now)
            (C.streams connections) client result.reports.items result.ended result.cause }
    {
        run_worker(
            rt,
            alloc,
            gate,
            client,
            closer,
            connections,
            clock,
            hold,
            limits,
        )
    };
    match scope.spawn_with(promise, run) {
        Ok(handle) => Ok(handle),
        Err(failed) => {
            drop(failed);
            Err(Unstarted)
        }
    }
}

// Starts the agents' workers, the last one first, and keeps their handles in that order: whether all were
// started.
pub(crate) fn start_agents<
    's,
    E,
    R: Threads + Wait + Clock + Sync,
    C: Connections + Send + Drop + 's,
    K: Watch + Sync,
    H: Hold + Send + Drop + 's,
    W,
>(
    shared: &Shared<'s, R, K, W>,
    scope: &Scope<'s, E>,
    clients: Vec<Client>,
    endpoints: Vec<Endpoint<C, H>>,
    started: &mut Vec<PromisedHandle<WorkerEnd, Works<'s, C, K>>>,
) -> bool
    requires clients { clients.items ≡ new_clients shared.now.gate.now (length clients.items) }
    requires each { length endpoints.items ≡ length clients.items }
    requires none { started.old.items ≡ [] }
    ensures started { (rest : List (Option (List (List ℕ)))) × AreStarted
        (λ handle end. EndsSo handle.promise.is_operator handle.promise.limits
        (K.shows handle.promise.clock.now) (C.streams handle.promise.connections.value)
        handle.promise.client.value end.reports.items end.ended end.cause)
        shared.now.limits (K.shows shared.now.clock.now) shared.now.gate.now
        (map (λ endpoint. C.streams endpoint.connections) endpoints.items) started.new.items rest
        × (result ≡ true → rest ≡ []) }
    ensures few { length started.new.items ≤ length clients.items }
{
    let mut clients = clients;
    let mut endpoints = endpoints;
    if started.reserve(clients.len()).is_err() {
        return false;
    }
    while let Some(client) = clients.pop() {
        let Some(endpoint) = endpoints.pop() else {
            unreachable!()
        };
        match start_worker(shared, scope, shared.limits, client, None, endpoint) {
            Ok(handle) => started.push_reserved(handle),
            Err(Unstarted) => return false,
        }
    }
    true
}
