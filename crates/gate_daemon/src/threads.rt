ghost use Rattle.std.specs.Prelude.{◌≡◌, ◌+◌, IfOk, map, vec_len};
ghost use Rattle.gate_daemon.specs.inner.Joining.{HaveRun, IsStart};
ghost use Rattle.gate_opening.specs.Opening.{AreParts};

use crate::endpoints::Endpoints;
use crate::joined::Joined;
use gate_applier::Applier;
use gate_boards::{end_pages, start_applier, start_pages};
use gate_environment::{Connections, Hold, Unstarted, Wake, Watch};
use gate_opening::{Opening, Parts};
use gate_pages::Board;
use gate_queue::{Closer, Gate, Taker};
use gate_worker::{Closable, Shared, Workers, close_gate, run_workers};
use std::sync::{Mutex, Wait};
use std::thread::{Scope, Threads};
use std::time::Clock;

// What the threads of a gateway begin with, but for their gate and board.
#[derive(Drop)]
pub(crate) struct Start<A, O, P, H> {
    pub(crate) taker: Taker,
    pub(crate) applier: Applier,
    pub(crate) closer: Closer,
    pub(crate) workers: Workers<A, O, H>,
    pub(crate) pages: P,
    pub(crate) hold: H,
}

// The gate and the board of these parts, and what the threads start with on these endpoints.
pub(crate) fn start_on<A, O, P, H>(
    parts: Parts,
    endpoints: Endpoints<A, O, P, H>,
) -> (Gate, Mutex<Board>, Start<A, O, P, H>)
    requires { AreParts (vec_len endpoints.agents) parts }
    ensures clients { result.0.limits.clients ≡ vec_len endpoints.agents + 1 }
    ensures start { IsStart result.0 result.2 }
    ensures applier { result.2.applier ≡ parts.applier }
    ensures agents { result.2.workers.endpoints.items ≡ endpoints.agents.items }
    ensures operator { result.2.workers.operator_endpoint.connections
        ≡ endpoints.operator.connections }
{
    let Parts {
        opening,
        applier,
        collected,
        board,
    } = parts;
    let Opening {
        gate,
        taker,
        closer,
        clients,
        last,
    } = opening;
    let Endpoints {
        agents,
        operator,
        pages,
        applier: hold,
    } = endpoints;
    let workers = Workers {
        clients,
        endpoints: agents,
        operator: last,
        operator_endpoint: operator,
        collected,
    };
    let start = Start {
        taker,
        applier,
        closer,
        workers,
        pages,
        hold,
    };
    (gate, board, start)
}

// Starts all threads and joins them. The gate is closed then.
pub(crate) fn run_threads<
    's,
    E,
    R: Threads + Wait + Clock + Sync,
    A: Connections + Send + Drop + 's,
    O: Connections + Send + Drop + 's,
    P: Connections + Send + Drop + 's,
    H: Hold + Send + Drop + 's,
    K: Watch + Sync,
    W: Wake,
>(
    shared: &Shared<'s, R, K, W>,
    scope: &Scope<'s, E>,
    start: Start<A, O, P, H>,
    board: &'s Mutex<Board>,
) -> Result<Joined, Unstarted>
    requires { IsStart shared.now.gate.now start }
    ensures { IfOk result (HaveRun shared.now.gate.now shared.now.limits
        (K.shows shared.now.clock.now)
        (map (λ endpoint. A.streams endpoint.connections) start.workers.endpoints.items)
        (O.streams start.workers.operator_endpoint.connections) start) }
{
    let Start {
        taker,
        applier,
        closer,
        workers,
        pages,
        hold,
    } = start;
    let Shared {
        rt,
        alloc,
        gate,
        clock,
        ..
    } = *shared;
    let closable = &Closable {
        shared,
        closer: &closer,
    };
    let Ok(applies) = start_applier(rt, alloc, gate, clock, scope, taker, applier, hold, board)
    else {
        drop((workers, pages));
        return Err(Unstarted);
    };
    let Ok(shows) = start_pages(rt, alloc, scope, pages, board) else {
        drop(close_gate(closable));
        drop((applies.join(rt), workers));
        return Err(Unstarted);
    };
    let (collected, cause) = run_workers(closable, scope, workers);
    let notice = close_gate(closable);
    let (mut taker, applier, _) = applies.join(rt);
    taker.learn(&notice);
    end_pages(rt, alloc, &applier, board, notice.moment(), shared.wake);
    drop(notice);
    shows.join(rt);
    match cause {
        Some(operator) => Ok(Joined {
            taker,
            applier,
            collected,
            operator,
        }),
        None => {
            drop((taker, applier, collected));
            Err(Unstarted)
        }
    }
}
