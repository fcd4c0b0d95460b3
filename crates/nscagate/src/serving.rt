ghost use Rattle.std.specs.Prelude.{◌≡◌, reverse, IfErr, IfOk, vec_len};
ghost use Rattle.std.specs.List.{concat};
ghost use Rattle.gate_worker.specs.Answered.{reports_of_each};
ghost use Rattle.gate_opening.specs.Faults.{IsGatewayFault};
ghost use Rattle.gate_start.specs.Kept.{IsInputTaken};
ghost use Rattle.gate_printing.specs.Watching.{IsNoticed};
ghost use Rattle.nscagate.specs.Serve.{ServeEnds, worker_limits};
ghost use Rattle.nscagate.specs.inner.Serving.{HasRun};

use gate_config::{Config, Limits};
use gate_daemon::{Endpoints, Finished, GatewayFault, GatewaySettings, run_gateway};
use gate_kept::{Kept, KeptFirst, LineTurn, Opens, Order, PacketTurn, Part, TakenCount, pieces_of};
use gate_model::Text;
use gate_ports::{
    AgentConnections, AgentsPort, OperatorConnections, Ports, ReaderConnections, SystemWatch,
};
use gate_printing::{Progress, watch};
use gate_reader::SessionLimits;
use gate_run_log::{Begun, LogHold, RunLog, begin_run_log, write_run_log};
use gate_start::{Served, Started, end, finish_log, start, take_kept, without_reports};
use gate_streams::Sink;
use gate_table::ObjectTable;
use gate_worker::{Endpoint, WorkerLimits};
use std::alloc::{AllocError, Global};
use std::fs::{File, Files};
use std::io::Read;
use std::net::{Net, TcpListener, TcpStream};
use std::rt::Env;
use std::sync::Wait;
use std::thread;
use std::thread::{Scope, Threads, join_mut};
use std::time::Clock;

// What a gateway is run with.
fn gateway_settings(workers: u32, limits: Limits, table: ObjectTable) -> GatewaySettings
    ensures workers { result.workers ≡ workers }
    ensures capacity { result.capacity ≡ limits.capacity }
    ensures limit { result.limit ≡ limits.limit }
    ensures worker { result.worker ≡ worker_limits limits }
    ensures table { result.table ≡ table }
{
    GatewaySettings {
        workers,
        capacity: limits.capacity as usize,
        limit: limits.limit,
        worker: WorkerLimits {
            sessions: limits.sessions,
            session: SessionLimits {
                items: limits.items,
                reads: limits.reads,
            },
            greatest_age: limits.greatest_age,
        },
        table,
    }
}

// How a thread of the daemon is held up, and what it tells: the applier alone counts what it takes and tells
// the run's log.
type Told<'a, R> = LogHold<'a, R, TakenCount<'a>>;

fn endpoint<'a, R, C>(rt: &'a R, connections: C) -> Endpoint<C, Told<'a, R>>
    ensures { result.connections ≡ connections }
{
    Endpoint {
        connections,
        hold: LogHold::new(rt, None, TakenCount::none()),
    }
}

// The ports, which are opened to peers once what is kept was served.
#[derive(Clone, Copy)]
struct Opening<'a>(&'a Ports);

impl<'a> Opens for Opening<'a> {
    fn open(&self) {
        self.0.open();
    }
}

// What is kept for the workers, in pieces that a session may serve.
#[derive(Drop)]
struct KeptPieces {
    packets: Vec<Text>,
    lines: Vec<Text>,
}

fn kept_pieces(alloc: Global, kept: Kept, limits: Limits) -> Result<KeptPieces, AllocError>
    ensures packets { IfOk result (λ pieces.
        concat (reverse pieces.packets.items) ≡ kept.packets.items) }
    ensures lines { IfOk result (λ pieces. concat (reverse pieces.lines.items) ≡ kept.lines.items) }
{
    let most = limits.items.min(limits.reads).max(1);
    let packets = pieces_of(alloc, kept.packets.as_slice(), most, Part::Packets)?;
    let lines = pieces_of(alloc, kept.lines.as_slice(), most, Part::Lines)?;
    Ok(KeptPieces { packets, lines })
}

// The agents' connections of a worker, after the packets that are kept for the first one.
type Agents<'a, R> = KeptFirst<AgentConnections<'a, R>, PacketTurn<'a>>;

// Those of the operators, after the lines that are kept.
type Operators<'a, R> = KeptFirst<OperatorConnections<'a, R>, LineTurn<'a, R, Opening<'a>>>;

// An endpoint for each agents' worker.
fn agents_endpoints<'a, R>(
    rt: &'a R,
    alloc: Global,
    port: &'a AgentsPort,
    workers: u32,
    packets: Vec<Text>,
    order: &'a Order,
) -> Result<Vec<Endpoint<Agents<'a, R>, Told<'a, R>>>, AllocError>
    ensures { IfOk result (λ endpoints. vec_len endpoints ≡ workers) }
{
    let mut endpoints = Vec::with_capacity(alloc, workers as usize)?;
    let mut packets = Some(packets);
    for worker in 0..workers {
        // The port was opened for these workers, so that each has its own.
        let Some(connections) = port.connections(rt, worker as usize) else {
            return Err(AllocError);
        };
        let first = match packets.take() {
            Some(packets) => KeptFirst::new(packets, PacketTurn::of(order), connections),
            None => KeptFirst::new(Vec::new(alloc), PacketTurn::none(), connections),
        };
        endpoints.push_reserved(endpoint(rt, first));
    }
    Ok(endpoints)
}

// Runs a gateway of these workers on these ports until it is closed.
fn run_on<'a, R: Net<Listener = TcpListener, Stream = TcpStream> + Threads + Wait + Clock + Sync>(
    rt: &'a R,
    alloc: Global,
    config: Config,
    ports: &'a Ports,
    agents: Vec<Endpoint<Agents<'a, R>, Told<'a, R>>>,
    operators: Operators<'a, R>,
    applier: Told<'a, R>,
) -> Result<Finished, GatewayFault>
    requires { vec_len agents ≡ config.workers }
    ensures ran { IfOk result (HasRun config) }
    ensures fault { IfErr result
        (IsGatewayFault config.workers config.limits.capacity config.limits.limit config.table) }
{
    // Its type keeps each port to its own peers.
    let endpoints: Endpoints<
        Agents<'_, R>,
        Operators<'_, R>,
        ReaderConnections<'_, R>,
        Told<'a, R>,
    > = Endpoints {
        agents,
        operator: endpoint(rt, operators),
        pages: ports.pages.connections(rt),
        applier,
    };
    let settings = gateway_settings(config.workers, config.limits, config.table);
    run_gateway(rt, alloc, settings, endpoints, &SystemWatch { rt }, ports)
}

// Runs a gateway on these ports until it is closed, which first takes what is kept.
fn run_kept<R: Net<Listener = TcpListener, Stream = TcpStream> + Threads + Wait + Clock + Sync>(
    rt: &R,
    alloc: Global,
    config: Config,
    ports: &Ports,
    kept: Kept,
    run_log: Option<&RunLog>,
) -> Result<Finished, GatewayFault>
    ensures ran { IfOk result (HasRun config) }
    ensures fault { IfErr result
        (IsGatewayFault config.workers config.limits.capacity config.limits.limit config.table) }
{
    let order = Order::new();
    let opening = Opening(ports);
    let items = kept.count();
    let Ok(KeptPieces { packets, lines }) = kept_pieces(alloc, kept, config.limits) else {
        drop(config);
        return Err(GatewayFault::OutOfMemory);
    };
    let lines_turn = LineTurn::new(rt, &order, &opening, items);
    let operators = KeptFirst::new(lines, lines_turn, ports.operators.connections(rt));
    let applier = LogHold::new(rt, run_log, TakenCount::of(&order));
    match agents_endpoints(rt, alloc, &ports.agents, config.workers, packets, &order) {
        Ok(agents) => run_on(rt, alloc, config, ports, agents, operators, applier),
        Err(_) => {
            drop(config);
            Err(GatewayFault::OutOfMemory)
        }
    }
}

// Runs a gateway on these ports until it is closed, which first takes what is kept, while a thread writes
// the run's log.
fn run_beside<
    's,
    E,
    R: Net<Listener = TcpListener, Stream = TcpStream> + Files + Threads + Wait + Clock + Sync,
    N: Sink + Send + Drop + 's,
>(
    rt: &'s R,
    alloc: Global,
    scope: &Scope<'s, E>,
    config: Config,
    ports: &Ports,
    kept: Kept,
    run_log: &'s RunLog,
    file: File,
    notices: N,
) -> Result<Finished, GatewayFault>
    ensures ran { IfOk result (HasRun config) }
    ensures fault { IfErr result
        (IsGatewayFault config.workers config.limits.capacity config.limits.limit config.table) }
{
    let write = move || {
        let mut notices = notices;
        write_run_log(rt, alloc, run_log, file, &mut notices);
    };
    let started = scope.spawn(write);
    if started.is_err() {
        drop((config, kept));
        return Err(GatewayFault::Spawn);
    }
    let ran = run_kept(rt, alloc, config, ports, kept, Some(run_log));
    finish_log(rt, &ran, run_log);
    run_log.end(rt);
    ran
}

// The same on a scope of its own.
fn run_logged<
    R: Net<Listener = TcpListener, Stream = TcpStream> + Files + Threads + Wait + Clock + Sync,
    N: Sink + Send + Drop,
>(
    rt: &R,
    alloc: Global,
    config: Config,
    ports: &Ports,
    kept: Kept,
    begun: Begun<File>,
    notices: N,
) -> Result<Finished, GatewayFault>
    ensures ran { IfOk result (HasRun config) }
    ensures fault { IfErr result
        (IsGatewayFault config.workers config.limits.capacity config.limits.limit config.table) }
{
    let Begun { run_log, file } = begun;
    let run_log = &run_log;
    thread::scope(
        thread::scope_env(),
        rt,
        move |scope| -> Result<Finished, GatewayFault>
            ensures ran { IfOk result (HasRun config) }
            ensures fault { IfErr result (IsGatewayFault config.workers config.limits.capacity
                config.limits.limit config.table) }
        {
            run_beside(
                rt, alloc, scope, config, ports, kept, run_log, file, notices,
            )
        },
    )
}

// Runs a gateway on what was started until it is closed, which first takes what the input holds.
fn run<
    R: Files<File = File>
        + Net<Listener = TcpListener, Stream = TcpStream>
        + Threads
        + Wait
        + Clock
        + Sync
        + Env,
    I: Read,
    E: Sink,
    N: Sink + Send + Drop,
>(
    rt: &R,
    alloc: Global,
    started: Started,
    input: &mut I,
    errors: &mut E,
    notices: &mut Option<N>,
) -> Result<Finished, GatewayFault>
    ensures ran { IfOk result (HasRun started.config) }
    ensures fault { let config = started.config in
        IfErr result
        (IsGatewayFault config.workers config.limits.capacity config.limits.limit config.table) }
    ensures taken { IsInputTaken (I.remaining input.old) (E.state errors.old)
        (E.state errors.new) }
{
    let Started {
        text,
        config,
        ports,
    } = started;
    let Ok(kept) = take_kept(rt, alloc, input, errors) else {
        drop(config);
        return Err(GatewayFault::OutOfMemory);
    };
    let Some(mut notices) = notices.take() else {
        drop(text);
        return run_kept(rt, alloc, config, &ports, kept, None);
    };
    match begin_run_log(rt, alloc, text, kept.count(), &mut notices) {
        Some(begun) => run_logged(rt, alloc, config, &ports, kept, begun, notices),
        None => {
            drop(notices);
            run_kept(rt, alloc, config, &ports, kept, None)
        }
    }
}

// Runs the daemon, and tells `progress` how far its log page is.
fn serve_watched<
    R: Files<File = File>
        + Net<Listener = TcpListener, Stream = TcpStream>
        + Threads
        + Wait
        + Clock
        + Sync
        + Env,
    I: Read,
    W: Sink,
    E: Sink,
    N: Sink + Send + Drop,
>(
    rt: &R,
    alloc: Global,
    path: &str,
    input: &mut I,
    output: &mut W,
    errors: &mut E,
    notices: &mut Option<N>,
    progress: &Progress,
) -> Served
    ensures ended { ServeEnds (W.state output.old) (W.state output.new)
        (reports_of_each result.reports.items) result.fault }
    ensures taken { IsInputTaken (I.remaining input.old) (E.state errors.old)
        (E.state errors.new) }
{
    match start(rt, alloc, path, output) {
        Ok(started) => {
            let ran = run(rt, alloc, started, input, errors, notices);
            end(alloc, ran, output, progress)
        }
        Err(fault) => without_reports(alloc, fault),
    }
}

/// Runs the daemon as the file of this path configures it, until an operator shuts it down: it
/// binds the addresses of agents, operators and pages, in this order, and prints them as they are
/// bound, each on a line. An address at which a supervisor lends a listening socket isn't bound, as `start`
/// has it. Before it serves anybody it takes what `input` holds, where standard input is
/// a regular file, and names on `errors` what of it isn't taken. As many workers as are configured serve
/// packets side by side, of clients 1, 2 and so on; the operator is the client after them. In the end it
/// prints the log page, also where not all that was queued could be applied. What the clients were
/// answered is returned.
///
/// It waits until `output` takes the log page. Where no line of it is printed for 10 s, a thread that
/// was started first says once on `notices` that nobody reads it, and nothing else is said there. Where
/// that thread couldn't be started it says nothing.
///
/// Unreadable, Config and Bind come before anything is printed: the file can't be read, it
/// configures nothing, or an address can't be bound. LogFull is an item that finds the log full: the
/// log page has as many records as the limit, and nothing is lost, since with the items that are
/// left they hold what was answered with Queued. Spawn is a thread that can't be started. WriteFault
/// is a failed call of `output`, after which no other is made. OutOfMemory may come instead of any
/// other answer, but never of the log page, which takes no memory. Where memory for one more
/// report of the operator's worker is missing, nobody could shut the daemon down any more: it closes
/// itself, applies all, prints the log page and ends with OutOfMemory. Own rules.
pub fn serve<
    R: Files<File = File>
        + Net<Listener = TcpListener, Stream = TcpStream>
        + Threads
        + Wait
        + Clock
        + Sync
        + Env,
    I: Read,
    W: Sink,
    E: Sink,
    N: Sink + Send,
    L: Sink + Send + Drop,
>(
    rt: &R,
    alloc: Global,
    path: &str,
    input: &mut I,
    output: &mut W,
    errors: &mut E,
    notices: &mut N,
    log_notices: L,
) -> Served
    ensures ended { ServeEnds (W.state output.old) (W.state output.new)
        (reports_of_each result.reports.items) result.fault }
    ensures taken { IsInputTaken (I.remaining input.old) (E.state errors.old)
        (E.state errors.new) }
    ensures noticed { IsNoticed (N.state notices.old) (N.state notices.new) }
{
    let progress = Progress::new();
    let mut log_notices = Some(log_notices);
    let ((), served) = join_mut(
        rt,
        &mut || watch(rt, &progress, notices),
        &mut || -> Served
            ensures ended { ServeEnds (W.state output.entry.now) (W.state output.exit.now)
                (reports_of_each result.reports.items) result.fault }
            ensures taken { IsInputTaken (I.remaining input.entry.now)
                (E.state errors.entry.now) (E.state errors.exit.now) }
        {
            let served = serve_watched(
                rt,
                alloc,
                path,
                input,
                output,
                errors,
                &mut log_notices,
                &progress,
            );
            progress.end();
            served
        },
    );
    served
}
