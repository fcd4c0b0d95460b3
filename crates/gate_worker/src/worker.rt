ghost use Rattle.std.specs.Prelude.{◌≡◌, ℕ, ◌+◌, ◌<◌, ◌≤◌, List, [], ◌∷◌, ◌++◌, filter, length, true, IfSome, IfOk, IfErr, OnOk, None, Some, IsSome, IsTrue, is_some, vec_len, vec_capacity};
ghost use Rattle.gate_queue.specs.Client.{client_state};
ghost use Rattle.gate_worker.specs.Numbers.{item_numbers, numbers_after, reported_numbers};
ghost use Rattle.gate_worker.specs.Stops.{StopsAt};
ghost use Rattle.gate_environment.specs.Streams.{ComesNext};
ghost use Rattle.gate_worker.specs.Work.{has_queued, is_kept, IsWork};
ghost use Rattle.gate_worker.specs.inner.Parting.{GivesBack};
ghost use Rattle.gate_worker.specs.inner.Progress.{IsAsBefore};
ghost use Rattle.gate_worker.specs.declared.worker.Cause.TheVariants.{NoMoreConnections};

use crate::limits::WorkerLimits;
use crate::progress::ProgressTable;
use crate::serving::{Serving, end_of_piece, has_queued, met_close, serve};
use gate_environment::times::MEMORY_TRIES;
use gate_environment::{Connections, Hold, Piece, Point, Watch, pause};
use gate_queue::{Client, Closer, Ended, Gate};
use gate_reader::{ReadBuffer, Report};
use std::alloc::Global;
use std::sync::Wait;
use std::time::Clock;

/// Why a worker ended. They are tested in this order, for each piece; memory for its connection, which may
/// be new, only once it has come. Own rules.
#[derive(Clone, Copy, Debug)]
pub enum Cause {
    /// The gate is closing.
    Closing,
    /// Something was queued of as many connections as allowed.
    TooManySessions,
    /// For a second there was no memory for one more report, or for one more connection in the
    /// worker's table.
    OutOfMemory,
    /// There are no more connections.
    NoMoreConnections,
}

/// What a worker returns: its client, which has ended, the report of each piece of which something was
/// queued or that met the close, in the order in which they were served, and why it ended. The items that
/// were queued for the client are those that the reports answer with Queued, numbered 1, 2 and so on.
#[derive(Drop)]
pub struct WorkerEnd {
    pub ended: Ended,
    pub reports: Vec<Report>,
    pub cause: Cause,
    pub ghost reported: { item_numbers ended.queued ≡ reported_numbers reports.items },
    pub ghost counted: { reported_numbers reports.items ≡ numbers_after 0 (length ended.queued) },
}

// Whether there is room for one more report. Where memory for it is missing, it is tried for a second.
fn has_room<R: Wait + Clock>(rt: &R, reports: &mut Vec<Report>) -> bool
    ensures reports { reports.new.items ≡ reports.old.items }
    ensures room { IsTrue result → vec_len reports.new < vec_capacity reports.new }
{
    for _ in 0..MEMORY_TRIES {
        if reports.reserve(1).is_ok() {
            return true;
        }
        pause(rt);
    }
    false
}

// The next piece to serve, with room for its report and for its connection, or why the worker ends.
fn next_piece<R: Wait + Clock, C: Connections, K>(
    serving: &Serving<'_, R, K>,
    client: &mut Client,
    reports: &mut Vec<Report>,
    table: &mut ProgressTable,
    connections: &mut C,
) -> Result<Piece<C::In, C::Out>, Cause>
    requires gate { client.old.gate ≡ serving.now.gate.now }
    requires few { table.old.counted ≤ serving.now.limits.sessions }
    ensures stays { client.new ≡ client_state
        client.old.gate client.old.number client.old.queued client.new.known_close }
    ensures knew { IfSome client.old.known_close (λ first. client.new.known_close ≡ Some first) }
    ensures open { OnOk result (client.new.known_close ≡ None) }
    ensures next { IfOk result (λ piece. ComesNext (C.streams connections.old)
        (Some (C.In.state piece.input).left) (C.streams connections.new)) }
    ensures whole { IfOk result (λ piece.
        IsSome (C.streams connections.old) → piece.is_first ≡ true) }
    ensures none { IfErr result (λ cause. cause ≡ NoMoreConnections
        → ComesNext (C.streams connections.old) None (C.streams connections.new)) }
    ensures none_parts { C.parted connections.new ≡ C.parted connections.old }
    ensures reports { reports.new.items ≡ reports.old.items }
    ensures room { OnOk result (vec_len reports.new < vec_capacity reports.new) }
    ensures as_before { IsAsBefore table.old table.new }
    ensures reached { IfOk result (λ piece. piece.place < length table.new.entries.items) }
    ensures few { OnOk result (table.new.counted < serving.now.limits.sessions) }
    ensures stops { IfErr result (λ cause. StopsAt
        serving.now.limits.sessions cause table.new.counted client.new.known_close) }
{
    let Serving {
        rt,
        gate,
        limits,
        ..
    } = *serving;
    if client.look(gate).is_some() {
        return Err(Cause::Closing);
    }
    if table.counted() == limits.sessions {
        return Err(Cause::TooManySessions);
    }
    if !has_room(rt, reports) {
        return Err(Cause::OutOfMemory);
    }
    let Some(piece) = connections.next() else {
        return Err(Cause::NoMoreConnections);
    };
    if client.look(gate).is_some() {
        return Err(Cause::Closing);
    }
    if !table.try_to_reach(rt, piece.place) {
        return Err(Cause::OutOfMemory);
    }
    Ok(piece)
}

// Keeps the report of a piece of which something was queued or that met the close, for which there is room.
fn keep_report(reports: &mut Vec<Report>, report: Report, queued: bool)
    requires room { vec_len reports.old < vec_capacity reports.old }
    requires queued { queued ≡ has_queued report.answers }
    ensures { reports.new.items ≡ reports.old.items
        ++ filter is_kept (report ∷ []) }
{
    if queued || met_close(report.answers.as_slice()) {
        reports.push_reserved(report);
    } else {
        drop(report);
    }
}

// The client learns what the closer knows of the close.
fn learn(client: &mut Client, closer: &Option<Closer>)
    requires { IfSome closer.now (λ c. c.cell ≡ client.old.gate.cell) }
    ensures stays { client.new ≡ client_state
        client.old.gate client.old.number client.old.queued client.new.known_close }
    ensures knew { IfSome client.old.known_close (λ first. client.new.known_close ≡ Some first) }
    ensures learned { IfSome closer.now (λ c.
        IfSome c.known_close (λ first. client.new.known_close ≡ Some first)) }
{
    if let Some(closer) = closer {
        if let Some(notice) = closer.notice() {
            client.learn(&notice);
        }
    }
}

// A worker's end, with what its type keeps.
fn end_of(client: Client, reports: Vec<Report>, cause: Cause) -> WorkerEnd
    requires reported { item_numbers client.queued ≡ reported_numbers reports.items }
    requires counted { reported_numbers reports.items ≡ numbers_after 0 (length client.queued) }
    ensures { (result.ended ≡ client) × (result.reports ≡ reports) × (result.cause ≡ cause) }
{
    WorkerEnd {
        ended: client.end(),
        reports,
        cause,
    }
}

// Serves pieces one after another until the worker ends, and gives each back: its connection goes on or is
// over as the report calls for.
fn serve_pieces<R: Wait + Clock, C: Connections, K: Watch, H: Hold>(
    serving: &Serving<'_, R, K>,
    client: Client,
    closer: Option<Closer>,
    connections: &mut C,
    hold: &mut H,
) -> WorkerEnd
    requires gate { client.gate ≡ serving.now.gate.now }
    requires closer { IfSome closer (λ c. c.cell ≡ serving.now.gate.now.cell) }
    requires fresh { client.queued ≡ [] }
    requires sessions { serving.now.limits.sessions ≤ 4294967295 }
    ensures gate { result.ended.gate ≡ serving.now.gate.now }
    ensures number { result.ended.number ≡ client.number }
    ensures work { GivesBack (is_some closer) serving.now.limits (K.shows serving.now.clock.now)
        (C.streams connections.old) client result.reports.items result.ended result.cause
        (C.parted connections.old) (C.parted connections.new) }
{
    let Serving {
        rt,
        alloc,
        limits,
        ..
    } = *serving;
    let mut client = client;
    let mut closer = closer;
    let mut reports = Vec::new(alloc);
    let mut table = ProgressTable::new(alloc, limits.session);
    let mut buffer = ReadBuffer::new();
    learn(&mut client, &closer);
    for _ in rt.forever() {
        match next_piece(serving, &mut client, &mut reports, &mut table, connections) {
            Ok(mut piece) => {
                hold.pass(Point::Session);
                let place = piece.place;
                let before = table.before(place, piece.is_first);
                let served = serve(
                    serving,
                    &mut buffer,
                    client,
                    closer,
                    &mut piece,
                    before.left,
                );
                client = served.client;
                closer = served.closer;
                let queued = has_queued(served.report.answers.as_slice());
                table.note(place, before, served.left, queued);
                connections.part(piece, end_of_piece(&served.report.stop, queued));
                keep_report(&mut reports, served.report, queued);
                hold.pass(Point::Answered);
            }
            Err(cause) => return end_of(client, reports, cause),
        }
    }
    unreachable!()
}

/// Serves pieces of connections one after another: as lines of an operator where there is a closer, else
/// as packets of an agent.
///
/// What a connection may do, it may do in all of its pieces together. It goes on after a piece that was
/// served to its end, and is over after a piece that stopped otherwise.
///
/// The worker ends where the gate is closing, where something was queued of `limits.sessions`
/// connections, where for a second there was no memory for one more report or for one more connection in
/// its table, and where there are no more connections. It looks at the gate before it asks for a piece
/// and after it; a piece that comes after the close isn't served. The report of a piece is kept where
/// something of it was queued or it met the close, and of no other, so that lines that are no commands use
/// up no memory. A connection of which nothing was queued isn't counted. A packet for which the queue is
/// full is submitted again for a minute at most, a line for 10 seconds, while items are taken from the
/// queue. It waits for the connections, for room in the queue and for other threads at it. Own rule.
pub fn run_worker<R: Wait + Clock, C: Connections + Drop, K: Watch, H: Hold + Drop>(
    rt: &R,
    alloc: Global,
    gate: &Gate,
    client: Client,
    closer: Option<Closer>,
    mut connections: C,
    clock: &K,
    mut hold: H,
    limits: WorkerLimits,
) -> WorkerEnd
    requires gate { client.gate ≡ gate.now }
    requires closer { IfSome closer (λ c. c.cell ≡ gate.now.cell) }
    requires fresh { client.queued ≡ [] }
    ensures gate { result.ended.gate ≡ gate.now }
    ensures number { result.ended.number ≡ client.number }

    // Its reports are those of the pieces of which something was queued or that met the close, from the
    // first on, each served with what was left of these limits by what the clock shows, and what is queued
    // for its client is what they mean. It ends at the first cause that there is.
    ensures work { IsWork (is_some closer) limits (K.shows clock.now) (C.streams connections) client
        result.reports.items result.ended result.cause }
{
    let serving = Serving {
        rt,
        alloc,
        gate,
        clock,
        limits,
    };
    let end = serve_pieces(&serving, client, closer, &mut connections, &mut hold);
    connections.end();
    end
}
