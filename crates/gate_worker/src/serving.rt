ghost use Rattle.std.specs.Prelude.{◌≡◌, List, IfSome, None, is_some, not};
ghost use Rattle.gate_reader.specs.Report.{is_open};
ghost use Rattle.gate_reader.specs.Session.{client_view, parties, Handled};
ghost use Rattle.gate_worker.specs.Work.{served_piece, IsServed, has_queued, met_close};
ghost use Rattle.gate_worker.specs.inner.Serving.{IsPacketPieceBy, end_of_piece, is_queued};

use crate::limits::WorkerLimits;
use crate::waiting::Waiting;
use gate_core::Submit;
use gate_environment::times::{AGENT_ROOM_MILLIS, OPERATOR_ROOM_MILLIS};
use gate_environment::{Clock, Piece, PieceEnd, SharedClock, Watch};
use gate_queue::{Client, Closer, Gate, GateClient, GateOperator};
use gate_reader::{
    Answer, ReadBuffer, Report, SessionLimits, Stop, serve_first_packet_piece, serve_line_piece,
    serve_packet_piece,
};
use gate_streams::{Sink, Source};
use std::alloc::Global;
use std::sync::Wait;
use std::time;

/// What a worker serves with.
#[derive(Drop)]
pub(crate) struct Serving<'a, R, K> {
    pub(crate) rt: &'a R,
    pub(crate) alloc: Global,
    pub(crate) gate: &'a Gate,
    pub(crate) clock: &'a K,
    pub(crate) limits: WorkerLimits,
}

// Serves a piece of an agent's connection, with these limits, to this client: its first one is greeted.
fn serve_packets<I: Source, O: Sink, C: Clock, S: Submit>(
    alloc: Global,
    buffer: &mut ReadBuffer,
    piece: &mut Piece<I, O>,
    clock: &mut C,
    client: &mut S,
    session: SessionLimits,
    greatest_age: u32,
) -> (Report, SessionLimits)
    ensures piece { let view = client_view S.Submit (S.named client.old) in
        IsPacketPieceBy piece.old.is_first view session greatest_age
        (parties client.old (C.state clock.old)) (parties client.new (C.state clock.new))
        (I.state piece.old.input) (I.state piece.new.input)
        (O.state piece.old.output) (O.state piece.new.output)
        result.0.answers result.0.stop result.1 }
    ensures named { S.named client.new ≡ S.named client.old }
    ensures keeps { S.keeps client.old client.new }
{
    if piece.is_first {
        serve_first_packet_piece(
            alloc,
            buffer,
            &mut piece.input,
            &mut piece.output,
            clock,
            client,
            session,
            greatest_age,
        )
    } else {
        serve_packet_piece(
            alloc,
            buffer,
            &mut piece.input,
            clock,
            client,
            session,
            greatest_age,
        )
    }
}

/// A session of a piece: the client and the closer after it, its report, and what it left of its limits.
#[derive(Drop)]
pub(crate) struct Served {
    pub(crate) client: Client,
    pub(crate) closer: Option<Closer>,
    pub(crate) report: Report,
    pub(crate) left: SessionLimits,
}

/// Serves a piece with these limits: lines of an operator where there is a closer, else packets of an
/// agent.
pub(crate) fn serve<R: Wait + time::Clock, I: Source + Drop, O: Sink + Drop, K: Watch>(
    serving: &Serving<'_, R, K>,
    buffer: &mut ReadBuffer,
    client: Client,
    closer: Option<Closer>,
    piece: &mut Piece<I, O>,
    session: SessionLimits,
) -> Served
    requires gate { client.gate ≡ serving.now.gate.now }
    requires closer { IfSome closer (λ c. (c.cell ≡ serving.now.gate.now.cell)
        × (c.known_close ≡ client.known_close)) }
    requires open { client.known_close ≡ None }
    ensures closer { IfSome result.closer (λ c. (c.cell ≡ serving.now.gate.now.cell)
        × (c.known_close ≡ result.client.known_close)) }
    ensures role { is_some result.closer ≡ is_some closer }
    ensures served { (items : List Handled) × IsServed (is_some closer) session
        serving.now.limits.greatest_age (K.shows serving.now.clock.now) client
        (served_piece piece.old.place piece.old.is_first (I.state piece.old.input).left items
        result.report result.left) result.client }
{
    let Serving {
        rt,
        alloc,
        gate,
        clock,
        limits,
    } = *serving;
    let mut clock = SharedClock(clock);
    match closer {
        Some(closer) => {
            let joined = GateOperator::new(rt, alloc, gate, client, closer);
            let mut operator = Waiting::new(rt, gate, joined, OPERATOR_ROOM_MILLIS);
            let (report, left) = serve_line_piece(
                alloc,
                &mut piece.input,
                &mut piece.output,
                &mut clock,
                &mut operator,
                session,
            );
            let (client, closer) = operator.into_client().into_parts();
            Served {
                client,
                closer: Some(closer),
                report,
                left,
            }
        }
        None => {
            let lone = GateClient::new(rt, gate, client);
            let mut agent = Waiting::new(rt, gate, lone, AGENT_ROOM_MILLIS);
            let (report, left) = serve_packets(
                alloc,
                buffer,
                piece,
                &mut clock,
                &mut agent,
                session,
                limits.greatest_age,
            );
            let waited = agent.into_client();
            Served {
                client: waited.into_parts(),
                closer: None,
                report,
                left,
            }
        }
    }
}

fn is_queued(answer: &Answer) -> bool
    ensures { result ≡ is_queued answer.now }
{
    matches!(answer, Answer::Queued(_))
}

/// Whether something was queued.
pub(crate) fn has_queued(answers: &[Answer]) -> bool
    ensures { result ≡ has_queued answers.now }
{
    answers.iter().any(is_queued)
}

fn reports_close(answer: &Answer) -> bool
    ensures { result ≡ not (is_open answer.now) }
{
    matches!(answer, Answer::Closing(_) | Answer::Down(_))
}

/// Whether the close was met.
pub(crate) fn met_close(answers: &[Answer]) -> bool
    ensures { result ≡ met_close answers.now }
{
    answers.iter().any(reports_close)
}

/// A connection goes on after a piece that was served to its end, and is over after each other stop.
pub(crate) fn end_of_piece(stop: &Stop, has_queued: bool) -> PieceEnd
    ensures { result ≡ end_of_piece stop.now has_queued }
{
    match stop {
        Stop::End => PieceEnd::GoesOn { has_queued },
        Stop::Truncated(_)
        | Stop::BadPacket(_)
        | Stop::ReadFault
        | Stop::WriteFault
        | Stop::TooMany
        | Stop::OutOfMemory
        | Stop::Shutdown => PieceEnd::Over,
    }
}
