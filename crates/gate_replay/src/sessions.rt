//! Sessions of one packet or of one line, over any client; and those of a queue in one thread, where
//! packets are client 1's, and operators' lines client 2's.

ghost use Rattle.std.specs.Prelude.{◌≡◌, ◌∷◌, ◌++◌, [], ℕ, IfOk, IfSome};
ghost use Rattle.gate_core.specs.Legal.{Run};
ghost use Rattle.gate_grammar.specs.Parsing.{text_before};
ghost use Rattle.gate_reader.specs.declared.report.Answer.{Answer};
ghost use Rattle.gate_reader.specs.Session.{client_view};
ghost use Rattle.gate_reader.specs.Lines.{operator_view};
ghost use Rattle.gate_replay.specs.ReplayState.{body_of_line};
ghost use Rattle.gate_packet.specs.Packet.{Content};
ghost use Rattle.gate_replay.specs.SentPacket.{received};
ghost use Rattle.gate_replay.specs.declared.script.Step.TheVariants as step;
ghost use Rattle.gate_replay.specs.inner.Playing.{solo_view};
ghost use Rattle.gate_replay.specs.inner.Sessions.{HasOnly, BeginsWith, AnswersPacket, CarriesOut, AnswersStep};

use crate::script_line::PacketForm;
use crate::sent_packet::SentPacket;
use crate::solo_queue::SoloQueue;
use gate_core::{Operator, Submit};
use gate_environment::FixedClock;
use gate_grammar::round_trip;
use gate_model::{Moment, Text};
use gate_packet::{encode, encode_short, one_reading};
use gate_reader::{Answer, Report, SessionLimits, Stop, serve_lines, serve_packets};
use std::alloc::{AllocError, Global};

/// The client of every packet.
const PACKET_CLIENT: u32 = 1;
/// The client of every operator's line.
const LINE_CLIENT: u32 = 2;

/// More packets, lines and reads than a session of one packet or one line needs.
const LIMITS: SessionLimits = SessionLimits {
    items: 10_000,
    reads: 1_000_000,
};

/// The one answer of a session that was not cut short. What is left over after it, in a session of
/// a packet of 4304 bytes that was read as one of 720, is no item.
pub(crate) fn only_answer(report: &Report) -> Option<&Answer>
    ensures { IfSome result (λ answer. HasOnly report.now answer.now) }
{
    match report.stop {
        Stop::End | Stop::Truncated(_) | Stop::Shutdown => {}
        _ => return None,
    }
    match report.answers.as_slice() {
        [answer] => Some(answer),
        _ => None,
    }
}

// Serves these bytes at this moment, as one session of a client. Nobody reads the greeting.
fn stream_session<S: Submit>(
    alloc: Global,
    bytes: &[u8],
    greatest_age: u32,
    now: Moment,
    client: &mut S,
) -> Report
    ensures answered { let view = client_view S.Submit (S.named client.old) in
        (packet : Content) (answer : Answer) → BeginsWith bytes.now packet → HasOnly result answer
        → AnswersPacket view greatest_age packet now client.old answer client.new }
    ensures keeps { S.keeps client.old client.new }
{
    one_reading();
    let mut reader = bytes;
    let mut greeting = Vec::new(alloc);
    let mut clock = FixedClock(now);
    serve_packets(
        alloc,
        &mut reader,
        &mut greeting,
        &mut clock,
        client,
        LIMITS,
        greatest_age,
    )
}

// Serves a packet at this moment, as one session of a client to which it is sent in its form.
fn packet_session<S: Submit>(
    alloc: Global,
    sent: &SentPacket,
    greatest_age: u32,
    now: Moment,
    client: &mut S,
) -> Report
    ensures answered { let view = client_view S.Submit (S.named client.old) in
        (answer : Answer) → HasOnly result answer → AnswersPacket view greatest_age
        (received sent.now) now client.old answer client.new }
    ensures keeps { S.keeps client.old client.new }
{
    let packet = sent.packet();
    match sent.form() {
        PacketForm::Short => {
            let bytes = encode_short(packet);
            stream_session(alloc, &bytes, greatest_age, now, client)
        }
        PacketForm::Long => {
            let bytes = encode(packet);
            stream_session(alloc, &bytes, greatest_age, now, client)
        }
    }
}

// Serves an operator's line at this moment, as one session. Nobody reads what it writes.
fn line_session<O: Operator>(
    alloc: Global,
    text: &[u8],
    now: Moment,
    operator: &mut O,
) -> Result<Report, AllocError>
    ensures answered { let view = operator_view O.Submit O.Operator.own (O.named operator.old) in
        IfOk result (λ report. (answer : Answer) → HasOnly report answer
        → CarriesOut view now operator.old
        (body_of_line (text_before 10 (text.now ++ 10 ∷ []))) answer operator.new) }
    ensures keeps { O.keeps operator.old operator.new }
{
    round_trip();
    let mut input = Vec::with_capacity(alloc, text.len() + 1)?;
    input.extend_from_slice(text)?;
    input.push(b'\n')?;
    let mut reader = input.as_slice();
    let mut written = Vec::new(alloc);
    let mut clock = FixedClock(now);
    Ok(serve_lines(
        alloc,
        &mut reader,
        &mut written,
        &mut clock,
        operator,
        LIMITS,
    ))
}

/// Serves a packet at this moment.
pub(crate) fn serve_packet<D: SoloQueue>(
    alloc: Global,
    queue: D,
    sent: &SentPacket,
    greatest_age: u32,
    now: Moment,
) -> (D, Report)
    requires { (run : Run) × D.after queue run }
    ensures answered { (answer : Answer) → HasOnly result.1 answer
        → AnswersStep (solo_view D.after D.limits) queue greatest_age now result.0
        (step.Packet sent.now) answer }
{
    let mut client = queue.turn_to(PACKET_CLIENT);
    let report = packet_session(alloc, sent, greatest_age, now, &mut client);
    (client, report)
}

/// Serves an operator's line at this moment.
pub(crate) fn serve_line<D: SoloQueue + Drop>(
    alloc: Global,
    queue: D,
    text: &Text,
    now: Moment,
) -> Result<(D, Report), AllocError>
    requires { (run : Run) × D.after queue run }
    ensures answered { IfOk result (λ served. (answer : Answer) → HasOnly served.1 answer
        → (age : ℕ) → AnswersStep (solo_view D.after D.limits) queue age now served.0
        (step.Line text.now) answer) }
{
    let mut client = queue.turn_to(LINE_CLIENT);
    let report = line_session(alloc, text.bytes(), now, &mut client)?;
    Ok((client, report))
}
