ghost use Rattle.std.specs.Prelude.{◌≡◌, ◌<◌, ◌≤◌, [], length, IfOk, IfErr, OnOk, OnErr, IfSome, Some, None, ⊤};
ghost use Rattle.gate_model.specs.declared.record.Moment.{Moment};
ghost use Rattle.gate_environment.specs.Clock.{Shows};
ghost use Rattle.gate_streams.specs.Sink.{Delivers, FailsOnce};
ghost use Rattle.gate_reader.specs.Report.{AreOpen};
ghost use Rattle.gate_reader.specs.Session.{client_view, parties, AnswersFront};
ghost use Rattle.gate_reader.specs.Packets.{greeting, packets, IsPacketSession};
ghost use Rattle.gate_reader.specs.Pieces.{IsPacketPiece, IsFirstPacketPiece};
ghost use Rattle.gate_reader.specs.inner.Progress.{AnswersOneBlock, IsLastBlock, stop_by, ServesFront, AreLast, Runs};

use crate::read_buffer::ReadBuffer;
use crate::report::{
    Answer, AnswerList, Answers, Report, SessionLimits, Stop, is_open, submit_body,
};
use gate_core::Submit;
use gate_environment::Clock;
use gate_model::Moment;
use gate_packet::{BlockRef, PacketFault, split_block};
use gate_streams::{Sink, Source, put_last};
use std::alloc::Global;
use std::io;

// Reads a block as a packet and submits its result. An error ends the session.
fn serve_block<C: Clock, S: Submit>(
    alloc: Global,
    block: &BlockRef<'_>,
    clock: &mut C,
    client: &mut S,
    greatest_age: u32,
) -> Result<Answer, PacketFault>
    ensures ok { let view = client_view S.Submit (S.named client.old) in
        IfOk result (λ answer. AnswersOneBlock view greatest_age
        (parties client.old (C.state clock.old)) block.now answer
        (parties client.new (C.state clock.new))) }
    ensures err { IfErr result (λ fault. IsLastBlock greatest_age block.now fault
        (parties client.old (C.state clock.old)) (parties client.new (C.state clock.new))) }
    ensures named { S.named client.new ≡ S.named client.old }
    ensures keeps { S.keeps client.old client.new }
{
    let now = clock.now();
    match block.decode(alloc, now, greatest_age) {
        Ok(packet) => Ok(submit_body(client, packet.into_body())),
        Err(PacketFault::Stale) => Ok(Answer::Stale),
        Err(PacketFault::EmptyHost) => Ok(Answer::EmptyHost),
        Err(fault) => Err(fault),
    }
}

// How a fault ends a session.
fn stop_of(fault: PacketFault) -> Stop
    ensures { result ≡ stop_by fault }
{
    match fault {
        PacketFault::OutOfMemory => Stop::OutOfMemory,
        fault => Stop::BadPacket(fault),
    }
}

// Serves the packets at the front of the bytes: how many bytes are left over, or why the session
// stops.
fn serve_front<C: Clock, S: Submit>(
    alloc: Global,
    bytes: &[u8],
    clock: &mut C,
    client: &mut S,
    items: u32,
    greatest_age: u32,
    answers: &mut AnswerList,
) -> Result<usize, Stop>
    requires within { length answers.old.items ≤ items }
    requires open { AreOpen answers.old.items }
    ensures ok { let view = client_view S.Submit (S.named client.old) in
        IfOk result (λ left. ServesFront view (packets view items greatest_age) items
        (parties client.old (C.state clock.old)) (parties client.new (C.state clock.new))
        answers.old.items answers.new.items bytes.now (AreLast bytes.now left) None) }
    ensures err { let view = client_view S.Submit (S.named client.old) in
        IfErr result (λ stop. ServesFront view (packets view items greatest_age) items
        (parties client.old (C.state clock.old)) (parties client.new (C.state clock.new))
        answers.old.items answers.new.items bytes.now (λ _. ⊤) (Some stop)) }
    ensures named { S.named client.new ≡ S.named client.old }
    ensures keeps { S.keeps client.old client.new }
{
    let mut rest = bytes;
    while let Some((block, more)) = split_block(rest) {
        if answers.len() >= items as usize {
            return Err(Stop::TooMany);
        }
        if answers.reserve(1).is_err() {
            return Err(Stop::OutOfMemory);
        }
        match serve_block(alloc, &block, clock, client, greatest_age) {
            Ok(answer) => {
                let is_last = !is_open(&answer);
                answers.push_reserved(answer);
                if is_last {
                    return Err(Stop::Shutdown);
                }
            }
            Err(fault) => return Err(stop_of(fault)),
        }
        rest = more;
    }
    Ok(rest.len())
}

// How a session stops at the end of its input, of which so many bytes are no whole item.
pub(crate) fn stop_at_end(rest: usize) -> Stop
    ensures end { rest ≡ 0 → result ≡ Stop.End }
    ensures truncated { 0 < rest → result ≡ Stop.Truncated rest }
{
    if rest == 0 {
        Stop::End
    } else {
        Stop::Truncated(rest)
    }
}

// Reads and serves the packets of the input: why the session stops, and how many of its reads count.
fn read_packets<R: Source, C: Clock, S: Submit>(
    alloc: Global,
    buffer: &mut ReadBuffer,
    reader: &mut R,
    clock: &mut C,
    client: &mut S,
    limits: SessionLimits,
    greatest_age: u32,
    answers: &mut AnswerList,
) -> (Stop, u32)
    requires none { answers.old.items ≡ [] }
    ensures served { let view = client_view S.Submit (S.named client.old) in
        Runs view (packets view limits.items greatest_age) limits
        (parties client.old (C.state clock.old)) (parties client.new (C.state clock.new))
        (R.state reader.old) (R.state reader.new) answers.new.items result.0 result.1 }
    ensures named { S.named client.new ≡ S.named client.old }
    ensures keeps { S.keeps client.old client.new }
{
    buffer.clear();
    for made in 0..limits.reads {
        match buffer.read(reader) {
            Err(_) => return (Stop::ReadFault, made + 1),
            Ok(0) => return (stop_at_end(buffer.as_slice().len()), made),
            Ok(_) => {}
        }
        match serve_front(
            alloc,
            buffer.as_slice(),
            clock,
            client,
            limits.items,
            greatest_age,
            answers,
        ) {
            Ok(left) => buffer.keep_last(left),
            Err(stop) => return (stop, made + 1),
        }
    }
    (Stop::ReadFault, limits.reads)
}

/// Serves one piece of what an agent sends after the greeting: reads packets and submits the result
/// of each, one after the other. Beside the report stands what is left of the limits, which is what
/// the connection's next piece may do.
///
/// What the buffer holds is dropped before the first read.
///
/// Each packet has one answer in the report: `Queued`, `Full`, `Spent` or `Closing` as the client
/// answers its submission, or `Stale` or `EmptyHost` where it was dropped. The piece stops at its
/// end (`End`, `Truncated`), at a packet with another fault (`BadPacket`), after the answer `Closing`
/// (`Shutdown`), where a read failed or `limits.reads` reads were made (`ReadFault`), where
/// `limits.items` packets were answered and one more is there (`TooMany`), and where memory runs out
/// (`OutOfMemory`). After `End` the next piece may follow. A packet can't go on in another piece:
/// what is left of one at the end is `Truncated`.
///
/// Each answer takes one from `limits.items`, and each read one from `limits.reads`, except the one
/// that gives no bytes at the piece's end.
///
/// `greatest_age` is in seconds, and with 0 no packet is stale. Each packet takes one reading of the
/// clock. What waits is the reader or the client.
///
/// Source: `data_packet` of NSCA 2.9 and 2.7, `common.h`. Own rules: the length of a packet, the
/// answers, the stops and what is left.
pub fn serve_packet_piece<R: Source, C: Clock, S: Submit>(
    alloc: Global,
    buffer: &mut ReadBuffer,
    reader: &mut R,
    clock: &mut C,
    client: &mut S,
    limits: SessionLimits,
    greatest_age: u32,
) -> (Report, SessionLimits)
    ensures piece { let view = client_view S.Submit (S.named client.old) in
        IsPacketPiece view limits greatest_age
        (parties client.old (C.state clock.old)) (parties client.new (C.state clock.new))
        (R.state reader.old) (R.state reader.new) result.0.answers result.0.stop result.1 }
    // Where the reader's bytes are known, the answers are those of the packets at their front.
    ensures stream { let view = client_view S.Submit (S.named client.old) in
        IfSome (R.state reader.old).left (λ stream.
        AnswersFront (packets view limits.items greatest_age) stream
        result.0.answers result.0.stop) }

    ensures named { S.named client.new ≡ S.named client.old }
    ensures keeps { S.keeps client.old client.new }
{
    let mut answers = AnswerList::new(alloc);
    let (stop, reads) = read_packets(
        alloc,
        buffer,
        reader,
        clock,
        client,
        limits,
        greatest_age,
        &mut answers,
    );
    let left = limits.less(answers.as_slice(), reads);
    let report = Report {
        answers: Answers::new(answers),
        stop,
    };
    (report, left)
}

// 128 zeros and the moment.
fn greeting_of(now: Moment) -> [u8; 132]
    ensures { result ≡ greeting now }
{
    let mut bytes = [0; 132];
    bytes[128..].copy_from_slice(&now.0.to_be_bytes());
    bytes
}

/// Reads the clock, and writes and delivers the greeting of that moment: 128 zeros and the seconds
/// since 1970, four bytes with the highest first. An error is the writer's. What waits is the writer.
///
/// Source: `init_packet_struct` of NSCA 2.9, `common.h`.
pub fn greet<W: Sink, C: Clock>(writer: &mut W, clock: &mut C) -> io::Result<()>
    ensures greeted { (now : Moment) × Shows (C.state clock.old) (C.state clock.new) now
        × OnOk result (Delivers (W.state writer.old) (W.state writer.new) (greeting now)) }
    ensures err { OnErr result (FailsOnce (W.state writer.old) (W.state writer.new)) }
{
    let now = clock.now();
    put_last(writer, &greeting_of(now))
}

/// Serves the first piece of an agent's connection: writes the greeting with the clock's moment, and
/// then reads and submits as [`serve_packet_piece`] does. Where the greeting can't be written, the
/// piece stops with `WriteFault`, nothing is read, and the limits are left as they are.
///
/// The greeting takes the clock's first reading and each packet the next one. What waits is the
/// reader, the writer or the client.
///
/// Source: `init_packet_struct` and `data_packet` of NSCA 2.9 and 2.7, `common.h`. Own rules: the
/// length of a packet, the answers, the stops and what is left.
pub fn serve_first_packet_piece<R: Source, W: Sink, C: Clock, S: Submit>(
    alloc: Global,
    buffer: &mut ReadBuffer,
    reader: &mut R,
    writer: &mut W,
    clock: &mut C,
    client: &mut S,
    limits: SessionLimits,
    greatest_age: u32,
) -> (Report, SessionLimits)
    ensures piece { let view = client_view S.Submit (S.named client.old) in
        IsFirstPacketPiece view limits greatest_age
        (parties client.old (C.state clock.old)) (parties client.new (C.state clock.new))
        (R.state reader.old) (R.state reader.new) (W.state writer.old) (W.state writer.new)
        result.0.answers result.0.stop result.1 }
    // Where the reader's bytes are known, the answers are those of the packets at their front.
    ensures stream { let view = client_view S.Submit (S.named client.old) in
        IfSome (R.state reader.old).left (λ stream.
        AnswersFront (packets view limits.items greatest_age) stream
        result.0.answers result.0.stop) }

    ensures named { S.named client.new ≡ S.named client.old }
    ensures keeps { S.keeps client.old client.new }
{
    if greet(writer, clock).is_err() {
        let report = Report {
            answers: Answers::new(AnswerList::new(alloc)),
            stop: Stop::WriteFault,
        };
        return (report, limits);
    }
    serve_packet_piece(alloc, buffer, reader, clock, client, limits, greatest_age)
}

/// Serves one connection of an agent: writes the greeting with the clock's moment, and then reads
/// packets and submits the result of each, one after the other.
///
/// Each packet has one answer in the report: `Queued`, `Full`, `Spent` or `Closing` as the client
/// answers its submission, or `Stale` or `EmptyHost` where it was dropped. The session stops at the
/// end of the input (`End`, `Truncated`), at a packet with another fault (`BadPacket`), after the
/// answer `Closing` (`Shutdown`), where a read failed or `limits.reads` reads were made
/// (`ReadFault`), where the greeting can't be written (`WriteFault`), where `limits.items` packets
/// were answered and one more is there (`TooMany`), and where memory runs out (`OutOfMemory`).
///
/// A packet has 720 bytes where these carry version 3 and their own check word, and otherwise 4304:
/// both forms may come on one connection, in any order. So `Truncated` reports fewer than 4304 bytes
/// which don't begin with a packet of 720.
///
/// `greatest_age` is in seconds, and with 0 no packet is stale. The greeting takes the clock's
/// first reading and each packet the next one. What waits is the reader, the writer or the client.
///
/// Source: `init_packet_struct` and `data_packet` of NSCA 2.9 and 2.7, `common.h`. Own rules: the
/// length of a packet, the answers and the stops.
pub fn serve_packets<R: Source, W: Sink, C: Clock, S: Submit>(
    alloc: Global,
    reader: &mut R,
    writer: &mut W,
    clock: &mut C,
    client: &mut S,
    limits: SessionLimits,
    greatest_age: u32,
) -> Report
    ensures session { let view = client_view S.Submit (S.named client.old) in
        IsPacketSession view limits greatest_age
        (parties client.old (C.state clock.old)) (parties client.new (C.state clock.new))
        (R.state reader.old) (R.state reader.new) (W.state writer.old) (W.state writer.new)
        result.answers result.stop }
    // Where the reader's bytes are known, the answers are those of the packets at their front.
    ensures stream { let view = client_view S.Submit (S.named client.old) in
        IfSome (R.state reader.old).left (λ stream.
        AnswersFront (packets view limits.items greatest_age) stream result.answers result.stop) }

    ensures named { S.named client.new ≡ S.named client.old }
    ensures keeps { S.keeps client.old client.new }
{
    let mut buffer = ReadBuffer::new();
    let (report, _) = serve_first_packet_piece(
        alloc,
        &mut buffer,
        reader,
        writer,
        clock,
        client,
        limits,
        greatest_age,
    );
    report
}
