ghost use Rattle.std.specs.Prelude.{◌≡◌, ◌++◌, ◌∷◌, [], ℕ, List, IfOk, IfErr, OnOk};
ghost use Rattle.std.specs.Io.KnownBytes.{Consumes};
ghost use Rattle.gate_reader.specs.Lines.{HasNoBreak};
ghost use Rattle.operator_lines.specs.declared.replies.Reply.{Reply as Given};
ghost use Rattle.operator_lines.specs.Replies.{reply_line};
ghost use Rattle.operator_lines.specs.Asking.{connection, Answers, AnswersAll, IsNoReply, HasNoReply, StopsWithin};
ghost use Rattle.operator_lines.specs.inner.Reading.{IsOfReading};

use crate::replies::{Reply, read_reply};
use crate::sending::{SendFault, push_line};
use arrayvec::ArrayVec;
use gate_grammar::Command;
use gate_streams::{Sink, put_last};
use std::alloc::Global;
use std::io::Read;
use thiserror::Error;

// How many bytes are read of an answer's line at most. The longest one has 31.
const LINE_SIZE: usize = 96;

/// Why a command has no reply.
#[derive(Clone, Copy, Debug, PartialEq, Error)]
pub enum AskFault {
    /// Nothing of the command was written.
    #[error("{0}")]
    Unsent(SendFault),
    /// The command can't be written or delivered. A part of it may be.
    #[error("the command can't be written")]
    WriteFault,
    /// A read failed before an answer's line was there. The command was delivered, and may be
    /// carried out; so it is of the faults below.
    #[error("the answer can't be read")]
    ReadFault,
    /// The input ended before an answer's line was there.
    #[error("the connection was closed before an answer")]
    Ended,
    /// 96 bytes were read, and no LF was among them.
    #[error("the answer has more than 96 bytes")]
    TooLong,
    /// A line was read that is no answer's.
    #[error("the answer is none of a gateway")]
    NoAnswer,
}

// Reads a byte.
fn read_byte<R: Read>(reader: &mut R) -> Result<u8, AskFault>
    ensures byte { IfOk result (λ byte.
        Consumes (R.remaining reader.old) (R.remaining reader.new) (byte ∷ [])) }
    ensures none { IfErr result (λ fault.
        Consumes (R.remaining reader.old) (R.remaining reader.new) [] × IsOfReading fault
        × ((line : List ℕ) → HasNoBreak line → IsNoReply fault line (R.remaining reader.new))) }
{
    let mut byte = [0];
    match reader.read(&mut byte) {
        Ok(0) => Err(AskFault::Ended),
        Ok(_) => Ok(byte[0]),
        Err(_) => Err(AskFault::ReadFault),
    }
}

/// Reads the line of an answer, byte by byte, and nothing after it. An error is `ReadFault`,
/// `Ended`, `TooLong` or `NoAnswer`.
pub fn read_answer<R: Read>(reader: &mut R) -> Result<Reply, AskFault>
    ensures read { IfOk result (λ reply.
        Consumes (R.remaining reader.old) (R.remaining reader.new) (reply_line reply)) }
    ensures none { IfErr result (λ fault. (line : List ℕ) × IsOfReading fault
        × IsNoReply fault line (R.remaining reader.new)
        × Consumes (R.remaining reader.old) (R.remaining reader.new) line) }
{
    let mut line = ArrayVec::<u8, LINE_SIZE>::new();
    for _ in 0..LINE_SIZE {
        let byte = match read_byte(reader) {
            Ok(byte) => byte,
            Err(fault) => return Err(fault),
        };
        line.push(byte);
        if byte == b'\n' {
            return match read_reply(line.as_slice()) {
                Some(reply) => Ok(reply),
                None => Err(AskFault::NoAnswer),
            };
        }
    }
    Err(AskFault::TooLong)
}

/// Sends a command, and reads its answer: nothing is read before the command is delivered, and
/// nothing after the answer's line.
///
/// The answer's line is read byte by byte, so where reads are dear the reader has a buffer. What
/// waits is the writer or the reader. An error is the first fault.
pub fn ask<R: Read, W: Sink>(
    alloc: Global,
    reader: &mut R,
    writer: &mut W,
    command: &Command,
) -> Result<Reply, AskFault>
    ensures answered { IfOk result (λ reply. Answers command.now reply
        (connection (W.state writer.old) (R.remaining reader.old))
        (connection (W.state writer.new) (R.remaining reader.new))) }
    ensures unanswered { IfErr result (λ fault. HasNoReply fault command.now
        (connection (W.state writer.old) (R.remaining reader.old))
        (connection (W.state writer.new) (R.remaining reader.new))) }
{
    let mut line = Vec::new(alloc);
    match push_line(alloc, &mut line, command) {
        Ok(()) => {}
        Err(cause) => return Err(AskFault::Unsent(cause)),
    }
    match put_last(writer, line.as_slice()) {
        Ok(()) => read_answer(reader),
        Err(_) => Err(AskFault::WriteFault),
    }
}

/// Sends commands, and appends their replies: each is sent once the one before it is answered. So a
/// caller that needs a reply before it can write the next command calls `ask` instead, and they are
/// the same conversation.
///
/// An error is that of the first command without a reply; those before it have theirs in `replies`,
/// and none after it is sent. Where either all are to be sent or none, `sent_lines` is the test.
pub fn converse<R: Read, W: Sink>(
    alloc: Global,
    reader: &mut R,
    writer: &mut W,
    commands: &[Command],
    replies: &mut Vec<Reply>,
) -> Result<(), AskFault>
    ensures answered { OnOk result (
        (given : List Given) × (replies.new.items ≡ replies.old.items ++ given)
        × AnswersAll commands.now given (connection (W.state writer.old) (R.remaining reader.old))
        (connection (W.state writer.new) (R.remaining reader.new))) }
    ensures stopped { IfErr result (λ fault.
        (given : List Given) × (replies.new.items ≡ replies.old.items ++ given)
        × StopsWithin fault commands.now given
        (connection (W.state writer.old) (R.remaining reader.old))
        (connection (W.state writer.new) (R.remaining reader.new))) }
{
    for command in commands {
        match replies.reserve(1) {
            Ok(()) => {}
            Err(_) => return Err(AskFault::Unsent(SendFault::OutOfMemory)),
        }
        match ask(alloc, reader, writer, command) {
            Ok(reply) => replies.push_reserved(reply),
            Err(fault) => return Err(fault),
        }
    }
    Ok(())
}
