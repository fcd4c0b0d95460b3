ghost use Rattle.std.specs.Prelude.{◌≡◌, ◌≢◌, ◌<◌, length, IfSome, IfNone, MatchOption};
ghost use Rattle.std.specs.Bool.{Decides};
ghost use Rattle.std.specs.Char.{is_ascii_digit};
ghost use Rattle.std.specs.List.{AllByRecursion, position};
ghost use Rattle.gate_reader.specs.Report.{answer_line};
ghost use Rattle.gate_reader.specs.declared.report.Answer.{Answer as GatewayAnswer};
ghost use Rattle.operator_lines.specs.declared.replies.Reply.{Reply as Given};
ghost use Rattle.operator_lines.specs.Replies.{answer_of, reply_to, reply_line, Fits, FitsAnswer};
ghost use Rattle.operator_lines.specs.inner.Numbers.{Finds, ReadsNumber};

use gate_grammar::LineFault;
use gate_model::Moment;
use gate_reader::{Answer, answer_line};
use std::str::from_utf8;

/// What a gateway answered to a line. The moment of a close doesn't stand in the answer's line, and
/// so isn't here.
#[derive(Clone, Copy, PartialEq)]
pub enum Reply {
    /// The command is queued, as the operator's item of this number, from 1.
    Queued(u64),
    /// The queue had no room.
    Full,
    /// The operator's quota is used up.
    Spent,
    /// A close has begun, by this line or before it. It is the last answer of a connection.
    Closing,
    /// The line spells no command: its first fault.
    Bad(LineFault),
}

// An answer with this reply. The moment of a close has no effect on its line.
fn answer_of(reply: Reply) -> Answer
    ensures { result ≡ answer_of reply }
{
    match reply {
        Reply::Queued(number) => Answer::Queued(number),
        Reply::Full => Answer::Full,
        Reply::Spent => Answer::Spent,
        Reply::Closing => Answer::Closing(Moment(0)),
        Reply::Bad(fault) => Answer::Bad(fault),
    }
}

fn is(line: &[u8], reply: Reply) -> bool
    ensures { Decides result (line.now ≡ reply_line reply) }
{
    answer_line(&answer_of(reply)).as_str().as_bytes() == line
}

fn first_digit(line: &[u8]) -> Option<usize>
    ensures offset { result ≡ position is_ascii_digit line.now }
    ensures within { IfSome result (λ offset. offset < length line.now) }
{
    line.iter().position(|byte| byte.is_ascii_digit())
}

// The number between a text without digits and the LF.
fn number_in(line: &[u8]) -> u64
    ensures { ReadsNumber line.now result }
{
    let Some(start) = first_digit(line) else {
        return 0;
    };
    match from_utf8(&line[start..line.len() - 1]) {
        Ok(digits) => digits.parse::<u64>().unwrap_or(0),
        Err(_) => 0,
    }
}

// The first of these replies whose line it is.
fn first_of(line: &[u8], replies: &[Reply]) -> Option<Reply>
    requires { AllByRecursion Fits replies.now }
    ensures { MatchOption result
        (AllByRecursion (λ reply. line.now ≢ reply_line reply) replies.now)
        (λ reply. (line.now ≡ reply_line reply) × Fits reply) }
{
    match replies {
        [] => None,
        [first, rest @ ..] => {
            if is(line, *first) {
                Some(*first)
            } else {
                first_of(line, rest)
            }
        }
    }
}

// The reply of a line in which this number stands, if one does.
fn reply_in(line: &[u8], number: u64) -> Option<Reply>
    ensures { Finds line.now number result }
{
    let argument = number.min(u64::from(u32::MAX)) as u32;
    let replies = [
        Reply::Queued(number),
        Reply::Full,
        Reply::Spent,
        Reply::Closing,
        Reply::Bad(LineFault::TooLong),
        Reply::Bad(LineFault::BadByte),
        Reply::Bad(LineFault::NoTime),
        Reply::Bad(LineFault::UnknownCommand),
        Reply::Bad(LineFault::ExtraArgument),
        Reply::Bad(LineFault::MissingArgument(argument)),
        Reply::Bad(LineFault::EmptyName(argument)),
        Reply::Bad(LineFault::BadNumber(argument)),
        Reply::Bad(LineFault::OutOfMemory),
    ];
    first_of(line, &replies)
}

/// Reads the line of an answer, its LF included, as the reply that it gives.
///
/// None: no answer to a line has this line, letter by letter.
pub fn read_reply(line: &[u8]) -> Option<Reply>
    ensures read { IfSome result (λ reply. line.now ≡ reply_line reply) }

    // It is the inverse of what a gateway writes for an answer.
    ensures inverse { (answer : GatewayAnswer) → FitsAnswer answer
        → line.now ≡ answer_line answer → result ≡ reply_to answer }
    ensures none { IfNone result ((reply : Given) → Fits reply → line.now ≢ reply_line reply) }
{
    reply_in(line, number_in(line))
}
