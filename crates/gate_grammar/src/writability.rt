ghost use Rattle.std.specs.Prelude.{◌≡◌, ◌↔◌, ◌≤◌, ◌<◌, length, IsTrue, map};
ghost use Rattle.gate_grammar.specs.inner.Values.{value_of};
ghost use Rattle.gate_grammar.specs.inner.Written.{written};
ghost use Rattle.gate_grammar.specs.Spelling.{holds, is_blank, ends_in_blank};
ghost use Rattle.gate_grammar.specs.Canonical.{shown};
ghost use Rattle.gate_grammar.specs.Writability.{IsWritable, AreWritable, IsClean, HoldsNoSemicolon, EndsInNoBlank};

use crate::arguments::Argument;
use crate::commands::{Command, command_of};
use crate::parsing::is_barred_in;
use gate_model::LINE_LENGTH;
use itoa::Buffer;

/// Whether a command has a line that reads as it.
///
/// The line has at most 8192 bytes, no text holds a NUL or an LF, no argument but the last holds a
/// semicolon, no name is empty, and the last argument doesn't end in a space, a tab or a CR. Own
/// rule.
pub fn writable(command: &Command) -> bool
    ensures { IsTrue result ↔ IsWritable command.now }
{
    let mut time = Buffer::new();
    let called = command_of(&command.body);
    let start = time.format(command.entered.0).len() + called.name.text().len() + 3;
    let arguments = called.arguments.as_slice();
    fit(LINE_LENGTH - start, arguments) && are_writable(arguments)
}

/// Whether the arguments, each after a semicolon, take at most `room` bytes.
fn fit(room: usize, arguments: &[Argument<'_>]) -> bool
    ensures { IsTrue result ↔ (length (written arguments.now) ≤ room) }
{
    match arguments {
        [] => true,
        [first, rest @ ..] => {
            let length = shown_length(*first);
            length < room && fit(room - length - 1, rest)
        }
    }
}

/// How many bytes the argument takes.
fn shown_length(argument: Argument<'_>) -> usize
    ensures { result ≡ length (shown (value_of argument.entry)) }
{
    match argument {
        Argument::Name(text) | Argument::Text(text) => text.len(),
        Argument::Number(number) => {
            let mut digits = Buffer::new();
            digits.format(number).len()
        }
        Argument::Code(code) => {
            let mut digits = Buffer::new();
            digits.format(code).len()
        }
    }
}

fn are_writable(arguments: &[Argument<'_>]) -> bool
    ensures { IsTrue result ↔ AreWritable (map value_of arguments.now) }
{
    match arguments {
        [] => true,
        [last] => is_clean(*last) && ends_in_no_blank(*last),
        [first, rest @ ..] => is_clean(*first) && holds_no_semicolon(*first) && are_writable(rest),
    }
}

fn is_clean(argument: Argument<'_>) -> bool
    ensures { IsTrue result ↔ IsClean (value_of argument.entry) }
{
    match argument {
        Argument::Name(text) => !text.is_empty() && !is_barred_in(text),
        Argument::Text(text) => !is_barred_in(text),
        Argument::Number(_) | Argument::Code(_) => true,
    }
}

fn holds_no_semicolon(argument: Argument<'_>) -> bool
    ensures { IsTrue result ↔ HoldsNoSemicolon (value_of argument.entry) }
{
    match argument {
        Argument::Name(text) | Argument::Text(text) => !holds_semicolon(text),
        Argument::Number(_) | Argument::Code(_) => true,
    }
}

fn holds_semicolon(text: &[u8]) -> bool
    ensures { result ≡ holds 59 text.now }
{
    text.iter().any(|byte| *byte == b';')
}

fn ends_in_no_blank(argument: Argument<'_>) -> bool
    ensures { IsTrue result ↔ EndsInNoBlank (value_of argument.entry) }
{
    match argument {
        Argument::Name(text) | Argument::Text(text) => !ends_in_blank(text),
        Argument::Number(_) | Argument::Code(_) => true,
    }
}

#[tactic(auto, using(crate::proofs::Cuts::ends_in_blank_last))]
fn ends_in_blank(text: &[u8]) -> bool
    ensures { result ≡ ends_in_blank text.now }
{
    if text.is_empty() {
        return false;
    }
    is_blank(text[text.len() - 1])
}

fn is_blank(byte: u8) -> bool
    ensures { result ≡ is_blank byte }
{
    byte == b' ' || byte == b'\t' || byte == b'\r'
}
