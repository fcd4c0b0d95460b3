//! From a line to the command that it spells, or to its first fault. The steps up to `parse_line`
//! copy nothing and take no memory, so a line's fault is found before memory can run out.

ghost use Rattle.std.specs.Prelude.{◌≡◌, ◌≤◌, ◌<◌, ◌^◌, length, IfOk, IfErr};
ghost use Rattle.std.specs.List.{list_any};
ghost use Rattle.gate_grammar.specs.Spelling.{is_barred, Spells};
ghost use Rattle.gate_grammar.specs.Parsing.{text_before, text_from, without_blanks, time_at, name_among, name_at, value_at, argument_text, argument_rest, values_at, fields_at, parsed_line, line_fault_in, first_fault};
ghost use Rattle.gate_grammar.specs.Faults.{IsOnlyCommand, IsRefusal};
ghost use Rattle.gate_grammar.specs.Writability.{IsWritable};
ghost use Rattle.gate_grammar.specs.inner.Values.{value_of};
ghost use Rattle.gate_grammar.specs.inner.Answers.{ParsesTo, Answers, answer_of};

use crate::arguments::{Argument, ArgumentKind, Arguments};
use crate::building::body;
use crate::commands::{Command, CommandName, OTHER_COMMANDS, commands_on};
use crate::faults::LineFault;
use crate::numbers::{read_code, read_number};
use bstr::ByteSlice;
use gate_model::{Kind, LINE_LENGTH, Moment};
use std::alloc::Global;

/// A line's time, command and arguments. The texts still lie in the line.
#[derive(Drop)]
pub struct ParsedLine<'a> {
    pub entered: Moment,
    pub name: CommandName,
    pub arguments: Arguments<'a>,
}

/// Reads a command line, without its LF, as the one command that it spells.
///
/// The error is the line's first fault, in the order of `LineFault`. `OutOfMemory` comes only where
/// the line has no fault and its command takes memory: a name or a text could not be copied. So a
/// SHUTDOWN_PROGRAM is read also where no memory is left.
///
/// Nagios Core 4 manual, External Commands; External Command List. The faults are an own rule.
pub fn read_line(alloc: Global, line: &[u8]) -> Result<Command, LineFault>
    // What is read is spelled so, and can be written.
    ensures found { IfOk result (λ command. Spells line.now command) }
    ensures writable { IfOk result (λ command. IsWritable command) }

    // What is spelled is read: a line spells one command at most.
    ensures only { IsOnlyCommand line.now result }

    // The first fault, by the fields of the line, and none where the line has none. Memory can run
    // out only where the command takes some.
    ensures refused { IfErr result (λ cause. IsRefusal line.now cause) }
    ensures fault { line_fault_in result ≡ first_fault line.now }
{
    answer(alloc, line)
}

fn answer(alloc: Global, line: &[u8]) -> Result<Command, LineFault>
    ensures { Answers result (answer_of line.now) }
{
    let parsed = match parse_line(line) {
        Ok(parsed) => parsed,
        Err(fault) => return Err(fault),
    };
    match body(alloc, parsed.name, &parsed.arguments) {
        Ok(body) => Ok(Command {
            entered: parsed.entered,
            body,
        }),
        Err(_) => Err(LineFault::OutOfMemory),
    }
}

/// The line's fields, or its first fault.
#[tactic(auto, unfolding(crate::specs::Parsing::parsed_line))]
fn parse_line(line: &[u8]) -> Result<ParsedLine<'_>, LineFault>
    ensures { ParsesTo (λ found. found) result (parsed_line line.now) }
{
    if line.len() > LINE_LENGTH {
        return Err(LineFault::TooLong);
    }
    if is_barred_in(line) {
        return Err(LineFault::BadByte);
    }
    fields_at(without_blanks(line))
}

/// The fields of a line without blanks at its end.
#[tactic(auto, unfolding(crate::specs::Parsing::fields_at))]
fn fields_at(line: &[u8]) -> Result<ParsedLine<'_>, LineFault>
    ensures { ParsesTo (λ found. found) result (fields_at line.now) }
{
    let (entered, rest) = time_at(line)?;
    let (text, rest) = split(b';', rest);
    let Some(name) = name_at(text) else {
        return Err(LineFault::UnknownCommand);
    };
    let arguments = arguments_at(name.kinds(), rest)?;
    Ok(ParsedLine {
        entered: Moment(entered),
        name,
        arguments,
    })
}

/// The time between the brackets, and what stands after the space.
#[tactic(auto, unfolding(crate::specs::Parsing::time_at))]
fn time_at(line: &[u8]) -> Result<(u32, &[u8]), LineFault>
    ensures { ParsesTo (λ found. (found.0, found.1.now)) result (time_at line.now) }
{
    if line.is_empty() || line[0] != b'[' {
        return Err(LineFault::NoTime);
    }
    let (time, rest) = split(b']', &line[1..]);
    let Some(entered) = read_number(time) else {
        return Err(LineFault::NoTime);
    };
    if rest.len() < 2 || rest[1] != b' ' {
        return Err(LineFault::NoTime);
    }
    Ok((entered, &rest[2..]))
}

/// The command of this name.
#[tactic(auto, unfolding(crate::specs::Parsing::name_at))]
fn name_at(text: &[u8]) -> Option<CommandName>
    ensures { result ≡ name_at text.now }
{
    name_among(&commands_on(Kind::Host), text)
        .or(name_among(&commands_on(Kind::Service), text))
        .or(name_among(&OTHER_COMMANDS, text))
}

fn name_among(names: &[CommandName], text: &[u8]) -> Option<CommandName>
    ensures { result ≡ name_among names.now text.now }
{
    for name in names {
        if name.text() == text {
            return Some(*name);
        }
    }
    None
}

/// The arguments of these kinds. `rest` is empty or begins with the semicolon before the first.
fn arguments_at<'a>(kinds: &[ArgumentKind], rest: &'a [u8]) -> Result<Arguments<'a>, LineFault>
    requires { length kinds.now ≤ 9 }
    ensures { ParsesTo (λ found. found) result (values_at 1 kinds.now rest.now) }
{
    let mut arguments = Arguments::new();
    let mut rest = rest;
    let mut number: u32 = 1;
    for (i, kind) in kinds.iter().enumerate() {
        if rest.is_empty() {
            return Err(LineFault::MissingArgument(number));
        }
        let (text, after) = argument(&kinds[i + 1..], &rest[1..]);
        match value_at(*kind, number, text) {
            Ok(argument) => arguments.push(argument),
            Err(fault) => return Err(fault),
        }
        rest = after;
        number += 1;
    }
    if !rest.is_empty() {
        return Err(LineFault::ExtraArgument);
    }
    Ok(arguments)
}

/// The text of an argument that arguments of the kinds `later` follow, and what stands after it.
/// The last argument is all that is left, with its semicolons.
fn argument<'a>(later: &[ArgumentKind], text: &'a [u8]) -> (&'a [u8], &'a [u8])
    ensures text { result.0.now ≡ argument_text later.now text.now }
    ensures rest { result.1.now ≡ argument_rest later.now text.now }
{
    if later.is_empty() {
        text.split_at(text.len())
    } else {
        split(b';', text)
    }
}

/// The argument of this number, from 1, that the text spells.
#[tactic(auto, unfolding(crate::specs::Parsing::value_at))]
fn value_at(kind: ArgumentKind, number: u32, text: &[u8]) -> Result<Argument<'_>, LineFault>
    ensures { ParsesTo value_of result (value_at kind number text.now) }
{
    match kind {
        ArgumentKind::Name => {
            if text.is_empty() {
                return Err(LineFault::EmptyName(number));
            }
            Ok(Argument::Name(text))
        }
        ArgumentKind::Number => match read_number(text) {
            Some(found) => Ok(Argument::Number(found)),
            None => Err(LineFault::BadNumber(number)),
        },
        ArgumentKind::Code => match read_code(text) {
            Some(found) => Ok(Argument::Code(found)),
            None => Err(LineFault::BadNumber(number)),
        },
        ArgumentKind::Text => Ok(Argument::Text(text)),
    }
}

/// What stands before the first `mark`, and the rest with it.
fn split(mark: u8, text: &[u8]) -> (&[u8], &[u8])
    ensures before { result.0.now ≡ text_before mark text.now }
    ensures from { result.1.now ≡ text_from mark text.now }
{
    match text.find_byte(mark) {
        Some(offset) => text.split_at(offset),
        None => text.split_at(text.len()),
    }
}

/// The line without the blanks at its end.
fn without_blanks(line: &[u8]) -> &[u8]
    ensures { result.now ≡ without_blanks line.now }
{
    match line.rfind_not_byteset(b" \t\r") {
        Some(last) => &line[..last + 1],
        None => &line[..0],
    }
}

/// Whether the text holds a NUL or an LF, which no line holds.
pub fn is_barred_in(text: &[u8]) -> bool
    ensures { result ≡ list_any is_barred text.now }
{
    text.iter().any(|byte| *byte == 0 || *byte == b'\n')
}
