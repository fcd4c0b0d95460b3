ghost use Rattle.std.specs.Prelude.{◌≡◌, ◌++◌, ◌∷◌, ◌<◌, ◌^◌, OnOk, OnErr, IfOk};
ghost use Rattle.gate_grammar.specs.Spelling.{Spells};
ghost use Rattle.gate_grammar.specs.Canonical.{shown, body_text, canonical_line, StartsWith};
ghost use Rattle.gate_grammar.specs.Writability.{IsWritable, AreInRange};
ghost use Rattle.gate_grammar.specs.RoundTrip.{BodiesAreMade, MadeByOneCommand, WrittenIsRead, SpellsOneAtMost, SpellsUnlessFaulty, FaultlessIfSpelled, FaultIsFirst};
ghost use Rattle.gate_grammar.specs.inner.Values.{value_of};
ghost use Rattle.gate_grammar.specs.inner.Written.{written, Appends};

use crate::arguments::Argument;
use crate::commands::{Command, command_of};
use gate_model::{Body, push_code, push_number};
use std::alloc::{AllocError, Global};

/// Writes the canonical line of a command, without an LF.
///
/// The only error is out of memory. Own rule: numbers have no leading zeros, and nothing stands
/// after the last argument.
pub fn write_line(alloc: Global, command: &Command) -> Result<Vec<u8>, AllocError>
    requires { IsWritable command.now }
    ensures canonical { IfOk result (λ line. line.items ≡ canonical_line command.now) }

    // The line spells the command, so reading it gives the command again.
    ensures spells { IfOk result (λ line. Spells line.items command.now) }
{
    let mut out = Vec::from_slice(alloc, b"[")?;
    push_number(&mut out, u64::from(command.entered.0))?;
    out.extend_from_slice(b"] ")?;
    push_ranged_body(&mut out, &command.body)?;
    Ok(out)
}

/// Writes the canonical text of a body: the command's name and arguments, as they stand after the
/// time in a line.
///
/// The only error is out of memory: a body that no line can hold is written as well.
pub fn write_body(alloc: Global, body: &Body) -> Result<Vec<u8>, AllocError>
    ensures { IfOk result (λ text. text.items ≡ body_text body.now) }
{
    let mut out = Vec::new(alloc);
    push_body(&mut out, body)?;
    Ok(out)
}

/// Appends the canonical text of a body, as `write_body` writes it.
///
/// The only error is out of memory. The buffer then starts with the bytes that it held, and may
/// hold the first bytes of the text after them.
pub fn push_body(out: &mut Vec<u8>, body: &Body) -> Result<(), AllocError>
    ensures ok { OnOk result (out.new.items ≡ out.old.items ++ body_text body.now) }
    ensures err { OnErr result (StartsWith out.new.items out.old.items) }
{
    push_ranged_body(out, body)
}

fn push_ranged_body(out: &mut Vec<u8>, body: &Body) -> Result<(), AllocError>
    ensures appends { Appends (body_text body.now) result out.old.items out.new.items }
    ensures in_range { AreInRange body.now }
{
    let command = command_of(body);
    out.extend_from_slice(command.name.text())?;
    push_arguments(out, command.arguments.as_slice())
}

fn push_arguments(out: &mut Vec<u8>, arguments: &[Argument<'_>]) -> Result<(), AllocError>
    ensures { Appends (written arguments.now) result out.old.items out.new.items }
{
    for argument in arguments {
        push_argument(out, *argument)?;
    }
    Ok(())
}

fn push_argument(out: &mut Vec<u8>, argument: Argument<'_>) -> Result<(), AllocError>
    ensures { Appends (59 ∷ shown (value_of argument.entry)) result out.old.items out.new.items }
{
    out.extend_from_slice(b";")?;
    match argument {
        Argument::Name(text) | Argument::Text(text) => out.extend_from_slice(text),
        Argument::Number(number) => push_number(out, u64::from(number)),
        Argument::Code(code) => push_code(out, code),
    }
}

/// States the laws that join reading and writing, over all lines and commands; it does nothing.
///
/// The table of commands is the same by name and by body. A command that is written is read again,
/// and a line spells one command at most. A line has one fault at most, which is its first fault,
/// and it spells a command exactly when it has none.
pub fn round_trip()
    // The table of commands, by name and by body.
    ensures bodies_are_made { BodiesAreMade }
    ensures made_by_one_command { MadeByOneCommand }

    // Lines and commands.
    ensures written_is_read { WrittenIsRead }
    ensures one_at_most { SpellsOneAtMost }
    ensures unless_faulty { SpellsUnlessFaulty }
    ensures faultless { FaultlessIfSpelled }
    ensures fault_is_first { FaultIsFirst }
{}
