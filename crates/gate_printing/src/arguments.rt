ghost use Rattle.std.specs.Prelude.{◌∷◌, map};
ghost use Rattle.gate_model.specs.Escaping.{escaped};
ghost use Rattle.gate_grammar.specs.Canonical.{body_text, shown};
ghost use Rattle.gate_grammar.specs.inner.Values.{value_of};
ghost use Rattle.gate_printing.specs.inner.Printed.{Prints, fields_text};

use crate::escaping::put_escaped;
use gate_grammar::{Argument, command_of};
use gate_model::Body;
use gate_streams::Sink;
use itoa::Buffer;
use std::io;

// Prints the text of an argument, after a semicolon.
fn put_text<W: Sink>(output: &mut W, text: &[u8]) -> io::Result<()>
    ensures { Prints (W.state output.old) (W.state output.new) result (escaped (59 ∷ text.now)) }
{
    output.put(b";")?;
    put_escaped(output, text)
}

// Prints an argument, after a semicolon.
fn put_argument<W: Sink>(output: &mut W, argument: Argument<'_>) -> io::Result<()>
    ensures { Prints (W.state output.old) (W.state output.new) result
        (escaped (59 ∷ shown (value_of argument.entry))) }
{
    match argument {
        Argument::Name(text) | Argument::Text(text) => put_text(output, text),
        Argument::Number(number) => {
            let mut digits = Buffer::new();
            put_text(output, digits.format(number).as_bytes())
        }
        Argument::Code(code) => {
            let mut digits = Buffer::new();
            put_text(output, digits.format(code).as_bytes())
        }
    }
}

fn put_arguments<W: Sink>(output: &mut W, arguments: &[Argument<'_>]) -> io::Result<()>
    ensures { Prints (W.state output.old) (W.state output.new) result
        (fields_text (map value_of arguments.now)) }
{
    for argument in arguments {
        put_argument(output, *argument)?;
    }
    Ok(())
}

/// Prints the canonical text of a body, as a page shows it.
pub(crate) fn put_body<W: Sink>(output: &mut W, body: &Body) -> io::Result<()>
    ensures { Prints (W.state output.old) (W.state output.new) result
        (escaped (body_text body.now)) }
{
    let command = command_of(body);
    put_escaped(output, command.name.text())?;
    put_arguments(output, command.arguments.as_slice())
}
