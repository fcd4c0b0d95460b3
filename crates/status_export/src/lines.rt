//! Lines of JSON for scripts: an object each.

ghost use Rattle.std.specs.Prelude.{◌≡◌, IfOk, OnOk};
ghost use Rattle.json.specs.Tree.{json_tokens};
ghost use Rattle.status_export.specs.Document.{compact_text};
ghost use Rattle.status_export.specs.Lines.{line_json, value_json};
ghost use Rattle.status_export.specs.inner.Writing.{Adds, member_tokens};

use crate::members;
use json::Writer;
use std::alloc::{AllocError, Global};

/// The value of a member.
#[derive(Clone, Copy)]
pub enum Value<'a> {
    Null,
    Number(u32),
    /// A text in UTF-8.
    Word(&'a str),
    /// What a field of a page stands for, with U+FFFD for bytes that are no UTF-8.
    Field(&'a [u8]),
}

fn push_member(
    alloc: Global,
    writer: &mut Writer,
    name: &str,
    value: Value<'_>,
) -> Result<(), AllocError>
    ensures { OnOk result
        (Adds writer.old writer.new (member_tokens name.now (value_json value.entry))) }
{
    match value {
        Value::Null => members::optional(writer, name, None),
        Value::Number(number) => members::number(writer, name, number),
        Value::Word(word) => members::text(writer, name, word),
        Value::Field(field) => members::field(alloc, writer, name, field),
    }
}

fn push_line(
    alloc: Global,
    writer: &mut Writer,
    given: &[(&str, Value<'_>)],
) -> Result<(), AllocError>
    ensures { OnOk result (Adds writer.old writer.new (json_tokens (line_json given.now))) }
{
    writer.begin_object()?;
    for member in given {
        push_member(alloc, writer, member.0, member.1)?;
    }
    writer.end_object()
}

/// An object of these names and values as JSON (RFC 8259) on one line, without the line's end. The
/// only error is out of memory.
pub fn json_line(alloc: Global, given: &[(&str, Value<'_>)]) -> Result<Vec<u8>, AllocError>
    ensures { IfOk result (λ line. line.items ≡ compact_text (line_json given.now)) }
{
    let mut writer = Writer::new(Vec::new(alloc));
    push_line(alloc, &mut writer, given)?;
    Ok(writer.into_inner())
}
