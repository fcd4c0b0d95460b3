//! Members of JSON objects: a name and a value of one kind each.

ghost use Rattle.std.specs.Prelude.{◌≡◌, OnOk, IfOk, string_bytes};
ghost use Rattle.json.specs.Json.{string, boolean};
ghost use Rattle.status_export.specs.Document.{number_json, optional_json, plain_text, field_json, service_json};
ghost use Rattle.status_export.specs.inner.Writing.{Adds, member_tokens};

use json::Writer;
use status_reading::plain_bytes;
use std::alloc::{AllocError, Global};

pub fn text(writer: &mut Writer, name: &str, text: &str) -> Result<(), AllocError>
    ensures { OnOk result (Adds writer.old writer.new (member_tokens name.now (string text.now))) }
{
    writer.key(name)?;
    writer.string(text)
}

pub fn flag(writer: &mut Writer, name: &str, flag: bool) -> Result<(), AllocError>
    ensures { OnOk result (Adds writer.old writer.new (member_tokens name.now (boolean flag))) }
{
    writer.key(name)?;
    writer.boolean(flag)
}

pub fn number(writer: &mut Writer, name: &str, number: u32) -> Result<(), AllocError>
    ensures { OnOk result
        (Adds writer.old writer.new (member_tokens name.now (number_json number))) }
{
    writer.key(name)?;
    writer.u64(u64::from(number))
}

/// A number, or `null`.
pub fn optional(writer: &mut Writer, name: &str, number: Option<u32>) -> Result<(), AllocError>
    ensures { OnOk result
        (Adds writer.old writer.new (member_tokens name.now (optional_json number))) }
{
    writer.key(name)?;
    match number {
        Some(number) => writer.u64(u64::from(number)),
        None => writer.null(),
    }
}

/// The text that a field of a page stands for. Bytes that are no UTF-8 become U+FFFD.
pub fn plain_text(alloc: Global, field: &[u8]) -> Result<String, AllocError>
    ensures { IfOk result (λ text. string_bytes text ≡ plain_text field.now) }
{
    let bytes = plain_bytes(alloc, field)?;
    String::from_utf8_lossy(alloc, bytes.as_slice())
}

/// The same as a member.
pub fn field(alloc: Global, writer: &mut Writer, name: &str, field: &[u8]) -> Result<(), AllocError>
    ensures { OnOk result
        (Adds writer.old writer.new (member_tokens name.now (field_json field.now))) }
{
    let plain = plain_text(alloc, field)?;
    text(writer, name, plain.as_str())
}

/// The name of a service, or `null` for a host, which has none.
pub fn service(
    alloc: Global,
    writer: &mut Writer,
    name: &str,
    service: &[u8],
) -> Result<(), AllocError>
    ensures { OnOk result
        (Adds writer.old writer.new (member_tokens name.now (service_json service.now))) }
{
    if !service.is_empty() {
        return field(alloc, writer, name, service);
    }
    writer.key(name)?;
    writer.null()
}
