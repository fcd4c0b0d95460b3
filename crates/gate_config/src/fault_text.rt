//! The text by which a program reports why a configuration is refused.

ghost use Rattle.std.specs.Prelude.{◌≡◌, ◌++◌, IfOk, codes};
ghost use Rattle.gate_model.specs.Escaping.{escaped};
ghost use Rattle.gate_config.specs.Fault.{text_of, table_text, line_text};

use crate::fault::ConfigFault;
use gate_model::{push_escaped, push_number};
use gate_table::TableFault;
use std::alloc::{AllocError, Global};

// The text of a fault of an object's line.
fn line_text(alloc: Global, line: u32, name: &[u8]) -> Result<Vec<u8>, AllocError>
    ensures { IfOk result (λ text. text.items ≡ line_text line name.now) }
{
    let mut text = Vec::from_slice(alloc, b"Object ")?;
    push_number(&mut text, u64::from(line))?;
    text.extend_from_slice(b" ")?;
    text.extend_from_slice(name)?;
    Ok(text)
}

// The text of a fault of the object table.
fn table_text(alloc: Global, cause: TableFault) -> Result<Vec<u8>, AllocError>
    ensures { IfOk result (λ text. text.items ≡ table_text cause) }
{
    match cause {
        TableFault::BadName(line) => line_text(alloc, line, b"BadName"),
        TableFault::NoSuchHost(line) => line_text(alloc, line, b"NoSuchHost"),
        TableFault::DuplicateHost(line) => line_text(alloc, line, b"DuplicateHost"),
        TableFault::DuplicateService(line) => line_text(alloc, line, b"DuplicateService"),
        TableFault::TooMany(line) => line_text(alloc, line, b"TooMany"),
        TableFault::OutOfMemory => Vec::from_slice(alloc, b"OutOfMemory"),
    }
}

fn key_text(alloc: Global, before: &[u8], key: &str) -> Result<Vec<u8>, AllocError>
    ensures { IfOk result (λ text. text.items ≡ before.now ++ key.now) }
{
    let mut text = Vec::from_slice(alloc, before)?;
    text.extend_from_slice(key.as_bytes())?;
    Ok(text)
}

fn unknown_text(alloc: Global, key: &str) -> Result<Vec<u8>, AllocError>
    ensures { IfOk result (λ text. text.items ≡ codes "UnknownKey " ++ escaped key.now) }
{
    let mut text = Vec::from_slice(alloc, b"UnknownKey ")?;
    push_escaped(&mut text, key.as_bytes())?;
    Ok(text)
}

impl ConfigFault {
    /// The fault in one line, without an LF: its name, and after a space the key, or the object's
    /// line and what is wrong with it. A key that is unknown is escaped as a page escapes a text.
    /// It fails only if memory runs out. Own rule.
    pub fn text(&self, alloc: Global) -> Result<Vec<u8>, AllocError>
        ensures { IfOk result (λ text. text.items ≡ text_of self.now) }
    {
        match self {
            ConfigFault::TooLarge => Vec::from_slice(alloc, b"TooLarge"),
            ConfigFault::NotToml => Vec::from_slice(alloc, b"NotToml"),
            ConfigFault::UnknownKey(key) => unknown_text(alloc, key.as_str()),
            ConfigFault::BadValue(key) => key_text(alloc, b"BadValue ", key.name()),
            ConfigFault::MissingName => Vec::from_slice(alloc, b"MissingName"),
            ConfigFault::Object(cause) => table_text(alloc, *cause),
            ConfigFault::OutOfMemory => Vec::from_slice(alloc, b"OutOfMemory"),
        }
    }
}
