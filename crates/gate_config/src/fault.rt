ghost use Rattle.std.specs.Prelude.{◌≡◌, IfOk};

use crate::key::Key;
use gate_table::TableFault;
use std::alloc::{AllocError, AllocFailed, Global};
use std::error::Error;
use std::fmt;
use std::marker::Model;

/// A key that stands in a document, whatever its text is.
#[derive(Debug, Drop)]
pub struct KeyText {
    text: String,
}

impl Model for KeyText {
    ghost use Rattle.std.specs.Prelude.{ℕ, List, string_bytes};

    ghost Value = { List ℕ };

    ghost view = { λ key. string_bytes key.text };
}

impl KeyText {
    /// Copies the text of a key. It fails only if memory runs out.
    pub(crate) fn copied(alloc: Global, text: &str) -> Result<KeyText, AllocError>
        ensures { IfOk result (λ key. key ≡ text.now) }
    {
        Ok(KeyText {
            text: String::from_str(alloc, text)?,
        })
    }

    /// The key, as the document has it.
    pub fn as_str(&self) -> &str
        ensures { result.now ≡ self.now }
    {
        self.text.as_str()
    }
}

/// Why a text configures nothing. The first fault is reported, in the order of the variants: of the
/// document's own keys first, then of each host and its services in their order, then of the table
/// of objects. Own rule.
///
/// It is shown as a short phrase; `text` has the line by which a program reports it.
#[derive(Debug, Drop)]
pub enum ConfigFault {
    /// The text has more than 1,048,576 bytes.
    TooLarge,
    /// It isn't a document of TOML in UTF-8.
    NotToml,
    /// A table has a key that no such table has. Of several it is the least by its bytes.
    UnknownKey(KeyText),
    /// The key's value has another type, or is out of range.
    BadValue(Key),
    /// A host or a service has no name.
    MissingName,
    /// The objects are no table: the line of the fault counts each host, and after it its services.
    /// The cause isn't memory.
    Object(TableFault),
    /// Memory ran out. It may stand in the place of any fault but the first.
    OutOfMemory,
}

impl fmt::Display for ConfigFault {
    fn fmt<W: fmt::Write>(&self, f: &mut fmt::Formatter<W>) -> fmt::Result {
        let phrase = match self {
            ConfigFault::BadValue(key) => {
                return write!(f, "the value of {key} has another type, or is out of range");
            }
            ConfigFault::Object(cause) => return write!(f, "{cause}"),
            ConfigFault::TooLarge => "the configuration has more than 1048576 bytes",
            ConfigFault::NotToml => "the configuration is no document of TOML in UTF-8",
            ConfigFault::UnknownKey(_) => "a table has a key that no such table has",
            ConfigFault::MissingName => "a host or a service has no name",
            ConfigFault::OutOfMemory => "out of memory",
        };
        f.write_str(phrase)
    }
}

impl Error for ConfigFault {}

impl From<AllocError> for ConfigFault {
    ghost use Rattle.gate_config.specs.declared.fault.ConfigFault.TheVariants.{OutOfMemory};

    ghost from_gives = { λ _ fault. fault ≡ OutOfMemory };

    fn from(_error: AllocError) -> ConfigFault {
        ConfigFault::OutOfMemory
    }
}

impl<T: Drop> From<AllocFailed<T>> for ConfigFault {
    ghost use Rattle.gate_config.specs.declared.fault.ConfigFault.TheVariants.{OutOfMemory};

    ghost from_gives = { λ _ fault. fault ≡ OutOfMemory };

    fn from(_error: AllocFailed<T>) -> ConfigFault {
        ConfigFault::OutOfMemory
    }
}
