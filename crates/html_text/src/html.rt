ghost use Rattle.std.specs.Prelude.{◌≡◌, [], ◌++◌, OnOk};
ghost use Rattle.std.specs.Fmt.{decimal};
ghost use Rattle.html_text.specs.Escaping.{html_text, IsMarkupFree};

use crate::escaping::push_text;
use gate_model::push_number;
use std::alloc::{AllocError, Global};
use std::marker::Model;

/// A document of HTML, which contracts see as its bytes. Markup comes from the program alone: only
/// its own texts are `'static`. Whatever comes from outside is a text, and is escaped.
#[derive(Drop)]
pub struct Html {
    bytes: Vec<u8>,
}

impl Model for Html {
    ghost use Rattle.std.specs.Prelude.{ℕ, List};

    ghost Value = { List ℕ };

    ghost view = { λ html. html.bytes.items };
}

impl Html {
    /// An empty document.
    pub fn new(alloc: Global) -> Html
        ensures { result ≡ [] }
    {
        Html {
            bytes: Vec::new(alloc),
        }
    }

    /// Appends markup. The only error is out of memory.
    pub fn markup(&mut self, markup: &'static str) -> Result<(), AllocError>
        ensures { OnOk result (self.new ≡ self.old ++ markup.now) }
    {
        self.bytes.extend_from_slice(markup.as_bytes())
    }

    /// Appends a text of any bytes, in an element or in an attribute's value in double quotes. The
    /// only error is out of memory.
    pub fn text(&mut self, text: &[u8]) -> Result<(), AllocError>
        ensures appended { OnOk result (self.new ≡ self.old ++ html_text text.now) }

        // What is appended is no markup.
        ensures free { IsMarkupFree (html_text text.now) }
    {
        push_text(&mut self.bytes, text)
    }

    /// Appends a number in decimal. The only error is out of memory.
    pub fn number(&mut self, number: u64) -> Result<(), AllocError>
        ensures { OnOk result (self.new ≡ self.old ++ decimal number) }
    {
        push_number(&mut self.bytes, number)
    }

    /// The bytes of the document.
    pub fn into_bytes(self) -> Vec<u8>
        ensures { result.items ≡ self }
    {
        self.bytes
    }
}
