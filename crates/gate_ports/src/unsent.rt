ghost use Rattle.std.specs.Prelude.{◌≡◌, ◌++◌, ◌≤◌, ◌↔◌, ℕ, List, [], length, take, drop, unwrap_or, IsTrue, OnOk, OnErr};
ghost use Rattle.std.specs.Arc.{arc_slice_items};
ghost use Rattle.std.specs.Option.{option_map};

use std::alloc::{AllocError, Global};
use std::marker::Model;
use std::sync::ArcSlice;

/// The bytes for a peer that the system hasn't taken yet: what is left of a text that others may share, and
/// what was added after it.
#[derive(Drop)]
pub(crate) struct Unsent {
    text: Option<ArcSlice<u8>>,
    // How many bytes of the text the system took.
    text_taken: usize,
    added: Vec<u8>,
    // How many bytes of what was added it took.
    added_taken: usize,
}

impl Model for Unsent {
    ghost use Rattle.std.specs.Prelude.{ℕ, List, [], ◌++◌, ◌≤◌, drop, length, unwrap_or};
    ghost use Rattle.std.specs.Arc.{arc_slice_items};
    ghost use Rattle.std.specs.Option.{option_map};

    ghost Value = { List ℕ };

    ghost view = { λ unsent. drop unsent.text_taken (unwrap_or (option_map arc_slice_items unsent.text) [])
        ++ drop unsent.added_taken unsent.added.items };

    ghost invariant = { λ unsent. (unsent.text_taken ≤ length (unwrap_or (option_map arc_slice_items unsent.text) []))
        × (unsent.added_taken ≤ length unsent.added.items) };
}

// What is left of a text, if there is one, of which the system took so many bytes.
fn text_left(text: &Option<ArcSlice<u8>>, taken: usize) -> &[u8]
    requires { taken ≤ length (unwrap_or (option_map arc_slice_items text.now) []) }
    ensures { result.now ≡ drop taken (unwrap_or (option_map arc_slice_items text.now) []) }
{
    match text {
        Some(text) => &text.as_slice()[taken..],
        None => &[],
    }
}

impl Unsent {
    pub(crate) fn new(alloc: Global) -> Unsent
        ensures { result ≡ [] }
    {
        Unsent {
            text: None,
            text_taken: 0,
            added: Vec::new(alloc),
            added_taken: 0,
        }
    }

    /// Whether the system took all.
    pub(crate) fn is_empty(&self) -> bool
        ensures { IsTrue result ↔ (self.now ≡ []) }
    {
        self.len() == 0
    }

    /// How many bytes are left.
    pub(crate) fn len(&self) -> u128
        ensures { result ≡ length self.now }
    {
        let left = text_left(&self.text, self.text_taken).len();
        left as u128 + (self.added.len() - self.added_taken) as u128
    }

    /// How many bytes are kept for this peer alone.
    pub(crate) fn own_len(&self) -> usize
        ensures { result ≤ length self.now }
    {
        self.added.len() - self.added_taken
    }

    /// The next bytes to be sent: some, where any are left.
    pub(crate) fn next(&self) -> &[u8]
        ensures next { result.now ≡ take (length result.now) self.now }
        ensures some { result.now ≡ [] → self.now ≡ [] }
        ensures within { length result.now ≤ length self.now }
    {
        let text = text_left(&self.text, self.text_taken);
        if text.is_empty() {
            &self.added[self.added_taken..]
        } else {
            text
        }
    }

    /// The system took so many of the bytes. A text of which it took all isn't kept.
    pub(crate) fn advance(&mut self, count: usize)
        requires { count ≤ length self.old }
        ensures { self.new ≡ drop count self.old }
    {
        let left = text_left(&self.text, self.text_taken).len();
        if count < left {
            self.text_taken += count;
        } else {
            self.text = None;
            self.text_taken = 0;
            self.added_taken += count - left;
        }
    }

    /// Adds bytes, which are kept for this peer alone. What the system took is let go of before, where that
    /// is more than what is left.
    pub(crate) fn add(&mut self, bytes: &[u8]) -> Result<(), AllocError>
        ensures ok { OnOk result (self.new ≡ self.old ++ bytes.now) }
        ensures err { OnErr result (self.new ≡ self.old) }
    {
        if self.added_taken > self.added.len() / 2 {
            self.added.drain(..self.added_taken);
            self.added_taken = 0;
        }
        self.added.extend_from_slice(bytes)
    }

    /// What is left of this text, of which the system took so many bytes.
    pub(crate) fn share(&mut self, text: ArcSlice<u8>, taken: usize)
        requires none { self.old ≡ [] }
        requires within { taken ≤ length (arc_slice_items text) }
        ensures { self.new ≡ drop taken (arc_slice_items text) }
    {
        self.text = Some(text);
        self.text_taken = taken;
    }
}
