//! The pages that are kept for readers: those of one page share its text.

ghost use Rattle.std.specs.Prelude.{◌≡◌, ◌≢◌, ◌<◌, ◌⊎◌, Some, None, IfOk, OnOk};
ghost use Rattle.std.specs.Option.{option_map};
ghost use Rattle.std.specs.Arc.{arc_slice_items};

use std::alloc::{AllocError, Global};
use std::sync::ArcSlice;

/// The text that was kept last.
#[derive(Drop)]
pub(crate) struct Texts {
    alloc: Global,
    last: Option<ArcSlice<u8>>,
    // How many texts were kept: the number of the last one.
    count: u64,
}

/// A text that is kept, and its number. No two have the same.
#[derive(Drop)]
pub(crate) struct Kept {
    pub(crate) text: ArcSlice<u8>,
    pub(crate) number: u64,
}

impl Texts {
    pub(crate) fn new(alloc: Global) -> Texts
        ensures last { result.last ≡ None }
        ensures count { result.count ≡ 0 }
    {
        Texts {
            alloc,
            last: None,
            count: 0,
        }
    }

    // Keeps one more text.
    fn add(&mut self, text: &[u8]) -> Result<Kept, AllocError>
        ensures text { IfOk result (λ kept. arc_slice_items kept.text ≡ text.now) }
        ensures fresh { IfOk result (λ kept. self.old.count < kept.number) }
        ensures number { IfOk result (λ kept. kept.number ≡ self.new.count) }
        ensures last { OnOk result (option_map arc_slice_items self.new.last ≡ Some text.now) }
    {
        let count = self.count.checked_add(1).ok_or(AllocError)?;
        let kept = ArcSlice::from_slice(self.alloc, text)?;
        self.last = Some(kept.clone()?);
        self.count = count;
        Ok(Kept {
            text: kept,
            number: count,
        })
    }

    /// Keeps a text for one more reader: the last one again, where it is the same.
    pub(crate) fn keep(&mut self, text: &[u8]) -> Result<Kept, AllocError>
        ensures text { IfOk result (λ kept. arc_slice_items kept.text ≡ text.now) }
        ensures same { option_map arc_slice_items self.old.last ≡ Some text.now
            → IfOk result (λ kept. kept.number ≡ self.old.count) }
        ensures other { option_map arc_slice_items self.old.last ≢ Some text.now
            → IfOk result (λ kept. self.old.count < kept.number) }
        ensures last { OnOk result (option_map arc_slice_items self.new.last ≡ Some text.now) }
        ensures number { IfOk result (λ kept. kept.number ≡ self.new.count) }
    {
        if let Some(last) = &self.last {
            if last.as_slice() == text {
                return Ok(Kept {
                    text: last.clone()?,
                    number: self.count,
                });
            }
        }
        self.add(text)
    }

    /// Lets go of the last text where no reader has anything of it left.
    pub(crate) fn forget_unread(&mut self)
        ensures count { self.new.count ≡ self.old.count }
        ensures last { (self.new.last ≡ self.old.last) ⊎ (self.new.last ≡ None) }
    {
        if self
            .last
            .as_ref()
            .is_some_and(|last| ArcSlice::strong_count(last) == 1)
        {
            self.last = None;
        }
    }
}
