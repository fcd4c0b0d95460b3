//! The page that is kept of a gateway, read once for several forms.
ghost use Rattle.std.specs.Prelude.{◌≡◌, IfOk, MatchOption};
ghost use Rattle.status_reading.specs.Rows.{page_view};
ghost use Rattle.statusdesk.specs.Kept.{IsKeptOf, IsNotKept};

use crate::objects::{Known, page_of};
use page_watching::Seen;
use std::alloc::{AllocError, Global};
use std::marker::Model;

/// What is kept of a gateway, which contracts see, and the page of that, if one is.
#[derive(Drop)]
pub struct ReadPage<'t> {
    seen: &'t Seen<'t>,
    known: Option<Known<'t>>,
}

impl<'t> Model for ReadPage<'t> {
    ghost use Rattle.std.specs.Prelude.{MatchOption};
    ghost use Rattle.status_reading.specs.Rows.{page_view};
    ghost use Rattle.page_watching.specs.declared.watching.Seen.{Seen};
    ghost use Rattle.statusdesk.specs.Kept.{IsKeptOf, IsNotKept};

    ghost Value = { Seen };

    ghost view = { λ read. read.seen.now };

    ghost invariant = { λ read. MatchOption read.known (IsNotKept read.seen.now) (λ known.
        IsKeptOf read.seen.now (page_view known.page)) };
}

impl<'t> ReadPage<'t> {
    /// Reads the page that is kept of a gateway. The only error is out of memory.
    pub fn new(alloc: Global, seen: &'t Seen<'t>) -> Result<ReadPage<'t>, AllocError>
        ensures { IfOk result (λ read. read ≡ seen.entry.now) }
    {
        let known = page_of(alloc, seen)?;
        Ok(ReadPage { seen, known })
    }

    /// The gateway's name.
    pub fn name(&self) -> &str
        ensures { result.now ≡ self.now.place.name.now }
    {
        let seen = self.seen;
        seen.place.name
    }

    /// The page.
    pub fn known(&self) -> Option<&Known<'t>>
        ensures { MatchOption result (IsNotKept self.now)
            (λ known. IsKeptOf self.now (page_view known.now.page)) }
    {
        match &self.known {
            Some(known) => Some(known),
            None => None,
        }
    }
}
