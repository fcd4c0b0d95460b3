ghost use Rattle.std.specs.Prelude.{◌≡◌, option_map};
ghost use Rattle.std.specs.Iterator.{YieldsFirst, item_count};
ghost use Rattle.gate_model.specs.declared.record.Moment.{Moment};
ghost use Rattle.gate_downtime.specs.Book.{live_entries};
ghost use Rattle.gate_applier.specs.inner.Downtimes.{with_begins};

use gate_downtime::{DowntimeBook, LiveEntries};
use gate_model::{Moment, Scheduled};
use std::marker::Model;

/// A live downtime entry, and when it begins, if it does.
#[derive(Drop)]
pub struct LiveDowntime {
    scheduled: Scheduled,
    begin: Option<Moment>,
}

impl Model for LiveDowntime {
    ghost use Rattle.std.specs.Prelude.{option_map};
    ghost use Rattle.gate_model.specs.declared.record.Moment.{Moment};
    ghost use Rattle.gate_model.specs.Meaning.{LiveEntry};

    ghost Value = { LiveEntry };

    ghost view = { λ one. record {
      scheduled = one.scheduled;
      begin = option_map (λ (moment : Moment). moment.0) one.begin;
    } };
}

impl LiveDowntime {
    /// The entry as it was scheduled: its id, its object, its plan, and when.
    pub fn scheduled(&self) -> Scheduled
        ensures { result ≡ self.now.scheduled }
    {
        self.scheduled
    }

    /// When the entry begins, if it does; that may be later than the applier's moment.
    pub fn begin(&self) -> Option<Moment>
        ensures { option_map (λ (moment : Moment). moment.0) result ≡ self.now.begin }
    {
        self.begin
    }
}

/// The live downtime entries of an applier, ids ascending. Contracts see the list of those that are
/// left.
#[derive(Drop)]
pub struct Downtimes<'a> {
    live: LiveEntries<'a>,
    book: &'a DowntimeBook,
}

impl<'a> Model for Downtimes<'a> {
    ghost use Rattle.std.specs.Prelude.{List};
    ghost use Rattle.gate_model.specs.Meaning.{LiveEntry};
    ghost use Rattle.gate_applier.specs.inner.Downtimes.{with_begins};

    ghost Value = { List LiveEntry };

    ghost view = { λ left. with_begins left.book.now left.live };
}

impl<'a> Downtimes<'a> {
    pub(crate) fn new(book: &'a DowntimeBook) -> Downtimes<'a>
        ensures { result ≡ with_begins book.now (live_entries book.now.entries book.now.moment) }
    {
        Downtimes {
            live: book.live(),
            book,
        }
    }
}

impl<'a> Iterator for Downtimes<'a> {
    type Item = LiveDowntime;

    ghost next_gives = { YieldsFirst (λ left. left) };

    ghost remaining = { item_count (λ left. left) };

    fn next(&mut self) -> Option<LiveDowntime> {
        let scheduled = self.live.next()?;
        Some(LiveDowntime {
            scheduled,
            begin: self.book.begin(scheduled.id),
        })
    }
}
