ghost use Rattle.std.specs.Prelude.{◌≡◌, ◌<◌, ◌≤◌, ◌+◌, All, map, length, vec_len};
ghost use Rattle.std.specs.Iterator.{YieldsFirst, item_count};
ghost use Rattle.gate_downtime.specs.inner.Live.{scheduled_at, AreInside};

use crate::row::{Row, row_at};
use gate_model::Scheduled;
use std::marker::Model;

/// The live entries of a book, ids ascending. Contracts see the list of those that are left.
#[derive(Drop)]
pub struct LiveEntries<'a> {
    ids: &'a [u32],
    rows: &'a [Row],
    first: u32,
}

impl<'a> Model for LiveEntries<'a> {
    ghost use Rattle.std.specs.Prelude.{List, map};
    ghost use Rattle.gate_model.specs.declared.downtime.Scheduled.{Scheduled};
    ghost use Rattle.gate_downtime.specs.inner.Live.{scheduled_at, AreInside};

    ghost Value = { List Scheduled };

    ghost view = { λ left. map (scheduled_at left.first left.rows.now) left.ids.now };

    ghost invariant = { λ left. AreInside left.first left.rows.now left.ids.now };
}

impl<'a> LiveEntries<'a> {
    pub(crate) fn new(ids: &'a [u32], rows: &'a [Row], first: u32) -> LiveEntries<'a>
        requires { AreInside first rows.now ids.now }
        ensures { result ≡ map (scheduled_at first rows.now) ids.now }
    {
        LiveEntries { ids, rows, first }
    }
}

impl<'a> Iterator for LiveEntries<'a> {
    type Item = Scheduled;

    ghost next_gives = { YieldsFirst (λ left. left) };

    ghost remaining = { item_count (λ left. left) };

    fn next(&mut self) -> Option<Scheduled> {
        let (id, rest) = self.ids.split_first()?;
        self.ids = rest;
        let row = row_at(self.rows, (*id - self.first) as usize);
        Some(row.entry.scheduled)
    }
}
