ghost use Rattle.std.specs.Prelude.{◌≡◌};
ghost use Rattle.std.specs.Iterator.{YieldsFirst, item_count};
ghost use Rattle.gate_objects.specs.Book.{stale_objects};

use crate::book::ObjectStatus;
use gate_model::{Moment, ObjectId};
use std::marker::Model;

/// The stale objects of a book, in table order. Contracts see the list of those that are left.
#[derive(Drop)]
pub struct StaleObjects<'a> {
    statuses: &'a [ObjectStatus],
    opening: Moment,
    moment: Moment,
}

impl<'a> Model for StaleObjects<'a> {
    ghost use Rattle.std.specs.Prelude.{List};
    ghost use Rattle.gate_model.specs.declared.object.ObjectId.{ObjectId};
    ghost use Rattle.gate_objects.specs.Book.{stale_objects};

    ghost Value = { List ObjectId };

    ghost view = { λ left. stale_objects left.opening left.moment left.statuses.now };
}

impl<'a> StaleObjects<'a> {
    pub(crate) fn new(
        statuses: &'a [ObjectStatus],
        opening: Moment,
        moment: Moment,
    ) -> StaleObjects<'a>
        ensures { result ≡ stale_objects opening moment statuses.now }
    {
        StaleObjects {
            statuses,
            opening,
            moment,
        }
    }
}

impl<'a> Iterator for StaleObjects<'a> {
    type Item = ObjectId;

    ghost next_gives = { YieldsFirst (λ left. left) };

    ghost remaining = { item_count (λ left. left) };

    fn next(&mut self) -> Option<ObjectId> {
        while let Some((status, rest)) = self.statuses.split_first() {
            self.statuses = rest;
            if status.is_stale(self.opening, self.moment) {
                return Some(status.object);
            }
        }
        None
    }
}
