ghost use Rattle.std.specs.Prelude.{◌≡◌, ◌<◌, ◌&&◌, not, is_none, length, map, slice_index_or, slice_set};
ghost use Rattle.gate_model.specs.Downtime.{begins_at};
ghost use Rattle.gate_downtime.specs.declared.row.Row.{Row};
ghost use Rattle.gate_downtime.specs.Book.{after_transition};
ghost use Rattle.gate_downtime.specs.inner.Links.{IsWaiting, turned_at};
ghost use Rattle.gate_downtime.specs.inner.Walk.{IsFlex, FlexLinked, entry_list};
ghost use Rattle.gate_downtime.specs.inner.Chains.{IsReady, Keeps};

use crate::chains::{Chains, Change};
use crate::row::settled_row;
use gate_model::{Entry, Moment};

impl Chains {
    /// The first transition of an untriggered flexible entry begins it, and what it triggers.
    fn turn_root(&mut self, at: usize)
        requires within { at < length self.old.rows.items }
        requires ready { IsReady self.old }
        requires root { (d : Row) → IsWaiting (slice_index_or self.old.rows.items at d) }
        ensures ready { IsReady self.new }
        ensures entries { (d : Row)
            → entry_list self.new.rows.items
            ≡ slice_set (entry_list self.old.rows.items) at
            (turned_at self.old.moment (slice_index_or self.old.rows.items at d).entry) }
        ensures kept { Keeps self.old self.new }
    {
        let row = self.row_at(at);
        let entry = Entry {
            scheduled: row.entry.scheduled,
            transition: Some(self.moment),
            deleted: row.entry.deleted,
        };
        self.write(at, settled_row(entry, row.active, None, 0));
        self.walk_from(at, Change::Begin);
    }

    /// A row of the object's list, and what it triggers, where the transition begins it.
    fn turn_row(&mut self, at: usize, place: u32)
        requires within { at < length self.old.rows.items }
        requires ready { IsReady self.old }
        requires flexible { (d : Row) → IsFlex place (slice_index_or self.old.rows.items at d).entry }
        ensures ready { IsReady self.new }
        ensures entries { (d : Row)
            → entry_list self.new.rows.items
            ≡ slice_set (entry_list self.old.rows.items) at
            (after_transition self.old.moment place (slice_index_or self.old.rows.items at d).entry) }
        ensures kept { Keeps self.old self.new }
    {
        let row = self.row_at(at);
        if !begins(row.entry, self.moment, place) {
            return;
        }
        self.turn_root(at);
    }

    /// A transition of an object: all that it begins of the list of its waiting rows, and what those
    /// trigger.
    pub fn turn_waiting(&mut self, head: Option<usize>, place: u32)
        requires ready { IsReady self.old }
        requires flexible { FlexLinked self.old.moment.0 self.old.rows.items self.old.links.items
            place head }
        ensures ready { IsReady self.new }
        ensures entries { entry_list self.new.rows.items
            ≡ map (after_transition self.old.moment place) (entry_list self.old.rows.items) }
        ensures kept { Keeps self.old self.new }
    {
        let mut cursor = head;
        'walk: while let Some(at) = cursor {
            self.turn_row(at, place);
            cursor = self.link_at(at).waiting;
        }
    }
}

/// Whether a transition of the object at this place begins the entry.
fn begins(entry: Entry, now: Moment, place: u32) -> bool
    ensures { result ≡ ((is_none entry.transition && not entry.deleted)
        && begins_at entry.scheduled now place) }
{
    let plan = entry.scheduled.plan;
    entry.transition.is_none()
        && !entry.deleted
        && (!plan.fixed
            && plan.trigger == 0
            && entry.scheduled.object.place == place
            && plan.starts.0 <= now.0
            && now.0 < plan.ends.0)
}
