ghost use Rattle.std.specs.Prelude.{◌≡◌, ◌<◌, ◌≤◌, ◌+◌, ◌^◌, ◌++◌, [], ◌∷◌, length, true, vec_len, vec_capacity, count_by, map, slice_index_or, slice_set, option_to_list, IfNone, IfSome, OnOk};
ghost use Rattle.gate_model.specs.Downtime.{is_chained, is_live_in};
ghost use Rattle.gate_downtime.specs.Book.{after_deletion};
ghost use Rattle.gate_downtime.specs.declared.row.Row.{Row};
ghost use Rattle.gate_downtime.specs.inner.Rows.{active_at, with_active, row_entries, live_at, CanReplace};
ghost use Rattle.gate_downtime.specs.inner.Cancel.{HasStruck};
ghost use Rattle.gate_downtime.specs.declared.chains.Change.TheVariants.{Begin, Delete};
ghost use Rattle.gate_downtime.specs.inner.Chains.{IsCurrent, IsReady, IsWalking, IsTriggered, IsPassed, IsChanged, Walks, Keeps, left_of, KeepsRows, HasChainRoom};

use crate::gone::list_gone;
use crate::links::{Link, push_pending};
use crate::live::note_ended;
use crate::row::{Row, deleted_row, has_ended, is_active_at, is_live_at, settled_row, write_row};
use crate::tally::{Tally, mark_row, wake_settled};
use gate_model::Moment;
use std::alloc::AllocError;

/// What a walk along the chains of triggers makes of the rows that it visits.
#[derive(Clone, Copy)]
pub enum Change {
    /// Each takes the beginning and the end that follow from its trigger's.
    Begin,
    /// Each is deleted.
    Delete,
}

/// The rows of a book and the chains of triggers between them, at a moment.
#[derive(Drop)]
pub struct Chains {
    /// The row at an index has that id after the first.
    pub rows: Vec<Row>,
    pub links: Vec<Link>,
    pub tally: Tally,
    /// The rows that a walk is still to visit. Empty between calls.
    pub pending: Vec<usize>,
    pub moment: Moment,
    pub first: u32,
}

impl Chains {
    /// Takes the memory that this many more rows need.
    pub fn reserve(&mut self, more: usize) -> Result<(), AllocError>
        requires rows { vec_len self.old.rows ≤ 2 ^ 32 }
        requires more { more < 2 ^ 32 }
        ensures same { KeepsRows self.old self.new }
        ensures room { OnOk result (HasChainRoom more self.new) }
    {
        let rows = self.rows.len();
        self.rows.reserve(more)?;
        self.links.reserve(more)?;
        self.tally.reserve(rows, more)?;
        self.pending.reserve(rows + more)?;
        Ok(())
    }

    /// The row at this index.
    pub fn row_at(&self, at: usize) -> Row
        requires { at < length self.now.rows.items }
        ensures { (d : Row) → result ≡ slice_index_or self.now.rows.items at d }
    {
        self.rows[at]
    }

    /// The lists in which the row at this index stands.
    pub fn link_at(&self, at: usize) -> Link
        requires { at < length self.now.links.items }
        ensures { (d : Link) → result ≡ slice_index_or self.now.links.items at d }
    {
        self.links[at]
    }

    /// Writes a row of the same entry, marks it, and lists it where it is live no more. Where it is
    /// settled now, its later moments become deadlines.
    pub fn write(&mut self, at: usize, row: Row)
        requires current { IsCurrent self.old }
        requires within { at < length self.old.rows.items }
        requires row { (d : Row) → CanReplace (slice_index_or self.old.rows.items at d) row }
        ensures current { IsCurrent self.new }
        ensures rows { self.new.rows.items ≡ slice_set self.old.rows.items at
            (with_active (active_at self.old.moment.0 row) row) }
        ensures pending { self.new.pending ≡ self.old.pending }
        ensures kept { Keeps self.old self.new }
    {
        let now = self.moment.0;
        let old = self.row_at(at);
        write_row(&mut self.rows, at, row);
        wake_settled(&mut self.tally.deadlines, at, old, row, now);
        let active = is_active_at(row, now);
        mark_row(&mut self.rows, &mut self.tally.depths, at, active);
        list_gone(&mut self.tally.gone, at, is_live_at(row, now));
        let ended = has_ended(old, now, row, now);
        note_ended(&mut self.tally.live, row.entry.scheduled.id, ended);
    }

    /// What a walk makes of a row, unless it passes it by: one that begins isn't settled yet, and
    /// one that is deleted is live.
    fn changed(&self, row: Row, change: Change) -> Option<Row>
        requires { IsTriggered self.now.first self.now.rows.items row }
        ensures none { IfNone result (IsPassed change self.now.moment.0 row) }
        ensures some { IfSome result (λ new. IsChanged change self.now row new) }
    {
        match change {
            Change::Begin => {
                if row.settled {
                    return None;
                }
                let trigger = row.entry.scheduled.plan.trigger - self.first;
                let trigger = self.row_at(trigger as usize);
                Some(settled_row(row.entry, row.active, trigger.begun, trigger.over))
            }
            Change::Delete => {
                if !is_live_at(row, self.moment.0) {
                    return None;
                }
                Some(deleted_row(row))
            }
        }
    }

    /// One pending row, which was taken off the list.
    fn visit(&mut self, at: usize, change: Change)
        requires { IsWalking change self.old (self.old.pending.items ++ at ∷ []) }
        ensures walking { IsWalking change self.new self.new.pending.items }
        ensures walks { Walks change self.old (self.old.pending.items ++ at ∷ []) self.new
            self.new.pending.items }
        ensures kept { Keeps self.old self.new }
        ensures less { left_of change self.new self.new.pending.items
            < left_of change self.old (self.old.pending.items ++ at ∷ []) }
    {
        let link = self.link_at(at);
        push_pending(&mut self.pending, link.sibling);
        let old = self.row_at(at);
        let Some(row) = self.changed(old, change) else {
            return;
        };
        self.write(at, row);
        push_pending(&mut self.pending, link.child);
    }

    /// Visits the pending rows, and those that a changed row triggers, until none is pending.
    fn walk(&mut self, change: Change)
        requires { IsWalking change self.old self.old.pending.items }
        ensures current { IsCurrent self.new }
        ensures walks { Walks change self.old self.old.pending.items self.new [] }
        ensures idle { self.new.pending.items ≡ [] }
        ensures kept { Keeps self.old self.new }
    {
        'pending: while let Some(at) = self.pending.pop() {
            self.visit(at, change);
        }
    }

    /// Walks along the chains that lead from a row, which was changed.
    pub fn walk_from(&mut self, at: usize, change: Change)
        requires within { at < length self.old.links.items }
        requires idle { self.old.pending.items ≡ [] }
        requires room { 1 ≤ vec_capacity self.old.pending }
        requires walking { (d : Link) → IsWalking change self.old
            (option_to_list (slice_index_or self.old.links.items at d).child) }
        ensures current { IsCurrent self.new }
        ensures walks { (d : Link) → Walks change self.old
            (option_to_list (slice_index_or self.old.links.items at d).child) self.new [] }
        ensures idle { self.new.pending.items ≡ [] }
        ensures kept { Keeps self.old self.new }
    {
        let link = self.link_at(at);
        push_pending(&mut self.pending, link.child);
        self.walk(change);
    }

    /// Deletes a live entry, and along the chains of triggers all that are live.
    pub fn delete_from(&mut self, at: usize)
        requires within { at < length self.old.rows.items }
        requires ready { IsReady self.old }
        requires live { (d : Row)
            → live_at self.old.moment.0 (slice_index_or self.old.rows.items at d) ≡ true }
        ensures ready { IsReady self.new }
        ensures struck { HasStruck self.old.rows.items self.new.rows.items }
        ensures entries { row_entries self.new.rows.items ≡ map
            (after_deletion (is_chained
            (is_live_in (row_entries self.old.rows.items) self.old.moment.0)
            (row_entries self.old.rows.items) (self.old.first + at)))
            (row_entries self.old.rows.items) }
        ensures kept { Keeps self.old self.new }
    {
        let row = self.row_at(at);
        self.write(at, deleted_row(row));
        self.walk_from(at, Change::Delete);
    }
}
