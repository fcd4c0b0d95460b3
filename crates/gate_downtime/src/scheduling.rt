ghost use Rattle.std.specs.Prelude.{◌≡◌, ◌<◌, ◌≤◌, ◌+◌, ◌-◌, ◌^◌, ◌++◌, ◌||◌, ◌==◌, [], ◌∷◌, length, vec_len, None, Some, false, IfSome, is_some, not};
ghost use Rattle.std.specs.BinaryHeap.{heap_len, heap_capacity};
ghost use Rattle.gate_downtime.specs.declared.row.Row.{Row};
ghost use Rattle.gate_downtime.specs.inner.Rows.{SameButMarks, Follows, is_live_row, begin_of_row};
ghost use Rattle.gate_downtime.specs.inner.Scheduling.{IsTrigger, IsLiveAt, settled_by};
ghost use Rattle.gate_downtime.specs.inner.Tally.{IsSound, HasRoom, AddsAtMost};
ghost use Rattle.gate_downtime.specs.inner.Gone.{MoreGone};
ghost use Rattle.gate_downtime.specs.inner.Live.{IsFresh};
ghost use Rattle.gate_downtime.specs.inner.Sizes.{HasSpace, OneMore};

use crate::chains::Chains;
use crate::gone::{list_gone, push_mark};
use crate::row::{Row, begin_by, is_active_at, is_live_at, over_by, push_within};
use crate::tally::{Tally, mark_row, wake_row};
use gate_model::{Entry, Scheduled};

/// The trigger of a new entry: nothing, or the row at an index.
#[derive(Clone, Copy)]
pub struct Trigger {
    pub at: Option<usize>,
    pub begun: Option<u32>,
    pub over: u64,
    pub settled: bool,
}

/// The index of the live row of this id.
pub fn find_live(rows: &[Row], first: u32, id: u32, now: u32) -> Option<usize>
    ensures found { IfSome result (λ at. IsLiveAt first rows.now now id at) }
    ensures live { is_some result ≡ is_live_row first rows.now now id }
{
    if id < first {
        return None;
    }
    let at = (id - first) as usize;
    if at >= rows.len() {
        return None;
    }
    let row = rows[at];
    if row.entry.deleted || row.over <= now as u64 {
        return None;
    }
    Some(at)
}

impl Chains {
    /// The index of the live row of this id.
    pub fn find_live(&self, id: u32) -> Option<usize>
        ensures found { IfSome result (λ at.
            IsLiveAt self.now.first self.now.rows.items self.now.moment.0 id at) }
        ensures live { is_some result
            ≡ is_live_row self.now.first self.now.rows.items self.now.moment.0 id }
    {
        find_live(&self.rows, self.first, id, self.moment.0)
    }

    /// When the entry of this id begins, if it does.
    pub fn find_begin(&self, id: u32) -> Option<u32>
        ensures { result ≡ begin_of_row self.now.first self.now.rows.items id }
    {
        if id < self.first {
            return None;
        }
        let at = (id - self.first) as usize;
        if at >= self.rows.len() {
            return None;
        }
        self.row_at(at).begun
    }

    /// The trigger of this id: nothing for 0, else a live row.
    pub fn find_trigger(&self, trigger: u32) -> Option<Trigger>
        ensures found { IfSome result (λ found.
            IsTrigger self.now.first self.now.rows.items trigger found) }
        ensures live { is_some result ≡ ((trigger == 0)
            || is_live_row self.now.first self.now.rows.items self.now.moment.0 trigger) }
    {
        if trigger == 0 {
            return Some(Trigger {
                at: None,
                begun: None,
                over: 0,
                settled: false,
            });
        }
        let Some(at) = self.find_live(trigger) else {
            return None;
        };
        let row = self.row_at(at);
        Some(Trigger {
            at: Some(at),
            begun: row.begun,
            over: row.over,
            settled: row.settled,
        })
    }
}

/// The row of a new entry, not yet marked.
pub fn fresh_row(scheduled: Scheduled, trigger: Trigger) -> Row
    ensures entry { result.entry
        ≡ record { scheduled = scheduled; transition = None; deleted = false } }
    ensures follows { Follows result trigger.begun (Some trigger.over) }
    ensures settled { result.settled ≡ settled_by scheduled trigger }
    ensures active { result.active ≡ false }
{
    let entry = Entry {
        scheduled,
        transition: None,
        deleted: false,
    };
    let begun = begin_by(entry, trigger.begun);
    let over = over_by(entry, begun, trigger.begun, trigger.over);
    let settled = if scheduled.plan.trigger == 0 {
        scheduled.plan.fixed
    } else {
        trigger.settled
    };
    Row {
        entry,
        begun,
        over,
        active: false,
        settled,
    }
}

/// Adds a row, makes its later moments deadlines and marks it.
pub fn add_row(rows: &mut Vec<Row>, tally: &mut Tally, row: Row, now: u32)
    requires sound { IsSound now rows.old.items tally.old }
    requires room { HasSpace rows.old }
    requires deadlines { HasRoom 2 tally.old }
    requires object { row.entry.scheduled.object.place < length tally.old.depths.items }
    requires few { length rows.old.items + 1 < 2 ^ 32 }
    requires mark { row.active ≡ false }
    requires fresh { IsFresh row tally.old.live }
    requires gone { length rows.old.items + 1 ≤ heap_capacity tally.old.gone.heap }
    requires marks { HasSpace tally.old.gone.marks }
    ensures sound { IsSound now rows.new.items tally.new }
    ensures rows { SameButMarks (rows.old.items ++ row ∷ []) rows.new.items }
    ensures objects { vec_len tally.new.depths ≡ vec_len tally.old.depths }
    ensures gone_more { MoreGone tally.old.gone tally.new.gone }
    ensures live_same { tally.new.live ≡ tally.old.live }
    ensures size { OneMore rows.old rows.new }
    ensures deadlines { AddsAtMost 2 tally.old tally.new }
{
    let at = rows.len();
    push_within(rows, row);
    wake_row(&mut tally.deadlines, at, row, now);
    let active = is_active_at(row, now);
    mark_row(rows, &mut tally.depths, at, active);
    push_mark(&mut tally.gone);
    list_gone(&mut tally.gone, at, is_live_at(row, now));
}
