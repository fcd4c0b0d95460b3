ghost use Rattle.std.specs.Prelude.{◌≡◌, ◌&&◌, not, ◌<◌, ◌++◌, [], ◌∷◌, length, true, Some, slice_index_or, slice_set};
ghost use Rattle.gate_model.specs.Downtime.{begin_by, begin_alone, over_by};
ghost use Rattle.gate_downtime.specs.declared.row.Row.{Row};
ghost use Rattle.gate_downtime.specs.inner.Rows.{active_at, with_active, live_at, Follows};
ghost use Rattle.gate_downtime.specs.inner.Cancel.{deleted_row};
ghost use Rattle.gate_downtime.specs.inner.Sizes.{HasSpace, OneMore, SameSize};

use gate_model::Entry;

/// An entry, its beginning and its end in seconds, and two marks.
#[derive(Clone, Copy)]
pub struct Row {
    pub entry: Entry,
    pub begun: Option<u32>,
    pub over: u64,
    /// Whether the counter of its object counts it.
    pub active: bool,
    /// Whether no transition can change its beginning any more.
    pub settled: bool,
}

/// Whether the entry is active at this moment.
pub fn is_active_at(row: Row, now: u32) -> bool
    ensures { result ≡ active_at now row }
{
    let begun = match row.begun {
        None => false,
        Some(moment) => moment <= now,
    };
    !row.entry.deleted && (now as u64) < row.over && begun
}

/// Whether the entry is live at this moment.
pub fn is_live_at(row: Row, now: u32) -> bool
    ensures { result ≡ live_at now row }
{
    !row.entry.deleted && (now as u64) < row.over
}

/// Whether the entry of the old row was live before, and that of the new row isn't now.
pub fn has_ended(old: Row, before: u32, new: Row, now: u32) -> bool
    ensures { result ≡ (live_at before old && not (live_at now new)) }
{
    is_live_at(old, before) && !is_live_at(new, now)
}

/// When the entry begins, if it does, its trigger beginning at that moment.
pub fn begin_by(entry: Entry, trigger_begun: Option<u32>) -> Option<u32>
    ensures { result ≡ begin_by entry trigger_begun }
{
    let plan = entry.scheduled.plan;
    if plan.trigger == 0 {
        return begin_alone(entry);
    }
    match trigger_begun {
        None => None,
        Some(begun) => {
            let moment = begun.max(entry.scheduled.moment.0);
            if plan.fixed && plan.ends.0 <= moment {
                None
            } else {
                Some(moment)
            }
        }
    }
}

fn begin_alone(entry: Entry) -> Option<u32>
    ensures { result ≡ begin_alone entry }
{
    if entry.scheduled.plan.fixed {
        return Some(entry.scheduled.plan.starts.0.max(entry.scheduled.moment.0));
    }
    match entry.transition {
        None => None,
        Some(moment) => Some(moment.0),
    }
}

/// When the entry is over.
pub fn over_by(
    entry: Entry,
    begun: Option<u32>,
    trigger_begun: Option<u32>,
    trigger_over: u64,
) -> u64
    ensures { result ≡ over_by entry begun trigger_begun (Some trigger_over) }
{
    let plan = entry.scheduled.plan;
    match begun {
        Some(moment) => {
            if plan.fixed {
                plan.ends.0 as u64
            } else {
                moment as u64 + plan.lasts as u64
            }
        }
        None => {
            if plan.trigger == 0 || trigger_begun.is_some() {
                plan.ends.0 as u64
            } else if plan.fixed {
                (plan.ends.0 as u64).min(trigger_over)
            } else {
                trigger_over
            }
        }
    }
}

/// The row of an entry whose trigger begins and ends at these moments, for good.
pub fn settled_row(entry: Entry, active: bool, trigger_begun: Option<u32>, trigger_over: u64) -> Row
    ensures entry { result.entry ≡ entry }
    ensures follows { Follows result trigger_begun (Some trigger_over) }
    ensures active { result.active ≡ active }
    ensures settled { result.settled ≡ true }
{
    let begun = begin_by(entry, trigger_begun);
    Row {
        entry,
        begun,
        over: over_by(entry, begun, trigger_begun, trigger_over),
        active,
        settled: true,
    }
}

/// The row with its entry deleted.
pub fn deleted_row(row: Row) -> Row
    ensures { result ≡ with_active row.active (deleted_row row) }
{
    let entry = Entry {
        scheduled: row.entry.scheduled,
        transition: row.entry.transition,
        deleted: true,
    };
    Row {
        entry,
        begun: row.begun,
        over: row.over,
        active: row.active,
        settled: row.settled,
    }
}

pub fn row_at(rows: &[Row], at: usize) -> Row
    requires { at < length rows.now }
    ensures { (d : Row) → result ≡ slice_index_or rows.now at d }
{
    rows[at]
}

pub fn write_row(rows: &mut Vec<Row>, at: usize, row: Row)
    requires { at < length rows.old.items }
    ensures items { rows.new.items ≡ slice_set rows.old.items at row }
    ensures size { SameSize rows.old rows.new }
{
    rows[at] = row;
}

/// Adds an item to those that there is room for.
pub fn push_within<T: Copy>(items: &mut Vec<T>, item: T)
    requires { HasSpace items.old }
    ensures items { items.new.items ≡ items.old.items ++ item ∷ [] }
    ensures size { OneMore items.old items.new }
{
    match items.push(item) {
        Ok(()) => (),
        Err(_) => unreachable!(),
    }
}
