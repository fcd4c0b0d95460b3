ghost use Rattle.std.specs.Prelude.{◌≡◌, ◌<◌, ◌≤◌, ◌^◌, ◌+◌, ◌*◌, ℕ, [], ◌∷◌, length, vec_len, vec_capacity, All, Contains, IfNone, IfSome, IfOk, replicate, slice_index_or, slice_set, OnOk};
ghost use Rattle.std.specs.BinaryHeap.{heap_items, heap_len, heap_capacity, IsHeap};
ghost use Rattle.std.specs.List.Sorted.{IsPermutation};
ghost use Rattle.gate_downtime.specs.declared.row.Row.{Row};
ghost use Rattle.gate_downtime.specs.inner.Rows.{active_at, with_active, Counted, CanCount, deadline_cmp, Sound, SameButMarks, AddsAt, Wakes, CanReplace, unsettled_one};
ghost use Rattle.gate_downtime.specs.inner.Sizes.{SameSize};
ghost use Rattle.gate_downtime.specs.inner.Tally.{IsSound, KeepsSize, KeepsTally, HasRowRoom};
ghost use Rattle.gate_downtime.specs.inner.Live.{IsIdle};

use crate::gone::{Gone, list_gone, no_gone};
use crate::live::{LiveIds, no_live, note_ended};
use crate::row::{Row, has_ended, is_active_at, is_live_at, row_at};
use std::alloc::{AllocError, Global};
use std::cmp::Reverse;
use std::collections::BinaryHeap;

/// How many entries of each object are active, and the moments at which a row is to be looked at
/// again, each with the row's index, and the rows that are live, or no more.
#[derive(Drop)]
pub struct Tally {
    pub depths: Vec<u32>,
    pub deadlines: BinaryHeap<Reverse<(u64, usize)>>,
    pub gone: Gone,
    pub live: LiveIds,
}

impl Tally {
    /// Takes the memory that this many more rows need, beside this many.
    pub fn reserve(&mut self, rows: usize, more: usize) -> Result<(), AllocError>
        requires rows { rows ≤ 2 ^ 32 }
        requires more { more < 2 ^ 32 }
        ensures same { KeepsTally self.old self.new }
        ensures room { OnOk result (HasRowRoom rows more self.new) }
    {
        self.deadlines.reserve(2 * rows + 4 * more)?;
        self.gone.marks.reserve(more)?;
        self.gone.heap.reserve(rows + more)?;
        self.live.ids.reserve(more)?;
        Ok(())
    }
}

fn zeros(alloc: Global, count: usize) -> Result<Vec<u32>, AllocError>
    ensures items { IfOk result (λ zeros. zeros.items ≡ replicate count 0) }
    ensures len { IfOk result (λ zeros. vec_len zeros ≡ count) }
{
    vec![in alloc; 0u32; count]
}

/// The tally of no rows, over that many objects.
pub fn no_tally(alloc: Global, objects: usize) -> Result<Tally, AllocError>
    ensures sound { IfOk result (λ tally. (now : ℕ) → IsSound now [] tally) }
    ensures objects { IfOk result (λ tally. vec_len tally.depths ≡ objects) }
    ensures marks { IfOk result (λ tally. vec_len tally.gone.marks ≡ 0) }
    ensures deadlines { IfOk result (λ tally. heap_len tally.deadlines ≡ 0) }
    ensures live { IfOk result (λ tally. tally.live.ids.items ≡ []) }
    ensures idle { IfOk result (λ tally. IsIdle tally.live) }
{
    Ok(Tally {
        depths: zeros(alloc, objects)?,
        deadlines: BinaryHeap::new(alloc),
        gone: no_gone(alloc),
        live: no_live(alloc)?,
    })
}

/// Takes a deadline that isn't later than `now`.
fn next_due(deadlines: &mut BinaryHeap<Reverse<(u64, usize)>>, now: u32) -> Option<usize>
    requires { IsHeap deadline_cmp (heap_items deadlines.old) }
    ensures none { IfNone result (All (λ d. now < d.0.0) (heap_items deadlines.old)) }
    ensures none_same { IfNone result (heap_items deadlines.new ≡ heap_items deadlines.old) }
    ensures some { IfSome result (λ k. (m : ℕ) × (m ≤ now)
        × IsPermutation (heap_items deadlines.old)
        (record { 0 = (m, k) } ∷ heap_items deadlines.new)) }
    ensures order { IsHeap deadline_cmp (heap_items deadlines.new) }
    ensures fewer { IfSome result (λ k. heap_len deadlines.new + 1 ≡ heap_len deadlines.old) }
    ensures capacity { heap_capacity deadlines.new ≡ heap_capacity deadlines.old }
{
    match deadlines.peek() {
        None => return None,
        Some(first) => {
            if (now as u64) < first.0.0 {
                return None;
            }
        }
    }
    match deadlines.pop() {
        None => None,
        Some(due) => Some(due.0.1),
    }
}

/// Sets the mark of a row and keeps the counters right.
fn mark_active(rows: &mut [Row], depths: &mut [u32], at: usize, active: bool)
    requires within { at < length rows.old }
    requires counters { CanCount rows.old depths.old }
    ensures rows { (d : Row)
        → rows.new ≡ slice_set rows.old at (with_active active (slice_index_or rows.old at d)) }
    ensures counted { Counted rows.new depths.new }
    ensures objects { length depths.new ≡ length depths.old }
{
    let row = rows[at];
    if row.active == active {
        return;
    }
    let place = row.entry.scheduled.object.place as usize;
    if active {
        depths[place] += 1;
    } else {
        depths[place] -= 1;
    }
    rows[at] = Row {
        entry: row.entry,
        begun: row.begun,
        over: row.over,
        active,
        settled: row.settled,
    };
}

pub fn mark_row(rows: &mut Vec<Row>, depths: &mut Vec<u32>, at: usize, active: bool)
    requires within { at < length rows.old.items }
    requires counters { CanCount rows.old.items depths.old.items }
    ensures rows { (d : Row)
        → rows.new.items
        ≡ slice_set rows.old.items at (with_active active (slice_index_or rows.old.items at d)) }
    ensures counted { Counted rows.new.items depths.new.items }
    ensures objects { length depths.new.items ≡ length depths.old.items }
    ensures depths { vec_len depths.new ≡ vec_len depths.old }
    ensures size { SameSize rows.old rows.new }
{
    mark_active(rows, depths, at, active);
}

/// Looks at all rows again whose deadlines come up to `now`, one deadline at a time.
pub fn settle(rows: &mut Vec<Row>, tally: &mut Tally, before: u32, now: u32)
    requires order { before ≤ now }
    requires sound { IsSound before rows.old.items tally.old }
    ensures sound { IsSound now rows.new.items tally.new }
    ensures same { SameButMarks rows.old.items rows.new.items }
    ensures kept { KeepsSize rows.old rows.new tally.old tally.new }
    ensures capacity { heap_capacity tally.new.deadlines ≡ heap_capacity tally.old.deadlines }
    ensures fewer { heap_len tally.new.deadlines ≤ heap_len tally.old.deadlines }
{
    'due: while let Some(at) = next_due(&mut tally.deadlines, now) {
        let row = row_at(rows, at);
        let active = is_active_at(row, now);
        let live = is_live_at(row, now);
        let ended = has_ended(row, before, row, now);
        mark_row(rows, &mut tally.depths, at, active);
        list_gone(&mut tally.gone, at, live);
        note_ended(&mut tally.live, row.entry.scheduled.id, ended);
    }
}

/// A later moment becomes a deadline, for which there is room.
fn wake_at(deadlines: &mut BinaryHeap<Reverse<(u64, usize)>>, moment: u64, at: usize, now: u32)
    requires { heap_len deadlines.old < heap_capacity deadlines.old }
    ensures adds { AddsAt at deadlines.old deadlines.new }
    ensures there { now < moment
        → Contains (heap_items deadlines.new) (record { 0 = (moment, at) }) }
    ensures len { heap_len deadlines.new ≤ heap_len deadlines.old + 1 }
{
    if (now as u64) < moment {
        match deadlines.push(Reverse((moment, at))) {
            Ok(()) => (),
            Err(_) => unreachable!(),
        }
    }
}

/// The later beginning and end of a row become deadlines.
pub fn wake_row(deadlines: &mut BinaryHeap<Reverse<(u64, usize)>>, at: usize, row: Row, now: u32)
    requires { heap_len deadlines.old + 2 ≤ heap_capacity deadlines.old }
    ensures adds { AddsAt at deadlines.old deadlines.new }
    ensures wakes { Wakes now (heap_items deadlines.new) at row }
    ensures len { heap_len deadlines.new ≤ heap_len deadlines.old + 2 }
{
    wake_at(deadlines, row.over, at, now);
    if let Some(moment) = row.begun {
        wake_at(deadlines, moment as u64, at, now);
    }
}

/// The later beginning and end of a row that replaces an old one become deadlines, where they can
/// differ: where it is settled, and the old one isn't.
pub fn wake_settled(
    deadlines: &mut BinaryHeap<Reverse<(u64, usize)>>,
    at: usize,
    old: Row,
    row: Row,
    now: u32,
)
    requires row { CanReplace old row }
    requires awake { Wakes now (heap_items deadlines.old) at old }
    requires room { heap_len deadlines.old + 2 * unsettled_one old ≤ heap_capacity deadlines.old }
    ensures adds { AddsAt at deadlines.old deadlines.new }
    ensures wakes { Wakes now (heap_items deadlines.new) at row }
    ensures len { heap_len deadlines.new + 2 * unsettled_one row
        ≤ heap_len deadlines.old + 2 * unsettled_one old }
{
    if row.settled == old.settled {
        return;
    }
    wake_row(deadlines, at, row, now);
}
