ghost use Rattle.std.specs.Prelude.{◌≡◌, ◌<◌, ◌≤◌, ◌+◌, ◌++◌, [], ◌∷◌, IfOk, if◌then◌else◌};
ghost use Rattle.gate_downtime.specs.inner.Rows.{is_live_row};
ghost use Rattle.gate_downtime.specs.inner.Live.{Notes, AreNoted, IsIdle, AreAscending, DropsEnded};

use crate::ids::{Ids, is_live_id};
use crate::row::{Row, push_within};
use std::alloc::{AllocError, Global};

/// How many ids are removed one by one. More are removed in one pass.
const FEW: usize = 8;

/// The ids of the live rows, ascending.
#[derive(Drop)]
pub struct LiveIds {
    /// Within a call also ids of rows that it has ended.
    pub ids: Ids,
    /// The ids of the rows that a call has ended. Empty between calls.
    pub ended: Vec<u32>,
    /// Whether the call has ended more rows than `ended` has room for.
    pub many: bool,
}

/// No live rows.
pub fn no_live(alloc: Global) -> Result<LiveIds, AllocError>
    ensures ids { IfOk result (λ live. live.ids.items ≡ []) }
    ensures idle { IfOk result IsIdle }
{
    Ok(LiveIds {
        ids: Ids::new(alloc),
        ended: Vec::with_capacity(alloc, FEW)?,
        many: false,
    })
}

/// Notes the id of a row, where it has ended.
pub fn note_ended(live: &mut LiveIds, id: u32, ended: bool)
    ensures { Notes id ended live.old live.new }
{
    if !ended {
        return;
    }
    if live.ended.len() < live.ended.capacity() {
        push_within(&mut live.ended, id);
    } else {
        live.many = true;
    }
}

/// Adds the id of a new row, where it is live.
pub fn push_live(live: &mut LiveIds, id: u32, is_live: bool)
    requires { 0 < live.old.ids.room }
    ensures ids { live.new.ids.items
        ≡ (if is_live then live.old.ids.items ++ id ∷ [] else live.old.ids.items) }
    ensures room { live.old.ids.room ≤ live.new.ids.room + 1 }
    ensures ended { live.new.ended ≡ live.old.ended }
    ensures many { live.new.many ≡ live.old.many }
{
    if is_live {
        live.ids.push(id);
    }
}

/// Removes the ids of the rows that a call has ended: a few one by one, more in one pass.
pub fn drop_ended(live: &mut LiveIds, rows: &[Row], first: u32, now: u32)
    requires ascending { AreAscending live.old.ids.items }
    requires noted { AreNoted (is_live_row first rows.now now) live.old }
    ensures { DropsEnded (is_live_row first rows.now now) live.old live.new }
{
    if live.many {
        live.ids.retain_live(rows, first, now);
        live.ended.clear();
        live.many = false;
        return;
    }
    'ended: while let Some(id) = live.ended.pop() {
        if !is_live_id(rows, first, id, now) {
            live.ids.remove(id);
        }
    }
}
