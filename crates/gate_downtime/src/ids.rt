ghost use Rattle.std.specs.Prelude.{◌≡◌, ◌<◌, ◌≤◌, ◌+◌, ◌++◌, ◌==◌, [], ◌∷◌, not, filter, length, drop, vec_len, OnOk};
ghost use Rattle.std.specs.List.{remove};
ghost use Rattle.gate_downtime.specs.inner.Rows.{is_live_row};
ghost use Rattle.gate_downtime.specs.inner.Live.{AreAscending};
ghost use Rattle.gate_downtime.specs.inner.Sizes.{NoLonger};

use crate::row::{Row, push_within};
use crate::scheduling::find_live;
use gate_model::{Steps, find_by_id};
use std::alloc::{AllocError, Global};
use std::marker::Model;

/// Ascending ids. Contracts see those that are left, and for how many more there is room.
#[derive(Drop)]
pub struct Ids {
    // Those before `start` are removed, but keep their memory until the next pass over all ids.
    all: Vec<u32>,
    start: usize,
}

impl Model for Ids {
    ghost use Rattle.std.specs.Prelude.{◌≤◌, length};
    ghost use Rattle.gate_downtime.specs.inner.Ids.{IdsView, ids_view};

    ghost Value = { IdsView };

    ghost view = { ids_view };

    ghost invariant = { λ ids. ids.start ≤ length ids.all.items };
}

impl Ids {
    pub fn new(alloc: Global) -> Ids
        ensures { result.items ≡ [] }
    {
        Ids {
            all: Vec::new(alloc),
            start: 0,
        }
    }

    /// Takes the memory that this many more ids need.
    pub fn reserve(&mut self, more: usize) -> Result<(), AllocError>
        ensures items { self.new.items ≡ self.old.items }
        ensures ok { OnOk result (more ≤ self.new.room) }
        ensures room { self.old.room ≤ self.new.room }
    {
        self.all.reserve(more)
    }

    /// The ids that are left.
    pub fn as_slice(&self) -> &[u32]
        ensures { result.now ≡ self.now.items }
    {
        &self.all[self.start..]
    }

    /// Adds an id, for which there is room.
    pub fn push(&mut self, id: u32)
        requires { 0 < self.old.room }
        ensures items { self.new.items ≡ self.old.items ++ id ∷ [] }
        ensures room { self.old.room ≤ self.new.room + 1 }
    {
        push_within(&mut self.all, id);
    }

    /// Removes this id, if it is there.
    pub fn remove(&mut self, id: u32)
        requires { AreAscending self.old.items }
        ensures items { self.new.items ≡ filter (λ other. not (other == id)) self.old.items }
        ensures room { self.old.room ≤ self.new.room }
    {
        let mut steps = Steps::new();
        if let Some(index) = find_by_id(self.as_slice(), id, &mut steps) {
            self.remove_at(index);
        }
    }

    /// Removes the id at this index. The ids before it move up, or those after it down, whichever
    /// are fewer.
    fn remove_at(&mut self, index: usize)
        requires { index < length self.old.items }
        ensures items { self.new.items ≡ remove self.old.items index }
        ensures room { self.old.room ≤ self.new.room }
    {
        let at = self.start + index;
        if index < self.all.len() - at {
            self.all.copy_within(self.start..at, self.start + 1);
            self.start += 1;
        } else {
            self.all.remove(at);
        }
    }

    /// Keeps the ids of the rows that are live.
    pub fn retain_live(&mut self, rows: &[Row], first: u32, now: u32)
        ensures items { self.new.items ≡ filter (is_live_row first rows.now now) self.old.items }
        ensures room { self.old.room ≤ self.new.room }
    {
        remove_front(&mut self.all, self.start);
        self.start = 0;
        retain_live(&mut self.all, rows, first, now);
    }
}

/// Removes that many ids from the start.
fn remove_front(ids: &mut Vec<u32>, count: usize)
    requires { count ≤ vec_len ids.old }
    ensures items { ids.new.items ≡ drop count ids.old.items }
    ensures size { NoLonger ids.old ids.new }
{
    let len = ids.len();
    ids.copy_within(count..len, 0);
    ids.truncate(len - count);
}

pub fn is_live_id(rows: &[Row], first: u32, id: u32, now: u32) -> bool
    ensures { result ≡ is_live_row first rows.now now id }
{
    find_live(rows, first, id, now).is_some()
}

fn retain_live(ids: &mut Vec<u32>, rows: &[Row], first: u32, now: u32)
    ensures items { ids.new.items ≡ filter (is_live_row first rows.now now) ids.old.items }
    ensures size { NoLonger ids.old ids.new }
{
    ids.retain(|id| is_live_id(rows, first, *id, now));
}
