ghost use Rattle.std.specs.Prelude.{◌≡◌, ◌≢◌, ◌↔◌, ◌<◌, ◌≤◌, ◌+◌, ◌||◌, IsTrue, ℕ, List, [], ◌∷◌, map, IfOk, OnOk, OnErr, is_some, option_map, IfNone};
ghost use Rattle.gate_model.specs.declared.record.Moment.{Moment};
ghost use Rattle.gate_model.specs.declared.downtime.DowntimeEvent.{DowntimeEvent};
ghost use Rattle.gate_model.specs.declared.downtime.DowntimeEvent.TheVariants as event;
ghost use Rattle.gate_model.specs.Record.{later};
ghost use Rattle.gate_model.specs.Meaning.{is_same_kind};
ghost use Rattle.gate_model.specs.Downtime.{entries_of, depth_of, is_live, begin_of, begin_in};
ghost use Rattle.gate_downtime.specs.Book.{fresh, without, is_live_now, next_gone_of, next_gone_now, ReturnsToo, with_later, with_entries, with_room, with_transition, live_entries, live_count};
ghost use Rattle.gate_model.specs.Search.{IsWithinBinaryDigits};
ghost use Rattle.gate_downtime.specs.Search.{index_of_id};
ghost use Rattle.gate_downtime.specs.Faults.{scheduling_of, cancellation_by_id};
ghost use Rattle.gate_downtime.specs.Standing.{IsStanding, HoldsAfter, StandsLater, AddsEvent, live_of};

use crate::chains::Chains;
use crate::entries::LiveEntries;
use crate::faults::{CancelFault, ScheduleFault};
use crate::gone::take_gone;
use crate::links::{link_row, no_heads};
use crate::live::{drop_ended, push_live};
use crate::pruning::prune;
use crate::row::is_live_at;
use crate::scheduling::{add_row, fresh_row};
use crate::tally::{no_tally, settle};
use gate_model::{Kind, Moment, ObjectId, Plan, Scheduled, Steps, find_by_id};
use std::alloc::{AllocError, Global};
use std::marker::Model;

/// The downtime entries, with how many of each object are active. Only `reserve` takes memory.
#[derive(Drop)]
pub struct DowntimeBook {
    chains: Chains,
    // For each object its newest row that waits for a transition.
    heads: Vec<Option<usize>>,
    room: usize,
}

impl Model for DowntimeBook {
    ghost use Rattle.gate_downtime.specs.Book.{DowntimeView};
    ghost use Rattle.gate_downtime.specs.inner.Inside.{book_view, BookInvariant};

    ghost Value = { DowntimeView };

    ghost view = { book_view };

    ghost invariant = { BookInvariant };
}

impl DowntimeBook {
    /// A book without entries over that many objects, at that moment. The first entry will have
    /// that id.
    pub fn open(
        alloc: Global,
        objects: usize,
        first_id: u32,
        moment: Moment,
    ) -> Result<DowntimeBook, AllocError>
        requires { first_id ≢ 0 }
        ensures stands { IfOk result (λ book. IsStanding first_id book [] moment) }
        ensures returned { IfOk result (λ book. book.returned ≡ []) }
        ensures objects { IfOk result (λ book. book.objects ≡ objects) }
        ensures room { IfOk result (λ book. book.room ≡ 0) }
    {
        Ok(DowntimeBook {
            heads: no_heads(alloc, objects)?,
            chains: Chains {
                rows: Vec::new(alloc),
                links: Vec::new(alloc),
                tally: no_tally(alloc, objects)?,
                pending: Vec::new(alloc),
                moment,
                first: first_id,
            },
            room: 0,
        })
    }

    /// Takes the memory that this many more entries need, now and later. It fails only where memory
    /// runs out.
    pub fn reserve(&mut self, more: u32) -> Result<(), AllocError>
        ensures room { OnOk result (more ≤ self.new.room) }
        ensures kept { self.old.room ≤ self.new.room }
        ensures same { self.new ≡ record self.old { room = self.new.room } }
        ensures err { OnErr result (self.new ≡ self.old) }
    {
        let room = self.room.max(more as usize);
        self.chains.reserve(room)?;
        self.room = room;
        Ok(())
    }

    /// How many entries can be scheduled without a `reserve`.
    pub fn room(&self) -> usize
        ensures { result ≡ self.now.room }
    {
        self.room
    }

    /// The moment of the book.
    pub fn moment(&self) -> Moment
        ensures { result ≡ self.now.moment }
    {
        self.chains.moment
    }

    /// Goes on to a later moment. An earlier one changes nothing.
    pub fn advance(&mut self, moment: Moment)
        ensures stands { StandsLater moment self.old self.new }
        ensures value { self.new ≡ with_later moment self.old }
    {
        let now = self.chains.moment.later(moment);
        settle(
            &mut self.chains.rows,
            &mut self.chains.tally,
            self.chains.moment.0,
            now.0,
        );
        drop_ended(
            &mut self.chains.tally.live,
            &self.chains.rows,
            self.chains.first,
            now.0,
        );
        self.chains.moment = now;
    }

    /// Schedules an entry of the object, as the plan asks, and answers its id: one more than the
    /// last.
    pub fn schedule(&mut self, object: ObjectId, plan: Plan) -> Result<u32, ScheduleFault>
        requires object { object.place < self.old.objects }
        requires room { 0 < self.old.room }
        ensures stands { OnOk result (
            AddsEvent (λ now. event.Schedule now object plan) self.old self.new) }
        ensures answer { result ≡ scheduling_of plan self.old }
        ensures entries { OnOk result (
            self.new.entries ≡ fresh self.old object plan ∷ self.old.entries) }
        ensures room { OnOk result (self.old.room ≡ self.new.room + 1) }
        ensures same { self.new ≡ with_room self.new.room (with_entries self.new.entries self.old) }
        ensures err { OnErr result (self.new ≡ self.old) }
    {
        if plan.ends.0 <= plan.starts.0 {
            return Err(ScheduleFault::BadWindow);
        }
        if plan.ends.0 <= self.chains.moment.0 {
            return Err(ScheduleFault::WindowPast);
        }
        let Some(trigger) = self.chains.find_trigger(plan.trigger) else {
            return Err(ScheduleFault::NoSuchTrigger);
        };
        let Ok(id) = u32::try_from(self.chains.first as u64 + self.chains.rows.len() as u64) else {
            return Err(ScheduleFault::IdsSpent);
        };
        let scheduled = Scheduled {
            id,
            object,
            plan,
            moment: self.chains.moment,
        };
        let row = fresh_row(scheduled, trigger);
        add_row(
            &mut self.chains.rows,
            &mut self.chains.tally,
            row,
            self.chains.moment.0,
        );
        push_live(
            &mut self.chains.tally.live,
            id,
            is_live_at(row, self.chains.moment.0),
        );
        link_row(
            &mut self.chains.links,
            &mut self.heads,
            trigger.at,
            plan.fixed,
            object.place as usize,
        );
        self.room -= 1;
        Ok(id)
    }

    /// The object goes into a problem state, at the book's moment: the entries that wait for that
    /// begin. It takes a step for each entry that it can still begin, and for each that begins.
    pub fn transition(&mut self, object: ObjectId)
        requires { object.place < self.old.objects }
        ensures stands { AddsEvent (λ now. event.Transition now object.place) self.old self.new }
        ensures value { self.new ≡ with_transition object.place self.old }
    {
        let head = self.heads[object.place as usize];
        self.chains.turn_waiting(head, object.place);
        prune(
            &self.chains.rows,
            &mut self.chains.links,
            &mut self.heads,
            object.place as usize,
            self.chains.moment.0,
        );
        drop_ended(
            &mut self.chains.tally.live,
            &self.chains.rows,
            self.chains.first,
            self.chains.moment.0,
        );
    }

    /// Deletes the live entry of this id, and along the chains of triggers all live entries that it
    /// triggers, by a command for objects of this kind.
    pub fn cancel(&mut self, kind: Kind, id: u32) -> Result<(), CancelFault>
        ensures stands { OnOk result (
            AddsEvent (λ now. event.Delete now id) self.old self.new) }
        ensures answer { result ≡ cancellation_by_id kind id self.old }
        ensures value { OnOk result (self.new ≡ with_entries (without id self.old) self.old) }
        ensures err { OnErr result (self.new ≡ self.old) }
    {
        let Some(at) = self.chains.find_live(id) else {
            return Err(CancelFault::NoSuchDowntime);
        };
        if !is_same_kind(kind, self.chains.row_at(at).entry.scheduled.object.kind) {
            return Err(CancelFault::WrongKind);
        }
        self.chains.delete_from(at);
        drop_ended(
            &mut self.chains.tally.live,
            &self.chains.rows,
            self.chains.first,
            self.chains.moment.0,
        );
        Ok(())
    }

    /// The least id of an entry that isn't live any more, and wasn't returned before.
    pub fn next_gone(&mut self) -> Option<u32>
        ensures stands { HoldsAfter self.old (λ first history moment.
            result ≡ next_gone_of (entries_of first history) moment self.old.returned) }
        ensures answer { result ≡ next_gone_now self.old }
        ensures returned { ReturnsToo result self.old self.new }
        ensures none { IfNone result (self.new ≡ self.old) }
        ensures same { self.new ≡ record self.old { returned = self.new.returned } }
    {
        let Some(at) = take_gone(
            &self.chains.rows,
            &mut self.chains.tally.gone,
            self.chains.moment.0,
        ) else {
            return None;
        };
        Some(self.chains.row_at(at).entry.scheduled.id)
    }

    /// Whether the entry of this id is live: scheduled, not deleted, and not over.
    pub fn is_live(&self, id: u32) -> bool
        ensures stands { HoldsAfter self.now (λ first history moment.
            result ≡ is_live first history moment id) }
        ensures value { result ≡ is_live_now self.now id }
    {
        self.chains.find_live(id).is_some()
    }

    /// The live entries, ids ascending: each with its id, its object and its plan. It takes a step
    /// for each of them.
    pub fn live(&self) -> LiveEntries<'_>
        ensures stands { HoldsAfter self.now (λ first history moment.
            result ≡ live_of first history moment) }
        ensures value { result ≡ live_entries self.now.entries self.now.moment }
    {
        LiveEntries::new(
            self.chains.tally.live.ids.as_slice(),
            &self.chains.rows,
            self.chains.first,
        )
    }

    /// The index in `live` of the entry of this id, by binary search. It compares ids by `steps`
    /// alone, at most as many times as the number of live entries has binary digits.
    pub fn find(&self, id: u32, steps: &mut Steps) -> Option<usize>
        ensures index { result ≡ index_of_id id (live_entries self.now.entries self.now.moment) }
        ensures steps { IsWithinBinaryDigits (live_count self.now) steps.old steps.new }
    {
        find_by_id(self.chains.tally.live.ids.as_slice(), id, steps)
    }

    /// When the entry of this id begins, if it does, deleted or not.
    pub fn begin(&self, id: u32) -> Option<Moment>
        ensures stands { HoldsAfter self.now (λ first history moment.
            option_map (λ begin. begin.0) result ≡ begin_of first history id) }
        ensures value { option_map (λ begin. begin.0) result ≡ begin_in self.now.entries id }
    {
        match self.chains.find_begin(id) {
            None => None,
            Some(begin) => Some(Moment(begin)),
        }
    }

    /// How many entries of the object are active.
    pub fn depth(&self, object: ObjectId) -> u32
        requires { object.place < self.now.objects }
        ensures { HoldsAfter self.now (λ first history moment.
            result ≡ depth_of first history moment object.place) }
    {
        self.chains.tally.depths[object.place as usize]
    }
}

/// Whether the kinds are the same.
fn is_same_kind(one: Kind, other: Kind) -> bool
    ensures { result ≡ is_same_kind one other }
{
    one == other
}
