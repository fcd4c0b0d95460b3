ghost use Rattle.std.specs.Prelude.{◌≡◌, ◌≤◌, ◌<◌, ◌↔◌, ℕ, [], length, Some, None, IsTrue, IfOk, IfSome, IsSomeAnd, slice_get, slice_set};
ghost use Rattle.gate_turns.specs.Waiting.{IsLate};
ghost use Rattle.gate_ports.specs.Since.{settled};
ghost use Rattle.gate_ports.specs.Peers.{can_begin, page_of};
ghost use Rattle.gate_ports.specs.Table.{IsOnlyAt};
ghost use Rattle.gate_ports.specs.Waiting.{earlier, late_at_of, IsLateAt, IsNoneLate, IsSameTime};

use crate::peer::Peer;
use crate::selector::{Asked, Selector};
use crate::shared::{Rules, Shared};
use crate::standing::settled;
use crate::table::Table;
use gate_turns::{Standing, is_late, limit_of, time_left};
use std::alloc::Global;
use std::io;
use std::sync::Arc;
use std::sync::atomic::Ordering;
use std::time::{Clock, Instant};

// How many bytes are read at a time of a peer that waits.
const SCRATCH: usize = 16_384;

/// Whether connections are accepted.
#[derive(Clone, Copy)]
pub(crate) enum Door {
    /// Not yet.
    Shut,
    /// The listener is watched.
    Open,
    /// Not before this time.
    Rests(u64),
    /// No more.
    Closed,
}

/// The peers of a worker that wait, and the listener.
#[derive(Drop)]
pub(crate) struct Peers {
    pub(crate) alloc: Global,
    pub(crate) rules: Rules,
    pub(crate) shared: Arc<Shared, Global>,
    pub(crate) selector: Selector,
    // What a peer that isn't served is read into.
    pub(crate) scratch: Vec<u8>,
    pub(crate) table: Table,
    // The order of the last peer that became ready.
    pub(crate) orders: u64,
    // Nobody is late before this time. None: nobody owes anything.
    pub(crate) late_at: Option<u64>,
    pub(crate) door: Door,
    pub(crate) is_ending: bool,
    began: Instant,
    // Milliseconds since then, at the last look.
    pub(crate) now: u64,
}

/// The lesser of two times, where there are any.
pub(crate) fn earlier(first: Option<u64>, second: Option<u64>) -> Option<u64>
    ensures { result ≡ earlier first second }
{
    match (first, second) {
        (Some(first), Some(second)) => Some(first.min(second)),
        (Some(time), None) | (None, Some(time)) => Some(time),
        (None, None) => None,
    }
}

// Whether a peer that stands so, if there is one, has owed what it owes for as long as it may.
fn is_late_now(standing: Option<Standing>, now: u64, silence: u64, is_ending: bool) -> bool
    ensures { IsTrue result ↔ IsSomeAnd standing (IsLate now silence is_ending) }
{
    match standing {
        Some(standing) => is_late(&standing, now, silence, is_ending),
        None => false,
    }
}

impl Peers {
    pub(crate) fn new<R: Clock>(
        rt: &R,
        alloc: Global,
        rules: Rules,
        shared: Arc<Shared, Global>,
        selector: Selector,
    ) -> io::Result<Peers>
        ensures rules { IfOk result (λ peers. peers.rules ≡ rules) }
        ensures none { IfOk result (λ peers. peers.table.standings.items ≡ []) }
    {
        let began = Instant::now(rt)?;
        let scratch = Vec::from_elem(alloc, 0, SCRATCH)?;
        let table = Table::new(alloc, rules.rooms())?;
        Ok(Peers {
            alloc,
            rules,
            shared,
            selector,
            scratch,
            table,
            orders: 0,
            late_at: None,
            door: Door::Shut,
            is_ending: false,
            began,
            now: 0,
        })
    }

    /// Reads the clock. Where it can't be read, the time stands still.
    pub(crate) fn look_at_clock<R: Clock>(&mut self, rt: &R)
        ensures later { self.old.now ≤ self.new.now }
        ensures table { self.new.table ≡ self.old.table }
        ensures rules { self.new.rules ≡ self.old.rules }
    {
        if let Ok(since) = self.began.elapsed(rt) {
            let millis = u64::try_from(since.as_millis()).unwrap_or(0);
            self.now = self.now.max(millis);
        }
    }

    /// The next order: of a peer that becomes ready now.
    pub(crate) fn next_order(&mut self) -> u64
        ensures order { self.old.orders ≤ result }
        ensures orders { self.new.orders ≡ result }
        ensures table { self.new.table ≡ self.old.table }
        ensures time { IsSameTime self.old self.new }
    {
        self.orders = self.orders.saturating_add(1);
        self.orders
    }

    /// Closes the connection of the peer at this place.
    pub(crate) fn close(&mut self, place: usize)
        ensures closed { self.new.table.standings.items
            ≡ slice_set self.old.table.standings.items place None }
        ensures time { IsSameTime self.old self.new }
    {
        if self.table.remove(place) {
            self.shared.count.fetch_sub(1, Ordering::SeqCst);
        }
    }

    /// Takes note of when a peer that stands so is late.
    pub(crate) fn expect(&mut self, standing: &Standing)
        ensures late_at { self.new.late_at ≡ earlier self.old.late_at
            (late_at_of self.old.rules.silence self.old.is_ending standing.now) }
        ensures table { self.new.table ≡ self.old.table }
        ensures time { IsSameTime self.old self.new }
    {
        let limit = limit_of(standing, self.rules.silence, self.is_ending);
        let late_at = limit.map(|limit| standing.since.saturating_add(limit));
        self.late_at = earlier(self.late_at, late_at);
    }

    /// Puts a peer at its place, and takes note of how it stands now.
    pub(crate) fn settle(&mut self, place: usize, peer: Peer, standing: Standing)
        requires { place < length self.old.table.standings.items }
        ensures only { IsOnlyAt place self.old.table.standings.items
            self.new.table.standings.items }
        ensures settled { (order : ℕ) × (slice_get self.new.table.standings.items place
            ≡ Some (Some (settled standing (page_of peer) (can_begin peer) order))) }
        ensures time { IsSameTime self.old self.new }
    {
        let order = self.next_order();
        let page = peer.page();
        let can_begin = peer.can_begin();
        let standing = settled(standing, page, can_begin, order);
        if peer.is_interrupted(standing.stage) || !peer.may_write {
            let _ = self.selector.ask(&peer.stream, Asked::All(place));
        }
        self.expect(&standing);
        self.table.put(place, peer, standing);
    }

    /// Does for the peer at this place what can be done without waiting, and closes its connection where it
    /// has failed or ended.
    pub(crate) fn go_on(&mut self, place: usize)
        ensures only { IsOnlyAt place self.old.table.standings.items
            self.new.table.standings.items }
        ensures time { IsSameTime self.old self.new }
    {
        let Some((mut peer, mut standing)) = self.table.take(place) else {
            return;
        };
        match peer.go_on(&mut standing, &mut self.scratch, self.now) {
            Ok(true) => self.settle(place, peer, standing),
            Ok(false) | Err(_) => self.leave(place, peer),
        }
    }

    /// The peer of this place, which was taken out, goes.
    pub(crate) fn leave(&mut self, place: usize, peer: Peer)
        ensures standings { self.new.table.standings.items ≡ self.old.table.standings.items }
        ensures time { IsSameTime self.old self.new }
    {
        self.table.give_back(place, peer);
        self.shared.count.fetch_sub(1, Ordering::SeqCst);
    }

    /// Reads once more from the peer at this place, and does what can be done for it.
    pub(crate) fn look_again(&mut self, place: usize)
        ensures only { IsOnlyAt place self.old.table.standings.items
            self.new.table.standings.items }
        ensures time { IsSameTime self.old self.new }
    {
        if place < self.table.peers.len() {
            if let Some(peer) = &mut self.table.peers[place] {
                peer.may_read = true;
            }
        }
        self.go_on(place);
    }

    // Whether the peer at this place, if there is one, is late.
    fn is_late_at(&self, place: usize) -> bool
        ensures { IsTrue result ↔ IsLateAt self.entry.now place }
    {
        let standing = self.table.standing(place);
        is_late_now(standing, self.now, self.rules.silence, self.is_ending)
    }

    // Lets go of the peer at this place where it is late. What it has brought by now is read before.
    fn let_go_late(&mut self, place: usize)
        ensures only { IsOnlyAt place self.old.table.standings.items
            self.new.table.standings.items }
        ensures gone { IsLateAt self.new place → ⊥ }
        ensures time { IsSameTime self.old self.new }
    {
        if !self.is_late_at(place) {
            return;
        }
        self.look_again(place);
        if self.is_late_at(place) {
            self.close(place);
        }
    }

    // Lets go of all that are late, by a look at each.
    fn look_at_all(&mut self)
        ensures length { length self.new.table.standings.items
            ≡ length self.old.table.standings.items }
        ensures none_late { IsNoneLate self.new (length self.new.table.standings.items) }
        ensures time { IsSameTime self.old self.new }
    {
        for place in 0..self.table.standings.len() {
            self.let_go_late(place);
        }
    }

    /// Lets go of all that are late.
    pub(crate) fn let_all_late_go(&mut self)
        ensures length { length self.new.table.standings.items
            ≡ length self.old.table.standings.items }
        ensures none_late { IfSome self.old.late_at (λ at. at ≤ self.old.now
            → IsNoneLate self.new (length self.new.table.standings.items)) }
        ensures time { IsSameTime self.old self.new }
    {
        if self.late_at.is_none_or(|at| at > self.now) {
            return;
        }
        self.look_at_all();
        let (silence, is_ending) = (self.rules.silence, self.is_ending);
        let left = time_left(&self.table.standings, self.now, silence, is_ending);
        self.late_at = left.map(|left| self.now.saturating_add(left));
    }
}
