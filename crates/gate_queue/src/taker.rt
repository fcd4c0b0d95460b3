ghost use Rattle.std.specs.Prelude.{◌≡◌, ◌↔◌, IsTrue, IsSome, IfSome, IfNone, Some, ◌≤◌, length};
ghost use Rattle.gate_queue.specs.Knowledge.{StaysKnown};
ghost use Rattle.gate_queue.specs.Taker.{taker_state, queued_of, TakesOne, HasAll, BeginsEach, TakesIn, total_queued};
ghost use Rattle.gate_queue.specs.inner.Passes.{total_counted};

use crate::client::Ended;
use crate::closer::Notice;
use crate::gate::Gate;
use crate::rule::{Knowledge, Pop, View};
use crossbeam_queue::Pass;
use gate_model::{Moment, Numbered};
use std::marker::Model;
use std::sync::Wait;
use std::thread;
use std::time::{Clock, Duration};

// In what time items are taken together as those of a burst.
const BURST_MICROS: u64 = 100;

/// The taker, which empties a gate's queue. Contracts see its gate, what was taken, what was queued
/// for the clients taken in, and the moment of the close, once the taker knows of it.
pub struct Taker {
    pub(crate) pass: Pass<Numbered, View>,
    pub(crate) knowledge: Knowledge,
    // How many items were queued for each client that was taken in, client 1 first.
    pub(crate) counts: Vec<Option<u32>>,
}

// Who drops a taker calls this, and knows nothing of its parts.
impl Drop for Taker {
    fn drop(self) {
        let Taker {
            pass: _pass,
            knowledge: _knowledge,
            counts: _counts,
        } = self;
    }
}

impl Model for Taker {
    ghost use Rattle.std.specs.Prelude.{◌≡◌, []};
    ghost use Rattle.crossbeam_queue.specs.Passes.{view as pass_view};
    ghost use Rattle.gate_queue.specs.Gate.{gate_id};
    ghost use Rattle.gate_queue.specs.Taker.{TakerState, taker_state};
    ghost use Rattle.gate_queue.specs.inner.Passes.{IsTakerPass, CountsEnded, HasRest, limits_in};

    ghost Value = { TakerState };

    ghost view = { λ t.
        taker_state (gate_id t.pass.table_id t.knowledge.cell (limits_in (pass_view t.pass)))
        (pass_view t.pass).taken (pass_view t.pass).ended t.knowledge.known_close };

    ghost invariant = { λ t. (t.pass.me.1 ≡ []) × IsTakerPass (pass_view t.pass)
        × CountsEnded (pass_view t.pass) t.counts.items × HasRest (pass_view t.pass) };
}

impl Taker {
    /// Takes the oldest item of the queue, or nothing where the queue is empty.
    ///
    /// It waits while other threads are in the midst of a step at the queue.
    pub fn take<R: Wait>(&mut self, rt: &R, gate: &Gate) -> Option<Numbered>
        requires { self.old.gate ≡ gate.now }
        ensures some { IfSome result (λ item. TakesOne item self.old self.new) }
        ensures none { IfNone result (self.new ≡ self.old) }

        // With every client taken in, an empty queue means that all was taken.
        ensures all { IfNone result (HasAll self.old) }
        ensures begins { BeginsEach self.new }
    {
        gate.ring.pop_as::<Pop, R>(rt, &mut self.pass)
    }

    /// Looks whether the gate is closing, and returns the moment of the close if it is.
    pub fn look(&mut self, gate: &Gate) -> Option<Moment>
        requires { self.old.gate ≡ gate.now }
        ensures known { self.new ≡
            taker_state self.old.gate self.old.taken self.old.ended result }
        ensures same { StaysKnown self.old.known_close result }
    {
        self.knowledge.look(&gate.cell)
    }

    /// Rests a tenth of a millisecond, so that items of a burst are taken together and don't wake the
    /// taker one by one; and then until an item is queued or the gate is closed, for this time at most.
    /// It may return sooner than it has to. Own rule.
    pub fn rest<R: Wait + Clock>(&mut self, rt: &R, gate: &Gate, most: Duration)
        requires { self.old.gate ≡ gate.now }
        ensures { self.new ≡ self.old }
    {
        thread::sleep(rt, Duration::from_micros(BURST_MICROS));
        // No wake is lost. Whoever queues an item or closes the gate leaves a token after it, with which
        // this returns at once; a token that it takes away was left before the next look at the queue.
        gate.parker.park_timeout(rt, most);
    }

    /// Learns of the close from a notice.
    pub fn learn(&mut self, notice: &Notice)
        requires { notice.now.cell ≡ self.old.gate.cell }
        ensures known { self.new ≡ taker_state
            self.old.gate self.old.taken self.old.ended (Some notice.now.moment) }
        ensures same { IfSome self.old.known_close (λ known. known ≡ notice.now.moment) }
    {
        self.knowledge.learn(notice.knowledge.again());
    }

    /// Takes in a client that has ended, and learns what it knew of the close.
    pub fn take_in(&mut self, gate: &Gate, ended: Ended)
        requires gate { self.old.gate ≡ gate.now }
        requires ended { ended.gate ≡ gate.now }
        ensures list { TakesIn ended self.old self.new }
        ensures begins { BeginsEach self.new }
    {
        ended.into_client().go_in(gate, self);
    }

    /// Whether the client with this number, from 1, was taken in.
    pub fn taken_in(&self, client: u32) -> bool
        ensures { IsTrue result ↔ IsSome (queued_of client self.now.ended) }
    {
        let counts = self.counts.as_slice();
        if client == 0 || client as usize > counts.len() {
            return false;
        }
        counts[client as usize - 1].is_some()
    }

    /// How many items were queued for all clients that were taken in.
    pub fn total_queued(&self) -> u64
        ensures { result ≡ total_queued self.now.ended self.now.gate.limits.clients }
    {
        total(self.counts.as_slice())
    }
}

// The counts of clients, added up.
fn total(counts: &[Option<u32>]) -> u64
    requires { length counts.now ≤ 64 }
    ensures { result ≡ total_counted counts.now (length counts.now) }
{
    let mut total = 0u64;
    for count in counts {
        total += u64::from(count.unwrap_or(0));
    }
    total
}
