ghost use Rattle.std.specs.Prelude.{◌≡◌, ◌∷◌, true};
ghost use Rattle.gate_core.specs.declared.event.Event.TheVariants.{Take, End, TakeIn};
ghost use Rattle.gate_core.specs.declared.event.Reply.TheVariants.{Empty, Ended, Joined};
ghost use Rattle.gate_core.specs.Limits.{Limits};
ghost use Rattle.gate_core.specs.Merge.{IsMerge};
ghost use Rattle.gate_core.specs.Legal.{Run, queued, taken, is_open, take_reply};
ghost use Rattle.gate_core.specs.State.{StandsAfter};
ghost use Rattle.gate_replay.specs.Allowed.{IsAllowed};

use gate_core::{Event, World};
use gate_model::Numbered;
use gate_queue::{Gate, Taker};
use std::marker::Model;
use std::sync::Wait;

/// What is left of a queue whose clients have ended and were taken in: a queue of which the rest can
/// be taken. Own rules.
pub trait EndedQueue {
    /// The run may be what happened at the queue so far.
    ghost after: { Self → Run → Type 0 };

    /// The limits of the queue.
    ghost limits: { Self → Limits };

    /// Takes the next item of the queue, or nothing where the queue is empty: then all was taken
    /// that was queued.
    fn take_left(self) -> (Self, Option<Numbered>)
        requires { (run : Run) × after self run }
        ensures after { (run : Run) → after self run →
            after result.0 ((Take, take_reply result.1) ∷ run) }
        ensures limits { limits result.0 ≡ limits self };

    // What happens at a queue is allowed.
    ghost allowed: { (queue : Self) (run : Run) → after queue run → IsAllowed (limits queue) run };

    // Once a take was answered Empty, what was taken is a merge of what was queued for the clients.
    ghost drained: { (queue : Self) (run : Run) → after queue ((Take, Empty) ∷ run) →
        IsMerge ((limits queue).clients) (λ client. queued client run) (taken run) };
}

impl EndedQueue for World {
    ghost use Rattle.gate_replay.specs.laws.Allowing.{legal_allowed};
    ghost use Rattle.gate_replay.specs.laws.Endings.{legal_drained};

    ghost after = { StandsAfter };

    ghost limits = { λ world. world.limits };

    fn take_left(self) -> (World, Option<Numbered>) {
        let mut world = self;
        let item = world.take();
        (world, item)
    }

    ghost allowed = { λ world run h. legal_allowed world.limits run h.legal };

    ghost drained = { λ world run h. legal_drained world.limits run h.legal };
}

fn let_go<T: Drop>(_value: T) {}

/// Ends a client of a World, and takes it in.
pub(crate) fn end_client(world: &mut World, client: u32)
    ensures ended { (run : Run) → StandsAfter world.old run →
        is_open world.old.limits client run ≡ true →
        StandsAfter world.new ((TakeIn client, Joined) ∷ (End client, Ended) ∷ run) }
    ensures limits { world.new.limits ≡ world.old.limits }
{
    let ending = world.play(Event::End(client));
    let_go(ending);
    let joining = world.play(Event::TakeIn(client));
    let_go(joining);
}

/// A gate whose two clients have ended and were taken in. Contracts see the taker.
///
/// Its `take_left` waits while other threads are in the midst of a step at the queue.
#[derive(Drop)]
pub struct EndedGate<'a, R: Wait> {
    pub(crate) rt: &'a R,
    pub(crate) gate: &'a Gate,
    pub(crate) taker: Taker,
}

impl<'a, R: Wait> Model for EndedGate<'a, R> {
    ghost use Rattle.std.specs.Prelude.{◌≡◌};
    ghost use Rattle.gate_queue.specs.Taker.{TakerState};

    ghost Value = { TakerState };

    ghost view = { λ d. d.taker };

    ghost invariant = { λ d. d.taker.gate ≡ d.gate.now };
}

impl<'a, R: Wait> EndedGate<'a, R> {
    /// Returns the taker.
    pub fn into_taker(self) -> Taker
        ensures { result ≡ self.entry }
    {
        let EndedGate {
            rt: _,
            gate: _,
            taker,
        } = self;
        taker
    }
}

impl<'a, R: Wait> EndedQueue for EndedGate<'a, R> {
    ghost use Rattle.gate_replay.specs.Ending.{IsGateAfter};
    ghost use Rattle.gate_replay.specs.laws.Endings.{gate_drained};

    ghost after = { IsGateAfter };

    ghost limits = { λ taker. taker.gate.limits };

    fn take_left(self) -> (EndedGate<'a, R>, Option<Numbered>) {
        let mut queue = self;
        let (rt, gate) = (queue.rt, queue.gate);
        let item = queue.taker.take(rt, gate);
        (queue, item)
    }

    ghost allowed = { λ _ _ h. h.allowed };

    ghost drained = { gate_drained };
}
