ghost use Rattle.std.specs.Prelude.{◌≡◌, ◌++◌, ◌∷◌, ℕ, List, Option, Result, IfSome, Some};
ghost use Rattle.gate_model.specs.declared.record.Moment.{Moment};
ghost use Rattle.gate_model.specs.declared.submission.Body.{Body};
ghost use Rattle.gate_core.specs.declared.submit.Refused.{Refused};
ghost use Rattle.gate_core.specs.declared.submit.CloseFault.{CloseFault};
ghost use Rattle.gate_core.specs.declared.event.Event.TheVariants.{Look, Take};
ghost use Rattle.gate_core.specs.Limits.{Limits};
ghost use Rattle.gate_core.specs.Merge.{IsClient};
ghost use Rattle.gate_core.specs.Legal.{Run, look_reply, take_reply};
ghost use Rattle.gate_core.specs.LocalClient.{submitted, closed_by};
ghost use Rattle.gate_replay.specs.Allowed.{IsAllowed};
ghost use Rattle.gate_replay.specs.Ending.{with_ends};

use crate::ending::EndedQueue;
use gate_core::Operator;
use gate_model::Numbered;

/// A queue of two clients that one thread uses alone, which serves one client at a time and takes
/// what was queued. Each promise holds for every run that may be what happened so far. Own rules.
pub trait SoloQueue: Operator {
    /// What is left of the queue once both clients have ended.
    type Ended: EndedQueue;

    /// The run may be what happened at the queue so far.
    ghost after: { Self → Run → Type 0 };

    /// The limits of the queue.
    ghost limits: { Self → Limits };

    /// Turns to the client of this number, 1 or 2, which is served from then on.
    fn turn_to(self, number: u32) -> Self
        requires begun { (run : Run) × after self run }
        requires client { IsClient 2 number }
        ensures named { Self.named result ≡ number }
        ensures after { (run : Run) → after self run → after result run }
        ensures limits { limits result ≡ limits self };

    /// Takes the next item of the queue, or nothing where the queue is found empty.
    fn take(self) -> (Self, Option<Numbered>)
        requires { (run : Run) × after self run }
        ensures after { (run : Run) → after self run →
            after result.0 ((Take, take_reply result.1) ∷ run) }
        ensures named { Self.named result.0 ≡ Self.named self }
        ensures limits { limits result.0 ≡ limits self };

    /// Ends both clients and takes them in.
    fn end(self) -> Self::Ended
        requires { (run : Run) × after self run }
        ensures after { (run : Run) → after self run → Self.Ended.after result (with_ends run) }
        ensures limits { Self.Ended.limits result ≡ limits self };

    // A submission, a look or a close adds its events and replies to the run.
    ghost after_submit: { (old : Self) (new : Self) (body : Body)
        (result : Result ℕ Refused) (run : Run) →
        Self.answers old body result new → after old run →
        after new (submitted (Self.named old) body result ++ run) };

    ghost after_look: { (old : Self) (new : Self) (result : Option Moment) (run : Run) →
        Self.looks old result new → IfSome (Self.knows old) (λ first. result ≡ Some first) →
        after old run → after new ((Look (Self.named old), look_reply result) ∷ run) };

    ghost after_close: { (old : Self) (new : Self) (moment : Moment)
        (result : Result Moment CloseFault) (run : Run) →
        Self.closes old moment result new → after old run →
        after new (closed_by moment result ++ run) };

    ghost same_limits: { (old : Self) (new : Self) → Self.keeps old new → limits new ≡ limits old };

    // What happens at a queue is allowed.
    ghost allowed: { (queue : Self) (run : Run) → after queue run → IsAllowed (limits queue) run };
}
