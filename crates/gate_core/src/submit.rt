ghost use Rattle.std.specs.Prelude.{◌≡◌, ◌+◌, [], ◌∷◌, ◌++◌, ℕ, List, Option, Result, length, IfOk, IfErr, OnOk, OnErr, IfSome, Some, None};
ghost use Rattle.gate_model.specs.declared.record.Moment.{Moment};
ghost use Rattle.gate_model.specs.declared.submission.Body.{Body};
ghost use Rattle.gate_model.specs.declared.submission.Numbered.{Numbered};
ghost use Rattle.gate_core.specs.declared.submit.Refused.{Refused};
ghost use Rattle.gate_core.specs.declared.submit.CloseFault.{CloseFault};
ghost use Rattle.gate_core.specs.Merge.{numbered};
ghost use Rattle.gate_core.specs.Submit.{Refuses, RefusesClose};

use gate_model::{Body, Moment};
use std::fmt;
use thiserror::Error;

/// Why a submission is refused. The first that applies is reported, and the body is returned. Own
/// rules.
#[derive(Drop, Error)]
pub enum Refused {
    /// A close has begun, the first one at this moment.
    #[error("a close has begun")]
    Closing(Moment, Body),
    /// As many items as the quota allows were queued for this client.
    #[error("the client's quota is used up")]
    Spent(Body),
    /// The queue holds as many items as it may.
    #[error("the queue is full")]
    Full(Body),
}

/// Shows the variant's name.
impl fmt::Debug for Refused {
    fn fmt<W: fmt::Write>(&self, f: &mut fmt::Formatter<W>) -> fmt::Result {
        f.write_str(match self {
            Refused::Closing(..) => "Closing",
            Refused::Spent(_) => "Spent",
            Refused::Full(_) => "Full",
        })
    }
}

/// Why a close is refused. Own rules.
#[derive(Clone, Copy, Debug, Error, PartialEq)]
pub enum CloseFault {
    /// Another close was first, at this moment.
    #[error("another close was first")]
    AlreadyClosing(Moment),
    /// There is no room for the close. Nothing was closed.
    #[error("out of memory")]
    OutOfMemory,
}

/// A client of a queue. Each promise holds for every list of items that the client stands for. Own
/// rules.
pub trait Submit {
    /// The client stands for this list: the items that it was answered are queued, in order.
    ghost stands: { Self → List Numbered → Type 0 };

    /// The client's number, from 1.
    ghost named: { Self → ℕ };

    /// The moment of the first close, where the client knows of it.
    ghost knows: { Self → Option Moment };

    /// What the client is after a body was submitted and answered so. A client may leave it open.
    ghost answers: { Self → Body → Result ℕ Refused → Self → Type 0 } = { λ _ _ _ _. Unit {0} };

    /// What the client is after a look that was answered so. A client may leave it open.
    ghost looks: { Self → Option Moment → Self → Type 0 } = { λ _ _ _. Unit {0} };

    /// It is still the same client of the same queue.
    ghost keeps: { Self → Self → Type 0 };

    /// Submits a body: the number of its item among those of this client, from 1.
    ///
    /// It fails with Closing where a close has begun, then with Spent where the quota of the client
    /// is used up, then with Full where the queue has no room. The body is returned, and the list
    /// of the client stays.
    fn submit(&mut self, body: Body) -> Result<u64, Refused>
        ensures queued { IfOk result (λ number. (items : List Numbered) → stands self.old items →
            (number ≡ length items + 1)
            × stands self.new (items ++ numbered (named self.old) number body ∷ [])) }
        ensures open { OnOk result ((knows self.old ≡ None) × (knows self.new ≡ None)) }

        ensures kept { OnErr result
            ((items : List Numbered) → stands self.old items → stands self.new items) }
        ensures refused { IfErr result (λ refused.
            Refuses refused body (knows self.old) (knows self.new)) }

        ensures answers { answers self.old body result self.new }
        ensures named { named self.new ≡ named self.old }
        ensures keeps { keeps self.old self.new };

    /// Looks whether a close has begun: the moment of the first one. A client that knows of a close
    /// is answered the same moment ever after.
    fn look(&mut self) -> Option<Moment>
        ensures knows { knows self.new ≡ result }
        ensures knew { IfSome (knows self.old) (λ first. result ≡ Some first) }

        ensures kept { (items : List Numbered) → stands self.old items → stands self.new items }
        ensures looks { looks self.old result self.new }
        ensures named { named self.new ≡ named self.old }
        ensures keeps { keeps self.old self.new };

    /// How many items were queued for this client.
    fn count(&self) -> u64
        ensures { (items : List Numbered) → stands self.now items → result ≡ length items };

    /// The number of this client, from 1.
    fn number(&self) -> u32
        ensures { result ≡ named self.now };

    ghost keeps_itself: { (x : Self) → keeps x x };

    ghost keeps_on: { (x : Self) (y : Self) (z : Self) → keeps x y → keeps y z → keeps x z };
}

/// A client that may close its queue. Own rules.
pub trait Operator: Submit {
    /// What the client is after a close that was answered so. A client may leave it open.
    ghost closes: { Self → Moment → Result Moment CloseFault → Self → Type 0 } = { λ _ _ _ _. Unit {0} };

    /// Begins a close at this moment, and answers it.
    ///
    /// It fails with AlreadyClosing where another close was first, which the client then knows, and
    /// with OutOfMemory, which closes nothing.
    fn close(&mut self, moment: Moment) -> Result<Moment, CloseFault>
        ensures closed { IfOk result (λ first. (first ≡ moment)
            × (Self.knows self.old ≡ None) × (Self.knows self.new ≡ Some moment)) }
        ensures refused { IfErr result (λ fault.
            RefusesClose fault (Self.knows self.old) (Self.knows self.new)) }

        ensures kept { (items : List Numbered)
            → Self.stands self.old items → Self.stands self.new items }
        ensures closes { closes self.old moment result self.new }
        ensures named { Self.named self.new ≡ Self.named self.old }
        ensures keeps { Self.keeps self.old self.new };
}
