ghost use Rattle.gate_environment.specs.Clock.{ClockState, Shows, unknown_clock};

use gate_model::Moment;

/// A clock of which something may be known.
///
/// A type that leaves the member out claims nothing by it.
pub trait Clock {
    // What is known of the clock.
    ghost state: { Self → ClockState } = { λ _. unknown_clock };

    /// Reads the clock.
    fn now(&mut self) -> Moment
        ensures { Shows (state self.old) (state self.new) result };
}

/// A clock that stands still at this moment.
#[derive(Clone, Copy)]
pub struct FixedClock(pub Moment);

impl Clock for FixedClock {
    ghost use Rattle.gate_environment.specs.Clock.{fixed_clock};

    ghost state = { λ clock. fixed_clock clock.0 };

    fn now(&mut self) -> Moment {
        self.0
    }
}
