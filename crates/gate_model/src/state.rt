ghost use Rattle.std.specs.Prelude.{◌≡◌};
ghost use Rattle.gate_model.specs.State.{is_problem, state_of_code};

use crate::object::Kind;

/// A state of a monitored object (Nagios Core 4 manual, Passive Checks).
#[derive(Clone, Copy, PartialEq)]
pub enum State {
    /// No result of the object has been accepted yet. Own rule.
    Pending,
    /// A service's, by code 0.
    Ok,
    /// A service's, by code 1.
    Warning,
    /// A service's, by code 2.
    Critical,
    /// A service's, by code 3 or an unknown one.
    Unknown,
    /// A host's, by code 0.
    Up,
    /// A host's, by code 1 or an unknown one.
    Down,
    /// A host's, by code 2.
    Unreachable,
}

impl State {
    /// Returns the state that a return code means for an object of that kind.
    ///
    /// Source: Nagios Core 4 manual, Passive Checks. Own rule: an unknown code, also one below 0,
    /// is a service's UNKNOWN and a host's DOWN.
    pub fn of_code(kind: Kind, code: i16) -> State
        ensures { result ≡ state_of_code kind code }
    {
        match (kind, code) {
            (Kind::Host, 0) => State::Up,
            (Kind::Host, 2) => State::Unreachable,
            (Kind::Host, _) => State::Down,
            (Kind::Service, 0) => State::Ok,
            (Kind::Service, 1) => State::Warning,
            (Kind::Service, 2) => State::Critical,
            (Kind::Service, _) => State::Unknown,
        }
    }

    /// Whether the state is a problem: any but OK, UP and PENDING.
    pub fn is_problem(self) -> bool
        ensures { result ≡ is_problem self }
    {
        !matches!(self, State::Pending | State::Ok | State::Up)
    }
}
