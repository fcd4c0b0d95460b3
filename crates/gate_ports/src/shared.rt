ghost use Rattle.std.specs.Prelude.{◌≡◌, ◌≢◌};
ghost use Rattle.gate_turns.specs.Waiting.{silence_of};

use crate::listener::Listener;
use gate_turns::{Role, silence_of};
use std::sync::atomic::{AtomicBool, AtomicU64};

/// What holds for the peers of a port.
#[derive(Clone, Copy)]
pub(crate) struct Rules {
    pub(crate) role: Role,
    /// How many are open at most, over all workers.
    pub(crate) most: u64,
    /// For how many milliseconds an agent may be silent.
    pub(crate) silence: u64,
}

impl Rules {
    /// Those of agents, whose packets are too old at this age in seconds.
    pub(crate) fn of_agents(greatest_age: u32) -> Rules
        ensures role { result.role ≡ Role.Agent }
        ensures most { result.most ≡ 4096 }
        ensures silence { result.silence ≡ silence_of greatest_age }
    {
        Rules {
            role: Role::Agent,
            most: 4_096,
            silence: silence_of(greatest_age),
        }
    }

    /// Those of operators, or of readers.
    pub(crate) fn of_others(role: Role) -> Rules
        ensures role { result.role ≡ role }
        ensures most { result.most ≡ 256 }
    {
        Rules {
            role,
            most: 256,
            silence: 0,
        }
    }
}

impl Rules {
    /// For how many peers there are places and rooms from the beginning: for all operators.
    pub(crate) fn rooms(self) -> usize
        ensures operators { self.role ≡ Role.Operator → result ≡ self.most }
        ensures others { self.role ≢ Role.Operator → result ≡ 0 }
    {
        match self.role {
            Role::Operator => self.most as usize,
            Role::Agent | Role::Reader => 0,
        }
    }
}

/// What the workers of a port share.
#[derive(Drop)]
pub(crate) struct Shared {
    pub(crate) listener: Listener,
    // How many peers are open.
    pub(crate) count: AtomicU64,
    // How many workers have not ended.
    pub(crate) workers: AtomicU64,
    // Whether peers are accepted and served.
    pub(crate) is_open: AtomicBool,
    // Whether the daemon is to end.
    pub(crate) is_ending: AtomicBool,
}

impl Shared {
    /// What so many workers share at this listener. Nobody is accepted yet.
    pub(crate) fn new(listener: Listener, workers: u32) -> Shared
        ensures { result.listener ≡ listener }
    {
        Shared {
            listener,
            count: AtomicU64::new(0),
            workers: AtomicU64::new(u64::from(workers)),
            is_open: AtomicBool::new(false),
            is_ending: AtomicBool::new(false),
        }
    }
}
