ghost use Rattle.std.specs.Prelude.{◌≡◌};

use crate::rule::Ring;
use gate_model::Moment;
use once_cell::race::OnceBox;
use std::marker::Model;
use std::sync::atomic::{AtomicBool, Ordering};
use std::thread::Parker;

/// The queue and the cell in which its close is noted. Clients, taker and closer share it, and each
/// is used with the gate that it was opened with. Contracts see which gate it is, and its limits.
#[derive(Drop)]
pub struct Gate {
    pub(crate) ring: Ring,
    pub(crate) cell: OnceBox<Moment>,
    pub(crate) clients: u32,
    pub(crate) quota: u32,
    pub(crate) is_taking: AtomicBool,
    // The taker parks on it; whoever queues an item or closes the gate unparks it.
    pub(crate) parker: Parker,
}

impl Model for Gate {
    ghost use Rattle.once_cell.specs.Once.{cell_name};
    ghost use Rattle.crossbeam_queue.specs.Passes.{ruled_capacity};
    ghost use Rattle.gate_core.specs.Limits.{limits_of};
    ghost use Rattle.gate_queue.specs.Gate.{GateId, gate_id};

    ghost Value = { GateId };

    ghost view = { λ g. gate_id g.ring.table.shared.table_id (cell_name g.cell)
        (limits_of g.clients g.quota (ruled_capacity g.ring)) };
}

impl Gate {
    /// How many clients it was opened with.
    pub fn clients(&self) -> u32
        ensures { result ≡ self.now.limits.clients }
    {
        self.clients
    }

    /// Notes that items are taken from the queue no more, but by a drained close. Nothing but waiting
    /// for room depends on it. Own rule.
    pub fn stop_taking(&self) {
        self.is_taking.store(false, Ordering::SeqCst);
    }

    /// Whether items are taken from the queue, as far as was noted.
    pub fn is_taking(&self) -> bool {
        self.is_taking.load(Ordering::SeqCst)
    }
}
