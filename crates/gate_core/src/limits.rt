ghost use Rattle.std.specs.Prelude.{◌≡◌, [], IfOk};
ghost use Rattle.gate_core.specs.declared.limits.OpenFault.TheVariants.{OutOfMemory};
ghost use Rattle.gate_core.specs.State.{StandsAfter};
ghost use Rattle.gate_core.specs.Limits.{limits_of, default_quota, OpensWithin};

use crate::world::World;
use gate_model::{MOST_CAPACITY, MOST_CLIENTS};
use std::alloc::{AllocError, Global};
use thiserror::Error;

/// Why a World was not opened. The first that applies is reported. Own rules.
#[derive(Clone, Copy, Debug, Error, PartialEq)]
pub enum OpenFault {
    /// There are fewer than 1 or more than 64 clients.
    #[error("not 1 to 64 clients")]
    BadCount,
    /// The capacity is not from 1 to 65,536 items.
    #[error("the capacity is not from 1 to 65536 items")]
    BadCapacity,
    /// The quota is 0 items.
    #[error("the quota is 0 items")]
    BadQuota,
    /// There is no room for the queue and the seats.
    #[error("out of memory")]
    OutOfMemory,
}

impl From<AllocError> for OpenFault {
    ghost from_gives = { λ _ fault. fault ≡ OutOfMemory };

    fn from(_: AllocError) -> OpenFault {
        OpenFault::OutOfMemory
    }
}

impl World {
    /// Opens a World of clients 1 to `clients`, with room for `capacity` items. Each client may
    /// queue 4,294,967,295 items. It fails as `open_with` does.
    pub fn open(alloc: Global, clients: u32, capacity: usize) -> Result<World, OpenFault>
        ensures limits { IfOk result (λ world.
            world.limits ≡ limits_of clients default_quota capacity) }
        ensures new { IfOk result (λ world. StandsAfter world []) }

        ensures answer { OpensWithin clients default_quota capacity result }
    {
        World::open_with(alloc, clients, capacity, u32::MAX)
    }

    /// Opens a World of clients 1 to `clients`, with room for `capacity` items. Each client may
    /// queue `quota` items.
    ///
    /// It fails with BadCount, BadCapacity or BadQuota, tested in this order, where an argument is
    /// out of its limits, and then with OutOfMemory. All the memory that the World will need is
    /// taken here. Own rule.
    pub fn open_with(
        alloc: Global,
        clients: u32,
        capacity: usize,
        quota: u32,
    ) -> Result<World, OpenFault>
        ensures limits { IfOk result (λ world. world.limits ≡ limits_of clients quota capacity) }
        ensures new { IfOk result (λ world. StandsAfter world []) }

        ensures answer { OpensWithin clients quota capacity result }
    {
        if clients < 1 || clients > MOST_CLIENTS {
            return Err(OpenFault::BadCount);
        }
        if capacity < 1 || capacity > MOST_CAPACITY as usize {
            return Err(OpenFault::BadCapacity);
        }
        if quota < 1 {
            return Err(OpenFault::BadQuota);
        }
        Ok(World::empty(alloc, clients, capacity, quota)?)
    }
}
