//! Why nothing is restored.

ghost use Rattle.std.specs.Prelude.{◌≡◌, ◌≤◌};
ghost use Rattle.operator_restoring.specs.Faults.{status_of};

use operator_restore::ProspectFault;
use std::alloc::AllocError;
use thiserror::Error;

/// Why nothing is restored.
#[derive(Clone, Copy, Debug, Error)]
pub enum RestoreFault {
    /// A kept file can't be read.
    #[error("the kept files can't be read")]
    Unreadable,
    /// What was kept can't be restored.
    #[error("{0}")]
    Unforeseen(ProspectFault),
    #[error("out of memory")]
    OutOfMemory,
}

impl From<AllocError> for RestoreFault {
    fn from(_: AllocError) -> RestoreFault {
        RestoreFault::OutOfMemory
    }
}

impl From<ProspectFault> for RestoreFault {
    fn from(fault: ProspectFault) -> RestoreFault {
        match fault {
            ProspectFault::OutOfMemory => RestoreFault::OutOfMemory,
            fault => RestoreFault::Unforeseen(fault),
        }
    }
}

impl RestoreFault {
    /// The exit status: 2 where what is kept can't be restored, 3 where memory ran out.
    pub fn status(self) -> u8
        ensures status { result ≡ status_of self }
        ensures bad { 2 ≤ result }
    {
        match self {
            RestoreFault::Unreadable | RestoreFault::Unforeseen(_) => 2,
            RestoreFault::OutOfMemory => 3,
        }
    }
}
