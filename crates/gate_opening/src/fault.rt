ghost use Rattle.std.specs.Prelude.{◌≡◌};
ghost use Rattle.gate_opening.specs.declared.fault.GatewayFault.TheVariants.{OutOfMemory};

use gate_applier::OpenCause;
use gate_close::CloseAllFault;
use gate_core::OpenFault;
use gate_queue::Gate;
use gate_reader::Report;
use std::alloc::AllocError;
use std::fmt;
use thiserror::Error;

/// Why a gateway did not finish. Own rules.
#[derive(Drop, Error)]
pub enum GatewayFault {
    /// The queue can't be opened.
    #[error("{0}")]
    Queue(OpenFault),
    /// The applier can't be opened.
    #[error("{0}")]
    Applier(OpenCause),
    /// There is no memory for the first board, or for what the workers return.
    #[error("out of memory")]
    OutOfMemory,
    /// A thread can't be started. Those that were have ended; what was queued and not applied is
    /// lost.
    #[error("a thread can't be started")]
    Spawn,
    /// Not all that was queued could be applied. With these parts and the gate, `close_all` can be
    /// called again.
    #[error("{fault}")]
    CloseAll {
        gate: Gate,
        fault: CloseAllFault,
        reports: Vec<(u32, Vec<Report>)>,
    },
}

impl fmt::Debug for GatewayFault {
    fn fmt<W: fmt::Write>(&self, f: &mut fmt::Formatter<W>) -> fmt::Result {
        match self {
            GatewayFault::Queue(fault) => f.debug_tuple("Queue").field(fault).finish(),
            GatewayFault::Applier(cause) => f.debug_tuple("Applier").field(cause).finish(),
            GatewayFault::OutOfMemory => f.write_str("OutOfMemory"),
            GatewayFault::Spawn => f.write_str("Spawn"),
            GatewayFault::CloseAll { fault, .. } => {
                f.debug_tuple("CloseAll").field(fault).finish()
            }
        }
    }
}

impl From<AllocError> for GatewayFault {
    ghost from_gives = { λ _ fault. fault ≡ OutOfMemory };

    fn from(_: AllocError) -> GatewayFault {
        GatewayFault::OutOfMemory
    }
}
