ghost use Rattle.std.specs.Prelude.{◌≡◌, ◌⊎◌};
ghost use Rattle.gate_faults.specs.Fault.{fault_of, message_of};

use gate_streams::{Fault, Sink, put_last};
use std::alloc::AllocError;
use std::io;
use std::io::ErrorKind;
use thiserror::Error;

/// Why a command of the program stops amid its work.
#[derive(Clone, Copy, Debug, Error, PartialEq)]
pub enum RunFault {
    /// An item is left, and the log holds as many records as it may.
    #[error("the log is full")]
    LogFull,
    /// Memory ran out.
    #[error("out of memory")]
    OutOfMemory,
    /// The input can't be read.
    #[error("the input can't be read")]
    ReadFault,
    /// The output can't be written or flushed.
    #[error("the output can't be written")]
    WriteFault,
    /// A thread can't be started.
    #[error("a thread can't be started")]
    Spawn,
}

impl From<AllocError> for RunFault {
    ghost use Rattle.gate_faults.specs.declared.fault.RunFault.TheVariants.{OutOfMemory};

    ghost from_gives = { λ _ fault. fault ≡ OutOfMemory };

    fn from(_error: AllocError) -> RunFault {
        RunFault::OutOfMemory
    }
}

/// The fault that an error of the input or the output is: out of memory for what was read or written,
/// or the other one.
pub fn fault_of(error: &io::Error, other: RunFault) -> RunFault
    ensures fault { result ≡ fault_of error.now other }
    ensures either { (result ≡ RunFault.OutOfMemory) ⊎ (result ≡ other) }
{
    match error.kind() {
        ErrorKind::OutOfMemory => RunFault::OutOfMemory,
        _ => other,
    }
}

impl RunFault {
    // The line that reports the fault.
    fn line(self) -> &'static [u8]
        ensures { result.now ≡ message_of self }
    {
        match self {
            RunFault::LogFull => b"nscagate: LogFull\n",
            RunFault::OutOfMemory => b"nscagate: OutOfMemory\n",
            RunFault::ReadFault => b"nscagate: ReadFault\n",
            RunFault::WriteFault => b"nscagate: WriteFault\n",
            RunFault::Spawn => b"nscagate: Spawn\n",
        }
    }
}

impl Fault for RunFault {
    ghost use Rattle.gate_faults.specs.Fault.{message_of};

    ghost status_of = { λ _. 3 };

    ghost message_of = { message_of };

    /// 3. Own rule.
    fn status(&self) -> u8 {
        3
    }

    /// Own rule: the text of the line.
    fn report<E: Sink>(&self, errors: &mut E) -> io::Result<()> {
        put_last(errors, self.line())
    }
}
