ghost use Rattle.std.specs.Prelude.{◌≡◌, IsErrAnd, MatchResult, Ok};
ghost use Rattle.gate_start.specs.inner.Reading.{IsFaultOf};

use gate_faults::RunFault;
use gate_model::Text;
use gate_streams::{Fault, Sink, put_last, put_line};
use std::alloc::AllocError;
use std::io;
use std::io::ErrorKind;
use thiserror::Error;

/// Why the daemon doesn't run, or how it ended before it had applied all.
#[derive(Debug, Drop, Error)]
pub enum ServeFault {
    /// The file of the configuration can't be read.
    #[error("the configuration can't be read")]
    Unreadable,
    /// The file configures nothing, for a cause that is reported by this text.
    #[error("the configuration is faulty")]
    Config(Text),
    /// This address, as the configuration writes it, can't be bound.
    #[error("an address can't be bound")]
    Bind(Text),
    /// It began to run, and this stopped it early. That is never ReadFault.
    #[error("{0}")]
    Run(RunFault),
}

impl From<AllocError> for ServeFault {
    ghost use Rattle.gate_start.specs.declared.fault.ServeFault.TheVariants.{Run};
    ghost use Rattle.gate_faults.specs.declared.fault.RunFault.TheVariants.{OutOfMemory};

    ghost from_gives = { λ _ fault. fault ≡ Run OutOfMemory };

    fn from(_error: AllocError) -> ServeFault {
        ServeFault::Run(RunFault::OutOfMemory)
    }
}

/// What the system did, or the fault that its error is: out of memory, or else this one.
pub(crate) fn or_fault<T>(done: io::Result<T>, other: ServeFault) -> Result<T, ServeFault>
    ensures { MatchResult done (λ value. result ≡ Ok value)
        (λ error. IsErrAnd result (IsFaultOf error other)) }
{
    match done {
        Ok(value) => Ok(value),
        Err(error) if error.kind() == ErrorKind::OutOfMemory => {
            Err(ServeFault::Run(RunFault::OutOfMemory))
        }
        Err(_) => Err(other),
    }
}

impl Fault for ServeFault {
    ghost use Rattle.gate_start.specs.Fault.{status_of, message_of};

    ghost status_of = { status_of };

    ghost message_of = { message_of };

    /// 2 where the configuration is at fault, 4 where an address can't be bound, and otherwise 3.
    /// Own rule.
    fn status(&self) -> u8 {
        match self {
            ServeFault::Unreadable | ServeFault::Config(_) => 2,
            ServeFault::Bind(_) => 4,
            ServeFault::Run(fault) => fault.status(),
        }
    }

    /// Own rule: the text of the line.
    fn report<E: Sink>(&self, errors: &mut E) -> io::Result<()> {
        match self {
            ServeFault::Unreadable => put_last(errors, b"nscagate: config: unreadable\n"),
            ServeFault::Config(text) => put_line(errors, b"nscagate: config: ", text.bytes()),
            ServeFault::Bind(address) => put_line(errors, b"nscagate: bind ", address.bytes()),
            ServeFault::Run(fault) => fault.report(errors),
        }
    }
}
