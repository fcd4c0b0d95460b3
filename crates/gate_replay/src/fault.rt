ghost use Rattle.std.specs.Prelude.{◌≡◌, ◌++◌, codes, OnOk, OnErr};
ghost use Rattle.std.specs.Fmt.{decimal};
ghost use Rattle.gate_streams.specs.Sink.{Delivers, FailsOnce};

use crate::script::ScriptFault;
use gate_faults::RunFault;
use gate_streams::{Fault, Sink, put_last, put_numbered};
use std::alloc::AllocError;
use std::io;
use thiserror::Error;

/// Why a replay stops.
#[derive(Clone, Copy, Debug, Error, PartialEq)]
pub enum ReplayFault {
    /// The input has more than 1,048,576 bytes.
    #[error("the script is longer than 1048576 bytes")]
    TooLong,
    /// The input's line of this number, from 1, is the first that is faulty.
    #[error("line {0} of the script is its first faulty line")]
    Line(usize),
    /// This stopped it amid its work. That is never Spawn.
    #[error("{0}")]
    Run(RunFault),
}

impl From<AllocError> for ReplayFault {
    ghost use Rattle.gate_replay.specs.declared.fault.ReplayFault.TheVariants.{Run};
    ghost use Rattle.gate_faults.specs.declared.fault.RunFault.TheVariants.{OutOfMemory};

    ghost from_gives = { λ _ fault. fault ≡ Run OutOfMemory };

    fn from(_error: AllocError) -> ReplayFault {
        ReplayFault::Run(RunFault::OutOfMemory)
    }
}

impl From<ScriptFault> for ReplayFault {
    ghost use Rattle.gate_replay.specs.Fault.{replay_fault};

    ghost from_gives = { λ fault other. other ≡ replay_fault fault };

    fn from(fault: ScriptFault) -> ReplayFault {
        match fault {
            ScriptFault::Line(number) => ReplayFault::Line(number),
            ScriptFault::OutOfMemory => ReplayFault::Run(RunFault::OutOfMemory),
        }
    }
}

// Writes a text, a number and the end of the line, and flushes.
fn report_numbered<E: Sink>(errors: &mut E, text: &[u8], number: usize) -> io::Result<()>
    ensures ok { OnOk result (Delivers (E.state errors.old) (E.state errors.new)
        (text.now ++ decimal number ++ codes "\n")) }
    ensures err { OnErr result (FailsOnce (E.state errors.old) (E.state errors.new)) }
{
    put_numbered(errors, text, number as u64)?;
    errors.deliver()
}

impl Fault for ReplayFault {
    ghost use Rattle.gate_replay.specs.Fault.{status_of, message_of};

    ghost status_of = { status_of };

    ghost message_of = { message_of };

    /// 2 where the input is no script, and otherwise 3. Own rule.
    fn status(&self) -> u8 {
        match self {
            ReplayFault::TooLong | ReplayFault::Line(_) => 2,
            ReplayFault::Run(fault) => fault.status(),
        }
    }

    /// Own rule: the text of the line.
    fn report<E: Sink>(&self, errors: &mut E) -> io::Result<()> {
        match self {
            ReplayFault::TooLong => put_last(errors, b"nscagate: script too long\n"),
            ReplayFault::Line(number) => {
                report_numbered(errors, b"nscagate: script line ", *number)
            }
            ReplayFault::Run(fault) => fault.report(errors),
        }
    }
}
