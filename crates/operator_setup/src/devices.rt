//! The clock, the output, and a page that was fetched, each with the fault that it can end in.

ghost use Rattle.std.specs.Prelude.{◌≡◌, IfErr, MatchResult, OnErr, OnOk};
ghost use Rattle.gate_streams.specs.Sink.{Delivers, FailsOnce};
ghost use Rattle.operator_setup.specs.Pages.{IsNoPage, IsPageIn};

use crate::fault::ControlFault;
use gate_model::Moment;
use gate_streams::{Sink, put_last};
use status_reading::{ReadFault, StatusPage, read_status_page};
use std::alloc::Global;
use std::time::{Clock, SystemTime};

/// The seconds since 1970, at most 4294967295. `NoClock`: the clock can't be read.
pub fn now(rt: &impl Clock) -> Result<Moment, ControlFault>
    ensures { IfErr result (λ fault. fault ≡ ControlFault.NoClock) }
{
    let Ok(now) = SystemTime::now(rt) else {
        return Err(ControlFault::NoClock);
    };
    match now.duration_since(SystemTime::UNIX_EPOCH) {
        Ok(since) => Ok(Moment(u32::try_from(since.as_secs()).unwrap_or(u32::MAX))),
        Err(_) => Err(ControlFault::NoClock),
    }
}

/// Writes a text and flushes. An error is `WriteFault`.
pub fn print<W: Sink>(output: &mut W, text: &[u8]) -> Result<(), ControlFault>
    ensures ok { OnOk result (Delivers (W.state output.old) (W.state output.new) text.now) }
    ensures err { OnErr result (FailsOnce (W.state output.old) (W.state output.new)) }
    ensures fault { IfErr result (λ fault. fault ≡ ControlFault.WriteFault) }
{
    match put_last(output, text) {
        Ok(()) => Ok(()),
        Err(_) => Err(ControlFault::WriteFault),
    }
}

/// The page that a text is. `BadPage`: it is none. `OutOfMemory` may come in the place of any other
/// answer.
pub fn page_of<'t>(alloc: Global, text: &'t [u8]) -> Result<StatusPage<'t>, ControlFault>
    ensures { MatchResult result (IsPageIn text.now) (IsNoPage text.now) }
{
    match read_status_page(alloc, text) {
        Ok(page) => Ok(page),
        Err(ReadFault::OutOfMemory) => Err(ControlFault::OutOfMemory),
        Err(ReadFault::NoStatus | ReadFault::BadLine(_) | ReadFault::BadRow(..)) => {
            Err(ControlFault::BadPage)
        }
    }
}
