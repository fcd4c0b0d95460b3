ghost use Rattle.std.specs.Prelude.{◌≡◌, IsSome, Some};
ghost use Rattle.gate_worker.specs.Answered.{reports_of_each};
ghost use Rattle.gate_start.specs.AfterServing.{EndsWith, IsNamed, applier_after, close_fault, fault_after, operator_fault, reports_after};

use crate::fault::ServeFault;
use crate::served::{Served, without_reports};
use gate_applier::Applier;
use gate_close::{CloseAllCause, CloseAllFault};
use gate_faults::RunFault;
use gate_opening::{Finished, GatewayFault};
use gate_printing::{Progress, print_log};
use gate_run_log::RunLog;
use gate_streams::Sink;
use gate_worker::Cause;
use std::alloc::Global;
use std::sync::Wait;
use std::time::Clock;

// The fault of a daemon that applied all, by why its operator's worker ended.
fn operator_fault(cause: Cause) -> Option<ServeFault>
    ensures { result ≡ operator_fault cause }
{
    match cause {
        Cause::OutOfMemory => Some(ServeFault::Run(RunFault::OutOfMemory)),
        Cause::Closing | Cause::TooManySessions | Cause::NoMoreConnections => None,
    }
}

// The fault of a daemon that did not apply all.
fn close_fault(cause: CloseAllCause) -> ServeFault
    requires { IsSome (close_fault cause) }
    ensures { close_fault cause ≡ Some result }
{
    match cause {
        CloseAllCause::LogFull => ServeFault::Run(RunFault::LogFull),
        CloseAllCause::OutOfMemory => ServeFault::Run(RunFault::OutOfMemory),
        CloseAllCause::Missing(_) | CloseAllCause::NotClosing => unreachable!(),
    }
}

// What a gateway that has ended leaves: its applier, if it has one, and how the daemon ends once the
// log page of that is printed.
fn left_by(alloc: Global, ran: Result<Finished, GatewayFault>) -> (Option<Applier>, Served)
    requires { IsNamed ran }
    ensures applier { result.0 ≡ applier_after ran }
    ensures reports { reports_of_each result.1.reports.items ≡ reports_after ran }
    ensures fault { result.1.fault ≡ fault_after ran }
{
    match ran {
        Ok(
            Finished {
                closed,
                reports,
                operator,
            },
        ) => {
            let fault = operator_fault(operator);
            (Some(closed.applier), Served { reports, fault })
        }
        Err(
            GatewayFault::CloseAll {
                gate,
                fault,
                reports,
            },
        ) => {
            drop(gate);
            let CloseAllFault { cause, applier, .. } = fault;
            let fault = Some(close_fault(cause));
            (Some(applier), Served { reports, fault })
        }
        // The queue and the applier take all limits that a configuration may have, so that only
        // memory can be their fault.
        Err(GatewayFault::Queue(_) | GatewayFault::Applier(_) | GatewayFault::OutOfMemory) => {
            (
                None,
                without_reports(alloc, ServeFault::Run(RunFault::OutOfMemory)),
            )
        }
        Err(GatewayFault::Spawn) => (
            None,
            without_reports(alloc, ServeFault::Run(RunFault::Spawn)),
        ),
    }
}

// The same end, but with this fault.
fn with_fault(served: Served, fault: ServeFault) -> Served
    ensures { result ≡ record served { fault = Some fault } }
{
    let Served { reports, .. } = served;
    Served {
        reports,
        fault: Some(fault),
    }
}

/// Tells a run's log what it wasn't told of a gateway that has ended, and that it has.
pub fn finish_log<R: Wait + Clock>(rt: &R, ran: &Result<Finished, GatewayFault>, run_log: &RunLog) {
    let applier = match ran {
        Ok(finished) => &finished.closed.applier,
        Err(GatewayFault::CloseAll { fault, .. }) => &fault.applier,
        Err(_) => return,
    };
    run_log.finish(
        rt,
        applier.opening(),
        applier.records(),
        applier.outcomes(),
        applier.moment(),
    );
}

/// Prints the log page of a gateway that has ended, if it has one, and tells `progress` how far it is.
pub fn end<W: Sink>(
    alloc: Global,
    ran: Result<Finished, GatewayFault>,
    output: &mut W,
    progress: &Progress,
) -> Served
    requires { IsNamed ran }
    ensures reports { reports_of_each result.reports.items ≡ reports_after ran }
    ensures ended { EndsWith ran (W.state output.old) (W.state output.new) result.fault }
{
    let (applier, served) = left_by(alloc, ran);
    let Some(applier) = applier else {
        return served;
    };
    progress.begin();
    match print_log(output, applier.records(), applier.outcomes(), progress) {
        Ok(()) => served,
        Err(_) => with_fault(served, ServeFault::Run(RunFault::WriteFault)),
    }
}
