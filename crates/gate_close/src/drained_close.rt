ghost use Rattle.std.specs.Prelude.{◌≡◌, IfOk, IfErr, OnOk};
ghost use Rattle.gate_model.specs.Record.{items_of_records};
ghost use Rattle.gate_core.specs.Merge.{IsMerge};
ghost use Rattle.gate_close.specs.DrainedClose.{AreAllPresent, queued_by};
ghost use Rattle.gate_close.specs.DrainedClose.{AppliesMore, close_parts, CanClose};
ghost use Rattle.gate_close.specs.DrainedClose.{IsCloseAllFault};
ghost use Rattle.gate_close.specs.inner.Draining.{close_cause};

use crate::draining::{drain, is_closing, missing, take_in_all};
use gate_applier::{Applier, PrepareCause};
use gate_model::Moment;
use gate_queue::{Ended, Gate, Taker};
use std::fmt;
use std::sync::Wait;
use thiserror::Error;

/// The applier of a gate that is closed and drained: all that was queued is applied.
#[derive(Drop)]
pub struct Closed {
    pub applier: Applier,
}

/// Why not all was applied. The first that applies is reported. Own rules.
#[derive(Clone, Copy, Debug, Error, PartialEq)]
pub enum CloseAllCause {
    /// The client with this number was neither taken in nor given; it is the least such client.
    #[error("client {0} has not ended")]
    Missing(u32),
    /// No close has begun.
    #[error("no close has begun")]
    NotClosing,
    /// An item is left, and the records number the limit.
    #[error("the log is full")]
    LogFull,
    /// An item is left, and there is no memory to apply it.
    #[error("out of memory")]
    OutOfMemory,
}

/// A close that didn't apply all: its cause, and the parts with which it can be called again.
#[derive(Drop, Error)]
#[error("{cause}")]
pub struct CloseAllFault {
    pub cause: CloseAllCause,
    pub taker: Taker,
    /// The clients that were not taken in yet.
    pub ended: Vec<Ended>,
    /// The applier, with what was applied so far.
    pub applier: Applier,
}

impl fmt::Debug for CloseAllFault {
    fn fmt<W: fmt::Write>(&self, f: &mut fmt::Formatter<W>) -> fmt::Result {
        f.debug_struct("CloseAllFault")
            .field("cause", &self.cause)
            .finish_non_exhaustive()
    }
}

/// Applies all that was queued: takes in all these clients, takes what is left in the queue, and
/// applies it at the clock's moment or the applier's, whichever is later.
///
/// It fails with Missing where a client was neither taken in nor given, and then with NotClosing
/// where no close has begun; the parts are returned as they were. Then all clients are taken in.
/// While an item is left, it fails with LogFull where the log is full, and with OutOfMemory where
/// there is no memory to apply it. Nothing is lost: a later call with the returned parts goes on
/// from there. It waits while other threads are in the midst of a step at the queue. Own rule.
pub fn close_all<R: Wait>(
    rt: &R,
    gate: &Gate,
    taker: Taker,
    ended: Vec<Ended>,
    applier: Applier,
    now: Moment,
) -> Result<Closed, CloseAllFault>
    requires { CanClose gate.now (close_parts taker ended.items applier) }

    // What was applied is all that was queued, each client's items in their order.
    ensures merge { IfOk result (λ closed. IsMerge gate.now.limits.clients
        (queued_by ended.items taker.ended) (items_of_records closed.applier.records)) }
    ensures all { OnOk result (AreAllPresent gate.now.limits.clients ended.items taker.ended) }
    ensures applied { IfOk result (λ closed. AppliesMore now applier closed.applier) }

    ensures fault { IfErr result (λ fault. IsCloseAllFault fault.cause gate.now.limits.clients now
        (close_parts taker ended.items applier)
        (close_parts fault.taker fault.ended.items fault.applier)) }
    ensures again { IfErr result (λ fault. CanClose gate.now
        (close_parts fault.taker fault.ended.items fault.applier)) }
{
    if let Some(client) = missing(&taker, ended.as_slice(), gate.clients()) {
        return Err(CloseAllFault {
            cause: CloseAllCause::Missing(client),
            taker,
            ended,
            applier,
        });
    }
    let mut taker = taker;
    if !is_closing(gate, &mut taker, ended.as_slice()) {
        return Err(CloseAllFault {
            cause: CloseAllCause::NotClosing,
            taker,
            ended,
            applier,
        });
    }
    let none_left = Vec::new(*ended.allocator());
    take_in_all(gate, &mut taker, ended);
    match drain(rt, gate, &mut taker, applier, now) {
        Ok(applier) => Ok(Closed { applier }),
        Err(fault) => Err(CloseAllFault {
            cause: cause_of(fault.cause),
            taker,
            ended: none_left,
            applier: fault.applier,
        }),
    }
}

// Why a close stopped for which the applier couldn't prepare.
fn cause_of(cause: PrepareCause) -> CloseAllCause
    ensures { result ≡ close_cause cause }
{
    match cause {
        PrepareCause::LogFull => CloseAllCause::LogFull,
        PrepareCause::OutOfMemory => CloseAllCause::OutOfMemory,
    }
}
