//! The gateway that wrote a kept log, as its last record left it.

ghost use Rattle.std.specs.Prelude.{◌≡◌, ◌≢◌, ◌⊎◌, IfErr, IfOk};
ghost use Rattle.std.specs.List.{list_all};
ghost use Rattle.gate_model.specs.Record.{is_accepted};
ghost use Rattle.operator_restore.specs.Kept.{IsGatewayFault, IsKept, IsKeptFault};
ghost use Rattle.operator_restore.specs.Pages.{kept_lines};

use crate::pages::kept_table;
use gate_applier::Applier;
use gate_foresight::{ForesightFault, apply_all};
use gate_model::{Moment, Outcome};
use gate_table::{ObjectTable, TableFault};
use log_reading::{LogFault, accepted_records, read_log_page};
use status_reading::StatusPage;
use std::alloc::{AllocError, Global};
use thiserror::Error;

/// Why a kept page and a kept log say nothing of a gateway.
#[derive(Clone, Copy, Debug, Error)]
pub enum KeptFault {
    /// The objects of the page are no table.
    #[error("the objects of the page are those of no gateway")]
    BadTable,
    /// The text is no log page.
    #[error("{0}")]
    BadLog(LogFault),
    /// A record that took effect wouldn't over the objects of the page.
    #[error("the log is that of another gateway than the page")]
    OtherGateway,
    /// The log has more than the 1,000,000 records of the longest one.
    #[error("the log has more than 1000000 records")]
    TooMany,
    #[error("out of memory")]
    OutOfMemory,
}

impl From<AllocError> for KeptFault {
    ghost use Rattle.operator_restore.specs.declared.kept.KeptFault.TheVariants.{OutOfMemory};

    ghost from_gives = { λ _ fault. fault ≡ OutOfMemory };

    fn from(_: AllocError) -> KeptFault {
        KeptFault::OutOfMemory
    }
}

impl From<ForesightFault> for KeptFault {
    ghost use Rattle.gate_foresight.specs.declared.foresight.ForesightFault.TheVariants as foresight;
    ghost use Rattle.operator_restore.specs.declared.kept.KeptFault.TheVariants.{OutOfMemory, TooMany};

    ghost from_gives = { λ fault kept.
        (kept ≡ OutOfMemory) ⊎ ((fault ≡ foresight.TooMany) × (kept ≡ TooMany)) };

    fn from(fault: ForesightFault) -> KeptFault {
        match fault {
            ForesightFault::TooMany => KeptFault::TooMany,
            ForesightFault::OutOfMemory => KeptFault::OutOfMemory,
        }
    }
}

impl From<TableFault> for KeptFault {
    ghost use Rattle.gate_table.specs.declared.table.TableFault.TheVariants as table;
    ghost use Rattle.operator_restore.specs.declared.kept.KeptFault.TheVariants.{BadTable, OutOfMemory};

    ghost from_gives = { λ fault kept.
        (kept ≡ OutOfMemory) ⊎ ((fault ≢ table.OutOfMemory) × (kept ≡ BadTable)) };

    fn from(fault: TableFault) -> KeptFault {
        match fault {
            TableFault::OutOfMemory => KeptFault::OutOfMemory,
            TableFault::BadName(_)
            | TableFault::NoSuchHost(_)
            | TableFault::DuplicateHost(_)
            | TableFault::DuplicateService(_)
            | TableFault::TooMany(_) => KeptFault::BadTable,
        }
    }
}

impl From<LogFault> for KeptFault {
    ghost use Rattle.operator_restore.specs.declared.kept.KeptFault.TheVariants.{BadLog, OutOfMemory};

    ghost from_gives = { λ fault kept. (kept ≡ OutOfMemory) ⊎ (kept ≡ BadLog fault) };

    fn from(fault: LogFault) -> KeptFault {
        match fault {
            LogFault::OutOfMemory => KeptFault::OutOfMemory,
            fault => KeptFault::BadLog(fault),
        }
    }
}

/// Whether all records took effect.
fn are_accepted(outcomes: &[Outcome]) -> bool
    ensures { result ≡ list_all is_accepted outcomes.now }
{
    outcomes.iter().all(|outcome| is_accepted(*outcome))
}

fn is_accepted(outcome: Outcome) -> bool
    ensures { result ≡ is_accepted outcome }
{
    matches!(outcome, Outcome::Accepted)
}

/// The gateway over these objects that wrote this log page, with the records that took effect at
/// their own moments and no others; at the moment `now`, or at that of its last record.
///
/// `BadLog`, `TooMany` and `OtherGateway` name what no gateway writes, in this order; `OutOfMemory`
/// may come in the place of any other answer. Own rule.
pub fn kept_over(
    alloc: Global,
    table: ObjectTable,
    log: &[u8],
    now: Moment,
) -> Result<Applier, KeptFault>
    ensures kept { IfOk result (λ applier. IsKept table log.now now applier) }
    ensures fault { IfErr result (IsKeptFault table log.now) }
{
    let log = read_log_page(alloc, log)?;
    let records = accepted_records(alloc, log)?;
    let applier = apply_all(alloc, table, Moment(0), records, now)?;
    if are_accepted(applier.outcomes()) {
        Ok(applier)
    } else {
        drop(applier);
        Err(KeptFault::OtherGateway)
    }
}

/// The same over the objects of the gateway's status page. `BadTable` comes before the other faults:
/// the objects of the page are those of no gateway.
pub fn kept_gateway(
    alloc: Global,
    page: &StatusPage<'_>,
    log: &[u8],
    now: Moment,
) -> Result<Applier, KeptFault>
    ensures kept { IfOk result (λ applier. IsKept (kept_lines page.now) log.now now applier) }
    ensures fault { IfErr result (IsGatewayFault (kept_lines page.now) log.now) }
{
    kept_over(alloc, kept_table(alloc, page)?, log, now)
}
