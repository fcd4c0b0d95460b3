ghost use Rattle.std.specs.Prelude.{◌≡◌, ◌<◌, ◌+◌, ◌∷◌, ◌++◌, [], length, IfOk, Err};
ghost use Rattle.gate_model.specs.Record.{later};
ghost use Rattle.gate_applier.specs.Applier.{opened};
ghost use Rattle.gate_foresight.specs.Foresight.{IsOpenedAlike, applied_at, applied_from, moment_after};

use gate_applier::{Applier, PrepareCause};
use gate_model::{MOST_RECORDS, Moment, Record};
use gate_table::ObjectTable;
use std::alloc::{AllocError, Global};
use thiserror::Error;

/// Why nothing is foreseen.
#[derive(Clone, Copy, Debug, Error)]
pub enum ForesightFault {
    /// There are more records than the 1,000,000 of the longest log.
    #[error("more than 1000000 records")]
    TooMany,
    #[error("out of memory")]
    OutOfMemory,
}

impl From<AllocError> for ForesightFault {
    ghost use Rattle.gate_foresight.specs.declared.foresight.ForesightFault.TheVariants.{OutOfMemory};

    ghost from_gives = { λ _ fault. fault ≡ OutOfMemory };

    fn from(_: AllocError) -> ForesightFault {
        ForesightFault::OutOfMemory
    }
}

/// Applies one more record, at its moment or the applier's, whichever is later.
fn applied(applier: Applier, record: Record) -> Result<Applier, ForesightFault>
    ensures records { IfOk result (λ after.
        after.records ≡ applier.records ++ applied_at applier.moment «record» ∷ []) }
    ensures moment { IfOk result (λ after. after.moment ≡ later applier.moment «record».moment) }
    ensures alike { IfOk result (IsOpenedAlike applier) }
    ensures limit { IfOk result (λ after. after.limit ≡ applier.limit) }
    ensures full { result ≡ Err ForesightFault.TooMany → length applier.records ≡ applier.limit }
{
    match applier.prepare() {
        Ok(ready) => {
            let (after, _) = ready.apply(record.item, record.moment);
            Ok(after)
        }
        Err(fault) => {
            drop(record);
            let cause = fault.cause;
            drop(fault);
            match cause {
                PrepareCause::LogFull => Err(ForesightFault::TooMany),
                PrepareCause::OutOfMemory => Err(ForesightFault::OutOfMemory),
            }
        }
    }
}

/// Applies these records in their order.
fn applied_all(applier: Applier, records: Vec<Record>) -> Result<Applier, ForesightFault>
    ensures records { IfOk result (λ after.
        after.records ≡ applier.records ++ applied_from applier.moment records.items) }
    ensures moment { IfOk result (λ after.
        after.moment ≡ moment_after applier.moment records.items) }
    ensures alike { IfOk result (IsOpenedAlike applier) }
    ensures full { result ≡ Err ForesightFault.TooMany
        → applier.limit < length applier.records + length records.items }
{
    let mut applier = applier;
    let mut left = records;
    left.reverse();
    while let Some(record) = left.pop() {
        applier = applied(applier, record)?;
    }
    Ok(applier)
}

/// An applier of these objects without records, for the longest log.
fn opened_at(alloc: Global, table: ObjectTable, opening: Moment) -> Result<Applier, ForesightFault>
    ensures opened { IfOk result (λ applier. applier ≡ opened table opening 1000000) }
    ensures not_full { result ≡ Err ForesightFault.TooMany → ⊥ }
{
    match Applier::open(alloc, table, opening, MOST_RECORDS) {
        Ok(applier) => Ok(applier),
        Err(_) => Err(ForesightFault::OutOfMemory),
    }
}

/// An applier over these objects that was opened at this moment and has applied these records in
/// their order, and nothing else: each at its own moment, or at the one before where that is later.
/// It stands at the moment `now`, or at that of its last record.
///
/// `TooMany`: there are more than 1,000,000 records. `OutOfMemory` may come in the place of any
/// other answer.
pub fn apply_all(
    alloc: Global,
    table: ObjectTable,
    opening: Moment,
    records: Vec<Record>,
    now: Moment,
) -> Result<Applier, ForesightFault>
    ensures table { IfOk result (λ applier. applier.table ≡ table) }
    ensures opening { IfOk result (λ applier. applier.opening ≡ opening) }
    ensures records { IfOk result (λ applier.
        applier.records ≡ applied_from opening records.items) }
    ensures moment { IfOk result (λ applier.
        applier.moment ≡ later (moment_after opening records.items) now) }
    ensures too_many { result ≡ Err ForesightFault.TooMany → 1000000 < length records.items }
{
    let mut applier = applied_all(opened_at(alloc, table, opening)?, records)?;
    applier.advance(now);
    Ok(applier)
}
