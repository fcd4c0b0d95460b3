//! What a fresh gateway makes of the commands of a plan, and what it shows then.

ghost use Rattle.std.specs.Prelude.{◌≡◌, None, IfErr, IfOk};
ghost use Rattle.gate_pages.specs.StatusPage.{status_text_at};
ghost use Rattle.restore_plan.specs.Rehearsal.{records_from, first_among, first_refusal, IsUnrehearsed, AreNumbered};

use gate_applier::Applier;
use gate_foresight::{ForesightFault, apply_all};
use gate_model::{Body, Moment, Numbered, Outcome, Record};
use gate_pages::{Board, status_page};
use gate_table::ObjectTable;
use std::alloc::{AllocError, Global};
use thiserror::Error;

/// Why commands aren't rehearsed, or not with success.
#[derive(Clone, Copy, Debug, Error)]
pub enum RehearsalFault {
    /// There are more commands than the 1,000,000 records of the longest log.
    #[error("more than 1000000 commands")]
    TooMany,
    /// A fresh gateway refuses the command of this index.
    #[error("a fresh gateway refuses a command of the plan")]
    Refused(usize),
    #[error("out of memory")]
    OutOfMemory,
}

impl From<AllocError> for RehearsalFault {
    ghost use Rattle.restore_plan.specs.declared.rehearsal.RehearsalFault.TheVariants.{OutOfMemory};

    ghost from_gives = { λ _ fault. fault ≡ OutOfMemory };

    fn from(_: AllocError) -> RehearsalFault {
        RehearsalFault::OutOfMemory
    }
}

/// The records of a gateway that applies these commands, all of one client and at one moment.
fn records_of(alloc: Global, now: Moment, commands: Vec<Body>) -> Result<Vec<Record>, AllocError>
    ensures { IfOk result (λ records. records.items ≡ records_from now 1 commands.items) }
{
    let mut records = Vec::with_capacity(alloc, commands.len())?;
    let mut left = commands;
    left.reverse();
    while let Some(body) = left.pop() {
        let number = records.len() as u64 + 1;
        records.push(Record {
            moment: now,
            item: Numbered {
                client: 1,
                number,
                body,
            },
        })?;
    }
    Ok(records)
}

/// A gateway that was opened at this moment over these objects, and has applied these commands and
/// nothing else, in their order and at the same moment.
fn applied(
    alloc: Global,
    fresh: ObjectTable,
    now: Moment,
    commands: Vec<Body>,
) -> Result<Applier, RehearsalFault>
    ensures table { IfOk result (λ applier. applier.table ≡ fresh) }
    ensures opening { IfOk result (λ applier. applier.opening ≡ now) }
    ensures moment { IfOk result (λ applier. applier.moment ≡ now) }
    ensures records { IfOk result (λ applier.
        applier.records ≡ records_from now 1 commands.items) }
    ensures fault { IfErr result (IsUnrehearsed fresh now commands.items) }
{
    let records = records_of(alloc, now, commands)?;
    match apply_all(alloc, fresh, now, records, now) {
        Ok(applier) => Ok(applier),
        Err(ForesightFault::TooMany) => Err(RehearsalFault::TooMany),
        Err(ForesightFault::OutOfMemory) => Err(RehearsalFault::OutOfMemory),
    }
}

/// The index of the first outcome that is a refusal.
fn first_among(outcomes: &[Outcome]) -> Option<usize>
    ensures { result ≡ first_among outcomes.now }
{
    for (index, outcome) in outcomes.iter().enumerate() {
        if !matches!(outcome, Outcome::Accepted) {
            return Some(index);
        }
    }
    None
}

/// The status page of a gateway with these records. The only error is out of memory.
pub fn page_of(alloc: Global, gateway: &Applier) -> Result<Vec<u8>, AllocError>
    ensures { let shown = gateway.now in IfOk result (λ text.
        text.items ≡ status_text_at shown.table shown.opening shown.records shown.moment) }
{
    let board = Board::of(alloc, gateway)?;
    let text = status_page(alloc, &board);
    drop(board);
    Ok(text?)
}

/// The status page of a gateway that was opened at this moment over these objects, once it has
/// applied these commands and nothing else, in their order and at the same moment: it accepts each of
/// them, and gives the ids 1, 2 and so on to their downtime entries.
///
/// `TooMany`: there are more than 1,000,000. `Refused`: the first command that it refuses.
/// `OutOfMemory` may come in the place of any other answer. Own rule.
pub fn rehearse(
    alloc: Global,
    fresh: ObjectTable,
    now: Moment,
    commands: Vec<Body>,
) -> Result<Vec<u8>, RehearsalFault>
    ensures page { IfOk result (λ text.
        text.items ≡ status_text_at fresh now (records_from now 1 commands.items) now) }
    ensures accepted { IfOk result (λ _. first_refusal fresh now commands.items ≡ None) }
    ensures numbered { IfOk result (λ _. AreNumbered fresh now commands.items) }
    ensures fault { IfErr result (IsUnrehearsed fresh now commands.items) }
{
    let gateway = applied(alloc, fresh, now, commands)?;
    if let Some(index) = first_among(gateway.outcomes()) {
        drop(gateway);
        return Err(RehearsalFault::Refused(index));
    }
    let text = page_of(alloc, &gateway);
    drop(gateway);
    Ok(text?)
}
