//! Records since a moment, and those with an outcome.

ghost use Rattle.std.specs.Prelude.{◌≡◌, IfOk};
ghost use Rattle.log_summary.specs.Lines.{count_of};
ghost use Rattle.log_summary.specs.Summary.{moment_of, since, outcome_of, with_outcome};
ghost use Rattle.log_summary.specs.inner.Groups.{values_in};

use gate_lines::outcome_name;
use gate_model::{Moment, Outcome};
use log_reading::Logged;
use std::alloc::{AllocError, Global};

fn moment_of(one: &Logged) -> Moment
    ensures { result.0 ≡ moment_of one.now }
{
    match one {
        Logged::Accepted(record) => record.moment,
        Logged::Refused(refusal) => refusal.moment,
    }
}

/// The records of this moment and later ones, in their order.
pub fn since(log: Vec<Logged>, moment: Moment) -> Vec<Logged>
    ensures { result.items ≡ since moment.0 log.items }
{
    let mut kept = log;
    kept.retain(|one| moment.0 <= moment_of(one).0);
    kept
}

// What came of a record.
fn outcome_of(one: &Logged) -> Outcome
    ensures { result ≡ outcome_of one.now }
{
    match one {
        Logged::Accepted(_) => Outcome::Accepted,
        Logged::Refused(refusal) => refusal.outcome,
    }
}

/// How many records have an outcome.
pub fn count(log: &[Logged], outcome: Outcome) -> usize
    ensures { result ≡ count_of log.now outcome }
{
    let name = outcome_name(outcome);
    log.iter()
        .filter(|one| outcome_name(outcome_of(one)) == name)
        .count()
}

/// The records with an outcome, in their order.
pub fn with_outcome<'a>(
    alloc: Global,
    log: &'a [Logged],
    outcome: Outcome,
) -> Result<Vec<&'a Logged>, AllocError>
    ensures { IfOk result (λ found. values_in found.items ≡ with_outcome log.now outcome) }
{
    let name = outcome_name(outcome);
    log.iter()
        .filter(|one| outcome_name(outcome_of(one)) == name)
        .collect(alloc)
}
