//! What a log page has of a record.

ghost use Rattle.std.specs.Prelude.{◌≡◌, IfOk};
ghost use Rattle.log_reading.specs.Log.{accepted_in};

use gate_model::{Moment, Outcome, Record, Text};
use std::alloc::{AllocError, Global};

/// A record of a log page.
#[derive(Drop)]
pub enum Logged {
    /// It took effect.
    Accepted(Record),
    /// It was refused.
    Refused(Refusal),
}

/// A record that was refused.
#[derive(Drop)]
pub struct Refusal {
    pub moment: Moment,
    /// The number of the client, from 1.
    pub client: u32,
    /// The number of the submission among those of its client, from 1.
    pub number: u64,
    pub outcome: Outcome,
    /// The text of its command, without the page's escapes. The names of a refused result may hold
    /// semicolons, so that its text can be that of several results.
    pub command: Text,
}

/// The records that took effect, in their order. The only error is out of memory.
pub fn accepted_records(alloc: Global, log: Vec<Logged>) -> Result<Vec<Record>, AllocError>
    ensures { IfOk result (λ records. records.items ≡ accepted_in log.items) }
{
    let mut records = Vec::with_capacity(alloc, log.len())?;
    let mut left = log;
    left.reverse();
    while let Some(one) = left.pop() {
        match one {
            Logged::Accepted(record) => records.push(record)?,
            Logged::Refused(_) => {}
        }
    }
    Ok(records)
}
