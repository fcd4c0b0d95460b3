//! The summary of a log page.

ghost use Rattle.std.specs.Prelude.{◌≡◌, List, map, if◌then◌else◌, IfOk, IfErr, MatchResult};
ghost use Rattle.std.specs.List.{zip};
ghost use Rattle.gate_model.specs.declared.record.Record.{Record};
ghost use Rattle.gate_model.specs.declared.object.ObjectLine.{ObjectLine};
ghost use Rattle.gate_model.specs.Meaning.{outcomes_of};
ghost use Rattle.gate_lines.specs.LogPage.{log_text};
ghost use Rattle.log_reading.specs.Log.{logged_of};
ghost use Rattle.log_reading.specs.Gateway.{IsLogged};
ghost use Rattle.operator_restore.specs.Printed.{IsLastPage};
ghost use Rattle.log_summary.specs.Lines.{summary_text, summary_json};
ghost use Rattle.operator_log.specs.Summed.{summary, IsSummary, IsFaultIn};

use gate_model::Moment;
use log_reading::{LogFault, Logged, read_log_page};
use log_summary::{since, summary_json, summary_text};
use operator_restore::log_part;
use std::alloc::{AllocError, Global};

fn summary(alloc: Global, log: &[Logged], json: bool) -> Result<Vec<u8>, AllocError>
    ensures { IfOk result (λ text.
        text.items ≡ (if json then summary_json log.now else summary_text log.now)) }
{
    if json {
        summary_json(alloc, log)
    } else {
        summary_text(alloc, log)
    }
}

/// What the last log page in a daemon's output comes to, by its records of this moment and later
/// ones: lines, or JSON.
///
/// `NoLog`: there is no log page. `CutOff`, `BadLine` and `ExtraLine` name a line of the page.
/// `OutOfMemory` may be returned in place of any other answer. Own rule.
pub fn sum_up(
    alloc: Global,
    printed: &[u8],
    moment: Moment,
    json: bool,
) -> Result<Vec<u8>, LogFault>
    ensures summed { IfOk result (λ text. IsSummary printed.now json moment.0 text.items) }
    ensures fault { IfErr result (IsFaultIn printed.now) }

    // The page of a gateway is summed up as its records and their outcomes.
    ensures gateway { (table : List ObjectLine) (records : List Record) → IsLogged table records
        → IsLastPage printed.now (log_text records (outcomes_of table records))
        → MatchResult result
        (λ text. text.items ≡
        summary json moment.0 (map logged_of (zip records (outcomes_of table records))))
        (λ fault. fault ≡ LogFault.OutOfMemory) }
{
    let Some(page) = log_part(printed) else {
        return Err(LogFault::NoLog);
    };
    let log = since(read_log_page(alloc, page)?, moment);
    Ok(summary(alloc, log.as_slice(), json)?)
}
