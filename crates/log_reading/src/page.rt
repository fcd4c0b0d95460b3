ghost use Rattle.std.specs.Prelude.{◌≡◌, ◌++◌, ℕ, List, map, IfOk, IfErr, MatchOption, MatchResult};
ghost use Rattle.std.specs.List.{zip};
ghost use Rattle.gate_model.specs.declared.record.Record.{Record};
ghost use Rattle.gate_model.specs.declared.object.ObjectLine.{ObjectLine};
ghost use Rattle.gate_model.specs.Meaning.{outcomes_of};
ghost use Rattle.gate_lines.specs.LogPage.{log_text};
ghost use Rattle.status_reading.specs.Readable.{Fits};
ghost use Rattle.log_reading.specs.Log.{logged_text, logged_of, AreReadable};
ghost use Rattle.log_reading.specs.Faults.{first_line, IsFaultOf};
ghost use Rattle.log_reading.specs.Gateway.{IsLogged};
ghost use Rattle.log_reading.specs.inner.Gives.{IsPageOf, ReadsPage};

use crate::cuts::{after, cut, number};
use crate::lines::read_record;
use crate::logged::Logged;
use std::alloc::{AllocError, AllocFailed, Global};
use thiserror::Error;

/// Why a text is no log page. Lines are numbered from 1.
#[derive(Clone, Copy, Debug, PartialEq, Error)]
pub enum LogFault {
    /// It doesn't begin with `log`, a space, a number and LF.
    #[error("not a log page")]
    NoLog,
    /// It ends before this line, or within it: there are fewer records than the first line says.
    #[error("line {0} is missing or cut off")]
    CutOff(usize),
    /// This line is that of no record.
    #[error("line {0} is no line of a log page")]
    BadLine(usize),
    /// This line stands after the last record of those that the first line counts.
    #[error("line {0} is one too many")]
    ExtraLine(usize),
    #[error("out of memory")]
    OutOfMemory,
}

impl From<AllocError> for LogFault {
    ghost use Rattle.log_reading.specs.declared.page.LogFault.TheVariants.{OutOfMemory};

    ghost from_gives = { λ _ fault. fault ≡ OutOfMemory };

    fn from(_: AllocError) -> LogFault {
        LogFault::OutOfMemory
    }
}

impl<T: Drop> From<AllocFailed<T>> for LogFault {
    ghost use Rattle.log_reading.specs.declared.page.LogFault.TheVariants.{OutOfMemory};

    ghost from_gives = { λ _ fault. fault ≡ OutOfMemory };

    fn from(_: AllocFailed<T>) -> LogFault {
        LogFault::OutOfMemory
    }
}

/// The number of records in the first line, and the lines after it.
fn first_line(text: &[u8]) -> Option<(u32, &[u8])>
    ensures { MatchOption result
        ((count : ℕ) (rest : List ℕ) → Fits count → text.now ≡ first_line count ++ rest → ⊥)
        (λ found. (text.now ≡ first_line found.0 ++ found.1.now) × Fits found.0) }
{
    let (line, rest) = cut(text, b'\n')?;
    let field = after(line, b"log ")?;
    Some((number(field)?, rest))
}

/// Reads the lines of a page, or finds the first that is none.
fn read_lines(alloc: Global, text: &[u8]) -> Result<Vec<Logged>, LogFault>
    ensures written { IfOk result (IsPageOf text.now) }
    ensures read { ReadsPage text.now result }
    ensures fault { IfErr result (IsFaultOf text.now) }
{
    let Some((count, lines)) = first_line(text) else {
        return Err(LogFault::NoLog);
    };
    let mut log = Vec::new(alloc);
    let mut rest = lines;
    for index in 0..count as usize {
        let Some((line, after)) = cut(rest, b'\n') else {
            return Err(LogFault::CutOff(index + 2));
        };
        let found = read_record(alloc, line)?;
        match found {
            Some(one) => log.push(one)?,
            None => return Err(LogFault::BadLine(index + 2)),
        }
        rest = after;
    }
    if rest.is_empty() {
        Ok(log)
    } else {
        Err(LogFault::ExtraLine(log.len() + 2))
    }
}

/// Reads a log page into records, in the order in which they were applied. A page that was cut off
/// is refused whole.
///
/// `NoLog`, `CutOff`, `BadLine` and `ExtraLine` name what no log page has; `OutOfMemory` may come
/// in the place of any other answer.
///
/// Own rule: the lines of a log page.
pub fn read_log_page(alloc: Global, text: &[u8]) -> Result<Vec<Logged>, LogFault>
    // What is read, written again, is the text.
    ensures written { IfOk result (λ log. text.now ≡ logged_text log.items) }

    // The page of any records is read as these records, where those that took effect can be read
    // again from their text, and the numbers have 32 bits.
    ensures read { (log : List Logged) → AreReadable log → text.now ≡ logged_text log
        → MatchResult result
        (λ found. found.items ≡ log)
        (λ fault. fault ≡ LogFault.OutOfMemory) }
    ensures fault { IfErr result (IsFaultOf text.now) }

    // So is the page of a gateway.
    ensures gateway { (table : List ObjectLine) (records : List Record) → IsLogged table records
        → text.now ≡ log_text records (outcomes_of table records)
        → MatchResult result
        (λ found. found.items ≡ map logged_of (zip records (outcomes_of table records)))
        (λ fault. fault ≡ LogFault.OutOfMemory) }
{
    read_lines(alloc, text)
}
