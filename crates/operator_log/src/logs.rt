ghost use Rattle.std.specs.Prelude.{◌≡◌, IfErr, IfOk, MatchResult, None, Some};
ghost use Rattle.operator_log.specs.Summed.{IsLogFault, IsLogShown, IsOfFile, file_text, since_of};

use crate::summed::sum_up;
use gate_grammar::read_number;
use gate_model::{Moment, Text, push_escaped};
use gate_streams::Sink;
use kept_files::read_file;
use log_reading::LogFault;
use operator_commands::RequestFault;
use operator_setup::{ControlFault, path_in, print};
use std::alloc::{AllocError, Global};
use std::fs::Files;

// The moment of `--since`.
fn moment_in(since: &Option<Text>) -> Result<Moment, ControlFault>
    ensures { MatchResult result (λ moment. since_of since.now ≡ Some moment.0)
        (λ fault. (fault ≡ ControlFault.Request RequestFault.BadTime) × (since_of since.now ≡ None)) }
{
    let Some(text) = since else {
        return Ok(Moment(0));
    };
    match read_number(text.bytes()) {
        Some(moment) => Ok(Moment(moment)),
        None => Err(ControlFault::Request(RequestFault::BadTime)),
    }
}

// What is wrong with a file.
fn faulty(alloc: Global, file: &Text, cause: &str) -> Result<ControlFault, AllocError>
    ensures { IfOk result (λ fault.
        fault ≡ ControlFault.BadFile (file_text file.now cause.now)) }
{
    let mut text = Vec::new(alloc);
    push_escaped(&mut text, file.bytes())?;
    text.extend_from_slice(b": ")?;
    text.extend_from_slice(cause.as_bytes())?;
    Ok(ControlFault::BadFile(Text::new(text)))
}

fn log_fault(alloc: Global, file: &Text, fault: LogFault) -> Result<ControlFault, AllocError>
    ensures { IfOk result (IsOfFile file.now) }
{
    match fault {
        LogFault::OutOfMemory => Ok(ControlFault::OutOfMemory),
        LogFault::NoLog => faulty(alloc, file, "there is no log page in it"),
        LogFault::CutOff(_) | LogFault::BadLine(_) | LogFault::ExtraLine(_) => {
            let cause = format!(in alloc; "its log page: {fault}")?;
            faulty(alloc, file, cause.as_str())
        }
    }
}

/// Prints what the last log page in a file comes to, from the moment of `since` on: as lines or as
/// JSON. Returns the exit status, 0.
///
/// A file without a log page, or with one that was cut off, is a fault that names it.
pub fn run_log<F: Files, W: Sink>(
    files: &F,
    alloc: Global,
    file: &Text,
    since: &Option<Text>,
    json: bool,
    output: &mut W,
) -> Result<u8, ControlFault>
    ensures status { IfOk result (λ status. status ≡ 0) }
    ensures shown { IfOk result (λ _.
        IsLogShown since.now json (W.state output.old) (W.state output.new)) }
    ensures fault { IfErr result (IsLogFault file.now since.now) }
{
    let moment = moment_in(since)?;
    let Ok(printed) = read_file(files, alloc, path_in(file)?) else {
        return Err(faulty(alloc, file, "it can't be read")?);
    };
    match sum_up(alloc, printed.as_slice(), moment, json) {
        Ok(text) => print(output, text.as_slice())?,
        Err(fault) => return Err(log_fault(alloc, file, fault)?),
    }
    Ok(0)
}
