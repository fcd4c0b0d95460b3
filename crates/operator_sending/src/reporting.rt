//! The line that reports how a command ended.

ghost use Rattle.std.specs.Prelude.{◌≡◌, IfErr, IfOk};
ghost use Rattle.operator_effects.specs.Endings.{status_of};
ghost use Rattle.operator_sending.specs.Faults.{IsPrintFault};
ghost use Rattle.operator_sending.specs.Reports.{IsReport, report_line, sinks};

use gate_model::Body;
use gate_streams::Sink;
use operator_effects::{Ending, push_message};
use operator_json::ending_json;
use operator_setup::{ControlFault, print};
use std::alloc::{AllocError, Global};

// The line that reports how a command ended.
fn line_of(alloc: Global, body: &Body, ending: Ending, json: bool) -> Result<Vec<u8>, AllocError>
    ensures { IfOk result (λ line. line.items ≡ report_line json body.now ending) }
{
    let mut line = Vec::new(alloc);
    if json {
        line.extend_from_slice(ending_json(alloc, body, ending)?.as_slice())?;
    } else {
        if ending.status() != 0 {
            line.extend_from_slice(b"nscagatectl: ")?;
        }
        push_message(&mut line, body, ending)?;
    }
    line.extend_from_slice(b"\n")?;
    Ok(line)
}

/// Prints how a command ended: on the output where its exit status is 0 or the line is JSON, otherwise
/// on `errors`. Returns the exit status. An error is `WriteFault` or `OutOfMemory`.
pub fn report<W: Sink, E: Sink>(
    alloc: Global,
    body: &Body,
    ending: Ending,
    json: bool,
    output: &mut W,
    errors: &mut E,
) -> Result<u8, ControlFault>
    ensures status { IfOk result (λ status. status ≡ status_of ending) }
    ensures reported { IfOk result (λ _. IsReport json body.now ending
        (sinks (W.state output.old) (E.state errors.old))
        (sinks (W.state output.new) (E.state errors.new))) }
    ensures fault { IfErr result IsPrintFault }
{
    let status = ending.status();
    let line = line_of(alloc, body, ending, json)?;
    if status == 0 || json {
        print(output, line.as_slice())?;
    } else {
        print(errors, line.as_slice())?;
    }
    Ok(status)
}
