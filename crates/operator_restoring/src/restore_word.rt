//! The word `restore`: its files, and what it prints.

ghost use Rattle.std.specs.Prelude.{◌≡◌, ◌≤◌, ◌++◌, IfErr, IfOk, OnOk};
ghost use Rattle.std.specs.List.{flat_map};
ghost use Rattle.operator_restoring.specs.Faults.{IsOutputFault, IsNotRestored};
ghost use Rattle.operator_restoring.specs.Restored.{commands_of, left_line, IsPrinted, is_old_asked, IsRestoreEnd};

use crate::preparing::{KeptFiles, prospect_of};
use crate::restore_fault::RestoreFault;
use gate_grammar::Command;
use gate_kept::write_kept;
use gate_model::Moment;
use gate_streams::Sink;
use operator_commands::{Options, Task};
use operator_ports::entered_at;
use operator_restore::{Prospect, push_command, status_of};
use operator_setup::{ControlFault, configuration, now, path_in, path_of, print};
use std::alloc::{AllocError, Global};
use std::fs::Files;
use std::time::Clock;

// Prints why nothing is restored, and returns the exit status.
fn report<E: Sink>(alloc: Global, fault: RestoreFault, errors: &mut E) -> Result<u8, ControlFault>
    ensures bad { IfOk result (λ status. 2 ≤ status) }
    ensures unsaid { IfErr result IsOutputFault }
{
    let text = format!(in alloc; "nscagatectl: {fault}\n")?;
    print(errors, text.as_bytes())?;
    Ok(fault.status())
}

// The commands of a plan: results, and then the others.
fn commands_of(
    alloc: Global,
    prospect: Prospect,
    entered: Moment,
) -> Result<Vec<Command>, AllocError>
    ensures { IfOk result (λ commands. commands.items ≡ commands_of entered prospect) }
{
    let Prospect {
        results: mut bodies,
        mut others,
        ..
    } = prospect;
    bodies.append(&mut others)?;
    entered_at(alloc, entered, bodies)
}

// Appends the lines that name these commands.
fn push_left(alloc: Global, out: &mut Vec<u8>, left: &[&Command]) -> Result<(), AllocError>
    ensures { OnOk result (out.new.items
        ≡ out.old.items ++ flat_map (λ one. left_line one.now) left.now) }
{
    for command in left {
        push_command(
            alloc,
            out,
            b"neither a packet nor a line holds it: ",
            &command.body,
        )?;
    }
    Ok(())
}

// Prints what is named, and the text of what is restored; returns the exit status.
fn print_kept<W: Sink, E: Sink>(
    alloc: Global,
    prospect: Prospect,
    entered: Moment,
    output: &mut W,
    errors: &mut E,
) -> Result<u8, ControlFault>
    ensures printed { IfOk result (IsPrinted prospect entered (W.state output.old)
        (W.state output.new)) }
    ensures unsaid { IfErr result IsOutputFault }
{
    print(errors, prospect.source.as_slice())?;
    print(errors, prospect.lines.as_slice())?;
    let named = prospect.named;
    let commands = commands_of(alloc, prospect, entered)?;
    let written = write_kept(alloc, commands.as_slice())?;
    let mut lines = Vec::new(alloc);
    push_left(alloc, &mut lines, written.left.as_slice())?;
    print(errors, lines.as_slice())?;
    print(output, written.text.as_slice())?;
    let status = status_of(named.saturating_add(written.left.len()));
    drop(written);
    Ok(status)
}

/// Prints what stands of a kept status page or a kept log page as the text that a gateway takes before
/// it serves anybody, and names what it won't show again. Returns the exit status: 0 where nothing is
/// named, 1 where something is, and that of a `RestoreFault` where nothing is printed. The task is
/// `Restore`; another is `BadWords`, as is a path that is no UTF-8. An error is also a fault of the
/// configuration, `NoClock`, `WriteFault` or `OutOfMemory`.
pub fn restore<R: Clock + Files, W: Sink, E: Sink>(
    rt: &R,
    alloc: Global,
    options: &Options,
    task: &Task,
    output: &mut W,
    errors: &mut E,
) -> Result<u8, ControlFault>
    ensures ended { IfOk result (IsRestoreEnd (is_old_asked task.now) (W.state output.old)
        (W.state output.new)) }
    ensures fault { IfErr result (IsNotRestored options.now task.now) }
{
    let Task::Restore { page, log, old } = task else {
        return Err(ControlFault::BadWords);
    };
    let kept = KeptFiles {
        page: path_in(page)?,
        log: path_of(log)?,
        old: *old,
    };
    let entered = now(rt)?;
    // It is read again with the kept files; here its faults are named.
    drop(configuration(rt, alloc, options)?);
    match prospect_of(rt, alloc, options, kept, entered) {
        Ok(prospect) => {
            let status = print_kept(alloc, prospect, entered, output, errors)?;
            Ok(status)
        }
        Err(fault) => {
            let status = report(alloc, fault, errors)?;
            Ok(status)
        }
    }
}
