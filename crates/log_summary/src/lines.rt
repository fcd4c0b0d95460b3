//! The lines of a summary.

ghost use Rattle.std.specs.Prelude.{◌≡◌, ◌++◌, IfOk, OnOk};
ghost use Rattle.std.specs.List.{flat_map};
ghost use Rattle.log_summary.specs.Lines.{count_line, outcome_line, group_line, summary_text};
ghost use Rattle.log_summary.specs.inner.Groups.{values_in, groups_in};

use crate::counting::count;
use crate::hosts::{REASONS, refusals};
use gate_lines::outcome_name;
use gate_model::{Outcome, push_number};
use log_reading::{Logged, line_of};
use std::alloc::{AllocError, Global};

fn push_count(out: &mut Vec<u8>, name: &[u8], count: usize) -> Result<(), AllocError>
    ensures { OnOk result (out.new.items ≡ out.old.items ++ count_line name.now count) }
{
    out.extend_from_slice(name)?;
    out.extend_from_slice(b" ")?;
    push_number(out, count as u64)?;
    out.extend_from_slice(b"\n")
}

// Appends the line of an outcome, where a record has it.
fn push_outcome(out: &mut Vec<u8>, log: &[Logged], outcome: Outcome) -> Result<(), AllocError>
    ensures { OnOk result (out.new.items ≡ out.old.items ++ outcome_line log.now outcome) }
{
    let count = count(log, outcome);
    if count == 0 {
        Ok(())
    } else {
        push_count(out, outcome_name(outcome), count)
    }
}

fn push_outcomes(out: &mut Vec<u8>, log: &[Logged], outcomes: &[Outcome]) -> Result<(), AllocError>
    ensures { OnOk result
        (out.new.items ≡ out.old.items ++ flat_map (outcome_line log.now) outcomes.now) }
{
    for outcome in outcomes {
        push_outcome(out, log, *outcome)?;
    }
    Ok(())
}

// Appends how many records there are, and the line of the last of them.
fn push_group(alloc: Global, out: &mut Vec<u8>, group: &[&Logged]) -> Result<(), AllocError>
    ensures { OnOk result (out.new.items ≡ out.old.items ++ group_line (values_in group.now)) }
{
    let Some(last) = group.last() else {
        return Ok(());
    };
    push_number(out, group.len() as u64)?;
    out.extend_from_slice(b" ")?;
    out.extend_from_slice(&line_of(alloc, last)?)?;
    out.push(b'\n')?;
    Ok(())
}

fn push_groups(alloc: Global, out: &mut Vec<u8>, groups: &[Vec<&Logged>]) -> Result<(), AllocError>
    ensures { OnOk result
        (out.new.items ≡ out.old.items ++ flat_map group_line (groups_in groups.now)) }
{
    for group in groups {
        push_group(alloc, out, group)?;
    }
    Ok(())
}

/// How many records there are, how many of each outcome, and of each reason and host the refusals,
/// with the line of the last one. The only error is out of memory. Own rule.
pub fn summary_text(alloc: Global, log: &[Logged]) -> Result<Vec<u8>, AllocError>
    ensures { IfOk result (λ text. text.items ≡ summary_text log.now) }
{
    let mut out = Vec::new(alloc);
    push_count(&mut out, b"records", log.len())?;
    push_outcome(&mut out, log, Outcome::Accepted)?;
    push_outcomes(&mut out, log, &REASONS)?;
    let groups = refusals(alloc, log)?;
    push_groups(alloc, &mut out, &groups)?;
    Ok(out)
}
