//! The line of all findings, and the exit status.

ghost use Rattle.std.specs.Prelude.{◌≡◌, ◌++◌, IfOk, OnOk};
ghost use Rattle.std.specs.List.{flat_map};
ghost use Rattle.operator_checks.specs.Findings.{after_bar, figures_on, line, state_status, state_word, texts_of, worst};

use crate::drawing::push_figures_on;
use crate::findings::{Finding, push_finding, weight};
use std::alloc::{AllocError, Global};

fn worst(findings: &[Finding<'_>]) -> u8
    ensures { result ≡ worst findings.now }
{
    let mut worst = 0;
    for finding in findings {
        worst = weight(finding).max(worst);
    }
    worst
}

fn state_word(weight: u8) -> &'static [u8]
    ensures { result.now ≡ state_word weight }
{
    match weight {
        0 => b"OK",
        1 => b"WARNING",
        2 => b"UNKNOWN",
        _ => b"CRITICAL",
    }
}

fn push_texts(out: &mut Vec<u8>, findings: &[Finding<'_>]) -> Result<(), AllocError>
    ensures { OnOk result (out.new.items ≡ out.old.items ++ texts_of findings.now) }
{
    let Some((first, rest)) = findings.split_first() else {
        return Ok(());
    };
    push_finding(out, first)?;
    for finding in rest {
        out.extend_from_slice(b"; ")?;
        push_finding(out, finding)?;
    }
    Ok(())
}

// The figures of all findings.
fn figures(alloc: Global, findings: &[Finding<'_>]) -> Result<Vec<u8>, AllocError>
    ensures { IfOk result (λ figures. figures.items ≡ flat_map figures_on findings.now) }
{
    let mut figures = Vec::new(alloc);
    for finding in findings {
        push_figures_on(&mut figures, finding)?;
    }
    Ok(figures)
}

fn push_after_bar(out: &mut Vec<u8>, figures: &[u8]) -> Result<(), AllocError>
    ensures { OnOk result (out.new.items ≡ out.old.items ++ after_bar figures.now) }
{
    if figures.is_empty() {
        return Ok(());
    }
    out.extend_from_slice(b" |")?;
    out.extend_from_slice(figures)
}

/// The exit status of all findings: 0 OK, 1 WARNING, 2 CRITICAL, 3 UNKNOWN. Of several states
/// CRITICAL counts first, then UNKNOWN, then WARNING. Own rule.
pub fn status_of(findings: &[Finding<'_>]) -> u8
    ensures { result ≡ state_status (worst findings.now) }
{
    match worst(findings) {
        2 => 3,
        3 => 2,
        weight => weight,
    }
}

/// Appends the line of all findings, without its end: the state, what is found, and after a bar the
/// figures of pages. The only error is out of memory. Own rule.
pub fn push_line(
    alloc: Global,
    out: &mut Vec<u8>,
    findings: &[Finding<'_>],
) -> Result<(), AllocError>
    ensures { OnOk result (out.new.items ≡ out.old.items ++ line findings.now) }
{
    let figures = figures(alloc, findings)?;
    out.extend_from_slice(b"NSCAGATE ")?;
    out.extend_from_slice(state_word(worst(findings)))?;
    out.extend_from_slice(b" - ")?;
    push_texts(out, findings)?;
    push_after_bar(out, figures.as_slice())
}
