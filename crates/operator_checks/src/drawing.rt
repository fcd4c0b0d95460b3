//! The figures of a page, as programs that draw them read them.

ghost use Rattle.std.specs.Prelude.{◌≡◌, ◌++◌, OnOk, map};
ghost use Rattle.operator_checks.specs.Findings.{drawn, drawn_problems, figure, figures_on, label_byte};

use crate::findings::{Figures, Finding};
use gate_model::push_number;
use std::alloc::AllocError;

fn label_byte(byte: u8) -> u8
    ensures { result ≡ label_byte byte }
{
    match byte {
        b' ' | b'=' | b'\'' => b'_',
        _ => byte,
    }
}

fn push_label(out: &mut Vec<u8>, name: &[u8]) -> Result<(), AllocError>
    ensures { OnOk result (out.new.items ≡ out.old.items ++ map label_byte name.now) }
{
    for byte in name {
        out.push(label_byte(*byte))?;
    }
    Ok(())
}

#[tactic(auto, unfolding(crate::specs::Findings::figure))]
fn push_figure(out: &mut Vec<u8>, name: &[u8], what: &[u8], number: usize) -> Result<(), AllocError>
    ensures { OnOk result (out.new.items ≡ out.old.items ++ figure name.now what.now number) }
{
    out.extend_from_slice(b" '")?;
    push_label(out, name)?;
    out.extend_from_slice(what)?;
    push_number(out, number as u64)
}

fn push_problems(out: &mut Vec<u8>, name: &[u8], figures: Figures) -> Result<(), AllocError>
    ensures { OnOk result (out.new.items ≡ out.old.items ++ drawn_problems name.now figures) }
{
    push_figure(out, name, b" problems'=", figures.problems)?;
    push_figure(out, name, b" unhandled'=", figures.unhandled)
}

fn push_drawn(out: &mut Vec<u8>, name: &[u8], figures: Figures) -> Result<(), AllocError>
    ensures { OnOk result (out.new.items ≡ out.old.items ++ drawn name.now figures) }
{
    push_problems(out, name, figures)?;
    push_figure(out, name, b" stale'=", figures.stale)
}

/// Appends the figures of a finding, if it has any.
pub fn push_figures_on(out: &mut Vec<u8>, finding: &Finding<'_>) -> Result<(), AllocError>
    ensures { OnOk result (out.new.items ≡ out.old.items ++ figures_on finding.now) }
{
    match finding {
        Finding::Serves(name, figures)
        | Finding::Closes(name, figures)
        | Finding::StandsStill(name, _, figures) => push_drawn(out, name, *figures),
        Finding::NoPage(..)
        | Finding::SlowPage(..)
        | Finding::OtherPage(..)
        | Finding::Silent(..)
        | Finding::Slow(..)
        | Finding::BadAddress(_)
        | Finding::Unkept(_) => Ok(()),
    }
}
