//! The commands that a gateway would refuse.

ghost use Rattle.std.specs.Prelude.{◌≡◌, IfOk, option_map};
ghost use Rattle.status_reading.specs.Rows.{page_view};
ghost use Rattle.operator_effects.specs.Refusals.{first_refusal, is_accepted};

use gate_grammar::Command;
use gate_model::Outcome;
use page_changes::foreseen_outcome;
use status_reading::StatusPage;
use std::alloc::{AllocError, Global};

fn is_accepted(outcome: Outcome) -> bool
    ensures { result ≡ is_accepted outcome }
{
    matches!(outcome, Outcome::Accepted)
}

/// The first of these commands that the gateway would refuse, by its page, and its outcome; None
/// where it would accept each on that page. The only error is out of memory.
pub fn first_refusal<'a>(
    alloc: Global,
    page: &StatusPage<'_>,
    commands: &'a [Command],
) -> Result<Option<(&'a Command, Outcome)>, AllocError>
    ensures { IfOk result (λ found. option_map (λ refusal. (refusal.0.now, refusal.1)) found
        ≡ first_refusal (page_view page.now) commands.now) }
{
    for command in commands {
        let outcome = foreseen_outcome(alloc, page, &command.body)?;
        if !is_accepted(outcome) {
            return Ok(Some((command, outcome)));
        }
    }
    Ok(None)
}
