//! One page after another, until one shows a command's effect.

ghost use Rattle.std.specs.Prelude.{◌≡◌, ◌≢◌, ◌++◌, List, map, IfOk, MatchOption};
ghost use Rattle.std.specs.Bool.{Decides};
ghost use Rattle.status_reading.specs.Rows.{page_view};
ghost use Rattle.operator_ports.specs.declared.next.Next.{Next as Given};
ghost use Rattle.operator_ports.specs.Steps.{Read};
ghost use Rattle.operator_ports.specs.Watching.{Shows, ShowsIn, ShowsNone, ShowsNoneIn, IsWatched};

use crate::gateway::Gateway;
use crate::next::Next;
use gate_model::Body;
use page_changes::{Effect, effect_of};
use status_reading::{ReadFault, StatusPage, read_status_page};
use std::alloc::{AllocError, Global};

// What a text shows of a command, where it is a page that shows its effect.
fn seen_in(
    alloc: Global,
    before: &StatusPage<'_>,
    body: &Body,
    text: &[u8],
) -> Result<Option<Effect>, AllocError>
    ensures { IfOk result (λ seen. MatchOption seen
        (ShowsNoneIn body.now (page_view before.now) text.now)
        (ShowsIn body.now (page_view before.now) text.now)) }
{
    match read_status_page(alloc, text) {
        Ok(after) => effect_of(alloc, body, before, &after),
        Err(ReadFault::OutOfMemory) => Err(AllocError),
        Err(_) => Ok(None),
    }
}

// What was read shows of a command, where it shows its effect.
fn seen_by(
    alloc: Global,
    before: &StatusPage<'_>,
    body: &Body,
    next: Next,
) -> Result<Option<Effect>, AllocError>
    ensures { IfOk result (λ seen. MatchOption seen
        (next ≢ Next.Over → ShowsNone body.now (page_view before.now) next)
        (Shows body.now (page_view before.now) next)) }
{
    match next {
        Next::Page(text) => seen_in(alloc, before, body, text.as_slice()),
        Next::Gone if matches!(body, Body::Shutdown) => Ok(Some(Effect {
            state: None,
            made: None,
        })),
        Next::Gone | Next::Over => Ok(None),
    }
}

fn is_over(next: &Next) -> bool
    ensures { Decides result (next.now ≡ Next.Over) }
{
    matches!(next, Next::Over)
}

/// Reads pages until one shows the command's effect, where this page was read before it was sent,
/// and returns what it shows; None where the time is over. A gateway that was shut down may show no
/// page.
///
/// A text that is no page is passed over. The only error is out of memory.
pub fn watch<G: Gateway>(
    alloc: Global,
    before: &StatusPage<'_>,
    body: &Body,
    gateway: &mut G,
) -> Result<Option<Effect>, AllocError>
    ensures { IfOk result (λ seen. (reads : List Given)
        × (G.done gateway.new ≡ G.done gateway.old ++ map Read reads)
        × IsWatched body.now (page_view before.now) reads seen) }
{
    for _ in 0..u64::MAX {
        let next = gateway.next(alloc)?;
        if is_over(&next) {
            return Ok(None);
        }
        let seen = seen_by(alloc, before, body, next)?;
        if seen.is_some() {
            return Ok(seen);
        }
    }
    Ok(None)
}
