ghost use Rattle.std.specs.Prelude.{◌≡◌};
ghost use Rattle.gate_ports.specs.Since.{since_after, parted, settled};

use gate_environment::PieceEnd;
use gate_turns::{Page, Role, Stage, Standing};

/// Since when a peer owes what it owes, after it was looked at. An operator, or a reader, has more time
/// where it took all that was left for it or brought the end of a line; an agent has no more for what it
/// sends.
pub(crate) fn since_after(standing: Standing, has_gone_on: bool, now: u64) -> u64
    ensures { result ≡ since_after standing has_gone_on now }
{
    match standing.role {
        Role::Operator | Role::Reader if has_gone_on => now,
        Role::Agent | Role::Operator | Role::Reader => standing.since,
    }
}

/// How a peer stands after a piece of its connection was served, where nothing is known to be there for
/// the next one. An agent has more time where it was greeted, or something of it was queued, and the time
/// of a reader begins with its page.
pub(crate) fn parted(
    standing: Standing,
    is_first: bool,
    end: PieceEnd,
    is_sent: bool,
    now: u64,
) -> Standing
    ensures { result ≡ parted standing is_first end is_sent now }
{
    let (stage, has_queued) = match end {
        PieceEnd::GoesOn { has_queued } => (standing.stage, has_queued),
        PieceEnd::Over => (Stage::Last, false),
    };
    let has_gone_on = match standing.role {
        Role::Agent => is_first || has_queued,
        Role::Operator => is_sent,
        Role::Reader => true,
    };
    Standing {
        stage,
        is_ready: false,
        since: if has_gone_on { now } else { standing.since },
        ..standing
    }
}

/// How a peer stands that has this of its page, where it can, or can't, be served by now. One that becomes
/// ready gets this order.
pub(crate) fn settled(standing: Standing, page: Page, can_begin: bool, order: u64) -> Standing
    ensures { result ≡ settled standing page can_begin order }
{
    Standing {
        is_ready: can_begin,
        order: if standing.is_ready {
            standing.order
        } else {
            order
        },
        page,
        ..standing
    }
}
