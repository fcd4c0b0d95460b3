ghost use Rattle.std.specs.Prelude.{◌≡◌, ◌+◌};
ghost use Rattle.status_merge.specs.Ranks.{is_made, is_unhandled, severity, rank};

use crate::gateway::MergedObject;
use status_reading::{ShownAcknowledgement, State};

/// Whether there is an acknowledgement.
pub fn is_made(acknowledgement: ShownAcknowledgement) -> bool
    ensures { result ≡ is_made acknowledgement }
{
    match acknowledgement {
        ShownAcknowledgement::Missing => false,
        ShownAcknowledgement::Normal | ShownAcknowledgement::Sticky => true,
    }
}

/// Whether an object is a problem without an acknowledgement and in no downtime, of a host, or of a
/// service whose host is neither DOWN nor UNREACHABLE nor in downtime.
pub fn is_unhandled(object: &MergedObject<'_>) -> bool
    ensures { result ≡ is_unhandled object.now }
{
    let row = &object.row;
    row.state.is_problem() && !is_made(row.acknowledgement) && row.depth == 0 && !object.host_is_out
}

// The rank of a problem among problems, and that of a handled one.
fn severity(state: State) -> (u32, u32)
    ensures { (result.0 ≡ severity state) × (result.1 ≡ severity state + 5) }
{
    match state {
        State::Down | State::Critical => (0, 5),
        State::Unreachable => (1, 6),
        State::Unknown => (2, 7),
        State::Warning | State::Pending | State::Ok | State::Up => (3, 8),
    }
}

/// The rank of an object, from 0, the most urgent, to 10.
///
/// Unhandled problems: DOWN and CRITICAL 0, UNREACHABLE 1, UNKNOWN 2, WARNING 3. A stale object
/// that is no problem: 4. Handled problems, in the same order: 5 to 8. PENDING 9, OK and UP 10. Own
/// rule.
pub fn rank(object: &MergedObject<'_>) -> u32
    ensures { result ≡ rank object.now }
{
    let row = &object.row;
    if is_unhandled(object) {
        severity(row.state).0
    } else if row.state.is_problem() {
        severity(row.state).1
    } else if row.stale {
        4
    } else if row.state == State::Pending {
        9
    } else {
        10
    }
}
