//! For how long a peer may owe what it owes.

ghost use Rattle.std.specs.Prelude.{◌≡◌, ◌↔◌, [], Some, Any, IsTrue, IsNone, IfSome};
ghost use Rattle.gate_turns.specs.Standing.{standings};
ghost use Rattle.gate_turns.specs.Waiting.{silence_of, limit_of, IsLate, time_left_of, times_left, IsLeast};

use crate::pages::page_millis;
use crate::standing::{Role, Stage, Standing};
use gate_environment::times::{
    AGELESS_SILENCE_SECONDS, ANSWER_MILLIS, GREETING_MILLIS, LAST_MILLIS, LEAST_SILENCE_SECONDS,
    LINE_MILLIS, PARTING_MILLIS,
};

/// For how many milliseconds an agent may be silent, by the greatest age of a packet in seconds. 0:
/// packets are never too old.
pub fn silence_of(greatest_age: u32) -> u64
    ensures { result ≡ silence_of greatest_age }
{
    let seconds = if greatest_age == 0 {
        AGELESS_SILENCE_SECONDS
    } else {
        LEAST_SILENCE_SECONDS.max(greatest_age)
    };
    u64::from(seconds) * 1_000
}

/// For how many milliseconds a peer may owe what it owes. None: it owes nothing, since it can be served.
pub fn limit_of(standing: &Standing, silence_millis: u64, is_ending: bool) -> Option<u64>
    ensures { result ≡ limit_of silence_millis is_ending standing.now }
{
    if standing.can_be_served() {
        return None;
    }
    Some(match (standing.stage, standing.role) {
        (Stage::Parting, _) => PARTING_MILLIS,
        (Stage::Open | Stage::Last, _) if is_ending => LAST_MILLIS,
        (Stage::Open, Role::Agent) => silence_millis,
        (Stage::Last, Role::Agent) => GREETING_MILLIS,
        (Stage::Open, Role::Operator) => LINE_MILLIS,
        (Stage::Last, Role::Operator) => ANSWER_MILLIS,
        (Stage::Open | Stage::Last, Role::Reader) => page_millis(standing.page.bytes),
    })
}

// The time until a peer is late, if it owes anything.
fn time_left_of(standing: &Standing, now: u64, silence_millis: u64, is_ending: bool) -> Option<u64>
    ensures { result ≡ time_left_of now silence_millis is_ending standing.now }
{
    let limit = limit_of(standing, silence_millis, is_ending)?;
    Some(limit.saturating_sub(now.saturating_sub(standing.since)))
}

/// Whether a peer has owed what it owes for as long as it may.
pub fn is_late(standing: &Standing, now: u64, silence_millis: u64, is_ending: bool) -> bool
    ensures { IsTrue result ↔ IsLate now silence_millis is_ending standing.now }
{
    time_left_of(standing, now, silence_millis, is_ending) == Some(0)
}

/// The milliseconds until one of the peers is late. None: none of them owes anything.
pub fn time_left(
    peers: &[Option<Standing>],
    now: u64,
    silence_millis: u64,
    is_ending: bool,
) -> Option<u64>
    ensures none { IsNone result ↔ (times_left now silence_millis is_ending peers.now ≡ []) }
    ensures least { IfSome result (IsLeast (times_left now silence_millis is_ending peers.now)) }
    ensures late { (result ≡ Some 0)
        ↔ Any (IsLate now silence_millis is_ending) (standings peers.now) }
{
    let mut least: Option<u64> = None;
    for peer in peers {
        if let Some(standing) = peer {
            if let Some(left) = time_left_of(standing, now, silence_millis, is_ending) {
                least = Some(left.min(least.unwrap_or(left)));
            }
        }
    }
    least
}
