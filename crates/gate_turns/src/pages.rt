//! How long a reader has for its page, who is slow, and how much is kept for all readers.

ghost use Rattle.std.specs.Prelude.{◌≡◌};
ghost use Rattle.std.specs.List.{list_any};
ghost use Rattle.gate_turns.specs.Pages.{page_time, takes_page, is_slow, pace, takes_text, kept_for, kept};

use crate::standing::Standing;
use gate_environment::times::PAGE_MILLIS;

/// How many bytes of its page a reader takes in a millisecond: one that takes fewer gives way where others
/// wait.
pub const PAGE_BYTES_A_MILLI: u64 = 1_000;

/// In how many milliseconds a reader takes a page of so many bytes.
pub(crate) fn page_millis(bytes: u64) -> u64
    ensures { result ≡ page_time bytes }
{
    PAGE_MILLIS.max(bytes / PAGE_BYTES_A_MILLI)
}

// Whether a reader has not taken all of its page.
fn takes_page(standing: &Standing) -> bool
    ensures { result ≡ takes_page standing.now }
{
    standing.page.taken < standing.page.bytes
}

/// Whether a reader takes less of its page than others may wait for.
pub(crate) fn is_slow(standing: &Standing, now: u64) -> bool
    ensures { result ≡ is_slow now standing.now }
{
    let millis = u128::from(now.saturating_sub(standing.since));
    let wanted = u128::from(PAGE_BYTES_A_MILLI) * millis;
    takes_page(standing) && u128::from(standing.page.taken) < wanted
}

/// How far a reader has come.
pub(crate) fn pace(standing: &Standing) -> u128
    ensures { result ≡ pace standing.now }
{
    let since = standing.since;
    let taken = standing.page.taken;
    u128::from(PAGE_BYTES_A_MILLI) * u128::from(since) + u128::from(taken)
}

// Whether there is a reader who has not taken all of this text.
fn takes_text(peer: &Option<Standing>, text: u64) -> bool
    ensures { result ≡ takes_text text peer.now }
{
    match peer {
        Some(standing) => takes_page(standing) && standing.page.text == text,
        None => false,
    }
}

// Whether one of these takes this text.
fn is_taken(peers: &[Option<Standing>], text: u64) -> bool
    ensures { result ≡ list_any (takes_text text) peers.now }
{
    peers.iter().any(|peer| takes_text(peer, text))
}

// The bytes of a reader's text, unless one of the others takes it too.
fn kept_for(peer: &Option<Standing>, others: &[Option<Standing>]) -> u64
    ensures { result ≡ kept_for peer.now others.now }
{
    match peer {
        Some(standing) => {
            if takes_page(standing) && !is_taken(others, standing.page.text) {
                standing.page.bytes
            } else {
                0
            }
        }
        None => 0,
    }
}

/// How many bytes are kept for the readers that have not taken all of their page: a text that several of
/// them take counts once.
pub fn kept(peers: &[Option<Standing>]) -> u128
    ensures { result ≡ kept peers.now }
{
    let mut sum = 0u128;
    for place in 0..peers.len() {
        sum += u128::from(kept_for(&peers[place], &peers[place + 1..]));
    }
    sum
}
