//! How many of the peers come from an address.

ghost use Rattle.std.specs.Prelude.{◌≡◌, ◌<◌, ◌≤◌, ◌%◌, length, All};
ghost use Rattle.gate_turns.specs.Standing.{connections};
ghost use Rattle.gate_turns.specs.inner.Counts.{AreCounts};

use crate::standing::Standing;

/// How many of the peers come from this address.
pub(crate) fn connections(peers: &[Option<Standing>], address: u128) -> usize
    ensures { result ≡ connections peers.now address }
{
    let mut count = 0;
    for peer in peers {
        if let Some(standing) = peer {
            if standing.address == address {
                count += 1;
            }
        }
    }
    count
}

/// Prime numbers, by whose remainders addresses are told apart: neighbours have different ones, and few
/// addresses that were not made for it have the same by both.
pub(crate) const PRIME: usize = 32_719;

pub(crate) const OTHER_PRIME: usize = 32_749;

fn remainder_of(address: u128, divisor: usize) -> usize
    requires { 0 < divisor }
    ensures { result ≡ address % divisor }
{
    (address % divisor as u128) as usize
}

/// Counts the peers by the remainders of their addresses: of each remainder by the number of counts.
pub(crate) fn count_remainders(peers: &[Option<Standing>], counts: &mut [u16])
    requires some { 0 < length counts.old }
    requires none { All (λ count. count ≡ 0) counts.old }
    ensures counted { AreCounts peers.now counts.new }
    ensures all { length counts.new ≡ length counts.old }
{
    let divisor = counts.len();
    for peer in peers {
        if let Some(standing) = peer {
            let remainder = remainder_of(standing.address, divisor);
            counts[remainder] = counts[remainder].saturating_add(1);
        }
    }
}

/// How many of the peers come from this address at most.
pub(crate) fn most_from(peers: &[Option<Standing>], counts: &[u16], address: u128) -> usize
    requires some { 0 < length counts.now }
    requires counted { AreCounts peers.now counts.now }
    ensures { connections peers.now address ≤ result }
{
    let count = counts[remainder_of(address, counts.len())];
    if count < u16::MAX {
        usize::from(count)
    } else {
        peers.len()
    }
}
