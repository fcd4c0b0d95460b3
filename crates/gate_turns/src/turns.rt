//! Who comes first, to be served or to give way.

ghost use Rattle.std.specs.Prelude.{◌≡◌, ◌<◌, ◌↔◌, [], length, IsTrue, IsNone, IfSome};
ghost use Rattle.gate_turns.specs.Standing.{others, can_be_served, connections};
ghost use Rattle.gate_turns.specs.Turns.{those, IsFirst, was_ready_before, owes, owes_longer, is_silent, outweighs, gives_way_before, IsOver};
ghost use Rattle.gate_turns.specs.Pages.{is_slow, is_behind, is_parting};
ghost use Rattle.gate_turns.specs.inner.Firsts.{next_first, comes_first, place_of};
ghost use Rattle.gate_turns.specs.inner.Counts.{AreCounts};

use crate::counts::{OTHER_PRIME, PRIME, connections, count_remainders, most_from};
use crate::pages::{is_slow, pace};
use crate::standing::{Role, Stage, Standing, other_at};
use crate::waiting::limit_of;

// How many bytes of an agent are handed out in a piece before others are served.
const AGENT_PIECE: usize = 65_536;

// The place of the first of its kind, and the peer.
type First = Option<(usize, Standing)>;

fn place_of(first: First) -> Option<usize>
    ensures { result ≡ place_of first }
{
    first.map(|(place, _)| place)
}

// The one that came to be ready first, of those so far and this one.
fn first_by_order(first: First, place: usize, peer: Standing) -> First
    ensures { result ≡ next_first was_ready_before first place peer }
{
    match first {
        Some((_, least)) if peer.order >= least.order => first,
        _ => Some((place, peer)),
    }
}

// The one that has owed for the longest time, of those so far and this one.
fn first_by_time(first: First, place: usize, peer: Standing) -> First
    ensures { result ≡ next_first owes_longer first place peer }
{
    match first {
        Some((_, longest)) if peer.since >= longest.since => first,
        _ => Some((place, peer)),
    }
}

// The one that is the furthest behind, of those so far and this one.
fn first_by_pace(first: First, place: usize, peer: Standing) -> First
    ensures { result ≡ next_first is_behind first place peer }
{
    match first {
        Some((_, slowest)) if pace(&peer) >= pace(&slowest) => first,
        _ => Some((place, peer)),
    }
}

/// The place of the peer that can be served and came to that first.
pub fn first_ready(peers: &[Option<Standing>], except: Option<usize>) -> Option<usize>
    ensures none { IsNone result ↔ (those can_be_served (others peers.now except) ≡ []) }
    ensures first { IfSome result
        (IsFirst can_be_served was_ready_before peers.now except) }
    ensures within { IfSome result (λ place. place < length peers.now) }
{
    let mut first: First = None;
    for place in 0..peers.len() {
        if let Some(peer) = other_at(peers, except, place) {
            if peer.can_be_served() {
                first = first_by_order(first, place, peer);
            }
        }
    }
    place_of(first)
}

/// Of the peers that owe something, the place of the one that has owed it for the longest time: it gives
/// way to one more operator or reader.
pub fn longest_owing(
    peers: &[Option<Standing>],
    except: Option<usize>,
    is_ending: bool,
    silence_millis: u64,
) -> Option<usize>
    ensures none { IsNone result
        ↔ (those (owes silence_millis is_ending) (others peers.now except) ≡ []) }
    ensures first { IfSome result
        (IsFirst (owes silence_millis is_ending) owes_longer peers.now except) }
    ensures within { IfSome result (λ place. place < length peers.now) }
{
    let mut first: First = None;
    for place in 0..peers.len() {
        if let Some(peer) = other_at(peers, except, place) {
            if limit_of(&peer, silence_millis, is_ending).is_some() {
                first = first_by_time(first, place, peer);
            }
        }
    }
    place_of(first)
}

/// Of the readers that take less of their page than 1 MB a second, the place of the one that is the
/// furthest behind: it gives way to others. No reader that takes more does.
pub fn slowest(peers: &[Option<Standing>], now: u64) -> Option<usize>
    ensures none { IsNone result ↔ (those (is_slow now) peers.now ≡ []) }
    ensures first { IfSome result (IsFirst (is_slow now) is_behind peers.now None) }
    ensures within { IfSome result (λ place. place < length peers.now) }
{
    let mut first: First = None;
    for place in 0..peers.len() {
        if let Some(peer) = other_at(peers, None, place) {
            if is_slow(&peer, now) {
                first = first_by_pace(first, place, peer);
            }
        }
    }
    place_of(first)
}

fn is_parting(peer: &Standing) -> bool
    ensures { result ≡ is_parting peer.now }
{
    peer.stage == Stage::Parting
}

/// Of the peers that have all, the place of the one that hasn't ended its side for the longest time.
pub fn longest_parting(peers: &[Option<Standing>]) -> Option<usize>
    ensures none { IsNone result ↔ (those is_parting peers.now ≡ []) }
    ensures first { IfSome result (IsFirst is_parting owes_longer peers.now None) }
    ensures within { IfSome result (λ place. place < length peers.now) }
{
    let mut first: First = None;
    for place in 0..peers.len() {
        if let Some(peer) = other_at(peers, None, place) {
            if is_parting(&peer) {
                first = first_by_time(first, place, peer);
            }
        }
    }
    place_of(first)
}

fn is_silent(peer: &Standing) -> bool
    ensures { result ≡ is_silent peer.now }
{
    !peer.can_be_served()
}

// Whether a peer of so many from its address gives way before one of that many from its own.
fn is_enough(count: usize, others_count: usize, is_longer: bool) -> bool
    ensures { result ≡ outweighs count others_count is_longer }
{
    count > others_count || (count == others_count && is_longer)
}

// Whether this peer gives way before that one, from whose address so many come. Those from its own are
// counted only where it may depend on that: else each of many addresses would take a look at all peers.
fn gives_way_before(
    peers: &[Option<Standing>],
    counts: &[u16],
    other_counts: &[u16],
    peer: &Standing,
    other: &Standing,
    others_count: usize,
) -> bool
    requires some { 0 < length counts.now }
    requires some_more { 0 < length other_counts.now }
    requires counts { AreCounts peers.now counts.now }
    requires other_counts { AreCounts peers.now other_counts.now }
    requires count { others_count ≡ connections peers.now other.now.address }
    ensures { result ≡ gives_way_before peers.now peer.now other.now }
{
    let is_longer = peer.since < other.since;
    let address = peer.address;
    if address == other.address {
        return is_longer;
    }
    is_enough(most_from(peers, counts, address), others_count, is_longer)
        && is_enough(
            most_from(peers, other_counts, address),
            others_count,
            is_longer,
        )
        && is_enough(connections(peers, address), others_count, is_longer)
}

// Whether this peer gives way before the first of those so far, from whose address so many come.
fn gives_way_first(
    peers: &[Option<Standing>],
    counts: &[u16],
    other_counts: &[u16],
    peer: &Standing,
    first: &First,
    most: usize,
) -> bool
    requires some { 0 < length counts.now }
    requires some_more { 0 < length other_counts.now }
    requires counts { AreCounts peers.now counts.now }
    requires other_counts { AreCounts peers.now other_counts.now }
    requires count { IfSome first.now (λ first. most ≡ connections peers.now first.1.address) }
    ensures { result ≡ comes_first (gives_way_before peers.now) first.now peer.now }
{
    match first {
        Some((_, other)) => gives_way_before(peers, counts, other_counts, peer, other, most),
        None => true,
    }
}

/// The place of the agent that gives way to one more: of the address with the most connections the one
/// that has been silent for the longest time. Where all of that address can be served, it is one of the
/// address with the next most: one that can be served never gives way.
pub fn gives_way(peers: &[Option<Standing>], except: Option<usize>) -> Option<usize>
    ensures none { IsNone result ↔ (those is_silent (others peers.now except) ≡ []) }
    ensures first { IfSome result
        (IsFirst is_silent (gives_way_before peers.now) peers.now except) }
    ensures within { IfSome result (λ place. place < length peers.now) }
{
    let mut counts = [0u16; PRIME];
    count_remainders(peers, &mut counts);
    let mut other_counts = [0u16; OTHER_PRIME];
    count_remainders(peers, &mut other_counts);
    let mut first: First = None;
    let mut most = 0;
    for place in 0..peers.len() {
        if let Some(peer) = other_at(peers, except, place) {
            if is_silent(&peer)
                && gives_way_first(peers, &counts, &other_counts, &peer, &first, most)
            {
                first = Some((place, peer));
                most = connections(peers, peer.address);
            }
        }
    }
    place_of(first)
}

/// Whether a piece of a connection ends here, after this many bytes of it, since others can be served.
pub fn is_over(role: Role, handed_out: usize, others_ready: bool) -> bool
    ensures { IsTrue result ↔ IsOver role handed_out others_ready }
{
    let least = match role {
        Role::Agent => AGENT_PIECE,
        Role::Operator | Role::Reader => 1,
    };
    others_ready && least <= handed_out
}
