//! The places of gateways, as words name them, and how often their pages are fetched.
ghost use Rattle.std.specs.Prelude.{◌≡◌, IsOk, IfOk, IsTrue, IsFalse, Err, MatchOption, MatchResult, map};
ghost use Rattle.std.specs.List.{Any, IsDistinct, list_any};
ghost use Rattle.std.specs.Str.{bytes_eq};
ghost use Rattle.std.specs.Net.Grammar.{IsSocketText};
ghost use Rattle.page_watching.specs.declared.places.Place.{Place as Named};
ghost use Rattle.page_watching.specs.declared.places.PlacesFault.TheVariants.{BadPlace, SameName};
ghost use Rattle.page_watching.specs.Places.{texts, name_of, address_of, Names, NameAll, WritesEvery};

use std::alloc::{AllocError, AllocFailed, Global};
use std::net::SocketAddr;
use thiserror::Error;

/// A gateway's name, and the address of its pages port.
#[derive(Clone, Copy)]
pub struct Place<'a> {
    pub name: &'a str,
    pub address: SocketAddr,
}

/// Why values name no places.
#[derive(Clone, Copy, Debug, Error)]
pub enum PlacesFault {
    /// One has an empty name, or an address that is no IP address and port.
    #[error("not [NAME=]ADDRESS:PORT")]
    BadPlace,
    /// Two have one name.
    #[error("two of one name")]
    SameName,
    /// Memory ran out.
    #[error("out of memory")]
    OutOfMemory,
}

impl From<AllocError> for PlacesFault {
    ghost use Rattle.page_watching.specs.declared.places.PlacesFault.TheVariants.{OutOfMemory};

    ghost from_gives = { λ _ fault. fault ≡ OutOfMemory };

    fn from(_: AllocError) -> PlacesFault {
        PlacesFault::OutOfMemory
    }
}

impl<T: Drop> From<AllocFailed<T>> for PlacesFault {
    ghost use Rattle.page_watching.specs.declared.places.PlacesFault.TheVariants.{OutOfMemory};

    ghost from_gives = { λ _ fault. fault ≡ OutOfMemory };

    fn from(_: AllocFailed<T>) -> PlacesFault {
        PlacesFault::OutOfMemory
    }
}

/// The address that a text is, as `127.0.0.1:8080` or `[::1]:8080`. `None` where it is no IP address
/// and port.
pub fn address_in(text: &str) -> Option<SocketAddr>
    ensures { MatchOption result
        ((address : _) → IsSocketText text.now address → ⊥) (IsSocketText text.now) }
{
    match SocketAddr::parse_ascii(text.as_bytes()) {
        Ok(address) => Some(address),
        Err(_) => None,
    }
}

// `NAME=ADDRESS`, or an address, which is its own name.
fn parts_of<'a>(value: &'a str) -> (&'a str, &'a str)
    ensures name { result.0.now ≡ name_of value.entry.now }
    ensures address { result.1.now ≡ address_of value.entry.now }
{
    match value.split_once('=') {
        Some((name, address)) => (name, address),
        None => (value, value),
    }
}

fn place_in<'a>(value: &'a str) -> Option<Place<'a>>
    ensures { MatchOption result
        ((place : Named) → Names value.entry.now place → ⊥) (Names value.entry.now) }
{
    let (name, text) = parts_of(value);
    if name.is_empty() {
        return None;
    }
    match address_in(text) {
        Some(address) => Some(Place { name, address }),
        None => None,
    }
}

fn is_named(places: &[Place<'_>], name: &str) -> bool
    ensures { result ≡ list_any (λ place. bytes_eq place.name.now name.now) places.now }
{
    places.iter().any(|place| place.name == name)
}

/// The places that values name, in their order, each `NAME=ADDRESS`, or an address, which is its own
/// name. A name is not empty, and no two are the same.
///
/// `BadPlace` and `SameName` as their variants say. `OutOfMemory` may be returned in place of any
/// answer.
pub fn places_in<'a>(alloc: Global, values: &[&'a str]) -> Result<Vec<Place<'a>>, PlacesFault>
    ensures places { IfOk result (λ places. NameAll (texts values.now) places.items) }
    ensures distinct { IsOk result → IsDistinct bytes_eq (map name_of (texts values.now)) }

    ensures bad { result ≡ Err BadPlace
        → Any (λ value. (place : Named) → Names value place → ⊥) (texts values.now) }
    ensures same { result ≡ Err SameName → IsDistinct bytes_eq (map name_of (texts values.now)) → ⊥ }
{
    let mut places: Vec<Place<'a>> = Vec::new(alloc);
    for value in values {
        let Some(place) = place_in(*value) else {
            return Err(PlacesFault::BadPlace);
        };
        if is_named(places.as_slice(), place.name) {
            return Err(PlacesFault::SameName);
        }
        places.push(place)?;
    }
    Ok(places)
}

/// The seconds between two fetches of a page that a text writes: 1 to 30. `None` where it writes no
/// such number. Own rule.
pub fn every_in(text: &str) -> Option<u32>
    ensures { MatchOption result
        ((seconds : _) → WritesEvery text.now seconds → ⊥) (WritesEvery text.now) }
{
    match text.parse::<u32>() {
        Ok(seconds) if (1..=30).contains(&seconds) => Some(seconds),
        _ => None,
    }
}
