ghost use Rattle.std.specs.Prelude.{◌≡◌, map, IfOk};
ghost use Rattle.std.specs.List.{slice_split, list_all, list_any};
ghost use Rattle.std.specs.Str.{bytes_eq};
ghost use Rattle.desk_words.specs.Words.{is_comma, has_port, have_ports};

use page_watching::Place;
use std::alloc::{AllocError, Global};

/// The names between commas.
pub fn users_in(alloc: Global, text: &[u8]) -> Result<Vec<&[u8]>, AllocError>
    ensures { IfOk result (λ users.
        map (λ user. user.now) users.items ≡ slice_split is_comma text.now) }
{
    text.split(|byte| *byte == b',').collect(alloc)
}

fn has_port(ports: &[Place<'_>], name: &str) -> bool
    ensures { result ≡ has_port ports.now name.now }
{
    ports.iter().any(|port| port.name == name)
}

/// Whether each place has one of these ports, by its name.
pub fn have_ports(places: &[Place<'_>], ports: &[Place<'_>]) -> bool
    ensures { result ≡ have_ports places.now ports.now }
{
    places.iter().all(|place| has_port(ports, place.name))
}
