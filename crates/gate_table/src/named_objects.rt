//! The objects of a table, found by their names, and the services of each host.

ghost use Rattle.std.specs.Prelude.{◌≡◌, ◌<◌, List, [], ◌∷◌, ◌++◌, None, true, length, map, set, IfOk, OnOk};
ghost use Rattle.std.specs.Map.{keys_of, values_of};
ghost use Rattle.std.specs.List.{position_from, list_all};
ghost use Rattle.std.specs.Option.{option_copied};
ghost use Rattle.std.specs.Str.{bytes_eq};
ghost use Rattle.gate_model.specs.declared.object.ObjectLine.{ObjectLine};
ghost use Rattle.gate_model.specs.Table.{place_of};
ghost use Rattle.gate_table.specs.inner.Keys.{line_key, is_short_line};
ghost use Rattle.gate_table.specs.inner.NamedObjects.{row_at};

use crate::keys::key_of;
use indexmap::IndexMap;
use std::alloc::{AllocError, Global};
use std::marker::Model;

/// Objects, each found by its key. A key is kept once, and its index is the place of its object.
#[derive(Drop)]
pub struct NamedObjects {
    // With each key, the places of the services that its object has as a host.
    services: IndexMap<Vec<u8>, Vec<u32>>,
}

impl Model for NamedObjects {
    ghost use Rattle.std.specs.Prelude.{ℕ, List};
    ghost use Rattle.gate_table.specs.inner.NamedObjects.{shown};

    ghost Value = { List (List ℕ × List ℕ) };

    ghost view = { λ objects. shown objects.services.entries };
}

impl NamedObjects {
    pub fn new(alloc: Global) -> NamedObjects
        ensures { result ≡ [] }
    {
        NamedObjects {
            services: IndexMap::new(alloc),
        }
    }

    /// The place of the object of this key.
    pub fn place(&self, key: &[u8]) -> Option<usize>
        ensures { result ≡ position_from (bytes_eq key.now) 0 (keys_of self.now) }
    {
        self.services.get_index_of(key)
    }

    /// The place of the object of these names, in a table whose lines have these keys.
    pub fn find(&self, host: &[u8], service: Option<&[u8]>) -> Option<usize>
        ensures { (lines : List ObjectLine)
            → keys_of self.now ≡ map line_key lines → list_all is_short_line lines ≡ true
            → result ≡ place_of lines host.now (option_copied service.entry) }
    {
        match key_of(host, service) {
            None => None,
            Some(key) => self.place(&key),
        }
    }

    /// The places of the services of the host at this place.
    pub fn services(&self, host: usize) -> &[u32]
        requires { host < length self.now }
        ensures { result.now ≡ row_at (values_of self.now) host }
    {
        &self.services[host]
    }

    /// Adds an object of a new key, and returns its place.
    pub fn add(&mut self, alloc: Global, key: &[u8]) -> Result<usize, AllocError>
        requires { position_from (bytes_eq key.now) 0 (keys_of self.old) ≡ None }
        ensures place { IfOk result (λ place. place ≡ length self.old) }
        ensures added { OnOk result (self.new ≡ self.old ++ (key.now, []) ∷ []) }
    {
        let owned = Vec::from_slice(alloc, key)?;
        let (place, _) = self.services.insert_full(owned, Vec::new(alloc))?;
        Ok(place)
    }

    /// Adds an object of a new key as a service of the host at this place.
    pub fn add_service(&mut self, alloc: Global, host: usize, key: &[u8]) -> Result<(), AllocError>
        requires few { length self.old < 16384 }
        requires host { host < length self.old }
        requires new { position_from (bytes_eq key.now) 0 (keys_of self.old) ≡ None }
        ensures keys { OnOk result (keys_of self.new ≡ keys_of self.old ++ key.now ∷ []) }
        ensures services { OnOk result (values_of self.new
            ≡ set (values_of self.old ++ [] ∷ []) host
            (row_at (values_of self.old) host ++ length self.old ∷ [])) }
    {
        let place = self.add(alloc, key)?;
        self.services[host].push(place as u32)?;
        Ok(())
    }
}
