ghost use Rattle.std.specs.Prelude.{◌≡◌, map};
ghost use Rattle.std.specs.Iterator.{YieldsFirst, item_count};
ghost use Rattle.gate_model.specs.declared.object.Kind.TheVariants.{Service};
ghost use Rattle.gate_model.specs.Table.{object_at};

use gate_model::{Kind, ObjectId};
use std::marker::Model;

/// The services of a host, in table order. Contracts see the list of those that are left.
#[derive(Drop)]
pub struct Services<'a> {
    places: &'a [u32],
}

impl<'a> Model for Services<'a> {
    ghost use Rattle.std.specs.Prelude.{List, map};
    ghost use Rattle.gate_model.specs.declared.object.Kind.TheVariants.{Service};
    ghost use Rattle.gate_model.specs.declared.object.ObjectId.{ObjectId};
    ghost use Rattle.gate_model.specs.Table.{object_at};

    ghost Value = { List ObjectId };

    ghost view = { λ left. map (object_at Service) left.places.now };
}

impl<'a> Services<'a> {
    pub(crate) fn new(places: &'a [u32]) -> Services<'a>
        ensures { result ≡ map (object_at Service) places.now }
    {
        Services { places }
    }
}

impl<'a> Iterator for Services<'a> {
    type Item = ObjectId;

    ghost next_gives = { YieldsFirst (λ left. left) };

    ghost remaining = { item_count (λ left. left) };

    fn next(&mut self) -> Option<ObjectId> {
        let (place, rest) = self.places.split_first()?;
        self.places = rest;
        Some(ObjectId {
            place: *place,
            kind: Kind::Service,
        })
    }
}
