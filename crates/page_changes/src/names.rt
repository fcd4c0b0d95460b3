//! The fields of a status page that name an object, and the row that has them.

ghost use Rattle.std.specs.Prelude.{◌≡◌, map, IfOk};
ghost use Rattle.std.specs.Option.{option_map};
ghost use Rattle.gate_model.specs.Escaping.{escaped};
ghost use Rattle.status_reading.specs.Rows.{object_view};
ghost use Rattle.page_changes.specs.Names.{shown_names, has_names, kind_of_field, is_service_of, row_with};

use gate_model::{Kind, Name, Text, push_escaped};
use status_reading::ShownObject;
use std::alloc::{AllocError, Global};

/// The fields of an object: the host's name, and that of the service, which is empty for a host.
#[derive(Drop)]
pub struct Names {
    pub host: Text,
    pub service: Text,
}

/// A text as a page shows it: escaped. The only error is out of memory.
pub fn shown(alloc: Global, text: &[u8]) -> Result<Text, AllocError>
    ensures { IfOk result (λ field. field ≡ escaped text.now) }
{
    let mut field = Vec::with_capacity(alloc, text.len())?;
    push_escaped(&mut field, text)?;
    Ok(Text::new(field))
}

impl Names {
    /// The fields of the object of these names.
    pub fn of(
        alloc: Global,
        host: &Name<'_>,
        service: &Option<Name<'_>>,
    ) -> Result<Names, AllocError>
        ensures { IfOk result (λ names. names ≡ shown_names host.now service.now) }
    {
        let host = shown(alloc, host.bytes())?;
        let service = match service {
            Some(name) => shown(alloc, name.bytes())?,
            None => Text::new(Vec::new(alloc)),
        };
        Ok(Names { host, service })
    }

    /// Whether these are the fields of the object.
    pub fn are(&self, host: &[u8], service: &[u8]) -> bool
        ensures { result ≡ has_names self.now host.now service.now }
    {
        host == self.host.bytes() && service == self.service.bytes()
    }

    /// Whether these are the fields of a service of the host.
    pub fn is_host_of(&self, host: &[u8], service: &[u8]) -> bool
        ensures { result ≡ is_service_of self.now.host host.now service.now }
    {
        host == self.host.bytes() && !service.is_empty()
    }
}

/// The kind of the object whose field of the service this is.
pub fn kind_of_field(field: &[u8]) -> Kind
    ensures { result ≡ kind_of_field field.now }
{
    if field.is_empty() {
        Kind::Host
    } else {
        Kind::Service
    }
}

/// The first row with these names.
pub fn row_of<'a>(rows: &[ShownObject<'a>], names: &Names) -> Option<ShownObject<'a>>
    ensures { option_map object_view result ≡ row_with names.now (map object_view rows.now) }
{
    for row in rows {
        if names.are(row.host, row.service) {
            return Some(*row);
        }
    }
    None
}
