//! Which names hosts and services may have.

ghost use Rattle.std.specs.Prelude.{◌≡◌, ◌<◌, length};
ghost use Rattle.std.specs.List.{list_any};
ghost use Rattle.gate_table.specs.Names.{is_barred, is_padded, is_name};
ghost use Rattle.gate_table.specs.Faults.{is_named};

use gate_model::{HOST_NAME, ObjectLine, SERVICE_NAME};

fn is_barred(byte: u8) -> bool
    ensures { result ≡ is_barred byte }
{
    byte < 32 || byte == 127 || byte == b';'
}

fn has_barred(name: &[u8]) -> bool
    ensures { result ≡ list_any is_barred name.now }
{
    name.iter().any(|byte| is_barred(*byte))
}

fn is_padded(name: &[u8]) -> bool
    requires { 0 < length name.now }
    ensures { result ≡ is_padded name.now }
{
    name[0] == b' ' || name[name.len() - 1] == b' '
}

fn is_name(name: &[u8], most: usize) -> bool
    ensures { result ≡ is_name most name.now }
{
    !name.is_empty() && name.len() <= most && !is_padded(name) && !has_barred(name)
}

/// Whether the line's names may be names of a host and a service.
pub fn is_named(line: &ObjectLine) -> bool
    ensures { result ≡ is_named line.now }
{
    is_name(line.host.bytes(), HOST_NAME)
        && match &line.service {
            None => true,
            Some(service) => is_name(service.bytes(), SERVICE_NAME),
        }
}
