//! The keys by which objects are found: the bytes of a host's name, or of a host's and a service's.

ghost use Rattle.std.specs.Prelude.{◌≡◌, None, Some, is_some, IfSome};
ghost use Rattle.std.specs.Option.{option_copied};
ghost use Rattle.gate_table.specs.inner.Keys.{key_of, is_short};

use arrayvec::ArrayVec;
use gate_model::{HOST_NAME, SERVICE_NAME};

const KEY_BYTES: usize = 1 + HOST_NAME + SERVICE_NAME;

const SERVICE_MARK: u8 = 128;

/// The bytes by which an object is found. They are on the stack, so a lookup allocates nothing.
pub type Key = ArrayVec<u8, KEY_BYTES>;

fn host_key(host: &[u8]) -> Option<Key>
    ensures value { IfSome result (λ key. key.items ≡ key_of host.now None) }
    ensures short { is_some result ≡ is_short host.now None }
{
    if host.len() > HOST_NAME {
        return None;
    }
    let mut key = ArrayVec::new();
    key.push(host.len() as u8);
    key.try_extend_from_slice(host).ok()?;
    Some(key)
}

fn service_key(host: &[u8], service: &[u8]) -> Option<Key>
    ensures value { IfSome result (λ key. key.items ≡ key_of host.now (Some service.now)) }
    ensures short { is_some result ≡ is_short host.now (Some service.now) }
{
    if host.len() > HOST_NAME || service.len() > SERVICE_NAME {
        return None;
    }
    let mut key = ArrayVec::new();
    key.push(host.len() as u8 + SERVICE_MARK);
    key.try_extend_from_slice(host).ok()?;
    key.try_extend_from_slice(service).ok()?;
    Some(key)
}

/// The key of an object's names. Names that are longer than any of a table have none.
pub fn key_of(host: &[u8], service: Option<&[u8]>) -> Option<Key>
    ensures value { IfSome result (λ key.
        key.items ≡ key_of host.now (option_copied service.entry)) }
    ensures short { is_some result ≡ is_short host.now (option_copied service.entry) }
{
    match service {
        None => host_key(host),
        Some(service) => service_key(host, service),
    }
}
