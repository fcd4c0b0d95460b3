//! The header fields of a request that the tests look at.

ghost use Rattle.std.specs.Prelude.{◌≡◌, ◌==◌, codes, option_map};
ghost use Rattle.std.specs.Char.{is_ascii_digit};
ghost use Rattle.std.specs.List.{list_all};
ghost use Rattle.std.specs.Str.{bytes_eq};
ghost use Rattle.desk_guard.specs.Fields.{values_of, only, is_port, is_host_of, host_in, is_own_origin, is_same_origin};

use bytes::Bytes;
use http::Request;

/// The value of a header field that is there once. A name is read in any case.
pub fn only_value<'a>(request: &'a Request<Bytes>, name: &str) -> Option<&'a [u8]>
    ensures { option_map (λ value. value.now) result ≡ only (values_of name.now request.entry.now) }
{
    let mut values = request.headers().get_all(name).iter();
    let first = values.next()?;
    match values.next() {
        None => Some(first.as_bytes()),
        Some(_) => None,
    }
}

fn is_number(text: &[u8]) -> bool
    ensures { result ≡ list_all is_ascii_digit text.now }
{
    text.iter().all(|byte| byte.is_ascii_digit())
}

fn is_port(text: &[u8]) -> bool
    ensures { result ≡ is_port text.now }
{
    match text.split_first() {
        Some((byte, rest)) => *byte == b':' && is_number(rest),
        None => true,
    }
}

/// Whether a value of Host is this host, in any case, with a port or without one.
pub fn is_host_of(host: &[u8], value: &[u8]) -> bool
    ensures { result ≡ is_host_of host.now value.now }
{
    match value.split_at_checked(host.len()) {
        Some((name, port)) => host.eq_ignore_ascii_case(name) && is_port(port),
        None => false,
    }
}

// The host of an origin of HTTP.
fn host_in(origin: &[u8]) -> Option<&[u8]>
    ensures { option_map (λ host. host.now) result ≡ host_in origin.entry.now }
{
    if let Some(host) = origin.strip_prefix(b"https://") {
        return Some(host);
    }
    origin.strip_prefix(b"http://")
}

/// Whether Origin is there once, and names this host.
pub fn is_own_origin(request: &Request<Bytes>, host: &[u8]) -> bool
    ensures { result ≡ is_own_origin host.now (values_of (codes "origin") request.now) }
{
    let Some(origin) = only_value(request, "origin") else {
        return false;
    };
    match host_in(origin) {
        Some(named) => named == host,
        None => false,
    }
}

/// Whether each Sec-Fetch-Site is `same-origin`.
pub fn is_same_origin(request: &Request<Bytes>) -> bool
    ensures { result ≡ is_same_origin (values_of (codes "sec-fetch-site") request.now) }
{
    let mut sites = request.headers().get_all("sec-fetch-site").iter();
    while let Some(site) = sites.next() {
        if site.as_bytes() != b"same-origin".as_slice() {
            return false;
        }
    }
    true
}
