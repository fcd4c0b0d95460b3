//! The hosts under which a program answers. A page of another site whose name leads here gets no
//! answer.
ghost use Rattle.std.specs.Prelude.{◌≡◌, ◌≤◌, ◌==◌, not, length, codes};
ghost use Rattle.std.specs.List.{list_any, prefix_len};
ghost use Rattle.std.specs.Str.{str_eq_ignore_ascii_case};
ghost use Rattle.http.specs.Request.{head_of};
ghost use Rattle.http_header.specs.HeaderMap.{get};
ghost use Rattle.web_connections.specs.Hosts.{host_name, begins_bracket, is_number, is_served, answers_host};

use bytes::Bytes;
use http::Request;
use http::header::HOST;

fn name_len(value: &[u8]) -> usize
    ensures value { result ≡ prefix_len (λ byte. not (byte == 58)) value.now }
    ensures within { result ≤ length value.now }
{
    value.iter().take_while(|byte| **byte != b':').count()
}

// The name of a host, without its port.
fn host_name(value: &[u8]) -> &[u8]
    ensures { result.now ≡ host_name value.now }
{
    &value[..name_len(value)]
}

fn begins_bracket(value: &[u8]) -> bool
    ensures { result ≡ begins_bracket value.now }
{
    match value.first() {
        Some(byte) => *byte == b'[',
        None => false,
    }
}

fn is_number(name: &[u8]) -> bool
    ensures { result ≡ is_number name.now }
{
    name.iter()
        .all(|byte| byte.is_ascii_digit() || *byte == b'.')
}

fn is_named(hosts: &[&str], name: &[u8]) -> bool
    ensures { result
        ≡ list_any (λ host. str_eq_ignore_ascii_case host.now name.now) hosts.now }
{
    hosts
        .iter()
        .any(|host| host.as_bytes().eq_ignore_ascii_case(name))
}

fn is_served(hosts: &[&str], value: &[u8]) -> bool
    ensures { result ≡ is_served hosts.now value.now }
{
    let name = host_name(value);
    begins_bracket(value)
        || is_number(name)
        || name.eq_ignore_ascii_case(b"localhost")
        || is_named(hosts, name)
}

/// Whether a request is for a host under which a program with these names answers, or for none.
pub fn answers_host(hosts: &[&str], request: &Request<Bytes>) -> bool
    ensures { result ≡ answers_host hosts.now (get (head_of request.now).headers (codes "host")) }
{
    match request.headers().get(HOST) {
        Some(value) => is_served(hosts, value.as_bytes()),
        None => true,
    }
}
