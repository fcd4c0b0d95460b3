//! Responses, each with the header fields that keep a browser from running or loading anything
//! else.
ghost use Rattle.std.specs.Prelude.{◌≡◌, ◌∷◌, [], ◌++◌, IfOk, OnOk, codes, string_bytes};
ghost use Rattle.std.specs.List.{list_any};
ghost use Rattle.http.specs.Request.{head_of};
ghost use Rattle.http.specs.StatusCode.{code_digits};
ghost use Rattle.http_header.specs.HeaderMap.{get_all};
ghost use Rattle.http_server.specs.Response.{IsBlank, IsResponse};
ghost use Rattle.web_connections.specs.Answers.{Extends, IsDated, guard_fields, body_fields, IsSent, entity_tag, has_tag, IsKept, advice_of, IsRefusal};

use bytes::Bytes;
use http::header::{
    ALLOW, CACHE_CONTROL, CONNECTION, CONTENT_SECURITY_POLICY, CONTENT_TYPE, DATE, ETAG,
    HeaderName, IF_NONE_MATCH, REFERRER_POLICY, X_CONTENT_TYPE_OPTIONS,
};
use http::{HeaderValue, Request, StatusCode};
use http_server::Response;
use httpdate::HttpDate;
use memchr::memmem::find_iter;
use sha2::{Digest, Sha256};
use std::alloc::{AllocError, Global};

// No script runs and nothing but the style is loaded, even where an escape were missing.
fn add_guards(response: &mut Response) -> Result<(), AllocError>
    ensures { OnOk result (Extends guard_fields [] response.old response.new) }
{
    let policy = HeaderValue::from_static(
        "default-src 'none'; style-src 'self'; form-action 'self'; base-uri 'none'; frame-ancestors 'none'",
    );
    response.add_header(CONTENT_SECURITY_POLICY, policy)?;
    response.add_header(X_CONTENT_TYPE_OPTIONS, HeaderValue::from_static("nosniff"))?;
    response.add_header(REFERRER_POLICY, HeaderValue::from_static("no-referrer"))?;
    let name = HeaderName::from_static("cross-origin-resource-policy");
    response.add_header(name, HeaderValue::from_static("same-origin"))?;
    response.add_header(CONNECTION, HeaderValue::from_static("close"))
}

// Adds a body of a type, that may be kept as `caching` says.
fn fill(
    response: &mut Response,
    kind: HeaderValue,
    caching: HeaderValue,
    body: Vec<u8>,
) -> Result<(), AllocError>
    ensures { OnOk result (Extends (body_fields kind.bytes caching.bytes) body.items
        response.old response.new) }
{
    response.add_header(CONTENT_TYPE, kind)?;
    response.add_header(CACHE_CONTROL, caching)?;
    add_guards(response)?;
    response.body.push(Bytes::from_vec(body)?)
}

/// Answers a body of a type with a status, that is not kept.
pub fn send(
    response: &mut Response,
    status: StatusCode,
    kind: HeaderValue,
    body: Vec<u8>,
) -> Result<(), AllocError>
    requires { IsBlank response.old }
    ensures { OnOk result (IsSent status kind.bytes body.items response.new) }
{
    response.status = status;
    fill(response, kind, HeaderValue::from_static("no-store"), body)
}

fn entity_tag(alloc: Global, body: &[u8]) -> Result<String, AllocError>
    ensures { IfOk result (λ tag. string_bytes tag ≡ entity_tag body.now) }
{
    let mut hasher = Sha256::new();
    hasher.update(body);
    let digits = hex::encode(alloc, hasher.finalize().as_slice())?;
    let mut tag = String::from_str(alloc, "\"")?;
    tag.push_str(digits.as_str())?;
    tag.push_str("\"")?;
    Ok(tag)
}

fn has_tag(tag: &[u8], value: &[u8]) -> bool
    ensures { result ≡ has_tag tag.now value.now }
{
    value == b"*".as_slice() || find_iter(value, tag).next().is_some()
}

// Whether a request has a body with this tag already.
fn is_known(request: &Request<Bytes>, tag: &[u8]) -> bool
    ensures { result ≡ list_any (λ value. has_tag tag.now value.bytes)
        (get_all (head_of request.now).headers (codes "if-none-match")) }
{
    let values = request.headers().get_all(IF_NONE_MATCH);
    values.iter().any(|value| has_tag(tag, value.as_bytes()))
}

// Answers that a body with this tag is there already.
fn send_known(response: &mut Response, tag: HeaderValue) -> Result<(), AllocError>
    requires { IsBlank response.old }
    ensures { OnOk result (IsResponse 304 ((codes "etag", tag.bytes)
        ∷ (codes "cache-control", codes "max-age=300") ∷ guard_fields) [] response.new) }
{
    response.status = StatusCode::NOT_MODIFIED;
    response.add_header(ETAG, tag)?;
    response.add_header(CACHE_CONTROL, HeaderValue::from_static("max-age=300"))?;
    add_guards(response)
}

/// Answers a body of a type, that may be kept for five minutes, with its entity tag; or 304 without a
/// body, where the request has that tag in a field `If-None-Match`. The only error is out of memory.
pub fn send_kept(
    response: &mut Response,
    alloc: Global,
    request: &Request<Bytes>,
    kind: HeaderValue,
    body: Vec<u8>,
) -> Result<(), AllocError>
    requires { IsBlank response.old }
    ensures { OnOk result (IsKept kind.bytes body.items
        (get_all (head_of request.now).headers (codes "if-none-match")) response.new) }
{
    let tag = entity_tag(alloc, body.as_slice())?;
    // A tag has digits and quotes alone, which a field may have.
    let Ok(field) = HeaderValue::from_bytes(alloc, tag.as_str().as_bytes()) else {
        return Err(AllocError);
    };
    if is_known(request, tag.as_str().as_bytes()) {
        return send_known(response, field);
    }
    response.add_header(ETAG, field)?;
    fill(
        response,
        kind,
        HeaderValue::from_static("max-age=300"),
        body,
    )
}

// What is wrong, and what to do.
fn advice_of(status: StatusCode) -> &'static str
    ensures { result.now ≡ advice_of status }
{
    let code = status.as_u16();
    if code == 404 {
        ": nothing is at this path. The status is at /\n"
    } else if code == 421 {
        ": this server doesn't answer to this name. Use localhost or an IP address, or start it with --host NAME\n"
    } else {
        ""
    }
}

fn fill_status(response: &mut Response, alloc: Global) -> Result<(), AllocError>
    ensures { OnOk result (Extends
        (body_fields (codes "text/plain; charset=utf-8") (codes "no-store"))
        (code_digits response.old.status ++ advice_of response.old.status)
        response.old response.new) }
{
    let mut body = Vec::from_slice(alloc, response.status.as_str().as_bytes())?;
    body.extend_from_slice(advice_of(response.status).as_bytes())?;
    fill(
        response,
        HeaderValue::from_static("text/plain; charset=utf-8"),
        HeaderValue::from_static("no-store"),
        body,
    )
}

/// Refuses a request: a host or a path that is not served.
pub fn refuse(response: &mut Response, status: StatusCode, alloc: Global) -> Result<(), AllocError>
    requires { IsBlank response.old }
    ensures { OnOk result (IsRefusal status [] response.new) }
{
    response.status = status;
    fill_status(response, alloc)
}

/// Refuses a method other than GET and HEAD.
pub fn refuse_method(response: &mut Response, alloc: Global) -> Result<(), AllocError>
    requires { IsBlank response.old }
    ensures { OnOk result
        (IsRefusal 405 ((codes "allow", codes "GET, HEAD") ∷ []) response.new) }
{
    response.status = StatusCode::METHOD_NOT_ALLOWED;
    response.add_header(ALLOW, HeaderValue::from_static("GET, HEAD"))?;
    fill_status(response, alloc)
}

/// Adds the date of a clock, in seconds since 1970. A clock of 32 bits has a date, and a date no byte
/// that a field may not have, so the only error is out of memory.
pub fn add_date(response: &mut Response, alloc: Global, clock: u32) -> Result<(), AllocError>
    ensures { OnOk result (IsDated clock response.old response.new) }
{
    let Ok(date) = HttpDate::from_unix_secs(u64::from(clock)) else {
        return Err(AllocError);
    };
    let Ok(value) = HeaderValue::from_bytes(alloc, &date.to_bytes()) else {
        return Err(AllocError);
    };
    response.add_header(DATE, value)
}
