//! The responses with the status and with the changes of gateways, and with the style of their pages.
ghost use Rattle.std.specs.Prelude.{◌≡◌, IfOk, OnOk, codes};
ghost use Rattle.std.specs.List.{list_any};
ghost use Rattle.form_urlencoded.specs.Form.{raw_pairs};
ghost use Rattle.http.specs.Request.{head_of};
ghost use Rattle.http_header.specs.HeaderMap.{get_all};
ghost use Rattle.http_server.specs.Response.{IsBlank};
ghost use Rattle.web_connections.specs.Answers.{IsKept};
ghost use Rattle.status_serving.specs.Sending.{is_reached, reached_code, status_code, is_named, has_object, shows_at, object_code, IsStatusOf, AreChangesOf, IsObjectOf};

use crate::bodies::{Form, gateways_of, status_body, status_kind};
use crate::changing::{ChangesForm, changes_body, kind_of};
use crate::headings::Heading;
use crate::naming::object_body;
use bytes::Bytes;
use http::{HeaderValue, Request, StatusCode};
use http_server::Response;
use page_watching::{Seen, Watch};
use status_merge::{Gateway, is_at};
use status_reading::ShownObject;
use status_view::{STYLE, read_object_name};
use std::alloc::{AllocError, Global};
use std::sync::Wait;
use web_connections::{send, send_kept};

/// The gateways that are shown, and how.
pub struct Site<'a, R> {
    pub rt: &'a R,
    pub alloc: Global,
    pub watch: &'a Watch<'a>,
    pub heading: Heading<'a>,
}

impl<'a, R> Clone for Site<'a, R> {
    fn clone(&self) -> Result<Site<'a, R>, AllocError> {
        Ok(*self)
    }
}

impl<'a, R> Copy for Site<'a, R> {}

/// Answers with the style of the pages, which may be kept for five minutes, or that the request has it
/// already. The only error is out of memory.
pub fn send_style(
    alloc: Global,
    request: &Request<Bytes>,
    response: &mut Response,
) -> Result<(), AllocError>
    requires { IsBlank response.old }
    ensures { OnOk result (IsKept (codes "text/css; charset=utf-8") STYLE.now
        (get_all (head_of request.now).headers (codes "if-none-match")) response.new) }
{
    let body = Vec::from_slice(alloc, STYLE.as_bytes())?;
    let kind = HeaderValue::from_static("text/css; charset=utf-8");
    send_kept(response, alloc, request, kind, body)
}

fn is_any_reached(seen: &[Seen<'_>]) -> bool
    ensures { result ≡ list_any is_reached seen.now }
{
    seen.iter().any(|one| one.memory.last.is_some())
}

// Without a page of any gateway the service is unavailable.
fn reached_code(seen: &[Seen<'_>]) -> StatusCode
    ensures { result ≡ reached_code seen.now }
{
    if is_any_reached(seen) {
        StatusCode::OK
    } else {
        StatusCode::SERVICE_UNAVAILABLE
    }
}

fn status_code(seen: &[Seen<'_>], form: Form) -> StatusCode
    ensures { result ≡ status_code seen.now form }
{
    match form {
        Form::Html | Form::Comments | Form::Downtimes | Form::Json => reached_code(seen),
        Form::Metrics => StatusCode::OK,
    }
}

fn is_named(host: &[u8], service: &[u8], row: &ShownObject<'_>) -> bool
    ensures { result ≡ is_named host.now service.now row.now }
{
    row.host == host && row.service == service
}

fn is_among(host: &[u8], service: &[u8], rows: &[ShownObject<'_>]) -> bool
    ensures { result ≡ list_any (is_named host.now service.now) rows.now }
{
    rows.iter().any(|row| is_named(host, service, row))
}

// Whether a gateway's page shows the object of these names.
fn has_object(host: &[u8], service: &[u8], gateway: &Gateway<'_>) -> bool
    ensures { result ≡ has_object host.now service.now gateway.now }
{
    match &gateway.page {
        Ok(page) => is_among(host, service, page.objects.as_slice()),
        Err(_) => false,
    }
}

// Whether a gateway is asked for, and its page shows the object of these names.
fn shows_at(at: &[u8], host: &[u8], service: &[u8], gateway: &Gateway<'_>) -> bool
    ensures { result ≡ shows_at at.now host.now service.now gateway.now }
{
    is_at(at, gateway.name.as_bytes()) && has_object(host, service, gateway)
}

fn is_any_showing(at: &[u8], host: &[u8], service: &[u8], gateways: &[Gateway<'_>]) -> bool
    ensures { result ≡ list_any (shows_at at.now host.now service.now) gateways.now }
{
    gateways
        .iter()
        .any(|gateway| shows_at(at, host, service, gateway))
}

// No page of a gateway shows the object that a query names: there is none.
fn object_code(
    alloc: Global,
    seen: &[Seen<'_>],
    gateways: &[Gateway<'_>],
    query: &str,
) -> Result<StatusCode, AllocError>
    ensures { IfOk result (λ code. code ≡ object_code seen.now gateways.now (raw_pairs query.now)) }
{
    if !is_any_reached(seen) {
        return Ok(StatusCode::SERVICE_UNAVAILABLE);
    }
    let name = read_object_name(alloc, query)?;
    let at = name.gateway.as_slice();
    if is_any_showing(at, name.host.as_slice(), name.service.as_slice(), gateways) {
        Ok(StatusCode::OK)
    } else {
        Ok(StatusCode::NOT_FOUND)
    }
}

/// Answers with what a query selects of the gateways' status, at a clock in seconds since 1970, in a
/// form; `whole`: with its body. The only error is out of memory.
pub fn send_status<R: Wait>(
    site: &Site<'_, R>,
    now: u32,
    form: Form,
    query: &str,
    whole: bool,
    response: &mut Response,
) -> Result<(), AllocError>
    requires { IsBlank response.old }
    ensures { OnOk result (IsStatusOf site.now.heading site.now.watch.now.places.now now
        query.now form whole response.new) }
{
    let seen = site.watch.seen(site.rt, site.alloc)?;
    let known = seen.as_slice();
    let body = status_body(site.alloc, &site.heading, known, query, now, form, whole)?;
    send(response, status_code(known, form), status_kind(form), body)
}

/// Answers with the last changes of states, at a clock in seconds since 1970, in a form; `whole`: with
/// its body. The only error is out of memory.
pub fn send_changes<R: Wait>(
    site: &Site<'_, R>,
    now: u32,
    form: ChangesForm,
    whole: bool,
    response: &mut Response,
) -> Result<(), AllocError>
    requires { IsBlank response.old }
    ensures { OnOk result (AreChangesOf site.now.heading site.now.watch.now.places.now now
        form whole response.new) }
{
    let seen = site.watch.seen(site.rt, site.alloc)?;
    let body = changes_body(site.alloc, &site.heading, seen.as_slice(), now, form, whole)?;
    send(response, StatusCode::OK, kind_of(form), body)
}

/// Answers with the page of the object that a query names, at a clock in seconds since 1970; `whole`:
/// with its body. The only error is out of memory.
pub fn send_object<R: Wait>(
    site: &Site<'_, R>,
    now: u32,
    query: &str,
    whole: bool,
    response: &mut Response,
) -> Result<(), AllocError>
    requires { IsBlank response.old }
    ensures { OnOk result (IsObjectOf site.now.heading site.now.watch.now.places.now now
        query.now whole response.new) }
{
    let seen = site.watch.seen(site.rt, site.alloc)?;
    let known = seen.as_slice();
    let gateways = gateways_of(site.alloc, known, u64::from(now))?;
    let shown = gateways.as_slice();
    let code = object_code(site.alloc, known, shown, query)?;
    let body = object_body(site.alloc, &site.heading, known, shown, query, now, whole)?;
    let kind = HeaderValue::from_static("text/html; charset=utf-8");
    send(response, code, kind, body)
}
