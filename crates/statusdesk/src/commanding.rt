//! A form that is posted: its command is sent to the gateways that it is for.

ghost use Rattle.std.specs.Prelude.{◌≡◌, [], ◌++◌, IfOk, OnOk};
ghost use Rattle.std.specs.List.{list_any};
ghost use Rattle.http.specs.Request.{body_of};
ghost use Rattle.http_server.specs.Response.{IsBlank};
ghost use Rattle.desk_forms.specs.Fields.{fields_of};
ghost use Rattle.desk_outbox.specs.Labels.{host_in, service_in};
ghost use Rattle.status_view.specs.Links.{object_link};
ghost use Rattle.statusdesk.specs.Responses.{IsSentTo};
ghost use Rattle.statusdesk.specs.Objects.{desk_view};
ghost use Rattle.statusdesk.specs.Commanding.{is_elsewhere, IsDone, AreDone, code_of, first_code, link_of, location_after, IsNoted, IsTakenAnswer, Reports, IsCommanded, IsTested, IsFaultAnswer, IsCommandAnswer};
ghost use Rattle.statusdesk.specs.inner.Repeating.{is_repeated};
ghost use Rattle.statusdesk.specs.Said.{is_taken, said_of};
ghost use Rattle.statusdesk.specs.Taking.{posted_at, posted_in};
ghost use Rattle.statusdesk.specs.inner.Carrying.{IsPosted, objected};

use crate::notes::notes_of;
use crate::objects::{known_of, object_body, pages_of};
use crate::pages::ReadPage;
use crate::posts::{Intake, Posted, post_of};
use crate::responses::{refuse_with, send_to};
use crate::said::{is_taken, said_of};
use crate::service::{Desk, named_in};
use bytes::Bytes;
use desk_forms::{AdmitFault, AdmittedForm, FormFault, admit_form, read_fields};
use desk_guard::Refusal;
use desk_outbox::{Labelled, TakeFault, labelled_order};
use desk_sending::{Objection, is_asked};
use gate_model::{Moment, push_number};
use http::{HeaderValue, Request, StatusCode};
use http_server::Response;
use page_watching::Seen;
use status_view::object_link;
use std::alloc::{AllocError, Global};
use std::sync::Wait;
use web_connections::send;

/// What became of a form at a gateway.
#[derive(Drop)]
pub enum Done<'a> {
    /// The form is not for it.
    NotAsked,
    /// Nothing is sent.
    Objected(Objection),
    /// Nothing is sent: its outbox takes no more.
    Untaken(TakeFault),
    /// Its outbox has taken in the order.
    Taken(Posted<'a>),
}

// Puts an order into the outbox of the gateway of this name.
fn post_order<'a, R: Wait>(
    desk: &Desk<'a, R>,
    name: &str,
    order: Labelled,
    intake: &mut Intake<'a>,
) -> Done<'a>
    ensures done { IsPosted name.now order result }
    ensures taken { intake.new ≡ intake.old ++ posted_at result }
{
    let Some(post) = post_of(desk.posts, name) else {
        // Each gateway has one.
        drop(order);
        return Done::Objected(Objection::OutOfMemory);
    };
    match post.put(desk.site.rt, order, intake) {
        Ok(posted) => Done::Taken(posted),
        Err(fault) => Done::Untaken(fault),
    }
}

fn is_elsewhere(objection: &Objection) -> bool
    ensures { result ≡ is_elsewhere objection.now }
{
    match objection {
        Objection::Form(FormFault::NoObject | FormFault::NoEntry) => true,
        _ => false,
    }
}

fn objected<'a>(objection: Objection) -> Done<'a>
    ensures done { result ≡ objected objection }
    ensures taken { posted_at result ≡ [] }
{
    if is_elsewhere(&objection) {
        drop(objection);
        Done::NotAsked
    } else {
        Done::Objected(objection)
    }
}

// Carries out the form at a gateway, where it is for it. An objection there keeps no other gateway from
// it.
fn carry_out<'a, R: Wait>(
    desk: &Desk<'a, R>,
    now: u32,
    form: &AdmittedForm,
    at: &ReadPage<'_>,
    intake: &mut Intake<'a>,
) -> Done<'a>
    ensures done { IsDone now form.now at.now result }
    ensures taken { intake.new ≡ intake.old ++ posted_at result }
{
    if !is_asked(form, at.name()) {
        return Done::NotAsked;
    }
    let Some(known) = at.known() else {
        return Done::NotAsked;
    };
    match labelled_order(desk.site.alloc, &known.page, Moment(now), form) {
        Ok(order) => post_order(desk, at.name(), order, intake),
        Err(objection) => objected(objection),
    }
}

/// Carries out the form at each gateway.
pub fn carry_out_all<'a, R: Wait>(
    desk: &Desk<'a, R>,
    now: u32,
    form: &AdmittedForm,
    pages: &[ReadPage<'_>],
    intake: &mut Intake<'a>,
) -> Result<Vec<Done<'a>>, AllocError>
    ensures done { IfOk result (λ all. AreDone now form.now pages.now all.items) }
    ensures taken { IfOk result (λ all. intake.new ≡ intake.old ++ posted_in all.items) }
{
    let mut all = Vec::with_capacity(desk.site.alloc, pages.len())?;
    for at in pages {
        all.push(carry_out(desk, now, form, at, intake))?;
    }
    Ok(all)
}

// The code of the answer for what became of a form at a gateway that didn't take it.
fn code_of(done: &Done<'_>) -> Option<u16>
    ensures { result ≡ code_of done.now }
{
    match done {
        Done::NotAsked | Done::Taken(_) => None,
        Done::Objected(Objection::Form(fault)) => Some(fault.status()),
        Done::Objected(Objection::Refused(..) | Objection::Unwritable(_)) => Some(409),
        Done::Objected(Objection::OutOfMemory) | Done::Untaken(_) => Some(503),
    }
}

/// The code of the first gateway that didn't take the form.
pub fn first_code(all: &[Done<'_>]) -> Option<u16>
    ensures { result ≡ first_code all.now }
{
    for done in all {
        if let Some(code) = code_of(done) {
            return Some(code);
        }
    }
    None
}

// Answers with the object's page, with what became of the form at each gateway.
fn send_notes<'t, R>(
    desk: &Desk<'_, R>,
    now: u32,
    form: &AdmittedForm,
    seen: &'t [Seen<'t>],
    all: &[Done<'_>],
    code: u16,
    response: &mut Response,
) -> Result<(), AllocError>
    requires { IsBlank response.old }
    ensures { OnOk result (IsNoted (desk_view desk.now) now code form.now seen.now
        (said_of [] seen.now all.now) response.new) }
{
    let Ok(status) = StatusCode::from_u16(code) else {
        return Err(AllocError);
    };
    let alloc = desk.site.alloc;
    let named = named_in(form.fields());
    let known = known_of(alloc, seen, named)?;
    let said = said_of(alloc, &[], seen, all)?;
    let notes = notes_of(alloc, said.as_slice())?;
    let user = form.user().bytes();
    let body = object_body(
        desk,
        now,
        user,
        named,
        known.as_slice(),
        notes.as_slice(),
        false,
    )?;
    let kind = HeaderValue::from_static("text/html; charset=utf-8");
    send(response, status, kind, body)
}

// The page of the object, which says until when it may not show the command.
fn location_after(alloc: Global, form: &AdmittedForm, now: u32) -> Result<Vec<u8>, AllocError>
    ensures { IfOk result (λ location. location.items ≡ location_after now form.now.fields) }
{
    let named = named_in(form.fields());
    let mut location = object_link(alloc, named.host, named.service)?.into_bytes();
    location.extend_from_slice(b"&at=")?;
    push_number(&mut location, u64::from(now))?;
    Ok(location)
}

/// Whether a gateway has taken it.
pub fn is_any_taken(all: &[Done<'_>]) -> bool
    ensures { result ≡ list_any is_taken all.now }
{
    all.iter().any(is_taken)
}

// Answers a form that no gateway objected to.
fn send_on(
    alloc: Global,
    now: u32,
    form: &AdmittedForm,
    taken: bool,
    response: &mut Response,
) -> Result<(), AllocError>
    requires { IsBlank response.old }
    ensures { OnOk result (IsTakenAnswer now form.now taken response.new) }
{
    if taken {
        let location = location_after(alloc, form, now)?;
        send_to(response, location.as_slice(), alloc)
    } else {
        refuse_with(response, 404, alloc)
    }
}

// Answers with what became of the form at the gateways.
fn report<'t, R>(
    desk: &Desk<'_, R>,
    now: u32,
    form: &AdmittedForm,
    seen: &'t [Seen<'t>],
    all: &[Done<'_>],
    response: &mut Response,
) -> Result<(), AllocError>
    requires { IsBlank response.old }
    ensures { OnOk result (Reports (desk_view desk.now) now form.now seen.now all.now
        (first_code all.now) response.new) }
{
    match first_code(all) {
        Some(code) => send_notes(desk, now, form, seen, all, code, response),
        None => send_on(desk.site.alloc, now, form, is_any_taken(all), response),
    }
}

// Carries out an admitted form at each gateway, and answers. Nothing here waits for a gateway.
fn command<'a, R: Wait>(
    desk: &Desk<'a, R>,
    now: u32,
    form: &AdmittedForm,
    intake: &mut Intake<'a>,
    response: &mut Response,
) -> Result<(), AllocError>
    requires blank { IsBlank response.old }
    requires empty { intake.old ≡ [] }
    ensures { OnOk result
        (IsCommanded (desk_view desk.now) now form.now intake.new response.new) }
{
    let seen = desk.site.watch.seen(desk.site.rt, desk.site.alloc)?;
    let pages = pages_of(desk.site.alloc, seen.as_slice())?;
    let all = carry_out_all(desk, now, form, pages.as_slice(), intake)?;
    report(desk, now, form, seen.as_slice(), all.as_slice(), response)
}

/// The form of a request that passes each test.
pub fn admit<R: Wait>(
    desk: &Desk<'_, R>,
    now: u32,
    request: &Request<Bytes>,
) -> Result<AdmittedForm, AdmitFault>
    ensures { IsTested desk.now.guard.now now request.now result }
{
    let mut sent = desk.sent.lock(desk.site.rt);
    admit_form(desk.site.alloc, desk.guard, &mut sent, request, now)
}

// Answers a form that was sent before: the page of its object shows what became of it. Its body was
// read as a form before, so the only error is out of memory.
fn send_back(
    alloc: Global,
    request: &Request<Bytes>,
    response: &mut Response,
) -> Result<(), AllocError>
    requires { IsBlank response.old }
    ensures { let fields = fields_of (body_of request.now) in
        OnOk result (IsSentTo (link_of fields) response.new) }
{
    let Ok(fields) = read_fields(alloc, request.body().as_slice()) else {
        return Err(AllocError);
    };
    let named = named_in(fields.as_slice());
    let location = object_link(alloc, named.host, named.service)?;
    send_to(response, location.as_bytes(), alloc)
}

/// Whether the form was sent before.
pub fn is_repeated(fault: AdmitFault) -> bool
    ensures { result ≡ is_repeated fault }
{
    match fault {
        AdmitFault::Refused(Refusal::Repeated) => true,
        _ => false,
    }
}

// Answers a form that isn't admitted.
fn refuse_form(
    alloc: Global,
    request: &Request<Bytes>,
    fault: AdmitFault,
    response: &mut Response,
) -> Result<(), AllocError>
    requires { IsBlank response.old }
    ensures { OnOk result
        (IsFaultAnswer (link_of (fields_of (body_of request.now))) fault response.new) }
{
    if is_repeated(fault) {
        send_back(alloc, request, response)
    } else {
        refuse_with(response, fault.status(), alloc)
    }
}

/// Answers a request for `/command`: nothing is sent for it unless it is admitted.
pub fn answer_command<'a, R: Wait>(
    desk: &Desk<'a, R>,
    now: u32,
    request: &Request<Bytes>,
    intake: &mut Intake<'a>,
    response: &mut Response,
) -> Result<(), AllocError>
    requires blank { IsBlank response.old }
    requires empty { intake.old ≡ [] }
    ensures { OnOk result
        (IsCommandAnswer (desk_view desk.now) now request.now intake.new response.new) }
{
    match admit(desk, now, request) {
        Ok(form) => command(desk, now, &form, intake, response),
        Err(fault) => refuse_form(desk.site.alloc, request, fault, response),
    }
}
