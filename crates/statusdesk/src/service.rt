//! What is answered to a request.
ghost use Rattle.std.specs.Prelude.{◌≡◌, [], Some, IfOk, OnOk, codes, map};
ghost use Rattle.http.specs.Request.{head_of};
ghost use Rattle.http.specs.Uri.{uri_path};
ghost use Rattle.http_header.specs.HeaderMap.{get};
ghost use Rattle.http_server.specs.Response.{IsBlank};
ghost use Rattle.web_connections.specs.Hosts.{answers_host};
ghost use Rattle.status_serving.specs.Methods.{body_asked};
ghost use Rattle.statusdesk.specs.Objects.{desk_view, known_view, AreKnown};
ghost use Rattle.desk_outbox.specs.Labels.{host_in, service_in};
ghost use Rattle.desk_forms.specs.Fields.{fields_of};
ghost use Rattle.statusdesk.specs.Service.{route_of, at_in, IsNotedPage, AreNotedMarks, is_command, is_commands, IsObjectAnswer, IsMarksAnswer, IsMethodAnswer, IsOtherAnswer, IsPathAnswer, IsAnswerAt, IsAnswer};

use crate::commanding::answer_command;
use crate::marking::answer_commands;
use crate::marks::marks_body;
use crate::notes::{are_settled, notes_of, orders_said};
use crate::objects::{Known, Named, known_of, object_body};
use crate::posts::{Intake, Post};
use crate::responses::refuse_with;
use bytes::Bytes;
use desk_forms::{AdmitFault, Field, given, read_fields, value_or_empty};
use desk_guard::{Guard, SentForms};
use desk_outbox::Asked;
use gate_grammar::read_number;
use http::{HeaderValue, Request, StatusCode};
use http_server::{Response, Service};
use page_watching::{Seen, clock};
use status_serving::{ChangesForm, Form, Site, body_asked, send_changes, send_status, send_style};
use std::alloc::AllocError;
use std::sync::atomic::AtomicU64;
use std::sync::{Mutex, Wait};
use std::time::Clock;
use web_connections::{add_date, answers_host, refuse, refuse_method, send};

/// What is shown at a path.
#[derive(Clone, Copy)]
pub enum Route {
    Status(Form),
    Changes(ChangesForm),
    Style,
    Object,
    Marks,
}

fn route_of(path: &str) -> Option<Route>
    ensures { result ≡ route_of path.now }
{
    if path == "/" {
        Some(Route::Status(Form::Html))
    } else if path == "/comments" {
        Some(Route::Status(Form::Comments))
    } else if path == "/downtime" {
        Some(Route::Status(Form::Downtimes))
    } else if path == "/status.json" {
        Some(Route::Status(Form::Json))
    } else if path == "/metrics" {
        Some(Route::Status(Form::Metrics))
    } else if path == "/changes" {
        Some(Route::Changes(ChangesForm::Html))
    } else if path == "/changes.json" {
        Some(Route::Changes(ChangesForm::Lines))
    } else if path == "/changes.atom" {
        Some(Route::Changes(ChangesForm::Feed))
    } else if path == "/style.css" {
        Some(Route::Style)
    } else if path == "/object" {
        Some(Route::Object)
    } else if path == "/marks" {
        Some(Route::Marks)
    } else {
        None
    }
}

/// Answers from what is kept of the gateways, and sends commands to them.
pub struct Desk<'a, R> {
    pub site: Site<'a, R>,
    /// The operators' ports of the gateways, each by its gateway's name.
    pub posts: &'a [Post<'a>],
    pub guard: &'a Guard<'a>,
    pub sent: &'a Mutex<SentForms>,
    /// How many pages with forms were written.
    pub pages: &'a AtomicU64,
}

impl<'a, R> Clone for Desk<'a, R> {
    fn clone(&self) -> Result<Desk<'a, R>, AllocError> {
        Ok(*self)
    }
}

impl<'a, R> Copy for Desk<'a, R> {}

/// The object that fields name.
pub fn named_in(fields: &[Field]) -> Named<'_>
    ensures host { result.host.now ≡ host_in fields.entry.now }
    ensures service { result.service.now ≡ service_in fields.entry.now }
{
    Named {
        host: value_or_empty(fields, "host"),
        service: value_or_empty(fields, "service"),
    }
}

// The moment that fields name.
fn at_in(fields: &[Field]) -> Option<u32>
    ensures { result ≡ at_in fields.now }
{
    match given(fields, "at") {
        Some(word) => read_number(word),
        None => None,
    }
}

// The page of an object, of the gateways that show it, with what the outboxes show of the orders that
// are asked for. Without a moment it is not loaded again, so that somebody can fill in a form there.
fn noted_body<R: Wait>(
    desk: &Desk<'_, R>,
    seen: &[Seen<'_>],
    known: &[Known<'_>],
    asked: Asked<'_>,
) -> Result<Vec<u8>, AllocError>
    requires { AreKnown asked.host.now asked.service.now seen.now
        (map known_view known.now) }
    ensures { IfOk result (λ body. IsNotedPage (desk_view desk.now) seen.now asked.entry body.items) }
{
    let alloc = desk.site.alloc;
    let said = orders_said(desk.site.rt, alloc, desk.posts, seen, asked)?;
    let notes = notes_of(alloc, said.as_slice())?;
    let again = asked.at.is_some() && !are_settled(said.as_slice());
    let named = Named {
        host: asked.host,
        service: asked.service,
    };
    object_body(
        desk,
        asked.clock,
        asked.user,
        named,
        known,
        notes.as_slice(),
        again,
    )
}

// Answers with the page of the object that a query names.
fn send_object<R: Wait>(
    desk: &Desk<'_, R>,
    now: u32,
    query: &str,
    request: &Request<Bytes>,
    response: &mut Response,
) -> Result<(), AllocError>
    requires { IsBlank response.old }
    ensures { OnOk result
        (IsObjectAnswer (desk_view desk.now) now request.now query.now response.new) }
{
    let alloc = desk.site.alloc;
    let user = match desk.guard.user(request) {
        Ok(user) => user,
        Err(refusal) => return refuse_with(response, refusal.status(), alloc),
    };
    let fields = match read_fields(alloc, query.as_bytes()) {
        Ok(fields) => fields,
        Err(fault) => return refuse_with(response, AdmitFault::Form(fault).status(), alloc),
    };
    let named = named_in(fields.as_slice());
    let seen = desk.site.watch.seen(desk.site.rt, alloc)?;
    let known = known_of(alloc, seen.as_slice(), named)?;
    if known.is_empty() {
        return refuse(response, StatusCode::NOT_FOUND, alloc);
    }
    let asked = Asked {
        user,
        host: named.host,
        service: named.service,
        is_each: false,
        at: at_in(fields.as_slice()),
        clock: now,
        fetched: 0,
    };
    let body = noted_body(desk, seen.as_slice(), known.as_slice(), asked)?;
    let kind = HeaderValue::from_static("text/html; charset=utf-8");
    send(response, StatusCode::OK, kind, body)
}

// The page of many objects, with what the outboxes show of the orders that are asked for.
fn noted_marks<'t, R: Wait>(
    desk: &Desk<'_, R>,
    seen: &'t [Seen<'t>],
    query: &str,
    asked: Asked<'_>,
) -> Result<Vec<u8>, AllocError>
    ensures { IfOk result (λ body.
        AreNotedMarks (desk_view desk.now) seen.now query.now asked.entry body.items) }
{
    let alloc = desk.site.alloc;
    let said = orders_said(desk.site.rt, alloc, desk.posts, seen, asked)?;
    let notes = notes_of(alloc, said.as_slice())?;
    let again = asked.at.is_some() && !are_settled(said.as_slice());
    marks_body(
        desk,
        asked.clock,
        seen,
        asked.user,
        query,
        notes.as_slice(),
        again,
    )
}

// Answers with the page of the objects that a query chooses.
fn send_marks<R: Wait>(
    desk: &Desk<'_, R>,
    now: u32,
    query: &str,
    request: &Request<Bytes>,
    response: &mut Response,
) -> Result<(), AllocError>
    requires { IsBlank response.old }
    ensures { OnOk result
        (IsMarksAnswer (desk_view desk.now) now request.now query.now response.new) }
{
    let alloc = desk.site.alloc;
    let user = match desk.guard.user(request) {
        Ok(user) => user,
        Err(refusal) => return refuse_with(response, refusal.status(), alloc),
    };
    let fields = match read_fields(alloc, query.as_bytes()) {
        Ok(fields) => fields,
        Err(fault) => return refuse_with(response, AdmitFault::Form(fault).status(), alloc),
    };
    let asked = Asked {
        user,
        host: &[],
        service: &[],
        is_each: true,
        at: at_in(fields.as_slice()),
        clock: now,
        fetched: 0,
    };
    let seen = desk.site.watch.seen(desk.site.rt, alloc)?;
    let body = noted_marks(desk, seen.as_slice(), query, asked)?;
    let kind = HeaderValue::from_static("text/html; charset=utf-8");
    send(response, StatusCode::OK, kind, body)
}

fn send_path<R: Wait>(
    desk: &Desk<'_, R>,
    now: u32,
    request: &Request<Bytes>,
    whole: bool,
    response: &mut Response,
) -> Result<(), AllocError>
    requires { IsBlank response.old }
    ensures { OnOk result
        (IsMethodAnswer (Some whole) (desk_view desk.now) now request.now response.new) }
{
    let query = request.uri().query().unwrap_or("");
    match route_of(request.uri().path()) {
        None => refuse(response, StatusCode::NOT_FOUND, desk.site.alloc),
        Some(Route::Style) => send_style(desk.site.alloc, request, response),
        Some(Route::Status(form)) => send_status(&desk.site, now, form, query, whole, response),
        Some(Route::Changes(form)) => send_changes(&desk.site, now, form, whole, response),
        Some(Route::Object) => send_object(desk, now, query, request, response),
        Some(Route::Marks) => send_marks(desk, now, query, request, response),
    }
}

fn answer_method<R: Wait>(
    desk: &Desk<'_, R>,
    now: u32,
    request: &Request<Bytes>,
    response: &mut Response,
) -> Result<(), AllocError>
    requires { IsBlank response.old }
    ensures { OnOk result (IsMethodAnswer (body_asked (head_of request.now).method)
        (desk_view desk.now) now request.now response.new) }
{
    match body_asked(request.method().as_str()) {
        Some(whole) => send_path(desk, now, request, whole, response),
        None => refuse_method(response, desk.site.alloc),
    }
}

// Answers a request for a host that is served.
fn answer_path<'a, R: Wait>(
    desk: &Desk<'a, R>,
    now: u32,
    request: &Request<Bytes>,
    intake: &mut Intake<'a>,
    response: &mut Response,
) -> Result<(), AllocError>
    requires blank { IsBlank response.old }
    requires empty { intake.old ≡ [] }
    ensures { OnOk result (IsPathAnswer (is_command (uri_path (head_of request.now).uri))
        (desk_view desk.now) now request.now intake.new response.new) }
{
    if is_command(request.uri().path()) {
        answer_command(desk, now, request, intake, response)
    } else {
        answer_other(desk, now, request, intake, response)
    }
}

fn is_commands(path: &str) -> bool
    ensures { result ≡ is_commands path.now }
{
    path == "/commands"
}

fn answer_other<'a, R: Wait>(
    desk: &Desk<'a, R>,
    now: u32,
    request: &Request<Bytes>,
    intake: &mut Intake<'a>,
    response: &mut Response,
) -> Result<(), AllocError>
    requires blank { IsBlank response.old }
    requires empty { intake.old ≡ [] }
    ensures { OnOk result (IsOtherAnswer (is_commands (uri_path (head_of request.now).uri))
        (desk_view desk.now) now request.now intake.new response.new) }
{
    if is_commands(request.uri().path()) {
        answer_commands(desk, now, request, intake, response)
    } else {
        answer_method(desk, now, request, response)
    }
}

fn is_command(path: &str) -> bool
    ensures { result ≡ is_command path.now }
{
    path == "/command"
}

// Answers a request, without the date.
fn answer<'a, R: Wait>(
    desk: &Desk<'a, R>,
    now: u32,
    request: &Request<Bytes>,
    intake: &mut Intake<'a>,
    response: &mut Response,
) -> Result<(), AllocError>
    requires blank { IsBlank response.old }
    requires empty { intake.old ≡ [] }
    ensures { OnOk result (IsAnswerAt (answers_host desk.now.guard.now.hosts.items
        (get (head_of request.now).headers (codes "host"))) (desk_view desk.now) now request.now
        intake.new response.new) }
{
    if answers_host(desk.guard.hosts.as_slice(), request) {
        answer_path(desk, now, request, intake, response)
    } else {
        refuse(response, StatusCode::MISDIRECTED_REQUEST, desk.site.alloc)
    }
}

impl<'a, R: Clock + Wait> Service for Desk<'a, R> {
    ghost use Rattle.statusdesk.specs.Objects.{desk_view, known_view, AreKnown};
    ghost use Rattle.statusdesk.specs.Service.{IsAnswer};

    ghost answers = { λ old request response new. IsAnswer (desk_view old) request response };

    fn call(
        &mut self,
        request: &Request<Bytes>,
        response: &mut Response,
    ) -> Result<(), AllocError> {
        let now = clock(self.site.rt);
        let mut intake = Intake::new(self.site.alloc);
        answer(self, now, request, &mut intake, response)?;
        add_date(response, self.site.alloc, now)
    }
}
