//! What is answered to a request.
ghost use Rattle.std.specs.Prelude.{◌≡◌, Some, OnOk};
ghost use Rattle.http.specs.Request.{head_of};
ghost use Rattle.http_server.specs.Response.{IsBlank};
ghost use Rattle.status_serving.specs.Methods.{body_asked};
ghost use Rattle.statusweb.specs.Service.{route_of, IsMethodAnswer, IsAnswerAt, IsAnswer};

use bytes::Bytes;
use http::{Request, StatusCode};
use http_server::{Response, Service};
use page_watching::clock;
use status_serving::{
    ChangesForm, Form, Site, body_asked, send_changes, send_object, send_status, send_style,
};
use std::alloc::AllocError;
use std::sync::Wait;
use std::time::Clock;
use web_connections::{add_date, answers_host, refuse, refuse_method};

/// What is shown at a path.
#[derive(Clone, Copy)]
pub enum Route {
    Status(Form),
    Object,
    Changes(ChangesForm),
    Style,
}

fn route_of(path: &str) -> Option<Route>
    ensures { result ≡ route_of path.now }
{
    if path == "/" {
        Some(Route::Status(Form::Html))
    } else if path == "/comments" {
        Some(Route::Status(Form::Comments))
    } else if path == "/downtime" {
        Some(Route::Status(Form::Downtimes))
    } else if path == "/object" {
        Some(Route::Object)
    } else if path == "/status.json" {
        Some(Route::Status(Form::Json))
    } else if path == "/metrics" {
        Some(Route::Status(Form::Metrics))
    } else if path == "/changes" {
        Some(Route::Changes(ChangesForm::Html))
    } else if path == "/changes.json" {
        Some(Route::Changes(ChangesForm::Lines))
    } else if path == "/changes.atom" {
        Some(Route::Changes(ChangesForm::Feed))
    } else if path == "/style.css" {
        Some(Route::Style)
    } else {
        None
    }
}

/// Answers with what is kept of the gateways of a site, under these names of hosts.
pub struct Web<'a, R> {
    pub site: Site<'a, R>,
    pub hosts: &'a [&'a str],
}

impl<'a, R> Clone for Web<'a, R> {
    fn clone(&self) -> Result<Web<'a, R>, AllocError> {
        Ok(*self)
    }
}

impl<'a, R> Copy for Web<'a, R> {}

fn send_path<R: Wait>(
    site: &Site<'_, R>,
    now: u32,
    request: &Request<Bytes>,
    whole: bool,
    response: &mut Response,
) -> Result<(), AllocError>
    requires { IsBlank response.old }
    ensures { OnOk result (IsMethodAnswer (Some whole) site.now.heading
        site.now.watch.now.places.now now (head_of request.now) response.new) }
{
    let query = request.uri().query().unwrap_or("");
    match route_of(request.uri().path()) {
        None => refuse(response, StatusCode::NOT_FOUND, site.alloc),
        Some(Route::Style) => send_style(site.alloc, request, response),
        Some(Route::Status(form)) => send_status(site, now, form, query, whole, response),
        Some(Route::Object) => send_object(site, now, query, whole, response),
        Some(Route::Changes(form)) => send_changes(site, now, form, whole, response),
    }
}

fn answer_method<R: Wait>(
    site: &Site<'_, R>,
    now: u32,
    request: &Request<Bytes>,
    response: &mut Response,
) -> Result<(), AllocError>
    requires { IsBlank response.old }
    ensures { let head = head_of request.now in OnOk result (IsMethodAnswer
        (body_asked head.method) site.now.heading site.now.watch.now.places.now now head response.new) }
{
    match body_asked(request.method().as_str()) {
        Some(whole) => send_path(site, now, request, whole, response),
        None => refuse_method(response, site.alloc),
    }
}

// Answers a request, without the date.
fn answer<R: Wait>(
    web: &Web<'_, R>,
    now: u32,
    request: &Request<Bytes>,
    response: &mut Response,
) -> Result<(), AllocError>
    requires { IsBlank response.old }
    ensures { OnOk result (IsAnswerAt web.now.hosts.now web.now.site.heading
        web.now.site.watch.now.places.now now (head_of request.now) response.new) }
{
    if answers_host(web.hosts, request) {
        answer_method(&web.site, now, request, response)
    } else {
        refuse(response, StatusCode::MISDIRECTED_REQUEST, web.site.alloc)
    }
}

impl<'a, R: Clock + Wait> Service for Web<'a, R> {
    ghost use Rattle.statusweb.specs.Service.{IsAnswer};

    ghost answers = { λ old request response new. IsAnswer old.hosts.now old.site.heading
        old.site.watch.now.places.now request response };

    fn call(
        &mut self,
        request: &Request<Bytes>,
        response: &mut Response,
    ) -> Result<(), AllocError> {
        let now = clock(self.site.rt);
        answer(self, now, request, response)?;
        add_date(response, self.site.alloc, now)
    }
}
