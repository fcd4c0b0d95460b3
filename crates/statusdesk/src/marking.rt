//! A form for several objects: for each that it marks, the form for that object is carried out.
ghost use Rattle.std.specs.Prelude.{◌≡◌, [], ◌++◌, map, IfOk, OnOk};
ghost use Rattle.http.specs.Request.{body_of};
ghost use Rattle.http_server.specs.Response.{IsBlank};
ghost use Rattle.page_watching.specs.Watching.{seen_place};
ghost use Rattle.desk_forms.specs.Marks.{marks_of, sender_for};
ghost use Rattle.desk_forms.specs.Requests.{status_of};
ghost use Rattle.statusdesk.specs.Objects.{desk_view};
ghost use Rattle.statusdesk.specs.Notes.{said_view};
ghost use Rattle.statusdesk.specs.Said.{said_of_marks, said_of_fault};
ghost use Rattle.statusdesk.specs.Taking.{posted_in, all_posted};
ghost use Rattle.statusdesk.specs.Commanding.{AreDone, IsFaultAnswer};
ghost use Rattle.statusdesk.specs.Marks.{marks_link};
ghost use Rattle.statusdesk.specs.Marking.{AreMarked, mark_code, marks_code, dones_in, IsMarksNoted, ReportsMarks, IsMarked, IsCommandsAnswer};

use crate::commanding::{Done, admit, carry_out_all, first_code, is_any_taken, is_repeated};
use crate::marks::{marks_after, marks_body, marks_link};
use crate::notes::{Said, notes_of};
use crate::objects::pages_of;
use crate::pages::ReadPage;
use crate::posts::Intake;
use crate::responses::{refuse_with, send_to};
use crate::said::{said_of_fault, said_of_marks};
use crate::service::Desk;
use bytes::Bytes;
use desk_forms::{AdmitFault, AdmittedForm, FormFault, form_for, read_marks};
use http::{HeaderValue, Request, StatusCode};
use http_server::Response;
use page_watching::Seen;
use std::alloc::{AllocError, Global};
use std::sync::Wait;
use web_connections::send;

// Carries out the form for one mark at each gateway.
fn carry_out_mark<'a, R: Wait>(
    desk: &Desk<'a, R>,
    now: u32,
    form: &AdmittedForm,
    mark: &[u8],
    pages: &[ReadPage<'_>],
    intake: &mut Intake<'a>,
) -> Result<Vec<Done<'a>>, AllocError>
    ensures done { IfOk result (λ all.
        AreDone now (sender_for mark.now form.now) pages.now all.items) }
    ensures taken { IfOk result (λ all. intake.new ≡ intake.old ++ posted_in all.items) }
{
    let one = form_for(desk.site.alloc, form, mark)?;
    carry_out_all(desk, now, &one, pages, intake)
}

// Carries out the form for each mark, in their order.
fn carry_out_marks<'a, R: Wait>(
    desk: &Desk<'a, R>,
    now: u32,
    form: &AdmittedForm,
    marks: &[&[u8]],
    pages: &[ReadPage<'_>],
    intake: &mut Intake<'a>,
) -> Result<Vec<Vec<Done<'a>>>, AllocError>
    ensures done { IfOk result (λ all. AreMarked now form.now pages.now
        (map (λ mark. mark.now) marks.now) (dones_in all.items)) }
    ensures taken { IfOk result (λ all.
        intake.new ≡ intake.old ++ all_posted (dones_in all.items)) }
{
    let mut all = Vec::with_capacity(desk.site.alloc, marks.len())?;
    for mark in marks {
        all.push(carry_out_mark(desk, now, form, *mark, pages, intake)?)?;
    }
    Ok(all)
}

// The code for what became of a mark.
fn mark_code(all: &[Done<'_>]) -> Option<u16>
    ensures { result ≡ mark_code all.now }
{
    match first_code(all) {
        Some(code) => Some(code),
        None if is_any_taken(all) => None,
        None => Some(404),
    }
}

// That of the first mark that not each gateway has taken.
fn marks_code(all: &[Vec<Done<'_>>]) -> Option<u16>
    ensures { result ≡ marks_code (dones_in all.now) }
{
    for one in all {
        if let Some(code) = mark_code(one.as_slice()) {
            return Some(code);
        }
    }
    None
}

// Answers with the page of many objects, and what became of the form.
fn send_marks_notes<'t, R>(
    desk: &Desk<'_, R>,
    now: u32,
    form: &AdmittedForm,
    query: &str,
    seen: &'t [Seen<'t>],
    said: &[Said<'_>],
    code: u16,
    response: &mut Response,
) -> Result<(), AllocError>
    requires { IsBlank response.old }
    ensures { OnOk result (IsMarksNoted (desk_view desk.now) now code seen.now form.now.user query.now
        (map said_view said.now) response.new) }
{
    let alloc = desk.site.alloc;
    let notes = notes_of(alloc, said)?;
    let user = form.user().bytes();
    let body = marks_body(desk, now, seen, user, query, notes.as_slice(), false)?;
    let Ok(status) = StatusCode::from_u16(code) else {
        return Err(AllocError);
    };
    let kind = HeaderValue::from_static("text/html; charset=utf-8");
    send(response, status, kind, body)
}

// Answers with what became of the marks at the gateways.
fn report_marks<'t, R>(
    desk: &Desk<'_, R>,
    now: u32,
    form: &AdmittedForm,
    query: &str,
    seen: &'t [Seen<'t>],
    marks: &[&[u8]],
    all: &[Vec<Done<'_>>],
    response: &mut Response,
) -> Result<(), AllocError>
    requires { IsBlank response.old }
    ensures { OnOk result (ReportsMarks (desk_view desk.now) now seen.now form.now.user query.now
        (said_of_marks seen.now (map (λ mark. mark.now) marks.now) (dones_in all.now))
        (marks_code (dones_in all.now)) response.new) }
{
    let alloc = desk.site.alloc;
    match marks_code(all) {
        Some(code) => {
            let said = said_of_marks(alloc, seen, marks, all)?;
            send_marks_notes(
                desk,
                now,
                form,
                query,
                seen,
                said.as_slice(),
                code,
                response,
            )
        }
        None => {
            let location = marks_after(alloc, query.as_bytes(), now)?;
            send_to(response, location.as_slice(), alloc)
        }
    }
}

// Answers a form without marks that count.
fn send_fault<'t, R>(
    desk: &Desk<'_, R>,
    now: u32,
    form: &AdmittedForm,
    query: &str,
    seen: &'t [Seen<'t>],
    fault: FormFault,
    response: &mut Response,
) -> Result<(), AllocError>
    requires { IsBlank response.old }
    ensures { OnOk result (IsMarksNoted (desk_view desk.now) now (status_of fault) seen.now
        form.now.user query.now (said_of_fault fault) response.new) }
{
    let said = said_of_fault(desk.site.alloc, fault)?;
    send_marks_notes(
        desk,
        now,
        form,
        query,
        seen,
        said.as_slice(),
        fault.status(),
        response,
    )
}

// Carries out an admitted form for each of its marks, and answers. Nothing here waits for a gateway.
fn command_marks<'a, R: Wait>(
    desk: &Desk<'a, R>,
    now: u32,
    form: &AdmittedForm,
    query: &str,
    intake: &mut Intake<'a>,
    response: &mut Response,
) -> Result<(), AllocError>
    requires blank { IsBlank response.old }
    requires empty { intake.old ≡ [] }
    ensures { OnOk result
        (IsMarked (desk_view desk.now) now form.now query.now intake.new response.new) }
{
    let alloc = desk.site.alloc;
    let kept = desk.site.watch.seen(desk.site.rt, alloc)?;
    let seen = kept.as_slice();
    let marks = match read_marks(alloc, form.fields()) {
        Ok(marks) => marks,
        Err(fault) => return send_fault(desk, now, form, query, seen, fault, response),
    };
    let pages = pages_of(alloc, seen)?;
    let all = carry_out_marks(desk, now, form, marks.as_slice(), pages.as_slice(), intake)?;
    report_marks(
        desk,
        now,
        form,
        query,
        seen,
        marks.as_slice(),
        all.as_slice(),
        response,
    )
}

// Answers a form that isn't admitted; for one that was sent before the page shows what became of it.
fn refuse_marks(
    alloc: Global,
    query: &str,
    fault: AdmitFault,
    response: &mut Response,
) -> Result<(), AllocError>
    requires { IsBlank response.old }
    ensures { OnOk result (IsFaultAnswer (marks_link query.now) fault response.new) }
{
    if is_repeated(fault) {
        let location = marks_link(alloc, query.as_bytes())?;
        send_to(response, location.as_slice(), alloc)
    } else {
        refuse_with(response, fault.status(), alloc)
    }
}

/// Answers a request for `/commands`: nothing is sent for it unless it is admitted.
pub fn answer_commands<'a, R: Wait>(
    desk: &Desk<'a, R>,
    now: u32,
    request: &Request<Bytes>,
    intake: &mut Intake<'a>,
    response: &mut Response,
) -> Result<(), AllocError>
    requires blank { IsBlank response.old }
    requires empty { intake.old ≡ [] }
    ensures { OnOk result
        (IsCommandsAnswer (desk_view desk.now) now request.now intake.new response.new) }
{
    let query = request.uri().query().unwrap_or("");
    match admit(desk, now, request) {
        Ok(form) => command_marks(desk, now, &form, query, intake, response),
        Err(fault) => refuse_marks(desk.site.alloc, query, fault, response),
    }
}
