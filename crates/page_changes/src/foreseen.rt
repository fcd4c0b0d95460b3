//! What a gateway answers to a command, by its status page.

ghost use Rattle.std.specs.Prelude.{◌≡◌, map, None, IfOk, if◌then◌else◌};
ghost use Rattle.std.specs.Option.{option_map};
ghost use Rattle.std.specs.List.{list_any};
ghost use Rattle.status_reading.specs.Rows.{ObjectView, object_view, comment_view, downtime_view, page_view};
ghost use Rattle.gate_model.specs.Meaning.{outcome_after};
ghost use Rattle.status_reading.specs.Board.{shown_board};
ghost use Rattle.status_reading.specs.Gateway.{GatewayView, IsGateway, published_board};
ghost use Rattle.page_changes.specs.Names.{is_nameless, is_service_of};
ghost use Rattle.page_changes.specs.Foreseen.{is_acknowledged, outcome_for, outcome_of_field, comment_field, downtime_field, is_entry, outcome_of_span, has_services, outcome_of_deed, outcome_on, as_shown, refusal_text};
ghost use Rattle.page_changes.specs.inner.Judged.{judged};

use crate::names::{Names, kind_of_field, row_of};
use gate_model::{Act, Body, Deed, Kind, Name, Outcome, Span};
use status_reading::{ShownAcknowledgement, ShownComment, ShownDowntime, ShownObject, StatusPage};
use std::alloc::{AllocError, Global};

fn is_nameless(service: &Option<Name<'_>>) -> bool
    ensures { result ≡ is_nameless service.now }
{
    match service {
        Some(name) => name.bytes().is_empty(),
        None => false,
    }
}

/// The row of an object, or why a command that names it is refused: its host is looked up first.
fn object_row<'a>(
    alloc: Global,
    page: &StatusPage<'a>,
    host: &Name<'_>,
    service: &Option<Name<'_>>,
) -> Result<Result<ShownObject<'a>, Outcome>, AllocError>
    ensures { IfOk result (λ found. (judge : ObjectView → Outcome)
        → judged judge found ≡ outcome_for (page_view page.now) host.now service.now judge) }
{
    let of_host = Names::of(alloc, host, &None)?;
    if row_of(page.objects.as_slice(), &of_host).is_none() {
        return Ok(Err(Outcome::NoSuchHost));
    }
    if is_nameless(service) {
        return Ok(Err(Outcome::NoSuchService));
    }
    let names = Names::of(alloc, host, service)?;
    match row_of(page.objects.as_slice(), &names) {
        Some(row) => Ok(Ok(row)),
        None => Ok(Err(Outcome::NoSuchService)),
    }
}

/// Whether the problem is acknowledged.
pub fn is_acknowledged(shown: ShownAcknowledgement) -> bool
    ensures { result ≡ is_acknowledged shown }
{
    match shown {
        ShownAcknowledgement::Missing => false,
        ShownAcknowledgement::Normal | ShownAcknowledgement::Sticky => true,
    }
}

/// The service's field of the comment of this id.
pub fn comment_field<'a>(rows: &[ShownComment<'a>], id: u32) -> Option<&'a [u8]>
    ensures { option_map (λ field. field.now) result
        ≡ comment_field id (map comment_view rows.now) }
{
    for row in rows {
        if row.id == id {
            return Some(row.service);
        }
    }
    None
}

/// The service's field of the downtime entry of this id.
pub fn downtime_field<'a>(rows: &[ShownDowntime<'a>], id: u32) -> Option<&'a [u8]>
    ensures { option_map (λ field. field.now) result
        ≡ downtime_field id (map downtime_view rows.now) }
{
    for row in rows {
        if row.id == id {
            return Some(row.service);
        }
    }
    None
}

/// The outcome where the row of an id has this field of the service, if there is a row.
fn outcome_of_field(kind: Kind, missing: Outcome, field: Option<&[u8]>) -> Outcome
    ensures { result
        ≡ outcome_of_field kind missing (option_map (λ field. field.now) field.entry) }
{
    let Some(field) = field else {
        return missing;
    };
    match (kind, kind_of_field(field)) {
        (Kind::Host, Kind::Host) | (Kind::Service, Kind::Service) => Outcome::Accepted,
        (Kind::Host, Kind::Service) | (Kind::Service, Kind::Host) => Outcome::WrongKind,
    }
}

fn is_entry(rows: &[ShownDowntime<'_>], id: u32) -> bool
    ensures { result ≡ is_entry (map downtime_view rows.now) id }
{
    for row in rows {
        if row.id == id {
            return true;
        }
    }
    false
}

/// The outcome of such a downtime.
fn outcome_of_span(page: &StatusPage<'_>, span: Span) -> Outcome
    ensures { result ≡ outcome_of_span (page_view page.now) span }
{
    if span.ends.0 <= span.starts.0 {
        Outcome::BadWindow
    } else if span.ends.0 <= page.moment {
        Outcome::WindowPast
    } else if span.trigger == 0 || is_entry(page.downtimes.as_slice(), span.trigger) {
        Outcome::Accepted
    } else {
        Outcome::NoSuchTrigger
    }
}

/// The outcome of a deed on the object of this row.
fn outcome_of_deed(page: &StatusPage<'_>, deed: Deed, row: ShownObject<'_>) -> Outcome
    ensures { result ≡ outcome_of_deed (page_view page.now) deed (object_view row.entry) }
{
    match deed {
        Deed::Acknowledge { .. } if !row.state.is_problem() => Outcome::NoProblem,
        Deed::RemoveAck if !is_acknowledged(row.acknowledgement) => Outcome::NotAcknowledged,
        Deed::Schedule { span } => outcome_of_span(page, span),
        _ => Outcome::Accepted,
    }
}

/// The outcome of a deed on the object of these names.
fn outcome_on_object(
    alloc: Global,
    page: &StatusPage<'_>,
    host: &Name<'_>,
    service: &Option<Name<'_>>,
    deed: Deed,
) -> Result<Outcome, AllocError>
    ensures { IfOk result (λ outcome. outcome ≡ outcome_for (page_view page.now) host.now
        service.now (outcome_of_deed (page_view page.now) deed)) }
{
    match object_row(alloc, page, host, service)? {
        Ok(row) => Ok(outcome_of_deed(page, deed, row)),
        Err(refusal) => Ok(refusal),
    }
}

fn has_services(rows: &[ShownObject<'_>], names: &Names) -> bool
    ensures { result
        ≡ list_any (λ row. is_service_of names.now.host row.host row.service)
        (map object_view rows.now) }
{
    for row in rows {
        if names.is_host_of(row.host, row.service) {
            return true;
        }
    }
    false
}

/// The outcome of a downtime for each service of a host.
fn outcome_on_services(
    alloc: Global,
    page: &StatusPage<'_>,
    host: &Name<'_>,
    span: Span,
) -> Result<Outcome, AllocError>
    ensures { IfOk result (λ outcome. outcome ≡ outcome_for (page_view page.now) host.now None
        (λ row. if has_services (page_view page.now) host.now
        then outcome_of_span (page_view page.now) span else Outcome.NoServices)) }
{
    if let Err(outcome) = object_row(alloc, page, host, &None)? {
        return Ok(outcome);
    }
    let names = Names::of(alloc, host, &None)?;
    if has_services(page.objects.as_slice(), &names) {
        Ok(outcome_of_span(page, span))
    } else {
        Ok(Outcome::NoServices)
    }
}

/// The outcome of a command that is applied to what the page shows.
fn outcome_on(alloc: Global, page: &StatusPage<'_>, body: &Body) -> Result<Outcome, AllocError>
    ensures { IfOk result (λ outcome. outcome ≡ outcome_on (page_view page.now) body.now) }
{
    match body.act() {
        Act::On {
            host,
            service,
            deed,
        } => outcome_on_object(alloc, page, &host, &service, deed),
        Act::ScheduleServices { host, span } => outcome_on_services(alloc, page, &host, span),
        Act::DelComment { kind, id } => {
            let field = comment_field(page.comments.as_slice(), id);
            Ok(outcome_of_field(kind, Outcome::NoSuchComment, field))
        }
        Act::DelDowntime { kind, id } => {
            let field = downtime_field(page.downtimes.as_slice(), id);
            Ok(outcome_of_field(kind, Outcome::NoSuchDowntime, field))
        }
        Act::Shutdown => Ok(Outcome::Accepted),
    }
}

/// What the gateway would answer to a command, by its status page: `Accepted`, or the first reason
/// to refuse it. Whether passive checks are enabled no page shows: a result is taken for one of an
/// object for which they are. The only error is out of memory.
///
/// External Command List. The refusals and their order are an own rule.
pub fn foreseen_outcome(
    alloc: Global,
    page: &StatusPage<'_>,
    body: &Body,
) -> Result<Outcome, AllocError>
    ensures outcome { IfOk result (λ outcome. outcome ≡ outcome_on (page_view page.now) body.now) }

    // The page of a gateway foresees its answer at the page's moment.
    ensures gateway { (gateway : GatewayView) → IsGateway gateway
        → page_view page.now ≡ shown_board (published_board gateway)
        → IfOk result (λ outcome. outcome
        ≡ as_shown (outcome_after gateway.table gateway.records gateway.moment body.now)) }
{
    outcome_on(alloc, page, body)
}

/// What an outcome says to an operator.
pub fn refusal_text(outcome: Outcome) -> &'static str
    ensures { result.now ≡ refusal_text outcome }
{
    match outcome {
        Outcome::Accepted => "accepted",
        Outcome::NoSuchHost => "the gateway has no such host",
        Outcome::NoSuchService => "the host has no such service",
        Outcome::PassiveDisabled => "passive checks of the object are disabled",
        Outcome::NoServices => "the host has no services",
        Outcome::NoSuchComment => "there is no comment with this number",
        Outcome::NoSuchDowntime => "there is no downtime with this number",
        Outcome::WrongKind => "the number is a host's where a service's is meant, or the reverse",
        Outcome::NoProblem => "there is no problem to acknowledge",
        Outcome::NotAcknowledged => "there is no acknowledgement to remove",
        Outcome::BadWindow => "the downtime doesn't end after its start",
        Outcome::WindowPast => "the downtime is over already",
        Outcome::NoSuchTrigger => "the downtime that triggers it isn't there",
    }
}
