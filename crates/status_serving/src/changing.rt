//! The changes of states that are kept of gateways, the newest first: as a page, as a feed or as JSON
//! lines.

ghost use Rattle.std.specs.Prelude.{◌≡◌, ◌++◌, map, IfOk, OnOk};
ghost use Rattle.std.specs.List.{flat_map};
ghost use Rattle.status_export.specs.Document.{service_json};
ghost use Rattle.status_export.specs.Lines.{value_json};
ghost use Rattle.status_serving.specs.Changing.{changes_in, named, from_json, changes_on, AreChanges, change_line, change_lines, IsChangesText, IsChangesBody, kind_of};

use crate::bodies::gateways_of;
use crate::headings::Heading;
use http::HeaderValue;
use page_watching::{NoPage, Seen, Shared};
use status_export::{Value, json_line};
use status_memory::{GatewayChange, Memory, StateChange};
use status_merge::{Gateway, Query};
use status_reading::{State, state_name};
use status_view::{View, changes_feed, changes_page};
use std::alloc::{AllocError, Global};

/// In which form the changes are shown.
#[derive(Clone, Copy)]
pub enum ChangesForm {
    Html,
    Feed,
    Lines,
}

fn changes_in(memory: &Memory<Shared, NoPage>) -> &[StateChange]
    ensures { result.now ≡ changes_in memory.now.last }
{
    match &memory.last {
        Some(kept) => kept.page.text.changes.as_slice(),
        None => &[],
    }
}

// Appends the changes of a gateway.
fn push_changes<'t>(
    changes: &mut Vec<GatewayChange<'t>>,
    seen: &'t Seen<'t>,
) -> Result<(), AllocError>
    ensures { OnOk result
        (map named changes.new.items ≡ map named changes.old.items ++ changes_on seen.now) }
{
    for change in changes_in(&seen.memory) {
        changes.push(GatewayChange {
            gateway: seen.place.name,
            change,
        })?;
    }
    Ok(())
}

fn all_changes<'t>(
    alloc: Global,
    seen: &'t [Seen<'t>],
) -> Result<Vec<GatewayChange<'t>>, AllocError>
    ensures { IfOk result (λ changes. map named changes.items ≡ flat_map changes_on seen.now) }
{
    let mut changes = Vec::new(alloc);
    for one in seen {
        push_changes(&mut changes, one)?;
    }
    Ok(changes)
}

/// The changes of the gateways of which this is kept, the newest first. The only error is out of
/// memory.
pub fn changes_of<'t>(
    alloc: Global,
    seen: &'t [Seen<'t>],
) -> Result<Vec<GatewayChange<'t>>, AllocError>
    ensures { IfOk result (λ changes. AreChanges seen.now changes.items) }
{
    let mut changes = all_changes(alloc, seen)?;
    changes.sort_by_key(|shown| shown.change.moment)?;
    changes.reverse();
    Ok(changes)
}

// The name of a service, or `null` for a host.
fn service_value(service: &[u8]) -> Value<'_>
    ensures { value_json result ≡ service_json service.entry.now }
{
    if service.is_empty() {
        Value::Null
    } else {
        Value::Field(service)
    }
}

// The name of the state before a change, or `null` for an object that is new.
fn from_value<'a>(from: Option<State>) -> Value<'a>
    ensures { value_json result ≡ from_json from }
{
    match from {
        Some(state) => Value::Word(state_name(state)),
        None => Value::Null,
    }
}

fn push_line(
    alloc: Global,
    lines: &mut Vec<u8>,
    shown: &GatewayChange<'_>,
) -> Result<(), AllocError>
    ensures { OnOk result (lines.new.items ≡ lines.old.items ++ change_line shown.now) }
{
    let change = shown.change;
    let line = json_line(
        alloc,
        &[
            ("moment", Value::Number(change.moment)),
            ("gateway", Value::Word(shown.gateway)),
            ("host", Value::Field(change.host.as_slice())),
            ("service", service_value(change.service.as_slice())),
            ("from", from_value(change.from)),
            ("to", Value::Word(state_name(change.to))),
        ],
    )?;
    lines.extend_from_slice(line.as_slice())?;
    lines.push(b'\n')?;
    Ok(())
}

fn change_lines(alloc: Global, changes: &[GatewayChange<'_>]) -> Result<Vec<u8>, AllocError>
    ensures { IfOk result (λ lines. lines.items ≡ change_lines changes.now) }
{
    let mut lines = Vec::new(alloc);
    for shown in changes {
        push_line(alloc, &mut lines, shown)?;
    }
    Ok(lines)
}

fn changes_text(
    alloc: Global,
    heading: &Heading<'_>,
    gateways: &[Gateway<'_>],
    changes: &[GatewayChange<'_>],
    clock: u32,
    form: ChangesForm,
) -> Result<Vec<u8>, AllocError>
    ensures { IfOk result (λ body.
        IsChangesText heading.now gateways.now changes.now clock form body.items) }
{
    let query = Query::new(alloc, heading.refresh);
    let view = View {
        title: heading.title,
        clock,
        refresh: heading.refresh,
        marks: false,
        query: &query,
        gateways,
        all: &[],
        selected: 0,
        objects: &[],
        comments: &[],
        downtimes: &[],
        changes,
    };
    match form {
        ChangesForm::Html => Ok(changes_page(alloc, &view)?.into_bytes()),
        ChangesForm::Feed => Ok(changes_feed(alloc, &view)?.into_bytes()),
        ChangesForm::Lines => change_lines(alloc, changes),
    }
}

/// The changes of the gateways of which this is kept, in a form, for an answer that has a body;
/// nothing for another. The only error is out of memory.
pub fn changes_body<'t>(
    alloc: Global,
    heading: &Heading<'_>,
    seen: &'t [Seen<'t>],
    clock: u32,
    form: ChangesForm,
    whole: bool,
) -> Result<Vec<u8>, AllocError>
    ensures { IfOk result (λ body.
        IsChangesBody whole heading.now seen.now clock form body.items) }
{
    if whole {
        let gateways = gateways_of(alloc, seen, u64::from(clock))?;
        let changes = changes_of(alloc, seen)?;
        changes_text(
            alloc,
            heading,
            gateways.as_slice(),
            changes.as_slice(),
            clock,
            form,
        )
    } else {
        Ok(Vec::new(alloc))
    }
}

/// The type of a form.
pub fn kind_of(form: ChangesForm) -> HeaderValue
    ensures { result.bytes ≡ kind_of form }
{
    HeaderValue::from_static(match form {
        ChangesForm::Html => "text/html; charset=utf-8",
        ChangesForm::Feed => "application/atom+xml",
        ChangesForm::Lines => "application/x-ndjson",
    })
}
