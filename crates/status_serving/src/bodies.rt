//! The bodies of pages: what is kept of the gateways is read, merged, selected and put into order by a
//! query, and shown.
ghost use Rattle.std.specs.Prelude.{◌≡◌, map, IfOk};
ghost use Rattle.std.specs.List.{AllZip};
ghost use Rattle.std.specs.Option.{option_map};
ghost use Rattle.status_reading.specs.Rows.{object_view, page_view};
ghost use Rattle.status_memory.specs.History.{result_view, shown_rows};
ghost use Rattle.status_memory.specs.Memory.{age_of, old_alarm};
ghost use Rattle.status_serving.specs.inner.Rows.{shown_at, each_shown};
ghost use Rattle.status_serving.specs.Pages.{shown_page, IsShownPage, IsPageOf, IsOldOf, since_in, IsShown, IsPage, IsCommentsPage, IsDowntimesPage, json_body, metrics_body, IsStatusText, IsStatusBody, status_kind};

use crate::headings::Heading;
use http::HeaderValue;
use page_watching::{NoPage, Seen, Shared, cause_of, old_cause};
use status_export::{json_text, metrics_text};
use status_memory::{Kept, Memory, ShownResult, Since, by_result};
use status_merge::{
    Gateway, Old, merge, merge_comments, merge_downtimes, page_rows, read_query, retain_comments,
    retain_downtimes, select, sort_rows,
};
use status_reading::{ShownObject, StatusPage};
use status_view::{EntryList, View, entries_page, html_page};
use std::alloc::{AllocError, Global};

/// In which form the status is shown.
#[derive(Clone, Copy)]
pub enum Form {
    Html,
    /// All comments, and all downtime entries, as pages of their own.
    Comments,
    Downtimes,
    Json,
    Metrics,
}

// A row of a page, by its earlier result, where it is among these.
fn shown_at<'t>(
    row: &ShownObject<'t>,
    held: &'t [Option<ShownResult>],
    index: usize,
) -> ShownObject<'t>
    ensures { object_view result
        ≡ shown_at (object_view row.now) (map (option_map result_view) held.now) index }
{
    match held.get(index) {
        Some(result) => by_result(row, result),
        None => *row,
    }
}

fn each_shown<'t>(
    alloc: Global,
    rows: &[ShownObject<'t>],
    held: &'t [Option<ShownResult>],
) -> Result<Vec<ShownObject<'t>>, AllocError>
    ensures { IfOk result (λ shown. map object_view shown.items
        ≡ each_shown rows.now (map (option_map result_view) held.now)) }
{
    let mut shown = Vec::with_capacity(alloc, rows.len())?;
    for (index, row) in rows.iter().enumerate() {
        shown.push(shown_at(row, held, index))?;
    }
    Ok(shown)
}

// The rows of a page, each by its earlier result, where there are some.
#[tactic(auto, using(crate::proofs::RowSteps::no_results, crate::proofs::RowSteps::each_row))]
fn shown_rows<'t>(
    alloc: Global,
    rows: Vec<ShownObject<'t>>,
    held: &'t [Option<ShownResult>],
) -> Result<Vec<ShownObject<'t>>, AllocError>
    ensures { IfOk result (λ shown. map object_view shown.items
        ≡ shown_rows (map object_view rows.entry.items) (map (option_map result_view) held.now)) }
{
    if held.is_empty() {
        Ok(rows)
    } else {
        each_shown(alloc, rows.as_slice(), held)
    }
}

// A page, each object as it is shown.
fn shown_page<'t>(
    alloc: Global,
    page: StatusPage<'t>,
    held: &'t [Option<ShownResult>],
) -> Result<StatusPage<'t>, AllocError>
    ensures { IfOk result (λ shown. page_view shown
        ≡ shown_page (page_view page.entry) (map (option_map result_view) held.now)) }
{
    let StatusPage {
        moment,
        objects,
        comments,
        downtimes,
        closing,
    } = page;
    Ok(StatusPage {
        moment,
        objects: shown_rows(alloc, objects, held)?,
        comments,
        downtimes,
        closing,
    })
}

// The page that is kept, each object as it is shown.
#[tactic(auto, using(crate::proofs::RowSteps::is_shown))]
fn kept_page<'t>(alloc: Global, kept: &'t Kept<Shared>) -> Result<StatusPage<'t>, AllocError>
    ensures { IfOk result (λ page. IsShownPage kept.now (page_view page)) }
{
    match kept.page.text.text.page(alloc) {
        Ok(page) => shown_page(alloc, page, kept.page.text.held.as_slice()),
        // Its text was read before, so memory ran out.
        Err(_) => Err(AllocError),
    }
}

// The page that is kept of a gateway, or the cause why there is none.
fn page_of<'t>(
    alloc: Global,
    memory: &'t Memory<Shared, NoPage>,
) -> Result<Result<StatusPage<'t>, String>, AllocError>
    ensures { IfOk result (IsPageOf memory.now.last memory.now.fault) }
{
    match &memory.last {
        Some(kept) => Ok(Ok(kept_page(alloc, kept)?)),
        None => Ok(Err(cause_of(alloc, memory.fault)?)),
    }
}

// Where the page that is kept of a gateway is old: its age, and the cause.
fn old_of(
    alloc: Global,
    memory: &Memory<Shared, NoPage>,
    now: u64,
) -> Result<Option<Old>, AllocError>
    ensures { IfOk result
        (IsOldOf (old_alarm now memory.now) (age_of now memory.now) memory.now.fault) }
{
    match memory.old_alarm(now) {
        Some(alarm) => Ok(Some(Old {
            age: memory.age(now),
            cause: old_cause(alloc, alarm, memory.fault)?,
        })),
        None => Ok(None),
    }
}

// Since when each object of that page has its state.
fn since_in(last: &Option<Kept<Shared>>) -> &[Since]
    ensures { result.now ≡ since_in last.now }
{
    match last {
        Some(kept) => kept.page.text.since.as_slice(),
        None => &[],
    }
}

/// The gateways of which this is kept, as they are shown at a moment, in seconds since 1970. The only
/// error is out of memory.
pub fn gateways_of<'t>(
    alloc: Global,
    seen: &'t [Seen<'t>],
    now: u64,
) -> Result<Vec<Gateway<'t>>, AllocError>
    ensures { IfOk result (λ gateways. AllZip (IsShown now) seen.now gateways.items) }
{
    let mut gateways = Vec::new(alloc);
    for one in seen {
        gateways.push(Gateway {
            name: one.place.name,
            page: page_of(alloc, &one.memory)?,
            old: old_of(alloc, &one.memory, now)?,
            alarms: one.memory.alarms(alloc, now)?,
            since: since_in(&one.memory.last),
        })?;
    }
    Ok(gateways)
}

// The page for a browser.
fn html_body(
    alloc: Global,
    heading: &Heading<'_>,
    gateways: &[Gateway<'_>],
    query: &str,
    clock: u32,
) -> Result<Vec<u8>, AllocError>
    ensures { IfOk result (λ body.
        IsPage heading.now gateways.now query.now clock body.items) }
{
    let query = read_query(alloc, query, heading.refresh)?;
    let all = merge(alloc, gateways)?;
    let mut rows = select(alloc, all.as_slice(), &query)?;
    let selected = rows.len();
    sort_rows(&mut rows, query.sort)?;
    let objects = page_rows(rows.as_slice(), query.page);
    let mut comments = merge_comments(alloc, gateways, &query)?;
    retain_comments(alloc, &mut comments, objects)?;
    let mut downtimes = merge_downtimes(alloc, gateways, &query)?;
    retain_downtimes(alloc, &mut downtimes, objects)?;
    let view = View {
        title: heading.title,
        clock,
        refresh: heading.refresh,
        marks: heading.marks,
        query: &query,
        gateways,
        all: all.as_slice(),
        selected,
        objects,
        comments: comments.as_slice(),
        downtimes: downtimes.as_slice(),
        changes: &[],
    };
    Ok(html_page(alloc, &view)?.into_bytes())
}

// The page of all comments.
fn comments_body(
    alloc: Global,
    heading: &Heading<'_>,
    gateways: &[Gateway<'_>],
    query: &str,
    clock: u32,
) -> Result<Vec<u8>, AllocError>
    ensures { IfOk result (λ body.
        IsCommentsPage heading.now gateways.now query.now clock body.items) }
{
    let query = read_query(alloc, query, heading.refresh)?;
    let lines = merge_comments(alloc, gateways, &query)?;
    let view = View {
        title: heading.title,
        clock,
        refresh: heading.refresh,
        marks: false,
        query: &query,
        gateways,
        all: &[],
        selected: lines.len(),
        objects: &[],
        comments: page_rows(lines.as_slice(), query.page),
        downtimes: &[],
        changes: &[],
    };
    Ok(entries_page(alloc, &view, EntryList::Comments)?.into_bytes())
}

// The page of all downtime entries.
fn downtimes_body(
    alloc: Global,
    heading: &Heading<'_>,
    gateways: &[Gateway<'_>],
    query: &str,
    clock: u32,
) -> Result<Vec<u8>, AllocError>
    ensures { IfOk result (λ body.
        IsDowntimesPage heading.now gateways.now query.now clock body.items) }
{
    let query = read_query(alloc, query, heading.refresh)?;
    let lines = merge_downtimes(alloc, gateways, &query)?;
    let view = View {
        title: heading.title,
        clock,
        refresh: heading.refresh,
        marks: false,
        query: &query,
        gateways,
        all: &[],
        selected: lines.len(),
        objects: &[],
        comments: &[],
        downtimes: page_rows(lines.as_slice(), query.page),
        changes: &[],
    };
    Ok(entries_page(alloc, &view, EntryList::Downtimes)?.into_bytes())
}

// The same for scripts.
fn json_body(
    alloc: Global,
    heading: &Heading<'_>,
    gateways: &[Gateway<'_>],
    query: &str,
) -> Result<Vec<u8>, AllocError>
    ensures { IfOk result (λ body. body.items ≡ json_body gateways.now query.now) }
{
    let query = read_query(alloc, query, heading.refresh)?;
    let all = merge(alloc, gateways)?;
    let objects = select(alloc, all.as_slice(), &query)?;
    json_text(alloc, gateways, objects.as_slice(), &query)
}

// The metrics of all objects.
fn metrics_body(alloc: Global, gateways: &[Gateway<'_>]) -> Result<Vec<u8>, AllocError>
    ensures { IfOk result (λ body. body.items ≡ metrics_body gateways.now) }
{
    let objects = merge(alloc, gateways)?;
    metrics_text(alloc, gateways, objects.as_slice())
}

fn status_text(
    alloc: Global,
    heading: &Heading<'_>,
    gateways: &[Gateway<'_>],
    query: &str,
    clock: u32,
    form: Form,
) -> Result<Vec<u8>, AllocError>
    ensures { IfOk result (λ body.
        IsStatusText heading.now gateways.now query.now clock form body.items) }
{
    match form {
        Form::Html => html_body(alloc, heading, gateways, query, clock),
        Form::Comments => comments_body(alloc, heading, gateways, query, clock),
        Form::Downtimes => downtimes_body(alloc, heading, gateways, query, clock),
        Form::Json => json_body(alloc, heading, gateways, query),
        Form::Metrics => metrics_body(alloc, gateways),
    }
}

/// The status of the gateways of which this is kept, in a form, for an answer that has a body;
/// nothing for another. The only error is out of memory.
pub fn status_body<'t>(
    alloc: Global,
    heading: &Heading<'_>,
    seen: &'t [Seen<'t>],
    query: &str,
    clock: u32,
    form: Form,
    whole: bool,
) -> Result<Vec<u8>, AllocError>
    ensures { IfOk result (λ body.
        IsStatusBody whole heading.now seen.now query.now clock form body.items) }
{
    if whole {
        let gateways = gateways_of(alloc, seen, u64::from(clock))?;
        status_text(alloc, heading, gateways.as_slice(), query, clock, form)
    } else {
        Ok(Vec::new(alloc))
    }
}

/// The type of a form.
pub fn status_kind(form: Form) -> HeaderValue
    ensures { result.bytes ≡ status_kind form }
{
    HeaderValue::from_static(match form {
        Form::Html | Form::Comments | Form::Downtimes => "text/html; charset=utf-8",
        Form::Json => "application/json",
        Form::Metrics => "text/plain; version=0.0.4; charset=utf-8",
    })
}
