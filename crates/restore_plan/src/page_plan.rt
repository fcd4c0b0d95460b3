//! The fates of the rows of a kept status page, where there is no log.

ghost use Rattle.std.specs.Prelude.{◌≡◌, ◌++◌, ◌<◌, ◌≤◌, length, take, drop, map, filter_map, None, IfOk, IfSome, OnOk};
ghost use Rattle.status_reading.specs.Plain.{plain_bytes};
ghost use Rattle.status_reading.specs.RowFaults.{IsSound};
ghost use Rattle.status_reading.specs.Rows.{page_view};
ghost use Rattle.gate_table.specs.Faults.{IsFaultless};
ghost use Rattle.restore_plan.specs.Acceptance.{AcceptsOthers, AcknowledgesProblems};
ghost use Rattle.restore_plan.specs.Plan.{commands_of};
ghost use Rattle.restore_plan.specs.Rehearsal.{first_refusal};
ghost use Rattle.restore_plan.specs.Scheduling.{sent_terms, AreSchedulable};
ghost use Rattle.restore_plan.specs.PagePlan.{plain_service, object_of_fields, code_of, object_fate, object_fates, has_no_result, mark_in, mark_of, is_of_acknowledgement, has_acknowledgement, mark_by, number, comment_body, fate_at, comment_row_fate, plan_of_row, row_terms, row_renewals_of, line_of_row, row_fate, is_entry_of, entry_index, is_of_downtime, taken_by, own_fates, others_among, page_others};

use crate::entries::{Terms, fate_on, push_id, renewed_terms};
use crate::fates::{Cause, Fate, object_of, sent_to};
use crate::objects::{is_outdated, threshold_of};
use crate::plan::Plan;
use gate_model::{Body, Moment, ObjectId, ObjectLine, Plan as Asked, State, Text};
use gate_table::ObjectTable;
use status_reading::{
    ShownAcknowledgement, ShownComment, ShownDowntime, ShownObject, ShownSource, StatusPage,
    plain_bytes,
};
use std::alloc::{AllocError, Global};

// ---- names

fn plain(alloc: Global, field: &[u8]) -> Result<Text, AllocError>
    ensures { IfOk result (λ text. text ≡ plain_bytes field.now) }
{
    Ok(Text::new(plain_bytes(alloc, field)?))
}

fn plain_service(alloc: Global, field: &[u8]) -> Result<Option<Text>, AllocError>
    ensures { IfOk result (λ name. name ≡ plain_service field.now) }
{
    if field.is_empty() {
        return Ok(None);
    }
    Ok(Some(plain(alloc, field)?))
}

// ---- objects

/// The least return code that means the state.
fn code_of(state: State) -> Option<i16>
    ensures { result ≡ code_of state }
{
    match state {
        State::Pending => None,
        State::Ok | State::Up => Some(0),
        State::Warning | State::Down => Some(1),
        State::Critical | State::Unreachable => Some(2),
        State::Unknown => Some(3),
    }
}

/// The fate of an object's row, unless it is PENDING.
fn object_fate(
    alloc: Global,
    fresh: &ObjectTable,
    now: Moment,
    row: &ShownObject<'_>,
) -> Result<Option<Fate>, AllocError>
    ensures { IfOk result (λ fate. fate ≡ object_fate fresh.now now row.now) }
{
    let (Some(code), Some(last)) = (code_of(row.state), row.last) else {
        return Ok(None);
    };
    let host = plain(alloc, row.host)?;
    let service = plain_service(alloc, row.service)?;
    let object = object_of(fresh, &host, &service);
    let body = Body::Result {
        host,
        service,
        code,
        output: plain(alloc, row.output)?,
    };
    if is_outdated(threshold_of(fresh, object), Moment(last), now) {
        return Ok(Some(Fate::Left(Cause::TooOld, body)));
    }
    Ok(Some(sent_to(object, body)))
}

fn object_fates(
    alloc: Global,
    fresh: &ObjectTable,
    now: Moment,
    rows: &[ShownObject<'_>],
) -> Result<Vec<Fate>, AllocError>
    ensures { IfOk result (λ fates. fates.items ≡ object_fates fresh.now now rows.now) }
{
    let mut fates = Vec::new(alloc);
    for row in rows {
        let fate = object_fate(alloc, fresh, now, row)?;
        if let Some(fate) = fate {
            fates.push(fate)?;
        }
    }
    Ok(fates)
}

// ---- comments

/// Whether there is no result, or it is outdated.
fn has_no_result(threshold: u32, now: Moment, last: Option<u32>) -> bool
    ensures { result ≡ has_no_result threshold now last }
{
    match last {
        None => true,
        Some(last) => is_outdated(threshold, Moment(last), now),
    }
}

/// How the object of this row is acknowledged, where its result is sent.
fn mark_in(threshold: u32, now: Moment, row: &ShownObject<'_>) -> ShownAcknowledgement
    ensures { result ≡ mark_in threshold now row.now }
{
    if has_no_result(threshold, now, row.last) {
        ShownAcknowledgement::Missing
    } else {
        row.acknowledgement
    }
}

/// How the object of this comment is acknowledged.
fn mark_of(
    threshold: u32,
    now: Moment,
    objects: &[ShownObject<'_>],
    row: &ShownComment<'_>,
) -> Option<ShownAcknowledgement>
    ensures { result ≡ mark_of threshold now objects.now row.now }
{
    for object in objects {
        if object.host == row.host && object.service == row.service {
            return Some(mark_in(threshold, now, object));
        }
    }
    None
}

fn is_of_acknowledgement(source: ShownSource) -> bool
    ensures { result ≡ is_of_acknowledgement source }
{
    match source {
        ShownSource::Acknowledgement => true,
        ShownSource::User | ShownSource::Downtime => false,
    }
}

/// Whether one of these comments is of an acknowledgement of the same object.
fn has_acknowledgement(row: &ShownComment<'_>, later: &[ShownComment<'_>]) -> bool
    ensures { result ≡ has_acknowledgement row.now later.now }
{
    for one in later {
        if is_of_acknowledgement(one.source) && one.host == row.host && one.service == row.service {
            return true;
        }
    }
    false
}

/// How the comment acknowledges its object, if it is the last one that does.
fn mark_by(
    threshold: u32,
    now: Moment,
    objects: &[ShownObject<'_>],
    row: &ShownComment<'_>,
    later: &[ShownComment<'_>],
) -> Option<ShownAcknowledgement>
    ensures { result ≡ mark_by threshold now objects.now row.now later.now }
{
    if !is_of_acknowledgement(row.source) || has_acknowledgement(row, later) {
        return None;
    }
    mark_of(threshold, now, objects, row)
}

fn number(flag: bool) -> u32
    ensures { result ≡ number flag }
{
    if flag { 1 } else { 0 }
}

/// The command that brings the comment again.
fn comment_body(
    alloc: Global,
    mark: Option<ShownAcknowledgement>,
    row: &ShownComment<'_>,
) -> Result<Body, AllocError>
    ensures { IfOk result (λ body. body ≡ comment_body mark row.now) }
{
    let host = plain(alloc, row.host)?;
    let service = plain_service(alloc, row.service)?;
    let author = plain(alloc, row.author)?;
    let text = plain(alloc, row.text)?;
    let persistent = number(row.persistent);
    let sticky = match mark {
        Some(ShownAcknowledgement::Normal) => 1,
        Some(ShownAcknowledgement::Sticky) => 2,
        Some(ShownAcknowledgement::Missing) | None => {
            return Ok(Body::AddComment {
                host,
                service,
                persistent,
                author,
                text,
            });
        }
    };
    Ok(Body::Acknowledge {
        host,
        service,
        sticky,
        notify: 0,
        persistent,
        author,
        text,
    })
}

/// The fresh gateway's object of these fields.
fn object_of_fields(
    alloc: Global,
    fresh: &ObjectTable,
    host: &[u8],
    service: &[u8],
) -> Result<Option<ObjectId>, AllocError>
    ensures { IfOk result (λ object. object ≡ object_of_fields fresh.now host.now service.now) }
{
    let host = plain(alloc, host)?;
    let service = plain_service(alloc, service)?;
    Ok(object_of(fresh, &host, &service))
}

/// The fate of a comment that is of no downtime, on this object of the fresh gateway.
fn fate_at(
    alloc: Global,
    fresh: &ObjectTable,
    now: Moment,
    objects: &[ShownObject<'_>],
    row: &ShownComment<'_>,
    later: &[ShownComment<'_>],
    object: Option<ObjectId>,
) -> Result<Fate, AllocError>
    ensures { IfOk result (λ fate.
        fate ≡ fate_at fresh.now now objects.now row.now later.now object) }
{
    let threshold = threshold_of(fresh, object);
    let mark = mark_by(threshold, now, objects, row, later);
    Ok(sent_to(object, comment_body(alloc, mark, row)?))
}

/// The fate of a comment that is of no downtime.
fn comment_row_fate(
    alloc: Global,
    fresh: &ObjectTable,
    now: Moment,
    objects: &[ShownObject<'_>],
    row: &ShownComment<'_>,
    later: &[ShownComment<'_>],
) -> Result<Fate, AllocError>
    ensures { IfOk result (λ fate.
        fate ≡ comment_row_fate fresh.now now objects.now row.now later.now) }
{
    let object = object_of_fields(alloc, fresh, row.host, row.service)?;
    fate_at(alloc, fresh, now, objects, row, later, object)
}

// ---- downtime

/// An entry of a kept page.
#[derive(Clone, Copy)]
pub struct RowRenewal<'a> {
    pub row: ShownDowntime<'a>,
    /// On which terms it is scheduled again, or why it isn't.
    pub terms: Result<Terms, Cause>,
}

fn plan_of_row(row: &ShownDowntime<'_>) -> Asked
    ensures { result ≡ plan_of_row row.now }
{
    Asked {
        starts: Moment(row.start),
        ends: Moment(row.end),
        fixed: row.fixed,
        trigger: row.trigger,
        lasts: row.duration,
        log_index: 0,
    }
}

/// The terms of an entry after those that are sent.
fn row_terms(
    alloc: Global,
    fresh: &ObjectTable,
    now: Moment,
    until: Moment,
    sent: &[u32],
    row: &ShownDowntime<'_>,
) -> Result<Result<Terms, Cause>, AllocError>
    ensures { IfOk result (λ terms. terms ≡ row_terms fresh.now now until sent.now row.now) }
{
    let object = object_of_fields(alloc, fresh, row.host, row.service)?;
    let known = object.is_some();
    let plan = plan_of_row(row);
    Ok(renewed_terms(now, until, sent, known, plan, row.begin))
}

/// The entries of a page, ids ascending, with their terms.
fn row_renewals_of<'a>(
    alloc: Global,
    fresh: &ObjectTable,
    now: Moment,
    until: Moment,
    rows: &[ShownDowntime<'a>],
) -> Result<Vec<RowRenewal<'a>>, AllocError>
    ensures { IfOk result (λ renewals.
        renewals.items ≡ row_renewals_of fresh.now now until rows.now) }
{
    let mut renewals = Vec::new(alloc);
    let mut sent = Vec::new(alloc);
    for row in rows {
        let terms = row_terms(alloc, fresh, now, until, sent.as_slice(), row)?;
        push_id(&mut sent, row.id, terms)?;
        renewals.push(RowRenewal { row: *row, terms })?;
    }
    Ok(renewals)
}

fn line_of_row(alloc: Global, row: &ShownDowntime<'_>) -> Result<ObjectLine, AllocError>
    ensures { IfOk result (λ line. line ≡ line_of_row row.now) }
{
    Ok(ObjectLine {
        host: plain(alloc, row.host)?,
        service: plain_service(alloc, row.service)?,
        threshold: 0,
    })
}

/// The fate of an entry, by its terms.
fn row_fate(alloc: Global, one: &RowRenewal<'_>) -> Result<Fate, AllocError>
    ensures { IfOk result (λ fate. fate ≡ row_fate one.now) }
{
    let line = line_of_row(alloc, &one.row)?;
    let author = plain(alloc, one.row.author)?;
    let text = plain(alloc, one.row.text)?;
    let plan = plan_of_row(&one.row);
    fate_on(alloc, &line, plan, one.terms, &author, &text)
}

/// Appends the fates of these entries.
fn push_rows(
    alloc: Global,
    entries: &[RowRenewal<'_>],
    fates: &mut Vec<Fate>,
) -> Result<(), AllocError>
    ensures { OnOk result (fates.new.items ≡ fates.old.items ++ map row_fate entries.now) }
{
    for one in entries {
        let fate = row_fate(alloc, one)?;
        fates.push(fate)?;
    }
    Ok(())
}

// ---- the order of comments

/// Whether the comment is that of the entry.
fn is_entry_of(row: &ShownComment<'_>, one: &RowRenewal<'_>) -> bool
    ensures { result ≡ is_entry_of row.now one.now }
{
    one.row.host == row.host
        && one.row.service == row.service
        && one.row.author == row.author
        && one.row.text == row.text
}

/// The index of the first of these entries whose comment it is.
fn entry_index(row: &ShownComment<'_>, entries: &[RowRenewal<'_>]) -> Option<usize>
    ensures index { result ≡ entry_index row.now entries.now }
    ensures within { IfSome result (λ index. index < length entries.now) }
{
    for (index, one) in entries.iter().enumerate() {
        if is_entry_of(row, one) {
            return Some(index);
        }
    }
    None
}

fn is_of_downtime(source: ShownSource) -> bool
    ensures { result ≡ is_of_downtime source }
{
    match source {
        ShownSource::Downtime => true,
        ShownSource::User | ShownSource::Acknowledgement => false,
    }
}

/// How many of these entries stand before the comment, with its own.
fn taken_by(row: &ShownComment<'_>, left: &[RowRenewal<'_>]) -> usize
    ensures taken { result ≡ taken_by row.now left.now }
    ensures within { result ≤ length left.now }
{
    if !is_of_downtime(row.source) {
        return 0;
    }
    match entry_index(row, left) {
        Some(index) => index + 1,
        None => 0,
    }
}

/// Appends the fate of a comment that is of no downtime.
fn push_own(
    alloc: Global,
    fresh: &ObjectTable,
    now: Moment,
    objects: &[ShownObject<'_>],
    row: &ShownComment<'_>,
    later: &[ShownComment<'_>],
    fates: &mut Vec<Fate>,
) -> Result<(), AllocError>
    ensures { OnOk result (fates.new.items
        ≡ fates.old.items ++ own_fates fresh.now now objects.now row.now later.now) }
{
    if is_of_downtime(row.source) {
        return Ok(());
    }
    let fate = comment_row_fate(alloc, fresh, now, objects, row, later)?;
    fates.push(fate)?;
    Ok(())
}

/// Appends the fates of the entries up to that of a comment, of which the first `done` are appended,
/// and its own; returns how many entries are appended then.
#[tactic(auto, using(crate::proofs::RowSteps::left_after))]
fn push_up_to(
    alloc: Global,
    fresh: &ObjectTable,
    now: Moment,
    objects: &[ShownObject<'_>],
    entries: &[RowRenewal<'_>],
    row: &ShownComment<'_>,
    later: &[ShownComment<'_>],
    done: usize,
    fates: &mut Vec<Fate>,
) -> Result<usize, AllocError>
    requires { done ≤ length entries.now }
    ensures pushed { let left = drop done entries.now in OnOk result (
        fates.new.items ≡ fates.old.items
        ++ map row_fate (take (taken_by row.now left) left)
        ++ own_fates fresh.now now objects.now row.now later.now) }
    ensures rest { let left = drop done entries.now in IfOk result (λ next.
        drop next entries.now ≡ drop (taken_by row.now left) left) }
    ensures within { IfOk result (λ next. next ≤ length entries.now) }
{
    let left = &entries[done..];
    let taken = taken_by(row, left);
    push_rows(alloc, &left[..taken], fates)?;
    push_own(alloc, fresh, now, objects, row, later, fates)?;
    Ok(done + taken)
}

/// The fates of these comments and entries.
fn walk(
    alloc: Global,
    fresh: &ObjectTable,
    now: Moment,
    objects: &[ShownObject<'_>],
    comments: &[ShownComment<'_>],
    entries: &[RowRenewal<'_>],
) -> Result<Vec<Fate>, AllocError>
    ensures { IfOk result (λ fates.
        fates.items ≡ others_among fresh.now now objects.now comments.now entries.now) }
{
    let mut fates = Vec::new(alloc);
    let mut done = 0;
    for (index, row) in comments.iter().enumerate() {
        let later = &comments[index + 1..];
        done = push_up_to(
            alloc, fresh, now, objects, entries, row, later, done, &mut fates,
        )?;
    }
    push_rows(alloc, &entries[done..], &mut fates)?;
    Ok(fates)
}

/// The fates of comments and entries.
fn others_on(
    alloc: Global,
    fresh: &ObjectTable,
    now: Moment,
    until: Moment,
    page: &StatusPage<'_>,
) -> Result<Vec<Fate>, AllocError>
    ensures { IfOk result (λ fates. fates.items ≡ page_others fresh.now now until page.now) }
{
    let entries = row_renewals_of(alloc, fresh, now, until, page.downtimes.as_slice())?;
    let objects = page.objects.as_slice();
    let comments = page.comments.as_slice();
    walk(alloc, fresh, now, objects, comments, entries.as_slice())
}

/// The fate of each row of a kept status page, on a fresh gateway over these objects that applies all
/// by the moment `until`: a page has no log, so a return code is the least of its state, passive checks
/// that were disabled are unknown, and a comment is that of the next entry with its author and its
/// text. The only error is out of memory. Own rule.
#[tactic(auto, using(crate::proofs::PageSteps::of_page))]
pub fn plan_of_page(
    alloc: Global,
    fresh: &ObjectTable,
    page: &StatusPage<'_>,
    now: Moment,
    until: Moment,
) -> Result<Plan, AllocError>
    ensures results { IfOk result (λ plan.
        plan.results.items ≡ object_fates fresh.now now page.now.objects.items) }
    ensures others { IfOk result (λ plan.
        plan.others.items ≡ page_others fresh.now now until page.now) }

    // What is sent can be scheduled: no window is over by then, and each trigger is the number of an
    // entry that is sent before it.
    ensures schedulable { IfOk result (λ plan.
        AreSchedulable until 0 (filter_map sent_terms plan.others.items)) }

    // At that moment, and one after another, none of it is refused but maybe an acknowledgement; nor
    // is one where the page is such as a gateway's: no row has a fault, and only problems are
    // acknowledged.
    ensures accepted { IfOk result (λ plan. IsFaultless fresh.now
        → AcceptsOthers fresh.now until (commands_of plan)) }
    ensures acknowledged { IfOk result (λ plan. IsFaultless fresh.now
        → IsSound (page_view page.now) → AcknowledgesProblems page.now
        → first_refusal fresh.now until (commands_of plan) ≡ None) }
{
    let results = object_fates(alloc, fresh, now, page.objects.as_slice())?;
    let others = others_on(alloc, fresh, now, until, page)?;
    Ok(Plan { results, others })
}
