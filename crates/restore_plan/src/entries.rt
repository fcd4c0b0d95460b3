//! The fates of downtime entries.

ghost use Rattle.std.specs.Prelude.{◌≡◌, ◌++◌, filter_map, IfOk, OnOk};
ghost use Rattle.restore_plan.specs.Entries.{is_known, id_at, index_of, new_id, is_plain, since, as_planned, unbegun_terms, terms_of, is_momentary, is_over, terms_until, renewed_terms, with_id, is_schedule, can_be_sent, live_terms, renewals_of, fate_on, fate_by, entry_fate};

use crate::fates::{Cause, Fate, copied, copied_service, object_of};
use gate_applier::{Applier, LiveDowntime};
use gate_model::{Body, Moment, ObjectLine, Plan, Scheduled, Text};
use gate_table::ObjectTable;
use std::alloc::{AllocError, Global};

/// When an entry is, and what begins it.
#[derive(Clone, Copy)]
pub struct Terms {
    pub starts: Moment,
    pub ends: Moment,
    pub fixed: u32,
    pub trigger: u32,
    /// The seconds of a flexible entry.
    pub lasts: u32,
}

/// A live entry of a kept gateway.
#[derive(Drop)]
pub struct Renewal {
    pub entry: LiveDowntime,
    /// On which terms it is scheduled again, or why it isn't.
    pub terms: Result<Terms, Cause>,
}

// ---- ids

/// Whether the fresh gateway has the object that the kept gateway's has at this place.
fn is_known(fresh: &ObjectTable, table: &ObjectTable, place: u32) -> bool
    ensures { result ≡ is_known fresh.now table.now place }
{
    match table.line(place) {
        Some(line) => object_of(fresh, &line.host, &line.service).is_some(),
        None => false,
    }
}

/// The id of the entry that is sent at this index; ids have 32 bits.
fn id_at(index: usize) -> Option<u32>
    ensures { result ≡ id_at index }
{
    if index < 4294967295 {
        Some(index as u32 + 1)
    } else {
        None
    }
}

/// The index of this id.
fn index_of(id: u32, ids: &[u32]) -> Option<usize>
    ensures { result ≡ index_of id ids.now }
{
    for (index, one) in ids.iter().enumerate() {
        if *one == id {
            return Some(index);
        }
    }
    None
}

/// The id of an entry on the fresh gateway, where these are sent.
fn new_id(sent: &[u32], id: u32) -> Option<u32>
    ensures { result ≡ new_id sent.now id }
{
    id_at(index_of(id, sent)?)
}

// ---- terms

/// Whether the entry is fixed, and waits for no trigger.
fn is_plain(plan: Plan) -> bool
    ensures { result ≡ is_plain plan }
{
    plan.fixed && plan.trigger == 0
}

/// From this beginning to the entry's end, as fixed downtime.
fn since(plan: Plan, begin: u32) -> Terms
    ensures { result ≡ since plan begin }
{
    let ends = if plan.fixed {
        plan.ends
    } else {
        Moment(begin.saturating_add(plan.lasts))
    };
    Terms {
        starts: Moment(begin),
        ends,
        fixed: 1,
        trigger: 0,
        lasts: plan.lasts,
    }
}

/// As it was planned, with this trigger.
fn as_planned(plan: Plan, trigger: u32) -> Terms
    ensures { result ≡ as_planned plan trigger }
{
    Terms {
        starts: plan.starts,
        ends: plan.ends,
        fixed: if plan.fixed { 1 } else { 0 },
        trigger,
        lasts: plan.lasts,
    }
}

/// The terms of an entry as it was planned, with the new id of its trigger, where it has one.
fn unbegun_terms(trigger: Option<u32>, plan: Plan) -> Option<Terms>
    ensures { result ≡ unbegun_terms trigger plan }
{
    if plan.trigger == 0 {
        return Some(as_planned(plan, 0));
    }
    Some(as_planned(plan, trigger?))
}

/// The terms of an entry, given the new id of its trigger.
fn terms_of(now: Moment, trigger: Option<u32>, plan: Plan, begin: Option<u32>) -> Option<Terms>
    ensures { result ≡ terms_of now trigger plan begin }
{
    let Some(begin) = begin else {
        return unbegun_terms(trigger, plan);
    };
    if begin > now.0 || is_plain(plan) {
        return unbegun_terms(trigger, plan);
    }
    Some(since(plan, begin))
}

/// Whether a flexible entry of no duration waits for a trigger: it is over as soon as it begins.
fn is_momentary(terms: Terms) -> bool
    ensures { result ≡ is_momentary terms }
{
    terms.trigger != 0 && terms.fixed != 1 && terms.lasts == 0
}

/// Whether the window is empty, or over by this moment, or the entry as soon as it begins.
fn is_over(until: Moment, terms: Terms) -> bool
    ensures { result ≡ is_over until terms }
{
    terms.ends.0 <= terms.starts.0.max(until.0) || is_momentary(terms)
}

/// The terms, unless their window is over by then.
fn terms_until(until: Moment, terms: Option<Terms>) -> Result<Terms, Cause>
    ensures { result ≡ terms_until until terms }
{
    match terms {
        None => Err(Cause::NoTrigger),
        Some(terms) => {
            if is_over(until, terms) {
                Err(Cause::Over)
            } else {
                Ok(terms)
            }
        }
    }
}

/// The terms on which an entry is scheduled again after those that are sent, or why it isn't.
pub fn renewed_terms(
    now: Moment,
    until: Moment,
    sent: &[u32],
    known: bool,
    plan: Plan,
    begin: Option<u32>,
) -> Result<Terms, Cause>
    ensures { result ≡ renewed_terms now until sent.now known plan begin }
{
    if !known {
        return Err(Cause::NoSuchObject);
    }
    terms_until(
        until,
        terms_of(now, new_id(sent, plan.trigger), plan, begin),
    )
}

// ---- all entries

/// Appends the id of an entry that is scheduled again.
pub fn push_id(sent: &mut Vec<u32>, id: u32, terms: Result<Terms, Cause>) -> Result<(), AllocError>
    ensures { OnOk result (sent.new.items ≡ with_id sent.old.items id terms) }
{
    match terms {
        Ok(_) => sent.push(id)?,
        Err(_) => {}
    }
    Ok(())
}

/// When an entry begins, in seconds, if it does.
fn begin_of(entry: &LiveDowntime) -> Option<u32>
    ensures { result ≡ entry.now.begin }
{
    match entry.begin() {
        Some(begin) => Some(begin.0),
        None => None,
    }
}

/// Whether a command schedules downtime.
fn is_schedule(body: &Body) -> bool
    ensures { result ≡ is_schedule body.now }
{
    matches!(body, Body::Schedule { .. } | Body::ScheduleServices { .. })
}

/// Whether the fresh gateway has the object of a live entry, and a record scheduled it.
fn can_be_sent(fresh: &ObjectTable, kept: &Applier, entry: &LiveDowntime) -> bool
    ensures { result ≡ can_be_sent fresh.now kept.now entry.now }
{
    let scheduled = entry.scheduled();
    if !is_known(fresh, kept.table(), scheduled.object.place) {
        return false;
    }
    match kept.records().get(scheduled.plan.log_index as usize) {
        Some(record) => is_schedule(&record.item.body),
        None => false,
    }
}

/// The terms of a live entry after those that are sent.
fn live_terms(
    fresh: &ObjectTable,
    kept: &Applier,
    until: Moment,
    sent: &[u32],
    entry: &LiveDowntime,
) -> Result<Terms, Cause>
    ensures { result ≡ live_terms fresh.now kept.now until sent.now entry.now }
{
    let known = can_be_sent(fresh, kept, entry);
    let plan = entry.scheduled().plan;
    renewed_terms(kept.moment(), until, sent, known, plan, begin_of(entry))
}

/// The live entries of a kept gateway, ids ascending, with their terms.
pub fn renewals_of(
    alloc: Global,
    fresh: &ObjectTable,
    kept: &Applier,
    until: Moment,
) -> Result<Vec<Renewal>, AllocError>
    ensures { IfOk result (λ renewals. renewals.items ≡ renewals_of fresh.now kept.now until) }
{
    let mut renewals = Vec::new(alloc);
    let mut sent = Vec::new(alloc);
    for entry in kept.downtimes() {
        let terms = live_terms(fresh, kept, until, sent.as_slice(), &entry);
        push_id(&mut sent, entry.scheduled().id, terms)?;
        renewals.push(Renewal { entry, terms })?;
    }
    Ok(renewals)
}

// ---- fates

/// The command that schedules downtime for the object of a line on these terms.
fn schedule(
    alloc: Global,
    line: &ObjectLine,
    terms: Terms,
    author: &Text,
    text: &Text,
) -> Result<Body, AllocError>
    ensures { IfOk result (λ body. body
        ≡ Body.Schedule line.now.host line.now.service terms.starts terms.ends terms.fixed
        terms.trigger terms.lasts author.now text.now) }
{
    Ok(Body::Schedule {
        host: copied(alloc, &line.host)?,
        service: copied_service(alloc, &line.service)?,
        starts: terms.starts,
        ends: terms.ends,
        fixed: terms.fixed,
        trigger: terms.trigger,
        lasts: terms.lasts,
        author: copied(alloc, author)?,
        text: copied(alloc, text)?,
    })
}

/// The fate of an entry of the object of a line, by its terms.
pub fn fate_on(
    alloc: Global,
    line: &ObjectLine,
    plan: Plan,
    terms: Result<Terms, Cause>,
    author: &Text,
    text: &Text,
) -> Result<Fate, AllocError>
    ensures { IfOk result (λ fate. fate ≡ fate_on line.now plan terms author.now text.now) }
{
    match terms {
        Ok(terms) => Ok(Fate::Sent(schedule(alloc, line, terms, author, text)?)),
        Err(cause) => {
            let terms = as_planned(plan, plan.trigger);
            let body = schedule(alloc, line, terms, author, text)?;
            Ok(Fate::Left(cause, body))
        }
    }
}

/// The fate of an entry of the object of a line, by the command that scheduled it.
fn fate_by(
    alloc: Global,
    line: &ObjectLine,
    plan: Plan,
    terms: Result<Terms, Cause>,
    body: &Body,
) -> Result<Option<Fate>, AllocError>
    ensures { IfOk result (λ fate. fate ≡ fate_by line.now plan terms body.now) }
{
    match body {
        Body::Schedule { author, text, .. } | Body::ScheduleServices { author, text, .. } => {
            Ok(Some(fate_on(alloc, line, plan, terms, author, text)?))
        }
        _ => Ok(None),
    }
}

/// The fate of an entry, if it has an object and a record.
fn entry_fate(alloc: Global, kept: &Applier, renewal: &Renewal) -> Result<Option<Fate>, AllocError>
    ensures { IfOk result (λ fate. fate ≡ entry_fate kept.now renewal.now) }
{
    let Scheduled { object, plan, .. } = renewal.entry.scheduled();
    let Some(line) = kept.table().line(object.place) else {
        return Ok(None);
    };
    match kept.records().get(plan.log_index as usize) {
        Some(record) => fate_by(alloc, line, plan, renewal.terms, &record.item.body),
        None => Ok(None),
    }
}

/// Appends the fates of these entries.
pub fn push_entries(
    alloc: Global,
    kept: &Applier,
    renewals: &[Renewal],
    fates: &mut Vec<Fate>,
) -> Result<(), AllocError>
    ensures { OnOk result (fates.new.items
        ≡ fates.old.items ++ filter_map (entry_fate kept.now) renewals.now) }
{
    for renewal in renewals {
        let fate = entry_fate(alloc, kept, renewal)?;
        if let Some(fate) = fate {
            fates.push(fate)?;
        }
    }
    Ok(())
}
