//! The fates of results, comments, acknowledgements and settings.

ghost use Rattle.std.specs.Prelude.{◌≡◌, IfOk};
ghost use Rattle.restore_plan.specs.Fates.{last_of, acknowledgement_of, is_disabled, threshold_of, is_outdated, last_is_outdated, result_fate, has_comment, comment_fate, is_in_force, acknowledgement_fate, setting_fate};

use crate::fates::{Cause, Fate, copied, copied_service, object_of, sent_to};
use gate_applier::Applier;
use gate_model::{Acknowledgement, Body, CheckResult, Comment, Moment, ObjectId, Text};
use gate_table::ObjectTable;
use std::alloc::{AllocError, Global};

// ---- what stands

/// The last result of the object of these names.
fn last_of(kept: &Applier, host: &Text, service: &Option<Text>) -> Option<CheckResult>
    ensures { result ≡ last_of kept.now host.now service.now }
{
    match object_of(kept.table(), host, service) {
        Some(object) => kept.last(object),
        None => None,
    }
}

/// The acknowledgement that is in force for the object of these names.
fn acknowledgement_of(
    kept: &Applier,
    host: &Text,
    service: &Option<Text>,
) -> Option<Acknowledgement>
    ensures { result ≡ acknowledgement_of kept.now host.now service.now }
{
    match object_of(kept.table(), host, service) {
        Some(object) => kept.ack(object),
        None => None,
    }
}

/// Whether passive checks of the object of these names are disabled.
fn is_disabled(kept: &Applier, host: &Text, service: &Option<Text>) -> bool
    ensures { result ≡ is_disabled kept.now host.now service.now }
{
    match object_of(kept.table(), host, service) {
        Some(object) => !kept.passive(object),
        None => false,
    }
}

/// Whether a comment stands that the record of this index made.
fn has_comment(index: usize, comments: &[Comment]) -> bool
    ensures { result ≡ has_comment index comments.now }
{
    comments.iter().any(|one| one.log_index as usize == index)
}

// ---- results

/// The freshness threshold of an object, in seconds; 0 is none.
pub fn threshold_of(table: &ObjectTable, object: Option<ObjectId>) -> u32
    ensures { result ≡ threshold_of table.now object }
{
    let Some(object) = object else {
        return 0;
    };
    match table.line(object.place) {
        Some(line) => line.threshold,
        None => 0,
    }
}

/// Whether more seconds than the threshold, which isn't 0, have passed since this moment.
pub fn is_outdated(threshold: u32, moment: Moment, now: Moment) -> bool
    ensures { result ≡ is_outdated threshold moment now }
{
    threshold > 0 && now.0.saturating_sub(moment.0) > threshold
}

/// Whether there is a result, and it is outdated by the table of the fresh gateway.
fn last_is_outdated(
    fresh: &ObjectTable,
    now: Moment,
    object: Option<ObjectId>,
    last: Option<CheckResult>,
) -> bool
    ensures { result ≡ last_is_outdated fresh.now now object last }
{
    match last {
        Some(last) => is_outdated(threshold_of(fresh, object), last.moment, now),
        None => false,
    }
}

/// The fate of a result: it counts where it is the last one of its object.
pub fn result_fate(
    alloc: Global,
    fresh: &ObjectTable,
    kept: &Applier,
    index: usize,
    host: &Text,
    service: &Option<Text>,
    code: i16,
    output: &Text,
) -> Result<Option<Fate>, AllocError>
    ensures { IfOk result (λ fate. fate
        ≡ result_fate fresh.now kept.now index host.now service.now code output.now) }
{
    let Some(last) = last_of(kept, host, service) else {
        return Ok(None);
    };
    if last.log_index as usize != index {
        return Ok(None);
    }
    let object = object_of(fresh, host, service);
    let body = Body::Result {
        host: copied(alloc, host)?,
        service: copied_service(alloc, service)?,
        code,
        output: copied(alloc, output)?,
    };
    if is_outdated(threshold_of(fresh, object), last.moment, kept.moment()) {
        return Ok(Some(Fate::Left(Cause::TooOld, body)));
    }
    Ok(Some(sent_to(object, body)))
}

// ---- comments and acknowledgements

/// The fate of a comment: it counts where it stands.
pub fn comment_fate(
    alloc: Global,
    fresh: &ObjectTable,
    kept: &Applier,
    index: usize,
    host: &Text,
    service: &Option<Text>,
    persistent: u32,
    author: &Text,
    text: &Text,
) -> Result<Option<Fate>, AllocError>
    ensures { IfOk result (λ fate. fate
        ≡ comment_fate fresh.now kept.now index host.now service.now persistent author.now
        text.now) }
{
    if !has_comment(index, kept.comments()) {
        return Ok(None);
    }
    let body = Body::AddComment {
        host: copied(alloc, host)?,
        service: copied_service(alloc, service)?,
        persistent,
        author: copied(alloc, author)?,
        text: copied(alloc, text)?,
    };
    Ok(Some(sent_to(object_of(fresh, host, service), body)))
}

/// Whether the record of this index made the acknowledgement that is in force for the object of
/// these names, and its result is sent.
fn is_in_force(
    fresh: &ObjectTable,
    kept: &Applier,
    index: usize,
    host: &Text,
    service: &Option<Text>,
) -> bool
    ensures { result ≡ is_in_force fresh.now kept.now index host.now service.now }
{
    let Some(made) = acknowledgement_of(kept, host, service) else {
        return false;
    };
    made.log_index as usize == index
        && !last_is_outdated(
            fresh,
            kept.moment(),
            object_of(fresh, host, service),
            last_of(kept, host, service),
        )
}

/// The fate of an acknowledgement: it counts where it is in force. One that isn't, or whose result
/// isn't sent, leaves its comment, where that stands.
pub fn acknowledgement_fate(
    alloc: Global,
    fresh: &ObjectTable,
    kept: &Applier,
    index: usize,
    host: &Text,
    service: &Option<Text>,
    sticky: u32,
    notify: u32,
    persistent: u32,
    author: &Text,
    text: &Text,
) -> Result<Option<Fate>, AllocError>
    ensures { IfOk result (λ fate. fate
        ≡ acknowledgement_fate fresh.now kept.now index host.now service.now sticky notify persistent
        author.now text.now) }
{
    if !is_in_force(fresh, kept, index, host, service) {
        return comment_fate(
            alloc, fresh, kept, index, host, service, persistent, author, text,
        );
    }
    let body = Body::Acknowledge {
        host: copied(alloc, host)?,
        service: copied_service(alloc, service)?,
        sticky,
        notify,
        persistent,
        author: copied(alloc, author)?,
        text: copied(alloc, text)?,
    };
    Ok(Some(sent_to(object_of(fresh, host, service), body)))
}

// ---- settings

/// The fate of a setting: it counts where it disabled passive checks, and they still are.
pub fn setting_fate(
    alloc: Global,
    fresh: &ObjectTable,
    kept: &Applier,
    host: &Text,
    service: &Option<Text>,
    on: bool,
) -> Result<Option<Fate>, AllocError>
    ensures { IfOk result (λ fate. fate
        ≡ setting_fate fresh.now kept.now host.now service.now on) }
{
    if on || !is_disabled(kept, host, service) {
        return Ok(None);
    }
    let body = Body::Passive {
        host: copied(alloc, host)?,
        service: copied_service(alloc, service)?,
        on: false,
    };
    Ok(Some(sent_to(object_of(fresh, host, service), body)))
}
