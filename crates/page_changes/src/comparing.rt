//! What is other on a status page than on one that was read before it.

ghost use Rattle.std.specs.Prelude.{◌≡◌, ◌++◌, map, IfOk, OnOk};
ghost use Rattle.std.specs.List.{flat_map, zip, list_any};
ghost use Rattle.page_changes.specs.Changes.{number_of_acknowledgement, number_of_source, is_same_comment, is_same_downtime, is_same_object, are_same_objects, unless, object_changes, objects_changed, comments_without, downtimes_without, closing_changes, changed};

use crate::effects::{is_same, is_same_state};
use status_reading::{
    ShownAcknowledgement, ShownComment, ShownDowntime, ShownObject, ShownSource, StatusPage,
};
use std::alloc::{AllocError, Global};

/// What is other on a page. Of an object, both its rows: that of the page before, and that of the
/// page after.
#[derive(Clone, Copy)]
pub enum Change<'a> {
    /// The pages have other objects, or in another order: none is compared.
    OtherObjects,
    State(ShownObject<'a>, ShownObject<'a>),
    Staleness(ShownObject<'a>, ShownObject<'a>),
    Acknowledgement(ShownObject<'a>, ShownObject<'a>),
    /// How many of its downtime entries are active.
    Depth(ShownObject<'a>, ShownObject<'a>),
    /// A comment of the page before, which the page after has not.
    CommentGone(ShownComment<'a>),
    /// A comment of the page after, which the page before had not.
    CommentMade(ShownComment<'a>),
    /// A downtime entry of the page before, which the page after has not: it is over or was deleted.
    DowntimeGone(ShownDowntime<'a>),
    /// A downtime entry of the page after, which the page before had not.
    DowntimeMade(ShownDowntime<'a>),
    /// The gateway began to close at this moment, in seconds since 1970.
    Closing(u32),
}

fn number_of_acknowledgement(shown: ShownAcknowledgement) -> u8
    ensures { result ≡ number_of_acknowledgement shown }
{
    match shown {
        ShownAcknowledgement::Missing => 0,
        ShownAcknowledgement::Normal => 1,
        ShownAcknowledgement::Sticky => 2,
    }
}

fn number_of_source(source: ShownSource) -> u8
    ensures { result ≡ number_of_source source }
{
    match source {
        ShownSource::User => 0,
        ShownSource::Acknowledgement => 1,
        ShownSource::Downtime => 2,
    }
}

fn is_same_comment(one: &ShownComment<'_>, other: &ShownComment<'_>) -> bool
    ensures { result ≡ is_same_comment one.now other.now }
{
    one.id == other.id
        && one.moment == other.moment
        && one.host == other.host
        && one.service == other.service
        && number_of_source(one.source) == number_of_source(other.source)
        && is_same(one.persistent, other.persistent)
        && one.author == other.author
        && one.text == other.text
}

/// Whether the rows are one entry, which may have begun since.
fn is_same_downtime(one: &ShownDowntime<'_>, other: &ShownDowntime<'_>) -> bool
    ensures { result ≡ is_same_downtime one.now other.now }
{
    one.id == other.id
        && one.host == other.host
        && one.service == other.service
        && is_same(one.fixed, other.fixed)
        && one.trigger == other.trigger
        && one.start == other.start
        && one.end == other.end
        && one.duration == other.duration
        && one.author == other.author
        && one.text == other.text
}

fn is_same_object(one: &ShownObject<'_>, other: &ShownObject<'_>) -> bool
    ensures { result ≡ is_same_object one.now other.now }
{
    one.host == other.host && one.service == other.service
}

fn are_same_objects(before: &[ShownObject<'_>], after: &[ShownObject<'_>]) -> bool
    ensures { result ≡ are_same_objects before.now after.now }
{
    if before.len() != after.len() {
        return false;
    }
    for (index, one) in before.iter().enumerate() {
        if !is_same_object(one, &after[index]) {
            return false;
        }
    }
    true
}

fn push_unless<'a>(
    changes: &mut Vec<Change<'a>>,
    same: bool,
    change: Change<'a>,
) -> Result<(), AllocError>
    ensures { OnOk result (changes.new.items ≡ changes.old.items ++ unless same change.entry) }
{
    if !same {
        changes.push(change)?;
    }
    Ok(())
}

/// Appends what is other on the second row of an object.
fn push_object<'a>(
    changes: &mut Vec<Change<'a>>,
    one: ShownObject<'a>,
    other: ShownObject<'a>,
) -> Result<(), AllocError>
    ensures { OnOk result
        (changes.new.items ≡ changes.old.items ++ object_changes (one.entry, other.entry)) }
{
    let same = is_same_state(one.state, other.state);
    push_unless(changes, same, Change::State(one, other))?;
    let same = is_same(one.stale, other.stale);
    push_unless(changes, same, Change::Staleness(one, other))?;
    let same = number_of_acknowledgement(one.acknowledgement)
        == number_of_acknowledgement(other.acknowledgement);
    push_unless(changes, same, Change::Acknowledgement(one, other))?;
    push_unless(changes, one.depth == other.depth, Change::Depth(one, other))
}

/// Appends what is other on the second rows of these objects.
fn push_objects<'a>(
    changes: &mut Vec<Change<'a>>,
    before: &[ShownObject<'a>],
    after: &[ShownObject<'a>],
) -> Result<(), AllocError>
    ensures { OnOk result (changes.new.items
        ≡ changes.old.items ++ flat_map object_changes (zip before.now after.now)) }
{
    for (index, one) in before.iter().enumerate() {
        let Some(other) = after.get(index) else {
            return Ok(());
        };
        push_object(changes, *one, *other)?;
    }
    Ok(())
}

fn has_comment(rows: &[ShownComment<'_>], wanted: &ShownComment<'_>) -> bool
    ensures { result ≡ list_any (is_same_comment wanted.now) rows.now }
{
    for row in rows {
        if is_same_comment(wanted, row) {
            return true;
        }
    }
    false
}

fn has_downtime(rows: &[ShownDowntime<'_>], wanted: &ShownDowntime<'_>) -> bool
    ensures { result ≡ list_any (is_same_downtime wanted.now) rows.now }
{
    for row in rows {
        if is_same_downtime(wanted, row) {
            return true;
        }
    }
    false
}

fn push_gone_comments<'a>(
    changes: &mut Vec<Change<'a>>,
    rows: &[ShownComment<'a>],
    others: &[ShownComment<'a>],
) -> Result<(), AllocError>
    ensures { OnOk result (changes.new.items
        ≡ changes.old.items ++ map Change.CommentGone (comments_without rows.now others.now)) }
{
    for row in rows {
        if !has_comment(others, row) {
            changes.push(Change::CommentGone(*row))?;
        }
    }
    Ok(())
}

fn push_made_comments<'a>(
    changes: &mut Vec<Change<'a>>,
    rows: &[ShownComment<'a>],
    others: &[ShownComment<'a>],
) -> Result<(), AllocError>
    ensures { OnOk result (changes.new.items
        ≡ changes.old.items ++ map Change.CommentMade (comments_without rows.now others.now)) }
{
    for row in rows {
        if !has_comment(others, row) {
            changes.push(Change::CommentMade(*row))?;
        }
    }
    Ok(())
}

fn push_gone_downtimes<'a>(
    changes: &mut Vec<Change<'a>>,
    rows: &[ShownDowntime<'a>],
    others: &[ShownDowntime<'a>],
) -> Result<(), AllocError>
    ensures { OnOk result (changes.new.items
        ≡ changes.old.items ++ map Change.DowntimeGone (downtimes_without rows.now others.now)) }
{
    for row in rows {
        if !has_downtime(others, row) {
            changes.push(Change::DowntimeGone(*row))?;
        }
    }
    Ok(())
}

fn push_made_downtimes<'a>(
    changes: &mut Vec<Change<'a>>,
    rows: &[ShownDowntime<'a>],
    others: &[ShownDowntime<'a>],
) -> Result<(), AllocError>
    ensures { OnOk result (changes.new.items
        ≡ changes.old.items ++ map Change.DowntimeMade (downtimes_without rows.now others.now)) }
{
    for row in rows {
        if !has_downtime(others, row) {
            changes.push(Change::DowntimeMade(*row))?;
        }
    }
    Ok(())
}

fn push_closing(
    changes: &mut Vec<Change<'_>>,
    before: Option<u32>,
    after: Option<u32>,
) -> Result<(), AllocError>
    ensures { OnOk result
        (changes.new.items ≡ changes.old.items ++ closing_changes before after) }
{
    if let (None, Some(moment)) = (before, after) {
        changes.push(Change::Closing(moment))?;
    }
    Ok(())
}

/// Appends what is other on the objects of the page `after`.
fn push_all_objects<'a>(
    changes: &mut Vec<Change<'a>>,
    before: &[ShownObject<'a>],
    after: &[ShownObject<'a>],
) -> Result<(), AllocError>
    ensures { OnOk result
        (changes.new.items ≡ changes.old.items ++ objects_changed before.now after.now) }
{
    if are_same_objects(before, after) {
        return push_objects(changes, before, after);
    }
    changes.push(Change::OtherObjects)?;
    Ok(())
}

/// What is other on the page `after`: of the objects in their order, then the comments that are gone
/// and those that were made, then the downtime entries likewise, then the close. The only error is
/// out of memory. Own rule.
pub fn changes<'a>(
    alloc: Global,
    before: &StatusPage<'a>,
    after: &StatusPage<'a>,
) -> Result<Vec<Change<'a>>, AllocError>
    ensures { IfOk result (λ found. found.items ≡ changed before.now after.now) }
{
    let mut found = Vec::new(alloc);
    push_all_objects(
        &mut found,
        before.objects.as_slice(),
        after.objects.as_slice(),
    )?;
    push_gone_comments(
        &mut found,
        before.comments.as_slice(),
        after.comments.as_slice(),
    )?;
    push_made_comments(
        &mut found,
        after.comments.as_slice(),
        before.comments.as_slice(),
    )?;
    push_gone_downtimes(
        &mut found,
        before.downtimes.as_slice(),
        after.downtimes.as_slice(),
    )?;
    push_made_downtimes(
        &mut found,
        after.downtimes.as_slice(),
        before.downtimes.as_slice(),
    )?;
    push_closing(&mut found, before.closing, after.closing)?;
    Ok(found)
}
