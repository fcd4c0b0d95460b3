//! The lines that name what isn't restored.

ghost use Rattle.std.specs.Prelude.{◌≡◌, ◌≤◌, ◌==◌, ◌++◌, if◌then◌else◌, IfOk, OnOk, drop, map, min, slice_get};
ghost use Rattle.std.specs.Option.{option_map};
ghost use Rattle.operator_restore.specs.Naming.{named_line, command_line, cause_text, left_front, left_line, left_lines, left_count, is_left, row_line, rows_named, row_lines, row_count};

use crate::escapes::lines_of;
use gate_grammar::write_body;
use gate_model::{Body, push_escaped};
use page_return::Missing;
use restore_plan::{Cause, Fate};
use status_reading::StatusPage;
use std::alloc::{AllocError, Global};

fn push_four(
    out: &mut Vec<u8>,
    one: &[u8],
    two: &[u8],
    three: &[u8],
    four: &[u8],
) -> Result<(), AllocError>
    ensures { OnOk result (out.new.items
        ≡ out.old.items ++ (one.now ++ two.now ++ three.now ++ four.now)) }
{
    out.extend_from_slice(one)?;
    out.extend_from_slice(two)?;
    out.extend_from_slice(three)?;
    out.extend_from_slice(four)
}

/// Appends a line.
fn push_line(out: &mut Vec<u8>, front: &[u8], text: &[u8]) -> Result<(), AllocError>
    ensures { OnOk result (out.new.items ≡ out.old.items ++ named_line front.now text.now) }
{
    push_four(out, b"nscagatectl: ", front, text, b"\n")
}

/// Appends a line that names a command. The only error is out of memory. Own rule.
pub fn push_command(
    alloc: Global,
    out: &mut Vec<u8>,
    front: &[u8],
    body: &Body,
) -> Result<(), AllocError>
    ensures { OnOk result (out.new.items ≡ out.old.items ++ command_line front.now body.now) }
{
    let mut text = Vec::new(alloc);
    push_escaped(&mut text, write_body(alloc, body)?.as_slice())?;
    push_line(out, front, text.as_slice())
}

fn cause_text(cause: Cause) -> &'static [u8]
    ensures { result.now ≡ cause_text cause }
{
    match cause {
        Cause::NoSuchObject => b"the gateway has no such object",
        Cause::TooOld => b"the result is older than its object's freshness",
        Cause::Over => b"its window is over",
        Cause::NoTrigger => b"its trigger isn't scheduled again",
    }
}

/// What stands before a command that is left out.
fn left_front(alloc: Global, cause: Cause) -> Result<Vec<u8>, AllocError>
    ensures { IfOk result (λ front. front.items ≡ left_front cause) }
{
    let mut front = Vec::from_slice(alloc, b"not sent, since ")?;
    front.extend_from_slice(cause_text(cause))?;
    front.extend_from_slice(b": ")?;
    Ok(front)
}

/// Appends the line of a command, if it is left out.
fn push_fate(alloc: Global, out: &mut Vec<u8>, fate: &Fate) -> Result<(), AllocError>
    ensures { OnOk result (out.new.items ≡ out.old.items ++ left_line fate.now) }
{
    match fate {
        Fate::Sent(_) => Ok(()),
        Fate::Left(cause, body) => {
            let front = left_front(alloc, *cause)?;
            push_command(alloc, out, front.as_slice(), body)
        }
    }
}

/// Appends a line for each command that is left out: its cause, and the command. The only error is
/// out of memory. Own rule.
pub fn push_left(alloc: Global, out: &mut Vec<u8>, fates: &[Fate]) -> Result<(), AllocError>
    ensures { OnOk result (out.new.items ≡ out.old.items ++ left_lines fates.now) }
{
    for fate in fates {
        push_fate(alloc, out, fate)?;
    }
    Ok(())
}

fn is_left(fate: &Fate) -> bool
    ensures { result ≡ is_left fate.now }
{
    matches!(fate, Fate::Left(..))
}

/// How many commands are left out.
pub fn left_count(fates: &[Fate]) -> usize
    ensures { result ≡ left_count fates.now }
{
    let mut count = 0;
    for fate in fates {
        if is_left(fate) {
            count += 1;
        }
    }
    count
}

/// The exit status of a restoring that names so much: 0 for nothing, and 1 otherwise. Own rule.
pub fn status_of(named: usize) -> u8
    ensures status { result ≡ (if named == 0 then 0 else 1) }
    ensures all { result ≡ 0 → named ≡ 0 }
    ensures some { result ≡ 1 → 1 ≤ named }
{
    if named == 0 { 0 } else { 1 }
}

/// The lines from this index on.
fn lines_from<'a>(lines: &'a [&'a [u8]], first: usize) -> &'a [&'a [u8]]
    ensures { map (λ line. line.now) result.now ≡ drop first (map (λ line. line.now) lines.now) }
{
    if first <= lines.len() {
        &lines[first..]
    } else {
        &[]
    }
}

/// The line of this index.
fn line_at<'a>(lines: &[&'a [u8]], index: usize) -> Option<&'a [u8]>
    ensures { option_map (λ line. line.now) result
        ≡ slice_get (map (λ line. line.now) lines.now) index }
{
    match lines.get(index) {
        Some(line) => Some(*line),
        None => None,
    }
}

/// Appends the line of the row of an index, if there is one.
fn push_row(
    out: &mut Vec<u8>,
    front: &[u8],
    lines: &[&[u8]],
    index: usize,
) -> Result<(), AllocError>
    ensures { OnOk result (out.new.items ≡ out.old.items
        ++ row_line front.now (slice_get (map (λ line. line.now) lines.now) index)) }
{
    match line_at(lines, index) {
        Some(line) => push_line(out, front, line),
        None => Ok(()),
    }
}

/// Appends the lines of the rows of these indexes.
fn push_rows_of(
    out: &mut Vec<u8>,
    front: &[u8],
    lines: &[&[u8]],
    indexes: &[usize],
) -> Result<(), AllocError>
    ensures { OnOk result (out.new.items ≡ out.old.items
        ++ rows_named front.now (map (λ line. line.now) lines.now) indexes.now) }
{
    for index in indexes {
        push_row(out, front, lines, *index)?;
    }
    Ok(())
}

/// Appends the line of each of these rows of the page of a text. The only error is out of memory. Own
/// rule.
pub fn push_rows(
    alloc: Global,
    out: &mut Vec<u8>,
    front: &[u8],
    text: &[u8],
    page: &StatusPage<'_>,
    missing: &Missing,
) -> Result<(), AllocError>
    ensures { OnOk result (out.new.items
        ≡ out.old.items ++ row_lines front.now text.now page.now missing.now) }
{
    let lines = lines_of(alloc, text)?;
    let objects = lines_from(lines.as_slice(), 1);
    push_rows_of(out, front, objects, missing.objects.as_slice())?;
    let comments = lines_from(objects, page.objects.len());
    push_rows_of(out, front, comments, missing.comments.as_slice())?;
    let downtimes = lines_from(comments, page.comments.len());
    push_rows_of(out, front, downtimes, missing.downtimes.as_slice())
}

/// How many rows are missing, at most 2 ^ 64 - 1.
pub fn row_count(missing: &Missing) -> usize
    ensures { result ≡ min (row_count missing.now) 18446744073709551615 }
{
    let count = missing.objects.len().saturating_add(missing.comments.len());
    count.saturating_add(missing.downtimes.len())
}
