ghost use Rattle.std.specs.Prelude.{◌≡◌, ◌++◌, IfOk, OnOk};
ghost use Rattle.std.specs.List.{flat_map};
ghost use Rattle.std.specs.Str.{str_eq_ignore_ascii_case};
ghost use Rattle.status_merge.specs.Asking.{asked_by};
ghost use Rattle.status_merge.specs.Selecting.{begins, has_part, is_at, has_host, is_as, has_choice, is_filtered, is_selected, filtered, of_rank, selected, page_rows};

use crate::gateway::MergedObject;
use crate::query::{Choice, Query};
use crate::ranks::{is_made, is_unhandled, rank};
use std::alloc::{AllocError, Global};

// How many rows a page shows at most.
const PAGE: usize = 500;

fn same_text(one: &[u8], other: &[u8]) -> bool
    ensures { result ≡ str_eq_ignore_ascii_case one.now other.now }
{
    one.eq_ignore_ascii_case(other)
}

fn begins(text: &[u8], part: &[u8]) -> bool
    ensures { result ≡ begins text.now part.now }
{
    let len = part.len().min(text.len());
    same_text(&text[..len], part)
}

fn has_part(text: &[u8], part: &[u8]) -> bool
    ensures { result ≡ has_part text.now part.now }
{
    for place in 0..text.len() {
        if begins(&text[place..], part) {
            return true;
        }
    }
    begins(&[], part)
}

/// Whether this is the name that is asked for; where that is empty, each is.
pub fn is_at(wanted: &[u8], name: &[u8]) -> bool
    ensures { result ≡ is_at wanted.now name.now }
{
    wanted.is_empty() || name == wanted
}

fn is_as(asked: Option<bool>, is: bool) -> bool
    ensures { result ≡ is_as asked is }
{
    match asked {
        None => true,
        Some(true) => is,
        Some(false) => !is,
    }
}

fn has_choice(choice: Choice, object: &MergedObject<'_>) -> bool
    ensures { result ≡ has_choice choice object.now }
{
    let row = &object.row;
    match choice {
        Choice::All => true,
        Choice::Problems => row.state.is_problem() || row.stale,
        Choice::Unhandled => is_unhandled(object),
        Choice::Stale => row.stale,
        Choice::In(state) => row.state == state,
    }
}

/// Whether a host's name contains the text that a query asks for, and is the exact one.
pub(crate) fn takes_host(query: &Query, host: &[u8]) -> bool
    ensures { result ≡ has_host (asked_by query.now) host.now }
{
    has_part(host, query.host.as_str().as_bytes()) && is_at(query.hostname.as_slice(), host)
}

fn is_filtered(query: &Query, object: &MergedObject<'_>) -> bool
    ensures { result ≡ is_filtered (asked_by query.now) object.now }
{
    let row = &object.row;
    takes_host(query, row.host)
        && has_part(row.service, query.service.as_str().as_bytes())
        && has_part(row.output, query.output.as_str().as_bytes())
        && is_at(query.gateway.as_str().as_bytes(), object.gateway.as_bytes())
        && is_as(query.acknowledged, is_made(row.acknowledgement))
        && is_as(query.downtime, row.depth > 0)
}

fn is_selected(query: &Query, object: &MergedObject<'_>) -> bool
    ensures { result ≡ is_selected (asked_by query.now) object.now }
{
    has_choice(query.choice, object) && is_filtered(query, object)
}

/// The objects that a query selects whatever their states, in their order. The only error is out of
/// memory.
pub fn filter_rows<'a>(
    alloc: Global,
    objects: &[MergedObject<'a>],
    query: &Query,
) -> Result<Vec<MergedObject<'a>>, AllocError>
    ensures { IfOk result (λ found. found.items ≡ filtered (asked_by query.now) objects.now) }
{
    let mut found = Vec::new(alloc);
    for object in objects {
        if is_filtered(query, object) {
            found.push(*object)?;
        }
    }
    Ok(found)
}

// Appends the selected objects of a rank.
fn add_rank<'a>(
    selected: &mut Vec<MergedObject<'a>>,
    objects: &[MergedObject<'a>],
    query: &Query,
    urgency: u32,
) -> Result<(), AllocError>
    ensures { OnOk result (selected.new.items ≡ selected.old.items
        ++ of_rank (asked_by query.now) objects.now urgency) }
{
    for object in objects {
        if rank(object) == urgency && is_selected(query, object) {
            selected.push(*object)?;
        }
    }
    Ok(())
}

// Appends the selected objects of some ranks.
fn add_ranks<'a>(
    selected: &mut Vec<MergedObject<'a>>,
    objects: &[MergedObject<'a>],
    query: &Query,
    ranks: &[u32],
) -> Result<(), AllocError>
    ensures { OnOk result (selected.new.items ≡ selected.old.items
        ++ flat_map (of_rank (asked_by query.now) objects.now)
        ranks.now) }
{
    for urgency in ranks {
        add_rank(selected, objects, query, *urgency)?;
    }
    Ok(())
}

/// The objects that a query selects: by rank, and within a rank in their order. The only error is
/// out of memory.
pub fn select<'a>(
    alloc: Global,
    objects: &[MergedObject<'a>],
    query: &Query,
) -> Result<Vec<MergedObject<'a>>, AllocError>
    ensures { IfOk result (λ found. found.items
        ≡ selected (asked_by query.now) objects.now) }
{
    let mut selected = Vec::new(alloc);
    add_ranks(
        &mut selected,
        objects,
        query,
        &[0, 1, 2, 3, 4, 5, 6, 7, 8, 9, 10],
    )?;
    Ok(selected)
}

/// The rows of a page, from 1, of these: 500 after those of the pages before it.
pub fn page_rows<T>(rows: &[T], page: u32) -> &[T]
    ensures { result.now ≡ page_rows page rows.now }
{
    let before = PAGE * page.saturating_sub(1) as usize;
    let first = before.min(rows.len());
    let rest = &rows[first..];
    &rest[..PAGE.min(rest.len())]
}
