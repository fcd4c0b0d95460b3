//! The page of many objects, and the links to it.
ghost use Rattle.std.specs.Prelude.{◌≡◌, ◌++◌, map, IfOk};
ghost use Rattle.std.specs.Str.{bytes_eq};
ghost use Rattle.status_serving.specs.Pages.{asked_of};
ghost use Rattle.statusdesk.specs.Notes.{note_view};
ghost use Rattle.statusdesk.specs.Objects.{desk_view};
ghost use Rattle.statusdesk.specs.Marks.{row_of, filter_of, marks_link, marks_after, IsMarksPage};

use crate::service::Desk;
use desk_forms::after_byte;
use desk_view::{MarksPage, Note, marks_page};
use gate_model::push_number;
use page_watching::Seen;
use status_merge::{Gateway, MergedObject, merge, read_query, select};
use status_reading::ShownObject;
use status_serving::gateways_of;
use std::alloc::{AllocError, Global};
use std::sync::atomic::Ordering;

fn rows_of<'t>(
    alloc: Global,
    objects: &[MergedObject<'t>],
) -> Result<Vec<ShownObject<'t>>, AllocError>
    ensures { IfOk result (λ rows. rows.items ≡ map row_of objects.now) }
{
    let mut rows = Vec::with_capacity(alloc, objects.len())?;
    for one in objects {
        rows.push(one.row)?;
    }
    Ok(rows)
}

// The objects that a query chooses, as the list of statusweb has them.
fn rows_asked<'t>(
    alloc: Global,
    gateways: &[Gateway<'t>],
    query: &str,
) -> Result<Vec<ShownObject<'t>>, AllocError>
    ensures { IfOk result (λ rows. rows.items ≡ map row_of (asked_of gateways.now query.now)) }
{
    let query = read_query(alloc, query, 0)?;
    let all = merge(alloc, gateways)?;
    let chosen = select(alloc, all.as_slice(), &query)?;
    rows_of(alloc, chosen.as_slice())
}

// The query without the moment that stands first.
fn filter_of(query: &[u8]) -> &[u8]
    ensures { result.now ≡ filter_of query.now }
{
    if query.starts_with(b"at=") {
        after_byte(query, b'&')
    } else {
        query
    }
}

/// The page of many objects for a query, without a moment.
pub fn marks_link(alloc: Global, query: &[u8]) -> Result<Vec<u8>, AllocError>
    ensures { IfOk result (λ link. link.items ≡ marks_link query.now) }
{
    let mut link = Vec::from_slice(alloc, b"/marks?")?;
    link.extend_from_slice(filter_of(query))?;
    Ok(link)
}

/// The same page, which shows the orders of this moment.
pub fn marks_after(alloc: Global, query: &[u8], now: u32) -> Result<Vec<u8>, AllocError>
    ensures { IfOk result (λ link. link.items ≡ marks_after now query.now) }
{
    let mut link = Vec::from_slice(alloc, b"/marks?at=")?;
    push_number(&mut link, u64::from(now))?;
    link.push(b'&')?;
    link.extend_from_slice(filter_of(query))?;
    Ok(link)
}

/// The page of many objects for a user, with these notes.
pub fn marks_body<'t, R>(
    desk: &Desk<'_, R>,
    now: u32,
    seen: &'t [Seen<'t>],
    user: &[u8],
    query: &str,
    notes: &[Note<'_>],
    again: bool,
) -> Result<Vec<u8>, AllocError>
    ensures { IfOk result (λ body. IsMarksPage (desk_view desk.now) now seen.now user.now query.now
        (map note_view notes.now) again body.items) }
{
    let alloc = desk.site.alloc;
    let gateways = gateways_of(alloc, seen, u64::from(now))?;
    let rows = rows_asked(alloc, gateways.as_slice(), query)?;
    let token = desk.guard.token(alloc, user, now)?;
    let page = MarksPage {
        title: desk.site.heading.title,
        user,
        token: token.as_str(),
        page: desk.pages.fetch_add(1, Ordering::SeqCst),
        query: filter_of(query.as_bytes()),
        again,
        notes,
        rows: rows.as_slice(),
    };
    Ok(marks_page(alloc, page)?.into_bytes())
}
