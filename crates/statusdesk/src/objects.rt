//! The page of an object.
ghost use Rattle.std.specs.Prelude.{◌≡◌, ◌++◌, List, map, IfOk, IfSome, OnOk, MatchOption};
ghost use Rattle.std.specs.Option.{option_to_list};
ghost use Rattle.page_watching.specs.declared.watching.Seen.{Seen as Memory};
ghost use Rattle.status_reading.specs.Rows.{page_view};
ghost use Rattle.statusdesk.specs.Notes.{note_view};
ghost use Rattle.statusdesk.specs.Kept.{IsKeptOf, IsNotKept};
ghost use Rattle.statusdesk.specs.Objects.{desk_view, known_view, IsKnownAt, AreKnown, IsObjectPage};

use crate::pages::ReadPage;
use crate::service::Desk;
use desk_view::{DeskPage, FormOf, Note, ShownAt, desk_page, shows};
use page_watching::Seen;
use status_reading::StatusPage;
use std::alloc::{AllocError, Global};
use std::sync::atomic::Ordering;

/// A gateway whose page shows an object.
#[derive(Drop)]
pub struct Known<'t> {
    pub name: &'t str,
    pub page: StatusPage<'t>,
}

/// An object, as the status page spells it.
#[derive(Clone, Copy)]
pub struct Named<'a> {
    pub host: &'a [u8],
    pub service: &'a [u8],
}

/// The page that is kept of a gateway, if one is.
pub fn page_of<'t>(alloc: Global, seen: &'t Seen<'t>) -> Result<Option<Known<'t>>, AllocError>
    ensures page { IfOk result (λ found. MatchOption found (IsNotKept seen.now)
        (λ known. IsKeptOf seen.now (page_view known.page))) }
    ensures name { IfOk result (λ found. IfSome found (λ known.
        known.name.now ≡ seen.now.place.name.now)) }
{
    let Some(kept) = &seen.memory.last else {
        return Ok(None);
    };
    match kept.page.text.text.page(alloc) {
        Ok(page) => Ok(Some(Known {
            name: seen.place.name,
            page,
        })),
        Err(_) => Err(AllocError),
    }
}

/// The pages that are kept of the gateways, each read once.
pub fn pages_of<'t>(alloc: Global, seen: &'t [Seen<'t>]) -> Result<Vec<ReadPage<'t>>, AllocError>
    ensures { IfOk result (λ pages. pages.items ≡ seen.entry.now) }
{
    let mut pages = Vec::with_capacity(alloc, seen.len())?;
    for one in seen {
        pages.push(ReadPage::new(alloc, one)?)?;
    }
    Ok(pages)
}

// The page that is kept of a gateway, if it shows an object.
fn known_at<'t>(
    alloc: Global,
    seen: &'t Seen<'t>,
    named: Named<'_>,
) -> Result<Option<Known<'t>>, AllocError>
    ensures { IfOk result (λ found. IsKnownAt named.entry.host.now named.entry.service.now
        seen.now (map known_view (option_to_list found))) }
{
    let Some(known) = page_of(alloc, seen)? else {
        return Ok(None);
    };
    if shows(known.page.objects.as_slice(), named.host, named.service) {
        Ok(Some(known))
    } else {
        Ok(None)
    }
}

fn push_known<'t>(found: Option<Known<'t>>, all: &mut Vec<Known<'t>>) -> Result<(), AllocError>
    ensures { OnOk result (map known_view all.new.items
        ≡ map known_view all.old.items ++ map known_view (option_to_list found.entry)) }
{
    if let Some(known) = found {
        all.push(known)?;
    }
    Ok(())
}

/// The gateways that show an object.
pub fn known_of<'t>(
    alloc: Global,
    seen: &'t [Seen<'t>],
    named: Named<'_>,
) -> Result<Vec<Known<'t>>, AllocError>
    ensures { IfOk result (λ all. AreKnown named.entry.host.now named.entry.service.now
        seen.now (map known_view all.items)) }
{
    let mut all = Vec::new(alloc);
    for one in seen {
        push_known(known_at(alloc, one, named)?, &mut all)?;
    }
    Ok(all)
}

/// The page of an object for a user, with these notes.
pub fn object_body<R>(
    desk: &Desk<'_, R>,
    now: u32,
    user: &[u8],
    named: Named<'_>,
    known: &[Known<'_>],
    notes: &[Note<'_>],
    again: bool,
) -> Result<Vec<u8>, AllocError>
    ensures { (seen : List Memory)
        → AreKnown named.entry.host.now named.entry.service.now seen (map known_view known.now)
        → IfOk result (λ body. IsObjectPage (desk_view desk.now) now seen user.now
        named.entry.host.now named.entry.service.now (map note_view notes.now) again body.items) }
{
    let alloc = desk.site.alloc;
    let mut gateways = Vec::with_capacity(alloc, known.len())?;
    for one in known {
        gateways.push(ShownAt {
            name: one.name,
            page: &one.page,
        })?;
    }
    let token = desk.guard.token(alloc, user, now)?;
    let page = DeskPage {
        title: desk.site.heading.title,
        user,
        of: FormOf {
            token: token.as_str(),
            page: desk.pages.fetch_add(1, Ordering::SeqCst),
            host: named.host,
            service: named.service,
        },
        again,
        notes,
        gateways: gateways.as_slice(),
    };
    Ok(desk_page(alloc, page)?.into_bytes())
}
