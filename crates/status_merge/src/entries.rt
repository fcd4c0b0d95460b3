//! Comments and downtime entries of several gateways: those that differ in id and gateway alone are
//! one.

ghost use Rattle.std.specs.Prelude.{◌≡◌, ◌++◌, IfOk, OnOk, map};
ghost use Rattle.std.specs.List.{flat_map};
ghost use Rattle.status_reading.specs.declared.rows.ShownSource.{ShownSource};
ghost use Rattle.status_merge.specs.Asking.{asked_by};
ghost use Rattle.status_merge.specs.Entries.{origin_of, source_number, comments_on, downtimes_on, comment_view, downtime_view, comment_lines, downtime_lines};

use crate::gateway::Gateway;
use crate::groups::{Keyed, grouped};
use crate::query::Query;
use crate::selecting::takes_host;
use status_reading::{ShownComment, ShownDowntime, ShownSource};
use std::alloc::{AllocError, Global};

/// A gateway that has an entry, and the entry's id there.
#[derive(Clone, Copy)]
pub struct Origin<'a> {
    pub gateway: &'a str,
    pub id: u32,
}

/// A comment, and each gateway that has it.
#[derive(Drop)]
pub struct CommentLine<'a> {
    /// As the first of these gateways has it.
    pub row: ShownComment<'a>,
    pub origins: Vec<Origin<'a>>,
}

/// A downtime entry, and each gateway that has it.
#[derive(Drop)]
pub struct DowntimeLine<'a> {
    /// The moment of the first of these gateways' page.
    pub moment: u32,
    /// As the first of these gateways has it.
    pub row: ShownDowntime<'a>,
    pub origins: Vec<Origin<'a>>,
}

/// A row of a page, with its origin and the page's moment.
#[derive(Clone, Copy)]
pub struct Entry<'a, R> {
    pub origin: Origin<'a>,
    pub moment: u32,
    pub row: R,
}

// What two comments have to share to be one line.
#[derive(Clone, Copy, PartialEq, Eq, Hash)]
pub(crate) struct CommentKey<'a> {
    host: &'a [u8],
    service: &'a [u8],
    source: u8,
    persistent: bool,
    moment: u32,
    author: &'a [u8],
    text: &'a [u8],
}

// What two downtime entries have to share to be one line.
#[derive(Clone, Copy, PartialEq, Eq, Hash)]
pub(crate) struct DowntimeKey<'a> {
    host: &'a [u8],
    service: &'a [u8],
    fixed: bool,
    trigger: u32,
    start: u32,
    end: u32,
    duration: u32,
    begin: Option<u32>,
    author: &'a [u8],
    text: &'a [u8],
}

// The number of a source, which no other source has.
#[tactic(auto, using(crate::proofs::EntrySteps::sources_apart))]
fn source_number(source: ShownSource) -> u8
    ensures number { result ≡ source_number source }
    ensures apart { (other : ShownSource) → source_number other ≡ result → other ≡ source }
{
    match source {
        ShownSource::User => 0,
        ShownSource::Acknowledgement => 1,
        ShownSource::Downtime => 2,
    }
}

impl<'a> Keyed for Entry<'a, ShownComment<'a>> {
    type Key = CommentKey<'a>;

    ghost use Rattle.status_merge.specs.Entries.{source_number};

    ghost key_of = { λ entry. record {
      host = entry.row.host;
      service = entry.row.service;
      source = source_number entry.row.source;
      persistent = entry.row.persistent;
      moment = entry.row.moment;
      author = entry.row.author;
      text = entry.row.text;
    } };

    fn key(&self) -> CommentKey<'a> {
        let comment = &self.row;
        CommentKey {
            host: comment.host,
            service: comment.service,
            source: source_number(comment.source),
            persistent: comment.persistent,
            moment: comment.moment,
            author: comment.author,
            text: comment.text,
        }
    }
}

impl<'a> Keyed for Entry<'a, ShownDowntime<'a>> {
    type Key = DowntimeKey<'a>;

    ghost key_of = { λ entry. record {
      host = entry.row.host;
      service = entry.row.service;
      fixed = entry.row.fixed;
      trigger = entry.row.trigger;
      start = entry.row.start;
      end = entry.row.end;
      duration = entry.row.duration;
      begin = entry.row.begin;
      author = entry.row.author;
      text = entry.row.text;
    } };

    fn key(&self) -> DowntimeKey<'a> {
        let downtime = &self.row;
        DowntimeKey {
            host: downtime.host,
            service: downtime.service,
            fixed: downtime.fixed,
            trigger: downtime.trigger,
            start: downtime.start,
            end: downtime.end,
            duration: downtime.duration,
            begin: downtime.begin,
            author: downtime.author,
            text: downtime.text,
        }
    }
}

fn origins_of<'a, R: Copy>(
    alloc: Global,
    entries: &[Entry<'a, R>],
) -> Result<Vec<Origin<'a>>, AllocError>
    ensures { IfOk result (λ origins. origins.items ≡ map origin_of entries.now) }
{
    let mut origins = Vec::new(alloc);
    for entry in entries {
        origins.push(entry.origin)?;
    }
    Ok(origins)
}

// Adds the comments of a page on the hosts of a query.
fn add_comments<'a>(
    entries: &mut Vec<Entry<'a, ShownComment<'a>>>,
    gateway: &Gateway<'a>,
    query: &Query,
) -> Result<(), AllocError>
    ensures { OnOk result (entries.new.items
        ≡ entries.old.items ++ comments_on (asked_by query.now) gateway.now) }
{
    let Ok(page) = &gateway.page else {
        return Ok(());
    };
    for row in page.comments.as_slice() {
        if takes_host(query, row.host) {
            entries.push(Entry {
                origin: Origin {
                    gateway: gateway.name,
                    id: row.id,
                },
                moment: page.moment,
                row: *row,
            })?;
        }
    }
    Ok(())
}

// Adds the downtime entries of a page for the hosts of a query.
fn add_downtimes<'a>(
    entries: &mut Vec<Entry<'a, ShownDowntime<'a>>>,
    gateway: &Gateway<'a>,
    query: &Query,
) -> Result<(), AllocError>
    ensures { OnOk result (entries.new.items
        ≡ entries.old.items ++ downtimes_on (asked_by query.now) gateway.now) }
{
    let Ok(page) = &gateway.page else {
        return Ok(());
    };
    for row in page.downtimes.as_slice() {
        if takes_host(query, row.host) {
            entries.push(Entry {
                origin: Origin {
                    gateway: gateway.name,
                    id: row.id,
                },
                moment: page.moment,
                row: *row,
            })?;
        }
    }
    Ok(())
}

/// The comments on the hosts of a query, and on their services, in the order of the gateways and of
/// their pages. The only error is out of memory.
pub fn comments_of<'a>(
    alloc: Global,
    gateways: &[Gateway<'a>],
    query: &Query,
) -> Result<Vec<Entry<'a, ShownComment<'a>>>, AllocError>
    ensures { IfOk result (λ entries. entries.items
        ≡ flat_map (comments_on (asked_by query.now)) gateways.now) }
{
    let mut entries = Vec::new(alloc);
    for gateway in gateways {
        add_comments(&mut entries, gateway, query)?;
    }
    Ok(entries)
}

/// The downtime entries of the hosts of a query, and of their services, in the order of the gateways
/// and of their pages. The only error is out of memory.
pub fn downtimes_of<'a>(
    alloc: Global,
    gateways: &[Gateway<'a>],
    query: &Query,
) -> Result<Vec<Entry<'a, ShownDowntime<'a>>>, AllocError>
    ensures { IfOk result (λ entries. entries.items
        ≡ flat_map (downtimes_on (asked_by query.now)) gateways.now) }
{
    let mut entries = Vec::new(alloc);
    for gateway in gateways {
        add_downtimes(&mut entries, gateway, query)?;
    }
    Ok(entries)
}

/// The comments on the hosts of a query, and on their services, in the order in which the pages
/// name them first.
///
/// Comments of several gateways that differ in their ids alone are one, with each of these
/// gateways. The only error is out of memory.
pub fn merge_comments<'a>(
    alloc: Global,
    gateways: &[Gateway<'a>],
    query: &Query,
) -> Result<Vec<CommentLine<'a>>, AllocError>
    ensures { IfOk result (λ lines. map comment_view lines.items
        ≡ comment_lines (asked_by query.now) gateways.now) }
{
    let entries = comments_of(alloc, gateways, query)?;
    let mut lines = Vec::new(alloc);
    for group in grouped(alloc, entries.as_slice())? {
        let origins = origins_of(alloc, group.rows.as_slice())?;
        lines.push(CommentLine {
            row: group.first.row,
            origins,
        })?;
    }
    Ok(lines)
}

/// The downtime entries of the hosts of a query, and of their services, in the order in which the
/// pages name them first.
///
/// Entries of several gateways that differ in their ids alone are one, with each of these gateways.
/// The only error is out of memory.
pub fn merge_downtimes<'a>(
    alloc: Global,
    gateways: &[Gateway<'a>],
    query: &Query,
) -> Result<Vec<DowntimeLine<'a>>, AllocError>
    ensures { IfOk result (λ lines. map downtime_view lines.items
        ≡ downtime_lines (asked_by query.now) gateways.now) }
{
    let entries = downtimes_of(alloc, gateways, query)?;
    let mut lines = Vec::new(alloc);
    for group in grouped(alloc, entries.as_slice())? {
        let origins = origins_of(alloc, group.rows.as_slice())?;
        lines.push(DowntimeLine {
            moment: group.first.moment,
            row: group.first.row,
            origins,
        })?;
    }
    Ok(lines)
}
