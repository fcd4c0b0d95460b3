//! Rows that no gateway writes, though the line of each is one of a page.

ghost use Rattle.std.specs.Prelude.{◌≡◌, ◌∷◌, ◌++◌, ◌+◌, ◌<◌, ◌≤◌, ◌^◌, [], OnOk, ℕ, List, length, map, get_or, vec_len, option_map, IfOk, IfSome, MatchResult};
ghost use Rattle.std.specs.List.{enumerate_from};
ghost use Rattle.gate_model.specs.Table.{object_kind};
ghost use Rattle.gate_table.specs.Faults.{IsFaultless};
ghost use Rattle.status_reading.specs.Rows.{object_view, comment_view, downtime_view, page_view};
ghost use Rattle.status_reading.specs.Faults.{line_count};
ghost use Rattle.status_reading.specs.RowFaults.{row_fault_words, service_name, line_of, place_on, table_fault, is_state_of, active_at, object_fault, comment_names, downtime_names, id_fault, id_faults, row_faults, first_from, IsSound, IsUnsound};
ghost use Rattle.status_reading.specs.inner.Named.{named_view, IsNoTableOf, AreCounts};
ghost use Rattle.status_reading.specs.declared.rows.ShownDowntime.{ShownDowntime as Entry};

use crate::page::{ReadFault, StatusPage};
use crate::plain::plain_bytes;
use crate::rows::{ShownComment, ShownDowntime, ShownObject};
use gate_model::{ObjectLine, State, Text};
use gate_table::{ObjectTable, TableFault};
use std::alloc::{AllocError, Global};
use std::error::Error;
use std::fmt;

/// Why no gateway writes a row. The faults of one row are tested in this order.
#[derive(Clone, Copy, Debug)]
pub enum RowFault {
    /// A name that no object can have.
    BadName,
    /// A service whose host has no row before it.
    NoSuchHost,
    /// An object that has a row before it.
    Twice,
    /// The 1,025th host, or the 1,025th service of a host. Line 1 stands for a page with more than
    /// 16,384 objects.
    TooMany,
    /// A state that is none of the object's kind, or PENDING with a result, or another without one.
    WrongState,
    /// A depth that is not the number of the object's active downtime entries.
    WrongDepth,
    /// A comment or an entry of an object that has no row.
    NoSuchObject,
    /// An id that is not above that of the row before it, or 0.
    WrongOrder,
}

/// The fault in words.
pub fn row_fault_words(fault: RowFault) -> &'static str
    ensures { result.now ≡ row_fault_words fault }
{
    match fault {
        RowFault::BadName => "a name that no object has",
        RowFault::NoSuchHost => "a service without its host before it",
        RowFault::Twice => "an object that has a line before it",
        RowFault::TooMany => "more objects than a gateway has",
        RowFault::WrongState => "a state that the object can't have",
        RowFault::WrongDepth => {
            "a depth that isn't the number of the object's active downtime entries"
        }
        RowFault::NoSuchObject => "an object that the page doesn't have",
        RowFault::WrongOrder => "an id that isn't above the one before it",
    }
}

impl fmt::Display for RowFault {
    fn fmt<W: fmt::Write>(&self, f: &mut fmt::Formatter<W>) -> fmt::Result {
        f.write_str(row_fault_words(*self))
    }
}

impl Error for RowFault {}

/// The id of a comment or a downtime entry, and the names of its object.
#[derive(Clone, Copy)]
pub(crate) struct Named<'a> {
    pub id: u32,
    pub host: &'a [u8],
    pub service: &'a [u8],
}

pub(crate) trait HasNames: Copy {
    ghost use Rattle.status_reading.specs.RowFaults.{NamedView};

    ghost names_of: { Self → NamedView };

    fn names(&self) -> Named<'_>
        ensures { named_view result ≡ names_of self.now };
}

impl<'a> HasNames for ShownComment<'a> {
    ghost names_of = { λ row. comment_names (comment_view row) };

    fn names(&self) -> Named<'_> {
        Named {
            id: self.id,
            host: self.host,
            service: self.service,
        }
    }
}

impl<'a> HasNames for ShownDowntime<'a> {
    ghost names_of = { λ row. downtime_names (downtime_view row) };

    fn names(&self) -> Named<'_> {
        Named {
            id: self.id,
            host: self.host,
            service: self.service,
        }
    }
}

// ---- the objects as a table

fn service_name(alloc: Global, service: &[u8]) -> Result<Option<Text>, AllocError>
    ensures { IfOk result (λ name. name ≡ service_name service.now) }
{
    if service.is_empty() {
        return Ok(None);
    }
    Ok(Some(Text::new(plain_bytes(alloc, service)?)))
}

fn line_of(alloc: Global, row: &ShownObject<'_>) -> Result<ObjectLine, AllocError>
    ensures { IfOk result (λ line. line ≡ line_of (object_view row.now)) }
{
    let host = Text::new(plain_bytes(alloc, row.host)?);
    let service = service_name(alloc, row.service)?;
    Ok(ObjectLine {
        host,
        service,
        threshold: 0,
    })
}

fn lines_of(alloc: Global, objects: &[ShownObject<'_>]) -> Result<Vec<ObjectLine>, AllocError>
    ensures { IfOk result (λ lines. lines.items ≡ map line_of (map object_view objects.now)) }
{
    let mut lines = Vec::new(alloc);
    for row in objects {
        lines.push(line_of(alloc, row)?)?;
    }
    Ok(lines)
}

fn table_fault(cause: TableFault) -> ReadFault
    ensures { result ≡ table_fault cause }
{
    match cause {
        TableFault::BadName(number) => ReadFault::BadRow(number as usize + 1, RowFault::BadName),
        TableFault::NoSuchHost(number) => {
            ReadFault::BadRow(number as usize + 1, RowFault::NoSuchHost)
        }
        TableFault::DuplicateHost(number) | TableFault::DuplicateService(number) => {
            ReadFault::BadRow(number as usize + 1, RowFault::Twice)
        }
        TableFault::TooMany(number) => ReadFault::BadRow(number as usize + 1, RowFault::TooMany),
        TableFault::OutOfMemory => ReadFault::OutOfMemory,
    }
}

fn table_of(alloc: Global, objects: &[ShownObject<'_>]) -> Result<ObjectTable, ReadFault>
    ensures { MatchResult result
        (λ table. (table ≡ map line_of (map object_view objects.now)) × IsFaultless table)
        (IsNoTableOf (map line_of (map object_view objects.now))) }
{
    let lines = lines_of(alloc, objects)?;
    match ObjectTable::build(alloc, lines) {
        Ok(table) => Ok(table),
        Err(refused) => Err(table_fault(refused.cause)),
    }
}

// ---- the rows

// The place of the object of these names.
fn place_on(
    alloc: Global,
    table: &ObjectTable,
    host: &[u8],
    service: &[u8],
) -> Result<Option<u32>, AllocError>
    ensures place { IfOk result (λ found. found ≡ place_on table.now host.now service.now) }
    ensures within { IfOk result (λ found. IfSome found (λ place. place < length table.now)) }
{
    let host = plain_bytes(alloc, host)?;
    let found = match service_name(alloc, service)? {
        None => table.find_host(host.as_slice()),
        Some(service) => table.find_service(host.as_slice(), service.bytes()),
    };
    match found {
        Some(object) => Ok(Some(object.place)),
        None => Ok(None),
    }
}

fn is_state_of(row: &ShownObject<'_>) -> bool
    ensures { result ≡ is_state_of row.now.last
        (object_kind (service_name row.now.service.now)) row.now.state }
{
    match row.state {
        State::Pending => row.last.is_none(),
        State::Up | State::Down | State::Unreachable => {
            row.last.is_some() && row.service.is_empty()
        }
        State::Ok | State::Warning | State::Critical | State::Unknown => {
            row.last.is_some() && !row.service.is_empty()
        }
    }
}

fn object_fault(active: usize, row: &ShownObject<'_>) -> Option<RowFault>
    ensures { result ≡ object_fault active (object_view row.now) }
{
    if !is_state_of(row) {
        Some(RowFault::WrongState)
    } else if row.depth as usize == active {
        None
    } else {
        Some(RowFault::WrongDepth)
    }
}

// Counts an entry for the place of its object, where it has begun.
fn count_entry(
    alloc: Global,
    table: &ObjectTable,
    counts: &mut [usize],
    row: &ShownDowntime<'_>,
) -> Result<(), AllocError>
    requires long { length counts.old ≡ length table.now }
    requires few { (place : ℕ) → place < length table.now → get_or counts.old place 0 + 1 < 2 ^ 64 }
    ensures { (entries : List Entry) → AreCounts table.now entries counts.old
        → OnOk result (AreCounts table.now (entries ++ row.now ∷ []) counts.new) }
{
    if row.begin.is_none() {
        return Ok(());
    }
    if let Some(place) = place_on(alloc, table, row.host, row.service)? {
        counts[place as usize] += 1;
    }
    Ok(())
}

// How many active entries are of the object at each place.
fn active_counts(
    alloc: Global,
    table: &ObjectTable,
    downtimes: &[ShownDowntime<'_>],
) -> Result<Vec<usize>, AllocError>
    ensures length { IfOk result (λ counts. vec_len counts ≡ length table.now) }
    ensures counts { IfOk result (λ counts. (place : ℕ) → place < length table.now
        → get_or counts.items place 0
        ≡ active_at table.now (map downtime_view downtimes.now) place) }
{
    let mut counts = vec![in alloc; 0; table.len()]?;
    for row in downtimes {
        count_entry(alloc, table, counts.as_mut_slice(), row)?;
    }
    Ok(counts)
}

// The first fault of the rows of objects, of which the first has the line 2.
fn objects_fault(objects: &[ShownObject<'_>], counts: &[usize]) -> Option<(usize, RowFault)>
    requires counts { length counts.now ≡ length objects.now }
    requires few { 2 + length objects.now < 2 ^ 64 }
    ensures { result ≡ first_from 2 (map
        (λ (one : ℕ × _). object_fault (get_or counts.now one.0 0) one.1)
        (enumerate_from 0 (map object_view objects.now))) }
{
    for (place, row) in objects.iter().enumerate() {
        if let Some(fault) = object_fault(counts[place], row) {
            return Some((place + 2, fault));
        }
    }
    None
}

fn id_fault(
    alloc: Global,
    table: &ObjectTable,
    last: u32,
    row: Named<'_>,
) -> Result<Option<RowFault>, AllocError>
    ensures { IfOk result (λ fault. fault ≡ id_fault table.now last (named_view row.entry)) }
{
    match place_on(alloc, table, row.host, row.service)? {
        None => Ok(Some(RowFault::NoSuchObject)),
        Some(_) if last < row.id => Ok(None),
        Some(_) => Ok(Some(RowFault::WrongOrder)),
    }
}

// The first fault of the rows of comments or of downtime entries, of which the first has this line.
fn ids_fault<R: HasNames>(
    alloc: Global,
    table: &ObjectTable,
    line: usize,
    rows: &[R],
) -> Result<Option<(usize, RowFault)>, AllocError>
    requires { line + length rows.now < 2 ^ 64 }
    ensures { IfOk result (λ found.
        found ≡ first_from line (id_faults table.now 0 (map R.names_of rows.now))) }
{
    let mut last = 0;
    for (index, row) in rows.iter().enumerate() {
        let names = row.names();
        if let Some(fault) = id_fault(alloc, table, last, names)? {
            return Ok(Some((line + index, fault)));
        }
        last = names.id;
    }
    Ok(None)
}

fn first_fault(
    alloc: Global,
    table: &ObjectTable,
    page: &StatusPage<'_>,
) -> Result<Option<(usize, RowFault)>, AllocError>
    requires table { table.now ≡ map line_of (map object_view page.now.objects.items) }
    requires few { line_count (page_view page.now) < 2 ^ 64 }
    ensures { IfOk result (λ found.
        found ≡ first_from 2 (row_faults table.now (page_view page.now))) }
{
    let counts = active_counts(alloc, table, page.downtimes.as_slice())?;
    if let Some(found) = objects_fault(page.objects.as_slice(), counts.as_slice()) {
        return Ok(Some(found));
    }
    let line = page.objects.len() + 2;
    if let Some(found) = ids_fault(alloc, table, line, page.comments.as_slice())? {
        return Ok(Some(found));
    }
    let line = line + page.comments.len();
    ids_fault(alloc, table, line, page.downtimes.as_slice())
}

/// Refuses a page with a row that no gateway writes: with `BadRow` of the first one, or
/// `OutOfMemory`.
pub fn check_rows(alloc: Global, page: &StatusPage<'_>) -> Result<(), ReadFault>
    requires { line_count (page_view page.now) < 2 ^ 64 }
    ensures { MatchResult result (λ _. IsSound (page_view page.now)) (IsUnsound (page_view page.now)) }
{
    let table = table_of(alloc, page.objects.as_slice())?;
    match first_fault(alloc, &table, page)? {
        None => Ok(()),
        Some((line, fault)) => Err(ReadFault::BadRow(line, fault)),
    }
}
