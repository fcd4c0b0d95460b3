//! The rows of a status page, filled from an applier: what it shows of each object, comment and
//! downtime entry.

ghost use Rattle.std.specs.Prelude.{◌≡◌, Some, None, map, slice_get, option_map, IfOk};
ghost use Rattle.gate_model.specs.declared.record.Moment.{Moment};
ghost use Rattle.gate_pages.specs.Rows.{output_in, author_in, comment_in, part_of, moment_of, output_after, object_row, object_rows, host_of, service_of, comment_row, shown_begin, downtime_row, downtime_rows};

use gate_applier::{Applier, LiveDowntime};
use gate_lines::{CommentRow, DowntimeRow, ObjectRow};
use gate_model::{Body, CheckResult, Comment, Kind, Moment, ObjectId, ObjectLine, Record, Text};
use gate_table::ObjectTable;
use std::alloc::{AllocError, Global};

// ---- what a record has

fn output_in(body: &Body) -> &[u8]
    ensures { result.now ≡ output_in body.now }
{
    match body.output() {
        Some(output) => output,
        None => b"",
    }
}

fn author_in(body: &Body) -> &[u8]
    ensures { result.now ≡ author_in body.now }
{
    match body.words() {
        Some(words) => words.author(),
        None => b"",
    }
}

fn comment_in(body: &Body) -> &[u8]
    ensures { result.now ≡ comment_in body.now }
{
    match body.words() {
        Some(words) => words.text(),
        None => b"",
    }
}

fn output_after(records: &[Record], last: Option<CheckResult>) -> &[u8]
    ensures { result.now ≡ output_after records.now last }
{
    match last {
        None => b"",
        Some(last) => match records.get(last.log_index as usize) {
            None => b"",
            Some(applied) => output_in(&applied.item.body),
        },
    }
}

fn copied_author(alloc: Global, records: &[Record], log_index: u32) -> Result<Text, AllocError>
    ensures { IfOk result (λ text. text ≡ part_of author_in (slice_get records.now log_index)) }
{
    match records.get(log_index as usize) {
        None => Text::copied(alloc, b""),
        Some(applied) => Text::copied(alloc, author_in(&applied.item.body)),
    }
}

fn copied_comment(alloc: Global, records: &[Record], log_index: u32) -> Result<Text, AllocError>
    ensures { IfOk result (λ text. text ≡ part_of comment_in (slice_get records.now log_index)) }
{
    match records.get(log_index as usize) {
        None => Text::copied(alloc, b""),
        Some(applied) => Text::copied(alloc, comment_in(&applied.item.body)),
    }
}

fn moment_of(records: &[Record], log_index: u32) -> Moment
    ensures { result ≡ moment_of (slice_get records.now log_index) }
{
    match records.get(log_index as usize) {
        None => Moment(0),
        Some(applied) => applied.moment,
    }
}

// ---- names

fn copied_service(alloc: Global, service: &Option<Text>) -> Result<Option<Text>, AllocError>
    ensures { IfOk result (λ copy. copy ≡ service.now) }
{
    match service {
        None => Ok(None),
        Some(name) => Ok(Some(Text::copied(alloc, name.bytes())?)),
    }
}

fn copied_host_of(alloc: Global, table: &ObjectTable, place: u32) -> Result<Text, AllocError>
    ensures { IfOk result (λ host. host ≡ host_of (slice_get table.now place)) }
{
    match table.line(place) {
        None => Text::copied(alloc, b""),
        Some(line) => Text::copied(alloc, line.host.bytes()),
    }
}

fn copied_service_of(
    alloc: Global,
    table: &ObjectTable,
    place: u32,
) -> Result<Option<Text>, AllocError>
    ensures { IfOk result (λ service. service ≡ service_of (slice_get table.now place)) }
{
    match table.line(place) {
        None => Ok(None),
        Some(line) => copied_service(alloc, &line.service),
    }
}

// ---- rows

fn kind_of(line: &ObjectLine) -> Kind {
    match &line.service {
        None => Kind::Host,
        Some(_) => Kind::Service,
    }
}

fn object_row(
    alloc: Global,
    applier: &Applier,
    place: u32,
    line: &ObjectLine,
) -> Result<ObjectRow, AllocError>
    requires { slice_get applier.now.table place ≡ Some line.now }
    ensures { let shown = applier.now in IfOk result (λ row.
        row ≡ object_row shown.table shown.opening shown.records shown.moment (place, line.now)) }
{
    let object = ObjectId {
        place,
        kind: kind_of(line),
    };
    let last = applier.last(object);
    Ok(ObjectRow {
        host: Text::copied(alloc, line.host.bytes())?,
        service: copied_service(alloc, &line.service)?,
        state: applier.state(object),
        last,
        stale: applier.stale(object),
        acknowledgement: applier.ack(object),
        depth: applier.depth(object),
        output: Text::copied(alloc, output_after(applier.records(), last))?,
    })
}

/// The rows of an applier's objects, in the order of the table.
pub fn object_rows(alloc: Global, applier: &Applier) -> Result<Vec<ObjectRow>, AllocError>
    ensures { let shown = applier.now in IfOk result (λ rows.
        rows.items ≡ object_rows shown.table shown.opening shown.records shown.moment) }
{
    let table = applier.table();
    let mut rows = Vec::with_capacity(alloc, table.len())?;
    for place in 0..table.len() as u32 {
        if let Some(line) = table.line(place) {
            rows.push(object_row(alloc, applier, place, line)?)?;
        }
    }
    Ok(rows)
}

fn comment_row(
    alloc: Global,
    table: &ObjectTable,
    records: &[Record],
    comment: Comment,
) -> Result<CommentRow, AllocError>
    ensures { IfOk result (λ row. row ≡ comment_row table.now records.now comment) }
{
    let place = comment.object.place;
    let log_index = comment.log_index;
    Ok(CommentRow {
        comment,
        host: copied_host_of(alloc, table, place)?,
        service: copied_service_of(alloc, table, place)?,
        moment: moment_of(records, log_index),
        author: copied_author(alloc, records, log_index)?,
        text: copied_comment(alloc, records, log_index)?,
    })
}

/// The rows of these comments.
pub fn comment_rows(
    alloc: Global,
    table: &ObjectTable,
    records: &[Record],
    comments: &[Comment],
) -> Result<Vec<CommentRow>, AllocError>
    ensures { IfOk result (λ rows.
        rows.items ≡ map (comment_row table.now records.now) comments.now) }
{
    let mut rows = Vec::with_capacity(alloc, comments.len())?;
    for comment in comments {
        rows.push(comment_row(alloc, table, records, *comment)?)?;
    }
    Ok(rows)
}

/// The beginning in seconds, unless it is later than this moment.
fn shown_begin(moment: Moment, begin: Option<Moment>) -> Option<u32>
    ensures { result ≡ shown_begin moment (option_map (λ (begin : Moment). begin.0) begin) }
{
    match begin {
        None => None,
        Some(begin) => {
            if begin.0 <= moment.0 {
                Some(begin.0)
            } else {
                None
            }
        }
    }
}

fn downtime_row(
    alloc: Global,
    applier: &Applier,
    entry: &LiveDowntime,
) -> Result<DowntimeRow, AllocError>
    ensures { let shown = applier.now in IfOk result (λ row.
        row ≡ downtime_row shown.table shown.records shown.moment entry.now) }
{
    let scheduled = entry.scheduled();
    let begin = entry.begin();
    let place = scheduled.object.place;
    let log_index = scheduled.plan.log_index;
    let table = applier.table();
    let records = applier.records();
    Ok(DowntimeRow {
        scheduled,
        host: copied_host_of(alloc, table, place)?,
        service: copied_service_of(alloc, table, place)?,
        begin: shown_begin(applier.moment(), begin),
        author: copied_author(alloc, records, log_index)?,
        text: copied_comment(alloc, records, log_index)?,
    })
}

/// The rows of an applier's live downtime entries, ids ascending.
pub fn downtime_rows(alloc: Global, applier: &Applier) -> Result<Vec<DowntimeRow>, AllocError>
    ensures { let shown = applier.now in IfOk result (λ rows.
        rows.items ≡ downtime_rows shown.table shown.records shown.moment) }
{
    let mut rows = Vec::new(alloc);
    for entry in applier.downtimes() {
        rows.push(downtime_row(alloc, applier, &entry)?)?;
    }
    Ok(rows)
}
