ghost use Rattle.std.specs.Prelude.{◌≡◌, [], true, map, count_by, IfOk};
ghost use Rattle.std.specs.List.{All, list_any};
ghost use Rattle.std.specs.Str.{bytes_eq};
ghost use Rattle.gate_model.specs.State.{is_same_state};
ghost use Rattle.status_merge.specs.Asking.{asked_by};
ghost use Rattle.status_view.specs.declared.view.View.{View as Shown};
ghost use Rattle.status_view.specs.Shapes.{entry_shape_view, gateway_shape_view, shape_view, moment_of, gateway_shape, is_urgent, is_reason, is_reason_of, reason_of, object_shape, comment_shape, downtime_shape, asked_shape, has_form, page_shape};
ghost use Rattle.status_view.specs.SummaryLayout.{tiles_of, CountsSelected};
ghost use Rattle.status_merge.specs.Objects.{HasOwnState};
ghost use Rattle.status_view.specs.HeadLayout.{refresh_nodes};
ghost use Rattle.status_view.specs.Page.{seconds_of, page_nodes};
ghost use Rattle.status_view.specs.Filling.{filled, html_bytes, without_texts};

use crate::filling::fill;
use crate::shape::{
    AskedShape, CommentMarks, DowntimeMarks, EntryMarks, EntryShape, GatewayShape, ObjectShape,
    PageShape, lay_out,
};
use crate::view::View;
use html_text::Html;
use status_merge::{
    CommentLine, DowntimeLine, Gateway, MergedObject, Origin, Query, count, filter_rows, is_made,
    rank,
};
use status_reading::{ShownSource, State};
use std::alloc::{AllocError, Global};

// The moment of a gateway's page, where there is one.
fn moment_of(gateway: &Gateway<'_>) -> Option<u32>
    ensures { result ≡ moment_of gateway.now }
{
    match &gateway.page {
        Ok(page) => Some(page.moment),
        Err(_) => None,
    }
}

fn gateway_shape(alloc: Global, gateway: &Gateway<'_>) -> Result<GatewayShape, AllocError>
    ensures { IfOk result (λ shape. gateway_shape_view shape ≡ gateway_shape gateway.now) }
{
    Ok(GatewayShape {
        moment: moment_of(gateway),
        alarms: Vec::from_slice(alloc, gateway.alarms.as_slice())?,
    })
}

fn is_reason(source: ShownSource) -> bool
    ensures { result ≡ is_reason source }
{
    match source {
        ShownSource::Acknowledgement => true,
        ShownSource::User | ShownSource::Downtime => false,
    }
}

fn is_of(origins: &[Origin<'_>], gateway: &str) -> bool
    ensures { result ≡ list_any (λ origin. bytes_eq origin.gateway.now gateway.now) origins.now }
{
    origins.iter().any(|origin| origin.gateway == gateway)
}

fn is_reason_of(shown: &MergedObject<'_>, line: &CommentLine<'_>) -> bool
    ensures { result ≡ is_reason_of shown.now line.now }
{
    let row = &line.row;
    is_reason(row.source)
        && row.host == shown.row.host
        && row.service == shown.row.service
        && is_of(line.origins.as_slice(), shown.gateway)
}

// The index of the last comment by which an object is acknowledged, where it is.
fn reason_of(comments: &[CommentLine<'_>], shown: &MergedObject<'_>) -> Option<usize>
    ensures { result ≡ reason_of comments.now shown.now }
{
    if !is_made(shown.row.acknowledgement) {
        return None;
    }
    let mut reason = None;
    for (index, line) in comments.iter().enumerate() {
        if is_reason_of(shown, line) {
            reason = Some(index);
        }
    }
    reason
}

fn object_shape(comments: &[CommentLine<'_>], shown: &MergedObject<'_>) -> ObjectShape
    ensures { result ≡ object_shape comments.now shown.now }
{
    let row = &shown.row;
    ObjectShape {
        is_host: row.service.is_empty(),
        state: row.state,
        last: row.last,
        stale: row.stale,
        acknowledgement: row.acknowledgement,
        reason: reason_of(comments, shown),
        depth: row.depth,
        host_is_out: shown.host_is_out,
        is_urgent: rank(shown) < 5,
        moment: shown.moment,
        since: shown.since,
    }
}

fn ids_of(alloc: Global, origins: &[Origin<'_>]) -> Result<Vec<u32>, AllocError>
    ensures { IfOk result (λ ids. ids.items ≡ map (λ origin. origin.id) origins.now) }
{
    let mut ids = Vec::new(alloc);
    for origin in origins {
        ids.push(origin.id)?;
    }
    Ok(ids)
}

fn comment_shape(alloc: Global, line: &CommentLine<'_>) -> Result<EntryShape, AllocError>
    ensures { IfOk result (λ shape. entry_shape_view shape ≡ comment_shape line.now) }
{
    let row = &line.row;
    Ok(EntryShape {
        is_host: row.service.is_empty(),
        marks: EntryMarks::Comment(CommentMarks {
            source: row.source,
            persistent: row.persistent,
            moment: row.moment,
        }),
        ids: ids_of(alloc, line.origins.as_slice())?,
    })
}

fn downtime_shape(alloc: Global, line: &DowntimeLine<'_>) -> Result<EntryShape, AllocError>
    ensures { IfOk result (λ shape. entry_shape_view shape ≡ downtime_shape line.now) }
{
    let row = &line.row;
    Ok(EntryShape {
        is_host: row.service.is_empty(),
        marks: EntryMarks::Downtime(DowntimeMarks {
            fixed: row.fixed,
            trigger: row.trigger,
            start: row.start,
            end: row.end,
            duration: row.duration,
            begin: row.begin,
            moment: line.moment,
        }),
        ids: ids_of(alloc, line.origins.as_slice())?,
    })
}

fn object_shapes(
    alloc: Global,
    comments: &[CommentLine<'_>],
    objects: &[MergedObject<'_>],
) -> Result<Vec<ObjectShape>, AllocError>
    ensures { IfOk result (λ shapes.
        shapes.items ≡ map (object_shape comments.now) objects.now) }
{
    let mut shapes = Vec::new(alloc);
    for object in objects {
        shapes.push(object_shape(comments, object))?;
    }
    Ok(shapes)
}

/// What decides the markup of gateways' lines. The only error is out of memory.
pub fn gateway_shapes(
    alloc: Global,
    gateways: &[Gateway<'_>],
) -> Result<Vec<GatewayShape>, AllocError>
    ensures { IfOk result (λ shapes.
        map gateway_shape_view shapes.items ≡ map gateway_shape gateways.now) }
{
    let mut shapes = Vec::new(alloc);
    for gateway in gateways {
        shapes.push(gateway_shape(alloc, gateway)?)?;
    }
    Ok(shapes)
}

fn comment_shapes(alloc: Global, lines: &[CommentLine<'_>]) -> Result<Vec<EntryShape>, AllocError>
    ensures { IfOk result (λ shapes.
        map entry_shape_view shapes.items ≡ map comment_shape lines.now) }
{
    let mut shapes = Vec::new(alloc);
    for line in lines {
        shapes.push(comment_shape(alloc, line)?)?;
    }
    Ok(shapes)
}

fn downtime_shapes(alloc: Global, lines: &[DowntimeLine<'_>]) -> Result<Vec<EntryShape>, AllocError>
    ensures { IfOk result (λ shapes.
        map entry_shape_view shapes.items ≡ map downtime_shape lines.now) }
{
    let mut shapes = Vec::new(alloc);
    for line in lines {
        shapes.push(downtime_shape(alloc, line)?)?;
    }
    Ok(shapes)
}

fn pending_in(objects: &[MergedObject<'_>]) -> usize
    ensures { result ≡ count_by (λ object. is_same_state object.row.state State.Pending) objects.now }
{
    objects
        .iter()
        .filter(|object| {
            let found = object.row.state;
            found == State::Pending
        })
        .count()
}

fn urgent_in(objects: &[MergedObject<'_>]) -> usize
    ensures { result ≡ count_by is_urgent objects.now }
{
    objects.iter().filter(|object| rank(object) < 5).count()
}

fn asked_shape(query: &Query) -> AskedShape
    ensures { result ≡ asked_shape (asked_by query.now) }
{
    AskedShape {
        host: !query.host.is_empty(),
        hostname: !query.hostname.is_empty(),
        service: !query.service.is_empty(),
        output: !query.output.is_empty(),
        gateway: !query.gateway.is_empty(),
    }
}

fn has_form(query: &Query) -> bool
    ensures { result ≡ has_form query.now }
{
    query.form || query.refresh == 0
}

/// What decides the markup of a page. The counts are those of the objects that the query takes,
/// whatever their states. The only error is out of memory.
pub fn shape_of(alloc: Global, view: &View<'_>) -> Result<PageShape, AllocError>
    ensures { IfOk result (λ shape. shape_view shape ≡ page_shape view.entry.now) }
{
    let counted = filter_rows(alloc, view.all, view.query)?;
    Ok(PageShape {
        choice: view.query.choice,
        texts: asked_shape(view.query),
        acknowledged: view.query.acknowledged,
        downtime: view.query.downtime,
        sort: view.query.sort,
        page: view.query.page,
        selected: view.selected,
        marks: view.marks,
        refresh: view.query.refresh,
        form: has_form(view.query),
        all: view.all.len(),
        counts: count(counted.as_slice()),
        pending: pending_in(counted.as_slice()),
        urgent: urgent_in(view.all),
        gateways: gateway_shapes(alloc, view.gateways)?,
        objects: object_shapes(alloc, view.comments, view.objects)?,
        comments: comment_shapes(alloc, view.comments)?,
        downtimes: downtime_shapes(alloc, view.downtimes)?,
    })
}

/// The page for a browser. The only error is out of memory.
pub fn html_page(alloc: Global, view: &View<'_>) -> Result<Html, AllocError>
    ensures page { let view = view.entry.now in
        IfOk result (λ html. html ≡ html_bytes (filled view (page_nodes (page_shape view)))) }

    // The number of each tile is the length of what its link selects.
    ensures tiles { let view = view.entry.now in let asked = asked_by view.query.now in
        All HasOwnState view.all.now
        → All (CountsSelected asked view.all.now) (tiles_of (page_shape view)) }

    // A page with the form is not loaded again.
    ensures typed { let shape = page_shape view.entry.now in
        shape.form ≡ true → refresh_nodes (seconds_of shape) ≡ [] }

    // The texts have no part in the markup: any view of the same shape has a page with the same
    // markup and the same numbers, and its texts at the same places.
    ensures shape_alone { let view = view.entry.now in
        (other : Shown) → page_shape other ≡ page_shape view
        → without_texts (filled view (page_nodes (page_shape view)))
        ≡ without_texts (filled other (page_nodes (page_shape other))) }
{
    let shape = shape_of(alloc, view)?;
    let layout = lay_out(alloc, &shape)?;
    fill(alloc, &layout, view)
}
