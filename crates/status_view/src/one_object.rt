//! The page of one object.

ghost use Rattle.std.specs.Prelude.{◌≡◌, ◌++◌, map, filter, OnOk, IfOk};
ghost use Rattle.std.specs.List.{flat_map};
ghost use Rattle.status_merge.specs.Entries.{comment_view, downtime_view};
ghost use Rattle.status_view.specs.Shapes.{shape_view, page_shape};
ghost use Rattle.status_view.specs.ChangesLayout.{change_shape};
ghost use Rattle.status_view.specs.Filling.{filled, html_bytes};
ghost use Rattle.status_view.specs.OneObject.{is_asked, is_from, rows_on, are_from, is_comment_on, is_downtime_of, is_change_of, changes_asked, IsObjectPage, name_nodes, rows_nodes, object_head_nodes, object_page_nodes};

use crate::changes::{ChangeShape, change_shapes, lay_out_changes_table};
use crate::filling::fill;
use crate::head_layout::{lay_out_alarms, lay_out_document, lay_out_title};
use crate::html::shape_of;
use crate::layout::{EntryList, Layout, Node, ObjectText, Slot};
use crate::lists_layout::lay_out_entries;
use crate::objects_layout::lay_out_table;
use crate::shape::{ObjectShape, PageShape, lay_out_end};
use crate::view::View;
use html_text::Html;
use status_memory::GatewayChange;
use status_merge::{
    CommentLine, DowntimeLine, Gateway, MergedObject, Origin, Query, is_at, merge, merge_comments,
    merge_downtimes,
};
use std::alloc::{AllocError, Global};
use std::slice::from_ref;

/// An object that is asked for, and the pages that may show it.
#[derive(Clone, Copy)]
pub struct ObjectAsked<'a> {
    pub title: &'a str,
    /// The clock of the program, in seconds since 1970.
    pub clock: u32,
    /// The seconds after which a browser asks again; 0: it doesn't.
    pub refresh: u32,
    /// The name of the object's host, as pages write it.
    pub host: &'a [u8],
    /// That of the service, which a host has empty.
    pub service: &'a [u8],
    /// That of the gateway whose row and entries are shown; empty: every gateway.
    pub gateway: &'a [u8],
    pub gateways: &'a [Gateway<'a>],
    /// The changes of states of all objects, the newest first.
    pub changes: &'a [GatewayChange<'a>],
}

fn is_asked(asked: &ObjectAsked<'_>, host: &[u8], service: &[u8]) -> bool
    ensures { result ≡ is_asked asked.now host.now service.now }
{
    host == asked.host && service == asked.service
}

fn is_from(asked: &ObjectAsked<'_>, gateway: &str) -> bool
    ensures { result ≡ is_from asked.now gateway.now }
{
    is_at(asked.gateway, gateway.as_bytes())
}

// Appends the object's row on the page of a gateway, where that is asked for and shows it.
fn add_rows<'a>(
    alloc: Global,
    rows: &mut Vec<MergedObject<'a>>,
    asked: &ObjectAsked<'a>,
    gateway: &Gateway<'a>,
) -> Result<(), AllocError>
    ensures { OnOk result
        (rows.new.items ≡ rows.old.items ++ rows_on asked.now gateway.now) }
{
    if !is_from(asked, gateway.name) {
        return Ok(());
    }
    let objects = merge(alloc, from_ref(gateway))?;
    for object in objects.as_slice() {
        if is_asked(asked, object.row.host, object.row.service) {
            rows.push(*object)?;
        }
    }
    Ok(())
}

// The object's row on each page that shows it.
fn rows_of<'a>(alloc: Global, asked: &ObjectAsked<'a>) -> Result<Vec<MergedObject<'a>>, AllocError>
    ensures { IfOk result (λ rows. rows.items
        ≡ flat_map (rows_on asked.now) asked.now.gateways.now) }
{
    let mut rows = Vec::new(alloc);
    for gateway in asked.gateways {
        add_rows(alloc, &mut rows, asked, gateway)?;
    }
    Ok(rows)
}

fn are_from(asked: &ObjectAsked<'_>, origins: &[Origin<'_>]) -> bool
    ensures { result ≡ are_from asked.now origins.now }
{
    origins.iter().any(|origin| is_from(asked, origin.gateway))
}

fn is_comment_on(asked: &ObjectAsked<'_>, line: &CommentLine<'_>) -> bool
    ensures { result ≡ is_comment_on asked.now (comment_view line.now) }
{
    is_asked(asked, line.row.host, line.row.service) && are_from(asked, line.origins.as_slice())
}

fn is_downtime_of(asked: &ObjectAsked<'_>, line: &DowntimeLine<'_>) -> bool
    ensures { result ≡ is_downtime_of asked.now (downtime_view line.now) }
{
    is_asked(asked, line.row.host, line.row.service) && are_from(asked, line.origins.as_slice())
}

// Leaves the comments on the object.
fn retain_comments(lines: &mut Vec<CommentLine<'_>>, asked: &ObjectAsked<'_>)
    ensures { map comment_view lines.new.items
        ≡ filter (is_comment_on asked.now) (map comment_view lines.old.items) }
{
    lines.retain(|line| is_comment_on(asked, line));
}

// Leaves the downtime entries of the object.
fn retain_downtimes(lines: &mut Vec<DowntimeLine<'_>>, asked: &ObjectAsked<'_>)
    ensures { map downtime_view lines.new.items
        ≡ filter (is_downtime_of asked.now) (map downtime_view lines.old.items) }
{
    lines.retain(|line| is_downtime_of(asked, line));
}

fn is_change_of(asked: &ObjectAsked<'_>, shown: &GatewayChange<'_>) -> bool
    ensures { result ≡ is_change_of asked.now shown.now }
{
    let change = shown.change;
    is_asked(asked, change.host.as_slice(), change.service.as_slice())
        && is_from(asked, shown.gateway)
}

// The changes of the object's state.
fn changes_of<'a>(
    alloc: Global,
    asked: &ObjectAsked<'a>,
) -> Result<Vec<GatewayChange<'a>>, AllocError>
    ensures { IfOk result (λ changes. changes.items ≡ changes_asked asked.now) }
{
    let mut changes = Vec::new(alloc);
    for shown in asked.changes {
        if is_change_of(asked, shown) {
            changes.push(*shown)?;
        }
    }
    Ok(changes)
}

fn lay_out_name(layout: &mut Layout, is_host: bool) -> Result<(), AllocError>
    ensures { OnOk result (layout.new ≡ layout.old ++ name_nodes is_host) }
{
    layout.put(&[
        Node::Markup("<table><caption><h2><bdi>"),
        Node::Slot(Slot::Object(0, ObjectText::Host)),
    ])?;
    layout.put_if(
        !is_host,
        &[
            Node::Markup("</bdi> <span class=\"soft\">/</span> <bdi>"),
            Node::Slot(Slot::Object(0, ObjectText::Service)),
        ],
    )?;
    layout.put(&[Node::Markup("</bdi></h2>")])?;
    layout.put_if(
        !is_host,
        &[
            Node::Markup("<a href=\""),
            Node::Slot(Slot::Object(0, ObjectText::HostLink)),
            Node::Markup("\">its host</a> &middot; "),
        ],
    )?;
    layout.put(&[
        Node::Markup("<a href=\""),
        Node::Slot(Slot::Object(0, ObjectText::HostsLink)),
        Node::Markup("\">objects of the host</a></caption>\n"),
    ])
}

#[tactic(auto, unfolding(crate::specs::OneObject::rows_nodes))]
fn lay_out_rows(layout: &mut Layout, rows: &[ObjectShape]) -> Result<(), AllocError>
    ensures { OnOk result (layout.new ≡ layout.old ++ rows_nodes rows.now) }
{
    match rows.first() {
        Some(row) => {
            lay_out_name(layout, row.is_host)?;
            lay_out_table(layout, rows, None, true)
        }
        None => layout.put(&[Node::Markup("<p>No page of a gateway shows this object.</p>\n")]),
    }
}

fn lay_out_head(layout: &mut Layout, shape: &PageShape) -> Result<(), AllocError>
    ensures { OnOk result
        (layout.new ≡ layout.old ++ object_head_nodes (shape_view shape.now)) }
{
    let gateways = shape.gateways.as_slice();
    let rows = shape.objects.as_slice();
    lay_out_document(layout, shape.refresh, 0)?;
    lay_out_title(layout, gateways)?;
    lay_out_alarms(layout, gateways)?;
    lay_out_rows(layout, rows)
}

fn lay_out_page(
    layout: &mut Layout,
    shape: &PageShape,
    changes: &[ChangeShape],
) -> Result<(), AllocError>
    ensures { OnOk result (layout.new
        ≡ layout.old ++ object_page_nodes (shape_view shape.now) changes.now) }
{
    lay_out_head(layout, shape)?;
    lay_out_entries(layout, EntryList::Comments, shape.comments.as_slice())?;
    lay_out_entries(layout, EntryList::Downtimes, shape.downtimes.as_slice())?;
    lay_out_changes_table(layout, changes)?;
    lay_out_end(layout)
}

fn view_page(alloc: Global, view: &View<'_>) -> Result<Html, AllocError>
    ensures { let view = view.entry.now in IfOk result (λ html. html ≡ html_bytes
        (filled view (object_page_nodes (page_shape view) (map change_shape view.changes.now)))) }
{
    let shape = shape_of(alloc, view)?;
    let changes = change_shapes(alloc, view.changes)?;
    let mut layout = Layout::new(alloc);
    lay_out_page(&mut layout, &shape, changes.as_slice())?;
    fill(alloc, &layout, view)
}

/// The page of one object, by its exact names: its row on the page of each gateway that shows it,
/// who acknowledged it and why, its comments, its downtime entries and its changes; for a gateway's
/// name those of that gateway alone.
///
/// Where no page shows it, it says so. The only error is out of memory.
pub fn object_page(alloc: Global, asked: &ObjectAsked<'_>) -> Result<Html, AllocError>
    ensures { IfOk result (λ html. IsObjectPage asked.entry.now html) }
{
    let query = Query::new(alloc, asked.refresh);
    let rows = rows_of(alloc, asked)?;
    let mut comments = merge_comments(alloc, asked.gateways, &query)?;
    retain_comments(&mut comments, asked);
    let mut downtimes = merge_downtimes(alloc, asked.gateways, &query)?;
    retain_downtimes(&mut downtimes, asked);
    let changes = changes_of(alloc, asked)?;
    let view = View {
        title: asked.title,
        clock: asked.clock,
        refresh: asked.refresh,
        marks: false,
        query: &query,
        gateways: asked.gateways,
        all: rows.as_slice(),
        selected: rows.len(),
        objects: rows.as_slice(),
        comments: comments.as_slice(),
        downtimes: downtimes.as_slice(),
        changes: changes.as_slice(),
    };
    view_page(alloc, &view)
}
