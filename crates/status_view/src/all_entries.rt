//! The page of all comments, and that of all downtime entries.

ghost use Rattle.std.specs.Prelude.{◌≡◌, ◌++◌, Some, map, OnOk, IfOk};
ghost use Rattle.status_view.specs.Shapes.{entry_shape_view, shape_view, page_shape};
ghost use Rattle.status_view.specs.Filling.{filled, html_bytes};
ghost use Rattle.status_view.specs.ListsLayout.{entries_table};
ghost use Rattle.status_view.specs.ObjectsLayout.{pages_nodes};
ghost use Rattle.status_view.specs.EntriesPage.{rows_in, list_path, none_nodes, all_nodes, entries_page_nodes};

use crate::filling::fill;
use crate::head_layout::{lay_out_alarms, lay_out_document, lay_out_title};
use crate::html::shape_of;
use crate::layout::{EntryList, Layout, Node};
use crate::lists_layout::lay_out_entries_table;
use crate::objects_layout::lay_out_pages;
use crate::shape::{EntryShape, PageShape, lay_out_end};
use crate::view::View;
use html_text::Html;
use std::alloc::{AllocError, Global};

fn rows_in(list: EntryList, shape: &PageShape) -> &[EntryShape]
    ensures { map entry_shape_view result.now ≡ rows_in list (shape_view shape.now) }
{
    match list {
        EntryList::Comments => shape.comments.as_slice(),
        EntryList::Downtimes => shape.downtimes.as_slice(),
    }
}

fn list_path(list: EntryList) -> &'static str
    ensures { result.now ≡ list_path list }
{
    match list {
        EntryList::Comments => "/comments",
        EntryList::Downtimes => "/downtime",
    }
}

#[tactic(auto, unfolding(crate::specs::EntriesPage::none_nodes))]
fn lay_out_none(layout: &mut Layout, list: EntryList) -> Result<(), AllocError>
    ensures { OnOk result (layout.new ≡ layout.old ++ none_nodes list) }
{
    match list {
        EntryList::Comments => layout.put(&[Node::Markup("<p>No comments.</p>\n")]),
        EntryList::Downtimes => layout.put(&[Node::Markup("<p>No downtime.</p>\n")]),
    }
}

// Appends the list with the links to its pages.
fn lay_out_some(layout: &mut Layout, list: EntryList, shape: &PageShape) -> Result<(), AllocError>
    ensures { let shape = shape_view shape.now in OnOk result (layout.new ≡ layout.old
        ++ (entries_table list (Some shape.selected) (rows_in list shape)
        ++ pages_nodes (list_path list) shape.page shape.selected)) }
{
    let rows = rows_in(list, shape);
    lay_out_entries_table(layout, list, Some(shape.selected), rows)?;
    lay_out_pages(layout, list_path(list), shape.page, shape.selected)
}

#[tactic(auto, unfolding(crate::specs::EntriesPage::all_nodes))]
fn lay_out_all(layout: &mut Layout, list: EntryList, shape: &PageShape) -> Result<(), AllocError>
    ensures { OnOk result (layout.new ≡ layout.old ++ all_nodes list (shape_view shape.now)) }
{
    if shape.selected > 0 {
        lay_out_some(layout, list, shape)
    } else {
        lay_out_none(layout, list)
    }
}

fn lay_out_page(layout: &mut Layout, list: EntryList, shape: &PageShape) -> Result<(), AllocError>
    ensures { OnOk result
        (layout.new ≡ layout.old ++ entries_page_nodes list (shape_view shape.now)) }
{
    let gateways = shape.gateways.as_slice();
    lay_out_document(layout, shape.refresh, 0)?;
    lay_out_title(layout, gateways)?;
    lay_out_alarms(layout, gateways)?;
    lay_out_all(layout, list, shape)?;
    lay_out_end(layout)
}

/// The page of the comments, or of the downtime entries, of a view: those of one page of the list, of
/// which `selected` is the length. The only error is out of memory.
pub fn entries_page(alloc: Global, view: &View<'_>, list: EntryList) -> Result<Html, AllocError>
    ensures { let view = view.entry.now in IfOk result (λ html. html
        ≡ html_bytes (filled view (entries_page_nodes list (page_shape view)))) }
{
    let shape = shape_of(alloc, view)?;
    let mut layout = Layout::new(alloc);
    lay_out_page(&mut layout, list, &shape)?;
    fill(alloc, &layout, view)
}
