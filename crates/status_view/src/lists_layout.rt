//! The rows of comments and of downtime entries.

ghost use Rattle.std.specs.Prelude.{◌≡◌, ◌++◌, map, OnOk};
ghost use Rattle.status_view.specs.Layout.{nodes_if, each_indexed};
ghost use Rattle.status_view.specs.Shapes.{entry_shape_view};
ghost use Rattle.status_view.specs.ListsLayout.{comment_nodes, duration_nodes, window_nodes, ago_nodes, began_nodes, entry_marks_nodes, entry_name_nodes, words_nodes, origin_nodes, entry_nodes, list_title, extent_nodes, list_columns, entries_table, entries_nodes};

use crate::layout::{EntryList, EntryText, Layout, Node, Slot};
use crate::shape::{CommentMarks, DowntimeMarks, EntryMarks, EntryShape};
use crate::times::{lay_out_span, lay_out_time};
use status_reading::{plan_name, source_word};
use std::alloc::AllocError;

fn lay_out_comment(layout: &mut Layout, row: &CommentMarks) -> Result<(), AllocError>
    ensures { OnOk result (layout.new ≡ layout.old ++ comment_nodes row.now) }
{
    layout.put(&[Node::Markup(source_word(row.source))])?;
    layout.put_if(row.persistent, &[Node::Markup(", persistent")])?;
    layout.put(&[Node::Markup("</td><td class=\"num cell\">")])?;
    lay_out_time(layout, row.moment)
}

fn lay_out_duration(layout: &mut Layout, seconds: u32) -> Result<(), AllocError>
    ensures { OnOk result (layout.new ≡ layout.old ++ duration_nodes seconds) }
{
    layout.put(&[Node::Markup(", for ")])?;
    lay_out_span(layout, seconds)
}

fn lay_out_duration_if(layout: &mut Layout, flexible: bool, seconds: u32) -> Result<(), AllocError>
    ensures { OnOk result (layout.new
        ≡ layout.old ++ nodes_if flexible (duration_nodes seconds)) }
{
    if flexible {
        lay_out_duration(layout, seconds)
    } else {
        Ok(())
    }
}

fn lay_out_window(layout: &mut Layout, row: &DowntimeMarks) -> Result<(), AllocError>
    ensures { OnOk result (layout.new
        ≡ layout.old ++ window_nodes row.now) }
{
    layout.put(&[Node::Markup(plan_name(row.fixed))])?;
    layout.put_if(
        row.trigger > 0,
        &[
            Node::Markup(", triggered by "),
            Node::Number(u64::from(row.trigger)),
        ],
    )?;
    layout.put(&[Node::Markup("</td><td class=\"cell\">")])?;
    lay_out_time(layout, row.start)?;
    layout.put(&[Node::Markup(" to ")])?;
    lay_out_time(layout, row.end)?;
    lay_out_duration_if(layout, !row.fixed, row.duration)
}

fn lay_out_ago(layout: &mut Layout, moment: u32, begin: u32) -> Result<(), AllocError>
    ensures { OnOk result (layout.new ≡ layout.old ++ ago_nodes moment begin) }
{
    layout.put(&[Node::Markup("</td><td class=\"num cell\" data-name=\"began\">")])?;
    lay_out_span(layout, moment.saturating_sub(begin))?;
    layout.put(&[Node::Markup(" ago")])
}

#[tactic(auto, unfolding(crate::specs::ListsLayout::began_nodes))]
fn lay_out_begin(layout: &mut Layout, moment: u32, begin: Option<u32>) -> Result<(), AllocError>
    ensures { OnOk result (layout.new ≡ layout.old ++ began_nodes moment begin) }
{
    match begin {
        None => layout.put(&[
            Node::Markup("</td><td class=\"num cell\" data-name=\"began\">"),
            Node::Markup("not yet"),
        ]),
        Some(begin) => lay_out_ago(layout, moment, begin),
    }
}

fn lay_out_downtime(layout: &mut Layout, row: &DowntimeMarks) -> Result<(), AllocError>
    ensures { OnOk result (layout.new
        ≡ layout.old ++ (window_nodes row.now ++ began_nodes row.now.moment row.now.begin)) }
{
    lay_out_window(layout, row)?;
    lay_out_begin(layout, row.moment, row.begin)
}

#[tactic(auto, unfolding(crate::specs::ListsLayout::entry_marks_nodes))]
fn lay_out_marks(layout: &mut Layout, marks: &EntryMarks) -> Result<(), AllocError>
    ensures { OnOk result (layout.new ≡ layout.old ++ entry_marks_nodes marks.now) }
{
    match marks {
        EntryMarks::Comment(row) => lay_out_comment(layout, row),
        EntryMarks::Downtime(row) => lay_out_downtime(layout, row),
    }
}

fn lay_out_name(
    layout: &mut Layout,
    list: EntryList,
    index: usize,
    is_host: bool,
) -> Result<(), AllocError>
    ensures { OnOk result (layout.new ≡ layout.old ++ entry_name_nodes list index is_host) }
{
    layout.put(&[
        Node::Markup("<tr><td class=\"name\"><a href=\""),
        Node::Slot(Slot::Entry(list, index, EntryText::Link)),
        Node::Markup("\"><bdi>"),
        Node::Slot(Slot::Entry(list, index, EntryText::Host)),
    ])?;
    layout.put_if(
        !is_host,
        &[
            Node::Markup("</bdi> <span class=\"soft\">/</span> <bdi>"),
            Node::Slot(Slot::Entry(list, index, EntryText::Service)),
        ],
    )?;
    layout.put(&[Node::Markup("</bdi></a></td><td class=\"cell\">")])
}

#[tactic(auto, unfolding(crate::specs::ListsLayout::words_nodes))]
fn lay_out_words(layout: &mut Layout, list: EntryList, index: usize) -> Result<(), AllocError>
    ensures { OnOk result (layout.new ≡ layout.old ++ words_nodes list index) }
{
    layout.put(&[
        Node::Markup("</td><td class=\"cell\" data-name=\"by\">"),
        Node::Slot(Slot::Entry(list, index, EntryText::Author)),
        Node::Markup("</td><td class=\"out\">"),
        Node::Slot(Slot::Entry(list, index, EntryText::Words)),
        Node::Markup("</td><td class=\"cell soft\" data-name=\"id\">"),
    ])
}

fn lay_out_origin(
    layout: &mut Layout,
    list: EntryList,
    index: usize,
    gateway: usize,
    id: u32,
) -> Result<(), AllocError>
    ensures { OnOk result (layout.new ≡ layout.old ++ origin_nodes list index gateway id) }
{
    layout.put_if(gateway > 0, &[Node::Markup(", ")])?;
    layout.put(&[
        Node::Number(u64::from(id)),
        Node::Markup(" at <bdi>"),
        Node::Slot(Slot::Entry(list, index, EntryText::Gateway(gateway))),
        Node::Markup("</bdi>"),
    ])
}

fn lay_out_origins(
    layout: &mut Layout,
    list: EntryList,
    index: usize,
    ids: &[u32],
) -> Result<(), AllocError>
    ensures { OnOk result (layout.new
        ≡ layout.old ++ each_indexed (origin_nodes list index) ids.now) }
{
    for (gateway, id) in ids.iter().enumerate() {
        lay_out_origin(layout, list, index, gateway, *id)?;
    }
    Ok(())
}

fn lay_out_row(
    layout: &mut Layout,
    list: EntryList,
    index: usize,
    row: &EntryShape,
) -> Result<(), AllocError>
    ensures { OnOk result (layout.new
        ≡ layout.old ++ entry_nodes list index (entry_shape_view row.now)) }
{
    lay_out_name(layout, list, index, row.is_host)?;
    lay_out_marks(layout, &row.marks)?;
    lay_out_words(layout, list, index)?;
    lay_out_origins(layout, list, index, row.ids.as_slice())?;
    layout.put(&[Node::Markup("</td></tr>\n")])
}

fn lay_out_rows(layout: &mut Layout, list: EntryList, rows: &[EntryShape]) -> Result<(), AllocError>
    ensures { OnOk result (layout.new
        ≡ layout.old ++ each_indexed (entry_nodes list) (map entry_shape_view rows.now)) }
{
    for (index, row) in rows.iter().enumerate() {
        lay_out_row(layout, list, index, row)?;
    }
    Ok(())
}

#[tactic(auto, unfolding(crate::specs::ListsLayout::list_title))]
fn lay_out_list_title(layout: &mut Layout, list: EntryList) -> Result<(), AllocError>
    ensures { OnOk result (layout.new ≡ layout.old ++ list_title list) }
{
    match list {
        EntryList::Comments => { layout.put(&[Node::Markup("<table><caption><h2>Comments</h2>")]) }
        EntryList::Downtimes => { layout.put(&[Node::Markup("<table><caption><h2>Downtime</h2>")]) }
    }
}

#[tactic(auto, unfolding(crate::specs::ListsLayout::extent_nodes))]
fn lay_out_extent(layout: &mut Layout, all: Option<usize>, shown: usize) -> Result<(), AllocError>
    ensures { OnOk result (layout.new ≡ layout.old ++ extent_nodes all shown) }
{
    match all {
        None => layout.put(&[Node::Markup("of the objects above")]),
        Some(all) => layout.put(&[
            Node::Number(shown as u64),
            Node::Markup(" of "),
            Node::Number(all as u64),
            Node::Markup(" shown"),
        ]),
    }
}

#[tactic(auto, unfolding(crate::specs::ListsLayout::list_columns))]
fn lay_out_list_columns(layout: &mut Layout, list: EntryList) -> Result<(), AllocError>
    ensures { OnOk result (layout.new ≡ layout.old ++ list_columns list) }
{
    match list {
        EntryList::Comments => layout.put(&[
            Node::Markup("</caption><thead><tr><th scope=\"col\">Object</th>"),
            Node::Markup("<th scope=\"col\">Source</th><th scope=\"col\">Time</th>"),
        ]),
        EntryList::Downtimes => layout.put(&[
            Node::Markup("</caption><thead><tr><th scope=\"col\">Object</th>"),
            Node::Markup(
                "<th scope=\"col\">Kind</th><th scope=\"col\">Window</th><th scope=\"col\">Began</th>",
            ),
        ]),
    }
}

/// Appends a list of so many entries in all, or of those of the objects above.
pub fn lay_out_entries_table(
    layout: &mut Layout,
    list: EntryList,
    all: Option<usize>,
    rows: &[EntryShape],
) -> Result<(), AllocError>
    ensures { OnOk result (layout.new
        ≡ layout.old ++ entries_table list all (map entry_shape_view rows.now)) }
{
    lay_out_list_title(layout, list)?;
    lay_out_extent(layout, all, rows.len())?;
    lay_out_list_columns(layout, list)?;
    layout.put(&[
        Node::Markup("<th scope=\"col\">Author</th><th scope=\"col\">Text</th>"),
        Node::Markup("<th scope=\"col\">Id</th></tr></thead><tbody>\n"),
    ])?;
    lay_out_rows(layout, list, rows)?;
    layout.put(&[Node::Markup("</tbody></table>\n")])
}

/// Appends the entries of the objects above.
#[tactic(auto, unfolding(crate::specs::ListsLayout::entries_nodes))]
pub fn lay_out_entries(
    layout: &mut Layout,
    list: EntryList,
    rows: &[EntryShape],
) -> Result<(), AllocError>
    ensures { OnOk result (layout.new
        ≡ layout.old ++ entries_nodes list (map entry_shape_view rows.now)) }
{
    if rows.is_empty() {
        Ok(())
    } else {
        lay_out_entries_table(layout, list, None, rows)
    }
}
