//! Changes of states: the page of them, and their feed.

ghost use Rattle.std.specs.Prelude.{◌≡◌, ◌++◌, map, OnOk, IfOk};
ghost use Rattle.status_view.specs.Layout.{each_indexed};
ghost use Rattle.status_view.specs.ChangesLayout.{change_shape, from_name, change_nodes, changes_table, changes_nodes, feed_id_nodes, feed_title_nodes, feed_entry_nodes, updated_at, feed_nodes};
ghost use Rattle.status_view.specs.Shapes.{gateway_shape_view, gateway_shape};
ghost use Rattle.status_view.specs.Filling.{filled, html_bytes};

use crate::filling::fill;
use crate::head_layout::{lay_out_alarms, lay_out_document, lay_out_title};
use crate::html::gateway_shapes;
use crate::layout::{ChangeText, Layout, Node, Slot};
use crate::shape::GatewayShape;
use crate::times::{lay_out_instant, lay_out_time};
use crate::view::View;
use html_text::Html;
use status_memory::GatewayChange;
use status_merge::{Choice, choice_name};
use status_reading::{State, state_name};
use std::alloc::{AllocError, Global};

/// What decides the markup of a change: no text is in it.
#[derive(Clone, Copy)]
pub struct ChangeShape {
    pub is_host: bool,
    pub moment: u32,
    /// None where the object is new.
    pub from: Option<State>,
    pub to: State,
}

fn change_shape(shown: &GatewayChange<'_>) -> ChangeShape
    ensures { result ≡ change_shape shown.now }
{
    let change = shown.change;
    ChangeShape {
        is_host: change.service.is_empty(),
        moment: change.moment,
        from: change.from,
        to: change.to,
    }
}

/// What decides the markup of changes. The only error is out of memory.
pub fn change_shapes(
    alloc: Global,
    changes: &[GatewayChange<'_>],
) -> Result<Vec<ChangeShape>, AllocError>
    ensures { IfOk result (λ shapes. shapes.items ≡ map change_shape changes.now) }
{
    let mut shapes = Vec::with_capacity(alloc, changes.len())?;
    for shown in changes {
        shapes.push(change_shape(shown))?;
    }
    Ok(shapes)
}

/// The name of a state before a change: `-` of an object that is new.
fn from_name(from: Option<State>) -> &'static str
    ensures { result.now ≡ from_name from }
{
    match from {
        Some(state) => state_name(state),
        None => "-",
    }
}

fn lay_out_change(layout: &mut Layout, row: &ChangeShape, index: usize) -> Result<(), AllocError>
    ensures { OnOk result (layout.new ≡ layout.old ++ change_nodes index row.now) }
{
    layout.put(&[
        Node::Markup("<tr class=\""),
        Node::Markup(choice_name(Choice::In(row.to))),
    ])?;
    layout.put(&[Node::Markup("\"><td class=\"num cell\">")])?;
    lay_out_time(layout, row.moment)?;
    layout.put(&[
        Node::Markup("</td><td class=\"name\"><a href=\""),
        Node::Slot(Slot::Change(index, ChangeText::Link)),
        Node::Markup("\"><bdi>"),
        Node::Slot(Slot::Change(index, ChangeText::Host)),
    ])?;
    layout.put_if(
        !row.is_host,
        &[
            Node::Markup("</bdi> <span class=\"soft\">/</span> <bdi>"),
            Node::Slot(Slot::Change(index, ChangeText::Service)),
        ],
    )?;
    layout.put(&[
        Node::Markup("</bdi></a></td><td class=\"cell\" data-name=\"from\">"),
        Node::Markup(from_name(row.from)),
        Node::Markup("</td><td class=\"cell\"><span class=\"badge state\">"),
        Node::Markup(state_name(row.to)),
        Node::Markup("</span></td><td class=\"cell soft\" data-name=\"at\">"),
        Node::Slot(Slot::Change(index, ChangeText::Gateway)),
        Node::Markup("</td></tr>\n"),
    ])
}

fn lay_out_changes(layout: &mut Layout, rows: &[ChangeShape]) -> Result<(), AllocError>
    ensures { OnOk result (layout.new ≡ layout.old ++ each_indexed change_nodes rows.now) }
{
    for (index, row) in rows.iter().enumerate() {
        lay_out_change(layout, row, index)?;
    }
    Ok(())
}

/// Appends a table of changes.
pub fn lay_out_changes_table(layout: &mut Layout, rows: &[ChangeShape]) -> Result<(), AllocError>
    ensures { OnOk result (layout.new ≡ layout.old ++ changes_table rows.now) }
{
    layout.put(&[
        Node::Markup("<table><caption><h2>Changes of states</h2>"),
        Node::Number(rows.len() as u64),
        Node::Markup(
            " shown, the newest first: of each gateway the last 1,000 since this program started</caption>\n",
        ),
        Node::Markup(
            "<thead><tr><th scope=\"col\">Time</th><th scope=\"col\">Object</th><th scope=\"col\">From</th>",
        ),
        Node::Markup(
            "<th scope=\"col\">To</th><th scope=\"col\">Gateway</th></tr></thead><tbody>\n",
        ),
    ])?;
    lay_out_changes(layout, rows)?;
    layout.put(&[Node::Markup("</tbody></table>\n")])
}

fn lay_out_page(
    layout: &mut Layout,
    refresh: u32,
    gateways: &[GatewayShape],
    rows: &[ChangeShape],
) -> Result<(), AllocError>
    ensures { OnOk result (layout.new ≡ layout.old
        ++ changes_nodes refresh (map gateway_shape_view gateways.now) rows.now) }
{
    lay_out_document(layout, refresh, 0)?;
    lay_out_title(layout, gateways)?;
    lay_out_alarms(layout, gateways)?;
    lay_out_changes_table(layout, rows)?;
    layout.put(&[
        Node::Markup("</main><footer><a href=\"/changes.json\">changes.json</a> &middot; "),
        Node::Markup("<a href=\"/changes.atom\">changes.atom</a></footer>\n</body></html>\n"),
    ])
}

/// The page of changes for a browser. The only error is out of memory.
pub fn changes_page(alloc: Global, view: &View<'_>) -> Result<Html, AllocError>
    ensures { let view = view.entry.now in IfOk result (λ html. html
        ≡ html_bytes (filled view (changes_nodes view.refresh
        (map gateway_shape view.gateways.now) (map change_shape view.changes.now)))) }
{
    let gateways = gateway_shapes(alloc, view.gateways)?;
    let rows = change_shapes(alloc, view.changes)?;
    let mut layout = Layout::new(alloc);
    lay_out_page(
        &mut layout,
        view.refresh,
        gateways.as_slice(),
        rows.as_slice(),
    )?;
    fill(alloc, &layout, view)
}

fn lay_out_feed_id(layout: &mut Layout, row: &ChangeShape, index: usize) -> Result<(), AllocError>
    ensures { OnOk result (layout.new ≡ layout.old ++ feed_id_nodes index row.now) }
{
    layout.put(&[
        Node::Markup("<entry><id>nscagate:change?gateway="),
        Node::Slot(Slot::Change(index, ChangeText::GatewayInLink)),
        Node::Markup("&amp;host="),
        Node::Slot(Slot::Change(index, ChangeText::HostInLink)),
        Node::Markup("&amp;service="),
        Node::Slot(Slot::Change(index, ChangeText::ServiceInLink)),
        Node::Markup("&amp;moment="),
        Node::Number(u64::from(row.moment)),
        Node::Markup("&amp;from="),
        Node::Markup(from_name(row.from)),
        Node::Markup("&amp;to="),
        Node::Markup(state_name(row.to)),
        Node::Markup("</id>"),
    ])
}

fn lay_out_feed_title(
    layout: &mut Layout,
    row: &ChangeShape,
    index: usize,
) -> Result<(), AllocError>
    ensures { OnOk result (layout.new ≡ layout.old ++ feed_title_nodes index row.now) }
{
    layout.put(&[
        Node::Markup("<title>"),
        Node::Slot(Slot::Change(index, ChangeText::Host)),
    ])?;
    layout.put_if(
        !row.is_host,
        &[
            Node::Markup(" / "),
            Node::Slot(Slot::Change(index, ChangeText::Service)),
        ],
    )?;
    layout.put(&[
        Node::Markup(": "),
        Node::Markup(from_name(row.from)),
        Node::Markup(" to "),
        Node::Markup(state_name(row.to)),
        Node::Markup(" at "),
        Node::Slot(Slot::Change(index, ChangeText::Gateway)),
        Node::Markup("</title>"),
    ])
}

fn lay_out_feed_entry(
    layout: &mut Layout,
    row: &ChangeShape,
    index: usize,
) -> Result<(), AllocError>
    ensures { OnOk result (layout.new ≡ layout.old ++ feed_entry_nodes index row.now) }
{
    lay_out_feed_id(layout, row, index)?;
    lay_out_feed_title(layout, row, index)?;
    layout.put(&[Node::Markup("<updated>")])?;
    lay_out_instant(layout, "T", row.moment)?;
    layout.put(&[
        Node::Markup("</updated><link href=\""),
        Node::Slot(Slot::Change(index, ChangeText::Link)),
        Node::Markup("\"/></entry>\n"),
    ])
}

fn lay_out_feed_entries(layout: &mut Layout, rows: &[ChangeShape]) -> Result<(), AllocError>
    ensures { OnOk result (layout.new ≡ layout.old ++ each_indexed feed_entry_nodes rows.now) }
{
    for (index, row) in rows.iter().enumerate() {
        lay_out_feed_entry(layout, row, index)?;
    }
    Ok(())
}

fn updated_at(clock: u32, rows: &[ChangeShape]) -> u32
    ensures { result ≡ updated_at clock rows.now }
{
    match rows.first() {
        Some(row) => row.moment,
        None => clock,
    }
}

fn lay_out_feed(layout: &mut Layout, clock: u32, rows: &[ChangeShape]) -> Result<(), AllocError>
    ensures { OnOk result (layout.new ≡ layout.old ++ feed_nodes clock rows.now) }
{
    layout.put(&[
        Node::Markup("<?xml version=\"1.0\" encoding=\"utf-8\"?>\n"),
        Node::Markup(
            "<feed xmlns=\"http://www.w3.org/2005/Atom\"><id>nscagate:changes</id><title>",
        ),
        Node::Slot(Slot::Title),
        Node::Markup("</title><updated>"),
    ])?;
    lay_out_instant(layout, "T", updated_at(clock, rows))?;
    layout.put(&[
        Node::Markup("</updated><author><name>statusweb</name></author>"),
        Node::Markup("<link rel=\"self\" href=\"/changes.atom\"/><link href=\"/changes\"/>\n"),
    ])?;
    lay_out_feed_entries(layout, rows)?;
    layout.put(&[Node::Markup("</feed>\n")])
}

/// The feed of changes, a document of Atom (RFC 4287). The only error is out of memory.
pub fn changes_feed(alloc: Global, view: &View<'_>) -> Result<Html, AllocError>
    ensures { let view = view.entry.now in IfOk result (λ html. html
        ≡ html_bytes (filled view
        (feed_nodes view.clock (map change_shape view.changes.now)))) }
{
    let rows = change_shapes(alloc, view.changes)?;
    let mut layout = Layout::new(alloc);
    lay_out_feed(&mut layout, view.clock, rows.as_slice())?;
    fill(alloc, &layout, view)
}
