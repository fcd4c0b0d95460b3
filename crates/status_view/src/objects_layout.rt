//! The rows of objects.

ghost use Rattle.std.specs.Prelude.{◌≡◌, ◌++◌, ◌<◌, nat_lt, length, map, OnOk, Some};
ghost use Rattle.std.specs.List.{flat_map, range_with_len};
ghost use Rattle.status_view.specs.Layout.{each_indexed};
ghost use Rattle.status_view.specs.Shapes.{gateway_shape_view, shape_view};
ghost use Rattle.status_view.specs.ObjectsLayout.{object_name_nodes, acknowledgement_nodes, reason_nodes, marks_nodes, ago_nodes, over_nodes, since_nodes, age_nodes, output_nodes, object_nodes, same_sort, direction, column_nodes, objects_table, number_nodes, numbers_nodes, pages_nodes, to_marks_nodes, objects_nodes};

use crate::layout::{EntryList, EntryText, Layout, Node, ObjectText, Slot};
use crate::shape::{GatewayShape, ObjectShape, PageShape};
use crate::times::{lay_out_moment, lay_out_span};
use status_memory::Since;
use status_merge::{Choice, Sort, choice_name};
use status_reading::{ShownAcknowledgement, state_name};
use std::alloc::AllocError;

fn lay_out_name(layout: &mut Layout, index: usize, is_host: bool) -> Result<(), AllocError>
    ensures { OnOk result (layout.new ≡ layout.old ++ object_name_nodes index is_host) }
{
    layout.put(&[
        Node::Markup("<td class=\"name\"><a href=\""),
        Node::Slot(Slot::Object(index, ObjectText::Link)),
        Node::Markup("\"><bdi>"),
        Node::Slot(Slot::Object(index, ObjectText::Host)),
    ])?;
    layout.put_if(
        !is_host,
        &[
            Node::Markup("</bdi> <span class=\"soft\">/</span> <bdi>"),
            Node::Slot(Slot::Object(index, ObjectText::Service)),
        ],
    )?;
    layout.put(&[Node::Markup("</bdi></a></td>")])
}

#[tactic(auto, unfolding(crate::specs::ObjectsLayout::acknowledgement_nodes))]
fn lay_out_acknowledgement(
    layout: &mut Layout,
    acknowledgement: ShownAcknowledgement,
) -> Result<(), AllocError>
    ensures { OnOk result (layout.new ≡ layout.old ++ acknowledgement_nodes acknowledgement) }
{
    match acknowledgement {
        ShownAcknowledgement::Missing => Ok(()),
        ShownAcknowledgement::Normal => {
            layout.put(&[Node::Markup("<span class=\"badge\">acknowledged</span> ")])
        }
        ShownAcknowledgement::Sticky => layout.put(&[Node::Markup(
            "<span class=\"badge\">acknowledged, sticky</span> ",
        )]),
    }
}

#[tactic(auto, unfolding(crate::specs::ObjectsLayout::reason_nodes))]
fn lay_out_reason(layout: &mut Layout, reason: Option<usize>) -> Result<(), AllocError>
    ensures { OnOk result (layout.new ≡ layout.old ++ reason_nodes reason) }
{
    match reason {
        None => Ok(()),
        Some(index) => layout.put(&[
            Node::Markup("<span class=\"why\">by <bdi>"),
            Node::Slot(Slot::Entry(EntryList::Comments, index, EntryText::Author)),
            Node::Markup("</bdi>: "),
            Node::Slot(Slot::Entry(EntryList::Comments, index, EntryText::Words)),
            Node::Markup("</span> "),
        ]),
    }
}

fn lay_out_marks(layout: &mut Layout, row: &ObjectShape) -> Result<(), AllocError>
    ensures { OnOk result (layout.new ≡ layout.old ++ marks_nodes row.now) }
{
    layout.put(&[Node::Markup("<td class=\"cell\">")])?;
    layout.put_if(
        row.stale,
        &[Node::Markup("<span class=\"badge stale\">stale</span> ")],
    )?;
    lay_out_acknowledgement(layout, row.acknowledgement)?;
    lay_out_reason(layout, row.reason)?;
    layout.put_if(
        row.depth > 0,
        &[
            Node::Markup("<span class=\"badge\">downtime "),
            Node::Number(u64::from(row.depth)),
            Node::Markup("</span> "),
        ],
    )?;
    layout.put_if(
        row.host_is_out,
        &[Node::Markup("<span class=\"badge\">host out</span>")],
    )?;
    layout.put(&[Node::Markup("</td>")])
}

fn lay_out_ago(
    layout: &mut Layout,
    begin: &'static str,
    moment: u32,
    past: u32,
) -> Result<(), AllocError>
    ensures { OnOk result (layout.new ≡ layout.old ++ ago_nodes begin.now moment past) }
{
    layout.put(&[Node::Markup(begin)])?;
    lay_out_moment(layout, past)?;
    layout.put(&[Node::Markup("\">")])?;
    lay_out_span(layout, moment.saturating_sub(past))?;
    layout.put(&[Node::Markup(" ago</td>")])
}

fn lay_out_over(
    layout: &mut Layout,
    begin: &'static str,
    moment: u32,
    past: u32,
) -> Result<(), AllocError>
    ensures { OnOk result (layout.new ≡ layout.old ++ over_nodes begin.now moment past) }
{
    layout.put(&[Node::Markup(begin)])?;
    lay_out_moment(layout, past)?;
    layout.put(&[Node::Markup("\">over ")])?;
    lay_out_span(layout, moment.saturating_sub(past))?;
    layout.put(&[Node::Markup("</td>")])
}

#[tactic(auto, unfolding(crate::specs::ObjectsLayout::since_nodes))]
fn lay_out_since(layout: &mut Layout, moment: u32, since: Since) -> Result<(), AllocError>
    ensures { OnOk result (layout.new ≡ layout.old ++ since_nodes moment since) }
{
    let begin = "<td class=\"num cell\" data-name=\"since\" title=\"";
    if since.at_least {
        lay_out_over(layout, begin, moment, since.moment)
    } else {
        lay_out_ago(layout, begin, moment, since.moment)
    }
}

#[tactic(auto, unfolding(crate::specs::ObjectsLayout::age_nodes))]
fn lay_out_age(layout: &mut Layout, moment: u32, last: Option<u32>) -> Result<(), AllocError>
    ensures { OnOk result (layout.new ≡ layout.old ++ age_nodes moment last) }
{
    match last {
        None => layout.put(&[Node::Markup("<td class=\"num cell soft\">never</td>")]),
        Some(last) => lay_out_ago(layout, "<td class=\"num cell\" title=\"", moment, last),
    }
}

#[tactic(auto, unfolding(crate::specs::ObjectsLayout::output_nodes))]
fn lay_out_output(layout: &mut Layout, index: usize) -> Result<(), AllocError>
    ensures { OnOk result (layout.new ≡ layout.old ++ output_nodes index) }
{
    layout.put(&[
        Node::Markup("<td class=\"out\">"),
        Node::Slot(Slot::Object(index, ObjectText::Output)),
        Node::Markup(" <span class=\"soft perf\">"),
        Node::Slot(Slot::Object(index, ObjectText::Performance)),
        Node::Markup("</span>"),
    ])
}

fn lay_out_object(
    layout: &mut Layout,
    row: &ObjectShape,
    index: usize,
    several: bool,
) -> Result<(), AllocError>
    ensures { OnOk result (layout.new ≡ layout.old ++ object_nodes several index row.now) }
{
    layout.put(&[
        Node::Markup("<tr class=\""),
        Node::Markup(choice_name(Choice::In(row.state))),
    ])?;
    layout.put_if(!row.is_urgent, &[Node::Markup(" handled")])?;
    layout.put(&[
        Node::Markup("\"><td class=\"cell\"><span class=\"badge state\">"),
        Node::Markup(state_name(row.state)),
        Node::Markup("</span></td>"),
    ])?;
    lay_out_name(layout, index, row.is_host)?;
    lay_out_marks(layout, row)?;
    lay_out_since(layout, row.moment, row.since)?;
    lay_out_age(layout, row.moment, row.last)?;
    lay_out_output(layout, index)?;
    layout.put_if(
        several,
        &[
            Node::Markup("</td><td class=\"cell soft\" data-name=\"at\">"),
            Node::Slot(Slot::Object(index, ObjectText::Gateway)),
        ],
    )?;
    layout.put(&[Node::Markup("</td></tr>\n")])
}

fn lay_out_rows(layout: &mut Layout, rows: &[ObjectShape], several: bool) -> Result<(), AllocError>
    ensures { OnOk result (layout.new
        ≡ layout.old ++ each_indexed (object_nodes several) rows.now) }
{
    for (index, row) in rows.iter().enumerate() {
        lay_out_object(layout, row, index, several)?;
    }
    Ok(())
}

#[tactic(auto, unfolding(crate::specs::ObjectsLayout::same_sort))]
fn same_sort(one: Sort, other: Sort) -> bool
    ensures { result ≡ same_sort one other }
{
    one == other
}

fn direction(sort: Sort) -> &'static str
    ensures { result.now ≡ direction sort }
{
    match sort {
        Sort::Worst | Sort::Since => "descending",
        Sort::Host | Sort::Last => "ascending",
    }
}

fn lay_out_own_column(
    layout: &mut Layout,
    shown: Sort,
    sort: Sort,
    name: &'static str,
) -> Result<(), AllocError>
    ensures { OnOk result (layout.new ≡ layout.old ++ column_nodes (Some shown) sort name.now) }
{
    if same_sort(shown, sort) {
        layout.put(&[
            Node::Markup("<th scope=\"col\" aria-sort=\""),
            Node::Markup(direction(sort)),
            Node::Markup("\">"),
            Node::Markup(name),
            Node::Markup("</th>"),
        ])
    } else {
        layout.put(&[
            Node::Markup("<th scope=\"col\"><a href=\"/?"),
            Node::Slot(Slot::Sorted(sort)),
            Node::Markup("\">"),
            Node::Markup(name),
            Node::Markup("</a></th>"),
        ])
    }
}

#[tactic(auto, unfolding(crate::specs::ObjectsLayout::column_nodes))]
fn lay_out_column(
    layout: &mut Layout,
    shown: Option<Sort>,
    sort: Sort,
    name: &'static str,
) -> Result<(), AllocError>
    ensures { OnOk result (layout.new ≡ layout.old ++ column_nodes shown sort name.now) }
{
    match shown {
        Some(shown) => lay_out_own_column(layout, shown, sort, name),
        None => layout.put(&[
            Node::Markup("<th scope=\"col\">"),
            Node::Markup(name),
            Node::Markup("</th>"),
        ]),
    }
}

/// Appends the rest of a table of objects after its caption; of the list, with its order.
pub fn lay_out_table(
    layout: &mut Layout,
    rows: &[ObjectShape],
    sort: Option<Sort>,
    several: bool,
) -> Result<(), AllocError>
    ensures { OnOk result (layout.new ≡ layout.old ++ objects_table sort several rows.now) }
{
    layout.put(&[Node::Markup("<thead><tr>")])?;
    lay_out_column(layout, sort, Sort::Worst, "State")?;
    lay_out_column(layout, sort, Sort::Host, "Object")?;
    layout.put(&[Node::Markup("<th scope=\"col\">Marks</th>")])?;
    lay_out_column(layout, sort, Sort::Since, "Since")?;
    lay_out_column(layout, sort, Sort::Last, "Last result")?;
    layout.put(&[Node::Markup("<th scope=\"col\">Output</th>")])?;
    layout.put_if(several, &[Node::Markup("<th scope=\"col\">Gateway</th>")])?;
    layout.put(&[Node::Markup("</tr></thead><tbody>\n")])?;
    lay_out_rows(layout, rows, several)?;
    layout.put(&[Node::Markup("</tbody></table>\n")])
}

#[tactic(auto, unfolding(crate::specs::ObjectsLayout::number_nodes))]
fn lay_out_number(
    layout: &mut Layout,
    path: &'static str,
    shown: u32,
    page: usize,
) -> Result<(), AllocError>
    ensures { OnOk result (layout.new ≡ layout.old ++ number_nodes path.now shown page) }
{
    if page == shown as usize {
        layout.put(&[
            Node::Markup(" <b aria-current=\"page\">"),
            Node::Number(page as u64),
            Node::Markup("</b>"),
        ])
    } else {
        layout.put(&[
            Node::Markup(" <a href=\""),
            Node::Markup(path),
            Node::Markup("?"),
            Node::Slot(Slot::Query(page)),
            Node::Markup("\">"),
            Node::Number(page as u64),
            Node::Markup("</a>"),
        ])
    }
}

fn lay_out_numbers(
    layout: &mut Layout,
    path: &'static str,
    shown: u32,
    count: usize,
) -> Result<(), AllocError>
    ensures { OnOk result (layout.new
        ≡ layout.old ++ flat_map (number_nodes path.now shown) (range_with_len 1 count)) }
{
    for index in 0..count {
        lay_out_number(layout, path, shown, index + 1)?;
    }
    Ok(())
}

fn lay_out_all_numbers(
    layout: &mut Layout,
    path: &'static str,
    shown: u32,
    count: usize,
) -> Result<(), AllocError>
    requires { 500 < count }
    ensures { OnOk result (layout.new ≡ layout.old ++ numbers_nodes path.now shown count) }
{
    layout.put(&[
        Node::Markup("<nav class=\"pages\" aria-label=\"Rows\">"),
        Node::Number(count as u64),
        Node::Markup(" selected, page"),
    ])?;
    lay_out_numbers(layout, path, shown, (count - 1) / 500 + 1)?;
    layout.put(&[Node::Markup("</nav>\n")])
}

/// Appends the links to the pages of a list of so many rows, of which this one is shown.
#[tactic(auto, unfolding(crate::specs::ObjectsLayout::pages_nodes))]
pub fn lay_out_pages(
    layout: &mut Layout,
    path: &'static str,
    shown: u32,
    count: usize,
) -> Result<(), AllocError>
    ensures { OnOk result (layout.new ≡ layout.old ++ pages_nodes path.now shown count) }
{
    if count > 500 {
        lay_out_all_numbers(layout, path, shown, count)
    } else {
        Ok(())
    }
}

#[tactic(auto, unfolding(crate::specs::ObjectsLayout::to_marks_nodes))]
fn lay_out_to_marks(layout: &mut Layout, marks: bool, shown: u32) -> Result<(), AllocError>
    ensures { OnOk result (layout.new ≡ layout.old ++ to_marks_nodes marks shown) }
{
    layout.put_if(
        marks,
        &[
            Node::Markup(" <a href=\"/marks?"),
            Node::Slot(Slot::Query(shown as usize)),
            Node::Markup("\">Mark rows</a>"),
        ],
    )
}

fn are_several(gateways: &[GatewayShape]) -> bool
    ensures { result ≡ nat_lt 1 (length (map gateway_shape_view gateways.now)) }
{
    gateways.len() > 1
}

/// Appends the list of objects.
pub fn lay_out_objects(layout: &mut Layout, shape: &PageShape) -> Result<(), AllocError>
    ensures { OnOk result (layout.new ≡ layout.old ++ objects_nodes (shape_view shape.now)) }
{
    let rows = shape.objects.as_slice();
    let several = are_several(shape.gateways.as_slice());
    layout.put(&[
        Node::Markup("<table><caption><h2>Hosts and services</h2>"),
        Node::Number(rows.len() as u64),
        Node::Markup(" of "),
        Node::Number(shape.all as u64),
        Node::Markup(" shown"),
    ])?;
    lay_out_to_marks(layout, shape.marks, shape.page)?;
    layout.put(&[Node::Markup("</caption>\n")])?;
    lay_out_table(layout, rows, Some(shape.sort), several)?;
    lay_out_pages(layout, "/", shape.page, shape.selected)
}
