//! The page of many objects, with one form for those that are marked.

ghost use Rattle.std.specs.Prelude.{◌≡◌, ◌++◌, IfOk, OnOk, length, map, take};
ghost use Rattle.std.specs.List.{flat_map};
ghost use Rattle.status_reading.specs.Rows.{object_view};
ghost use Rattle.status_view.specs.Filling.{html_bytes};
ghost use Rattle.desk_view.specs.Marks.{slash_before, downtime_mark, box_parts, shown_parts, link_parts, mark_row, rows_parts, top_parts, form_parts, table_parts, marks_parts};

use crate::fields::MARKED;
use crate::page::{Note, again_part, put_notes};
use crate::parts::{Part, put};
use crate::states::{acknowledgement_mark, stale_mark};
use html_text::Html;
use status_merge::{Choice, choice_name};
use status_reading::{ShownObject, state_name};
use status_view::{object_link, performance_of, words_of};
use std::alloc::{AllocError, Global};

// How many objects are shown at most.
const MOST_ROWS: usize = 256;

/// What the page of many objects shows.
#[derive(Clone, Copy)]
pub struct MarksPage<'a, 't> {
    pub title: &'a str,
    /// The user, as the proxy names them.
    pub user: &'a [u8],
    /// The token of the user.
    pub token: &'a str,
    /// The number of the page, which no other page has.
    pub page: u64,
    /// The query by which the objects are chosen, as in a URL.
    pub query: &'a [u8],
    /// Whether a browser loads it again, after two seconds.
    pub again: bool,
    pub notes: &'a [Note<'a>],
    /// The objects that are chosen. The first 256 are shown.
    pub rows: &'a [ShownObject<'t>],
}

fn slash_before(service: &[u8]) -> &'static str
    ensures { result.now ≡ slash_before service.now }
{
    if service.is_empty() {
        ""
    } else {
        " <span class=\"soft\">/</span> "
    }
}

fn downtime_mark(depth: u32) -> &'static str
    ensures { result.now ≡ downtime_mark depth }
{
    if depth == 0 {
        ""
    } else {
        " <span class=\"badge\">in downtime</span>"
    }
}

#[tactic(auto, unfolding(crate::specs::Marks::box_parts))]
fn put_box<'x>(html: &mut Html, index: usize, row: &ShownObject<'x>) -> Result<(), AllocError>
    ensures { OnOk result (html.new ≡ html.old ++ html_bytes (box_parts index (object_view row.now))) }
{
    put(
        html,
        &[
            Part::Markup("<tr class=\""),
            Part::Markup(choice_name(Choice::In(row.state))),
            Part::Markup("\"><td class=\"name\"><label><input type=\"checkbox\" name=\"mark."),
            Part::Number(index as u64),
            Part::Markup("\" value=\""),
            Part::Text(row.host),
            Part::Markup(";"),
            Part::Text(row.service),
            Part::Markup("\"> "),
            Part::Text(row.host),
            Part::Markup(slash_before(row.service)),
            Part::Text(row.service),
        ],
    )
}

#[tactic(auto, unfolding(crate::specs::Marks::shown_parts))]
fn put_shown<'x>(html: &mut Html, row: &ShownObject<'x>) -> Result<(), AllocError>
    ensures { OnOk result (html.new ≡ html.old ++ html_bytes (shown_parts (object_view row.now))) }
{
    put(
        html,
        &[
            Part::Markup("</label></td><td class=\"cell\"><span class=\"badge state\">"),
            Part::Markup(state_name(row.state)),
            Part::Markup("</span>"),
            Part::Markup(stale_mark(row.stale)),
            Part::Markup(acknowledgement_mark(row.acknowledgement)),
            Part::Markup(downtime_mark(row.depth)),
            Part::Markup("</td><td class=\"out\">"),
            Part::Text(words_of(row.output)),
            Part::Markup(" <span class=\"soft perf\">"),
            Part::Text(performance_of(row.output)),
            Part::Markup("</span>"),
        ],
    )
}

#[tactic(auto, unfolding(crate::specs::Marks::link_parts))]
fn put_link(html: &mut Html, link: &[u8]) -> Result<(), AllocError>
    ensures { OnOk result (html.new ≡ html.old ++ html_bytes (link_parts link.now)) }
{
    put(
        html,
        &[
            Part::Markup("</td><td class=\"num cell\"><a href=\""),
            Part::Text(link),
            Part::Markup("\">open</a></td></tr>\n"),
        ],
    )
}

fn put_row(
    html: &mut Html,
    alloc: Global,
    index: usize,
    row: &ShownObject<'_>,
) -> Result<(), AllocError>
    ensures { OnOk result (html.new ≡ html.old ++ html_bytes (mark_row (index, object_view row.now))) }
{
    let link = object_link(alloc, row.host, row.service)?;
    put_box(html, index, row)?;
    put_shown(html, row)?;
    put_link(html, link.as_bytes())
}

#[tactic(auto, using(crate::proofs::PutSteps::bytes_more))]
fn put_rows(html: &mut Html, alloc: Global, rows: &[ShownObject<'_>]) -> Result<(), AllocError>
    ensures { OnOk result (html.new ≡ html.old ++ html_bytes (rows_parts (map object_view rows.now))) }
{
    for (index, row) in rows.iter().enumerate() {
        put_row(html, alloc, index, row)?;
    }
    Ok(())
}

fn first_rows<'a, 't>(rows: &'a [ShownObject<'t>]) -> &'a [ShownObject<'t>]
    ensures { result.now ≡ take 256 rows.entry.now }
{
    if rows.len() > MOST_ROWS {
        &rows[..MOST_ROWS]
    } else {
        rows
    }
}

#[tactic(auto, unfolding(crate::specs::Marks::top_parts))]
fn put_top(html: &mut Html, page: MarksPage<'_, '_>) -> Result<(), AllocError>
    ensures { OnOk result (html.new ≡ html.old ++ html_bytes (top_parts page.entry)) }
{
    put(
        html,
        &[
            Part::Markup(
                "<!doctype html><html lang=\"en\"><head><meta charset=\"utf-8\"><title>Several objects</title>",
            ),
            Part::Markup("<meta name=\"viewport\" content=\"width=device-width,initial-scale=1\">"),
            Part::Markup(
                "<meta name=\"referrer\" content=\"same-origin\"><link rel=\"stylesheet\" href=\"/style.css\">",
            ),
            Part::Markup(again_part(page.again)),
            Part::Markup("</head><body><main><p><a href=\"/?"),
            Part::Text(page.query),
            Part::Markup("\">"),
            Part::Text(page.title.as_bytes()),
            Part::Markup("</a>, as "),
            Part::Text(page.user),
            Part::Markup(
                "</p><h1>Several objects</h1><nav><a href=\"/marks?state=unhandled\">unhandled</a> ",
            ),
            Part::Markup(
                "<a href=\"/marks?state=problems\">problems</a> <a href=\"/marks\">all</a></nav>\n",
            ),
        ],
    )
}

#[tactic(auto, unfolding(crate::specs::Marks::form_parts))]
fn put_form(html: &mut Html, page: MarksPage<'_, '_>) -> Result<(), AllocError>
    ensures { OnOk result (html.new ≡ html.old ++ html_bytes (form_parts page.entry)) }
{
    put(
        html,
        &[
            Part::Markup("<form method=\"post\" action=\"/commands?"),
            Part::Text(page.query),
            Part::Markup("\"><input type=\"hidden\" name=\"token\" value=\""),
            Part::Text(page.token.as_bytes()),
            Part::Markup("\"><input type=\"hidden\" name=\"page\" value=\""),
            Part::Number(page.page),
            Part::Markup("\">"),
            Part::Markup(MARKED),
        ],
    )
}

#[tactic(auto, unfolding(crate::specs::Marks::table_parts))]
fn put_table(html: &mut Html, shown: usize, all: usize) -> Result<(), AllocError>
    ensures { OnOk result (html.new ≡ html.old ++ html_bytes (table_parts shown all)) }
{
    put(
        html,
        &[
            Part::Markup("<table><caption>"),
            Part::Number(shown as u64),
            Part::Markup(" of "),
            Part::Number(all as u64),
            Part::Markup(
                " objects, the worst first</caption><thead><tr><th scope=\"col\">Object</th>",
            ),
            Part::Markup("<th scope=\"col\">State</th><th scope=\"col\">Output</th>"),
            Part::Markup("<th scope=\"col\">Page</th></tr></thead><tbody>\n"),
        ],
    )
}

/// The page of many objects, with its form. The only error is out of memory.
pub fn marks_page(alloc: Global, page: MarksPage<'_, '_>) -> Result<Html, AllocError>
    ensures { IfOk result (λ html. html ≡ html_bytes (marks_parts page.entry)) }
{
    let mut html = Html::new(alloc);
    let shown = first_rows(page.rows);
    put_top(&mut html, page)?;
    put_notes(&mut html, page.notes)?;
    put_form(&mut html, page)?;
    put_table(&mut html, shown.len(), page.rows.len())?;
    put_rows(&mut html, alloc, shown)?;
    put(
        &mut html,
        &[Part::Markup("</tbody></table></form></main></body></html>\n")],
    )?;
    Ok(html)
}
