//! What a gateway shows of the object: its state, its marks, the age of its last result and its output.

ghost use Rattle.std.specs.Prelude.{◌≡◌, ◌++◌, OnOk};
ghost use Rattle.status_reading.specs.Rows.{object_view};
ghost use Rattle.status_view.specs.Filling.{html_bytes};
ghost use Rattle.desk_view.specs.Page.{stale_mark, acknowledgement_mark, named_parts, depth_parts, ago_parts, last_parts, age_parts, output_parts, state_parts};

use crate::parts::{Part, put};
use html_text::Html;
use status_reading::{ShownAcknowledgement, ShownObject, state_name};
use std::alloc::AllocError;

pub(crate) fn stale_mark(stale: bool) -> &'static str
    ensures { result.now ≡ stale_mark stale }
{
    if stale {
        " <span class=\"badge stale\">stale</span>"
    } else {
        ""
    }
}

pub(crate) fn acknowledgement_mark(acknowledgement: ShownAcknowledgement) -> &'static str
    ensures { result.now ≡ acknowledgement_mark acknowledgement }
{
    match acknowledgement {
        ShownAcknowledgement::Missing => "",
        ShownAcknowledgement::Normal => " <span class=\"badge\">acknowledged</span>",
        ShownAcknowledgement::Sticky => " <span class=\"badge\">acknowledged, sticky</span>",
    }
}

#[tactic(auto, unfolding(crate::specs::Page::named_parts))]
fn put_named<'x>(html: &mut Html, gateway: &'x str, row: &ShownObject<'x>) -> Result<(), AllocError>
    ensures { OnOk result (html.new ≡ html.old
        ++ html_bytes (named_parts gateway.now (object_view row.now))) }
{
    put(
        html,
        &[
            Part::Markup("<p class=\"state\">"),
            Part::Text(gateway.as_bytes()),
            Part::Markup(": "),
            Part::Markup(state_name(row.state)),
            Part::Markup(stale_mark(row.stale)),
            Part::Markup(acknowledgement_mark(row.acknowledgement)),
        ],
    )
}

#[tactic(auto, unfolding(crate::specs::Page::depth_parts))]
fn put_depth(html: &mut Html, depth: u32) -> Result<(), AllocError>
    ensures { OnOk result (html.new ≡ html.old ++ html_bytes (depth_parts depth)) }
{
    if depth > 0 {
        put(
            html,
            &[
                Part::Markup(" <span class=\"badge\">downtime "),
                Part::Number(u64::from(depth)),
                Part::Markup("</span>"),
            ],
        )
    } else {
        Ok(())
    }
}

#[tactic(auto, unfolding(crate::specs::Page::ago_parts))]
fn put_ago(html: &mut Html, seconds: u32) -> Result<(), AllocError>
    ensures { OnOk result (html.new ≡ html.old ++ html_bytes (ago_parts seconds)) }
{
    let seconds = u64::from(seconds);
    if seconds < 120 {
        put(html, &[Part::Number(seconds), Part::Markup(" s ago")])
    } else if seconds < 7_200 {
        put(
            html,
            &[Part::Number(seconds / 60), Part::Markup(" min ago")],
        )
    } else if seconds < 172_800 {
        put(
            html,
            &[Part::Number(seconds / 3_600), Part::Markup(" h ago")],
        )
    } else {
        put(
            html,
            &[Part::Number(seconds / 86_400), Part::Markup(" d ago")],
        )
    }
}

fn put_last(html: &mut Html, seconds: u32) -> Result<(), AllocError>
    ensures { OnOk result (html.new ≡ html.old ++ html_bytes (last_parts seconds)) }
{
    put(html, &[Part::Markup(", last result ")])?;
    put_ago(html, seconds)
}

#[tactic(auto, unfolding(crate::specs::Page::age_parts))]
fn put_age(html: &mut Html, moment: u32, last: Option<u32>) -> Result<(), AllocError>
    ensures { OnOk result (html.new ≡ html.old ++ html_bytes (age_parts moment last)) }
{
    match last {
        None => put(html, &[Part::Markup(", no result yet")]),
        Some(last) => put_last(html, moment.saturating_sub(last)),
    }
}

#[tactic(auto, unfolding(crate::specs::Page::output_parts))]
fn put_output(html: &mut Html, output: &[u8]) -> Result<(), AllocError>
    ensures { OnOk result (html.new ≡ html.old ++ html_bytes (output_parts output.now)) }
{
    put(
        html,
        &[
            Part::Markup("</p><pre>"),
            Part::Text(output),
            Part::Markup("</pre>\n"),
        ],
    )
}

/// Appends what a gateway, whose page is of this moment in seconds since 1970, shows of the object.
/// The only error is out of memory.
pub(crate) fn put_state<'x>(
    html: &mut Html,
    gateway: &'x str,
    moment: u32,
    row: &ShownObject<'x>,
) -> Result<(), AllocError>
    ensures { OnOk result (html.new ≡ html.old
        ++ html_bytes (state_parts gateway.now moment (object_view row.now))) }
{
    put_named(html, gateway, row)?;
    put_depth(html, row.depth)?;
    put_age(html, moment, row.last)?;
    put_output(html, row.output)
}
