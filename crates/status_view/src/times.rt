//! Spans and moments, as a reader wants them.

ghost use Rattle.std.specs.Prelude.{◌≡◌, ◌<◌, ◌++◌, OnOk};
ghost use Rattle.status_view.specs.Times.{span_nodes, two_digits, date_nodes, clock_nodes, instant_nodes, moment_nodes, time_nodes};

use crate::calendar::date_of;
use crate::layout::{Layout, Node};
use std::alloc::AllocError;

/// Appends a span by its greatest unit, as `5 min`.
#[tactic(auto, unfolding(crate::specs::Times::span_nodes))]
pub fn lay_out_span(layout: &mut Layout, seconds: u32) -> Result<(), AllocError>
    ensures { OnOk result (layout.new ≡ layout.old ++ span_nodes seconds) }
{
    let seconds = u64::from(seconds);
    if seconds < 120 {
        layout.put(&[Node::Number(seconds), Node::Markup(" s")])
    } else if seconds < 7_200 {
        layout.put(&[Node::Number(seconds / 60), Node::Markup(" min")])
    } else if seconds < 172_800 {
        layout.put(&[Node::Number(seconds / 3_600), Node::Markup(" h")])
    } else {
        layout.put(&[Node::Number(seconds / 86_400), Node::Markup(" d")])
    }
}

#[tactic(auto, unfolding(crate::specs::Times::two_digits))]
fn lay_out_two(layout: &mut Layout, number: u32) -> Result<(), AllocError>
    ensures { OnOk result (layout.new ≡ layout.old ++ two_digits number) }
{
    if number < 10 {
        layout.put(&[Node::Markup("0"), Node::Number(u64::from(number))])
    } else {
        layout.put(&[Node::Number(u64::from(number))])
    }
}

fn lay_out_date(layout: &mut Layout, day: u32) -> Result<(), AllocError>
    requires { day < 50000 }
    ensures { OnOk result (layout.new ≡ layout.old ++ date_nodes day) }
{
    let date = date_of(day);
    layout.put(&[Node::Number(u64::from(date.year)), Node::Markup("-")])?;
    lay_out_two(layout, date.month)?;
    layout.put(&[Node::Markup("-")])?;
    lay_out_two(layout, date.day)
}

fn lay_out_clock(layout: &mut Layout, second: u32) -> Result<(), AllocError>
    ensures { OnOk result (layout.new ≡ layout.old ++ clock_nodes second) }
{
    lay_out_two(layout, second / 3_600)?;
    layout.put(&[Node::Markup(":")])?;
    lay_out_two(layout, second / 60 % 60)?;
    layout.put(&[Node::Markup(":")])?;
    lay_out_two(layout, second % 60)?;
    layout.put(&[Node::Markup("Z")])
}

/// Appends a moment in UTC, as `2026-11-23T20:15:00Z`, with this between its date and its time.
pub fn lay_out_instant(
    layout: &mut Layout,
    between: &'static str,
    moment: u32,
) -> Result<(), AllocError>
    ensures { OnOk result (layout.new ≡ layout.old ++ instant_nodes between.now moment) }
{
    lay_out_date(layout, moment / 86_400)?;
    layout.put(&[Node::Markup(between)])?;
    lay_out_clock(layout, moment % 86_400)
}

/// Appends a moment in UTC, as `2026-11-23 20:15:00Z`.
pub fn lay_out_moment(layout: &mut Layout, moment: u32) -> Result<(), AllocError>
    ensures { OnOk result (layout.new ≡ layout.old ++ moment_nodes moment) }
{
    lay_out_instant(layout, " ", moment)
}

/// Appends the same as an element that programs can read.
pub fn lay_out_time(layout: &mut Layout, moment: u32) -> Result<(), AllocError>
    ensures { OnOk result (layout.new ≡ layout.old ++ time_nodes moment) }
{
    layout.put(&[Node::Markup("<time datetime=\"")])?;
    lay_out_moment(layout, moment)?;
    layout.put(&[Node::Markup("\">")])?;
    lay_out_moment(layout, moment)?;
    layout.put(&[Node::Markup("</time>")])
}
