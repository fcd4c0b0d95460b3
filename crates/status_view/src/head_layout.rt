//! The head of a page: the document's head, its title and the alarms about gateways.

ghost use Rattle.std.specs.Prelude.{◌≡◌, ◌++◌, map, OnOk};
ghost use Rattle.std.specs.List.{flat_map};
ghost use Rattle.status_view.specs.Layout.{nodes_if, each_indexed};
ghost use Rattle.status_view.specs.Shapes.{gateway_shape_view};
ghost use Rattle.status_view.specs.HeadLayout.{refresh_nodes, unhandled_nodes, document_nodes, page_moment_nodes, gateway_nodes, title_nodes, alarm_begin, missing_nodes, closing_nodes, still_nodes, ahead_nodes, old_nodes, fewer_nodes, other_nodes, alarm_nodes, alarms_nodes};

use crate::layout::{Layout, Node, Slot};
use crate::shape::GatewayShape;
use crate::times::{lay_out_span, lay_out_time};
use status_memory::Alarm;
use std::alloc::AllocError;

#[tactic(auto, unfolding(crate::specs::HeadLayout::refresh_nodes))]
fn lay_out_refresh(layout: &mut Layout, seconds: u32) -> Result<(), AllocError>
    ensures { OnOk result (layout.new ≡ layout.old ++ refresh_nodes seconds) }
{
    layout.put_if(
        seconds > 0,
        &[
            Node::Markup("<meta http-equiv=\"refresh\" content=\""),
            Node::Number(u64::from(seconds)),
            Node::Markup("\">"),
        ],
    )
}

#[tactic(auto, unfolding(crate::specs::HeadLayout::unhandled_nodes))]
fn lay_out_unhandled(layout: &mut Layout, count: usize) -> Result<(), AllocError>
    ensures { OnOk result (layout.new ≡ layout.old ++ unhandled_nodes count) }
{
    layout.put_if(
        count > 0,
        &[
            Node::Markup("("),
            Node::Number(count as u64),
            Node::Markup(") "),
        ],
    )
}

/// Appends the document's head, which has the count of unhandled problems in its title.
pub fn lay_out_document(
    layout: &mut Layout,
    refresh: u32,
    unhandled: usize,
) -> Result<(), AllocError>
    ensures { OnOk result (layout.new ≡ layout.old ++ document_nodes refresh unhandled) }
{
    layout.put(&[
        Node::Markup("<!DOCTYPE html>\n<html lang=\"en\"><head><meta charset=\"utf-8\">"),
        Node::Markup("<meta name=\"viewport\" content=\"width=device-width,initial-scale=1\">"),
    ])?;
    lay_out_refresh(layout, refresh)?;
    layout.put(&[
        Node::Markup("<link rel=\"stylesheet\" href=\"/style.css\">"),
        Node::Markup(
            "<link rel=\"alternate\" type=\"application/atom+xml\" href=\"/changes.atom\"><title>",
        ),
    ])?;
    lay_out_unhandled(layout, unhandled)?;
    layout.put(&[
        Node::Slot(Slot::Title),
        Node::Markup("</title></head>\n<body>"),
    ])
}

fn lay_out_page_moment(layout: &mut Layout, index: usize, moment: u32) -> Result<(), AllocError>
    ensures { OnOk result (layout.new ≡ layout.old ++ page_moment_nodes index moment) }
{
    layout.put(&[
        Node::Markup("<p><bdi>"),
        Node::Slot(Slot::Gateway(index)),
        Node::Markup("</bdi> at "),
    ])?;
    lay_out_time(layout, moment)?;
    layout.put(&[Node::Markup("</p>")])
}

#[tactic(auto, unfolding(crate::specs::HeadLayout::gateway_nodes))]
fn lay_out_gateway(
    layout: &mut Layout,
    gateway: &GatewayShape,
    index: usize,
) -> Result<(), AllocError>
    ensures { OnOk result (layout.new
        ≡ layout.old ++ gateway_nodes index (gateway_shape_view gateway.now)) }
{
    match gateway.moment {
        Some(moment) => lay_out_page_moment(layout, index, moment),
        None => Ok(()),
    }
}

fn lay_out_gateways(layout: &mut Layout, gateways: &[GatewayShape]) -> Result<(), AllocError>
    ensures { OnOk result (layout.new
        ≡ layout.old ++ each_indexed gateway_nodes (map gateway_shape_view gateways.now)) }
{
    for (index, gateway) in gateways.iter().enumerate() {
        lay_out_gateway(layout, gateway, index)?;
    }
    Ok(())
}

/// Appends the header: the title, the links to the pages, and the moment of each gateway's page.
pub fn lay_out_title(layout: &mut Layout, gateways: &[GatewayShape]) -> Result<(), AllocError>
    ensures { OnOk result (layout.new
        ≡ layout.old ++ title_nodes (map gateway_shape_view gateways.now)) }
{
    layout.put(&[
        Node::Markup("<header><h1><a href=\"/\">"),
        Node::Slot(Slot::Title),
        Node::Markup("</a></h1><nav aria-label=\"Pages\"><a href=\"/\">Status</a> "),
        Node::Markup("<a href=\"/changes\">Changes</a> <a href=\"/comments\">Comments</a> "),
        Node::Markup("<a href=\"/downtime\">Downtime</a></nav>"),
    ])?;
    lay_out_gateways(layout, gateways)?;
    layout.put(&[Node::Markup("</header>\n<main>\n")])
}

#[tactic(auto, unfolding(crate::specs::HeadLayout::alarm_begin))]
fn begin_alarm(layout: &mut Layout, index: usize) -> Result<(), AllocError>
    ensures { OnOk result (layout.new ≡ layout.old ++ alarm_begin index) }
{
    layout.put(&[
        Node::Markup("<p class=\"alarm\" role=\"alert\"><strong>Gateway <bdi>"),
        Node::Slot(Slot::Gateway(index)),
        Node::Markup("</bdi></strong> "),
    ])
}

fn lay_out_missing(layout: &mut Layout, index: usize) -> Result<(), AllocError>
    ensures { OnOk result (layout.new ≡ layout.old ++ missing_nodes index) }
{
    begin_alarm(layout, index)?;
    layout.put(&[
        Node::Markup("shows no status: "),
        Node::Slot(Slot::Cause(index)),
        Node::Markup(". Its objects are missing below, or are as another gateway has them.</p>\n"),
    ])
}

fn lay_out_closing(layout: &mut Layout, index: usize) -> Result<(), AllocError>
    ensures { OnOk result (layout.new ≡ layout.old ++ closing_nodes index) }
{
    begin_alarm(layout, index)?;
    layout.put(&[Node::Markup("is closing.</p>\n")])
}

fn lay_out_still(layout: &mut Layout, index: usize, age: u32) -> Result<(), AllocError>
    ensures { OnOk result (layout.new ≡ layout.old ++ still_nodes index age) }
{
    begin_alarm(layout, index)?;
    layout.put(&[Node::Markup("stands still: its page is ")])?;
    lay_out_span(layout, age)?;
    layout.put(&[Node::Markup(" old, and its objects are stale. Its log may be full.</p>\n")])
}

fn lay_out_ahead(layout: &mut Layout, index: usize, seconds: u32) -> Result<(), AllocError>
    ensures { OnOk result (layout.new ≡ layout.old ++ ahead_nodes index seconds) }
{
    begin_alarm(layout, index)?;
    layout.put(&[Node::Markup("has a clock that is ")])?;
    lay_out_span(layout, seconds)?;
    layout.put(&[Node::Markup(
        " ahead: one of the two clocks is wrong. Its objects are stale.</p>\n",
    )])
}

fn lay_out_old(layout: &mut Layout, index: usize, age: u32) -> Result<(), AllocError>
    ensures { OnOk result (layout.new ≡ layout.old ++ old_nodes index age) }
{
    begin_alarm(layout, index)?;
    layout.put(&[
        Node::Markup("shows no new page: "),
        Node::Slot(Slot::Cause(index)),
        Node::Markup(". The one of "),
    ])?;
    lay_out_span(layout, age)?;
    layout.put(&[Node::Markup(" ago is shown, and its objects are stale.</p>\n")])
}

fn lay_out_fewer(
    layout: &mut Layout,
    index: usize,
    objects: usize,
    most: usize,
) -> Result<(), AllocError>
    ensures { OnOk result (layout.new ≡ layout.old ++ fewer_nodes index objects most) }
{
    begin_alarm(layout, index)?;
    layout.put(&[
        Node::Markup("shows "),
        Node::Number(objects as u64),
        Node::Markup(" objects, and has shown "),
        Node::Number(most as u64),
        Node::Markup(". Its page may be cut off.</p>\n"),
    ])
}

fn lay_out_other(layout: &mut Layout, index: usize) -> Result<(), AllocError>
    ensures { OnOk result (layout.new ≡ layout.old ++ other_nodes index) }
{
    begin_alarm(layout, index)?;
    layout.put(&[Node::Markup(
        "shows other objects than within the hour before: its address may be another gateway's.</p>\n",
    )])
}

#[tactic(auto, unfolding(crate::specs::HeadLayout::alarm_nodes))]
fn lay_out_alarm(layout: &mut Layout, index: usize, alarm: Alarm) -> Result<(), AllocError>
    ensures { OnOk result (layout.new ≡ layout.old ++ alarm_nodes index alarm) }
{
    match alarm {
        Alarm::NoPage => lay_out_missing(layout, index),
        Alarm::NoNewPage(age) => lay_out_old(layout, index, age),
        Alarm::StandsStill(age) => lay_out_still(layout, index, age),
        Alarm::ClockAhead(seconds) => lay_out_ahead(layout, index, seconds),
        Alarm::Closing => lay_out_closing(layout, index),
        Alarm::FewerObjects(objects, most) => lay_out_fewer(layout, index, objects, most),
        Alarm::OtherObjects => lay_out_other(layout, index),
    }
}

fn lay_out_alarms_of(layout: &mut Layout, index: usize, alarms: &[Alarm]) -> Result<(), AllocError>
    ensures { OnOk result (layout.new ≡ layout.old ++ flat_map (alarm_nodes index) alarms.now) }
{
    for alarm in alarms {
        lay_out_alarm(layout, index, *alarm)?;
    }
    Ok(())
}

/// Appends the alarms about gateways.
pub fn lay_out_alarms(layout: &mut Layout, gateways: &[GatewayShape]) -> Result<(), AllocError>
    ensures { OnOk result (layout.new
        ≡ layout.old ++ alarms_nodes (map gateway_shape_view gateways.now)) }
{
    for (index, gateway) in gateways.iter().enumerate() {
        lay_out_alarms_of(layout, index, gateway.alarms.as_slice())?;
    }
    Ok(())
}
