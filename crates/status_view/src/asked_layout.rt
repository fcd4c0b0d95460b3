//! What a page's query asks for, and the form by which another is asked.

ghost use Rattle.std.specs.Prelude.{◌≡◌, ◌++◌, OnOk};
ghost use Rattle.std.specs.List.{flat_map};
ghost use Rattle.status_view.specs.Shapes.{shape_view};
ghost use Rattle.status_view.specs.AskedLayout.{option_nodes, form_choices, same_mark, mark_option_nodes, mark_nodes, text_nodes, texts_nodes, form_nodes, choice_nodes, asked_text_nodes, asked_texts_nodes, asked_mark_nodes, asked_nodes, filter_nodes};

use crate::layout::{AskedText, Layout, Node, Slot};
use crate::shape::PageShape;
use crate::summary_layout::same_choice;
use status_merge::{Choice, choice_name, mark_name, sort_name};
use status_reading::State;
use std::alloc::AllocError;

fn lay_out_option(layout: &mut Layout, choice: Choice, chosen: Choice) -> Result<(), AllocError>
    ensures { OnOk result (layout.new ≡ layout.old ++ option_nodes chosen choice) }
{
    layout.put(&[Node::Markup("<option")])?;
    layout.put_if(same_choice(chosen, choice), &[Node::Markup(" selected")])?;
    layout.put(&[
        Node::Markup(">"),
        Node::Markup(choice_name(choice)),
        Node::Markup("</option>"),
    ])
}

fn lay_out_options(
    layout: &mut Layout,
    choices: &[Choice],
    chosen: Choice,
) -> Result<(), AllocError>
    ensures { OnOk result (layout.new
        ≡ layout.old ++ flat_map (option_nodes chosen) choices.now) }
{
    for choice in choices {
        lay_out_option(layout, *choice, chosen)?;
    }
    Ok(())
}

#[tactic(auto, unfolding(crate::specs::AskedLayout::form_choices))]
fn lay_out_choices(layout: &mut Layout, chosen: Choice) -> Result<(), AllocError>
    ensures { OnOk result (layout.new
        ≡ layout.old ++ flat_map (option_nodes chosen) form_choices) }
{
    lay_out_options(
        layout,
        &[
            Choice::All,
            Choice::Problems,
            Choice::Unhandled,
            Choice::Stale,
            Choice::In(State::Critical),
            Choice::In(State::Warning),
            Choice::In(State::Unknown),
            Choice::In(State::Ok),
            Choice::In(State::Down),
            Choice::In(State::Unreachable),
            Choice::In(State::Up),
            Choice::In(State::Pending),
        ],
        chosen,
    )
}

#[tactic(auto, unfolding(crate::specs::AskedLayout::same_mark))]
fn same_mark(one: Option<bool>, other: Option<bool>) -> bool
    ensures { result ≡ same_mark one other }
{
    match (one, other) {
        (None, None) | (Some(true), Some(true)) | (Some(false), Some(false)) => true,
        _ => false,
    }
}

fn lay_out_mark_option(
    layout: &mut Layout,
    mark: Option<bool>,
    chosen: Option<bool>,
) -> Result<(), AllocError>
    ensures { OnOk result (layout.new ≡ layout.old ++ mark_option_nodes chosen mark) }
{
    layout.put(&[Node::Markup("<option")])?;
    layout.put_if(same_mark(chosen, mark), &[Node::Markup(" selected")])?;
    layout.put(&[
        Node::Markup(">"),
        Node::Markup(mark_name(mark)),
        Node::Markup("</option>"),
    ])
}

fn lay_out_mark(
    layout: &mut Layout,
    begin: &'static str,
    chosen: Option<bool>,
) -> Result<(), AllocError>
    ensures { OnOk result (layout.new ≡ layout.old ++ mark_nodes begin.now chosen) }
{
    layout.put(&[Node::Markup(begin)])?;
    lay_out_mark_option(layout, None, chosen)?;
    lay_out_mark_option(layout, Some(true), chosen)?;
    lay_out_mark_option(layout, Some(false), chosen)?;
    layout.put(&[Node::Markup("</select></label>")])
}

#[tactic(auto, unfolding(crate::specs::AskedLayout::text_nodes))]
fn lay_out_text(layout: &mut Layout, begin: &'static str, text: AskedText) -> Result<(), AllocError>
    ensures { OnOk result (layout.new ≡ layout.old ++ text_nodes begin.now text) }
{
    layout.put(&[
        Node::Markup(begin),
        Node::Slot(Slot::Asked(text)),
        Node::Markup("\"></label>"),
    ])
}

// Appends the fields of the texts.
fn lay_out_texts(layout: &mut Layout) -> Result<(), AllocError>
    ensures { OnOk result (layout.new ≡ layout.old ++ texts_nodes) }
{
    let host = " <label>Host <input name=\"host\" value=\"";
    lay_out_text(layout, host, AskedText::Host)?;
    let hostname = " <label>Host, exactly <input name=\"hostname\" value=\"";
    lay_out_text(layout, hostname, AskedText::Hostname)?;
    let service = " <label>Service <input name=\"service\" value=\"";
    lay_out_text(layout, service, AskedText::Service)?;
    let output = " <label>Output <input name=\"output\" value=\"";
    lay_out_text(layout, output, AskedText::Output)?;
    let gateway = " <label>Gateway <input name=\"gateway\" value=\"";
    lay_out_text(layout, gateway, AskedText::Gateway)
}

// Appends the form, which keeps the order of the list.
fn lay_out_form(layout: &mut Layout, shape: &PageShape) -> Result<(), AllocError>
    ensures { OnOk result (layout.new ≡ layout.old ++ form_nodes (shape_view shape.now)) }
{
    layout.put(&[
        Node::Markup("<form method=\"get\" action=\"/\" role=\"search\" aria-label=\"Objects\">"),
        Node::Markup("<input type=\"hidden\" name=\"sort\" value=\""),
        Node::Markup(sort_name(shape.sort)),
        Node::Markup("\"><label>State <select name=\"state\">"),
    ])?;
    lay_out_choices(layout, shape.choice)?;
    layout.put(&[Node::Markup("</select></label>")])?;
    lay_out_texts(layout)?;
    let acknowledged = " <label>Acknowledged <select name=\"acknowledged\">";
    lay_out_mark(layout, acknowledged, shape.acknowledged)?;
    let downtime = " <label>In downtime <select name=\"downtime\">";
    lay_out_mark(layout, downtime, shape.downtime)?;
    layout.put(&[
        Node::Markup(
            " <label>Refresh <input name=\"refresh\" type=\"number\" min=\"0\" max=\"3600\" value=\"",
        ),
        Node::Number(u64::from(shape.refresh)),
        Node::Markup("\"></label> <button>Show</button></form>\n"),
    ])
}

#[tactic(auto, unfolding(crate::specs::AskedLayout::choice_nodes))]
fn lay_out_choice(layout: &mut Layout, choice: Choice) -> Result<(), AllocError>
    ensures { OnOk result (layout.new ≡ layout.old ++ choice_nodes choice) }
{
    layout.put_if(
        !same_choice(choice, Choice::All),
        &[
            Node::Markup(" <span class=\"badge\">state "),
            Node::Markup(choice_name(choice)),
            Node::Markup("</span>"),
        ],
    )
}

#[tactic(auto, unfolding(crate::specs::AskedLayout::asked_text_nodes))]
fn lay_out_asked_text(
    layout: &mut Layout,
    begin: &'static str,
    is: bool,
    text: AskedText,
) -> Result<(), AllocError>
    ensures { OnOk result (layout.new ≡ layout.old ++ asked_text_nodes begin.now is text) }
{
    layout.put_if(
        is,
        &[
            Node::Markup(begin),
            Node::Slot(Slot::Asked(text)),
            Node::Markup("</bdi></span>"),
        ],
    )
}

// Appends the texts that are asked for.
fn lay_out_asked_texts(layout: &mut Layout, shape: &PageShape) -> Result<(), AllocError>
    ensures { OnOk result
        (layout.new ≡ layout.old ++ asked_texts_nodes (shape_view shape.now)) }
{
    let texts = &shape.texts;
    let host = " <span class=\"badge\">host has <bdi>";
    lay_out_asked_text(layout, host, texts.host, AskedText::Host)?;
    let hostname = " <span class=\"badge\">host is <bdi>";
    lay_out_asked_text(layout, hostname, texts.hostname, AskedText::Hostname)?;
    let service = " <span class=\"badge\">service has <bdi>";
    lay_out_asked_text(layout, service, texts.service, AskedText::Service)?;
    let output = " <span class=\"badge\">output has <bdi>";
    lay_out_asked_text(layout, output, texts.output, AskedText::Output)?;
    let gateway = " <span class=\"badge\">gateway is <bdi>";
    lay_out_asked_text(layout, gateway, texts.gateway, AskedText::Gateway)
}

#[tactic(auto, unfolding(crate::specs::AskedLayout::asked_mark_nodes))]
fn lay_out_asked_mark(
    layout: &mut Layout,
    begin: &'static str,
    mark: Option<bool>,
) -> Result<(), AllocError>
    ensures { OnOk result (layout.new ≡ layout.old ++ asked_mark_nodes begin.now mark) }
{
    layout.put_if(
        mark.is_some(),
        &[
            Node::Markup(begin),
            Node::Markup(mark_name(mark)),
            Node::Markup("</span>"),
        ],
    )
}

// Appends what is asked for, with the link to the same page with the form.
fn lay_out_asked(layout: &mut Layout, shape: &PageShape) -> Result<(), AllocError>
    ensures { OnOk result (layout.new ≡ layout.old ++ asked_nodes (shape_view shape.now)) }
{
    layout.put(&[
        Node::Markup("<p class=\"asked\"><a href=\"/?"),
        Node::Slot(Slot::Query(shape.page as usize)),
        Node::Markup("&amp;filters=open\">Filter</a>"),
    ])?;
    lay_out_choice(layout, shape.choice)?;
    lay_out_asked_texts(layout, shape)?;
    let acknowledged = " <span class=\"badge\">acknowledged ";
    lay_out_asked_mark(layout, acknowledged, shape.acknowledged)?;
    let downtime = " <span class=\"badge\">in downtime ";
    lay_out_asked_mark(layout, downtime, shape.downtime)?;
    layout.put(&[Node::Markup("</p>\n")])
}

/// Appends the form where the page has it, and else what is asked for.
pub fn lay_out_filter(layout: &mut Layout, shape: &PageShape) -> Result<(), AllocError>
    ensures { OnOk result (layout.new ≡ layout.old ++ filter_nodes (shape_view shape.now)) }
{
    if shape.form {
        lay_out_form(layout, shape)
    } else {
        lay_out_asked(layout, shape)
    }
}
