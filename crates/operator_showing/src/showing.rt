//! The status page, whole or in part, as it came or as JSON.

ghost use Rattle.std.specs.Prelude.{◌≡◌, ◌||◌, ◌++◌, List, is_some, IfErr, IfOk};
ghost use Rattle.status_merge.specs.Asking.{asked_by};
ghost use Rattle.operator_ports.specs.Steps.{Step};
ghost use Rattle.operator_showing.specs.Shown.{IsAlone, chosen_on, json_on, IsPageShown, IsChosenShown, IsJsonShown, IsShowFault, IsShown, IsStatusFault};

use crate::choosing::{chosen_text, object_lines, query_in};
use gate_model::Text;
use gate_streams::Sink;
use operator_ports::Gateway;
use operator_setup::{ControlFault, page_of, print};
use status_export::json_text;
use status_merge::{Gateway as ShownGateway, Query, merge, select};
use status_reading::StatusPage;
use std::alloc::{AllocError, Global};

// A gateway of this name, whose page this is.
fn alone<'a>(alloc: Global, name: &'a str, page: StatusPage<'a>) -> ShownGateway<'a>
    ensures { IsAlone name.entry.now page.entry result }
{
    ShownGateway {
        name,
        page: Ok(page),
        since: &[],
        old: None,
        alarms: Vec::new(alloc),
    }
}

// The lines of the objects of a gateway that a query chooses, as the text of its page has them.
fn chosen_on(
    alloc: Global,
    text: &[u8],
    gateway: ShownGateway<'_>,
    query: &Query,
) -> Result<Vec<u8>, AllocError>
    ensures { IfOk result (λ lines. lines.items ≡ chosen_on text.now (asked_by query.now) gateway.entry) }
{
    let objects = merge(alloc, &[gateway])?;
    let lines = object_lines(alloc, text)?;
    chosen_text(alloc, lines.as_slice(), objects.as_slice(), query)
}

// A gateway as JSON, with its objects that a query chooses, and a line's end.
fn json_on(alloc: Global, gateway: ShownGateway<'_>, query: &Query) -> Result<Vec<u8>, AllocError>
    ensures { IfOk result (λ text. text.items ≡ json_on (asked_by query.now) gateway.entry) }
{
    let gateways = [gateway];
    let objects = merge(alloc, &gateways)?;
    let chosen = select(alloc, objects.as_slice(), query)?;
    let mut text = json_text(alloc, &gateways, chosen.as_slice(), query)?;
    text.push(b'\n')?;
    Ok(text)
}

// Prints a text, where it is a page.
fn show<W: Sink>(alloc: Global, text: &[u8], output: &mut W) -> Result<u8, ControlFault>
    ensures fault { IfErr result IsShowFault }
    ensures shown { IfOk result (λ status. (status ≡ 0)
        × IsPageShown text.now (W.state output.old) (W.state output.new)) }
{
    let _page = page_of(alloc, text)?;
    print(output, text)?;
    Ok(0)
}

// Prints the lines of the objects of a page that a query chooses.
fn show_chosen<W: Sink>(
    alloc: Global,
    text: &[u8],
    query: &Query,
    output: &mut W,
) -> Result<u8, ControlFault>
    ensures fault { IfErr result IsShowFault }
    ensures shown { IfOk result (λ status. (status ≡ 0)
        × IsChosenShown text.now (asked_by query.now) (W.state output.old) (W.state output.new)) }
{
    let page = page_of(alloc, text)?;
    let lines = chosen_on(alloc, text, alone(alloc, "", page), query)?;
    print(output, lines.as_slice())?;
    Ok(0)
}

// Prints the page that a text is as JSON, as statusweb has it of a gateway of this name.
fn show_json<W: Sink>(
    alloc: Global,
    text: &[u8],
    name: &str,
    query: &Query,
    output: &mut W,
) -> Result<u8, ControlFault>
    ensures fault { IfErr result IsShowFault }
    ensures shown { IfOk result (λ status. (status ≡ 0)
        × IsJsonShown text.now name.now (asked_by query.now)
        (W.state output.old) (W.state output.new)) }
{
    let page = page_of(alloc, text)?;
    let line = json_on(alloc, alone(alloc, name, page), query)?;
    print(output, line.as_slice())?;
    Ok(0)
}

// Whether objects are chosen.
fn are_chosen(state: &Option<Text>, host: &Option<Text>) -> bool
    ensures { result ≡ (is_some state.now || is_some host.now) }
{
    state.is_some() || host.is_some()
}

/// Prints the page of a gateway: as it came, the lines of the objects of `wanted` (`--state` and
/// `--host`), or as JSON, with this name of the gateway.
pub fn run_status<G: Gateway, W: Sink>(
    alloc: Global,
    json: bool,
    name: &str,
    wanted: (&Option<Text>, &Option<Text>),
    gateway: &mut G,
    output: &mut W,
) -> Result<u8, ControlFault>
    ensures status { IfOk result (λ status. status ≡ 0) }
    ensures shown { IfOk result (λ _. (steps : List Step)
        × (G.done gateway.new ≡ G.done gateway.old ++ steps)
        × IsShown json name.now wanted.entry.0.now wanted.entry.1.now steps
        (W.state output.old) (W.state output.new)) }
    ensures fault { IfErr result (IsStatusFault wanted.entry.0.now wanted.entry.1.now) }
{
    let query = query_in(alloc, wanted.0, wanted.1)?;
    let text = match gateway.page(alloc) {
        Ok(text) => text,
        Err(fault) => return Err(ControlFault::NoPage(fault)),
    };
    let text = text.as_slice();
    if json {
        show_json(alloc, text, name, &query, output)
    } else if are_chosen(wanted.0, wanted.1) {
        show_chosen(alloc, text, &query, output)
    } else {
        show(alloc, text, output)
    }
}
