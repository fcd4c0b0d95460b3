//! One page after another, and what is other on each.

ghost use Rattle.std.specs.Prelude.{◌≡◌, ◌-◌, ◌^◌, ◌++◌, ℕ, Err, List, IfErr, IfOk, OnOk};
ghost use Rattle.std.specs.List.{flat_map};
ghost use Rattle.std.specs.Option.{ok_or};
ghost use Rattle.page_fetching.specs.declared.fetching.FetchFault.{FetchFault};
ghost use Rattle.operator_ports.specs.Steps.{Step};
ghost use Rattle.operator_showing.specs.Shown.{IsShowFault};
ghost use Rattle.operator_showing.specs.Followed.{IsChangePrinted, IsFollowFault, IsFollowedFor, IsPrinted, IsWatchFault, IsWatched, IsWatchedFor, change_line, interval_of};

use change_lines::push_change;
use gate_grammar::read_number;
use gate_model::Text;
use gate_streams::Sink;
use operator_json::change_json;
use operator_ports::Gateway;
use operator_setup::{ControlFault, page_of, print};
use page_changes::{Change, changes};
use std::alloc::{AllocError, Global};
use std::thread;
use std::time::{Clock, Duration};

// The seconds between two pages, where the words name none.
const INTERVAL: u32 = 1;

// `--interval`, which is 1 to 3600, by default 1.
fn interval_in(interval: &Option<Text>) -> Result<u32, ControlFault>
    ensures { result ≡ ok_or (interval_of interval.now) ControlFault.BadInterval }
{
    let Some(text) = interval else {
        return Ok(INTERVAL);
    };
    match read_number(text.bytes()) {
        Some(seconds) if (1..=3600).contains(&seconds) => Ok(seconds),
        _ => Err(ControlFault::BadInterval),
    }
}

// Appends the line of a change, as JSON or not.
fn push_line(
    alloc: Global,
    lines: &mut Vec<u8>,
    moment: u32,
    change: &Change<'_>,
    json: bool,
) -> Result<(), AllocError>
    ensures { OnOk result
        (lines.new.items ≡ lines.old.items ++ change_line json moment change.now) }
{
    if json {
        lines.extend_from_slice(change_json(alloc, moment, change)?.as_slice())?;
        lines.extend_from_slice(b"\n")
    } else {
        push_change(lines, moment, change)
    }
}

// The lines of changes.
fn lines_of(
    alloc: Global,
    moment: u32,
    changes: &[Change<'_>],
    json: bool,
) -> Result<Vec<u8>, AllocError>
    ensures { IfOk result (λ lines. lines.items ≡ flat_map (change_line json moment) changes.now) }
{
    let mut lines = Vec::new(alloc);
    for change in changes {
        push_line(alloc, &mut lines, moment, change, json)?;
    }
    Ok(lines)
}

// Prints a text, unless it is empty.
fn print_some<W: Sink>(output: &mut W, text: &[u8]) -> Result<(), ControlFault>
    ensures printed { OnOk result
        (IsPrinted text.now (W.state output.old) (W.state output.new)) }
    ensures fault { IfErr result (λ fault. fault ≡ ControlFault.WriteFault) }
{
    if text.is_empty() {
        return Ok(());
    }
    print(output, text)
}

// Prints what is other on the second of two pages.
fn print_changes<W: Sink>(
    alloc: Global,
    before: &[u8],
    after: &[u8],
    json: bool,
    output: &mut W,
) -> Result<(), ControlFault>
    ensures printed { OnOk result (IsChangePrinted json before.now after.now
        (W.state output.old) (W.state output.new)) }
    ensures fault { IfErr result IsShowFault }
{
    let before = page_of(alloc, before)?;
    let after = page_of(alloc, after)?;
    let changes = changes(alloc, &before, &after)?;
    let lines = lines_of(alloc, after.moment, changes.as_slice(), json)?;
    print_some(output, lines.as_slice())?;
    Ok(())
}

// Prints what is other on each page, from this first one on, until there is no page.
fn follow<R: Clock, G: Gateway, W: Sink>(
    rt: &R,
    alloc: Global,
    first: Vec<u8>,
    interval: u32,
    json: bool,
    gateway: &mut G,
    output: &mut W,
) -> Result<u8, ControlFault>
    ensures followed { (fault : FetchFault) → result ≡ Err (ControlFault.NoPage fault)
        → (count : ℕ) × (steps : List Step)
        × (G.done gateway.new ≡ G.done gateway.old ++ steps)
        × IsFollowedFor count json first.items steps (W.state output.old) (W.state output.new) }
    ensures endless { IfOk result (λ status. (status ≡ 0) × (steps : List Step)
        × (G.done gateway.new ≡ G.done gateway.old ++ steps)
        × IsFollowedFor (2 ^ 64 - 1) json first.items steps
        (W.state output.old) (W.state output.new)) }
    ensures fault { IfErr result IsFollowFault }
{
    drop(page_of(alloc, first.as_slice())?);
    let mut before = first;
    for _turn in 0..u64::MAX {
        thread::sleep(rt, Duration::from_secs(u64::from(interval)));
        let after = match gateway.page(alloc) {
            Ok(text) => text,
            Err(fault) => return Err(ControlFault::NoPage(fault)),
        };
        print_changes(alloc, before.as_slice(), after.as_slice(), json, output)?;
        before = after;
    }
    Ok(0)
}

/// Prints what is other on each page of a gateway, until there is none, which is the fault `NoPage`, or
/// 2^64 - 1 were, for status 0. Between two pages lie `--interval` seconds. An error is also
/// `BadInterval`, `BadPage`, `WriteFault` or `OutOfMemory`.
pub fn run_watch<R: Clock, G: Gateway, W: Sink>(
    rt: &R,
    alloc: Global,
    json: bool,
    interval: &Option<Text>,
    gateway: &mut G,
    output: &mut W,
) -> Result<u8, ControlFault>
    ensures watched { (fault : FetchFault) → result ≡ Err (ControlFault.NoPage fault)
        → (steps : List Step) × (G.done gateway.new ≡ G.done gateway.old ++ steps)
        × IsWatched json steps (W.state output.old) (W.state output.new) }
    ensures endless { IfOk result (λ status. (status ≡ 0) × (steps : List Step)
        × (G.done gateway.new ≡ G.done gateway.old ++ steps)
        × IsWatchedFor (2 ^ 64 - 1) json steps (W.state output.old) (W.state output.new)) }
    ensures fault { IfErr result (IsWatchFault interval.now) }
{
    let interval = interval_in(interval)?;
    let text = match gateway.page(alloc) {
        Ok(text) => text,
        Err(fault) => return Err(ControlFault::NoPage(fault)),
    };
    follow(rt, alloc, text, interval, json, gateway, output)
}
