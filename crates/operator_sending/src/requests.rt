//! The commands of a request, one after another.

ghost use Rattle.std.specs.Prelude.{◌≡◌, ◌++◌, [], IfErr, IfOk, List, MatchOption, None, Some, map};
ghost use Rattle.gate_model.specs.declared.submission.Body.{Body};
ghost use Rattle.gate_model.specs.Act.{act_of};
ghost use Rattle.status_reading.specs.Rows.{page_view};
ghost use Rattle.operator_commands.specs.declared.request.Request.{Request as Asked};
ghost use Rattle.operator_effects.specs.Commands.{commands_of};
ghost use Rattle.operator_effects.specs.Refusals.{first_refusal};
ghost use Rattle.operator_ports.specs.Commands.{entered_at};
ghost use Rattle.operator_ports.specs.Steps.{Step};
ghost use Rattle.operator_sending.specs.Ended.{IsEnd, is_watched};
ghost use Rattle.operator_sending.specs.Faults.{fault_of, IsFaultOn, IsPrintFault, IsRequestFault};
ghost use Rattle.operator_setup.specs.Pages.{IsPageIn};
ghost use Rattle.operator_sending.specs.Reports.{AreAnswered, IsCarriedOut, IsCarriedOutOn, IsReportedEnd, meant, sinks};

use crate::reporting::report;
use gate_grammar::Command;
use gate_model::{Act, Body, Deed, Moment, Text};
use gate_streams::Sink;
use operator_commands::{Options, Request};
use operator_effects::{Ending, PlanFault, commands_for, ending_of, first_refusal, plain_request};
use operator_lines::Reply;
use operator_ports::{Gateway, entered_at, watch};
use operator_setup::{ControlFault, now, page_of};
use status_reading::StatusPage;
use std::alloc::{AllocError, Global};
use std::env;
use std::rt::Env;
use std::time::Clock;

// The name of the user where the environment has none.
const NOBODY: &[u8] = b"operator";

// The user who runs the program: that of sudo, or else the one who logged in.
fn user(rt: &(impl Env + AllocGlobal), alloc: Global) -> Result<Text, ControlFault>
    ensures { IfErr result (λ fault. fault ≡ ControlFault.OutOfMemory) }
{
    for name in ["SUDO_USER", "LOGNAME", "USER"] {
        if let Ok(user) = env::var(rt, name) {
            if !user.is_empty() {
                return Ok(Text::copied(alloc, user.as_bytes())?);
            }
        }
    }
    Ok(Text::copied(alloc, NOBODY)?)
}

// Whether a page can show how the act ended that was answered so.
fn is_watched(act: &Act<'_>, reply: Reply) -> bool
    ensures { result ≡ is_watched act.now reply }
{
    match reply {
        Reply::Queued(_) => match act {
            Act::On {
                deed: Deed::Passive { .. },
                ..
            } => false,
            _ => true,
        },
        Reply::Closing => match act {
            Act::Shutdown => true,
            _ => false,
        },
        Reply::Full | Reply::Spent | Reply::Bad(_) => false,
    }
}

// Sends a command, and watches for its effect where this page was read before it. `Err`: it was
// answered so, and memory ran out while pages were read.
fn carry_out<G: Gateway>(
    alloc: Global,
    before: &StatusPage<'_>,
    command: &Command,
    gateway: &mut G,
) -> Result<Ending, Reply>
    ensures { IfOk result (λ ending. (steps : List Step)
        × (G.done gateway.new ≡ G.done gateway.old ++ steps)
        × IsEnd command.now (page_view before.now) steps ending) }
{
    let reply = match gateway.send(alloc, command) {
        Ok(reply) => reply,
        Err(fault) => return Ok(Ending::NoAnswer(fault)),
    };
    if is_watched(&command.body.act(), reply) {
        return match watch(alloc, before, &command.body, gateway) {
            Ok(seen) => Ok(ending_of(&command.body, reply, seen)),
            Err(_) => Err(reply),
        };
    }
    Ok(ending_of(&command.body, reply, None))
}

// Reports the first command that the gateway would refuse, by its page; returns the exit status.
fn objection<W: Sink, E: Sink>(
    alloc: Global,
    page: &StatusPage<'_>,
    commands: &[Command],
    json: bool,
    output: &mut W,
    errors: &mut E,
) -> Result<Option<u8>, ControlFault>
    ensures found { IfOk result (λ found. MatchOption found
        ((first_refusal (page_view page.now) commands.now ≡ None)
        × (sinks (W.state output.new) (E.state errors.new)
        ≡ sinks (W.state output.old) (E.state errors.old)))
        (λ status. AreAnswered json (page_view page.now) commands.now [] status
        (sinks (W.state output.old) (E.state errors.old))
        (sinks (W.state output.new) (E.state errors.new)))) }
    ensures fault { IfErr result IsPrintFault }
{
    let Some((command, outcome)) = first_refusal(alloc, page, commands)? else {
        return Ok(None);
    };
    let status = report(
        alloc,
        &command.body,
        Ending::Refused(outcome),
        json,
        output,
        errors,
    )?;
    Ok(Some(status))
}

// Sends a command, and prints how it ended; returns the exit status. Where memory ran out while pages
// were read, what was answered is printed all the same.
fn send_one<G: Gateway, W: Sink, E: Sink>(
    alloc: Global,
    before: &StatusPage<'_>,
    command: &Command,
    json: bool,
    gateway: &mut G,
    output: &mut W,
    errors: &mut E,
) -> Result<u8, ControlFault>
    ensures reported { IfOk result (λ status. (steps : List Step)
        × (G.done gateway.new ≡ G.done gateway.old ++ steps)
        × IsReportedEnd json (page_view before.now) command.now steps status
        (sinks (W.state output.old) (E.state errors.old))
        (sinks (W.state output.new) (E.state errors.new))) }
    ensures fault { IfErr result IsPrintFault }
{
    let body = &command.body;
    match carry_out(alloc, before, command, gateway) {
        Ok(ending) => {
            let status = report(alloc, body, ending, json, output, errors)?;
            Ok(status)
        }
        Err(reply) => {
            let ending = ending_of(body, reply, None);
            let _status = report(alloc, body, ending, json, output, errors)?;
            Err(ControlFault::OutOfMemory)
        }
    }
}

// Sends commands one after another, where the gateway would refuse none of them, by its page; prints
// how each ended, and returns the exit status: that of the first that did not end well, after which
// none is sent.
fn send_all<G: Gateway, W: Sink, E: Sink>(
    alloc: Global,
    before: &StatusPage<'_>,
    commands: &[Command],
    json: bool,
    gateway: &mut G,
    output: &mut W,
    errors: &mut E,
) -> Result<u8, ControlFault>
    ensures answered { IfOk result (λ status. (steps : List Step)
        × (G.done gateway.new ≡ G.done gateway.old ++ steps)
        × AreAnswered json (page_view before.now) commands.now steps status
        (sinks (W.state output.old) (E.state errors.old))
        (sinks (W.state output.new) (E.state errors.new))) }
    ensures fault { IfErr result IsPrintFault }
{
    if let Some(refused) = objection(alloc, before, commands, json, output, errors)? {
        return Ok(refused);
    }
    for command in commands {
        let status = send_one(alloc, before, command, json, gateway, output, errors)?;
        if status != 0 {
            return Ok(status);
        }
    }
    Ok(0)
}

// The fault of a request that is no list of commands.
fn fault_of(fault: PlanFault) -> ControlFault
    ensures { result ≡ fault_of fault }
{
    match fault {
        PlanFault::Request(fault) => ControlFault::Request(fault),
        PlanFault::NoObject => ControlFault::NoObject,
        PlanFault::OutOfMemory => ControlFault::OutOfMemory,
    }
}

// The commands of a request.
fn commands_of(
    alloc: Global,
    page: &StatusPage<'_>,
    entered: Moment,
    user: Text,
    request: Request,
) -> Result<Vec<Command>, ControlFault>
    ensures commands { IfOk result (λ commands. (bodies : List Body)
        × (map Some bodies ≡ commands_of (page_view page.now) entered user request)
        × (commands.items ≡ map (entered_at entered) bodies)) }
    ensures fault { IfErr result (IsFaultOn request) }
{
    match commands_for(alloc, page, entered, user, request) {
        Ok(bodies) => Ok(entered_at(alloc, entered, bodies)?),
        Err(fault) => Err(fault_of(fault)),
    }
}

// The time, the user, and the page of this text.
fn found_on<'t, R: Clock + Env + AllocGlobal>(
    rt: &R,
    alloc: Global,
    text: &'t [u8],
) -> Result<(Moment, Text, StatusPage<'t>), ControlFault>
    ensures page { IfOk result (λ found. IsPageIn text.now found.2) }
    ensures fault { (request : Asked) → IfErr result (IsFaultOn request) }
{
    let entered = now(rt)?;
    let user = user(rt, alloc)?;
    match page_of(alloc, text) {
        Ok(page) => Ok((entered, user, page)),
        Err(fault) => Err(fault),
    }
}

// Carries out a request where this is the text of the page.
fn on_page<R: Clock + Env + AllocGlobal, G: Gateway, W: Sink, E: Sink>(
    rt: &R,
    alloc: Global,
    text: &[u8],
    request: Request,
    json: bool,
    gateway: &mut G,
    output: &mut W,
    errors: &mut E,
) -> Result<u8, ControlFault>
    ensures carried_out { IfOk result (λ status. (steps : List Step)
        × (G.done gateway.new ≡ G.done gateway.old ++ steps)
        × IsCarriedOutOn json text.now request steps status
        (sinks (W.state output.old) (E.state errors.old))
        (sinks (W.state output.new) (E.state errors.new))) }
    ensures fault { IfErr result (IsFaultOn request) }
{
    let (entered, user, before) = match found_on(rt, alloc, text) {
        Ok(found) => found,
        Err(fault) => {
            drop(request);
            return Err(fault);
        }
    };
    let commands = commands_of(alloc, &before, entered, user, request)?;
    let status = send_all(
        alloc,
        &before,
        commands.as_slice(),
        json,
        gateway,
        output,
        errors,
    )?;
    Ok(status)
}

// The request, by `--escaped` with its escapes undone.
fn unescaped(alloc: Global, options: &Options, request: Request) -> Result<Request, AllocError>
    ensures { IfOk result (λ given. given ≡ meant options.now.escaped request) }
{
    if options.escaped {
        plain_request(alloc, request)
    } else {
        Ok(request)
    }
}

/// Carries out a request at a gateway: reads its page, reports the first of the commands that the
/// gateway would refuse by it, or else sends them and reports how each ended. Returns the exit status:
/// that of the first command that doesn't end well, after which none is sent, or 0. An error is that of
/// the words, of a page that doesn't come or is none, or of a device.
pub fn carry_out_request<R: Clock + Env + AllocGlobal, G: Gateway, W: Sink, E: Sink>(
    rt: &R,
    alloc: Global,
    options: &Options,
    request: Request,
    gateway: &mut G,
    output: &mut W,
    errors: &mut E,
) -> Result<u8, ControlFault>
    ensures carried_out { IfOk result (λ status. (steps : List Step)
        × (G.done gateway.new ≡ G.done gateway.old ++ steps)
        × IsCarriedOut options.now.json (meant options.now.escaped request) steps status
        (sinks (W.state output.old) (E.state errors.old))
        (sinks (W.state output.new) (E.state errors.new))) }
    ensures fault { IfErr result (IsRequestFault (meant options.now.escaped request)) }
{
    let text = match gateway.page(alloc) {
        Ok(text) => text,
        Err(fault) => {
            drop(request);
            return Err(ControlFault::NoPage(fault));
        }
    };
    let request = unescaped(alloc, options, request)?;
    let status = on_page(
        rt,
        alloc,
        text.as_slice(),
        request,
        options.json,
        gateway,
        output,
        errors,
    )?;
    Ok(status)
}
