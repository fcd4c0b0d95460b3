//! The line that reports how a command ended.

ghost use Rattle.std.specs.Prelude.{◌≡◌, ◌++◌, OnOk, codes};
ghost use Rattle.std.specs.Fmt.{decimal};
ghost use Rattle.operator_effects.specs.Messages.{details, fault_text, made_part, message, object_text, reply_text, state_part, sticky_part, subject, unseen, verb, verb_of_deed};

use crate::ending::Ending;
use gate_model::{Act, Body, Deed, Name, State, push_escaped, push_number};
use operator_lines::{AskFault, Reply, SendFault};
use page_changes::{Effect, Made, refusal_text};
use status_reading::state_name;
use std::alloc::AllocError;

fn push_object(
    out: &mut Vec<u8>,
    host: &Name<'_>,
    service: &Option<Name<'_>>,
) -> Result<(), AllocError>
    ensures { OnOk result (out.new.items ≡ out.old.items ++ object_text host.now service.now) }
{
    push_escaped(out, host.bytes())?;
    match service {
        None => Ok(()),
        Some(service) => {
            out.extend_from_slice(b" ")?;
            push_escaped(out, service.bytes())
        }
    }
}

fn push_numbered(out: &mut Vec<u8>, name: &[u8], number: u32) -> Result<(), AllocError>
    ensures { OnOk result (out.new.items ≡ out.old.items ++ (name.now ++ decimal number)) }
{
    out.extend_from_slice(name)?;
    push_number(out, u64::from(number))
}

// Appends the object or the id that a command names.
fn push_subject(out: &mut Vec<u8>, act: &Act<'_>) -> Result<(), AllocError>
    ensures { OnOk result (out.new.items ≡ out.old.items ++ subject act.now) }
{
    match act {
        Act::On { host, service, .. } => push_object(out, host, service),
        Act::ScheduleServices { host, .. } => push_escaped(out, host.bytes()),
        Act::DelComment { id, .. } => push_numbered(out, b"comment ", *id),
        Act::DelDowntime { id, .. } => push_numbered(out, b"downtime ", *id),
        Act::Shutdown => out.extend_from_slice(b"the gateway"),
    }
}

fn push_state(out: &mut Vec<u8>, state: Option<State>) -> Result<(), AllocError>
    ensures { OnOk result (out.new.items ≡ out.old.items ++ state_part state) }
{
    let Some(state) = state else {
        return Ok(());
    };
    out.extend_from_slice(b" (")?;
    out.extend_from_slice(state_name(state).as_bytes())?;
    out.extend_from_slice(b")")
}

fn push_made(out: &mut Vec<u8>, made: Option<Made>) -> Result<(), AllocError>
    ensures { OnOk result (out.new.items ≡ out.old.items ++ made_part made) }
{
    match made {
        Some(Made::Comment(id)) => push_numbered(out, b", comment ", id),
        Some(Made::Downtime(id)) => push_numbered(out, b", downtime ", id),
        None => Ok(()),
    }
}

fn sticky_part(act: &Act<'_>) -> &'static [u8]
    ensures { result.now ≡ sticky_part act.now }
{
    match act {
        Act::On {
            deed: Deed::Acknowledge { sticky: true, .. },
            ..
        } => b", sticky",
        _ => b"",
    }
}

fn verb_of_deed(deed: Deed) -> &'static [u8]
    ensures { result.now ≡ verb_of_deed deed }
{
    match deed {
        Deed::Result { .. } => b"result: ",
        Deed::AddComment { .. } => b"commented: ",
        Deed::DelAllComments => b"comments deleted: ",
        Deed::Acknowledge { .. } => b"acknowledged: ",
        Deed::RemoveAck => b"acknowledgement removed: ",
        Deed::Schedule { .. } => b"downtime scheduled: ",
        Deed::Passive { on: true } => b"passive checks enabled: ",
        Deed::Passive { on: false } => b"passive checks disabled: ",
    }
}

fn verb(act: &Act<'_>) -> &'static [u8]
    ensures { result.now ≡ verb act.now }
{
    match act {
        Act::On { deed, .. } => verb_of_deed(*deed),
        Act::ScheduleServices { .. } => b"downtime scheduled for each service: ",
        Act::DelComment { .. } => b"deleted: ",
        Act::DelDowntime { .. } => b"cancelled: ",
        Act::Shutdown => b"closing: ",
    }
}

// Appends how a command did it, and what it made.
fn push_details(out: &mut Vec<u8>, act: &Act<'_>, effect: Effect) -> Result<(), AllocError>
    ensures { OnOk result (out.new.items ≡ out.old.items ++ details act.now effect) }
{
    push_state(out, effect.state)?;
    out.extend_from_slice(sticky_part(act))?;
    push_made(out, effect.made)
}

fn reply_text(reply: Reply) -> &'static [u8]
    ensures { result.now ≡ reply_text reply }
{
    match reply {
        Reply::Queued(_) => b"queued",
        Reply::Full => b"the queue is full",
        Reply::Spent => b"the operators' quota is used up",
        Reply::Closing => b"the gateway is closing",
        Reply::Bad(_) => b"the gateway can't read the line",
    }
}

fn fault_text(fault: AskFault) -> &'static [u8]
    ensures { result.now ≡ fault_text fault }
{
    match fault {
        AskFault::Unsent(SendFault::Unwritable) => b"no line can hold the command",
        AskFault::Unsent(SendFault::OutOfMemory) => b"out of memory",
        AskFault::WriteFault => b"the command can't be written",
        AskFault::ReadFault => b"no answer came in time",
        AskFault::Ended => b"the connection was closed before an answer",
        AskFault::TooLong | AskFault::NoAnswer => b"the answer is none of a gateway",
    }
}

// Appends what a command did, and to what.
fn push_done(out: &mut Vec<u8>, act: &Act<'_>) -> Result<(), AllocError>
    ensures { OnOk result (out.new.items ≡ out.old.items ++ (verb act.now ++ subject act.now)) }
{
    out.extend_from_slice(verb(act))?;
    push_subject(out, act)
}

// Appends that a command was queued as this number, which is all that is known.
fn push_unseen(out: &mut Vec<u8>, number: u64) -> Result<(), AllocError>
    ensures { OnOk result (out.new.items ≡ out.old.items ++ unseen number) }
{
    out.extend_from_slice(b", queued as ")?;
    push_number(out, number)?;
    out.extend_from_slice(b"; no page shows it")?;
    Ok(())
}

// Appends what a command is of, and why it was not done.
fn push_cause(out: &mut Vec<u8>, act: &Act<'_>, cause: &[u8]) -> Result<(), AllocError>
    ensures { OnOk result (out.new.items
        ≡ out.old.items ++ (subject act.now ++ codes ": " ++ cause.now)) }
{
    push_subject(out, act)?;
    out.extend_from_slice(b": ")?;
    out.extend_from_slice(cause)
}

/// Appends the line that reports how a command ended, without its end. The only error is out of
/// memory. Own rule.
pub fn push_message(out: &mut Vec<u8>, body: &Body, ending: Ending) -> Result<(), AllocError>
    ensures { OnOk result (out.new.items ≡ out.old.items ++ message body.now ending) }
{
    let act = body.act();
    match ending {
        Ending::Shown(effect) => {
            push_done(out, &act)?;
            push_details(out, &act, effect)
        }
        Ending::Unseen(number) => {
            push_done(out, &act)?;
            push_unseen(out, number)
        }
        Ending::NotShown => push_cause(out, &act, b"queued, and not shown in time"),
        Ending::Refused(outcome) => push_cause(out, &act, refusal_text(outcome).as_bytes()),
        Ending::NotQueued(reply) => push_cause(out, &act, reply_text(reply)),
        Ending::NoAnswer(fault) => push_cause(out, &act, fault_text(fault)),
    }
}
