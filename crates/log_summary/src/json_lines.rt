//! A summary as JSON.

ghost use Rattle.std.specs.Prelude.{◌≡◌, ◌++◌, IfOk, OnOk, string_bytes};
ghost use Rattle.std.specs.List.{flat_map};
ghost use Rattle.status_export.specs.Document.{compact_text};
ghost use Rattle.status_export.specs.Lines.{value_json};
ghost use Rattle.log_summary.specs.Lines.{count_of, shown, counts_json, word_json, refusal_json, group_json, summary_json};
ghost use Rattle.log_summary.specs.inner.Groups.{values_in, groups_in};

use crate::counting::count;
use crate::hosts::{host_of, refusals};
use gate_lines::outcome_name;
use gate_model::Outcome;
use log_reading::{Logged, Refusal};
use status_export::{Value, json_line};
use std::alloc::{AllocError, Global};

fn shown<'a>(number: u64) -> Value<'a>
    ensures { value_json result ≡ shown number }
{
    Value::Number(u32::try_from(number).unwrap_or(u32::MAX))
}

fn counted<'a>(log: &[Logged], outcome: Outcome) -> Value<'a>
    ensures { value_json result ≡ shown (count_of log.now outcome) }
{
    shown(count(log, outcome) as u64)
}

fn counts_json(alloc: Global, log: &[Logged]) -> Result<Vec<u8>, AllocError>
    ensures { IfOk result (λ line. line.items ≡ compact_text (counts_json log.now)) }
{
    json_line(
        alloc,
        &[
            ("records", shown(log.len() as u64)),
            ("Accepted", counted(log, Outcome::Accepted)),
            ("NoSuchHost", counted(log, Outcome::NoSuchHost)),
            ("NoSuchService", counted(log, Outcome::NoSuchService)),
            ("PassiveDisabled", counted(log, Outcome::PassiveDisabled)),
            ("NoServices", counted(log, Outcome::NoServices)),
            ("NoSuchComment", counted(log, Outcome::NoSuchComment)),
            ("NoSuchDowntime", counted(log, Outcome::NoSuchDowntime)),
            ("WrongKind", counted(log, Outcome::WrongKind)),
            ("NoProblem", counted(log, Outcome::NoProblem)),
            ("NotAcknowledged", counted(log, Outcome::NotAcknowledged)),
            ("BadWindow", counted(log, Outcome::BadWindow)),
            ("WindowPast", counted(log, Outcome::WindowPast)),
            ("NoSuchTrigger", counted(log, Outcome::NoSuchTrigger)),
        ],
    )
}

fn word<'a>(text: &'a str) -> Value<'a>
    ensures { value_json result ≡ word_json text.entry.now }
{
    if text.is_empty() {
        Value::Null
    } else {
        Value::Word(text)
    }
}

// The texts of a record that was refused, with U+FFFD for bytes that are no UTF-8.
#[derive(Drop)]
struct Texts {
    host: String,
    command: String,
}

fn refusal_json(
    alloc: Global,
    count: usize,
    one: &Refusal,
    texts: &Texts,
) -> Result<Vec<u8>, AllocError>
    ensures { IfOk result (λ line. line.items ≡ compact_text (refusal_json count one.now
        (string_bytes texts.now.host) (string_bytes texts.now.command))) }
{
    json_line(
        alloc,
        &[
            ("outcome", Value::Field(outcome_name(one.outcome))),
            ("host", word(texts.host.as_str())),
            ("count", shown(count as u64)),
            ("moment", Value::Number(one.moment.0)),
            ("client", Value::Number(one.client)),
            ("number", shown(one.number)),
            ("command", Value::Word(texts.command.as_str())),
        ],
    )
}

// Appends the line of the refusals of a reason and a host.
fn push_group(alloc: Global, out: &mut Vec<u8>, group: &[&Logged]) -> Result<(), AllocError>
    ensures { OnOk result (out.new.items ≡ out.old.items ++ group_json (values_in group.now)) }
{
    let Some(last) = group.last() else {
        return Ok(());
    };
    let Logged::Refused(refusal) = *last else {
        return Ok(());
    };
    let texts = Texts {
        host: String::from_utf8_lossy(alloc, host_of(last))?,
        command: String::from_utf8_lossy(alloc, refusal.command.bytes())?,
    };
    let line = refusal_json(alloc, group.len(), refusal, &texts)?;
    out.extend_from_slice(&line)?;
    out.push(b'\n')?;
    Ok(())
}

fn push_groups(alloc: Global, out: &mut Vec<u8>, groups: &[Vec<&Logged>]) -> Result<(), AllocError>
    ensures { OnOk result
        (out.new.items ≡ out.old.items ++ flat_map group_json (groups_in groups.now)) }
{
    for group in groups {
        push_group(alloc, out, group)?;
    }
    Ok(())
}

/// An object of JSON (RFC 8259) that counts the records, how many there are and how many of each
/// outcome; and one of the refusals of each reason and host, with the last one; each on a line. The
/// only error is out of memory. Own rule: the members.
pub fn summary_json(alloc: Global, log: &[Logged]) -> Result<Vec<u8>, AllocError>
    ensures { IfOk result (λ text. text.items ≡ summary_json log.now) }
{
    let mut out = counts_json(alloc, log)?;
    out.extend_from_slice(b"\n")?;
    let groups = refusals(alloc, log)?;
    push_groups(alloc, &mut out, &groups)?;
    Ok(out)
}
