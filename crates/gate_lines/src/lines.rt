//! The lines of the status page and of the log page.

ghost use Rattle.std.specs.Prelude.{◌≡◌, ◌++◌, OnOk, length, IfOk, ◌∷◌};
ghost use Rattle.std.specs.List.{flat_map};
ghost use Rattle.gate_lines.specs.Lines.{state_name, last_moment, freshness_name, acknowledgement_name, source_name, persistence_digit, plan_name, object_line, comment_line, downtime_line, closing_line, service_text, optional_number};
ghost use Rattle.gate_lines.specs.LogPage.{outcome_name, stamp_of, log_line, log_text};
ghost use Rattle.std.specs.Fmt.{decimal};
ghost use Rattle.gate_model.specs.Escaping.{escaped};

use crate::rows::{CommentRow, DowntimeRow, ObjectRow};
use gate_grammar::push_body;
use gate_model::{
    Acknowledgement, CheckResult, Moment, Outcome, Record, Source, State, Text, push_escaped,
    push_number,
};
use std::alloc::{AllocError, Global};

/// The name of a state (Nagios Core 4 manual, Passive Checks).
pub fn state_name(state: State) -> &'static str
    ensures { result.now ≡ state_name state }
{
    match state {
        State::Pending => "PENDING",
        State::Ok => "OK",
        State::Warning => "WARNING",
        State::Critical => "CRITICAL",
        State::Unknown => "UNKNOWN",
        State::Up => "UP",
        State::Down => "DOWN",
        State::Unreachable => "UNREACHABLE",
    }
}

fn last_moment(last: Option<CheckResult>) -> Option<u32>
    ensures { result ≡ last_moment last }
{
    match last {
        None => None,
        Some(last) => Some(last.moment.0),
    }
}

fn freshness_name(stale: bool) -> &'static str
    ensures { result.now ≡ freshness_name stale }
{
    if stale { "stale" } else { "fresh" }
}

fn acknowledgement_name(acknowledgement: Option<Acknowledgement>) -> &'static str
    ensures { result.now ≡ acknowledgement_name acknowledgement }
{
    match acknowledgement {
        None => "-",
        Some(made) => { if made.sticky { "sticky" } else { "normal" } }
    }
}

fn source_name(source: Source) -> &'static str
    ensures { result.now ≡ source_name source }
{
    match source {
        Source::User => "user",
        Source::Ack => "ack",
        Source::Downtime(_) => "downtime",
    }
}

fn persistence_digit(persistent: bool) -> &'static str
    ensures { result.now ≡ persistence_digit persistent }
{
    if persistent { "1" } else { "0" }
}

/// The kind of a downtime entry, by whether it is fixed.
pub fn plan_name(fixed: bool) -> &'static str
    ensures { result.now ≡ plan_name fixed }
{
    if fixed { "fixed" } else { "flexible" }
}

fn push_object(out: &mut Vec<u8>, row: &ObjectRow) -> Result<(), AllocError>
    ensures { OnOk result (out.new.items ≡ out.old.items ++ object_line row.now) }
{
    out.extend_from_slice(b"object")?;
    push_text(out, &row.host)?;
    push_service(out, &row.service)?;
    push_word(out, state_name(row.state))?;
    push_optional(out, last_moment(row.last))?;
    push_word(out, freshness_name(row.stale))?;
    push_word(out, acknowledgement_name(row.acknowledgement))?;
    push_count(out, row.depth)?;
    push_text(out, &row.output)?;
    out.extend_from_slice(b"\n")
}

fn push_comment(out: &mut Vec<u8>, row: &CommentRow) -> Result<(), AllocError>
    ensures { OnOk result (out.new.items ≡ out.old.items ++ comment_line row.now) }
{
    out.extend_from_slice(b"comment")?;
    push_count(out, row.comment.id)?;
    push_text(out, &row.host)?;
    push_service(out, &row.service)?;
    push_word(out, source_name(row.comment.source))?;
    push_word(out, persistence_digit(row.comment.persistent))?;
    push_count(out, row.moment.0)?;
    push_text(out, &row.author)?;
    push_text(out, &row.text)?;
    out.extend_from_slice(b"\n")
}

fn push_downtime(out: &mut Vec<u8>, row: &DowntimeRow) -> Result<(), AllocError>
    ensures { OnOk result (out.new.items ≡ out.old.items ++ downtime_line row.now) }
{
    let plan = row.scheduled.plan;
    out.extend_from_slice(b"downtime")?;
    push_count(out, row.scheduled.id)?;
    push_text(out, &row.host)?;
    push_service(out, &row.service)?;
    push_word(out, plan_name(plan.fixed))?;
    push_count(out, plan.trigger)?;
    push_count(out, plan.starts.0)?;
    push_count(out, plan.ends.0)?;
    push_count(out, plan.lasts)?;
    push_optional(out, row.begin)?;
    push_text(out, &row.author)?;
    push_text(out, &row.text)?;
    out.extend_from_slice(b"\n")
}

/// Appends a line for each object.
pub fn push_objects(out: &mut Vec<u8>, rows: &[ObjectRow]) -> Result<(), AllocError>
    ensures { OnOk result (out.new.items ≡ out.old.items ++ flat_map object_line rows.now) }
{
    for row in rows {
        push_object(out, row)?;
    }
    Ok(())
}

/// Appends a line for each comment.
pub fn push_comments(out: &mut Vec<u8>, rows: &[CommentRow]) -> Result<(), AllocError>
    ensures { OnOk result (out.new.items ≡ out.old.items ++ flat_map comment_line rows.now) }
{
    for row in rows {
        push_comment(out, row)?;
    }
    Ok(())
}

/// Appends a line for each downtime entry.
pub fn push_downtimes(out: &mut Vec<u8>, rows: &[DowntimeRow]) -> Result<(), AllocError>
    ensures { OnOk result (out.new.items ≡ out.old.items ++ flat_map downtime_line rows.now) }
{
    for row in rows {
        push_downtime(out, row)?;
    }
    Ok(())
}

/// Appends the line of the close, where there is one.
pub fn push_closing(out: &mut Vec<u8>, closing: Option<Moment>) -> Result<(), AllocError>
    ensures { OnOk result (out.new.items ≡ out.old.items ++ closing_line closing) }
{
    match closing {
        None => Ok(()),
        Some(moment) => {
            out.extend_from_slice(b"closing")?;
            push_count(out, moment.0)?;
            out.extend_from_slice(b"\n")
        }
    }
}

/// The name by which a page shows an outcome.
pub fn outcome_name(outcome: Outcome) -> &'static [u8]
    ensures { result.now ≡ outcome_name outcome }
{
    match outcome {
        Outcome::Accepted => b"Accepted",
        Outcome::NoSuchHost => b"NoSuchHost",
        Outcome::NoSuchService => b"NoSuchService",
        Outcome::NoSuchComment => b"NoSuchComment",
        Outcome::NoSuchDowntime => b"NoSuchDowntime",
        Outcome::WrongKind => b"WrongKind",
        Outcome::NoProblem => b"NoProblem",
        Outcome::NotAcknowledged => b"NotAcknowledged",
        Outcome::BadWindow => b"BadWindow",
        Outcome::WindowPast => b"WindowPast",
        Outcome::NoSuchTrigger => b"NoSuchTrigger",
        Outcome::PassiveDisabled => b"PassiveDisabled",
        Outcome::NoServices => b"NoServices",
    }
}

/// Appends a record's moment, its client and its number, and a space.
fn push_stamp(out: &mut Vec<u8>, record: &Record) -> Result<(), AllocError>
    ensures { OnOk result (out.new.items ≡ out.old.items ++ stamp_of «record».now) }
{
    out.extend_from_slice(b"[")?;
    push_number(out, u64::from(record.moment.0))?;
    out.extend_from_slice(b"] ")?;
    push_number(out, u64::from(record.item.client))?;
    out.extend_from_slice(b":")?;
    push_number(out, record.item.number)?;
    out.extend_from_slice(b" ")
}

/// Appends the line of a record. What `body` holds is replaced by the text of the record's body.
fn push_line(
    out: &mut Vec<u8>,
    body: &mut Vec<u8>,
    record: &Record,
    outcome: Outcome,
) -> Result<(), AllocError>
    ensures { OnOk result (out.new.items ≡ out.old.items ++ log_line («record».now, outcome)) }
{
    body.clear();
    push_body(body, &record.item.body)?;
    push_stamp(out, record)?;
    push_escaped(out, body)?;
    out.extend_from_slice(b" -> ")?;
    out.extend_from_slice(outcome_name(outcome))?;
    out.extend_from_slice(b"\n")
}

/// Writes the log page: the number of records, then a line for each record in order, with its
/// outcome. It fails only where memory runs out. Own rule.
pub fn log_page(
    alloc: Global,
    records: &[Record],
    outcomes: &[Outcome],
) -> Result<Vec<u8>, AllocError>
    requires { length records.now ≡ length outcomes.now }
    ensures { IfOk result (λ page. page.items ≡ log_text records.now outcomes.now) }
{
    let mut page = Vec::from_slice(alloc, b"log ")?;
    push_number(&mut page, records.len() as u64)?;
    page.extend_from_slice(b"\n")?;
    let mut body = Vec::new(alloc);
    for (index, record) in records.iter().enumerate() {
        push_line(&mut page, &mut body, record, outcomes[index])?;
    }
    Ok(page)
}

/// Appends a field with a word of the page's own.
fn push_word(out: &mut Vec<u8>, word: &str) -> Result<(), AllocError>
    ensures { OnOk result (out.new.items ≡ out.old.items ++ 59 ∷ word.now) }
{
    out.extend_from_slice(b";")?;
    out.extend_from_slice(word.as_bytes())
}

/// Appends a field with a text, escaped.
fn push_text(out: &mut Vec<u8>, text: &Text) -> Result<(), AllocError>
    ensures { OnOk result (out.new.items ≡ out.old.items ++ 59 ∷ escaped text.now) }
{
    out.extend_from_slice(b";")?;
    push_escaped(out, text.bytes())
}

/// Appends a field with the name of a service, which is empty for a host.
fn push_service(out: &mut Vec<u8>, service: &Option<Text>) -> Result<(), AllocError>
    ensures { OnOk result (out.new.items ≡ out.old.items ++ 59 ∷ service_text service.now) }
{
    match service {
        None => out.extend_from_slice(b";"),
        Some(name) => push_text(out, name),
    }
}

/// Appends a field with a number.
fn push_count(out: &mut Vec<u8>, number: u32) -> Result<(), AllocError>
    ensures { OnOk result (out.new.items ≡ out.old.items ++ 59 ∷ decimal number) }
{
    out.extend_from_slice(b";")?;
    push_number(out, u64::from(number))
}

/// Appends a field with a number, or with `-` where there is none.
fn push_optional(out: &mut Vec<u8>, number: Option<u32>) -> Result<(), AllocError>
    ensures { OnOk result (out.new.items ≡ out.old.items ++ 59 ∷ optional_number number) }
{
    match number {
        None => out.extend_from_slice(b";-"),
        Some(number) => push_count(out, number),
    }
}
