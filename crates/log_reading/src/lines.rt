//! The lines of a log page after the first, each without its LF.

ghost use Rattle.std.specs.Prelude.{◌≡◌, ◌<◌, ◌⊎◌, ◌++◌, ◌∷◌, ℕ, List, Some, codes, IfOk, IfSome, OnOk};
ghost use Rattle.std.specs.Bool.{Decides};
ghost use Rattle.std.specs.Fmt.{decimal};
ghost use Rattle.gate_model.specs.Record.{is_accepted};
ghost use Rattle.gate_grammar.specs.Canonical.{body_text};
ghost use Rattle.gate_lines.specs.LogPage.{outcome_name};
ghost use Rattle.status_reading.specs.Readable.{Fits};
ghost use Rattle.log_reading.specs.Log.{logged_line, stamp_text, line_front, IsReadableBody, IsReadable};
ghost use Rattle.log_reading.specs.inner.Gives.{Gives, Finds};
ghost use Rattle.log_reading.specs.inner.Lines.{IsStamp, stamp_by, outcome_among, stamped, with_outcome, LineView, line_view, view_of, content};

use crate::bodies::body_of;
use crate::cuts::{after, before, cut, cut_last, is_word, number};
use crate::logged::{Logged, Refusal};
use gate_grammar::write_body;
use gate_lines::outcome_name;
use gate_model::{Moment, Numbered, Outcome, Record, Text, push_escaped, push_number};
use status_reading::plain_bytes;
use std::alloc::{AllocError, Global};

/// When a record was applied, and whose submission it was.
#[derive(Clone, Copy)]
pub struct Stamp {
    pub moment: u32,
    pub client: u32,
    pub number: u32,
}

/// The fields of a line. The command still has the page's escapes.
#[derive(Clone, Copy)]
pub struct Line<'a> {
    pub stamp: Stamp,
    pub command: &'a [u8],
    pub outcome: Outcome,
}

const OUTCOMES: [Outcome; 13] = [
    Outcome::Accepted,
    Outcome::NoSuchHost,
    Outcome::NoSuchService,
    Outcome::PassiveDisabled,
    Outcome::NoServices,
    Outcome::NoSuchComment,
    Outcome::NoSuchDowntime,
    Outcome::WrongKind,
    Outcome::NoProblem,
    Outcome::NotAcknowledged,
    Outcome::BadWindow,
    Outcome::WindowPast,
    Outcome::NoSuchTrigger,
];

/// The first of these outcomes that has this name.
fn outcome_among(outcomes: &[Outcome], word: &[u8]) -> Option<Outcome>
    ensures { result ≡ outcome_among outcomes.now word.now }
{
    for outcome in outcomes {
        if outcome_name(*outcome) == word {
            return Some(*outcome);
        }
    }
    None
}

/// The outcome of this name.
fn outcome_named(word: &[u8]) -> Option<Outcome>
    ensures { (outcome : Outcome) → word.now ≡ outcome_name outcome → result ≡ Some outcome }
{
    outcome_among(&OUTCOMES, word)
}

fn is_accepted(outcome: Outcome) -> bool
    ensures { result ≡ is_accepted outcome }
{
    matches!(outcome, Outcome::Accepted)
}

/// The number before the first such byte, and what stands after it.
fn number_before(text: &[u8], mark: u8) -> Option<(u32, &[u8])>
    requires { (mark < 48) ⊎ (57 < mark) }
    ensures { (number : ℕ) (rest : List ℕ) → Fits number → text.now ≡ decimal number ++ mark ∷ rest
        → Finds result (λ found. (found.0 ≡ number) × (found.1.now ≡ rest)) }
{
    let (digits, rest) = cut(text, mark)?;
    let found = number(digits)?;
    Some((found, rest))
}

/// The moment, the client and the number before the command, and what stands after them.
fn stamp_of(line: &[u8]) -> Option<(Stamp, &[u8])>
    ensures { (stamp : Stamp) (rest : List ℕ) → IsStamp stamp → line.now ≡ stamped stamp rest
        → Finds result (λ found. (found.0 ≡ stamp) × (found.1.now ≡ rest)) }
{
    let opened = after(line, b"[")?;
    let (moment, closed) = number_before(opened, b']')?;
    let owner = after(closed, b" ")?;
    let (client, sent) = number_before(owner, b':')?;
    let (number, rest) = number_before(sent, b' ')?;
    let stamp = Stamp {
        moment,
        client,
        number,
    };
    Some((stamp, rest))
}

/// The command, and the outcome after it.
fn ending(text: &[u8]) -> Option<(&[u8], Outcome)>
    ensures { (command : List ℕ) (outcome : Outcome) → text.now ≡ with_outcome command outcome
        → Finds result (λ found. (found.0.now ≡ command) × (found.1 ≡ outcome)) }
{
    let (front, word) = cut_last(text, b' ')?;
    let command = before(front, b" ->")?;
    let outcome = outcome_named(word)?;
    Some((command, outcome))
}

/// The fields of a line.
fn fields(text: &[u8]) -> Option<Line<'_>>
    ensures { (line : LineView) → IsStamp line.stamp → text.now ≡ content line
        → Finds result (λ found. line_view found ≡ line) }
{
    let (stamp, rest) = stamp_of(text)?;
    let (command, outcome) = ending(rest)?;
    Some(Line {
        stamp,
        command,
        outcome,
    })
}

/// The record that took effect of a stamp and the text of its command, where it can be known.
fn accepted(alloc: Global, stamp: Stamp, text: &[u8]) -> Result<Option<Logged>, AllocError>
    ensures { (applied : Record) → IsReadableBody applied.item.body
        → text.now ≡ body_text applied.item.body → stamp ≡ stamp_by applied
        → Gives result (Logged.Accepted applied) }
{
    let found = body_of(alloc, text)?;
    match found {
        Some(body) => Ok(Some(Logged::Accepted(Record {
            moment: Moment(stamp.moment),
            item: Numbered {
                client: stamp.client,
                number: u64::from(stamp.number),
                body,
            },
        }))),
        None => Ok(None),
    }
}

/// The record of these fields, where it can be known from them.
fn logged_by(alloc: Global, line: Line<'_>) -> Result<Option<Logged>, AllocError>
    ensures { (one : Logged) → IsReadable one → line_view line.entry ≡ view_of one
        → Gives result one }
{
    let text = plain_bytes(alloc, line.command)?;
    if is_accepted(line.outcome) {
        return accepted(alloc, line.stamp, &text);
    }
    Ok(Some(Logged::Refused(Refusal {
        moment: Moment(line.stamp.moment),
        client: line.stamp.client,
        number: u64::from(line.stamp.number),
        outcome: line.outcome,
        command: Text::new(text),
    })))
}

/// Appends when a record was applied, and whose submission it was.
fn push_stamp(out: &mut Vec<u8>, moment: Moment, client: u32, number: u64) -> Result<(), AllocError>
    ensures { OnOk result (out.new.items ≡ out.old.items ++ stamp_text moment client number) }
{
    out.extend_from_slice(b"[")?;
    push_number(out, u64::from(moment.0))?;
    out.extend_from_slice(b"] ")?;
    push_number(out, u64::from(client))?;
    out.extend_from_slice(b":")?;
    push_number(out, number)?;
    out.extend_from_slice(b" ")
}

/// Appends the line of a record without its LF: its stamp, the text of its command, its outcome.
fn push_line(
    out: &mut Vec<u8>,
    moment: Moment,
    client: u32,
    number: u64,
    text: &[u8],
    outcome: Outcome,
) -> Result<(), AllocError>
    ensures { OnOk result (out.new.items
        ≡ out.old.items ++ line_front moment client number text.now outcome) }
{
    push_stamp(out, moment, client, number)?;
    push_escaped(out, text)?;
    out.extend_from_slice(b" -> ")?;
    out.extend_from_slice(outcome_name(outcome))
}

/// The line of a record, without its LF. The only error is out of memory.
pub fn line_of(alloc: Global, one: &Logged) -> Result<Vec<u8>, AllocError>
    ensures { IfOk result (λ line. line.items ++ codes "\n" ≡ logged_line one.now) }
{
    let mut out = Vec::new(alloc);
    match one {
        Logged::Accepted(record) => {
            let item = &record.item;
            let text = write_body(alloc, &item.body)?;
            push_line(
                &mut out,
                record.moment,
                item.client,
                item.number,
                &text,
                Outcome::Accepted,
            )?;
        }
        Logged::Refused(refusal) => push_line(
            &mut out,
            refusal.moment,
            refusal.client,
            refusal.number,
            refusal.command.bytes(),
            refusal.outcome,
        )?,
    }
    Ok(out)
}

/// Whether this is the line of the record, without its LF.
fn is_line_of(alloc: Global, text: &[u8], one: &Logged) -> Result<bool, AllocError>
    ensures { IfOk result (λ same. Decides same (text.now ++ codes "\n" ≡ logged_line one.now)) }
{
    let line = line_of(alloc, one)?;
    Ok(is_word(text, &line))
}

/// The record, where this is its line without its LF.
fn checked(alloc: Global, text: &[u8], one: Logged) -> Result<Option<Logged>, AllocError>
    ensures written { IfOk result (λ found. IfSome found (λ read.
        text.now ++ codes "\n" ≡ logged_line read)) }
    ensures read { text.now ++ codes "\n" ≡ logged_line one → Gives result one }
{
    match is_line_of(alloc, text, &one) {
        Ok(true) => Ok(Some(one)),
        Ok(false) => {
            drop(one);
            Ok(None)
        }
        Err(fault) => {
            drop(one);
            Err(fault)
        }
    }
}

/// The record of a line, where it is that of one.
pub fn read_record(alloc: Global, text: &[u8]) -> Result<Option<Logged>, AllocError>
    ensures written { IfOk result (λ found. IfSome found (λ one.
        text.now ++ codes "\n" ≡ logged_line one)) }
    ensures read { (one : Logged) → IsReadable one → text.now ++ codes "\n" ≡ logged_line one
        → Gives result one }
{
    let Some(line) = fields(text) else {
        return Ok(None);
    };
    let found = logged_by(alloc, line)?;
    match found {
        Some(one) => checked(alloc, text, one),
        None => Ok(None),
    }
}
