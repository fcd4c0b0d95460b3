//! The objects of a page that `--state` and `--host` choose, and their lines.

ghost use Rattle.std.specs.Prelude.{◌≡◌, map, IfErr, IfOk};
ghost use Rattle.status_merge.specs.Asking.{asked_by};
ghost use Rattle.status_merge.specs.Selecting.{is_selected};
ghost use Rattle.operator_showing.specs.Choosing.{is_named, named_choice, choice_in, host_in, IsAskedFor, IsQueryFault, object_lines, chosen_text};

use gate_model::{State, Text};
use operator_setup::ControlFault;
use status_merge::{Choice, MergedObject, Query, choice_name, select};
use std::alloc::{AllocError, Global};

// What `--state` may be.
const CHOICES: [Choice; 12] = [
    Choice::All,
    Choice::Problems,
    Choice::Unhandled,
    Choice::Stale,
    Choice::In(State::Pending),
    Choice::In(State::Ok),
    Choice::In(State::Warning),
    Choice::In(State::Critical),
    Choice::In(State::Unknown),
    Choice::In(State::Up),
    Choice::In(State::Down),
    Choice::In(State::Unreachable),
];

fn is_named(choice: Choice, word: &[u8]) -> bool
    ensures { result ≡ is_named word.now choice }
{
    choice_name(choice).as_bytes().eq_ignore_ascii_case(word)
}

// The choice of a word, in any case.
fn named_choice(word: &[u8]) -> Option<Choice>
    ensures { result ≡ named_choice word.now }
{
    CHOICES
        .iter()
        .copied()
        .find(|choice| is_named(*choice, word))
}

fn choice_in(state: &Option<Text>) -> Option<Choice>
    ensures { result ≡ choice_in state.now }
{
    match state {
        Some(word) => named_choice(word.bytes()),
        None => Some(Choice::All),
    }
}

fn host_in(host: &Option<Text>) -> &[u8]
    ensures { result.now ≡ host_in host.now }
{
    match host {
        Some(text) => text.bytes(),
        None => b"",
    }
}

/// What `--state` and `--host` ask for. `BadState`: no choice has this word. `BadWords`: the text of a
/// host's name is no UTF-8.
pub(crate) fn query_in(
    alloc: Global,
    state: &Option<Text>,
    host: &Option<Text>,
) -> Result<Query, ControlFault>
    ensures asked { IfOk result (λ query. IsAskedFor state.now host.now (asked_by query)) }
    ensures fault { IfErr result (IsQueryFault state.now host.now) }
{
    let choice = choice_in(state).ok_or(ControlFault::BadState)?;
    let Ok(host) = str::from_utf8(host_in(host)) else {
        return Err(ControlFault::BadWords);
    };
    let mut query = Query::new(alloc, 0);
    query.choice = choice;
    query.host = String::from_str(alloc, host)?;
    Ok(query)
}

// Whether a query chooses an object.
fn is_chosen(alloc: Global, object: MergedObject<'_>, query: &Query) -> Result<bool, AllocError>
    ensures { IfOk result (λ is_chosen. is_chosen ≡ is_selected (asked_by query.now) object.entry) }
{
    Ok(!select(alloc, &[object], query)?.is_empty())
}

/// The lines of the objects of a page, each without its LF: those after the first line.
pub(crate) fn object_lines(alloc: Global, text: &[u8]) -> Result<Vec<&[u8]>, AllocError>
    ensures { IfOk result (λ lines. map (λ line. line.now) lines.items ≡ object_lines text.now) }
{
    text.split(|byte| *byte == b'\n').skip(1).collect(alloc)
}

/// The lines of those objects that a query chooses.
pub(crate) fn chosen_text(
    alloc: Global,
    lines: &[&[u8]],
    objects: &[MergedObject<'_>],
    query: &Query,
) -> Result<Vec<u8>, AllocError>
    ensures { IfOk result (λ text. text.items
        ≡ chosen_text (asked_by query.now) (map (λ line. line.now) lines.now) objects.now) }
{
    let mut text = Vec::new(alloc);
    for (line, object) in lines.iter().zip(objects.iter()) {
        if is_chosen(alloc, *object, query)? {
            text.extend_from_slice(line)?;
            text.push(b'\n')?;
        }
    }
    Ok(text)
}
