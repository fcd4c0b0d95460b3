//! How a command ended.

ghost use Rattle.std.specs.Prelude.{◌≡◌, IfOk};
ghost use Rattle.status_export.specs.Document.{compact_text};
ghost use Rattle.status_export.specs.Lines.{value_json};
ghost use Rattle.operator_json.specs.Endings.{ending_json, id_of, outcome_json, outcome_word, state_of};

use gate_model::Body;
use operator_effects::{Ending, push_message};
use status_export::{Value, json_line};
use status_reading::state_name;
use std::alloc::{AllocError, Global};

fn outcome_word<'a>(ending: Ending) -> &'a str
    ensures { result.now ≡ outcome_word ending }
{
    match ending {
        Ending::Shown(_) => "shown",
        Ending::Unseen(_) => "unseen",
        Ending::NotShown => "not shown",
        Ending::Refused(_) => "refused",
        Ending::NotQueued(_) => "not queued",
        Ending::NoAnswer(_) => "no answer",
    }
}

fn id_of<'a>(ending: Ending) -> Value<'a>
    ensures { value_json result ≡ id_of ending }
{
    match ending {
        Ending::Shown(effect) => match effect.made {
            Some(made) => Value::Number(made.id()),
            None => Value::Null,
        },
        Ending::Unseen(_)
        | Ending::NotShown
        | Ending::Refused(_)
        | Ending::NotQueued(_)
        | Ending::NoAnswer(_) => Value::Null,
    }
}

fn state_of<'a>(ending: Ending) -> Value<'a>
    ensures { value_json result ≡ state_of ending }
{
    match ending {
        Ending::Shown(effect) => match effect.state {
            Some(state) => Value::Word(state_name(state)),
            None => Value::Null,
        },
        Ending::Unseen(_)
        | Ending::NotShown
        | Ending::Refused(_)
        | Ending::NotQueued(_)
        | Ending::NoAnswer(_) => Value::Null,
    }
}

fn outcome_json(alloc: Global, text: &str, ending: Ending) -> Result<Vec<u8>, AllocError>
    ensures { IfOk result (λ line. line.items ≡ compact_text (outcome_json text.now ending)) }
{
    json_line(
        alloc,
        &[
            ("status", Value::Number(u32::from(ending.status()))),
            ("outcome", Value::Word(outcome_word(ending))),
            ("id", id_of(ending)),
            ("state", state_of(ending)),
            ("message", Value::Word(text)),
        ],
    )
}

/// How a command ended, as an object of JSON on one line, without the line's end. The only error is
/// out of memory. Own rule: its members.
pub fn ending_json(alloc: Global, body: &Body, ending: Ending) -> Result<Vec<u8>, AllocError>
    ensures { IfOk result (λ line. line.items ≡ compact_text (ending_json body.now ending)) }
{
    let mut line = Vec::new(alloc);
    push_message(&mut line, body, ending)?;
    let text = String::from_utf8_lossy(alloc, line.as_slice())?;
    outcome_json(alloc, text.as_str(), ending)
}
