//! A change between two pages.

ghost use Rattle.std.specs.Prelude.{◌≡◌, IfOk};
ghost use Rattle.gate_lines.specs.Lines.{freshness_name};
ghost use Rattle.status_reading.specs.Page.{shown_acknowledgement};
ghost use Rattle.status_export.specs.Document.{compact_text, service_json};
ghost use Rattle.status_export.specs.Lines.{value_json};
ghost use Rattle.operator_json.specs.Changes.{after_of, author_of, before_of, change_json, host_of, id_of, kind_word, service_of, text_of};

use page_changes::Change;
use status_export::{Value, json_line};
use status_reading::{ShownAcknowledgement, state_name};
use std::alloc::{AllocError, Global};

fn kind_word<'a>(change: &Change<'a>) -> &'a str
    ensures { result.now ≡ kind_word change.now }
{
    match change {
        Change::OtherObjects => "objects",
        Change::State(..) => "state",
        Change::Staleness(..) => "freshness",
        Change::Acknowledgement(..) => "acknowledgement",
        Change::Depth(..) => "depth",
        Change::CommentGone(_) => "comment gone",
        Change::CommentMade(_) => "comment",
        Change::DowntimeGone(_) => "downtime gone",
        Change::DowntimeMade(_) => "downtime",
        Change::Closing(_) => "closing",
    }
}

fn host_of<'a>(change: &Change<'a>) -> Value<'a>
    ensures { value_json result ≡ host_of change.now }
{
    match change {
        Change::State(_, other)
        | Change::Staleness(_, other)
        | Change::Acknowledgement(_, other)
        | Change::Depth(_, other) => Value::Field(other.host),
        Change::CommentGone(row) | Change::CommentMade(row) => Value::Field(row.host),
        Change::DowntimeGone(row) | Change::DowntimeMade(row) => Value::Field(row.host),
        Change::OtherObjects | Change::Closing(_) => Value::Null,
    }
}

fn service_value(service: &[u8]) -> Value<'_>
    ensures { value_json result ≡ service_json service.now }
{
    if service.is_empty() {
        Value::Null
    } else {
        Value::Field(service)
    }
}

fn service_of<'a>(change: &Change<'a>) -> Value<'a>
    ensures { value_json result ≡ service_of change.now }
{
    match change {
        Change::State(_, other)
        | Change::Staleness(_, other)
        | Change::Acknowledgement(_, other)
        | Change::Depth(_, other) => service_value(other.service),
        Change::CommentGone(row) | Change::CommentMade(row) => service_value(row.service),
        Change::DowntimeGone(row) | Change::DowntimeMade(row) => service_value(row.service),
        Change::OtherObjects | Change::Closing(_) => Value::Null,
    }
}

fn id_of<'a>(change: &Change<'a>) -> Value<'a>
    ensures { value_json result ≡ id_of change.now }
{
    match change {
        Change::CommentGone(row) | Change::CommentMade(row) => Value::Number(row.id),
        Change::DowntimeGone(row) | Change::DowntimeMade(row) => Value::Number(row.id),
        Change::OtherObjects
        | Change::State(..)
        | Change::Staleness(..)
        | Change::Acknowledgement(..)
        | Change::Depth(..)
        | Change::Closing(_) => Value::Null,
    }
}

fn freshness_word(stale: bool) -> &'static str
    ensures { result.now ≡ freshness_name stale }
{
    if stale { "stale" } else { "fresh" }
}

fn acknowledgement_word(shown: ShownAcknowledgement) -> &'static str
    ensures { result.now ≡ shown_acknowledgement shown }
{
    match shown {
        ShownAcknowledgement::Missing => "-",
        ShownAcknowledgement::Normal => "normal",
        ShownAcknowledgement::Sticky => "sticky",
    }
}

fn before_of<'a>(change: &Change<'a>) -> Value<'a>
    ensures { value_json result ≡ before_of change.now }
{
    match change {
        Change::State(one, _) => Value::Word(state_name(one.state)),
        Change::Staleness(one, _) => Value::Word(freshness_word(one.stale)),
        Change::Acknowledgement(one, _) => Value::Word(acknowledgement_word(one.acknowledgement)),
        Change::Depth(one, _) => Value::Number(one.depth),
        Change::OtherObjects
        | Change::CommentGone(_)
        | Change::CommentMade(_)
        | Change::DowntimeGone(_)
        | Change::DowntimeMade(_)
        | Change::Closing(_) => Value::Null,
    }
}

fn after_of<'a>(change: &Change<'a>) -> Value<'a>
    ensures { value_json result ≡ after_of change.now }
{
    match change {
        Change::State(_, other) => Value::Word(state_name(other.state)),
        Change::Staleness(_, other) => Value::Word(freshness_word(other.stale)),
        Change::Acknowledgement(_, other) => {
            Value::Word(acknowledgement_word(other.acknowledgement))
        }
        Change::Depth(_, other) => Value::Number(other.depth),
        Change::OtherObjects
        | Change::CommentGone(_)
        | Change::CommentMade(_)
        | Change::DowntimeGone(_)
        | Change::DowntimeMade(_)
        | Change::Closing(_) => Value::Null,
    }
}

fn author_of<'a>(change: &Change<'a>) -> Value<'a>
    ensures { value_json result ≡ author_of change.now }
{
    match change {
        Change::CommentGone(row) | Change::CommentMade(row) => Value::Field(row.author),
        Change::DowntimeGone(row) | Change::DowntimeMade(row) => Value::Field(row.author),
        Change::OtherObjects
        | Change::State(..)
        | Change::Staleness(..)
        | Change::Acknowledgement(..)
        | Change::Depth(..)
        | Change::Closing(_) => Value::Null,
    }
}

fn text_of<'a>(change: &Change<'a>) -> Value<'a>
    ensures { value_json result ≡ text_of change.now }
{
    match change {
        Change::State(_, other) => Value::Field(other.output),
        Change::CommentGone(row) | Change::CommentMade(row) => Value::Field(row.text),
        Change::DowntimeGone(row) | Change::DowntimeMade(row) => Value::Field(row.text),
        Change::OtherObjects
        | Change::Staleness(..)
        | Change::Acknowledgement(..)
        | Change::Depth(..)
        | Change::Closing(_) => Value::Null,
    }
}

/// A change as an object of JSON on one line, without the line's end, with the moment of the page
/// after it, in seconds since 1970. The only error is out of memory. Own rule: its members.
pub fn change_json(alloc: Global, moment: u32, change: &Change<'_>) -> Result<Vec<u8>, AllocError>
    ensures { IfOk result (λ line.
        line.items ≡ compact_text (change_json moment change.now)) }
{
    json_line(
        alloc,
        &[
            ("moment", Value::Number(moment)),
            ("change", Value::Word(kind_word(change))),
            ("host", host_of(change)),
            ("service", service_of(change)),
            ("id", id_of(change)),
            ("before", before_of(change)),
            ("after", after_of(change)),
            ("author", author_of(change)),
            ("text", text_of(change)),
        ],
    )
}
