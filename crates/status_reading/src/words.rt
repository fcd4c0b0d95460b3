//! Fields with a number or a word of the page.

ghost use Rattle.std.specs.Prelude.{◌≡◌, IfSome};
ghost use Rattle.std.specs.Bool.{Decides};
ghost use Rattle.std.specs.Fmt.{decimal};
ghost use Rattle.gate_lines.specs.Lines.{state_name, optional_number, freshness_name, persistence_digit, plan_name};
ghost use Rattle.status_reading.specs.Page.{shown_acknowledgement, shown_source};
ghost use Rattle.status_reading.specs.Readable.{Fits, MayFit};
ghost use Rattle.status_reading.specs.inner.Reading.{Reads, Names};

use crate::rows::{ShownAcknowledgement, ShownSource};
use gate_grammar::read_number;
use gate_lines::{plan_name, state_name};
use gate_model::State;
use itoa::Buffer;

/// Whether a field shows this number, without leading zeros.
fn shows(field: &[u8], number: u32) -> bool
    ensures { Decides result (field.now ≡ decimal number) }
{
    let mut digits = Buffer::new();
    digits.format(number).as_bytes() == field
}

/// The number that a field shows, without leading zeros.
pub fn number(field: &[u8]) -> Option<u32>
    ensures { Reads Fits decimal field.now result }
{
    match read_number(field) {
        Some(number) => {
            if shows(field, number) {
                Some(number)
            } else {
                None
            }
        }
        None => None,
    }
}

/// The number that a field shows, or that it shows none.
pub fn optional_number(field: &[u8]) -> Option<Option<u32>>
    ensures { Reads MayFit optional_number field.now result }
{
    if field == b"-".as_slice() {
        return Some(None);
    }
    match number(field) {
        Some(number) => Some(Some(number)),
        None => None,
    }
}

fn is_state(field: &[u8], state: State) -> bool
    ensures { Decides result (field.now ≡ state_name state) }
{
    field == state_name(state).as_bytes()
}

/// The state that a field names.
pub fn state(field: &[u8]) -> Option<State>
    ensures { Names state_name field.now result }
{
    if is_state(field, State::Pending) {
        Some(State::Pending)
    } else if is_state(field, State::Ok) {
        Some(State::Ok)
    } else if is_state(field, State::Warning) {
        Some(State::Warning)
    } else if is_state(field, State::Critical) {
        Some(State::Critical)
    } else if is_state(field, State::Unknown) {
        Some(State::Unknown)
    } else if is_state(field, State::Up) {
        Some(State::Up)
    } else if is_state(field, State::Down) {
        Some(State::Down)
    } else if is_state(field, State::Unreachable) {
        Some(State::Unreachable)
    } else {
        None
    }
}

/// Whether an object is stale.
pub fn stale(field: &[u8]) -> Option<bool>
    ensures { Names freshness_name field.now result }
{
    if field == b"stale".as_slice() {
        Some(true)
    } else if field == b"fresh".as_slice() {
        Some(false)
    } else {
        None
    }
}

/// Whether a problem is acknowledged, and how.
pub fn acknowledgement(field: &[u8]) -> Option<ShownAcknowledgement>
    ensures { Names shown_acknowledgement field.now result }
{
    if field == b"-".as_slice() {
        Some(ShownAcknowledgement::Missing)
    } else if field == b"normal".as_slice() {
        Some(ShownAcknowledgement::Normal)
    } else if field == b"sticky".as_slice() {
        Some(ShownAcknowledgement::Sticky)
    } else {
        None
    }
}

/// Where a comment comes from, by the page's word.
pub fn source_word(source: ShownSource) -> &'static str
    ensures { result.now ≡ shown_source source }
{
    match source {
        ShownSource::User => "user",
        ShownSource::Acknowledgement => "ack",
        ShownSource::Downtime => "downtime",
    }
}

fn is_source(field: &[u8], source: ShownSource) -> bool
    ensures { Decides result (field.now ≡ shown_source source) }
{
    field == source_word(source).as_bytes()
}

/// Where a comment comes from.
pub fn source(field: &[u8]) -> Option<ShownSource>
    ensures { Names shown_source field.now result }
{
    if is_source(field, ShownSource::User) {
        Some(ShownSource::User)
    } else if is_source(field, ShownSource::Acknowledgement) {
        Some(ShownSource::Acknowledgement)
    } else if is_source(field, ShownSource::Downtime) {
        Some(ShownSource::Downtime)
    } else {
        None
    }
}

/// Whether a comment is persistent.
pub fn persistent(field: &[u8]) -> Option<bool>
    ensures { Names persistence_digit field.now result }
{
    if field == b"1".as_slice() {
        Some(true)
    } else if field == b"0".as_slice() {
        Some(false)
    } else {
        None
    }
}

/// Whether a downtime entry is fixed.
pub fn fixed(field: &[u8]) -> Option<bool>
    ensures { Names plan_name field.now result }
{
    if field == plan_name(true).as_bytes() {
        Some(true)
    } else if field == plan_name(false).as_bytes() {
        Some(false)
    } else {
        None
    }
}
