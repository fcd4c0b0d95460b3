//! The times of downtime, as words write them.

ghost use Rattle.std.specs.Prelude.{◌≡◌, ◌<◌, ◌^◌};
ghost use Rattle.operator_commands.specs.Times.{fitting, seconds_of, span_of, moment_or, moment_after, after_span, end_of, flexible_of, trigger_of, times_of};

use crate::bodies::{RequestFault, Times};
use crate::request::Window;
use gate_grammar::read_number;
use gate_model::{Moment, Text};

fn fitting(number: u64) -> Option<u32>
    ensures { result ≡ fitting number }
{
    if number < 1 << 32 {
        Some(number as u32)
    } else {
        None
    }
}

fn seconds_of(unit: u8, count: u32) -> Option<u32>
    ensures { result ≡ seconds_of unit count }
{
    let count = u64::from(count);
    if unit == b's' {
        fitting(count)
    } else if unit == b'm' {
        fitting(count * 60)
    } else if unit == b'h' {
        fitting(count * 3600)
    } else if unit == b'd' {
        fitting(count * 86400)
    } else {
        None
    }
}

/// Reads a span: a number, as of an id, and its unit, which is `s`, `m`, `h` or `d` of 24 hours. Its
/// seconds are below 2^32; any other text is none. Own rule.
pub fn read_span(text: &[u8]) -> Option<u32>
    ensures { result ≡ span_of text.now }
{
    if text.is_empty() {
        return None;
    }
    let last = text.len() - 1;
    match read_number(&text[..last]) {
        Some(count) => seconds_of(text[last], count),
        None => None,
    }
}

fn moment_or(default: Moment, text: &Option<Text>) -> Result<Moment, RequestFault>
    ensures { result ≡ moment_or default text.now }
{
    let Some(text) = text else {
        return Ok(default);
    };
    match read_number(text.bytes()) {
        Some(moment) => Ok(Moment(moment)),
        None => Err(RequestFault::BadTime),
    }
}

fn moment_after(starts: Moment, seconds: u32) -> Result<Moment, RequestFault>
    ensures { result ≡ moment_after starts seconds }
{
    match fitting(u64::from(starts.0) + u64::from(seconds)) {
        Some(moment) => Ok(Moment(moment)),
        None => Err(RequestFault::BadTime),
    }
}

fn after_span(starts: Moment, span: &[u8]) -> Result<Moment, RequestFault>
    ensures { result ≡ after_span starts span.now }
{
    match read_span(span) {
        Some(seconds) => moment_after(starts, seconds),
        None => Err(RequestFault::BadSpan),
    }
}

fn end_of(
    starts: Moment,
    lasts: &Option<Text>,
    until: &Option<Text>,
) -> Result<Moment, RequestFault>
    ensures { result ≡ end_of starts lasts.now until.now }
{
    match lasts {
        Some(span) => match until {
            Some(_) => Err(RequestFault::NoEnd),
            None => after_span(starts, span.bytes()),
        },
        None => match until {
            Some(_) => moment_or(starts, until),
            None => Err(RequestFault::NoEnd),
        },
    }
}

fn flexible_of(span: &Option<Text>) -> Result<Option<u32>, RequestFault>
    ensures { result ≡ flexible_of span.now }
{
    let Some(span) = span else {
        return Ok(None);
    };
    match read_span(span.bytes()) {
        Some(seconds) => Ok(Some(seconds)),
        None => Err(RequestFault::BadSpan),
    }
}

fn trigger_of(id: &Option<Text>) -> Result<u32, RequestFault>
    ensures { result ≡ trigger_of id.now }
{
    let Some(id) = id else {
        return Ok(0);
    };
    match read_number(id.bytes()) {
        Some(number) => Ok(number),
        None => Err(RequestFault::BadId),
    }
}

/// The times of a window that is asked for now: it starts now, unless `--from` is there, and ends by
/// one of `--for` and `--until`. Moments are in seconds since 1970.
///
/// The first fault of `--from`, the end, `--flexible` and `--trigger` is the error: `BadTime`,
/// `NoEnd`, `BadSpan` or `BadId`. Own rule.
pub fn times_of(now: Moment, window: &Window) -> Result<Times, RequestFault>
    ensures { result ≡ times_of now window.now }
{
    let starts = match moment_or(now, &window.from) {
        Ok(starts) => starts,
        Err(fault) => return Err(fault),
    };
    let ends = match end_of(starts, &window.lasts, &window.until) {
        Ok(ends) => ends,
        Err(fault) => return Err(fault),
    };
    let flexible = match flexible_of(&window.flexible) {
        Ok(flexible) => flexible,
        Err(fault) => return Err(fault),
    };
    match trigger_of(&window.trigger) {
        Ok(trigger) => Ok(Times {
            starts,
            ends,
            flexible,
            trigger,
        }),
        Err(fault) => Err(fault),
    }
}
