ghost use Rattle.std.specs.Prelude.{◌≡◌, ◌<◌, ◌==◌, length, position, IfSome};
ghost use Rattle.std.specs.Option.{option_map};
ghost use Rattle.gate_replay.specs.ScriptLine.{cut, number_field, code_field, value_of, parsed_object, parsed_open, parsed_clock, parsed_packet, parsed_form, parsed_with_word, parsed_script_line, IsInRange};

use gate_grammar::{read_code, read_number};
use gate_model::{GREATEST_AGE, MOST_CAPACITY, MOST_RECORDS, Moment};

/// The form in which a packet is sent: `data_packet` of NSCA 2.7 or 2.9, `common.h`.
#[derive(Clone, Copy)]
pub enum PacketForm {
    /// In 720 bytes, of which an output has 512.
    Short,
    /// In 4304 bytes, of which an output has 4096.
    Long,
}

/// A parsed line of a script. Its texts are those of the line.
#[derive(Clone, Copy)]
pub enum ScriptLine<'a> {
    /// A host, or a service of a host, with the seconds for which a result keeps it fresh.
    Object {
        threshold: u32,
        host: &'a [u8],
        service: Option<&'a [u8]>,
    },
    /// The line that opens: its moment, the greatest age of a packet in seconds, how many items the
    /// queue holds and how many records the log holds.
    Open {
        moment: Moment,
        age: u32,
        capacity: u32,
        limit: u32,
    },
    /// The clock is set.
    Clock {
        moment: Moment,
    },
    /// A packet arrives in this form.
    Packet {
        form: PacketForm,
        timestamp: Moment,
        code: i16,
        host: &'a [u8],
        service: &'a [u8],
        output: &'a [u8],
    },
    /// An operator's line arrives.
    Line {
        text: &'a [u8],
    },
    /// The status page is asked for.
    Page,
}

fn semicolon(text: &[u8]) -> Option<usize>
    ensures offset { result ≡ position (λ byte. byte == 59) text.now }
    ensures within { IfSome result (λ offset. offset < length text.now) }
{
    text.iter().position(|byte| *byte == b';')
}

// The text before the first semicolon, and the text after it.
#[tactic(auto, unfolding(crate::specs::ScriptLine::cut))]
fn cut(text: &[u8]) -> Option<(&[u8], &[u8])>
    ensures { option_map (λ pair. (pair.0.now, pair.1.now)) result ≡ cut text.now }
{
    match semicolon(text) {
        Some(offset) => Some((&text[..offset], &text[offset + 1..])),
        None => None,
    }
}

#[tactic(auto, unfolding(crate::specs::ScriptLine::number_field))]
fn number_field(text: &[u8]) -> Option<(u32, &[u8])>
    ensures { option_map (λ pair. (pair.0, pair.1.now)) result ≡ number_field text.now }
{
    let (field, rest) = cut(text)?;
    let number = read_number(field)?;
    Some((number, rest))
}

#[tactic(auto, unfolding(crate::specs::ScriptLine::code_field))]
fn code_field(text: &[u8]) -> Option<(i16, &[u8])>
    ensures { option_map (λ pair. (pair.0, pair.1.now)) result ≡ code_field text.now }
{
    let (field, rest) = cut(text)?;
    let code = read_code(field)?;
    Some((code, rest))
}

#[tactic(auto, unfolding(crate::specs::ScriptLine::parsed_object))]
fn read_object(text: &[u8]) -> Option<ScriptLine<'_>>
    ensures value { option_map value_of result ≡ parsed_object text.now }
    ensures in_range { IfSome result IsInRange }
{
    let (threshold, names) = number_field(text)?;
    let (host, service) = match cut(names) {
        Some((host, service)) => (host, Some(service)),
        None => (names, None),
    };
    Some(ScriptLine::Object {
        threshold,
        host,
        service,
    })
}

#[tactic(auto, unfolding(crate::specs::ScriptLine::parsed_open))]
fn read_open(text: &[u8]) -> Option<ScriptLine<'static>>
    ensures value { option_map value_of result ≡ parsed_open text.now }
    ensures in_range { IfSome result IsInRange }
{
    let (moment, rest) = number_field(text)?;
    let (age, rest) = number_field(rest)?;
    let (capacity, rest) = number_field(rest)?;
    let limit = read_number(rest)?;
    if age > GREATEST_AGE || capacity == 0 || capacity > MOST_CAPACITY {
        return None;
    }
    if limit == 0 || limit > MOST_RECORDS {
        return None;
    }
    Some(ScriptLine::Open {
        moment: Moment(moment),
        age,
        capacity,
        limit,
    })
}

#[tactic(auto, unfolding(crate::specs::ScriptLine::parsed_clock))]
fn read_clock(text: &[u8]) -> Option<ScriptLine<'static>>
    ensures value { option_map value_of result ≡ parsed_clock text.now }
    ensures in_range { IfSome result IsInRange }
{
    let moment = read_number(text)?;
    Some(ScriptLine::Clock {
        moment: Moment(moment),
    })
}

#[tactic(auto, unfolding(crate::specs::ScriptLine::parsed_packet))]
fn read_packet(form: PacketForm, text: &[u8]) -> Option<ScriptLine<'_>>
    ensures value { option_map value_of result ≡ parsed_packet form text.now }
    ensures in_range { IfSome result IsInRange }
{
    let (timestamp, rest) = number_field(text)?;
    let (code, rest) = code_field(rest)?;
    let (host, rest) = cut(rest)?;
    let (service, output) = cut(rest)?;
    Some(ScriptLine::Packet {
        form,
        timestamp: Moment(timestamp),
        code,
        host,
        service,
        output,
    })
}

#[tactic(auto, unfolding(crate::specs::ScriptLine::parsed_form))]
fn read_form<'a>(word: &[u8], text: &'a [u8]) -> Option<ScriptLine<'a>>
    ensures value { option_map value_of result ≡ parsed_form word.now text.now }
    ensures in_range { IfSome result IsInRange }
{
    if word == b"object".as_slice() {
        read_object(text)
    } else if word == b"open".as_slice() {
        read_open(text)
    } else if word == b"clock".as_slice() {
        read_clock(text)
    } else if word == b"packet".as_slice() {
        read_packet(PacketForm::Long, text)
    } else if word == b"short".as_slice() {
        read_packet(PacketForm::Short, text)
    } else if word == b"line".as_slice() {
        Some(ScriptLine::Line { text })
    } else {
        None
    }
}

#[tactic(auto, unfolding(crate::specs::ScriptLine::parsed_with_word))]
fn read_with_word(line: &[u8]) -> Option<ScriptLine<'_>>
    ensures value { option_map value_of result ≡ parsed_with_word line.now }
    ensures in_range { IfSome result IsInRange }
{
    let (word, text) = cut(line)?;
    read_form(word, text)
}

/// Parses a line of a script, without the LF that ends it.
///
/// It is None where the line has another form, or a number out of range: an age above 900 seconds,
/// a capacity of 0 or above 65,536, a limit of 0 or above 1,000,000. Own rules.
#[tactic(auto, unfolding(crate::specs::ScriptLine::parsed_script_line))]
pub fn read_script_line(line: &[u8]) -> Option<ScriptLine<'_>>
    ensures value { option_map value_of result ≡ parsed_script_line line.now }
    ensures in_range { IfSome result IsInRange }
{
    if line == b"page".as_slice() {
        Some(ScriptLine::Page)
    } else {
        read_with_word(line)
    }
}
