ghost use Rattle.std.specs.Prelude.{◌≡◌, IfOk, OnOk, count_by};
ghost use Rattle.gate_streams.specs.Sink.{Delivers};
ghost use Rattle.config_testing.specs.Tested.{IsTested, good_line, is_host, is_service};

use gate_config::{Config, ConfigFault, Key, read_config};
use gate_model::{Text, push_escaped, push_number};
use gate_streams::Sink;
use gate_table::{ObjectTable, TableFault};
use near_words::nearest;
use operator_setup::{ControlFault, print, read_configuration};
use std::alloc::{AllocError, Global};
use std::fs::Files;
use toml::{Table, Value};

// How many lines a value may go over, so that the line of a later fault is found.
const LONGEST_VALUE: usize = 100;

// The text by which the reading of a document is refused; None where it isn't.
fn fault_in(alloc: Global, text: &[u8]) -> Result<Option<Vec<u8>>, AllocError> {
    match read_config(alloc, text) {
        Ok(_) => Ok(None),
        Err(fault) => Ok(Some(fault.text(alloc)?)),
    }
}

// Whether the reading of a document has this fault; None where a document ends before it.
fn has_fault(alloc: Global, text: &[u8], fault: &[u8]) -> Result<Option<bool>, AllocError> {
    let Some(found) = fault_in(alloc, text)? else {
        return Ok(Some(false));
    };
    if found.as_slice() == fault {
        Ok(Some(true))
    } else if found.as_slice() == b"NotToml".as_slice() {
        Ok(None)
    } else {
        Ok(Some(false))
    }
}

// Where each line of a text ends, and its number from 1. By tables: where the lines of each table
// end, and the number of its first line.
fn ends_of(alloc: Global, text: &[u8], by_tables: bool) -> Result<Vec<(usize, usize)>, AllocError> {
    let mut ends = Vec::new(alloc);
    let mut line = 1usize;
    let mut first = 1usize;
    for (index, byte) in text.iter().enumerate() {
        if *byte == b'\n' {
            line = line.saturating_add(1);
            let begins_table = match text.get(index.saturating_add(1)) {
                Some(next) => *next == b'[',
                None => false,
            };
            if begins_table || !by_tables {
                ends.push((index, first))?;
                first = line;
            }
        }
    }
    ends.push((text.len(), first))?;
    Ok(ends)
}

// Whether the first of these beginnings of a text that is a document has the fault.
fn begins_faulty(
    alloc: Global,
    text: &[u8],
    ends: &[(usize, usize)],
    fault: &[u8],
) -> Result<bool, AllocError> {
    for end in ends.iter().take(LONGEST_VALUE) {
        let Some(beginning) = text.get(..end.0) else {
            return Ok(true);
        };
        if let Some(is_faulty) = has_fault(alloc, beginning, fault)? {
            return Ok(is_faulty);
        }
    }
    Ok(true)
}

// Which of these ends, from 1, is the first whose beginning of the text has the fault.
fn first_faulty(
    alloc: Global,
    text: &[u8],
    ends: &[(usize, usize)],
    fault: &[u8],
) -> Result<usize, AllocError> {
    let mut good = 0usize;
    let mut faulty = ends.len();
    for _ in 0..u64::BITS {
        let middle = good.saturating_add(faulty.saturating_sub(good) / 2);
        if middle <= good {
            return Ok(faulty);
        }
        let Some(rest) = ends.get(middle.saturating_sub(1)..) else {
            return Ok(faulty);
        };
        if begins_faulty(alloc, text, rest, fault)? {
            faulty = middle;
        } else {
            good = middle;
        }
    }
    Ok(faulty)
}

// The number of the line, from 1, with which the fault of a document begins: the lines before it are
// read without it. A table's name may come in each of its lines: that it is missing begins with the
// table.
fn fault_line(
    alloc: Global,
    text: &[u8],
    fault: &[u8],
    is_missing_name: bool,
) -> Result<usize, AllocError> {
    let ends = ends_of(alloc, text, is_missing_name)?;
    let faulty = first_faulty(alloc, text, ends.as_slice(), fault)?;
    match ends.as_slice().get(faulty.saturating_sub(1)) {
        Some(end) => Ok(end.1),
        None => Ok(faulty),
    }
}

// The keys of all tables.
fn keys() -> [&'static str; 14] {
    [
        Key::Agents.name(),
        Key::Operators.name(),
        Key::Pages.name(),
        Key::Capacity.name(),
        Key::GreatestAge.name(),
        Key::Items.name(),
        Key::Limit.name(),
        Key::Reads.name(),
        Key::Sessions.name(),
        Key::Host.name(),
        Key::Workers.name(),
        Key::Name.name(),
        Key::Freshness.name(),
        Key::Service.name(),
    ]
}

fn push_suggestion(alloc: Global, out: &mut Vec<u8>, key: &str) -> Result<(), AllocError> {
    if let Some(word) = nearest(alloc, key, keys().as_slice())? {
        out.extend_from_slice(b": did you mean ")?;
        out.extend_from_slice(word.as_bytes())?;
    }
    Ok(())
}

fn name_of(value: &Value) -> &str {
    match value.get("name") {
        Some(name) => name.as_str().unwrap_or(""),
        None => "",
    }
}

fn values_at<'a>(value: &'a Value, key: &str) -> &'a [Value] {
    match value.get(key) {
        Some(Value::Array(values)) => values.as_slice(),
        _ => &[],
    }
}

// Appends the names of the object of a number, counted from this one on: of the host or one of its
// services. Returns the number that is left.
fn push_object(out: &mut Vec<u8>, host: &Value, number: u32) -> Result<u32, AllocError> {
    let mut left = number;
    if left == 1 {
        out.extend_from_slice(b": ")?;
        push_escaped(out, name_of(host).as_bytes())?;
    }
    left = left.saturating_sub(1);
    for service in values_at(host, "service") {
        if left == 1 {
            out.extend_from_slice(b": ")?;
            push_escaped(out, name_of(host).as_bytes())?;
            out.extend_from_slice(b" ")?;
            push_escaped(out, name_of(service).as_bytes())?;
        }
        left = left.saturating_sub(1);
    }
    Ok(left)
}

// Appends the names of object N of a document.
fn push_names(
    alloc: Global,
    out: &mut Vec<u8>,
    text: &[u8],
    number: u32,
) -> Result<(), AllocError> {
    let Ok(document) = toml::table_from_slice(alloc, text) else {
        return Ok(());
    };
    let Some(Value::Array(hosts)) = document.get("host") else {
        return Ok(());
    };
    let mut left = number;
    for host in hosts {
        left = push_object(out, host, left)?;
    }
    Ok(())
}

fn line_of(cause: TableFault) -> u32 {
    match cause {
        TableFault::BadName(line)
        | TableFault::NoSuchHost(line)
        | TableFault::DuplicateHost(line)
        | TableFault::DuplicateService(line)
        | TableFault::TooMany(line) => line,
        TableFault::OutOfMemory => 0,
    }
}

// Appends what helps to mend a fault.
fn push_help(
    alloc: Global,
    out: &mut Vec<u8>,
    text: &[u8],
    fault: &ConfigFault,
) -> Result<(), AllocError> {
    match fault {
        ConfigFault::UnknownKey(key) => push_suggestion(alloc, out, key.as_str()),
        ConfigFault::Object(cause) => push_names(alloc, out, text, line_of(*cause)),
        _ => Ok(()),
    }
}

// The cause why a file is no configuration: `FILE line N: FAULT`, and what helps.
fn cause(
    alloc: Global,
    file: &[u8],
    text: &[u8],
    fault: &ConfigFault,
) -> Result<Vec<u8>, AllocError> {
    let words = fault.text(alloc)?;
    let mut cause = Vec::from_slice(alloc, file)?;
    if !matches!(fault, ConfigFault::TooLarge | ConfigFault::OutOfMemory) {
        cause.extend_from_slice(b" line ")?;
        let is_missing_name = matches!(fault, ConfigFault::MissingName);
        let line = fault_line(alloc, text, words.as_slice(), is_missing_name)?;
        push_number(&mut cause, line as u64)?;
    }
    cause.extend_from_slice(b": ")?;
    cause.extend_from_slice(words.as_slice())?;
    push_help(alloc, &mut cause, text, fault)?;
    Ok(cause)
}

// How many hosts and how many services are configured.
fn counted(table: &ObjectTable) -> (u32, u32)
    ensures hosts { result.0 ≡ count_by is_host table.now }
    ensures services { result.1 ≡ count_by is_service table.now }
{
    let mut hosts = 0;
    let mut services = 0;
    for place in 0..table.len() as u32 {
        if let Some(line) = table.line(place) {
            if line.service.is_some() {
                services += 1;
            } else {
                hosts += 1;
            }
        }
    }
    (hosts, services)
}

// The line of a file that is a configuration.
fn good_line(alloc: Global, file: &[u8], table: &ObjectTable) -> Result<Vec<u8>, AllocError>
    ensures { IfOk result (λ line. line.items ≡ good_line file.now table.now) }
{
    let (hosts, services) = counted(table);
    let mut line = Vec::from_slice(alloc, file)?;
    line.extend_from_slice(b": ")?;
    push_number(&mut line, u64::from(hosts))?;
    line.extend_from_slice(b" hosts, ")?;
    push_number(&mut line, u64::from(services))?;
    line.extend_from_slice(b" services\n")?;
    Ok(line)
}

// Prints the line of a file that is a configuration, and returns the exit status.
fn print_good<W: Sink>(
    alloc: Global,
    file: &[u8],
    table: &ObjectTable,
    output: &mut W,
) -> Result<u8, ControlFault>
    ensures status { IfOk result (λ status. status ≡ 0) }
    ensures printed { OnOk result (Delivers (W.state output.old) (W.state output.new)
        (good_line file.now table.now)) }
{
    let line = good_line(alloc, file, table)?;
    print(output, line.as_slice())?;
    Ok(0)
}

// Why a file is no configuration.
fn refusal(alloc: Global, file: &[u8], text: &[u8], fault: &ConfigFault) -> ControlFault {
    match cause(alloc, file, text, fault) {
        Ok(cause) => ControlFault::BadFile(Text::new(cause)),
        Err(fault) => fault.into(),
    }
}

/// Reads a configuration as the daemon does, and prints how many objects it has. A fault is reported
/// with its line, and nothing is bound.
pub fn test_config<F: Files, W: Sink>(
    files: &F,
    alloc: Global,
    file: &Text,
    output: &mut W,
) -> Result<u8, ControlFault>
    ensures status { IfOk result (λ status. status ≡ 0) }
    ensures tested { IfOk result (λ _.
        IsTested file.now (W.state output.old) (W.state output.new)) }
{
    let Ok(path) = str::from_utf8(file.bytes()) else {
        return Err(ControlFault::Unreadable);
    };
    let text = read_configuration(files, alloc, path)?;
    match read_config(alloc, text.as_slice()) {
        Ok(config) => print_good(alloc, file.bytes(), &config.table, output),
        Err(fault) => Err(refusal(alloc, file.bytes(), text.as_slice(), &fault)),
    }
}
