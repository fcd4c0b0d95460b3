//! Reads a configuration on standard input, and prints what it configures in one line: the three
//! addresses, the six limits, how many workers, and the lines of the object table, each
//! `HOST;SERVICE;THRESHOLD`; or why it configures nothing. With the byte RS, 1e, between them the
//! input holds several configurations, and a line is printed for each.
#![tactic(auto)]

use gate_config::{Address, Config, ConfigFault, read_config};
use gate_model::ObjectLine;
use std::alloc::Global;
use std::io;
use std::io::{BufRead, BufReader, BufWriter, Write};

fn show_address(address: &Address, output: &mut impl Write) -> io::Result<()> {
    output.write_all(address.text.bytes())?;
    write!(output, " {} ", address.socket)
}

fn show_object(line: &ObjectLine, output: &mut impl Write) -> io::Result<()> {
    output.write_all(b" ")?;
    output.write_all(line.host.bytes())?;
    output.write_all(b";")?;
    if let Some(service) = &line.service {
        output.write_all(service.bytes())?;
    }
    write!(output, ";{}", line.threshold)
}

fn show_objects(config: &Config, output: &mut impl Write) -> io::Result<()> {
    for place in 0..config.table.len() as u32 {
        if let Some(line) = config.table.line(place) {
            show_object(line, output)?;
        }
    }
    output.write_all(b"\n")
}

fn show_config(config: &Config, output: &mut impl Write) -> io::Result<()> {
    show_address(&config.agents, output)?;
    show_address(&config.operators, output)?;
    show_address(&config.pages, output)?;
    let limits = config.limits;
    write!(
        output,
        "{} {} {} {} {} {} {}",
        limits.capacity,
        limits.greatest_age,
        limits.items,
        limits.limit,
        limits.reads,
        limits.sessions,
        config.workers
    )?;
    show_objects(config, output)
}

fn show_fault(alloc: Global, fault: &ConfigFault, output: &mut impl Write) -> io::Result<()> {
    match fault.text(alloc) {
        Ok(text) => output.write_all(&text)?,
        Err(_) => output.write_all(b"OutOfMemory")?,
    }
    output.write_all(b"\n")
}

// Reads a configuration and shows it.
fn show(alloc: Global, text: &[u8], output: &mut impl Write) -> io::Result<()> {
    match read_config(alloc, text) {
        Ok(config) => show_config(&config, output),
        Err(fault) => show_fault(alloc, &fault, output),
    }
}

// ASCII's RS. No TOML holds it.
const RECORD_SEPARATOR: u8 = 0x1e;

// Reads a configuration: whether another one follows.
fn read_next(input: &mut impl BufRead, text: &mut Vec<u8>) -> io::Result<bool> {
    text.clear();
    input.read_until(RECORD_SEPARATOR, text)?;
    let is_followed = text.last() == Some(&RECORD_SEPARATOR);
    if is_followed {
        text.truncate(text.len() - 1);
    }
    Ok(is_followed)
}

fn show_all(alloc: Global, input: &mut impl BufRead, output: &mut impl Write) -> io::Result<()> {
    let mut text = Vec::new(alloc);
    for _ in 0..u64::MAX {
        let is_followed = read_next(input, &mut text)?;
        show(alloc, &text, output)?;
        if !is_followed {
            break;
        }
    }
    Ok(())
}

fn main(rt: HostRuntime) -> io::Result<()> {
    let mut input = BufReader::new(rt.alloc(), rt.stdin().lock())?;
    let mut output = BufWriter::new(rt.alloc(), rt.stdout().lock())?;
    show_all(rt.alloc(), &mut input, &mut output)?;
    output.flush()
}
