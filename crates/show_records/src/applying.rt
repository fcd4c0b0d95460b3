use crate::printing::show_status;
use gate_applier::{Applier, Ready};
use gate_grammar::{Command, read_line};
use gate_model::Numbered;
use std::alloc::Global;
use std::io::Write;

fn command_of(alloc: Global, line: &[u8], shown: &mut Vec<u8>) -> Option<Command> {
    match read_line(alloc, line) {
        Ok(command) => Some(command),
        Err(fault) => {
            let _ = writeln!(shown, "read_line: {fault:?}");
            read_line(alloc, line).ok()
        }
    }
}

// Where it isn't prepared, what the applier then shows is printed.
fn prepared(alloc: Global, applier: Applier, shown: &mut Vec<u8>) -> Result<Ready, Applier> {
    match applier.prepare() {
        Ok(ready) => Ok(ready),
        Err(fault) => {
            let _ = writeln!(shown, "prepare: {:?}", fault.cause);
            show_status(alloc, &fault.applier, shown);
            fault.applier.prepare().map_err(|fault| fault.applier)
        }
    }
}

fn apply(alloc: Global, applier: Applier, command: Command, shown: &mut Vec<u8>) -> Applier {
    let number = applier.records().len() as u64 + 1;
    let item = Numbered {
        client: 1,
        number,
        body: command.body,
    };
    match prepared(alloc, applier, shown) {
        Ok(ready) => ready.apply(item, command.entered).0,
        Err(applier) => applier,
    }
}

/// Applies the command of each line, and prints the status page before the first and after each.
pub fn apply_lines(alloc: Global, applier: Applier, lines: &[u8], shown: &mut Vec<u8>) -> Applier {
    let mut applier = applier;
    show_status(alloc, &applier, shown);
    for line in lines.split(|byte| *byte == b'\n') {
        if line.is_empty() {
            continue;
        }
        if let Some(command) = command_of(alloc, line, shown) {
            applier = apply(alloc, applier, command, shown);
            show_status(alloc, &applier, shown);
        }
    }
    applier
}
