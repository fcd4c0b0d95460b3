use gate_applier::Applier;
use gate_model::{Moment, ObjectLine, Text};
use gate_table::ObjectTable;
use std::alloc::{AllocError, Global};
use std::io;
use std::io::{Error, ErrorKind, Write};

// The first line, and what follows it.
fn split_line(bytes: &[u8]) -> (&[u8], &[u8]) {
    match bytes.iter().position(|byte| *byte == b'\n') {
        Some(end) => (&bytes[..end], &bytes[end + 1..]),
        None => (bytes, &[]),
    }
}

// The object of a line `HOST` or `HOST;SERVICE`.
fn object_of(alloc: Global, line: &[u8]) -> Result<ObjectLine, AllocError> {
    let end = line.iter().position(|byte| *byte == b';');
    let (host, service) = match end {
        Some(end) => (&line[..end], Some(Text::copied(alloc, &line[end + 1..])?)),
        None => (line, None),
    };
    Ok(ObjectLine {
        host: Text::copied(alloc, host)?,
        service,
        threshold: 300,
    })
}

// The objects up to an empty line, and what follows it.
fn read_objects(alloc: Global, bytes: &[u8]) -> io::Result<(Vec<ObjectLine>, &[u8])> {
    let mut objects = Vec::new(alloc);
    let mut rest = bytes;
    for _ in 0..bytes.len() {
        let (line, next) = split_line(rest);
        rest = next;
        if line.is_empty() {
            break;
        }
        objects.push(object_of(alloc, line)?)?;
    }
    Ok((objects, rest))
}

fn build(alloc: Global, lines: Vec<ObjectLine>, shown: &mut Vec<u8>) -> io::Result<ObjectTable> {
    match ObjectTable::build(alloc, lines) {
        Ok(table) => Ok(table),
        Err(fault) => {
            let _ = writeln!(shown, "build: {:?}", fault.cause);
            ObjectTable::build(alloc, fault.lines).map_err(|_| Error::from(ErrorKind::InvalidInput))
        }
    }
}

/// An applier of the objects in the first lines, at the moment 1000, and what follows these lines.
pub fn open<'a>(
    alloc: Global,
    bytes: &'a [u8],
    shown: &mut Vec<u8>,
) -> io::Result<(Applier, &'a [u8])> {
    let (objects, rest) = read_objects(alloc, bytes)?;
    let table = build(alloc, objects, shown)?;
    match Applier::open(alloc, table, Moment(1000), 1000) {
        Ok(applier) => Ok((applier, rest)),
        Err(fault) => {
            let _ = writeln!(shown, "open: {:?}", fault.cause);
            match Applier::open(alloc, fault.table, Moment(1000), 1000) {
                Ok(applier) => Ok((applier, rest)),
                Err(_) => Err(Error::from(ErrorKind::OutOfMemory)),
            }
        }
    }
}
