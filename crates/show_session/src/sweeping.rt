//! One stream served many times: once for each number of bytes, from none to all, after which it ends,
//! or after which every read fails.

use crate::printing::print_outcome;
use crate::serving::serve;
use crate::settings::Settings;
use gate_streams::Sink;
use std::alloc::Global;
use std::io;
use std::io::Write;

// The line of the stream that ends, or fails, after so many bytes.
fn line_of(
    alloc: Global,
    settings: &Settings,
    stream: &[u8],
    length: usize,
) -> io::Result<Vec<u8>> {
    let outcome = if settings.every_failure > 0 {
        let cut = u32::try_from(length).unwrap_or(u32::MAX);
        serve(alloc, &Settings { cut, ..*settings }, stream)?
    } else {
        serve(alloc, settings, &stream[..length.min(stream.len())])?
    };
    let mut line = Vec::new(alloc);
    print_outcome(alloc, outcome, Some(length), &mut line)?;
    Ok(line)
}

// Prints a line with the lengths that it is of.
fn print_span(
    alloc: Global,
    first: usize,
    last: usize,
    line: &[u8],
    output: &mut impl Sink,
) -> io::Result<()> {
    let mut span = Vec::new(alloc);
    if first == last {
        write!(span, "n = {first}: ")?;
    } else {
        write!(span, "n = {first} to {last}: ")?;
    }
    output.put(&span)?;
    output.put(line)
}

/// Serves the stream at each length, and prints a line for all lengths next to one another that come to
/// the same.
pub fn run_every(
    alloc: Global,
    settings: &Settings,
    stream: &[u8],
    output: &mut impl Sink,
) -> io::Result<()> {
    let mut first = 0;
    let mut line = line_of(alloc, settings, stream, 0)?;
    for length in 1..stream.len() + 1 {
        let next = line_of(alloc, settings, stream, length)?;
        if next.as_slice() != line.as_slice() {
            print_span(alloc, first, length - 1, &line, output)?;
            first = length;
            line = next;
        }
    }
    print_span(alloc, first, stream.len(), &line, output)
}
