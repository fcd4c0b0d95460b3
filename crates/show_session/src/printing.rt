use crate::serving::Outcome;
use gate_core::{Event, Reply, World};
use gate_grammar::write_body;
use gate_model::{Moment, Numbered};
use gate_reader::{Answer, Stop};
use std::alloc::Global;
use std::io::Write;
use std::{fmt, io};

// Bytes, with an escape for each that is not printable ASCII, and for a backslash.
#[derive(Drop)]
struct Escaped<'a>(&'a [u8]);

impl fmt::Display for Escaped<'_> {
    fn fmt<W: fmt::Write>(&self, f: &mut fmt::Formatter<W>) -> fmt::Result {
        for byte in self.0 {
            match *byte {
                b'\n' => f.write_str("\\n")?,
                b'\\' => f.write_str("\\x5c")?,
                b' '..=b'~' => f.write_char(char::from(*byte))?,
                other => write!(f, "\\x{other:02x}")?,
            }
        }
        Ok(())
    }
}

fn print_answers(answers: &[Answer], output: &mut impl Write) -> io::Result<()> {
    for answer in answers {
        write!(output, " {answer:?}")?;
    }
    write!(output, " |")
}

fn print_written(written: &[u8], output: &mut impl Write) -> io::Result<()> {
    if !written.is_empty() {
        write!(output, " {}", Escaped(written))?;
    }
    write!(output, " |")
}

fn print_item(alloc: Global, item: &Numbered, output: &mut impl Write) -> io::Result<()> {
    let body = write_body(alloc, &item.body)?;
    write!(
        output,
        " {}:{} {}",
        item.client,
        item.number,
        Escaped(&body)
    )
}

// Prints the item that was taken: whether there was one.
fn print_taken(alloc: Global, reply: &Reply, output: &mut impl Write) -> io::Result<bool> {
    let Reply::Taken(item) = reply else {
        return Ok(false);
    };
    print_item(alloc, item, output)?;
    Ok(true)
}

// Takes and prints each item of the queue.
fn print_items(alloc: Global, world: &mut World, output: &mut impl Write) -> io::Result<()> {
    for _ in 0..65_536 {
        let reply = world.play(Event::Take);
        let printed = print_taken(alloc, &reply, output);
        drop(reply);
        if !printed? {
            break;
        }
    }
    Ok(())
}

// Prints the moment of the first close, if there was one.
fn print_close(world: &mut World, output: &mut impl Write) -> io::Result<()> {
    let reply = world.play(Event::Close(Moment(0)));
    let first = match &reply {
        Reply::AlreadyClosing(first) => Some(*first),
        _ => None,
    };
    drop(reply);
    match first {
        Some(first) => write!(output, " closed {}", first.0),
        None => Ok(()),
    }
}

// Prints why the session stopped; in one of many streams, which have n bytes, how many bytes are left
// over as a difference.
fn print_stop(stop: &Stop, length: Option<usize>, output: &mut impl Write) -> io::Result<()> {
    match (stop, length) {
        (Stop::Truncated(rest), Some(length)) if *rest <= length => {
            write!(output, "Truncated(n - {})", length - *rest)
        }
        _ => write!(output, "{stop:?}"),
    }
}

/// Prints the line of an outcome: of the one stream, or of the one of this length among many.
pub fn print_outcome(
    alloc: Global,
    outcome: Outcome,
    length: Option<usize>,
    output: &mut impl Write,
) -> io::Result<()> {
    let Outcome {
        report,
        written,
        mut world,
    } = outcome;
    print_stop(&report.stop, length, output)?;
    write!(output, " |")?;
    print_answers(report.answers.as_slice(), output)?;
    print_written(&written, output)?;
    print_items(alloc, &mut world, output)?;
    print_close(&mut world, output)?;
    writeln!(output)
}
