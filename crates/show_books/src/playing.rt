ghost use Rattle.std.specs.Prelude.{◌≡◌, ◌≢◌, length, IfOk};

use crate::comments::play_comments;
use crate::downtime::play_downtime;
use crate::objects::play_objects;
use crate::steps::{Step, step_of};
use gate_comments::CommentBook;
use gate_downtime::DowntimeBook;
use gate_model::{Moment, ObjectLine, Text};
use gate_objects::ObjectBook;
use gate_table::ObjectTable;
use std::alloc::{AllocError, Global};
use std::io;
use std::io::{Error, ErrorKind, Write};

// The books of the host `web1` and its service `HTTP`.
#[derive(Drop)]
struct Books {
    objects: ObjectBook,
    comments: CommentBook,
    downtime: DowntimeBook,
}

fn line(alloc: Global, service: Option<Text>) -> Result<ObjectLine, AllocError> {
    Ok(ObjectLine {
        host: Text::copied(alloc, b"web1")?,
        service,
        threshold: 300,
    })
}

fn table(alloc: Global) -> io::Result<ObjectTable>
    ensures { IfOk result (λ table. length table ≡ 2) }
{
    let service = Text::copied(alloc, b"HTTP")?;
    let lines = vec![in alloc; line(alloc, None)?, line(alloc, Some(service))?]?;
    match ObjectTable::build(alloc, lines) {
        Ok(table) => Ok(table),
        Err(_) => Err(Error::from(ErrorKind::OutOfMemory)),
    }
}

fn open(alloc: Global, first_id: u32, moment: Moment) -> io::Result<Books>
    ensures objects { IfOk result (λ books. length books.objects.statuses ≡ 2) }
    ensures downtime { IfOk result (λ books. books.downtime.objects ≡ 2) }
{
    if first_id == 0 {
        return Err(Error::from(ErrorKind::InvalidInput));
    }
    let table = table(alloc)?;
    Ok(Books {
        objects: ObjectBook::open(alloc, &table, moment)?,
        comments: CommentBook::open(alloc, first_id),
        downtime: DowntimeBook::open(alloc, 2, first_id, moment)?,
    })
}

// Plays a step, and prints what is answered.
fn play(alloc: Global, books: &mut Books, step: Step, output: &mut impl Write) -> io::Result<()>
    requires objects { length books.old.objects.statuses ≡ 2 }
    requires downtime { books.old.downtime.objects ≡ 2 }
    ensures objects { length books.new.objects.statuses ≡ 2 }
    ensures downtime { books.new.downtime.objects ≡ 2 }
{
    match step {
        Step::Open(first_id, moment) => {
            *books = open(alloc, first_id, moment)?;
            write!(output, "done")
        }
        Step::Objects(step) => play_objects(&mut books.objects, step, output),
        Step::Comments(step) => play_comments(&mut books.comments, step, output),
        Step::Downtime(step) => play_downtime(&mut books.downtime, step, output),
    }
}

fn step_in(alloc: Global, line: &str) -> io::Result<Step> {
    let words = line.split_whitespace().collect::<Vec<&str>>(alloc)?;
    match step_of(&words) {
        Some(step) => Ok(step),
        None => Err(Error::from(ErrorKind::InvalidInput)),
    }
}

/// Plays the step of each line, and prints the line with what was answered.
pub fn play_lines(alloc: Global, text: &str, output: &mut impl Write) -> io::Result<()> {
    let mut books = open(alloc, 1, Moment(0))?;
    for line in text.lines() {
        write!(output, "{line}")?;
        if !line.is_empty() && !line.starts_with('#') {
            let step = step_in(alloc, line)?;
            write!(output, ": ")?;
            play(alloc, &mut books, step, output)?;
        }
        writeln!(output)?;
    }
    Ok(())
}
