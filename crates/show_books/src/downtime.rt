ghost use Rattle.std.specs.Prelude.{◌≡◌};

use crate::printing::Spans;
use crate::steps::{DowntimeStep, Object};
use gate_downtime::{DowntimeBook, ScheduleFault};
use gate_model::{Moment, Plan};
use std::io;
use std::io::{Error, ErrorKind, Write};

// With room for it, what the book answers.
fn schedule(
    book: &mut DowntimeBook,
    object: Object,
    plan: Plan,
) -> io::Result<Result<u32, ScheduleFault>>
    requires { book.old.objects ≡ 2 }
    ensures { book.new.objects ≡ 2 }
{
    book.reserve(1)?;
    if book.room() == 0 {
        return Err(Error::from(ErrorKind::OutOfMemory));
    }
    Ok(book.schedule(object.id(), plan))
}

// The entry of this number, from 1: a second later than the one before it, for 1,000 seconds.
fn step_of_stairs(number: u32) -> Plan {
    Plan {
        starts: Moment(1100_u32.saturating_add(number)),
        ends: Moment(2100_u32.saturating_add(number)),
        fixed: true,
        trigger: 0,
        lasts: 0,
        log_index: 0,
    }
}

// So many entries, each of whose ids is printed.
fn schedule_stairs(book: &mut DowntimeBook, count: u32, output: &mut impl Write) -> io::Result<()>
    requires { book.old.objects ≡ 2 }
    ensures { book.new.objects ≡ 2 }
{
    let mut spans = Spans::new();
    for number in 0..count {
        let plan = step_of_stairs(number.saturating_add(1));
        match schedule(book, Object::Http, plan)? {
            Ok(id) => spans.show(id, output)?,
            Err(fault) => write!(output, "{fault:?} ")?,
        }
    }
    spans.end(output)
}

fn show_live(book: &DowntimeBook, output: &mut impl Write) -> io::Result<()> {
    let mut spans = Spans::new();
    for entry in book.live() {
        spans.show(entry.id, output)?;
    }
    spans.end(output)
}

fn show_gone(book: &mut DowntimeBook, output: &mut impl Write) -> io::Result<()>
    requires { book.old.objects ≡ 2 }
    ensures { book.new.objects ≡ 2 }
{
    let mut spans = Spans::new();
    for _ in 0..u32::MAX {
        match book.next_gone() {
            Some(id) => spans.show(id, output)?,
            None => break,
        }
    }
    spans.end(output)
}

fn show_begin(book: &DowntimeBook, id: u32, output: &mut impl Write) -> io::Result<()> {
    match book.begin(id) {
        Some(moment) => write!(output, "{}", moment.0),
        None => write!(output, "never"),
    }
}

/// Plays a step on the book, and prints what it answers.
pub fn play_downtime(
    book: &mut DowntimeBook,
    step: DowntimeStep,
    output: &mut impl Write,
) -> io::Result<()>
    requires { book.old.objects ≡ 2 }
    ensures { book.new.objects ≡ 2 }
{
    match step {
        DowntimeStep::Schedule(object, plan) => {
            let answer = schedule(book, object, plan)?;
            write!(output, "{answer:?}")
        }
        DowntimeStep::Stairs(count) => schedule_stairs(book, count, output),
        DowntimeStep::Cancel(kind, id) => write!(output, "{:?}", book.cancel(kind, id)),
        DowntimeStep::Advance(moment) => {
            book.advance(moment);
            write!(output, "{}", book.moment().0)
        }
        DowntimeStep::Transition(object) => {
            book.transition(object.id());
            write!(output, "done")
        }
        DowntimeStep::Depth(object) => write!(output, "{}", book.depth(object.id())),
        DowntimeStep::Begin(id) => show_begin(book, id, output),
        DowntimeStep::Live => show_live(book, output),
        DowntimeStep::Gone => show_gone(book, output),
    }
}
