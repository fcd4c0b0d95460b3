ghost use Rattle.std.specs.Prelude.{◌≡◌, length};

use crate::printing::{kind_name, state_name};
use crate::steps::{Object, ObjectStep};
use gate_model::{Acknowledgement, CheckResult, Moment};
use gate_objects::{Change, ObjectBook, PassiveDisabled};
use std::io;
use std::io::Write;

fn show_change(answer: Result<Change, PassiveDisabled>, output: &mut impl Write) -> io::Result<()> {
    match answer {
        Ok(change) => {
            let transition = if change.transition {
                "a transition"
            } else {
                "no transition"
            };
            let cleared = if change.cleared { ", cleared" } else { "" };
            write!(output, "{transition}{cleared}")
        }
        Err(fault) => write!(output, "{fault:?}"),
    }
}

fn show_result(last: Option<CheckResult>, output: &mut impl Write) -> io::Result<()> {
    match last {
        Some(last) => write!(output, ", at {}", last.moment.0),
        None => Ok(()),
    }
}

fn show_acknowledgement(ack: Option<Acknowledgement>, output: &mut impl Write) -> io::Result<()> {
    match ack {
        Some(ack) if ack.sticky => write!(output, ", sticky"),
        Some(_) => write!(output, ", normal"),
        None => Ok(()),
    }
}

fn show_object(book: &ObjectBook, object: Object, output: &mut impl Write) -> io::Result<()>
    requires { length book.now.statuses ≡ 2 }
{
    write!(output, "{}", state_name(book.state(object.id())))?;
    show_result(book.last(object.id()), output)?;
    show_acknowledgement(book.ack(object.id()), output)
}

fn show_stale(book: &ObjectBook, moment: Moment, output: &mut impl Write) -> io::Result<()> {
    let mut is_first = true;
    for object in book.stale_list(moment) {
        let separator = if is_first { "" } else { ", " };
        write!(output, "{separator}the {}", kind_name(object.kind))?;
        is_first = false;
    }
    if is_first {
        write!(output, "none")?;
    }
    Ok(())
}

/// Plays a step on the book, and prints what it answers.
pub fn play_objects(
    book: &mut ObjectBook,
    step: ObjectStep,
    output: &mut impl Write,
) -> io::Result<()>
    requires { length book.old.statuses ≡ 2 }
    ensures { length book.new.statuses ≡ 2 }
{
    match step {
        ObjectStep::Result(object, code, moment) => {
            show_change(book.result(object.id(), code, 0, moment), output)
        }
        ObjectStep::Acknowledge(object, is_sticky) => {
            write!(output, "{:?}", book.acknowledge(object.id(), is_sticky, 0))
        }
        ObjectStep::Remove(object) => write!(output, "{:?}", book.remove_ack(object.id())),
        ObjectStep::Show(object) => show_object(book, object, output),
        ObjectStep::Stale(moment) => show_stale(book, moment, output),
    }
}
