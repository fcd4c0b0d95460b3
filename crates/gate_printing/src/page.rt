ghost use Rattle.std.specs.Prelude.{◌≡◌, length, OnOk, OnErr};
ghost use Rattle.gate_lines.specs.LogPage.{stamp_of, log_line, log_text};
ghost use Rattle.gate_streams.specs.Sink.{Delivers, FailsOnce, Writes};
ghost use Rattle.gate_printing.specs.inner.Printed.{Prints};

use crate::arguments::put_body;
use crate::progress::Progress;
use gate_lines::outcome_name;
use gate_model::{Outcome, Record};
use gate_streams::{Sink, put_numbered};
use itoa::Buffer;
use std::io;

// Prints a record's moment, its client and its number, and a space.
fn put_stamp<W: Sink>(output: &mut W, record: &Record) -> io::Result<()>
    ensures { Prints (W.state output.old) (W.state output.new) result (stamp_of «record».now) }
{
    let mut digits = Buffer::new();
    output.put(b"[")?;
    output.put(digits.format(record.moment.0).as_bytes())?;
    output.put(b"] ")?;
    output.put(digits.format(record.item.client).as_bytes())?;
    output.put(b":")?;
    output.put(digits.format(record.item.number).as_bytes())?;
    output.put(b" ")
}

/// Prints the line of a record on the log page. It takes no memory. It fails where a call of `output`
/// does, after which no other is made. Own rule.
pub fn put_record<W: Sink>(output: &mut W, record: &Record, outcome: Outcome) -> io::Result<()>
    ensures ok { OnOk result (Writes (W.state output.old) (W.state output.new)
        (log_line («record».now, outcome))) }
    ensures err { OnErr result (FailsOnce (W.state output.old) (W.state output.new)) }
{
    put_stamp(output, record)?;
    put_body(output, &record.item.body)?;
    output.put(b" -> ")?;
    output.put(outcome_name(outcome))?;
    output.put(b"\n")
}

/// Prints the log page, and flushes: the number of records, then a line for each record in order, with
/// its outcome. Each line is told to `progress`. It takes no memory. It fails where a call of `output` does,
/// after which no other is made. Own rule.
pub fn print_log<W: Sink>(
    output: &mut W,
    records: &[Record],
    outcomes: &[Outcome],
    progress: &Progress,
) -> io::Result<()>
    requires { length records.now ≡ length outcomes.now }
    ensures ok { OnOk result (Delivers (W.state output.old) (W.state output.new)
        (log_text records.now outcomes.now)) }
    ensures err { OnErr result (FailsOnce (W.state output.old) (W.state output.new)) }
{
    put_numbered(output, b"log ", records.len() as u64)?;
    for (index, record) in records.iter().enumerate() {
        put_record(output, record, outcomes[index])?;
        progress.move_on();
    }
    output.deliver()
}
