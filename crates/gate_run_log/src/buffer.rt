ghost use Rattle.std.specs.Prelude.{◌≡◌, ◌+◌, ◌^◌, ◌<◌, ◌≤◌, ◌++◌, [], IfOk, IfSome, IfNone, length, max, OnOk, OnErr, true, false, ℕ};
ghost use Rattle.std.specs.Bool.{Decides};
ghost use Rattle.gate_lines.specs.LogPage.{log_line};
ghost use Rattle.gate_run_log.specs.RunLog.{front_text, mark_after, lines_left, closed_line};

use gate_model::{Moment, Outcome, Record};
use gate_printing::put_record;
use gate_streams::put_numbered;
use std::alloc::{AllocError, Global};
use std::io;
use std::mem::replace;

/// How many bytes wait for the disk at most: a configuration of 1 MiB, and some 10,000 lines.
pub const MOST_BYTES: usize = 2 << 20;

// How many lines are put there at once: more than there is room for, unless they are short.
const MOST_LINES: u32 = 16_384;

// There is no room for a line by now, or no memory.
#[derive(Drop)]
struct Full;

impl From<AllocError> for Full {
    fn from(_error: AllocError) -> Full {
        Full
    }
}

impl From<io::Error> for Full {
    fn from(_error: io::Error) -> Full {
        Full
    }
}

/// The part of a run's log that waits for the disk: whole lines.
#[derive(Drop)]
pub struct Buffer {
    text: Vec<u8>,
    // The line that is made.
    line: Vec<u8>,
    // How many records have a line so far.
    told: usize,
    // How many records are of what was kept for the run.
    kept: u64,
}

// Appends the mark after so many records, where one stands there.
fn push_mark(out: &mut Vec<u8>, kept: u64, count: usize) -> Result<(), Full>
    ensures { OnOk result (out.new.items ≡ out.old.items ++ mark_after kept count) }
{
    if count as u64 == kept {
        put_numbered(out, b"restored ", kept)?;
    }
    Ok(())
}

// Appends the first lines.
fn push_front(out: &mut Vec<u8>, configuration: &[u8], opening: Moment) -> Result<(), Full>
    ensures { OnOk result (out.new.items
        ≡ out.old.items ++ front_text configuration.now opening) }
{
    put_numbered(out, b"opened ", u64::from(opening.0))?;
    put_numbered(out, b"configuration ", configuration.len() as u64)?;
    out.extend_from_slice(configuration)?;
    out.extend_from_slice(b"\n")?;
    Ok(())
}

impl Buffer {
    /// An empty one, for a run for which so many items were kept.
    pub fn new(alloc: Global, kept: u64) -> Result<Buffer, AllocError>
        ensures { IfOk result (λ buffer. (buffer.text.items ≡ []) × (buffer.told ≡ 0)
            × (buffer.kept ≡ kept)) }
    {
        Ok(Buffer {
            text: Vec::with_capacity(alloc, MOST_BYTES)?,
            line: Vec::new(alloc),
            told: 0,
            kept,
        })
    }

    // Appends the line that was made, where it fits.
    fn take_line(&mut self) -> Result<(), Full>
        ensures ok { OnOk result (self.new.text.items ≡ self.old.text.items ++ self.old.line.items) }
        ensures err { OnErr result (self.new.text.items ≡ self.old.text.items) }
        ensures few { length self.old.text.items ≤ 2_097_152
            → length self.new.text.items ≤ 2_097_152 }
        ensures told { self.new.told ≡ self.old.told }
        ensures kept { self.new.kept ≡ self.old.kept }
    {
        if MOST_BYTES - self.text.len().min(MOST_BYTES) < self.line.len() {
            return Err(Full);
        }
        self.text.extend_from_slice(self.line.as_slice())?;
        Ok(())
    }

    // Appends the line of a record, the next one.
    fn push_record(&mut self, applied: &Record, outcome: Outcome) -> Result<(), Full>
        requires { self.old.told + 1 < 2 ^ 64 }
        ensures ok { OnOk result ((self.new.text.items ≡ self.old.text.items
            ++ (log_line (applied.now, outcome) ++ mark_after self.old.kept (self.old.told + 1)))
            × (self.new.told ≡ self.old.told + 1)) }
        ensures err { OnErr result ((self.new.text.items ≡ self.old.text.items)
            × (self.new.told ≡ self.old.told)) }
        ensures kept { self.new.kept ≡ self.old.kept }
    {
        self.line.clear();
        put_record(&mut self.line, applied, outcome)?;
        push_mark(&mut self.line, self.kept, self.told + 1)?;
        self.take_line()?;
        self.told += 1;
        Ok(())
    }

    /// Puts the first lines there, once the log is opened at this moment: whether there was memory for
    /// them.
    pub fn begin(&mut self, configuration: &[u8], opening: Moment) -> bool
        ensures begun { result ≡ true → self.new.text.items ≡ self.old.text.items
            ++ (front_text configuration.now opening ++ mark_after self.old.kept 0) }
        ensures not_begun { result ≡ false → self.new.text.items ≡ self.old.text.items }
        ensures told { self.new.told ≡ self.old.told }
        ensures kept { self.new.kept ≡ self.old.kept }
    {
        self.line.clear();
        push_front(&mut self.line, configuration, opening).is_ok()
            && push_mark(&mut self.line, self.kept, 0).is_ok()
            && self.take_line().is_ok()
    }

    /// Puts the lines of the next records there, 16,384 at most, as far as there is room and memory.
    pub fn tell(&mut self, records: &[Record], outcomes: &[Outcome])
        requires { length records.now ≡ length outcomes.now }
        // What stands there, and what is still to come, are together what they were.
        ensures lines { self.new.text.items
            ++ lines_left self.old.kept self.new.told records.now outcomes.now
            ≡ self.old.text.items
            ++ lines_left self.old.kept self.old.told records.now outcomes.now }
        ensures forward { self.old.told ≤ self.new.told }
        ensures within { self.new.told ≤ max self.old.told (length records.now) }
        ensures kept { self.new.kept ≡ self.old.kept }
    {
        for _ in 0..MOST_LINES {
            if records.len() <= self.told {
                return;
            }
            if self
                .push_record(&records[self.told], outcomes[self.told])
                .is_err()
            {
                return;
            }
        }
    }

    /// How many records have a line so far.
    pub fn told(&self) -> usize
        ensures { result ≡ self.now.told }
    {
        self.told
    }

    /// Puts the last line there: whether there was room for it.
    pub fn close(&mut self, moment: Moment) -> bool
        ensures closed { result ≡ true
            → self.new.text.items ≡ self.old.text.items ++ closed_line moment }
        ensures not_closed { result ≡ false → self.new.text.items ≡ self.old.text.items }
    {
        self.line.clear();
        put_numbered(&mut self.line, b"closed ", u64::from(moment.0)).is_ok()
            && self.take_line().is_ok()
    }

    /// Whether nothing waits.
    pub fn is_empty(&self) -> bool
        ensures { Decides result (self.now.text.items ≡ []) }
    {
        self.text.is_empty()
    }

    /// Gives away what waits for the room of what was written.
    pub fn exchange(&mut self, written: Vec<u8>) -> Vec<u8>
        ensures text { result.items ≡ self.old.text.items }
        ensures empty { self.new.text.items ≡ [] }
        ensures told { self.new.told ≡ self.old.told }
        ensures kept { self.new.kept ≡ self.old.kept }
    {
        let mut written = written;
        written.clear();
        replace(&mut self.text, written)
    }
}
