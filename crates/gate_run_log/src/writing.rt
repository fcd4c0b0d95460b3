ghost use Rattle.std.specs.Prelude.{◌≡◌, ◌-◌, ◌≤◌, ◌⊎◌, drop, take, vec_len, None};
ghost use Rattle.std.specs.Io.KnownBytes.{Appends};
ghost use Rattle.gate_streams.specs.Sink.{IsReported};
ghost use Rattle.gate_run_log.specs.Notices.{notice_of};

use crate::log::{RunLog, Waiting};
use gate_streams::{Sink, put_last};
use std::alloc::Global;
use std::fs::{Files, OpenFile};
use std::io::{ErrorKind, Write};
use std::mem::replace;
use std::os::unix::fs::MetadataExt;
use std::sync::Wait;
use std::time::{Clock, Duration, Instant};
use std::{fs, io, thread};

// For how long lines are gathered after some were written.
const GATHER_MILLIS: u64 = 10;

// How often what was written is handed to the disk.
const SYNC_MILLIS: u64 = 1_000;

// For how long the writing rests after a failed call.
const RETRY_MILLIS: u64 = 1_000;

// How often a call may fail once all was told, until the rest is given up.
const MOST_FAILURES: u32 = 1;

// After how long a disk is slow.
const SLOW_MILLIS: u64 = 10_000;

/// What is said of a run's log, each once.
#[derive(Clone, Copy)]
pub(crate) enum Notice {
    Unwritable,
    Slow,
    Gone,
}

// What was said.
#[derive(Clone, Copy)]
struct Said {
    unwritable: bool,
    slow: bool,
    gone: bool,
}

// The line of a notice.
fn notice_text(notice: Notice) -> &'static [u8]
    ensures { result.now ≡ notice_of notice }
{
    match notice {
        Notice::Unwritable => b"nscagate: the run's log can't be written\n",
        Notice::Slow => b"nscagate: the run's log waits for its disk\n",
        Notice::Gone => b"nscagate: the run's log is gone\n",
    }
}

/// Says that something is wrong with a run's log. That it can't be said changes nothing.
pub(crate) fn say<E: Sink>(notice: Notice, errors: &mut E)
    ensures { IsReported (notice_of notice) (E.state errors.old) (E.state errors.new) }
{
    let _unsaid = put_last(errors, notice_text(notice));
}

impl Said {
    // Says it, where it wasn't said before.
    fn say_once<E: Sink>(&mut self, notice: Notice, errors: &mut E)
        ensures { (E.state errors.new ≡ E.state errors.old)
            ⊎ IsReported (notice_of notice) (E.state errors.old) (E.state errors.new) }
    {
        let is_said = match notice {
            Notice::Unwritable => &mut self.unwritable,
            Notice::Slow => &mut self.slow,
            Notice::Gone => &mut self.gone,
        };
        if !*is_said {
            *is_said = true;
            say(notice, errors);
        }
    }
}

// How many milliseconds have passed since then; 0 where that isn't known.
fn millis_since<R: Clock>(rt: &R, then: Option<Instant>) -> u64
    ensures { then ≡ None → result ≡ 0 }
{
    let passed = then.and_then(|then| then.elapsed(rt).ok());
    match passed {
        Some(passed) => u64::try_from(passed.as_millis()).unwrap_or(u64::MAX),
        None => 0,
    }
}

// The file, what waits to be written to it, how much of that is, and what was said of it.
#[derive(Drop)]
struct Output<F> {
    file: F,
    text: Vec<u8>,
    written: usize,
    // Since when something was written that the disk may not have.
    unsynced: Option<Instant>,
    said: Said,
}

impl<F: Write + OpenFile> Output<F> {
    // Writes some of what waits, by one call: whether that didn't fail.
    fn write<E: Sink>(&mut self, errors: &mut E) -> bool
        requires { self.old.written ≤ vec_len self.old.text }
        ensures forward { self.old.written ≤ self.new.written }
        ensures within { self.new.written ≤ vec_len self.new.text }
        ensures text { self.new.text ≡ self.old.text }
        ensures bytes { Appends (F.contents self.old.file) (F.contents self.new.file)
            (take (self.new.written - self.old.written)
            (drop self.old.written self.old.text.items)) }
    {
        let rest = &self.text[self.written..];
        match self.file.write(rest) {
            Ok(count) => {
                self.written += count;
                true
            }
            Err(error) if error.kind() == ErrorKind::Interrupted => true,
            Err(_) => {
                self.said.say_once(Notice::Unwritable, errors);
                false
            }
        }
    }

    // Waits until the disk has what was written.
    fn sync<E: Sink>(&mut self, errors: &mut E)
        ensures written { self.new.written ≡ self.old.written }
        ensures text { self.new.text ≡ self.old.text }
    {
        self.unsynced = None;
        if self.file.sync_data().is_err() {
            self.said.say_once(Notice::Unwritable, errors);
        }
        let found = self.file.metadata();
        if found.is_ok_and(|found| found.nlink() == 0) {
            self.said.say_once(Notice::Gone, errors);
        }
    }

    // Takes what waits, once all of the last is written: whether nothing comes after it.
    fn next<R: Wait>(&mut self, rt: &R, alloc: Global, log: &RunLog) -> bool
        requires { self.old.written ≡ vec_len self.old.text }
        ensures { self.new.written ≡ 0 }
    {
        let written = replace(&mut self.text, Vec::new(alloc));
        let Waiting { text, is_last } = log.next(rt, written);
        self.text = text;
        self.written = 0;
        is_last
    }
}

/// Writes a run's log as it is told, until its last line: at once where nothing was written for 10 ms.
/// What was written is handed to the disk each second. Where a call of the file fails, the rest is tried
/// again each second, and at the end once more; what is wrong is said on `errors`, each once. It waits for
/// the disk, and for what is told.
pub fn write_run_log<R: Wait + Clock, F: Write + OpenFile + Drop, E: Sink>(
    rt: &R,
    alloc: Global,
    run_log: &RunLog,
    file: F,
    errors: &mut E,
) {
    let mut output = Output {
        file,
        text: Vec::new(alloc),
        written: 0,
        unsynced: None,
        said: Said {
            unwritable: false,
            slow: false,
            gone: false,
        },
    };
    let mut is_last = false;
    let mut failures: u32 = 0;
    for _ in rt.forever() {
        if output.written == output.text.len() {
            is_last = output.next(rt, alloc, run_log);
        }
        let began = Instant::now(rt).ok();
        if output.written < output.text.len() {
            output.unsynced = output.unsynced.or(began);
        }
        let has_failed = !output.write(errors);
        let is_written = output.written == output.text.len();
        let ends = is_last && is_written;
        if ends || SYNC_MILLIS <= millis_since(rt, output.unsynced) {
            output.sync(errors);
        }
        if SLOW_MILLIS <= millis_since(rt, began) {
            output.said.say_once(Notice::Slow, errors);
        }
        failures = failures.saturating_add(u32::from(has_failed && run_log.is_over(rt)));
        if ends || failures > MOST_FAILURES {
            return;
        }
        if has_failed {
            thread::sleep(rt, Duration::from_millis(RETRY_MILLIS));
        } else if is_written {
            thread::sleep(rt, Duration::from_millis(GATHER_MILLIS));
        }
    }
}
