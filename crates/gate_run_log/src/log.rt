ghost use Rattle.std.specs.Prelude.{◌≡◌, ◌≤◌, ◌++◌, List, [], None, length, true, false};
ghost use Rattle.gate_model.specs.declared.record.Outcome.{Outcome};
ghost use Rattle.gate_model.specs.declared.record.Record.{Record};
ghost use Rattle.gate_run_log.specs.RunLog.{closed_line, still_to_come};

use crate::buffer::Buffer;
use gate_environment::pause;
use gate_model::{Moment, Outcome, Record, Text};
use std::sync::{Mutex, Wait};
use std::thread::Parker;
use std::time::{Clock, Duration};

// For how long the thread that writes waits at most where nothing is there.
const LOOK_MILLIS: u64 = 1_000;

// How many rests of 2 ms the last lines wait for room, until they are given up.
const MOST_RESTS: u32 = 5_000;

// What the two threads share.
#[derive(Drop)]
struct Shared {
    buffer: Buffer,
    // Until the first lines are there.
    configuration: Option<Text>,
    is_over: bool,
}

impl Shared {
    // Puts the first lines there, where they aren't yet: whether they are.
    fn begin(&mut self, opening: Moment) -> bool
        ensures lines { (records : List Record) (outcomes : List Outcome)
            → self.new.buffer.text.items ++ still_to_come self.new.configuration
            self.new.buffer.kept self.new.buffer.told opening records outcomes
            ≡ self.old.buffer.text.items ++ still_to_come self.old.configuration
            self.old.buffer.kept self.old.buffer.told opening records outcomes }
        ensures begun { result ≡ true → self.new.configuration ≡ None }
    {
        let Some(configuration) = &self.configuration else {
            return true;
        };
        if !self.buffer.begin(configuration.bytes(), opening) {
            return false;
        }
        self.configuration = None;
        true
    }

    // Puts what is still to come there, as far as there is room.
    fn see(&mut self, opening: Moment, records: &[Record], outcomes: &[Outcome])
        requires { length records.now ≡ length outcomes.now }
        // What stands there, and what is still to come, are together what they were.
        ensures { self.new.buffer.text.items
            ++ still_to_come self.new.configuration self.new.buffer.kept self.new.buffer.told
            opening records.now outcomes.now
            ≡ self.old.buffer.text.items
            ++ still_to_come self.old.configuration self.old.buffer.kept self.old.buffer.told
            opening records.now outcomes.now }
    {
        if self.begin(opening) {
            self.buffer.tell(records, outcomes);
        }
    }

    // Puts the last line there, where all records have a line and there is room for it.
    fn close(&mut self, records: usize, closing: Moment) -> Closing
        ensures told { result.told ≡ self.old.buffer.told }
        ensures closed { result.is_closed ≡ true → (records ≤ self.old.buffer.told)
            × (self.new.buffer.text.items
            ≡ self.old.buffer.text.items ++ closed_line closing) }
        ensures open { result.is_closed ≡ false
            → self.new.buffer.text.items ≡ self.old.buffer.text.items }
    {
        let told = self.buffer.told();
        Closing {
            told,
            is_closed: records <= told && self.buffer.close(closing),
        }
    }

    // What waits, for the room of what was written; and whether nothing comes after it.
    fn next(&mut self, written: Vec<u8>) -> Waiting
        ensures text { result.text.items ≡ self.old.buffer.text.items }
        ensures last { result.is_last ≡ self.old.is_over }
        ensures empty { self.new.buffer.text.items ≡ [] }
    {
        Waiting {
            text: self.buffer.exchange(written),
            is_last: self.is_over,
        }
    }
}

/// What waits to be written, and whether nothing comes after it.
#[derive(Drop)]
pub struct Waiting {
    pub text: Vec<u8>,
    pub is_last: bool,
}

/// A run's log, between the thread that applies and the one that writes.
#[derive(Drop)]
pub struct RunLog {
    shared: Mutex<Shared>,
    parker: Parker,
}

impl RunLog {
    /// That of a run of this configuration, of which nothing is told yet.
    pub fn new(buffer: Buffer, configuration: Text) -> RunLog {
        RunLog {
            shared: Mutex::new(Shared {
                buffer,
                configuration: Some(configuration),
                is_over: false,
            }),
            parker: Parker::new(),
        }
    }

    /// The log is this by now: its next lines wait for the disk then, as far as there is room. It waits for
    /// the other thread at most while that takes what waits.
    pub fn see<R: Wait>(&self, rt: &R, opening: Moment, records: &[Record], outcomes: &[Outcome])
        requires { length records.now ≡ length outcomes.now }
    {
        let mut shared = self.shared.lock(rt);
        shared.see(opening, records, outcomes);
        let is_empty = shared.buffer.is_empty();
        drop(shared);
        if !is_empty {
            self.parker.unpark();
        }
    }

    // The same of what the threads share.
    fn close<R: Wait>(&self, rt: &R, records: usize, closing: Moment) -> Closing {
        self.shared.lock(rt).close(records, closing)
    }

    /// Puts the lines of all records there that have none, and the last line, of this moment. Where
    /// nothing can be put there for 10 s, the rest is given up.
    pub fn finish<R: Wait + Clock>(
        &self,
        rt: &R,
        opening: Moment,
        records: &[Record],
        outcomes: &[Outcome],
        closing: Moment,
    )
        requires { length records.now ≡ length outcomes.now }
    {
        let mut last = 0;
        let mut rests = 0;
        for _ in rt.forever() {
            self.see(rt, opening, records, outcomes);
            let Closing { told, is_closed } = self.close(rt, records.len(), closing);
            if is_closed || rests >= MOST_RESTS {
                return;
            }
            if told == last {
                rests += 1;
                pause(rt);
            } else {
                rests = 0;
            }
            last = told;
        }
    }

    /// Nothing more is told.
    pub fn end<R: Wait>(&self, rt: &R) {
        self.shared.lock(rt).is_over = true;
        self.parker.unpark();
    }

    /// Whether nothing more is told.
    pub(crate) fn is_over<R: Wait>(&self, rt: &R) -> bool {
        self.shared.lock(rt).is_over
    }

    /// What waits to be written, for the room of what was. Where nothing does, it waits for a second at
    /// most.
    pub fn next<R: Wait>(&self, rt: &R, written: Vec<u8>) -> Waiting {
        let mut shared = self.shared.lock(rt);
        if shared.buffer.is_empty() && !shared.is_over {
            drop(shared);
            self.parker
                .park_timeout(rt, Duration::from_millis(LOOK_MILLIS));
            shared = self.shared.lock(rt);
        }
        shared.next(written)
    }
}

// How far the lines are.
#[derive(Clone, Copy)]
struct Closing {
    told: usize,
    is_closed: bool,
}
