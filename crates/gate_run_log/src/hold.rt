ghost use Rattle.std.specs.Prelude.{◌≡◌, ◌-◌, ◌==◌, ◌||◌, nat_le};

use crate::log::RunLog;
use gate_environment::{Hold, Point};
use gate_model::{Moment, Outcome, Record};
use std::sync::Wait;

// How many records are told at once while one comes after another.
const MOST_UNTOLD: usize = 32;

// Whether the records are told in this turn: where there is none that wasn't there in the last one, or as
// many weren't told yet. Own rule.
fn tells_now(records: usize, last: usize, told: usize) -> bool
    ensures { result ≡ (records == last) || nat_le 32 (records - told) }
{
    records == last || MOST_UNTOLD <= records.saturating_sub(told)
}

/// Holds a thread up as another hold does, and tells a run's log what was applied, where there is one.
#[derive(Drop)]
pub struct LogHold<'a, R, H> {
    rt: &'a R,
    log: Option<&'a RunLog>,
    hold: H,
    // How many records there were in the last turn, and how many of them were told.
    last: usize,
    told: usize,
}

impl<'a, R, H> LogHold<'a, R, H> {
    /// Tells this log of an applier, of which nothing is told yet.
    pub fn new(rt: &'a R, log: Option<&'a RunLog>, hold: H) -> LogHold<'a, R, H>
        ensures { result.hold ≡ hold }
    {
        LogHold {
            rt,
            log,
            hold,
            last: 0,
            told: 0,
        }
    }
}

impl<'a, R: Wait, H: Hold> Hold for LogHold<'a, R, H> {
    ghost passed = { λ both. H.passed both.hold };

    ghost seen = { λ both. H.seen both.hold };

    fn pass(&mut self, point: Point) {
        self.hold.pass(point);
    }

    fn see(&mut self, opening: Moment, records: &[Record], outcomes: &[Outcome]) {
        if let Some(log) = self.log {
            if tells_now(records.len(), self.last, self.told) {
                log.see(self.rt, opening, records, outcomes);
                self.told = records.len();
            }
            self.last = records.len();
        }
        self.hold.see(opening, records, outcomes);
    }
}
