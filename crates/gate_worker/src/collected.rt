ghost use Rattle.std.specs.Prelude.{◌≡◌, ℕ, ◌≤◌, ◌<◌, ◌++◌, List, [], ◌∷◌, All, length, IfOk};
ghost use Rattle.gate_worker.specs.Numbers.{numbers_after};
ghost use Rattle.gate_worker.specs.Answered.{reports_of_each, queued_by_each};
ghost use Rattle.gate_worker.specs.Collecting.{queued_for_each};

use crate::worker::WorkerEnd;
use gate_queue::Ended;
use gate_reader::Report;
use std::alloc::{AllocError, Global};

/// What joined workers returned: their clients, and the reports of each with its number. The items
/// that were queued for each client are those that its reports answer with Queued, numbered from 1.
#[derive(Drop)]
pub struct Collected {
    pub ended: Vec<Ended>,
    pub reports: Vec<(u32, Vec<Report>)>,
    pub ghost reported: { queued_for_each ended.items ≡ queued_by_each (reports_of_each reports.items) },
    pub ghost counted: { All
        (λ (pair : ℕ × List ℕ). pair.1 ≡ numbers_after 0 (length pair.1))
        (queued_for_each ended.items) },
}

impl Collected {
    /// Room for so many workers' ends. It is taken before a thread starts, so that collecting them
    /// needs no memory. It fails where memory for it is missing.
    pub fn with_room(alloc: Global, count: usize) -> Result<Collected, AllocError>
        ensures none { IfOk result (λ collected.
            (collected.ended.items ≡ []) × (collected.reports.items ≡ [])) }
        ensures room { IfOk result (λ collected.
            (count ≤ collected.ended.cap) × (count ≤ collected.reports.cap)) }
    {
        let ended = Vec::with_capacity(alloc, count)?;
        let reports = Vec::with_capacity(alloc, count)?;
        Ok(Collected { ended, reports })
    }

    /// Adds a worker's end.
    pub(crate) fn add(&mut self, end: WorkerEnd)
        requires room { (length self.old.ended.items < self.old.ended.cap)
            × (length self.old.ended.items < self.old.reports.cap) }
        ensures ended { self.new.ended.items ≡ self.old.ended.items ++ end.ended ∷ [] }
        ensures reports { reports_of_each self.new.reports.items
            ≡ reports_of_each self.old.reports.items
            ++ (end.ended.number, end.reports.items) ∷ [] }
        ensures room { (self.new.ended.cap ≡ self.old.ended.cap)
            × (self.new.reports.cap ≡ self.old.reports.cap) }
    {
        let WorkerEnd {
            ended,
            reports,
            cause: _,
        } = end;
        let number = ended.number();
        self.ended.push_reserved(ended);
        self.reports.push_reserved((number, reports));
    }
}
