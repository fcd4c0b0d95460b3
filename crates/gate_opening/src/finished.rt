use gate_close::Closed;
use gate_reader::Report;
use gate_worker::Cause;

/// All that was queued, applied; and what each client was answered.
#[derive(Drop)]
pub struct Finished {
    pub closed: Closed,
    /// Each client's number with the reports of the pieces of connections of which it queued
    /// something: the operator's first, and then those of the agents' workers, from 1.
    pub reports: Vec<(u32, Vec<Report>)>,
    /// Why the operator's worker ended. At OutOfMemory no operator could close the gate any more, so
    /// the gateway closed it.
    pub operator: Cause,
}
