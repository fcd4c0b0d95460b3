use gate_applier::Applier;
use gate_queue::Taker;
use gate_worker::{Cause, Collected};

// What the threads of a gateway returned.
#[derive(Drop)]
pub(crate) struct Joined {
    pub(crate) taker: Taker,
    pub(crate) applier: Applier,
    pub(crate) collected: Collected,
    // Why the operator's worker ended.
    pub(crate) operator: Cause,
}
