ghost use Rattle.std.specs.Prelude.{◌≡◌};

use crate::limits::WorkerLimits;
use gate_queue::{Closer, Gate};
use std::alloc::Global;

/// What the threads of a gateway share.
#[derive(Drop)]
pub struct Shared<'s, R, K, W> {
    pub rt: &'s R,
    pub alloc: Global,
    pub gate: &'s Gate,
    pub clock: &'s K,
    pub wake: &'s W,
    /// What each worker serves, the operators' too, but for its number of connections.
    pub limits: WorkerLimits,
}

/// What they share, with the right to close its gate.
#[derive(Drop)]
pub struct Closable<'a, 's, R, K, W> {
    pub shared: &'a Shared<'s, R, K, W>,
    pub closer: &'a Closer,
    pub ghost of_gate: { closer.now.cell ≡ shared.now.gate.now.cell },
}
