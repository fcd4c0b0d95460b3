//! The workers of a gateway, a thread for each agents' worker and one for the operators', started and
//! joined. A worker serves one piece of a connection after another, as a client of the queue. When it has
//! ended, what was queued for its client is what its reports answer with Queued. What the workers return
//! is collected: each client, and the reports of its pieces.
#![tactic(auto)]

mod closing;
mod collected;
mod endpoint;
mod limits;
mod progress;
mod serving;
mod shared;
mod starting;
mod waiting;
mod worker;
mod workers;

pub use closing::close_gate;
pub use collected::Collected;
pub use endpoint::Endpoint;
pub use limits::WorkerLimits;
pub use shared::{Closable, Shared};
pub use worker::{Cause, WorkerEnd, run_worker};
pub use workers::{Workers, run_workers};
