//! What a gateway is opened with, what it leaves, and why it doesn't open or doesn't finish.
#![tactic(auto)]

mod fault;
mod finished;
mod opening;

pub use fault::GatewayFault;
pub use finished::Finished;
pub use opening::{Opening, Parts, open_parts};
