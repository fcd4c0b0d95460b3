//! The daemon: workers that serve connections, an applier and a server of pages, each on a thread
//! of its own around one queue. When a gateway has finished, its log holds what its clients were
//! answered is queued, each client's items in their order, and nothing else.
#![tactic(auto)]

mod endpoints;
mod gateway;
mod joined;
mod settings;
mod threads;

pub use endpoints::Endpoints;
pub use gate_opening::{Finished, GatewayFault};
pub use gateway::run_gateway;
pub use settings::GatewaySettings;
