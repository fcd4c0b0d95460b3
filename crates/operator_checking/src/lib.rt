//! Whether gateways serve, as a plugin of Nagios reports it: their ports are asked over sockets.
#![tactic(auto)]

mod checking;

pub use checking::{Wanted, report_unknown, run_check};
