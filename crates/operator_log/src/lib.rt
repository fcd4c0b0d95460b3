//! `nscagatectl log`: the last log page in the file that a daemon prints to, summed up.
#![tactic(auto)]

mod logs;
mod summed;

pub use logs::run_log;
pub use summed::sum_up;
