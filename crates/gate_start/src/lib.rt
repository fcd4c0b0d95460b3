//! The daemon before and after it serves: it reads its configuration, binds its addresses and prints
//! them; it takes what an earlier run has left; it prints the log page in the end; why it doesn't run, or how it ended early.
#![tactic(auto)]

mod configuring;
mod ending;
mod fault;
mod keeping;
mod lent;
mod listening;
mod printing;
mod served;
mod starting;

pub use ending::{end, finish_log};
pub use fault::ServeFault;
pub use keeping::take_kept;
pub use served::{Served, without_reports};
pub use starting::{Started, start};
