//! The status page of a gateway, printed whole, in part or as JSON, and what is other on each page
//! after it.
#![tactic(auto)]

mod choosing;
mod following;
mod showing;

pub use following::run_watch;
pub use showing::run_status;
