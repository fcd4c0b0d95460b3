//! The two threads that boards stand between: the applier's, which applies what is queued and publishes
//! boards of it, and that of the status page, which shows each reader the board that stands there.
#![tactic(auto)]

mod applying;
mod boards;
mod last_board;
mod pages;
mod starting;

pub use applying::{ApplierStop, FullLog, run_applier};
pub use last_board::{LastShown, Woken, end_pages};
pub use pages::{PagesEnd, run_pages};
pub use starting::{KeepsLog, Shows, start_applier, start_pages};
