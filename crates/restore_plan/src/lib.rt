//! What becomes of each record of a kept log on a fresh gateway: the command that is sent for what
//! still stands of it, or the cause why none is. What stands is what an applier of the kept records
//! shows.
#![tactic(auto)]

mod entries;
mod fates;
mod objects;
mod page_plan;
mod plan;
mod rehearsal;

pub use fates::{Cause, Fate};
pub use page_plan::plan_of_page;
pub use plan::{Plan, commands_of, plan_of};
pub use rehearsal::{RehearsalFault, page_of, rehearse};
