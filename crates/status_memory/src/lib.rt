//! What is kept of a gateway whose page is fetched again and again: its last page, when that was
//! fetched, why a later fetch gave none, and the most objects that a page has shown; the alarms that
//! follow; since when each object has its state, its last result, and the last 1,000 changes of states.
#![tactic(auto)]

mod alarm;
mod history;
mod memory;

pub use alarm::{Alarm, alarm_name};
pub use history::{GatewayChange, History, ShownResult, Since, StateChange, by_result};
pub use memory::{Fetch, Kept, Memory, Page};
