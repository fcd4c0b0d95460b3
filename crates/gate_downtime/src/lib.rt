//! The book of downtime entries: when an object is in downtime, and how deep. Entries are
//! scheduled, begun by transitions of their objects or by their triggers, and deleted with what they
//! trigger. Whatever calls were made, the book shows what they mean. Memory is taken by `open` and
//! `reserve` alone.
#![tactic(auto)]

mod book;
mod chains;
mod entries;
mod faults;
mod gone;
mod ids;
mod links;
mod live;
mod pruning;
mod row;
mod scheduling;
mod tally;
mod waiting;

pub use book::DowntimeBook;
pub use entries::LiveEntries;
pub use faults::{CancelFault, ScheduleFault};
