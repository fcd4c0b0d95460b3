//! The applier: records in the order in which they were applied, and what they mean. It judges one
//! record at a time, keeps its outcome beside it, and answers from books what the definitions of
//! the meaning give for all of its records.
#![tactic(auto)]

mod applier;
mod books;
mod downtimes;
mod judging;

pub use applier::{Applier, OpenCause, OpenFault, PrepareCause, PrepareFault, Ready};
pub use downtimes::{Downtimes, LiveDowntime};
