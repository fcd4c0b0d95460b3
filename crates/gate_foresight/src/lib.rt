//! A gateway that has applied some records, found by applying them: the applier is the gateway's own.
#![tactic(auto)]

mod foresight;

pub use foresight::{ForesightFault, apply_all};
