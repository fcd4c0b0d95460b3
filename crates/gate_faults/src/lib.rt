//! Why a command of the program stops amid its work: status 3.
#![tactic(auto)]

mod fault;

pub use fault::{RunFault, fault_of};
