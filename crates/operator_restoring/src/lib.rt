//! The words `stop` and `restore` of the operators' program: a gateway's pages are kept, and what
//! stands of them is printed as the text that the next gateway takes before it serves anybody. What
//! is printed and named has its contracts in operator_restore and gate_kept; status 0 of `stop_by`
//! means that the gateway's last page or its whole log page is kept.
#![tactic(auto)]

mod preparing;
mod restore_fault;
mod restore_word;
mod stop_word;
mod stopping;

pub use preparing::KeptFiles;
pub use restore_fault::RestoreFault;
pub use restore_word::restore;
pub use stop_word::stop;
pub use stopping::{Stopped, stop_by};
