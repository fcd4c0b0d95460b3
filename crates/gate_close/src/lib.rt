//! A close that applies all that was queued, once every client has ended: what the records then hold
//! is a merge of what each client was answered is queued.
#![tactic(auto)]

mod drained_close;
mod draining;

pub use drained_close::{CloseAllCause, CloseAllFault, Closed, close_all};
