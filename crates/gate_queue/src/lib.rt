//! The queue that threads run: clients submit to it, one taker empties it, and a closer closes it.
//!
//! In any schedule of threads, what was taken followed by the queue is a merge of what each client
//! was answered is queued. No lock covers the queue and the close.
#![tactic(auto)]

mod client;
mod closer;
mod gate;
mod gate_operator;
mod law;
mod opening;
mod rule;
mod taker;

pub use client::{Client, Ended, GateClient};
pub use closer::{Closer, Notice};
pub use gate::Gate;
pub use gate_core::{CloseFault, Refused};
pub use gate_operator::GateOperator;
pub use law::conservation;
pub use opening::{open, open_with};
pub use taker::Taker;
