//! Readers and writers of which something may be known, and how a program reports on one of them why
//! it stops.
#![tactic(auto)]

mod fault;
mod sink;
mod source;

pub use fault::{Fault, end_with};
pub use sink::{Sink, put_last, put_line, put_numbered};
pub use source::Source;
