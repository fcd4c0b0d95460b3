//! The words after `statusdesk`: what it listens on, the gateways with their operators' ports, and who may
//! send commands.
#![tactic(auto)]

mod operators;
mod words;

pub use words::{BadValue, Settings, WordsFault, read_words};
