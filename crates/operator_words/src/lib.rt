//! The words after `nscagatectl`, as clap reads them, and the request that they are.
#![tactic(auto)]

mod command_line;
mod found;
mod words;

pub use words::{WordsFault, read_words};
