//! The words after the program's name, what they ask for, as clap reads them, and what is reported
//! where they ask for nothing.
#![tactic(auto)]

mod fault;
mod words;

pub use fault::WordsFault;
pub use words::{Request, read_words};
