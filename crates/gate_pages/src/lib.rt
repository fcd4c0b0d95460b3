//! The status page of a gateway. A board owns what its page shows, and the page is the text of exactly
//! these facts.
#![tactic(auto)]

mod board;
mod rows;

pub use board::{Board, publish, status_page};
