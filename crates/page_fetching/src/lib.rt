//! The text of a gateway's status page, read over a socket in limited time.
#![tactic(auto)]

mod fetching;
mod timed;

pub use fetching::{FetchFault, Fetched, fetch, fetch_within};
pub use timed::Timed;
