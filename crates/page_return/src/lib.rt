//! Which rows of a kept status page another page doesn't show again, in the order of the pages and but
//! for ids and moments.
#![tactic(auto)]

mod again;
mod comparing;

pub use comparing::{Missing, find_missing};
