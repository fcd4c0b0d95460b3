//! What a program reads of a change between two status pages, and of how a command ended: objects
//! of JSON.
#![tactic(auto)]

mod changes;
mod endings;

pub use changes::change_json;
pub use endings::ending_json;
