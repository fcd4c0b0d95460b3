//! What a log page comes to since a moment: how many records there are of each outcome, and those that
//! were refused, by host; as lines and as JSON.
#![tactic(auto)]

mod counting;
mod hosts;
mod json_lines;
mod lines;

pub use counting::since;
pub use json_lines::summary_json;
pub use lines::summary_text;
