//! What status pages say of a command: what the gateway would answer to it, and what a later page
//! shows of its effect; and what is other on one page than on another.
#![tactic(auto)]

mod comparing;
mod effects;
mod foreseen;
mod names;

pub use comparing::{Change, changes};
pub use effects::{Effect, Made, effect_of};
pub use foreseen::{comment_field, downtime_field, foreseen_outcome, refusal_text};
