//! What a gateway's answer and its status pages make of an operator's request: the commands that it
//! is, how each ended and what a page shows of it, and the line and the exit status that report it.
#![tactic(auto)]

mod commands;
mod ending;
mod messages;
mod refusing;
mod unescaping;

pub use commands::{PlanFault, commands_for};
pub use ending::{Ending, ending_of};
pub use messages::push_message;
pub use refusing::first_refusal;
pub use unescaping::plain_request;
