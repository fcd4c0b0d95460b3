//! Commands to a gateway's operators port, and its answers: what is sent for a command, the reply
//! that an answer's line gives, and a conversation of one line and one answer after the other.
#![tactic(auto)]

mod asking;
mod replies;
mod sending;

pub use asking::{AskFault, ask, converse, read_answer};
pub use replies::{Reply, read_reply};
pub use sending::{SendFault, sent_lines};
