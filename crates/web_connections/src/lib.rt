//! The connections of browsers over real sockets: each of a few threads waits for many of them at once,
//! so nobody who sends or reads nothing keeps another one waiting. And the responses on them, with the
//! header fields that keep a browser from running or loading anything else, and the hosts under which
//! they are given.
#![tactic(auto)]

mod answers;
mod browser;
mod browsers;
mod hosts;
mod refusals;

pub use answers::{add_date, refuse, refuse_method, send, send_kept};
pub use browsers::Browsers;
pub use hosts::answers_host;
