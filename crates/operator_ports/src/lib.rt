//! A gateway that `nscagatectl` asks: its page, the answer to a command, and one page after another
//! until one shows it; what was done there, step by step; and the gateway over sockets.
#![tactic(auto)]

mod commands;
mod done;
mod gateway;
mod live;
mod next;
mod pages;
mod watching;

pub use commands::entered_at;
pub use done::Done;
pub use gateway::Gateway;
pub use live::LiveGateway;
pub use next::Next;
pub use pages::LivePages;
pub use watching::watch;
