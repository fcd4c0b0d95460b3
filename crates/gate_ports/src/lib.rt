//! The daemon's ports over real sockets: of agents, of operators and of readers of pages. Each worker waits
//! for all of its peers at once, and serves those that have brought something, in pieces. No peer keeps
//! another one waiting, nor the daemon from ending, for longer than the times of `gate_environment::times`
//! allow.
#![tactic(auto)]

mod accepting;
mod connections;
mod cutting;
mod held;
mod listener;
mod peer;
mod peers;
mod port;
mod ports;
mod reading;
mod resetting;
mod room;
mod selector;
mod served;
mod serving;
mod shared;
mod standing;
mod system_watch;
mod table;
mod texts;
mod unsent;

pub use connections::{
    AgentConnections, Agents, OperatorConnections, Operators, PeerConnections, PeerInput,
    PeerOutput, ReaderConnections, Readers,
};
pub use listener::{Listener, Owner};
pub use port::{AgentsPort, OperatorsPort, PagesPort};
pub use ports::Ports;
pub use system_watch::SystemWatch;
