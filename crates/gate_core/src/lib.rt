//! The queue, its clients, its applier and its close as one machine over a list of events.
//!
//! Each event gets one reply. For every list of events, what was taken followed by the queue is a
//! merge of what each client was answered is queued.
#![tactic(auto)]

mod event;
mod law;
mod limits;
mod local_client;
mod playing;
mod submit;
mod world;

pub use event::{Event, Reply};
pub use law::conservation;
pub use limits::OpenFault;
pub use local_client::LocalClient;
pub use playing::{RefusedRun, run};
pub use submit::{CloseFault, Operator, Refused, Submit};
pub use world::World;
