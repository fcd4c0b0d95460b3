//! The replay of a script: its lines are parsed and checked whole before anything is done, and then
//! played through a queue of two clients and an applier. The queue is a gate, or a World for
//! reference, and shows the one thread that uses it a run: over a World the run is legal, over a
//! gate it is one that the gate's contracts allow, whatever other threads do. Each packet is a
//! session of client 1 and each operator's line one of client 2. It prints their answers, a status
//! page where one is asked for, and in the end the log page; what stops it is reported in one line
//! and an exit status. It prints to a `Sink`, and drops no failed write or flush.
#![tactic(auto)]

mod allowed;
mod draining;
mod ending;
mod fault;
mod laws;
mod lines;
mod player;
mod replay;
mod script;
mod script_line;
mod sent_packet;
mod sessions;
mod setup;
mod solo_gate;
mod solo_queue;
mod solo_world;

pub use allowed::allowed_runs;
pub use ending::{EndedGate, EndedQueue};
pub use fault::ReplayFault;
pub use laws::replay_laws;
pub use replay::{replay_over_world, replay_script, run_replay};
pub use script::{Script, ScriptFault, Step, read_script};
pub use script_line::{PacketForm, ScriptLine, read_script_line};
pub use sent_packet::SentPacket;
pub use setup::Setup;
pub use solo_gate::SoloGate;
pub use solo_queue::SoloQueue;
