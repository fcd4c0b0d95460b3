//! The configuration of the daemon: a document of TOML is read to addresses, limits and the table of
//! objects. What is wrong with it is reported by its first fault, in a fixed order.
#![tactic(auto)]

mod config;
mod fault;
mod fault_text;
mod key;
mod limits;
mod objects;
mod reading;
mod values;

pub use config::{Address, Config};
pub use fault::{ConfigFault, KeyText};
pub use key::Key;
pub use limits::Limits;
pub use reading::read_config;
