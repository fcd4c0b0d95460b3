ghost use Rattle.std.specs.Prelude.{◌≤◌};

use crate::limits::Limits;
use gate_model::Text;
use gate_table::ObjectTable;
use std::net::SocketAddr;

/// An IP address with a port.
#[derive(Drop)]
pub struct Address {
    /// The address as the configuration writes it.
    pub text: Text,
    pub socket: SocketAddr,
}

/// What the daemon is configured to do.
#[derive(Drop)]
pub struct Config {
    /// Where packets of agents arrive, by default 127.0.0.1:5667.
    pub agents: Address,
    /// Where lines of operators arrive, by default 127.0.0.1:5668.
    pub operators: Address,
    /// Where the status page is shown, by default 127.0.0.1:5669.
    pub pages: Address,
    pub limits: Limits,
    /// How many workers serve the agents' packets, side by side: 1 to 63, by default 1.
    pub workers: u32,
    /// The monitored objects: each host before its services, in the order of the document.
    pub table: ObjectTable,
    ghost workers_range: { (1 ≤ workers) × (workers ≤ 63) },
}
