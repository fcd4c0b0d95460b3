//! Listening sockets: the daemon's own, and those that are lent.

ghost use Rattle.std.specs.Prelude.{◌≡◌};
ghost use Rattle.gate_ports.specs.Listeners.{ends_listener};

use std::net::TcpListener;

/// Whose a listening socket is.
#[derive(Clone, Copy)]
pub enum Owner {
    /// The daemon's: once it ends, peers are refused.
    Daemon,
    /// Its supervisor's, who lends it: who comes once the daemon ends waits there for the next one.
    Supervisor,
}

/// A listening socket.
#[derive(Drop)]
pub struct Listener {
    pub socket: TcpListener,
    pub owner: Owner,
}

/// Whether the last worker ends the listener, where so many have not ended.
pub(crate) fn ends_listener(owner: Owner, workers: u64) -> bool
    ensures { result ≡ ends_listener owner workers }
{
    match owner {
        Owner::Daemon => workers == 0,
        Owner::Supervisor => false,
    }
}
