ghost use Rattle.std.specs.Prelude.{◌≡◌, ◌≤◌, length, IfOk};
ghost use Rattle.gate_ports.specs.Peers.{HandsOut};

use crate::peer::Peer;
use gate_turns::Standing;
use std::io;

/// The peer that is served. It is not among those that wait.
#[derive(Drop)]
pub(crate) struct Served {
    pub(crate) place: usize,
    pub(crate) peer: Peer,
    pub(crate) standing: Standing,
    // How many bytes of its piece were handed out, and how many since others were looked at.
    pub(crate) handed_out: usize,
    pub(crate) since_look: usize,
    ghost looked: { since_look ≤ handed_out },
}

impl Served {
    /// Moves packets or lines of the peer into the buffer: how many bytes. 0: there is nothing more by now, or
    /// its piece has had its lines.
    pub(crate) fn hand_out(&mut self, buf: &mut [u8], scratch: &mut [u8]) -> io::Result<usize>
        ensures length { length buf.new ≡ length buf.old }
        ensures scratch { length scratch.new ≡ length scratch.old }
        ensures handed { IfOk result (λ count. HandsOut self.old.peer count buf.new self.new.peer) }
        ensures place { self.new.place ≡ self.old.place }
    {
        let count = self.peer.hand_out(buf, scratch)?;
        self.handed_out = self.handed_out.saturating_add(count);
        self.since_look = self.since_look.saturating_add(count);
        Ok(count)
    }
}
