use gate_grammar::LineFault;
use gate_packet::PacketFault;

/// Why a packet or a line isn't taken. Packets have numbers from 1, and so have lines.
#[derive(Clone, Copy, Debug)]
pub enum KeptFault {
    /// The packet of this number is none.
    Packet(u64, PacketFault),
    /// The text ends within the packet of this number.
    CutPacket(u64),
    /// The line of this number is no command.
    Line(u64, LineFault),
    /// The line of this number is SHUTDOWN_PROGRAM.
    Shutdown(u64),
    /// The text ends within the line of this number.
    CutLine(u64),
}
