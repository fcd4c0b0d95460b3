ghost use Rattle.std.specs.Prelude.{◌≡◌};
ghost use Rattle.gate_packet.specs.Stream.{block_bytes};

use crate::packet::{PACKET_SIZE, SHORT_PACKET_SIZE};

/// A block of a stream, which is to be read as one packet by `decode_block`. It is a copy, for those
/// who cut a stream by a `Cutter`; a session reads a block where it stands, by `split_block`.
#[derive(Clone, Copy)]
pub enum Block {
    /// A block of the older form.
    Short([u8; SHORT_PACKET_SIZE]),
    /// A block of the newer form.
    Long([u8; PACKET_SIZE]),
}

impl Block {
    /// The block's bytes.
    pub fn bytes(&self) -> &[u8]
        ensures { result.now ≡ block_bytes self.now }
    {
        match self {
            Block::Short(bytes) => bytes,
            Block::Long(bytes) => bytes,
        }
    }
}
