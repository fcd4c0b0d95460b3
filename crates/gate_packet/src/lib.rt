//! The data packet of NSCA version 3 under encryption method 0, in both its forms: `decode` reads
//! 4304 bytes as a `Packet` and `decode_short` the 720 of the older form, and `encode` and
//! `encode_short` write one. Bytes are at most one packet, whatever stands in the padding and after a
//! text's NUL, and what is written is read as the same packet. A `Cutter` cuts a stream into the
//! blocks that are read so. `crc32` is the check word.
#![tactic(auto)]

mod block;
mod block_ref;
mod check_word;
mod check_word_tables;
mod decoding;
mod encoding;
mod laws;
mod packet;
mod stream;

pub use block::Block;
pub use block_ref::{BlockRef, split_block};
pub use check_word::crc32;
pub use decoding::{PacketFault, decode, decode_block, decode_short, one_reading};
pub use encoding::{encode, encode_short, fits_short};
pub use laws::{round_trip, round_trip_short};
pub use packet::{ContentFault, Field, PACKET_SIZE, Packet, RefusedPacket, SHORT_PACKET_SIZE};
pub use stream::{Cutter, one_cut};
