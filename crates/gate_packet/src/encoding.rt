ghost use Rattle.std.specs.Prelude.{◌≡◌, ◌≤◌, ◌+◌, length, true};
ghost use Rattle.byteorder.specs.Endian.{big_bytes};
ghost use Rattle.gate_packet.specs.Layout.{zeros};
ghost use Rattle.gate_packet.specs.Packet.{IsContent, fits_short};
ghost use Rattle.gate_packet.specs.Decoding.{IsPacket};
ghost use Rattle.gate_packet.specs.Encoding.{IsZeroFilled, encoded};
ghost use Rattle.gate_packet.specs.inner.Writes.{written, HasRoom};

use crate::check_word::crc32;
use crate::packet::{
    CHECK_WORD_OFFSET, CODE_OFFSET, HOST_OFFSET, OTHER_SIZE, OUTPUT_OFFSET, PACKET_SIZE, Packet,
    SERVICE_OFFSET, SHORT_PACKET_SIZE, TIMESTAMP_OFFSET, VERSION, VERSION_OFFSET,
};
use byteorder::{BigEndian, ByteOrder};

fn put_u16(bytes: &mut [u8], offset: usize, value: u16)
    requires { offset + 2 ≤ length bytes.old }
    ensures { bytes.new ≡ written offset (big_bytes 2 value) bytes.old }
{
    BigEndian::write_u16(&mut bytes[offset..offset + 2], value);
}

fn put_u32(bytes: &mut [u8], offset: usize, value: u32)
    requires { offset + 4 ≤ length bytes.old }
    ensures { bytes.new ≡ written offset (big_bytes 4 value) bytes.old }
{
    BigEndian::write_u32(&mut bytes[offset..offset + 4], value);
}

fn put_text(bytes: &mut [u8], offset: usize, text: &[u8])
    requires { offset + length text.now ≤ length bytes.old }
    ensures { bytes.new ≡ written offset text.now bytes.old }
{
    bytes[offset..offset + text.len()].copy_from_slice(text);
}

// Writes a packet over zeros.
fn write(bytes: &mut [u8], packet: &Packet)
    requires room { HasRoom (length bytes.old) packet.now }
    requires blank { bytes.old ≡ zeros (length bytes.old) }
    ensures packet { IsPacket bytes.new packet.now }
    ensures zeros { IsZeroFilled bytes.new packet.now }
    ensures bytes { bytes.new ≡ encoded (length bytes.old) packet.now }
    ensures content { IsContent packet.now }
{
    put_u16(bytes, VERSION_OFFSET, VERSION);
    put_u32(bytes, TIMESTAMP_OFFSET, packet.timestamp.0);
    put_u16(bytes, CODE_OFFSET, packet.code.cast_unsigned());
    put_text(bytes, HOST_OFFSET, packet.host.bytes());
    put_text(bytes, SERVICE_OFFSET, packet.service.bytes());
    put_text(bytes, OUTPUT_OFFSET, packet.output.bytes());
    let word = crc32(bytes);
    put_u32(bytes, CHECK_WORD_OFFSET, word);
}

/// The packet's bytes, with zeros in the padding and after the texts. They are this packet and no
/// other.
///
/// Source: `data_packet` of NSCA 2.9, `common.h`, version 3. Own rule: the zeros.
#[tactic(auto, unfolding(crate::specs::Layout::zeros))]
pub fn encode(packet: &Packet) -> [u8; PACKET_SIZE]
    ensures packet { IsPacket result packet.now }
    ensures zeros { IsZeroFilled result packet.now }
    ensures bytes { result ≡ encoded 4304 packet.now }

    ensures content { IsContent packet.now }
{
    let mut bytes = [0; PACKET_SIZE];
    write(&mut bytes, packet);
    bytes
}

/// Whether the packet can be written in the older form: its output has at most 511 bytes.
///
/// Source: `data_packet` of NSCA 2.7, whose output has a field of 512 bytes.
pub fn fits_short(packet: &Packet) -> bool
    ensures { result ≡ fits_short packet.now }
{
    packet.output.bytes().len() < SHORT_PACKET_SIZE - OTHER_SIZE
}

/// The packet's bytes in the older form, which only `fits_short` packets have, with zeros in the
/// padding and after the texts. They are this packet and no other.
///
/// Source: `data_packet` of NSCA 2.7, `common.h`, version 3. Own rule: the zeros.
#[tactic(auto, unfolding(crate::specs::Layout::zeros))]
pub fn encode_short(packet: &Packet) -> [u8; SHORT_PACKET_SIZE]
    requires { fits_short packet.now ≡ true }
    ensures packet { IsPacket result packet.now }
    ensures zeros { IsZeroFilled result packet.now }
    ensures bytes { result ≡ encoded 720 packet.now }

    ensures content { IsContent packet.now }
{
    let mut bytes = [0; SHORT_PACKET_SIZE];
    write(&mut bytes, packet);
    bytes
}
