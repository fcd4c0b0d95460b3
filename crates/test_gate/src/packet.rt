//! Packets of 4304 bytes and of 720.
use crate::parts::packet_of;
use gate_model::{Body, Moment};
use gate_packet::{
    Packet, PacketFault, crc32, decode, decode_short, encode, encode_short, fits_short, round_trip,
    round_trip_short, split_block,
};
use std::alloc::Global;

// The service result that the tests send.
fn timeout_of_http(alloc: Global) -> Option<Packet> {
    packet_of(alloc, 2, [b"web1", b"HTTP", b"timeout; 10s"])
}

#[rattlefmt::skip]
static WORDS: [(&[u8], u32); 4] = [
    (b"",                                            0x0000_0000),
    (b"a",                                           0xe8b7_be43),
    (b"123456789",                                   0xcbf4_3926),
    (b"The quick brown fox jumps over the lazy dog", 0x414f_a339),
];

#[test]
fn check_words_are_those_of_published_examples(rt: HostRuntime) {
    for (bytes, want) in WORDS.iter() {
        assert_eq!(rt; crc32(bytes), *want, "of {} bytes", bytes.len());
    }
}

#[rattlefmt::skip]
static LAYOUT: [(&[u8], usize); 6] = [
    (b"\x00\x03",                                             0),
    (b"\x00\x00\x03\xe8",                                     8),
    (b"\x00\x02",                                            12),
    (b"\x77\x65\x62\x31\x00",                                14),
    (b"\x48\x54\x54\x50\x00",                                78),
    (b"\x74\x69\x6d\x65\x6f\x75\x74\x3b\x20\x31\x30\x73\x00", 206),
];

fn is_laid_out(bytes: &[u8]) -> bool {
    for (want, offset) in LAYOUT.iter() {
        match bytes.split_at_checked(*offset) {
            Some((_, rest)) if rest.starts_with(want) => {}
            _ => return false,
        }
    }
    true
}

#[test]
fn a_service_result_is_laid_out_as_nsca_does(rt: HostRuntime) {
    let packet = timeout_of_http(rt.alloc());
    let is_laid_out = match &packet {
        Some(packet) => {
            fits_short(packet) && is_laid_out(&encode(packet)) && is_laid_out(&encode_short(packet))
        }
        None => false,
    };
    drop(packet);
    assert!(rt; is_laid_out);
}

fn is_same(read: Result<Packet, PacketFault>, sent: &Packet) -> bool {
    let is_same = match &read {
        Ok(packet) => *packet == *sent,
        Err(_) => false,
    };
    drop(read);
    is_same
}

// Fills the padding and what follows the NULs of `timeout_of_http`, as `send_nsca` does.
fn litter(bytes: &mut [u8]) {
    for (offset, byte) in bytes.iter_mut().enumerate() {
        if matches!(offset, 2..=3 | 19..=77 | 83..=205 | 219..=4303) {
            *byte = 0x5a;
        }
    }
}

// Whether the packet is read from littered bytes of 4304, with their own check word.
fn is_read_from_litter(alloc: Global, packet: &Packet) -> bool {
    let mut bytes = encode(packet);
    litter(&mut bytes);
    bytes[4..8].fill(0);
    let word = crc32(&bytes);
    bytes[4..8].copy_from_slice(&word.to_be_bytes());
    is_same(decode(alloc, &bytes, Moment(1005), 30), packet)
}

// The same with 720.
fn is_read_from_short_litter(alloc: Global, packet: &Packet) -> bool {
    if !fits_short(packet) {
        return false;
    }
    let mut bytes = encode_short(packet);
    litter(&mut bytes);
    bytes[4..8].fill(0);
    let word = crc32(&bytes);
    bytes[4..8].copy_from_slice(&word.to_be_bytes());
    is_same(decode_short(alloc, &bytes, Moment(1005), 30), packet)
}

#[test]
fn bytes_after_a_nul_and_in_the_padding_have_no_meaning(rt: HostRuntime) {
    let packet = timeout_of_http(rt.alloc());
    let are_read = match &packet {
        Some(packet) => {
            is_read_from_litter(rt.alloc(), packet) && is_read_from_short_litter(rt.alloc(), packet)
        }
        None => false,
    };
    drop(packet);
    assert!(rt; are_read);
}

// Whether the packet is read again in 4304 bytes, or in 720.
fn comes_back(alloc: Global, sent: &Packet, is_short: bool) -> bool {
    if !is_short {
        return is_same(round_trip(alloc, sent, Moment(1000), 30), sent);
    }
    fits_short(sent) && is_same(round_trip_short(alloc, sent, Moment(1000), 30), sent)
}

// The same of a packet with the longest names and this output.
fn is_read_again(alloc: Global, output: &[u8], is_short: bool) -> bool {
    let a = [b'a'; 127];
    let sent = packet_of(alloc, -1, [&a[..63], &a, output]);
    let is_read = match &sent {
        Some(packet) => comes_back(alloc, packet, is_short),
        None => false,
    };
    drop(sent);
    is_read
}

#[test]
fn the_longest_texts_are_read_as_they_were_written(rt: HostRuntime) {
    assert!(rt; is_read_again(rt.alloc(), &[b'a'; 4095], false));
    assert!(rt; is_read_again(rt.alloc(), &[b'a'; 511], true));
    assert!(rt; !is_read_again(rt.alloc(), &[b'a'; 512], true));
}

fn body_sent(alloc: Global) -> Option<Body> {
    Some(packet_of(alloc, -1, [b"web1", b"", b"up"])?.into_body())
}

#[test]
fn an_empty_service_is_a_result_of_the_host(rt: HostRuntime) {
    let body = body_sent(rt.alloc());
    let of_the_host = match &body {
        Some(body) => {
            let service_and_code = matches!(
                body,
                Body::Result {
                    service: None,
                    code: -1,
                    ..
                }
            );
            service_and_code && body.is_result()
        }
        None => false,
    };
    drop(body);
    assert!(rt; of_the_host);
}

// A packet of 720 bytes and three bytes more.
fn short_and_more(alloc: Global) -> Option<Vec<u8>> {
    let packet = timeout_of_http(alloc)?;
    let stream = if fits_short(&packet) {
        encode_short(&packet).to_vec(alloc).ok()
    } else {
        None
    };
    drop(packet);
    let mut stream = stream?;
    stream.extend_from_slice(b"abc").ok()?;
    Some(stream)
}

fn is_split_at_720(stream: &[u8]) -> bool {
    match (split_block(stream), stream.split_at_checked(720)) {
        (Some((block, rest)), Some((short, more))) => block.bytes() == short && rest == more,
        _ => false,
    }
}

#[test]
fn a_short_packet_is_the_first_block_of_its_stream(rt: HostRuntime) {
    let stream = short_and_more(rt.alloc());
    assert!(rt; stream.is_some_and(|stream| is_split_at_720(&stream)));
}
