//! New connections of a listener.

ghost use Rattle.std.specs.Prelude.{◌≡◌};
ghost use Rattle.gate_ports.specs.Addresses.{octets_in, address_in};

use libc::net as c;
use os::FromRawFd;
use std::io;
use std::net::{TcpListener, TcpStream};
use std::os::fd::AsRawFd;

// The room for an address, C's sockaddr_storage.
type RawAddress = [u8; c::_SS_SIZE];

// The 16 bytes of the IPv6 address, or of the one to which the IPv4 address is mapped, in C's
// sockaddr_in6 or sockaddr_in, of a machine with little-endian numbers.
#[rattlefmt::skip]
fn octets_in(raw: &RawAddress) -> [u8; 16]
    ensures { result ≡ octets_in raw.now }
{
    if raw[0] == c::AF_INET as u8 {
        [0, 0, 0, 0, 0, 0, 0, 0, 0, 0, 255, 255, raw[4], raw[5], raw[6], raw[7]]
    } else {
        [
            raw[8], raw[9], raw[10], raw[11], raw[12], raw[13], raw[14], raw[15],
            raw[16], raw[17], raw[18], raw[19], raw[20], raw[21], raw[22], raw[23],
        ]
    }
}

// The same as a number.
fn address_in(raw: &RawAddress) -> u128
    ensures { result ≡ address_in raw.now }
{
    u128::from_be_bytes(octets_in(raw))
}

/// Accepts a connection that waits at the listener: its stream, whose calls don't wait, and the address
/// of its peer.
//
// By one call of the system: `std` makes another one for a stream that doesn't wait.
pub(crate) fn accept(listener: &TcpListener) -> io::Result<(TcpStream, u128)> {
    let mut raw = [0; c::_SS_SIZE];
    let mut length = c::_SS_SIZE as u32;
    let flags = c::SOCK_NONBLOCK | c::SOCK_CLOEXEC;
    let fd = unsafe { c::accept4(listener.as_raw_fd(), &mut raw, &mut length, flags) };
    if fd < 0 {
        return Err(io::Error::from_raw_os_error(os::errno()));
    }
    let stream = unsafe { TcpStream::from_raw_fd(fd) };
    Ok((stream, address_in(&raw)))
}
