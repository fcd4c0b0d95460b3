//! Connections that end by a reset.

use libc::net as c;
use std::net::TcpStream;
use std::os::fd::AsRawFd;

// Of an address of no family, AF_UNSPEC, which is all zeros: so many bytes.
const FAMILY_SIZE: u32 = 2;

/// A connection was reset. Only `reset` makes one of these.
#[derive(Clone, Copy)]
pub(crate) struct WasReset(());

/// Ends a connection by a reset: what its peer was sent and has not received by now is dropped, and its
/// next call fails, so that nobody takes what has come for all that there is.
//
// A socket that is connected to no address is reset, and neither `std` nor `mio` can set SO_LINGER.
pub(crate) fn reset(stream: TcpStream) -> WasReset {
    let none = [0; c::_SS_SIZE];
    // The descriptor is the stream's own until it is dropped, and C reads the address within the call. What
    // the call answers changes nothing: the stream is dropped.
    let _ = unsafe { c::connect(stream.as_raw_fd(), &none, FAMILY_SIZE) };
    WasReset(())
}
