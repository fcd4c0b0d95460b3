//! The text of a gateway's status page.

use crate::timed::Timed;
use std::alloc::Global;
use std::io::{ErrorKind, Read};
use std::net::{Net, SocketAddr, TcpListener, TcpStream};
use std::time::{Clock, Duration, Instant};
use thiserror::Error;

/// Why no text of a gateway's page was fetched.
#[derive(Clone, Copy, Debug, Error)]
pub enum FetchFault {
    /// No connection in time, or it was refused.
    #[error("the gateway doesn't accept a connection")]
    Unreachable,
    /// The page did not end in time.
    #[error("the page didn't end in time")]
    TooSlow,
    /// The page is longer than 64 MiB, or where so many may be read, than 1 GiB.
    #[error("the page is longer than 64 MiB")]
    TooLong,
    /// The connection broke.
    #[error("the connection broke")]
    Broken,
    /// Memory ran out.
    #[error("out of memory")]
    OutOfMemory,
}

// The seconds in which a gateway has to accept.
const CONNECT_TIMEOUT: u64 = 1;
// The seconds after the connection in which a page has to end.
const PAGE_TIMEOUT: u64 = 4;
// The bytes of the longest page, 64 MiB, and 1 GiB for a caller that has the time.
const LONGEST_PAGE: u64 = 64 << 20;

const LONGEST_OF_ALL: u64 = 1 << 30;

/// The text of a gateway's page, or why there is none.
pub type Fetched = Result<Vec<u8>, FetchFault>;

// Reads to the end, at most so many bytes.
fn read_page<R: Read + Drop>(reader: R, alloc: Global, longest: u64) -> Fetched {
    let mut page = Vec::new(alloc);
    match reader
        .take(longest.saturating_add(1))
        .read_to_end(&mut page)
    {
        Ok(length) if length as u64 > longest => Err(FetchFault::TooLong),
        Ok(_) => Ok(page),
        Err(error) => match error.kind() {
            ErrorKind::TimedOut | ErrorKind::WouldBlock => Err(FetchFault::TooSlow),
            ErrorKind::OutOfMemory => Err(FetchFault::OutOfMemory),
            _ => Err(FetchFault::Broken),
        },
    }
}

// Reads a gateway's page of at most so many bytes.
fn fetch_at_most<R: Net<Listener = TcpListener, Stream = TcpStream> + Clock>(
    rt: &R,
    alloc: Global,
    address: SocketAddr,
    connects: u64,
    reads: u64,
    longest: u64,
) -> Fetched {
    let within = Duration::from_secs(connects);
    let Ok(stream) = TcpStream::connect_timeout(rt, &address, within) else {
        return Err(FetchFault::Unreachable);
    };
    let Ok(begun) = Instant::now(rt) else {
        return Err(FetchFault::Broken);
    };
    read_page(Timed::new(rt, &stream, begun, reads), alloc, longest)
}

/// Reads a gateway's page of at most 1 GiB: connects within so many seconds, and reads to its end
/// within the others.
pub fn fetch_within<R: Net<Listener = TcpListener, Stream = TcpStream> + Clock>(
    rt: &R,
    alloc: Global,
    address: SocketAddr,
    connects: u64,
    reads: u64,
) -> Fetched {
    fetch_at_most(rt, alloc, address, connects, reads, LONGEST_OF_ALL)
}

/// Reads a gateway's page of at most 64 MiB, within a second and four seconds more.
pub fn fetch<R: Net<Listener = TcpListener, Stream = TcpStream> + Clock>(
    rt: &R,
    alloc: Global,
    address: SocketAddr,
) -> Fetched {
    fetch_at_most(
        rt,
        alloc,
        address,
        CONNECT_TIMEOUT,
        PAGE_TIMEOUT,
        LONGEST_PAGE,
    )
}
