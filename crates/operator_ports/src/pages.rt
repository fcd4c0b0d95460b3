//! The pages of a gateway, one after another, until the time is over.

use crate::next::Next;
use page_fetching::fetch_within;
use std::alloc::Global;
use std::net::{Net, SocketAddr, TcpListener, TcpStream};
use std::time::{Clock, Duration, Instant};
use std::{io, thread};

// The milliseconds before the first page, and those between two pages in the end.
const FIRST_PAUSE: u64 = 50;

const LONGEST_PAUSE: u64 = 1000;

/// The pages of the port at an address, within some seconds: the pause between two of them doubles
/// up to a second.
#[derive(Drop)]
pub struct LivePages<'a, R> {
    rt: &'a R,
    address: SocketAddr,
    begun: Instant,
    seconds: u32,
    pause: u64,
}

impl<'a, R: Clock> LivePages<'a, R> {
    /// The pages from now on.
    pub fn new(rt: &'a R, address: SocketAddr, seconds: u32) -> io::Result<LivePages<'a, R>> {
        Ok(LivePages {
            rt,
            address,
            begun: Instant::now(rt)?,
            seconds,
            pause: FIRST_PAUSE,
        })
    }
}

impl<'a, R: Net<Listener = TcpListener, Stream = TcpStream> + Clock> LivePages<'a, R> {
    /// The next page, after a pause.
    pub fn next(&mut self, alloc: Global) -> Next {
        let left = match self.begun.elapsed(self.rt) {
            Ok(spent) => u64::from(self.seconds).saturating_sub(spent.as_secs()),
            Err(_) => 0,
        };
        if left == 0 {
            return Next::Over;
        }
        thread::sleep(self.rt, Duration::from_millis(self.pause));
        self.pause = self.pause.saturating_mul(2).min(LONGEST_PAUSE);
        match fetch_within(self.rt, alloc, self.address, left, left) {
            Ok(text) => Next::Page(text),
            Err(_) => Next::Gone,
        }
    }
}
