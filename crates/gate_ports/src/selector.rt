//! What a worker waits with for all of its peers at once.

ghost use Rattle.std.specs.Prelude.{◌≡◌, ◌<◌, ◌≤◌, ◌↔◌, pos, ◌≤ℤ◌, vec_len, IsOk, IfSome};
ghost use Rattle.gate_ports.specs.Asked.{events_of, operation_of, number_of};

use libc::net as c;
use mio::{Poll, Token, Waker};
use os::EpollEvent;
use std::alloc::Global;
use std::io;
use std::net::{Net, TcpListener, TcpStream};
use std::os::fd::AsRawFd;

// How many events are taken from the system at a time.
const EVENTS: usize = 256;

// Of the workers that wait for a connection one is woken.
const EPOLLEXCLUSIVE: u32 = 1 << 28;

// The numbers of what isn't a peer. Those of peers are their places.
pub(crate) const LISTENER: u64 = u64::MAX;

const WAKER: usize = usize::MAX - 1;

/// What the system is asked for.
#[derive(Clone, Copy)]
pub(crate) enum Asked {
    /// To report the listener as long as a connection waits there, to one of the workers that wait.
    Connections,
    /// To report the listener no more.
    NoConnections,
    /// To report that there is something to read from the peer at this place, once.
    Reads(usize),
    /// To report also that something can be written to it. What can be done by now is reported again.
    All(usize),
}

// The operation, the events and the number that stand for it.
fn call_of(asked: Asked) -> (i32, u32, u64)
    ensures operation { result.0 ≡ pos (operation_of asked) }
    ensures events { result.1 ≡ events_of asked }
    ensures number { result.2 ≡ number_of asked }
{
    let reads = c::EPOLLIN | c::EPOLLRDHUP | c::EPOLLET;
    match asked {
        Asked::Connections => (c::EPOLL_CTL_ADD, c::EPOLLIN | EPOLLEXCLUSIVE, LISTENER),
        Asked::NoConnections => (c::EPOLL_CTL_DEL, 0, LISTENER),
        Asked::Reads(place) => (c::EPOLL_CTL_ADD, reads, place as u64),
        Asked::All(place) => (c::EPOLL_CTL_MOD, reads | c::EPOLLOUT, place as u64),
    }
}

/// Whether a call of the system succeeded.
pub(crate) fn check(status: i32) -> io::Result<()>
    ensures { IsOk result ↔ (pos 0 ≤ℤ status) }
{
    if status < 0 {
        Err(io::Error::from_raw_os_error(os::errno()))
    } else {
        Ok(())
    }
}

/// The peers of a worker, its listener and its waker, as the system watches them.
#[derive(Drop)]
pub(crate) struct Selector {
    poll: Poll,
    events: Vec<EpollEvent>,
    ghost room: { vec_len events ≡ 256 },
}

impl Selector {
    /// A selector that watches its waker alone.
    pub(crate) fn new<R: Net>(rt: &R, alloc: Global) -> io::Result<(Selector, Waker)> {
        let events = Vec::from_elem(alloc, EpollEvent { events: 0, data: 0 }, EVENTS)?;
        let poll = Poll::new(rt)?;
        let waker = Waker::new(poll.registry(), Token(WAKER))?;
        Ok((Selector { poll, events }, waker))
    }

    /// Asks the system to report something of this socket.
    pub(crate) fn ask<S: AsRawFd>(&self, socket: &S, asked: Asked) -> io::Result<()> {
        let (operation, events, number) = call_of(asked);
        let fd = socket.as_raw_fd();
        check(os::epoll_ctl(self.poll.as_raw_fd(), operation, fd, events, number))
    }

    /// Waits until something is to be reported, for this many milliseconds at most: how many reports there
    /// are.
    pub(crate) fn wait(&mut self, timeout: Option<u64>) -> usize
        ensures { result ≤ 256 }
    {
        let timeout = match timeout {
            Some(millis) => i32::try_from(millis).unwrap_or(i32::MAX),
            None => -1,
        };
        os::epoll_wait(self.poll.as_raw_fd(), &mut self.events, timeout)
    }

    /// The number of this report.
    pub(crate) fn reported(&self, index: usize) -> Option<u64>
        ensures { IfSome result (λ _. index < 256) }
    {
        if index < self.events.len() {
            Some(self.events[index].data)
        } else {
            None
        }
    }
}
