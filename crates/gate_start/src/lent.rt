//! Listening sockets that a supervisor lends to the daemon.

ghost use Rattle.std.specs.Prelude.{◌≡◌, ◌≤◌, ◌+◌, length, IfOk, IfSome, IfNone};
ghost use Rattle.gate_start.specs.Lent.{lent_count};

use libc::getpid;
use os::FromRawFd;
use std::alloc::{AllocError, Global};
use std::net::{SocketAddr, TcpListener};
use std::os::fd::IntoRawFd;
use std::rt::Env;
use std::str::from_utf8;

// The descriptor of the first one, SD_LISTEN_FDS_START of sd_listen_fds(3).
const FIRST: i32 = 3;

// How many of them are looked at.
const MOST: u32 = 16;

// How many bytes a number may have.
const DIGITS: usize = 10;

// The number that the environment has under this name.
fn variable<R: Env>(rt: &R, name: &str) -> Option<u32> {
    let mut text = [0; DIGITS];
    let length = rt.var(name, &mut text).ok()?;
    from_utf8(&text[..length]).ok()?.parse().ok()
}

// How many are lent to this process, by the process that they are lent to and their number.
fn lent_count(process: u32, lent_to: Option<u32>, count: Option<u32>) -> u32
    ensures count { result ≡ lent_count process lent_to count }
    ensures most { result ≤ 16 }
{
    match (lent_to, count) {
        (Some(lent_to), Some(count)) if lent_to == process => count.min(MOST),
        _ => 0,
    }
}

/// The listening sockets that a supervisor lends to this process, and that are not in use yet. Those that are
/// not taken are closed.
#[derive(Drop)]
pub(crate) struct Lent {
    sockets: Vec<TcpListener>,
}

impl Lent {
    /// Those that the environment names, as sd_listen_fds(3) has it: LISTEN_FDS of them, 16 at most, from
    /// descriptor 3 on, where LISTEN_PID is the number of this process. It is to be called once.
    pub(crate) fn of<R: Env>(rt: &R, alloc: Global) -> Result<Lent, AllocError>
        ensures { IfOk result (λ lent. length lent.sockets.items ≤ 16) }
    {
        let Ok(process) = u32::try_from(getpid()) else {
            return Ok(Lent {
                sockets: Vec::new(alloc),
            });
        };
        let lent_to = variable(rt, "LISTEN_PID");
        let count = lent_count(process, lent_to, variable(rt, "LISTEN_FDS"));
        let mut sockets = Vec::with_capacity(alloc, count as usize)?;
        for number in 0..count {
            let socket = unsafe { TcpListener::from_raw_fd(FIRST + number as i32) };
            if socket.local_addr().is_ok() {
                sockets.push(socket)?;
            } else {
                // No socket of these, or none at all: what may be opened there isn't closed.
                let _ = socket.into_raw_fd();
            }
        }
        Ok(Lent { sockets })
    }

    /// Takes the one that is bound to this address.
    pub(crate) fn take(&mut self, address: SocketAddr) -> Option<TcpListener>
        ensures some { IfSome result (λ _.
            length self.new.sockets.items + 1 ≡ length self.old.sockets.items) }
        ensures none { IfNone result (self.new ≡ self.old) }
    {
        for index in 0..self.sockets.len() {
            let found = self.sockets[index].local_addr();
            if found.is_ok_and(|found| found == address) {
                return Some(self.sockets.swap_remove(index));
            }
        }
        None
    }
}
