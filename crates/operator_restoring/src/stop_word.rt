//! The word `stop`: keeps a gateway's status page and its log page, and shuts it down.

ghost use Rattle.std.specs.Prelude.{◌≡◌, IfErr};
ghost use Rattle.operator_restoring.specs.Faults.{IsNotStopped};

use crate::stopping::{Stopped, stop_by};
use gate_grammar::Command;
use gate_model::Body;
use gate_streams::Sink;
use kept_files::{keep, keep_page, read_file, runs};
use operator_commands::{Options, Task};
use operator_lines::Reply;
use operator_ports::{Gateway, LiveGateway, LivePages, Next};
use operator_setup::{ControlFault, Places, now, path_in, path_of, places_for};
use page_fetching::fetch_within;
use std::alloc::Global;
use std::fs::Files;
use std::net::{Net, TcpListener, TcpStream};
use std::thread;
use std::time::{Clock, Duration, Instant};

// A gateway of these ports, and the paths of what is kept of it. No clause can name what a socket or a
// file carries.
#[derive(Drop)]
struct LiveStop<'a, R> {
    rt: &'a R,
    places: Places,
    pages: LivePages<'a, R>,
    page: &'a str,
    log: Option<&'a str>,
    pid: Option<&'a str>,
}

fn pages_of<'a, R: Clock>(rt: &'a R, places: Places) -> Result<LivePages<'a, R>, ControlFault>
    ensures { IfErr result (λ fault. fault ≡ ControlFault.NoClock) }
{
    match LivePages::new(rt, places.pages, places.seconds) {
        Ok(pages) => Ok(pages),
        Err(_) => Err(ControlFault::NoClock),
    }
}

// Waits until a process has ended; false where it hasn't in this time.
fn has_ended<R: Clock + Files>(
    rt: &R,
    alloc: Global,
    pid: &str,
    seconds: u32,
) -> Result<bool, ControlFault>
    ensures { IfErr result (λ fault. fault ≡ ControlFault.NoClock) }
{
    let Ok(begun) = Instant::now(rt) else {
        return Err(ControlFault::NoClock);
    };
    for _ in 0..u64::MAX {
        if !runs(rt, alloc, pid).unwrap_or(true) {
            return Ok(true);
        }
        match begun.elapsed(rt) {
            Ok(spent) if spent.as_secs() < u64::from(seconds) => {}
            _ => return Ok(false),
        }
        thread::sleep(rt, Duration::from_millis(20));
    }
    Ok(false)
}

impl<'a, R: Net<Listener = TcpListener, Stream = TcpStream> + Clock + Files> Stopped
    for LiveStop<'a, R> {
    ghost shows = { λ _. Unit {0} };

    ghost prints = { λ _. Unit {0} };

    ghost has_page = { λ _. Unit {0} };

    ghost has_log = { λ _. Unit {0} };

    ghost closes = { Unit {0} };

    fn page(&mut self, alloc: Global) -> Option<Vec<u8>> {
        let seconds = u64::from(self.places.seconds);
        fetch_within(self.rt, alloc, self.places.pages, seconds, seconds).ok()
    }

    fn shut_down(&mut self, alloc: Global) -> Result<bool, ControlFault> {
        let command = Command {
            entered: now(self.rt)?,
            body: Body::Shutdown,
        };
        let Places {
            operators,
            pages,
            seconds,
        } = self.places;
        let mut gateway = LiveGateway::new(self.rt, alloc, operators, pages, seconds);
        let reply = gateway.send(alloc, &command);
        drop(gateway);
        drop(command);
        Ok(matches!(reply, Ok(Reply::Closing)))
    }

    fn begin(&mut self) -> Result<(), ControlFault> {
        self.pages = pages_of(self.rt, self.places)?;
        Ok(())
    }

    fn next(&mut self, alloc: Global) -> Next {
        self.pages.next(alloc)
    }

    fn has_ended(&mut self, alloc: Global) -> Result<bool, ControlFault> {
        match self.pid {
            Some(pid) => has_ended(self.rt, alloc, pid, self.places.seconds),
            None => Ok(true),
        }
    }

    fn printed(&mut self, alloc: Global) -> Option<Vec<u8>> {
        match self.log {
            Some(log) => read_file(self.rt, alloc, log).ok(),
            None => None,
        }
    }

    fn pause(&mut self) {
        thread::sleep(self.rt, Duration::from_secs(1));
    }

    fn keep_page(&mut self, alloc: Global, text: &[u8]) -> bool {
        keep_page(self.rt, alloc, self.page, text).is_ok()
    }

    fn keep_log(&mut self, alloc: Global, text: &[u8]) -> bool {
        let page = self.page;
        let Ok(path) = format!(in alloc; "{page}.log") else {
            return false;
        };
        keep(self.rt, alloc, path.as_str(), text).is_ok()
    }
}

/// Keeps a gateway's status page and its log page, and shuts it down. Returns the exit status: 0
/// where nothing that was answered `queued` is missing, 1 where it has ended and what is kept may
/// be older, and 3 where it didn't answer or hasn't ended. The task is `Stop`; another is `BadWords`,
/// as is a path that is no UTF-8. An error is also a fault of the ports, or that of `stop_by`.
pub fn stop<R: Net<Listener = TcpListener, Stream = TcpStream> + Clock + Files, W: Sink, E: Sink>(
    rt: &R,
    alloc: Global,
    options: &Options,
    task: &Task,
    output: &mut W,
    errors: &mut E,
) -> Result<u8, ControlFault>
    ensures { IfErr result (IsNotStopped options.now task.now) }
{
    let Task::Stop { page, log, pid } = task else {
        return Err(ControlFault::BadWords);
    };
    let (page, log, pid) = (path_in(page)?, path_of(log)?, path_of(pid)?);
    let places = places_for(rt, alloc, options)?;
    let log_seconds = match (log, pid) {
        (None, _) => None,
        (Some(_), Some(_)) => Some(0),
        (Some(_), None) => Some(places.seconds),
    };
    let mut live = LiveStop {
        rt,
        places,
        pages: pages_of(rt, places)?,
        page,
        log,
        pid,
    };
    let ended = stop_by(alloc, &mut live, log_seconds, output, errors);
    drop(live);
    ended
}
