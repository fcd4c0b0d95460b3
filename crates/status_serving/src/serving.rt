//! The connections of browsers, served by a few threads, while others fetch the gateways' pages.
ghost use Rattle.std.specs.Prelude.{◌≡◌};

use crate::sending::Site;
use http_server::{Config, Service};
use std::alloc::AllocError;
use std::net::{Net, TcpListener, TcpStream};
use std::random::RandomSource;
use std::sync::Wait;
use std::thread::Threads;
use std::time::Clock;
use std::{io, thread};
use thiserror::Error;
use web_connections::Browsers;

// The bytes of the longest body of a request: a longer one is refused unread.
const LONGEST_BODY: usize = 16 << 10;

/// Why nothing is served.
#[derive(Clone, Copy, Debug, Error)]
pub enum ServeFault {
    /// No thread can be started, or has a descriptor to wait with.
    #[error("no thread can be started")]
    Spawn,
    /// Memory ran out.
    #[error("out of memory")]
    OutOfMemory,
}

impl From<AllocError> for ServeFault {
    ghost use Rattle.status_serving.specs.declared.serving.ServeFault.TheVariants.{OutOfMemory};

    ghost from_gives = { λ _ fault. fault ≡ OutOfMemory };

    fn from(_: AllocError) -> ServeFault {
        ServeFault::OutOfMemory
    }
}

// The browsers of one thread.
fn browsers_of<R: Net<Listener = TcpListener, Stream = TcpStream> + Clock>(
    site: &Site<'_, R>,
    listener: &TcpListener,
) -> io::Result<Browsers> {
    let mut config = Config::default();
    config.max_body_len = LONGEST_BODY;
    Browsers::new(site.rt, site.alloc, listener.try_clone()?, config)
}

/// Fetches the pages of all gateways, and then serves a listener on this many threads, or as many as
/// can be started, each by a copy of the service, while another thread for each gateway fetches its
/// page again, so many seconds after each fetch; for ever.
///
/// `Spawn`: no thread can be started, or has a descriptor to wait with. `OutOfMemory`: there is none to
/// begin with.
pub fn serve<
    R: Net<Listener = TcpListener, Stream = TcpStream>
        + Threads
        + Wait
        + Clock
        + RandomSource
        + Sync,
    S: Service + Copy + Send + Sync,
>(
    site: &Site<'_, R>,
    listener: &TcpListener,
    workers: u32,
    every: u32,
    service: &S,
) -> Result<(), ServeFault> {
    let rt = site.rt;
    let alloc = site.alloc;
    let watch = site.watch;
    watch.fetch_all(rt, alloc)?;
    thread::scope(thread::scope_env(), rt, |scope| {
        let mut is_served = false;
        for _ in 0..workers {
            let Ok(mut browsers) = browsers_of(site, listener) else {
                break;
            };
            let mut service = *service;
            let started = scope.spawn(move || browsers.serve(rt, &mut service));
            is_served |= started.is_ok();
        }
        if !is_served {
            return Err(ServeFault::Spawn);
        }
        for (index, watched) in watch.watched().iter().enumerate() {
            let started = scope.spawn(move || watched.fetch_always(rt, alloc, every));
            if started.is_err() {
                watch.fetch_from(rt, alloc, index, every);
            }
        }
        Ok(())
    })
}
