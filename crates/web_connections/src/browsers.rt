ghost use Rattle.std.specs.Prelude.{◌≡◌};

use crate::browser::{Browser, limit_of};
use http_server::{Config, Connection, Service};
use mio::net::{TcpListener, TcpStream};
use mio::{Events, Interest, Poll, Token};
use std::alloc::Global;
use std::hash::RandomState;
use std::io::ErrorKind;
use std::net::Net;
use std::random::RandomSource;
use std::sync::Wait;
use std::time::{Clock, Duration, Instant};
use std::{io, mem, net};

/// For how many browsers a thread waits at most.
const MOST_BROWSERS: usize = 256;

/// How many bytes are kept for the browsers of a thread that don't take them, in all. Where one that
/// doesn't take its bytes has more, it is the only one.
const MOST_KEPT: usize = 33_554_432;

/// The milliseconds of a pause where no connection can be accepted, as without descriptors.
const ACCEPT_MILLIS: u64 = 50;

// The token of the listener. The others are places of browsers.
const LISTENER: Token = Token(MOST_BROWSERS);

/// The browsers for whom one thread waits, up to 256. One more comes in place of the one that has owed
/// its request for the longest time.
#[derive(Drop)]
pub struct Browsers {
    alloc: Global,
    config: Config,
    listener: TcpListener,
    poll: Poll,
    events: Events,
    browsers: Vec<Option<Browser>>,
    // Whether a connection may wait at the listener.
    may_accept: bool,
    // Whether the last accept failed for want of a descriptor or of memory.
    is_short: bool,
    began: Instant,
}

// The places, each without a browser.
fn no_browsers(alloc: Global) -> io::Result<Vec<Option<Browser>>> {
    let mut browsers = Vec::with_capacity(alloc, MOST_BROWSERS)?;
    for _ in 0..MOST_BROWSERS {
        browsers.push(None)?;
    }
    Ok(browsers)
}

impl Browsers {
    /// No browsers yet, of this listener, which several threads may share. Each connection has the limits of this
    /// configuration.
    ///
    /// It fails where the system has no descriptors for waiting, or memory is missing.
    pub fn new<R: Net + Clock>(
        rt: &R,
        alloc: Global,
        listener: net::TcpListener,
        config: Config,
    ) -> io::Result<Browsers> {
        let began = Instant::now(rt)?;
        listener.set_nonblocking(true)?;
        let mut listener = TcpListener::from_std(listener);
        let poll = Poll::new(rt)?;
        poll.registry()
            .register(&mut listener, LISTENER, Interest::READABLE)?;
        let events = Events::with_capacity(alloc, MOST_BROWSERS + 1)?;
        let browsers = no_browsers(alloc)?;
        Ok(Browsers {
            alloc,
            config,
            listener,
            poll,
            events,
            browsers,
            may_accept: true,
            is_short: false,
            began,
        })
    }

    // Milliseconds since the start. Where the clock can't be read, nobody is late.
    fn now<R: Clock>(&self, rt: &R) -> u64 {
        let since = self.began.elapsed(rt).map_or(0, |since| since.as_millis());
        u64::try_from(since).unwrap_or(0)
    }

    // The place of the browser that has had bytes to take, or none, for the longest time.
    fn longest(&self, has_kept: bool) -> Option<usize> {
        let mut longest = None;
        let mut least = u64::MAX;
        for place in 0..self.browsers.len() {
            if let Some(browser) = &self.browsers[place] {
                if (browser.kept() > 0) == has_kept && browser.since < least {
                    longest = Some(place);
                    least = browser.since;
                }
            }
        }
        longest
    }

    // Puts a browser, or none, into this place, and closes the connection of the one before.
    fn set(&mut self, place: usize, mut browser: Option<Browser>) {
        if place < self.browsers.len() {
            mem::swap(&mut self.browsers[place], &mut browser);
        }
        drop(browser);
    }

    // Closes the connection of the browser that has had bytes to take, or none, for the longest time: its
    // place.
    fn let_go(&mut self, has_kept: bool) -> Option<usize> {
        let place = self.longest(has_kept)?;
        self.set(place, None);
        Some(place)
    }

    // A place for one more browser.
    fn next_place(&mut self) -> Option<usize> {
        match self.browsers.iter().position(|browser| browser.is_none()) {
            Some(place) => Some(place),
            None => self.let_go(false),
        }
    }

    // Accepts one connection that waits at the listener, and asks the system to report what becomes of it
    // by this token.
    fn accept_stream(&mut self, token: Token) -> io::Result<TcpStream> {
        let (mut stream, _) = self.listener.accept()?;
        let both = Interest::READABLE | Interest::WRITABLE;
        self.poll.registry().register(&mut stream, token, both)?;
        Ok(stream)
    }

    // Accepts one connection that waits at the listener.
    fn accept_one<R: RandomSource>(&mut self, rt: &R, place: usize, now: u64) -> io::Result<()> {
        let stream = self.accept_stream(Token(place))?;
        let connection = Connection::new(self.alloc, RandomState::new(rt)?, self.config);
        self.set(place, Some(Browser::new(stream, connection, now)));
        Ok(())
    }

    // Accepts a connection, if one waits: one at a time, so that another thread takes the next one while this one
    // answers. Where the system has no descriptor left, the browser that has owed its request for the longest
    // time makes room.
    fn accept<R: RandomSource>(&mut self, rt: &R, now: u64) {
        self.is_short = false;
        if !self.may_accept {
            return;
        }
        let Some(place) = self.next_place() else {
            self.is_short = true;
            return;
        };
        match self.accept_one(rt, place, now) {
            Ok(()) => {}
            Err(error) if error.kind() == ErrorKind::WouldBlock => self.may_accept = false,
            // It has gone meanwhile.
            Err(error) if error.kind() == ErrorKind::ConnectionAborted => {}
            Err(_) => self.is_short = self.let_go(false).is_none(),
        }
    }

    // Takes note of what the system reported.
    fn note_events(&mut self) {
        for event in self.events.iter() {
            let Token(place) = event.token();
            if place == MOST_BROWSERS {
                self.may_accept = true;
            } else if place < self.browsers.len() {
                if let Some(browser) = &mut self.browsers[place] {
                    browser.may_read = true;
                    browser.may_write = true;
                }
            }
        }
    }

    // Until when nothing has to be done, in milliseconds from now; None: as long as nothing happens.
    fn idle(&self, now: u64) -> Option<u64> {
        let mut least = None;
        for place in 0..self.browsers.len() {
            if let Some(browser) = &self.browsers[place] {
                if browser.can_go_on() {
                    return Some(0);
                }
                let spent = now.saturating_sub(browser.since);
                let left = limit_of(browser.owed()).saturating_sub(spent);
                least = Some(left.min(least.unwrap_or(left)));
            }
        }
        if !self.may_accept {
            return least;
        }
        if self.is_short {
            return Some(ACCEPT_MILLIS.min(least.unwrap_or(ACCEPT_MILLIS)));
        }
        Some(0)
    }

    // Does for the browser at this place what can be done without waiting, and closes its connection
    // where it has failed, is late or has ended.
    fn go_on<R: Clock, S: Service>(&mut self, rt: &R, service: &mut S, place: usize, now: u64) {
        if place >= self.browsers.len() {
            return;
        }
        let Some(browser) = &mut self.browsers[place] else {
            return;
        };
        let goes_on = !browser.can_go_on()
            || browser.go_on(rt, self.alloc, service, now).unwrap_or(false);
        if !goes_on || browser.is_late(now) {
            self.set(place, None);
        }
    }

    // How many bytes are kept for all browsers.
    fn kept(&self) -> usize {
        let mut sum = 0usize;
        for browser in &self.browsers {
            if let Some(browser) = browser {
                sum = sum.saturating_add(browser.kept());
            }
        }
        sum
    }

    // Lets go of browsers that don't take their bytes, until few enough are kept.
    fn limit_kept(&mut self) {
        for _ in 0..MOST_BROWSERS {
            let open = self.browsers.iter().filter(|one| one.is_some()).count();
            if open < 2 || self.kept() <= MOST_KEPT || self.let_go(true).is_none() {
                return;
            }
        }
    }

    // Waits until something happens, and does what can be done for the browsers.
    fn turn<R: Clock + RandomSource, S: Service>(&mut self, rt: &R, service: &mut S) {
        let idle = self.idle(self.now(rt));
        let timeout = idle.map(|millis| Duration::from_millis(millis));
        let _ = self.poll.poll(&mut self.events, timeout);
        self.note_events();
        let now = self.now(rt);
        self.accept(rt, now);
        for place in 0..self.browsers.len() {
            self.go_on(rt, service, place, now);
        }
        self.limit_kept();
    }

    /// Answers browsers by this service, for ever. A request has to be whole within 4 seconds of the
    /// accept, and an answer taken within 10. What goes wrong ends a connection, and no more.
    pub fn serve<R: Clock + RandomSource + Wait, S: Service>(&mut self, rt: &R, service: &mut S) {
        for _ in rt.forever() {
            self.turn(rt, service);
        }
    }
}
