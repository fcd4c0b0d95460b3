//! A gateway over sockets.

use crate::done::Done;
use crate::gateway::Gateway;
use crate::next::Next;
use crate::pages::LivePages;
use gate_grammar::Command;
use operator_lines::{AskFault, Reply};
use page_fetching::{FetchFault, Timed, fetch};
use std::alloc::{AllocError, Global};
use std::net::{Net, SocketAddr, TcpListener, TcpStream};
use std::time::{Clock, Duration, Instant};

/// The gateway of these ports. Its operators' port may take so many seconds for a connection and an
/// answer, and its pages as many more to show a command.
#[derive(Drop)]
pub struct LiveGateway<'a, R> {
    rt: &'a R,
    operators: SocketAddr,
    pages: SocketAddr,
    seconds: u32,
    watched: Option<LivePages<'a, R>>,
    done: Done,
}

impl<'a, R> LiveGateway<'a, R> {
    ghost use Rattle.std.specs.Prelude.{◌≡◌, []};

    /// Nothing was done there yet.
    pub fn new(
        rt: &'a R,
        alloc: Global,
        operators: SocketAddr,
        pages: SocketAddr,
        seconds: u32,
    ) -> LiveGateway<'a, R>
        ensures operators { result.operators ≡ operators }
        ensures pages { result.pages ≡ pages }
        ensures seconds { result.seconds ≡ seconds }
        ensures nothing { result.done ≡ [] }
    {
        LiveGateway {
            rt,
            operators,
            pages,
            seconds,
            watched: None,
            done: Done::new(alloc),
        }
    }
}

impl<'a, R: Net<Listener = TcpListener, Stream = TcpStream> + Clock> Gateway
    for LiveGateway<'a, R> {
    ghost done = { λ gateway. gateway.done };

    fn page(&mut self, alloc: Global) -> Result<Vec<u8>, FetchFault> {
        let text = match fetch(self.rt, alloc, self.pages) {
            Ok(text) => text,
            Err(fault) => return Err(fault),
        };
        match self.done.page(&text) {
            Ok(()) => Ok(text),
            Err(_) => Err(FetchFault::OutOfMemory),
        }
    }

    fn send(&mut self, alloc: Global, command: &Command) -> Result<Reply, AskFault> {
        self.watched = None;
        let within = Duration::from_secs(u64::from(self.seconds));
        let Ok(begun) = Instant::now(self.rt) else {
            return Err(AskFault::WriteFault);
        };
        let Ok(stream) = TcpStream::connect_timeout(self.rt, &self.operators, within) else {
            return Err(AskFault::WriteFault);
        };
        let mut reader = Timed::new(self.rt, &stream, begun, u64::from(self.seconds));
        let mut writer = Timed::new(self.rt, &stream, begun, u64::from(self.seconds));
        self.done.ask(alloc, &mut reader, &mut writer, command)
    }

    fn next(&mut self, alloc: Global) -> Result<Next, AllocError> {
        if self.watched.is_none() {
            self.watched = LivePages::new(self.rt, self.pages, self.seconds).ok();
        }
        let next = match &mut self.watched {
            Some(pages) => pages.next(alloc),
            None => Next::Over,
        };
        self.done.read(&next)?;
        Ok(next)
    }
}
