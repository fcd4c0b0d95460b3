ghost use Rattle.std.specs.Prelude.{◌≡◌, IfOk};
ghost use Rattle.httpdate.specs.declared.date.HttpDate.{HttpDate as Date};
ghost use Rattle.http_server.specs.Connection.{history};
ghost use Rattle.web_connections.specs.Refusals.{guarded};
ghost use Rattle.web_connections.specs.Times.{limit_of};

use crate::refusals::guarded;
use bytes::Bytes;
use http_server::{Connection, Reason, Service, State};
use httpdate::HttpDate;
use mio::net::TcpStream;
use std::alloc::{AllocError, Global};
use std::io;
use std::io::{ErrorKind, Read, Write};
use std::net::Shutdown;
use std::time::{Clock, SystemTime};

// How many bytes are read and dropped at a time.
const PIECE: usize = 16_384;

// How many reads and writes one browser has before the others have theirs.
const MOST_STEPS: u32 = 16;

/// What a browser owes.
#[derive(Clone, Copy)]
pub(crate) enum Owed {
    /// A whole request.
    Request,
    /// That it takes its answer.
    Taking,
    /// The end of its side. What it sends is read and dropped until then: a connection that is closed
    /// with bytes unread is reset, and what the browser hasn't read yet is lost.
    End,
}

/// For how many milliseconds a browser may owe this: a request and the taking of its answer since it
/// was accepted, and its end since it was sent all.
pub(crate) fn limit_of(owed: Owed) -> u64
    ensures { result ≡ limit_of owed }
{
    match owed {
        Owed::Request => 4_000,
        Owed::Taking => 10_000,
        Owed::End => 500,
    }
}

/// A browser's connection.
#[derive(Drop)]
pub(crate) struct Browser {
    stream: TcpStream,
    connection: Connection,
    // The rest of a refusal of http_server's own, in place of the connection's output.
    refusal: Bytes,
    // Whether a read or a write may find something to do.
    pub(crate) may_read: bool,
    pub(crate) may_write: bool,
    // The length of the longest piece of its answer, which is kept until all of it is taken.
    kept: usize,
    is_parting: bool,
    // When it was accepted, or when it was sent all, in milliseconds.
    pub(crate) since: u64,
}

// What a call made that may find nothing to do: None where it found nothing.
fn unless_blocked(called: io::Result<usize>) -> io::Result<Option<usize>> {
    match called {
        Ok(count) => Ok(Some(count)),
        Err(error) if error.kind() == ErrorKind::WouldBlock => Ok(None),
        Err(error) if error.kind() == ErrorKind::Interrupted => Ok(None),
        Err(error) => Err(error),
    }
}

// Takes all that waits to be sent.
fn take_pending(alloc: Global, connection: &mut Connection) -> Result<Vec<u8>, AllocError>
    ensures { IfOk result (λ text. text.items ≡ (history connection.old).pending) }
{
    let mut text = Vec::new(alloc);
    while connection.wants_write() {
        let piece = connection.output();
        let count = piece.len();
        text.extend_from_slice(piece)?;
        connection.sent(count);
    }
    Ok(text)
}

// Takes a refusal of http_server's own, with the fields of every answer.
fn take_refusal<R: Clock>(rt: &R, alloc: Global, connection: &mut Connection) -> io::Result<Bytes>
    ensures { IfOk result (λ text.
        (date : Date) × (text ≡ guarded date (history connection.old).pending)) }
{
    let date = HttpDate::try_from(SystemTime::now(rt)?)?;
    let text = take_pending(alloc, connection)?;
    Ok(Bytes::from_vec(guarded(alloc, text.as_slice(), date)?)?)
}

impl Browser {
    pub(crate) fn new(stream: TcpStream, connection: Connection, now: u64) -> Browser {
        Browser {
            stream,
            connection,
            refusal: Bytes::new(),
            may_read: true,
            may_write: true,
            kept: 0,
            is_parting: false,
            since: now,
        }
    }

    /// What it owes.
    pub(crate) fn owed(&self) -> Owed {
        if self.is_parting {
            Owed::End
        } else if self.wants_write() {
            Owed::Taking
        } else {
            Owed::Request
        }
    }

    /// Whether it is late at this moment, in milliseconds.
    pub(crate) fn is_late(&self, now: u64) -> bool {
        now.saturating_sub(self.since) >= limit_of(self.owed())
    }

    /// How many bytes are kept for it, as far as they are one piece: a piece is kept until the system has
    /// taken all of it.
    pub(crate) fn kept(&self) -> usize {
        self.kept
    }

    /// Whether something can be done for it without waiting.
    pub(crate) fn can_go_on(&self) -> bool {
        match self.owed() {
            Owed::Request => self.may_read,
            Owed::Taking => self.may_write,
            Owed::End => self.may_read,
        }
    }

    // The next bytes to send.
    fn output(&self) -> &[u8] {
        if self.refusal.is_empty() {
            self.connection.output()
        } else {
            self.refusal.as_slice()
        }
    }

    fn wants_write(&self) -> bool {
        !self.refusal.is_empty() || self.connection.wants_write()
    }

    fn write(&mut self) -> io::Result<usize> {
        if self.refusal.is_empty() {
            return self.connection.write_to(&mut self.stream);
        }
        let count = self.stream.write(self.refusal.as_slice())?;
        self.refusal.advance(count);
        Ok(count)
    }

    // Writes once, if there is something to write: whether some was taken.
    fn send(&mut self) -> io::Result<bool> {
        if !self.may_write || !self.wants_write() {
            return Ok(false);
        }
        match unless_blocked(self.write())? {
            None => self.may_write = false,
            Some(0) => return Err(io::Error::from(ErrorKind::WriteZero)),
            Some(_) => {
                let left = self.output().len();
                self.kept = if left == 0 { 0 } else { self.kept.max(left) };
                return Ok(true);
            }
        }
        Ok(false)
    }

    // Reads once, if a request is awaited: whether something came, or the end.
    fn receive(&mut self) -> io::Result<bool> {
        if !self.may_read || self.wants_write() || !self.connection.wants_read() {
            return Ok(false);
        }
        match unless_blocked(self.connection.read_from(&mut self.stream))? {
            None => self.may_read = false,
            Some(_) => return Ok(true),
        }
        Ok(false)
    }

    // Reads once, and drops what came: whether the browser hasn't ended its side.
    fn drop_piece(&mut self) -> io::Result<bool> {
        if !self.may_read {
            return Ok(true);
        }
        let mut piece = [0; PIECE];
        match unless_blocked(self.stream.read(&mut piece))? {
            None => self.may_read = false,
            Some(0) => return Ok(false),
            Some(_) => {}
        }
        Ok(true)
    }

    // Answers what came. A refusal of http_server's own gets the fields of every answer.
    fn advance<R: Clock, S: Service>(
        &mut self,
        rt: &R,
        alloc: Global,
        service: &mut S,
    ) -> io::Result<()> {
        self.connection.advance(service);
        let is_refused = matches!(self.connection.state(), State::Closing(Reason::Refused(_)));
        if is_refused && self.connection.wants_write() {
            self.refusal = take_refusal(rt, alloc, &mut self.connection)?;
        }
        Ok(())
    }

    /// Does what can be done without waiting: whether the connection goes on.
    pub(crate) fn go_on<R: Clock, S: Service>(
        &mut self,
        rt: &R,
        alloc: Global,
        service: &mut S,
        now: u64,
    ) -> io::Result<bool> {
        if self.is_parting {
            return self.drop_piece();
        }
        for _ in 0..MOST_STEPS {
            let is_sent = self.send()?;
            if !is_sent && !self.receive()? {
                return Ok(true);
            }
            self.advance(rt, alloc, service)?;
            if !self.wants_write() && self.connection.is_done() {
                self.stream.shutdown(Shutdown::Write)?;
                self.is_parting = true;
                self.since = now;
                return Ok(true);
            }
        }
        Ok(true)
    }
}
