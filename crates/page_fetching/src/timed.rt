//! A stream with one deadline for all of its reads and writes, however slow its peer is.

use gate_streams::Sink;
use std::io;
use std::io::{Read, Write};
use std::net::TcpStream;
use std::time::{Clock, Duration, Instant};

/// A stream whose reads and writes fail past a deadline.
#[derive(Drop)]
pub struct Timed<'a, R> {
    rt: &'a R,
    stream: &'a TcpStream,
    begun: Instant,
    seconds: u64,
}

impl<'a, R: Clock> Timed<'a, R> {
    /// The stream until this number of seconds after `begun`.
    pub fn new(rt: &'a R, stream: &'a TcpStream, begun: Instant, seconds: u64) -> Timed<'a, R> {
        Timed {
            rt,
            stream,
            begun,
            seconds,
        }
    }

    // The rest of the time, or `TimedOut`.
    fn left(&self) -> io::Result<Duration> {
        let spent = self.begun.elapsed(self.rt)?;
        match Duration::from_secs(self.seconds).checked_sub(spent) {
            Some(left) if !left.is_zero() => Ok(left),
            _ => Err(io::ErrorKind::TimedOut.into()),
        }
    }
}

impl<'a, R: Clock> Read for Timed<'a, R> {
    fn read(&mut self, buf: &mut [u8]) -> io::Result<usize> {
        let left = self.left()?;
        self.stream.set_read_timeout(Some(left))?;
        let mut stream = self.stream;
        stream.read(buf)
    }
}

impl<'a, R: Clock> Write for Timed<'a, R> {
    fn write(&mut self, buf: &[u8]) -> io::Result<usize> {
        let left = self.left()?;
        self.stream.set_write_timeout(Some(left))?;
        let mut stream = self.stream;
        stream.write(buf)
    }

    fn flush(&mut self) -> io::Result<()> {
        Ok(())
    }
}

// Nothing is held back.
impl<'a, R: Clock> Sink for Timed<'a, R> {
    fn put(&mut self, bytes: &[u8]) -> io::Result<()> {
        self.write_all(bytes)
    }

    fn deliver(&mut self) -> io::Result<()> {
        self.flush()
    }
}
