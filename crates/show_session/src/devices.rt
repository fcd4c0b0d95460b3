ghost use Rattle.std.specs.Prelude.{◌≡◌, ◌≤◌, length};

use crate::settings::Settings;
use gate_environment::Clock;
use gate_model::Moment;
use gate_streams::{Sink, Source};
use std::io;
use std::io::{Error, ErrorKind, Write};

/// A reader that gives a stream in pieces. One read may fail and one be interrupted; the next ones
/// go on where the last one ended. Or every read fails that would go on after the first bytes. It counts
/// its calls, and those that fail.
#[derive(Drop)]
pub struct Pieces<'a> {
    front: &'a [u8],
    back: &'a [u8],
    piece: usize,
    calls: u64,
    failures: u64,
    failed: u32,
    interrupted: u32,
    is_cut_off: bool,
}

impl<'a> Pieces<'a> {
    pub fn new(stream: &'a [u8], settings: &Settings) -> Pieces<'a> {
        let (front, back) = stream.split_at(stream.len().min(settings.cut as usize));
        Pieces {
            front,
            back,
            piece: settings.piece as usize,
            calls: 0,
            failures: 0,
            failed: settings.failed_read,
            interrupted: settings.interrupted_read,
            is_cut_off: settings.every_failure > 0,
        }
    }

    fn copy(&mut self, buf: &mut [u8]) -> usize
        ensures count { result ≤ length buf.new }
        ensures calls { self.new.calls ≡ self.old.calls }
        ensures failures { self.new.failures ≡ self.old.failures }
    {
        if self.front.is_empty() {
            self.front = self.back;
            self.back = &[];
        }
        let count = self.front.len().min(buf.len()).min(self.piece);
        let (given, left) = self.front.split_at(count);
        buf[..count].copy_from_slice(given);
        self.front = left;
        count
    }

    // How the call of this number fails, if it does.
    fn fault(&self) -> Option<ErrorKind> {
        if self.calls == self.interrupted as u64 {
            return Some(ErrorKind::Interrupted);
        }
        if self.calls == self.failed as u64 || self.is_cut_off && self.front.is_empty() {
            return Some(ErrorKind::ConnectionReset);
        }
        None
    }
}

impl Source for Pieces<'_> {
    ghost use Rattle.std.specs.Prelude.{◌-◌, ◌^◌, nat_lt, if◌then◌else◌, Some, None};

    ghost state = { λ pieces. record {
      left = None;
      tally = if nat_lt pieces.calls (2 ^ 64 - 1)
          then (if nat_lt pieces.failures (2 ^ 64 - 1)
          then Some (record { calls = pieces.calls; failures = pieces.failures })
          else None)
          else None;
    } };

    fn take_some(&mut self, buf: &mut [u8]) -> io::Result<usize> {
        self.calls = self.calls.saturating_add(1);
        if let Some(fault) = self.fault() {
            self.failures = self.failures.saturating_add(1);
            return Err(Error::from(fault));
        }
        Ok(self.copy(buf))
    }
}

/// A writer that keeps what is written, so many bytes a call. One call may fail, which keeps nothing;
/// the next go on.
#[derive(Drop)]
pub struct Kept<'a> {
    bytes: &'a mut Vec<u8>,
    taken: usize,
    calls: u32,
    failed: u32,
}

impl<'a> Kept<'a> {
    pub fn new(bytes: &'a mut Vec<u8>, settings: &Settings) -> Kept<'a> {
        let taken = match settings.taken {
            0 => usize::MAX,
            count => count as usize,
        };
        Kept {
            bytes,
            taken,
            calls: 0,
            failed: settings.failed_write,
        }
    }

    fn call(&mut self) -> io::Result<()> {
        self.calls = self.calls.saturating_add(1);
        if self.calls == self.failed {
            return Err(Error::from(ErrorKind::BrokenPipe));
        }
        Ok(())
    }
}

impl Write for Kept<'_> {
    fn write(&mut self, buf: &[u8]) -> io::Result<usize> {
        self.call()?;
        let count = buf.len().min(self.taken);
        self.bytes.extend_from_slice(&buf[..count])?;
        Ok(count)
    }

    fn flush(&mut self) -> io::Result<()> {
        self.call()
    }
}

impl Sink for Kept<'_> {
    fn put(&mut self, bytes: &[u8]) -> io::Result<()> {
        self.write_all(bytes)
    }

    fn deliver(&mut self) -> io::Result<()> {
        self.flush()
    }
}

/// A clock that goes on by so many seconds with each reading.
#[derive(Drop)]
pub struct Ticking {
    next: u32,
    tick: u32,
}

impl Ticking {
    pub fn new(settings: &Settings) -> Ticking {
        Ticking {
            next: settings.moment,
            tick: settings.tick,
        }
    }
}

impl Clock for Ticking {
    fn now(&mut self) -> Moment {
        let now = self.next;
        self.next = now.saturating_add(self.tick);
        Moment(now)
    }
}
