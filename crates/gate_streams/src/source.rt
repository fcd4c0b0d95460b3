ghost use Rattle.std.specs.Prelude.{Some, None, IsOk};
ghost use Rattle.std.specs.Io.{ReadsAtMost};
ghost use Rattle.std.specs.Io.KnownBytes.{ReadConsumes};
ghost use Rattle.gate_streams.specs.Source.{SourceState, CountsCall};

use std::alloc::Allocator;
use std::io;
use std::io::{BufReader, Read, StdinLock};

/// A reader that may know the bytes that are left in it, and may count its calls and those of them
/// that failed.
///
/// A type that leaves the member out claims nothing by it.
pub trait Source {
    // What is known of the reader.
    ghost state: { Self → SourceState } = { λ _. record { left = None; tally = None } };

    /// Reads once into the buffer: how many bytes were read, 0 only at the end or without room.
    fn take_some(&mut self, buf: &mut [u8]) -> io::Result<usize>
        ensures bound { ReadsAtMost result buf.new }
        ensures bytes { ReadConsumes (state self.old).left (state self.new).left result buf.new }
        ensures tally { CountsCall (state self.old).tally (state self.new).tally result };
}

// A read of a slice never fails.
impl Source for &[u8] {
    ghost state = { λ bytes. record { left = Some bytes.now; tally = None } };

    fn take_some(&mut self, buf: &mut [u8]) -> io::Result<usize>
        ensures ok { IsOk result }
        ensures bound { ReadsAtMost result buf.new }
        ensures bytes { ReadConsumes (Some self.old.now) (Some self.new.now) result buf.new }
    {
        self.read(buf)
    }
}

impl<A: Allocator> Source for BufReader<StdinLock<'static>, A> {
    fn take_some(&mut self, buf: &mut [u8]) -> io::Result<usize> {
        self.read(buf)
    }
}
