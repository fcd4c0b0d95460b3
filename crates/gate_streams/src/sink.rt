ghost use Rattle.std.specs.Prelude.{◌≡◌, ◌++◌, [], Some, None, OnOk, OnErr, IfErr, IsOk, codes};
ghost use Rattle.std.specs.IoError.{error_kind};
ghost use Rattle.std.specs.Fmt.{decimal};
ghost use Rattle.std.specs.Io.KnownBytes.{Appends, Keeps};
ghost use Rattle.std.specs.Io.Buffered.{writer_buffer};
ghost use Rattle.gate_streams.specs.Source.{CountsCall};
ghost use Rattle.gate_streams.specs.Sink.{SinkState, CountsTwo, IsDelivered, Writes, Delivers, FailsOnce};

use itoa::Buffer;
use std::alloc::Allocator;
use std::io;
use std::io::{BufWriter, ErrorKind, StderrLock, StdoutLock, Write};

/// A writer that may know its bytes and those that it holds back until a flush, and may count its
/// calls and those of them that failed.
///
/// A type that leaves the member out claims nothing by it.
pub trait Sink {
    // What is known of the writer.
    ghost state: { Self → SinkState } = { λ _. record { written = None; pending = None; tally = None } };

    /// Writes all of these bytes, of which a buffer may hold some back.
    fn put(&mut self, bytes: &[u8]) -> io::Result<()>
        ensures bytes { OnOk result
            (Appends (state self.old).written (state self.new).written bytes.now) }
        ensures tally { CountsCall (state self.old).tally (state self.new).tally result };

    /// Flushes: all that was written has then reached its destination.
    fn deliver(&mut self) -> io::Result<()>
        ensures bytes { Keeps (state self.old).written (state self.new).written }
        ensures delivered { OnOk result (IsDelivered (state self.new).pending) }
        ensures tally { CountsCall (state self.old).tally (state self.new).tally result };
}

impl<A: Allocator> Sink for Vec<u8, A> {
    ghost state = { λ bytes. record { written = Some bytes.items; pending = Some []; tally = None } };

    fn put(&mut self, bytes: &[u8]) -> io::Result<()>
        ensures ok { OnOk result (self.new.items ≡ self.old.items ++ bytes.now) }
        ensures memory { IfErr result (λ error. error_kind error ≡ ErrorKind.OutOfMemory) }
    {
        self.extend_from_slice(bytes)?;
        Ok(())
    }

    // Nothing is held back.
    fn deliver(&mut self) -> io::Result<()>
        ensures ok { IsOk result }
        ensures same { self.new.items ≡ self.old.items }
    {
        Ok(())
    }
}

impl<A: Allocator> Sink for BufWriter<StdoutLock<'static>, A> {
    ghost state = { λ writer. record { written = None; pending = Some (writer_buffer writer); tally = None } };

    fn put(&mut self, bytes: &[u8]) -> io::Result<()> {
        self.write_all(bytes)
    }

    fn deliver(&mut self) -> io::Result<()> {
        self.flush()
    }
}

// A write to standard error holds nothing back.
impl Sink for StderrLock<'static> {
    ghost state = { λ _. record { written = None; pending = Some []; tally = None } };

    fn put(&mut self, bytes: &[u8]) -> io::Result<()> {
        self.write_all(bytes)
    }

    fn deliver(&mut self) -> io::Result<()> {
        self.flush()
    }
}

/// Writes a text, and flushes, by a call for each; the flush is left out where the write failed.
pub fn put_last<S: Sink>(sink: &mut S, text: &[u8]) -> io::Result<()>
    ensures ok { OnOk result (Delivers (S.state sink.old) (S.state sink.new) text.now) }
    ensures err { OnErr result (FailsOnce (S.state sink.old) (S.state sink.new)) }
    ensures calls { CountsTwo (S.state sink.old).tally (S.state sink.new).tally result }
{
    sink.put(text)?;
    sink.deliver()
}

/// Writes two texts as one line, and flushes, by a call for each step; what comes after a call that
/// failed is left out.
pub fn put_line<S: Sink>(sink: &mut S, before: &[u8], text: &[u8]) -> io::Result<()>
    ensures ok { OnOk result (Delivers (S.state sink.old) (S.state sink.new)
        (before.now ++ text.now ++ codes "\n")) }
    ensures err { OnErr result (FailsOnce (S.state sink.old) (S.state sink.new)) }
{
    sink.put(before)?;
    sink.put(text)?;
    put_last(sink, b"\n")
}

/// Writes a text, a number in decimal digits and the end of a line.
pub fn put_numbered<S: Sink>(sink: &mut S, text: &[u8], number: u64) -> io::Result<()>
    ensures ok { OnOk result (Writes (S.state sink.old) (S.state sink.new)
        (text.now ++ decimal number ++ codes "\n")) }
    ensures err { OnErr result (FailsOnce (S.state sink.old) (S.state sink.new)) }
{
    let mut digits = Buffer::new();
    sink.put(text)?;
    sink.put(digits.format(number).as_bytes())?;
    sink.put(b"\n")
}
