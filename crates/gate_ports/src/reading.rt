//! Reads and writes that don't wait.

ghost use Rattle.std.specs.Prelude.{◌≡◌, ◌≤◌, ◌+◌, length, take, Ok, IfOk, IfSome};

use std::io;
use std::io::{ErrorKind, Read, Write};
use std::net::TcpStream;

// What a call made that may find nothing to do: None where it found nothing.
fn unless_blocked(called: io::Result<usize>) -> io::Result<Option<usize>>
    ensures { IfOk result (λ count. IfSome count (λ some. called ≡ Ok some)) }
{
    match called {
        Ok(count) => Ok(Some(count)),
        Err(error) if error.kind() == ErrorKind::WouldBlock => Ok(None),
        Err(error) if error.kind() == ErrorKind::Interrupted => Ok(None),
        Err(error) => Err(error),
    }
}

/// Reads once: how many bytes, 0 at the end. None: there are none by now.
pub(crate) fn read_once(stream: &TcpStream, buf: &mut [u8]) -> io::Result<Option<usize>>
    ensures length { length buf.new ≡ length buf.old }
    ensures bound { IfOk result (λ count. IfSome count (λ some. some ≤ length buf.new)) }
{
    let mut reader = stream;
    unless_blocked(reader.read(buf))
}

/// Reads once into the buffer, after its first bytes.
pub(crate) fn read_after(
    stream: &TcpStream,
    buf: &mut [u8],
    begun: usize,
) -> io::Result<Option<usize>>
    requires { begun ≤ length buf.old }
    ensures length { length buf.new ≡ length buf.old }
    ensures front { take begun buf.new ≡ take begun buf.old }
    ensures bound { IfOk result (λ count. IfSome count (λ some.
        begun + some ≤ length buf.new)) }
{
    let (_, rest) = buf.split_at_mut(begun);
    read_once(stream, rest)
}

/// Writes once: how many bytes. None: the peer takes none by now.
pub(crate) fn write_once(stream: &TcpStream, bytes: &[u8]) -> io::Result<Option<usize>>
    ensures { IfOk result (λ count. IfSome count (λ some. some ≤ length bytes.now)) }
{
    let mut writer = stream;
    unless_blocked(writer.write(bytes))
}
