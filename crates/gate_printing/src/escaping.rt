ghost use Rattle.std.specs.Prelude.{◌≡◌, ◌+◌, ◌<◌, drop, length, position, IfSome, OnOk, OnErr};
ghost use Rattle.gate_model.specs.Escaping.{is_escaped, escape_of, escaped};
ghost use Rattle.gate_streams.specs.Sink.{Writes, FailsOnce};

use gate_streams::Sink;
use std::io;

const HEX: [u8; 16] = *b"0123456789abcdef";

// Whether a page shows the byte by an escape.
fn is_escaped(byte: u8) -> bool
    ensures { result ≡ is_escaped byte }
{
    byte == b'\\' || byte < 0x20 || byte == 0x7f
}

// The index of the first byte that has an escape.
fn first_escaped(text: &[u8]) -> Option<usize>
    ensures first { result ≡ position is_escaped text.now }
    ensures within { IfSome result (λ index. index < length text.now) }
{
    text.iter().position(|byte| is_escaped(*byte))
}

// Prints the escape of a byte that has one.
fn put_escape<W: Sink>(output: &mut W, byte: u8) -> io::Result<()>
    ensures ok { OnOk result (Writes (W.state output.old) (W.state output.new) (escape_of byte)) }
    ensures err { OnErr result (FailsOnce (W.state output.old) (W.state output.new)) }
{
    if byte == b'\\' {
        output.put(b"\\\\")
    } else {
        let high = HEX[(byte / 16) as usize];
        let low = HEX[(byte % 16) as usize];
        output.put(&[b'\\', b'x', high, low])
    }
}

// What stands after the byte at an index.
fn after(text: &[u8], index: usize) -> &[u8]
    requires { index < length text.now }
    ensures { result.now ≡ drop (index + 1) text.now }
{
    &text[index + 1..]
}

/// Prints a text as a page shows it, each run of bytes without an escape at once.
pub(crate) fn put_escaped<W: Sink>(output: &mut W, text: &[u8]) -> io::Result<()>
    ensures ok { OnOk result (Writes (W.state output.old) (W.state output.new)
        (escaped text.now)) }
    ensures err { OnErr result (FailsOnce (W.state output.old) (W.state output.new)) }
{
    let mut rest = text;
    while let Some(run) = first_escaped(rest) {
        output.put(&rest[..run])?;
        put_escape(output, rest[run])?;
        rest = after(rest, run);
    }
    output.put(rest)
}
