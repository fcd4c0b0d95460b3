//! How a page shows a text of any bytes, and numbers: in decimal, without leading zeros.

ghost use Rattle.std.specs.Prelude.{◌≡◌, ◌++◌, ◌<◌, length, position, IfSome, OnOk, OnErr};
ghost use Rattle.std.specs.Io.{StartsWith};
ghost use Rattle.gate_model.specs.Escaping.{is_escaped, escape_of, escaped};
ghost use Rattle.std.specs.Fmt.{decimal, signed_decimal};

use itoa::Buffer;
use std::alloc::AllocError;

const HEX: [u8; 16] = *b"0123456789abcdef";

/// Whether a page shows the byte by an escape.
fn is_escaped(byte: u8) -> bool
    ensures { result ≡ is_escaped byte }
{
    byte == b'\\' || byte < 0x20 || byte == 0x7f
}

/// Appends the escape of a byte that has one.
fn push_escape(out: &mut Vec<u8>, byte: u8) -> Result<(), AllocError>
    ensures ok { OnOk result (out.new.items ≡ out.old.items ++ escape_of byte) }
    ensures err { OnErr result (out.new.items ≡ out.old.items) }
{
    if byte == b'\\' {
        out.extend_from_slice(b"\\\\")
    } else {
        let high = HEX[(byte / 16) as usize];
        let low = HEX[(byte % 16) as usize];
        out.extend_from_slice(&[b'\\', b'x', high, low])
    }
}

/// The index of the first byte that has an escape.
fn first_escaped(text: &[u8]) -> Option<usize>
    ensures first { result ≡ position is_escaped text.now }
    ensures within { IfSome result (λ index. index < length text.now) }
{
    text.iter().position(|byte| is_escaped(*byte))
}

/// Appends a text as a page shows it, each run of bytes without an escape at once.
///
/// The only error is out of memory. The buffer then starts with the bytes that it held, and may
/// hold the first bytes of the text after them.
pub fn push_escaped(out: &mut Vec<u8>, text: &[u8]) -> Result<(), AllocError>
    ensures ok { OnOk result (out.new.items ≡ out.old.items ++ escaped text.now) }
    ensures err { OnErr result (StartsWith out.new.items out.old.items) }
{
    let mut rest = text;
    while let Some(run) = first_escaped(rest) {
        out.extend_from_slice(&rest[..run])?;
        push_escape(out, rest[run])?;
        rest = &rest[run + 1..];
    }
    out.extend_from_slice(rest)
}

/// Appends a number in decimal, without leading zeros.
///
/// The only error is out of memory, which leaves the buffer as it was.
pub fn push_number(out: &mut Vec<u8>, number: u64) -> Result<(), AllocError>
    ensures ok { OnOk result (out.new.items ≡ out.old.items ++ decimal number) }
    ensures err { OnErr result (out.new.items ≡ out.old.items) }
{
    let mut digits = Buffer::new();
    out.extend_from_slice(digits.format(number).as_bytes())
}

/// Appends a return code in decimal, without leading zeros; a code 0 is `0`.
///
/// The only error is out of memory, which leaves the buffer as it was.
pub fn push_code(out: &mut Vec<u8>, code: i16) -> Result<(), AllocError>
    ensures ok { OnOk result (out.new.items ≡ out.old.items ++ signed_decimal code) }
    ensures err { OnErr result (out.new.items ≡ out.old.items) }
{
    let mut digits = Buffer::new();
    out.extend_from_slice(digits.format(code).as_bytes())
}
