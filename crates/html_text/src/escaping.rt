//! How a text stands in HTML.

ghost use Rattle.std.specs.Prelude.{◌≡◌, ◌++◌, OnOk};
ghost use Rattle.html_text.specs.Escaping.{is_referred, reference_of, is_control, html_byte, html_text};

use gate_model::push_escaped;
use std::alloc::AllocError;

/// Whether a byte is written as a reference.
fn is_referred(byte: u8) -> bool
    ensures { result ≡ is_referred byte }
{
    byte == b'<' || byte == b'>' || byte == b'"' || byte == b'\'' || byte == b'&'
}

/// The reference of such a byte.
fn reference_of(byte: u8) -> &'static [u8]
    ensures { result.now ≡ reference_of byte }
{
    match byte {
        b'<' => b"&lt;",
        b'>' => b"&gt;",
        b'"' => b"&quot;",
        b'\'' => b"&#39;",
        _ => b"&amp;",
    }
}

/// Whether a byte is a control byte other than LF and TAB.
fn is_control(byte: u8) -> bool
    ensures { result ≡ is_control byte }
{
    byte < 0x20 && byte != b'\n' && byte != b'\t' || byte == 0x7f
}

fn push_byte(out: &mut Vec<u8>, byte: u8) -> Result<(), AllocError>
    ensures { OnOk result (out.new.items ≡ out.old.items ++ html_byte byte) }
{
    if is_referred(byte) {
        out.extend_from_slice(reference_of(byte))
    } else if is_control(byte) {
        push_escaped(out, &[byte])
    } else {
        out.push(byte)?;
        Ok(())
    }
}

/// Appends a text as it stands in HTML.
pub fn push_text(out: &mut Vec<u8>, text: &[u8]) -> Result<(), AllocError>
    ensures { OnOk result (out.new.items ≡ out.old.items ++ html_text text.now) }
{
    for byte in text {
        push_byte(out, *byte)?;
    }
    Ok(())
}
