//! What a field of a page stands for.

ghost use Rattle.std.specs.Prelude.{◌≡◌, ◌∷◌, ◌<◌, ◌≤◌, ℕ, List, length, true, false, IfOk, MatchOption};
ghost use Rattle.gate_model.specs.Escaping.{escaped};
ghost use Rattle.status_reading.specs.Plain.{is_hex_digit, hex_value, plain_bytes};

use crate::cuts::cut;
use std::alloc::{AllocError, Global};

/// The number of a lower-case hexadecimal digit.
fn hex_value(digit: u8) -> Option<u8>
    ensures { MatchOption result
        (is_hex_digit digit ≡ false)
        (λ number. (is_hex_digit digit ≡ true) × (number ≡ hex_value digit) × (number < 16)) }
{
    match digit {
        b'0'..=b'9' => Some(digit - b'0'),
        b'a'..=b'f' => Some(digit - b'a' + 10),
        _ => None,
    }
}

/// The byte that a backslash, an `x` and this text begin with, and the text after its two digits.
fn numbered(text: &[u8]) -> Option<(u8, &[u8])>
    ensures byte { MatchOption result
        (plain_bytes (92 ∷ 120 ∷ text.now) ≡ 92 ∷ plain_bytes (120 ∷ text.now))
        (λ found. (plain_bytes (92 ∷ 120 ∷ text.now) ≡ found.0 ∷ plain_bytes found.1.now)
        × (length found.1.now ≤ length text.now)) }
{
    let (high, rest) = text.split_first()?;
    let (low, after) = rest.split_first()?;
    Some((hex_value(*high)? * 16 + hex_value(*low)?, after))
}

/// The byte that a backslash and this text begin with, and the text after it.
fn unescaped(text: &[u8]) -> (u8, &[u8])
    ensures byte { plain_bytes (92 ∷ text.now) ≡ result.0 ∷ plain_bytes result.1.now }
    ensures shorter { length result.1.now ≤ length text.now }
{
    let Some((mark, rest)) = text.split_first() else {
        return (b'\\', text);
    };
    match *mark {
        b'\\' => (b'\\', rest),
        b'x' => numbered(rest).unwrap_or((b'\\', text)),
        _ => (b'\\', text),
    }
}

/// The bytes that a field of a page stands for: its escapes are undone, and each run of other bytes
/// is copied at once. The only error is out of memory.
#[tactic(auto, using(crate::proofs::PlainLaws::run_undone, crate::proofs::PlainLaws::rest_kept, crate::proofs::PlainLaws::plain_escaped))]
pub fn plain_bytes(alloc: Global, field: &[u8]) -> Result<Vec<u8>, AllocError>
    ensures undone { IfOk result (λ bytes. bytes.items ≡ plain_bytes field.now) }

    // The field that shows a text stands for this text.
    ensures inverse { (text : List ℕ) → plain_bytes (escaped text) ≡ text }
{
    let mut bytes = Vec::with_capacity(alloc, field.len())?;
    let mut rest = field;
    while let Some((run, escape)) = cut(rest, b'\\') {
        bytes.extend_from_slice(run)?;
        let (byte, after) = unescaped(escape);
        bytes.push(byte)?;
        rest = after;
    }
    bytes.extend_from_slice(rest)?;
    Ok(bytes)
}
