//! Cuts of a text at a byte, and its words.

ghost use Rattle.std.specs.Prelude.{◌≡◌, ◌∷◌, ◌++◌, ℕ, List, false, MatchOption};
ghost use Rattle.std.specs.Bool.{Decides};
ghost use Rattle.std.specs.Fmt.{decimal};
ghost use Rattle.gate_grammar.specs.Spelling.{holds};
ghost use Rattle.status_reading.specs.Readable.{Fits};
ghost use Rattle.status_reading.specs.inner.Reading.{Reads};

use gate_grammar::read_number;
use itoa::Buffer;
use memchr::{memchr, memrchr};

/// The bytes before the first such byte, and the bytes after it.
pub fn cut(text: &[u8], byte: u8) -> Option<(&[u8], &[u8])>
    ensures { MatchOption result
        (holds byte text.now ≡ false)
        (λ parts. (text.now ≡ parts.0.now ++ byte ∷ parts.1.now)
        × (holds byte parts.0.now ≡ false)) }
{
    let index = memchr(byte, text)?;
    Some((&text[..index], &text[index + 1..]))
}

/// The bytes before the last such byte, and the bytes after it.
pub fn cut_last(text: &[u8], byte: u8) -> Option<(&[u8], &[u8])>
    ensures { MatchOption result
        (holds byte text.now ≡ false)
        (λ parts. (text.now ≡ parts.0.now ++ byte ∷ parts.1.now)
        × (holds byte parts.1.now ≡ false)) }
{
    let index = memrchr(byte, text)?;
    Some((&text[..index], &text[index + 1..]))
}

/// What stands after this text, where the text begins so.
pub fn after<'a>(text: &'a [u8], front: &[u8]) -> Option<&'a [u8]>
    ensures { MatchOption result
        ((rest : List ℕ) → text.now ≡ front.now ++ rest → ⊥)
        (λ rest. text.now ≡ front.now ++ rest.now) }
{
    match text.strip_prefix(front) {
        Some(rest) => Some(rest),
        None => None,
    }
}

/// What stands before this text, where the text ends so.
pub fn before<'a>(text: &'a [u8], back: &[u8]) -> Option<&'a [u8]>
    ensures { MatchOption result
        ((front : List ℕ) → text.now ≡ front ++ back.now → ⊥)
        (λ front. text.now ≡ front.now ++ back.now) }
{
    match text.strip_suffix(back) {
        Some(front) => Some(front),
        None => None,
    }
}

pub fn is_word(text: &[u8], word: &[u8]) -> bool
    ensures { Decides result (text.now ≡ word.now) }
{
    text == word
}

/// Whether a field shows this number, without leading zeros.
fn shows(field: &[u8], number: u32) -> bool
    ensures { Decides result (field.now ≡ decimal number) }
{
    let mut digits = Buffer::new();
    digits.format(number).as_bytes() == field
}

/// The number that a field shows, without leading zeros.
pub fn number(field: &[u8]) -> Option<u32>
    ensures { Reads Fits decimal field.now result }
{
    match read_number(field) {
        Some(number) => {
            if shows(field, number) {
                Some(number)
            } else {
                None
            }
        }
        None => None,
    }
}
