//! Cuts of a text at a byte.

ghost use Rattle.std.specs.Prelude.{◌≡◌, ◌∷◌, ◌++◌, ◌<◌, ℕ, List, length, false, IfSome, MatchOption};
ghost use Rattle.std.specs.Bool.{OnTrue, OnFalse};
ghost use Rattle.gate_grammar.specs.Spelling.{holds};
ghost use Rattle.status_reading.specs.inner.Reading.{AreFieldsOf, texts_of};

use memchr::memchr;

/// The bytes before the first such byte, and the bytes after it.
pub fn cut(text: &[u8], byte: u8) -> Option<(&[u8], &[u8])>
    ensures parts { MatchOption result
        (holds byte text.now ≡ false)
        (λ parts. (text.now ≡ parts.0.now ++ byte ∷ parts.1.now)
        × (holds byte parts.0.now ≡ false)) }
    ensures shorter { IfSome result (λ parts. length parts.1.now < length text.now) }
{
    let index = memchr(byte, text)?;
    Some((&text[..index], &text[index + 1..]))
}

/// Fills the list with the fields of a text, which semicolons separate. The last field is the rest
/// of the text, and may hold semicolons. False where the text has fewer fields.
pub fn split<'a>(text: &'a [u8], fields: &mut [&'a [u8]]) -> bool
    requires { 0 < length fields.old }
    ensures found { OnTrue result (AreFieldsOf (texts_of fields.new) text.now) }
    ensures none { OnFalse result ((others : List (List ℕ)) → length others ≡ length fields.old
        → AreFieldsOf others text.now → ⊥) }
{
    let last = fields.len() - 1;
    let mut rest = text;
    for index in 0..last {
        let Some((field, after)) = cut(rest, b';') else {
            return false;
        };
        fields[index] = field;
        rest = after;
    }
    fields[last] = rest;
    true
}
