//! The word that was meant, of those that are known.
#![tactic(auto)]

ghost use Rattle.std.specs.Prelude.{◌≡◌, IfOk, map, option_map};
ghost use Rattle.near_words.specs.Near.{nearest, word_at};

use std::alloc::{AllocError, Global};
use strsim::levenshtein;

fn word_at<'a>(
    alloc: Global,
    edits: usize,
    text: &str,
    words: &[&'a str],
) -> Result<Option<&'a str>, AllocError>
    ensures { IfOk result (λ found. option_map (λ word. word.now) found
        ≡ word_at edits text.now (map (λ word. word.now) words.now)) }
{
    for word in words {
        if levenshtein(alloc, text, word)? == edits {
            return Ok(Some(*word));
        }
    }
    Ok(None)
}

/// The first of these words that is one edit away from a text, or else the first that is two away.
/// The only error is out of memory. Own rule.
pub fn nearest<'a>(
    alloc: Global,
    text: &str,
    words: &[&'a str],
) -> Result<Option<&'a str>, AllocError>
    ensures { IfOk result (λ found. option_map (λ word. word.now) found
        ≡ nearest text.now (map (λ word. word.now) words.now)) }
{
    match word_at(alloc, 1, text, words)? {
        Some(word) => Ok(Some(word)),
        None => word_at(alloc, 2, text, words),
    }
}
