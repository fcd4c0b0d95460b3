//! The log page in what a daemon printed.

ghost use Rattle.std.specs.Prelude.{◌≡◌, IfOk, MatchOption};
ghost use Rattle.log_reading.specs.Faults.{first_line};
ghost use Rattle.operator_restore.specs.Printed.{BeginsPage, HasNoPage, IsLastPage, lines_in, is_whole};

use gate_model::push_number;
use memchr::memmem;
use std::alloc::{AllocError, Global};

/// How a log page begins.
const FIRST_WORD: &[u8] = b"log ";

/// The text, if its first line is that of a log page.
fn first_page(text: &[u8]) -> Option<&[u8]>
    ensures { MatchOption result
        (BeginsPage text.now → ⊥)
        (λ page. (page.now ≡ text.now) × BeginsPage text.now) }
{
    match text.strip_prefix(FIRST_WORD) {
        Some(_) => Some(text),
        None => None,
    }
}

/// The last log page in what daemons printed one run after another: all from the last line on that
/// begins with `log` and a space. None: no line does.
///
/// A run prints its addresses first, and its log page at its end. So the page of an earlier run isn't
/// taken for that of a run that printed none: what stands after it makes it unwhole. Own rule.
pub fn log_part(printed: &[u8]) -> Option<&[u8]>
    ensures { MatchOption result
        (HasNoPage printed.now) (λ page. IsLastPage printed.now page.now) }
{
    match memmem::rfind(printed, b"\nlog ") {
        Some(index) => Some(&printed[index + 1..]),
        None => first_page(printed),
    }
}

/// The line before the records of a log page, of which there are so many.
fn first_line(alloc: Global, records: usize) -> Result<Vec<u8>, AllocError>
    ensures { IfOk result (λ line. line.items ≡ first_line records) }
{
    let mut line = Vec::from_slice(alloc, FIRST_WORD)?;
    push_number(&mut line, records as u64)?;
    line.extend_from_slice(b"\n")?;
    Ok(line)
}

/// How many lines end in a text.
fn lines_in(text: &[u8]) -> usize
    ensures { result ≡ lines_in text.now }
{
    text.iter().filter(|byte| **byte == b'\n').count()
}

/// Whether a log page is whole: it has as many records as its first line counts, nothing stands after
/// them, and its last line ends. The only error is out of memory. Own rule.
pub fn is_whole(alloc: Global, page: &[u8]) -> Result<bool, AllocError>
    ensures { IfOk result (λ whole. whole ≡ is_whole page.now) }
{
    let line = first_line(alloc, lines_in(page).saturating_sub(1))?;
    Ok(page.starts_with(line.as_slice()) && page.ends_with(b"\n"))
}
