ghost use Rattle.std.specs.Prelude.{◌≡◌, map, IfOk};
ghost use Rattle.std.specs.List.{slice_split};
ghost use Rattle.gate_replay.specs.Lines.{is_line_end, unended, lines_of};

use std::alloc::{AllocError, Global};

fn unended(text: &[u8]) -> &[u8]
    ensures { result.now ≡ unended text.now }
{
    if !text.is_empty() && text[text.len() - 1] == b'\n' {
        &text[..text.len() - 1]
    } else {
        text
    }
}

fn split(alloc: Global, text: &[u8]) -> Result<Vec<&[u8]>, AllocError>
    ensures { IfOk result (λ lines.
        map (λ line. line.now) lines.items ≡ slice_split is_line_end text.now) }
{
    text.split(|byte| *byte == b'\n').collect(alloc)
}

/// The lines of a text, in order, each without the LF that ends it. The last may end with the text.
pub(crate) fn lines_of(alloc: Global, text: &[u8]) -> Result<Vec<&[u8]>, AllocError>
    ensures { IfOk result (λ lines. map (λ line. line.now) lines.items ≡ lines_of text.now) }
{
    if text.is_empty() {
        Ok(Vec::new(alloc))
    } else {
        split(alloc, unended(text))
    }
}
