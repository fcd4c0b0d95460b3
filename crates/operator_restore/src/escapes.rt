//! Whether texts of a page are those of a gateway.

ghost use Rattle.std.specs.Prelude.{◌≡◌, ◌==◌, map, IfOk};
ghost use Rattle.std.specs.List.{list_all, slice_split};
ghost use Rattle.operator_restore.specs.Escapes.{is_escaped_line, is_escaped_text};

use gate_model::push_escaped;
use status_reading::plain_bytes;
use std::alloc::{AllocError, Global};

/// Whether a line shows texts without NUL, each with the escapes of a page.
fn is_escaped_line(alloc: Global, line: &[u8]) -> Result<bool, AllocError>
    ensures { IfOk result (λ is_escaped. is_escaped ≡ is_escaped_line line.now) }
{
    let plain = plain_bytes(alloc, line)?;
    let mut again = Vec::with_capacity(alloc, line.len())?;
    push_escaped(&mut again, plain.as_slice())?;
    Ok(again.as_slice() == line && !plain.as_slice().contains(&0))
}

fn are_escaped(alloc: Global, lines: &[&[u8]]) -> Result<bool, AllocError>
    ensures { IfOk result (λ are_escaped.
        are_escaped ≡ list_all is_escaped_line (map (λ line. line.now) lines.now)) }
{
    for line in lines {
        if !is_escaped_line(alloc, line)? {
            return Ok(false);
        }
    }
    Ok(true)
}

pub fn lines_of(alloc: Global, text: &[u8]) -> Result<Vec<&[u8]>, AllocError>
    ensures { IfOk result (λ lines.
        map (λ line. line.now) lines.items ≡ slice_split (λ byte. byte == 10) text.now) }
{
    text.split(|byte| *byte == b'\n').collect(alloc)
}

/// Whether the texts of a page are those of a gateway: each has a page's escapes and no others, and
/// holds no NUL. The only error is out of memory. Own rule.
pub fn is_escaped_text(alloc: Global, text: &[u8]) -> Result<bool, AllocError>
    ensures { IfOk result (λ is_escaped. is_escaped ≡ is_escaped_text text.now) }
{
    let lines = lines_of(alloc, text)?;
    are_escaped(alloc, lines.as_slice())
}
