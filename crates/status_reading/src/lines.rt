//! The lines of a page after the first, each without its LF.

ghost use Rattle.std.specs.Prelude.{◌≡◌, ◌∷◌, false};
ghost use Rattle.std.specs.Bool.{Decides};
ghost use Rattle.std.specs.Option.{option_map};
ghost use Rattle.gate_grammar.specs.Spelling.{holds};
ghost use Rattle.status_reading.specs.Rows.{object_view, comment_view, downtime_view};
ghost use Rattle.status_reading.specs.Page.{object_fields, comment_fields, downtime_fields};
ghost use Rattle.status_reading.specs.Readable.{IsReadableObject, IsReadableComment, IsReadableDowntime};
ghost use Rattle.status_reading.specs.inner.Reading.{Reads, ReadsFields};
ghost use Rattle.status_reading.specs.inner.Rows.{row_view, content, IsReadableRow};

use crate::cuts::{cut, split};
use crate::rows::{ShownComment, ShownDowntime, ShownObject};
use crate::words;

/// A line of a page after the first.
#[derive(Clone, Copy)]
pub enum Row<'a> {
    Object(ShownObject<'a>),
    Comment(ShownComment<'a>),
    Downtime(ShownDowntime<'a>),
    /// The moment of the close.
    Closing(u32),
}

/// The row of an object's fields.
fn object<'a>(text: &'a [u8]) -> Option<ShownObject<'a>>
    requires { holds 10 text.now ≡ false }
    ensures { ReadsFields IsReadableObject object_fields text.now (option_map object_view result) }
{
    let mut fields: [&[u8]; 8] = [b""; 8];
    if !split(text, &mut fields) {
        return None;
    }
    Some(ShownObject {
        host: fields[0],
        service: fields[1],
        state: words::state(fields[2])?,
        last: words::optional_number(fields[3])?,
        stale: words::stale(fields[4])?,
        acknowledgement: words::acknowledgement(fields[5])?,
        depth: words::number(fields[6])?,
        output: fields[7],
    })
}

/// The row of a comment's fields.
fn comment<'a>(text: &'a [u8]) -> Option<ShownComment<'a>>
    requires { holds 10 text.now ≡ false }
    ensures { ReadsFields IsReadableComment comment_fields text.now
        (option_map comment_view result) }
{
    let mut fields: [&[u8]; 8] = [b""; 8];
    if !split(text, &mut fields) {
        return None;
    }
    Some(ShownComment {
        id: words::number(fields[0])?,
        host: fields[1],
        service: fields[2],
        source: words::source(fields[3])?,
        persistent: words::persistent(fields[4])?,
        moment: words::number(fields[5])?,
        author: fields[6],
        text: fields[7],
    })
}

/// The row of a downtime entry's fields.
fn downtime<'a>(text: &'a [u8]) -> Option<ShownDowntime<'a>>
    requires { holds 10 text.now ≡ false }
    ensures { ReadsFields IsReadableDowntime downtime_fields text.now
        (option_map downtime_view result) }
{
    let mut fields: [&[u8]; 11] = [b""; 11];
    if !split(text, &mut fields) {
        return None;
    }
    Some(ShownDowntime {
        id: words::number(fields[0])?,
        host: fields[1],
        service: fields[2],
        fixed: words::fixed(fields[3])?,
        trigger: words::number(fields[4])?,
        start: words::number(fields[5])?,
        end: words::number(fields[6])?,
        duration: words::number(fields[7])?,
        begin: words::optional_number(fields[8])?,
        author: fields[9],
        text: fields[10],
    })
}

fn is_word(field: &[u8], word: &[u8]) -> bool
    ensures { Decides result (field.now ≡ word.now) }
{
    field == word
}

/// The row of a line.
pub fn read_row(line: &[u8]) -> Option<Row<'_>>
    requires { holds 10 line.now ≡ false }
    ensures { Reads IsReadableRow content line.now (option_map row_view result) }
{
    let (word, rest) = cut(line, b';')?;
    if is_word(word, b"object") {
        Some(Row::Object(object(rest)?))
    } else if is_word(word, b"comment") {
        Some(Row::Comment(comment(rest)?))
    } else if is_word(word, b"downtime") {
        Some(Row::Downtime(downtime(rest)?))
    } else if is_word(word, b"closing") {
        Some(Row::Closing(words::number(rest)?))
    } else {
        None
    }
}
