ghost use Rattle.std.specs.Prelude.{◌≡◌, ◌++◌, OnOk, map};
ghost use Rattle.desk_view.specs.Parts.{part_view};
ghost use Rattle.status_view.specs.Filling.{piece_bytes, html_bytes};

use html_text::Html;
use std::alloc::AllocError;

/// A part of a page: markup of the program's own, a text from outside, or a number.
#[derive(Clone, Copy)]
pub enum Part<'a> {
    Markup(&'static str),
    Text(&'a [u8]),
    Number(u64),
}

fn put_one(html: &mut Html, part: &Part<'_>) -> Result<(), AllocError>
    ensures { OnOk result (html.new ≡ html.old ++ piece_bytes (part_view part.now)) }
{
    match part {
        Part::Markup(markup) => html.markup(*markup),
        Part::Text(text) => html.text(*text),
        Part::Number(number) => html.number(*number),
    }
}

/// Appends some parts. The only error is out of memory.
pub(crate) fn put(html: &mut Html, parts: &[Part<'_>]) -> Result<(), AllocError>
    ensures { OnOk result (html.new ≡ html.old ++ html_bytes (map part_view parts.now)) }
{
    for part in parts {
        put_one(html, part)?;
    }
    Ok(())
}
