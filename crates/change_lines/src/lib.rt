//! A change between two status pages, as a line of text.
#![tactic(auto)]

ghost use Rattle.std.specs.Prelude.{◌≡◌, ◌++◌, OnOk, codes};
ghost use Rattle.std.specs.Fmt.{decimal};
ghost use Rattle.change_lines.specs.Lines.{acknowledgement_text, change_text, depth_text, freshness_text, line, of_object, saying, state_text, window_text};

use gate_model::{State, push_number};
use page_changes::Change;
use status_reading::{ShownAcknowledgement, state_name};
use std::alloc::AllocError;

fn push_object(out: &mut Vec<u8>, host: &[u8], service: &[u8]) -> Result<(), AllocError>
    ensures { OnOk result (out.new.items ≡ out.old.items ++ of_object host.now service.now) }
{
    out.extend_from_slice(host)?;
    if !service.is_empty() {
        out.extend_from_slice(b" ")?;
        out.extend_from_slice(service)?;
    }
    out.extend_from_slice(b": ")
}

fn push_state(
    out: &mut Vec<u8>,
    before: State,
    after: State,
    output: &[u8],
) -> Result<(), AllocError>
    ensures { OnOk result
        (out.new.items ≡ out.old.items ++ state_text before after output.now) }
{
    out.extend_from_slice(state_name(after).as_bytes())?;
    out.extend_from_slice(b", was ")?;
    out.extend_from_slice(state_name(before).as_bytes())?;
    out.extend_from_slice(b": ")?;
    out.extend_from_slice(output)
}

fn freshness_text(stale: bool) -> &'static [u8]
    ensures { result.now ≡ freshness_text stale }
{
    if stale { b"stale" } else { b"fresh" }
}

fn acknowledgement_text(shown: ShownAcknowledgement) -> &'static [u8]
    ensures { result.now ≡ acknowledgement_text shown }
{
    match shown {
        ShownAcknowledgement::Missing => b"no longer acknowledged",
        ShownAcknowledgement::Normal => b"acknowledged",
        ShownAcknowledgement::Sticky => b"acknowledged, sticky",
    }
}

fn push_numbered(out: &mut Vec<u8>, name: &[u8], number: u32) -> Result<(), AllocError>
    ensures { OnOk result (out.new.items ≡ out.old.items ++ (name.now ++ decimal number)) }
{
    out.extend_from_slice(name)?;
    push_number(out, u64::from(number))
}

fn push_depth(out: &mut Vec<u8>, before: u32, after: u32) -> Result<(), AllocError>
    ensures { OnOk result (out.new.items ≡ out.old.items ++ depth_text before after) }
{
    push_numbered(out, b"downtime depth ", after)?;
    push_numbered(out, b", was ", before)
}

fn push_window(out: &mut Vec<u8>, start: u32, end: u32) -> Result<(), AllocError>
    ensures { OnOk result (out.new.items ≡ out.old.items ++ window_text start end) }
{
    push_numbered(out, b" from ", start)?;
    push_numbered(out, b" to ", end)
}

fn push_saying(out: &mut Vec<u8>, author: &[u8], text: &[u8]) -> Result<(), AllocError>
    ensures { OnOk result (out.new.items ≡ out.old.items ++ saying author.now text.now) }
{
    out.extend_from_slice(b" by ")?;
    out.extend_from_slice(author)?;
    out.extend_from_slice(b": ")?;
    out.extend_from_slice(text)
}

fn push_text(out: &mut Vec<u8>, change: &Change<'_>) -> Result<(), AllocError>
    ensures { OnOk result (out.new.items ≡ out.old.items ++ change_text change.now) }
{
    match change {
        Change::OtherObjects => out.extend_from_slice(b"the gateway has other objects"),
        Change::State(one, other) => {
            push_object(out, other.host, other.service)?;
            push_state(out, one.state, other.state, other.output)
        }
        Change::Staleness(_, other) => {
            push_object(out, other.host, other.service)?;
            out.extend_from_slice(freshness_text(other.stale))
        }
        Change::Acknowledgement(_, other) => {
            push_object(out, other.host, other.service)?;
            out.extend_from_slice(acknowledgement_text(other.acknowledgement))
        }
        Change::Depth(one, other) => {
            push_object(out, other.host, other.service)?;
            push_depth(out, one.depth, other.depth)
        }
        Change::CommentMade(row) => {
            push_object(out, row.host, row.service)?;
            push_numbered(out, b"comment ", row.id)?;
            push_saying(out, row.author, row.text)
        }
        Change::CommentGone(row) => {
            push_object(out, row.host, row.service)?;
            push_numbered(out, b"comment ", row.id)?;
            out.extend_from_slice(b" is gone")
        }
        Change::DowntimeMade(row) => {
            push_object(out, row.host, row.service)?;
            push_numbered(out, b"downtime ", row.id)?;
            push_window(out, row.start, row.end)?;
            push_saying(out, row.author, row.text)
        }
        Change::DowntimeGone(row) => {
            push_object(out, row.host, row.service)?;
            push_numbered(out, b"downtime ", row.id)?;
            out.extend_from_slice(b" is gone")
        }
        Change::Closing(_) => out.extend_from_slice(b"the gateway is closing"),
    }
}

/// Appends the line of a change, with the moment of the page after it, in seconds since 1970. The
/// only error is out of memory. Own rule.
pub fn push_change(out: &mut Vec<u8>, moment: u32, change: &Change<'_>) -> Result<(), AllocError>
    ensures { OnOk result (out.new.items ≡ out.old.items ++ line moment change.now) }
{
    push_numbered(out, b"[", moment)?;
    out.extend_from_slice(b"] ")?;
    push_text(out, change)?;
    out.extend_from_slice(b"\n")
}
