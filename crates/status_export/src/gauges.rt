//! Gauges in the text format of Prometheus, version 0.0.4.

ghost use Rattle.std.specs.Prelude.{◌≡◌, ◌++◌, OnOk, codes};
ghost use Rattle.std.specs.List.{flat_map};
ghost use Rattle.std.specs.Fmt.{decimal};
ghost use Rattle.status_export.specs.Gauges.{value_byte, value_text, label_text, labels_text, sample_text, head_text};
ghost use Rattle.status_export.specs.inner.Labels.{labels_of, sample_of};
ghost use Rattle.status_export.specs.inner.Writing.{Appends};

use itoa::Buffer;
use std::alloc::AllocError;

fn push_str(out: &mut Vec<u8>, text: &str) -> Result<(), AllocError>
    ensures { OnOk result (out.new.items ≡ out.old.items ++ text.now) }
{
    out.extend_from_slice(text.as_bytes())
}

fn push_number(out: &mut Vec<u8>, number: u64) -> Result<(), AllocError>
    ensures { OnOk result (out.new.items ≡ out.old.items ++ decimal number) }
{
    let mut digits = Buffer::new();
    push_str(out, digits.format(number))
}

fn push_value_byte(out: &mut Vec<u8>, byte: u8) -> Result<(), AllocError>
    ensures { OnOk result (out.new.items ≡ out.old.items ++ value_byte byte) }
{
    match byte {
        b'\\' => push_str(out, "\\\\"),
        b'"' => push_str(out, "\\\""),
        b'\n' => push_str(out, "\\n"),
        _ => {
            out.push(byte)?;
            Ok(())
        }
    }
}

fn push_value(out: &mut Vec<u8>, value: &str) -> Result<(), AllocError>
    ensures { OnOk result (out.new.items ≡ out.old.items ++ value_text value.now) }
{
    for byte in value.as_bytes() {
        push_value_byte(out, *byte)?;
    }
    Ok(())
}

fn push_label(out: &mut Vec<u8>, name: &str, value: &str) -> Result<(), AllocError>
    ensures { OnOk result (out.new.items ≡ out.old.items ++ label_text (name.now, value.now)) }
{
    push_str(out, name)?;
    push_str(out, "=\"")?;
    push_value(out, value)?;
    push_str(out, "\"")
}

fn push_labels(out: &mut Vec<u8>, labels: &[(&str, &str)]) -> Result<(), AllocError>
    ensures { OnOk result (out.new.items ≡ out.old.items ++ labels_text (labels_of labels.now)) }
{
    let Some((first, rest)) = labels.split_first() else {
        return Ok(());
    };
    push_str(out, "{")?;
    push_label(out, first.0, first.1)?;
    for label in rest {
        push_str(out, ",")?;
        push_label(out, label.0, label.1)?;
    }
    push_str(out, "}")
}

/// Appends the line of a sample.
#[tactic(auto, unfolding(crate::specs::Gauges::sample_text))]
pub fn push_sample(
    out: &mut Vec<u8>,
    name: &str,
    labels: &[(&str, &str)],
    number: u64,
) -> Result<(), AllocError>
    ensures { OnOk result
        (out.new.items ≡ out.old.items ++ sample_text name.now (sample_of labels.now number)) }
{
    push_str(out, name)?;
    push_labels(out, labels)?;
    push_str(out, " ")?;
    push_number(out, number)?;
    push_str(out, "\n")
}

/// Appends what a gauge is: the lines before its samples.
#[tactic(auto, unfolding(crate::specs::Gauges::head_text))]
pub fn push_head(out: &mut Vec<u8>, name: &str, help: &str) -> Result<(), AllocError>
    ensures { OnOk result
        (Appends out.old.items out.new.items (head_text name.now help.now)) }
{
    push_str(out, "# HELP ")?;
    push_str(out, name)?;
    push_str(out, " ")?;
    push_str(out, help)?;
    push_str(out, "\n# TYPE ")?;
    push_str(out, name)?;
    push_str(out, " gauge\n")
}
