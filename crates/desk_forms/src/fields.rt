ghost use Rattle.std.specs.Prelude.{◌≡◌, IsOk, IfOk, IfErr, IsUtf8, map};
ghost use Rattle.std.specs.List.{list_any};
ghost use Rattle.std.specs.Str.{bytes_eq};
ghost use Rattle.form_urlencoded.specs.Form.{plus_to_space, decode};
ghost use Rattle.percent_encoding.specs.Percent.{percent_decode};
ghost use Rattle.desk_forms.specs.Fields.{IsText, field_of, fields_of, IsForm, IsFaultOf};
ghost use Rattle.desk_forms.specs.inner.Reading.{IsBadText, IsBadPair};

use form_urlencoded::raw_pairs;
use gate_model::Text;
use percent_encoding::percent_decode;
use std::alloc::{AllocError, AllocFailed, Global};
use std::str::from_utf8;
use thiserror::Error;

// The bytes of the longest form.
const LONGEST_FORM: usize = 16384;

/// A field of a form, decoded.
#[derive(Debug, Drop)]
pub struct Field {
    pub name: Text,
    pub value: Text,
}

/// Why a body is no form.
#[derive(Clone, Copy, Debug, Error)]
pub enum FieldsFault {
    /// It has more than 16,384 bytes.
    #[error("the form is too long")]
    TooLong,
    /// A name or a value is no UTF-8.
    #[error("the form is not UTF-8")]
    NotUtf8,
    /// Two fields have one name.
    #[error("the form has a field twice")]
    Twice,
    /// Memory ran out.
    #[error("out of memory")]
    OutOfMemory,
}

impl From<AllocError> for FieldsFault {
    ghost use Rattle.desk_forms.specs.declared.fields.FieldsFault.TheVariants.{OutOfMemory};

    ghost from_gives = { λ _ fault. fault ≡ OutOfMemory };

    fn from(_: AllocError) -> FieldsFault {
        FieldsFault::OutOfMemory
    }
}

impl<T: Drop> From<AllocFailed<T>> for FieldsFault {
    ghost use Rattle.desk_forms.specs.declared.fields.FieldsFault.TheVariants.{OutOfMemory};

    ghost from_gives = { λ _ fault. fault ≡ OutOfMemory };

    fn from(_: AllocFailed<T>) -> FieldsFault {
        FieldsFault::OutOfMemory
    }
}

// Each `+` is a space.
fn spaced(alloc: Global, encoded: &[u8]) -> Result<Vec<u8>, AllocError>
    ensures { IfOk result (λ bytes. bytes.items ≡ map plus_to_space encoded.now) }
{
    encoded
        .iter()
        .map(|&byte| if byte == b'+' { b' ' } else { byte })
        .collect(alloc)
}

// The text that bytes with escapes stand for.
fn unescaped(alloc: Global, bytes: &[u8]) -> Result<Text, FieldsFault>
    ensures text { IfOk result (λ text. text ≡ percent_decode bytes.now) }
    ensures utf8 { IsOk result → IsUtf8 (percent_decode bytes.now) }
    ensures refused { IfErr result (IsBadText (percent_decode bytes.now)) }
{
    let mut text = Vec::new(alloc);
    percent_decode(bytes).append_to(&mut text)?;
    if from_utf8(text.as_slice()).is_err() {
        return Err(FieldsFault::NotUtf8);
    }
    Ok(Text::new(text))
}

// The text that an encoded name or value stands for.
fn decoded(alloc: Global, encoded: &[u8]) -> Result<Text, FieldsFault>
    ensures text { IfOk result (λ text. text ≡ decode encoded.now) }
    ensures utf8 { IsOk result → IsUtf8 (decode encoded.now) }
    ensures refused { IfErr result (IsBadText (decode encoded.now)) }
{
    let spaced = spaced(alloc, encoded)?;
    unescaped(alloc, spaced.as_slice())
}

fn field_of(alloc: Global, name: &[u8], value: &[u8]) -> Result<Field, FieldsFault>
    ensures field { IfOk result (λ field. field ≡ field_of (name.now, value.now)) }
    ensures text { IsOk result → IsText (field_of (name.now, value.now)) }
    ensures refused { IfErr result (IsBadPair (name.now, value.now)) }
{
    let name = decoded(alloc, name)?;
    let value = decoded(alloc, value)?;
    Ok(Field { name, value })
}

fn is_named(fields: &[Field], name: &[u8]) -> bool
    ensures { result ≡ list_any (λ field. bytes_eq field.name name.now) fields.now }
{
    fields.iter().any(|field| field.name.bytes() == name)
}

/// Reads the body of a form (`application/x-www-form-urlencoded`; URL Standard, section 5).
///
/// `TooLong`: it has more than 16,384 bytes. `NotUtf8` and `Twice` are of the first field that is no
/// text, or has the name of an earlier one. `OutOfMemory` may be returned in place of any other
/// answer. Own rules: the limit, and that a name stands once.
pub fn read_fields(alloc: Global, body: &[u8]) -> Result<Vec<Field>, FieldsFault>
    ensures fields { IfOk result (λ fields. fields.items ≡ fields_of body.now) }
    ensures form { IsOk result → IsForm body.now }
    ensures refused { IfErr result (IsFaultOf body.now) }
{
    if body.len() > LONGEST_FORM {
        return Err(FieldsFault::TooLong);
    }
    let mut fields = Vec::new(alloc);
    let mut pairs = raw_pairs(body);
    while let Some(pair) = pairs.next() {
        let field = field_of(alloc, pair.0, pair.1)?;
        if is_named(fields.as_slice(), field.name.bytes()) {
            return Err(FieldsFault::Twice);
        }
        fields.push(field)?;
    }
    Ok(fields)
}
