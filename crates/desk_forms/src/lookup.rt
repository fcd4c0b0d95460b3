ghost use Rattle.std.specs.Prelude.{◌≡◌, [], IfOk, is_some, unwrap_or, option_map};
ghost use Rattle.desk_forms.specs.Fields.{given};

use crate::fields::Field;
use gate_model::Text;
use std::alloc::{AllocError, Global};

/// The value of the first field of this name that is not empty. A browser sends an empty value for
/// what nobody filled in.
pub fn given<'f>(fields: &'f [Field], name: &str) -> Option<&'f [u8]>
    ensures { option_map (λ value. value.now) result ≡ given name.now fields.entry.now }
{
    for field in fields {
        if field.name.bytes() == name.as_bytes() && !field.value.bytes().is_empty() {
            return Some(field.value.bytes());
        }
    }
    None
}

/// The same, or no text where there is none.
pub fn value_or_empty<'f>(fields: &'f [Field], name: &str) -> &'f [u8]
    ensures { result.now ≡ unwrap_or (given name.now fields.entry.now) [] }
{
    match given(fields, name) {
        Some(value) => value,
        None => &[],
    }
}

/// Whether there is such a field, as of a box that is checked.
pub(crate) fn is_checked(fields: &[Field], name: &str) -> bool
    ensures { result ≡ is_some (given name.now fields.now) }
{
    given(fields, name).is_some()
}

/// A copy of that value.
pub(crate) fn text_in(
    alloc: Global,
    fields: &[Field],
    name: &str,
) -> Result<Option<Text>, AllocError>
    ensures { IfOk result (λ text. text ≡ given name.now fields.now) }
{
    match given(fields, name) {
        Some(value) => Ok(Some(Text::copied(alloc, value)?)),
        None => Ok(None),
    }
}
