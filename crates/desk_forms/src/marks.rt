//! The marks of a form: one form for several objects.

ghost use Rattle.std.specs.Prelude.{◌≡◌, ◌==◌, ◌≤◌, ◌<◌, ◌++◌, [], IsOk, IfOk, IfErr, OnOk, length, map, filter};
ghost use Rattle.std.specs.List.{before_first, after_first};
ghost use Rattle.desk_forms.specs.Marks.{is_mark, marks_of, IsMarksFault, host_of, service_of, is_shared, fields_for, sender_for};

use crate::admitting::AdmittedForm;
use crate::fields::Field;
use crate::requests::FormFault;
use gate_model::Text;
use memchr::memchr;
use std::alloc::{AllocError, Global};

// How many objects a form marks at most.
const MOST_MARKS: usize = 256;

fn is_mark(field: &Field) -> bool
    ensures { result ≡ is_mark field.now }
{
    field.name.bytes().starts_with(b"mark.")
}

/// The marks of a form, in their order: the values of its fields whose names begin with `mark.`.
///
/// `NoMarks`: it has none. `TooManyMarks`: it has more than 256. `OutOfMemory` may be returned in place
/// of any other answer.
pub fn read_marks<'f>(alloc: Global, fields: &'f [Field]) -> Result<Vec<&'f [u8]>, FormFault>
    ensures marks { IfOk result (λ marks.
        map (λ mark. mark.now) marks.items ≡ marks_of fields.entry.now) }
    ensures few { IsOk result → (marks_of fields.entry.now ≡ [] → ⊥)
        × (length (marks_of fields.entry.now) ≤ 256) }
    ensures refused { IfErr result (IsMarksFault fields.entry.now) }
{
    let mut marks = Vec::new(alloc);
    for field in fields {
        if is_mark(field) {
            marks.push(field.value.bytes())?;
        }
    }
    if marks.is_empty() {
        return Err(FormFault::NoMarks);
    }
    if marks.len() > MOST_MARKS {
        return Err(FormFault::TooManyMarks);
    }
    Ok(marks)
}

/// What stands before the first such byte; the whole text where there is none.
pub fn before_byte(text: &[u8], mark: u8) -> &[u8]
    ensures { result.now ≡ before_first (λ byte. byte == mark) text.now }
{
    match memchr(mark, text) {
        Some(index) => &text[..index],
        None => text,
    }
}

/// What stands after the first such byte; nothing where there is none.
pub fn after_byte(text: &[u8], mark: u8) -> &[u8]
    ensures { result.now ≡ after_first (λ byte. byte == mark) text.now }
{
    match memchr(mark, text) {
        Some(index) => &text[index + 1..],
        None => &[],
    }
}

fn field(alloc: Global, name: &[u8], value: &[u8]) -> Result<Field, AllocError>
    ensures { IfOk result (λ field. field ≡ record { name = name.now; value = value.now }) }
{
    Ok(Field {
        name: Text::copied(alloc, name)?,
        value: Text::copied(alloc, value)?,
    })
}

fn is_shared(field: &Field) -> bool
    ensures { result ≡ is_shared field.now }
{
    let name = field.name.bytes();
    !is_mark(field)
        && name != b"host".as_slice()
        && name != b"service".as_slice()
        && name != b"id".as_slice()
}

// Appends copies of the fields that are for each mark.
fn push_shared(alloc: Global, fields: &[Field], shared: &mut Vec<Field>) -> Result<(), AllocError>
    ensures { OnOk result (shared.new.items ≡ shared.old.items ++ filter is_shared fields.now) }
{
    for one in fields {
        if is_shared(one) {
            shared.push(field(alloc, one.name.bytes(), one.value.bytes())?)?;
        }
    }
    Ok(())
}

/// The form for one mark of the form of an admitted request, by the same user: the mark names its
/// object, `host;service` as the page spells it, in place of the fields of the form. It is for no entry
/// of an id. The only error is out of memory.
pub fn form_for(alloc: Global, form: &AdmittedForm, mark: &[u8]) -> Result<AdmittedForm, AllocError>
    ensures { IfOk result (λ one. one ≡ sender_for mark.now form.now) }
{
    let mut fields = Vec::new(alloc);
    fields.push(field(alloc, b"host", before_byte(mark, b';'))?)?;
    fields.push(field(alloc, b"service", after_byte(mark, b';'))?)?;
    push_shared(alloc, form.fields(), &mut fields)?;
    form.with_fields(alloc, fields)
}
