//! The commands that a form asks for, on a status page: those of an operator for an object, a comment
//! or a downtime entry that the page shows, and no others.
#![tactic(auto)]

mod admitting;
mod commands;
mod fields;
mod lookup;
mod marks;
mod moments;
mod requests;

pub use admitting::{AdmitFault, AdmittedForm, admit_form};
pub use commands::command_on;
pub use fields::{Field, FieldsFault, read_fields};
pub use lookup::{given, value_or_empty};
pub use marks::{after_byte, before_byte, form_for, read_marks};
pub use requests::{FormFault, request_of};
