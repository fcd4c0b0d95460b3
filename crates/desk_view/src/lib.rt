//! The page of an object, with forms by which an operator acts on it, and the page of many objects with one
//! form for those that are marked. Markup is the program's own,
//! and every text that comes from outside is escaped.
#![tactic(auto)]

mod fields;
mod forms;
mod marks;
mod page;
mod parts;
mod states;

pub use forms::FormOf;
pub use marks::{MarksPage, marks_page};
pub use page::{DeskPage, Note, ShownAt, desk_page, shows};
pub use parts::Part;
