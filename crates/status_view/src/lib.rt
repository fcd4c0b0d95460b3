//! The page for a browser: what is shown of the status pages of one or more gateways.
//!
//! It is made in two steps. `lay_out` makes its tags from states, marks and numbers alone: it is
//! given no text. `fill` puts the texts into the slots that it left.
#![tactic(auto)]

mod all_entries;
mod asked_layout;
mod calendar;
mod changes;
mod filling;
mod head_layout;
mod html;
mod layout;
mod links;
mod lists_layout;
mod objects_layout;
mod one_object;
mod shape;
mod style;
mod summary_layout;
mod times;
mod view;

pub use all_entries::entries_page;
pub use changes::{changes_feed, changes_page};
pub use filling::{performance_of, words_of};
pub use html::html_page;
pub use layout::EntryList;
pub use links::{ObjectName, object_link, read_object_name};
pub use one_object::{ObjectAsked, object_page};
pub use style::STYLE;
pub use view::View;
