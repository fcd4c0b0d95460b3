//! Reads the text of a gateway's status page into rows. What is read, written again, is the page
//! byte for byte; any other text is refused whole, with the number of its first bad line, and so is
//! a page with a row that no gateway writes.
#![tactic(auto)]

mod cuts;
mod lines;
mod page;
mod page_text;
mod plain;
mod row_faults;
mod rows;
mod words;

pub use gate_lines::{plan_name, state_name};
pub use gate_model::State;
pub use page::{ReadFault, StatusPage, read_status_page};
pub use page_text::PageText;
pub use plain::plain_bytes;
pub use row_faults::{RowFault, row_fault_words};
pub use rows::{ShownAcknowledgement, ShownComment, ShownDowntime, ShownObject, ShownSource};
pub use words::source_word;
