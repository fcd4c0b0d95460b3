//! Reads the log page that a gateway prints at its end back into records. The page of a gateway is
//! read as its records; any other text is refused whole, with the number of its first bad line.
#![tactic(auto)]

mod bodies;
mod cuts;
mod lines;
mod logged;
mod page;

pub use lines::line_of;
pub use logged::{Logged, Refusal, accepted_records};
pub use page::{LogFault, read_log_page};
