//! The log page, printed piece by piece from the records: no memory is taken for it, so that a want of
//! memory can't lose it. Where nobody reads it, a thread that watches its progress says so.
#![tactic(auto)]

mod arguments;
mod escaping;
mod page;
mod progress;
mod watching;

pub use page::{print_log, put_record};
pub use progress::Progress;
pub use watching::{STILL_MILLIS, watch};
