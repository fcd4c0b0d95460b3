//! Files that outlive a gateway, read whole, and written whole or not at all; and whether the process
//! that writes one still runs.
#![tactic(auto)]

mod keeping;

pub use keeping::{is_newer, keep, keep_page, read_file, runs};
