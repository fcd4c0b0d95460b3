//! A run's log: a file with a line for each record, written soon after it was applied. The thread that
//! applies puts the lines into a buffer, as far as there is room, and another one writes them. What
//! doesn't fit is put there later, since the records stay: so what is written is always the beginning
//! of one text, and no disk keeps anybody waiting.
#![tactic(auto)]

mod buffer;
mod file;
mod hold;
mod log;
mod writing;

pub use buffer::{Buffer, MOST_BYTES};
pub use file::{Begun, begin_run_log};
pub use hold::LogHold;
pub use log::{RunLog, Waiting};
pub use writing::write_run_log;
