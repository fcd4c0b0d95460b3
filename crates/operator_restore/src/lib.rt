//! What a kept status page and a kept log page say of the gateway that wrote them, which a fresh one
//! is to show again: what is sent for it, what can't be brought back, and the lines that name that.
#![tactic(auto)]

mod escapes;
mod kept;
mod naming;
mod pages;
mod printed;
mod prospect;

pub use escapes::is_escaped_text;
pub use kept::{KeptFault, kept_gateway, kept_over};
pub use naming::{left_count, push_command, push_left, push_rows, row_count, status_of};
pub use pages::kept_table;
pub use printed::{is_whole, log_part};
pub use prospect::{Prospect, ProspectFault, Tables, look_ahead, look_ahead_by_page, sent_by};
