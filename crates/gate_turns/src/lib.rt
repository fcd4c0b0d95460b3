//! Who of a port's peers is served next, is late, and gives way to one more: agents, operators and the
//! readers of pages alike.
#![tactic(auto)]

mod counts;
mod pages;
mod standing;
mod turns;
mod waiting;

pub use pages::{PAGE_BYTES_A_MILLI, kept};
pub use standing::{Page, Role, Stage, Standing};
pub use turns::{first_ready, gives_way, is_over, longest_owing, longest_parting, slowest};
pub use waiting::{is_late, limit_of, silence_of, time_left};
