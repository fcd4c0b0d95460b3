//! Command lines of operators, both directions: a line is read as the command that it spells or
//! refused with its first fault, and a command is written as its canonical line. A written line is
//! read as the same command, and no line spells two (External Command List; Nagios Core 4 manual,
//! External Commands).
#![tactic(auto)]

mod arguments;
mod building;
mod canonical;
mod commands;
mod faults;
mod numbers;
mod parsing;
mod writability;

pub use arguments::{Argument, Arguments};
pub use canonical::{push_body, round_trip, write_body, write_line};
pub use commands::{BodyCommand, Command, CommandName, command_of};
pub use faults::LineFault;
pub use numbers::{read_code, read_number};
pub use parsing::read_line;
pub use writability::writable;
