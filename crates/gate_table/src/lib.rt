//! The table of monitored objects: hosts and their services, found by their names.
#![tactic(auto)]

mod keys;
mod named_objects;
mod names;
mod services;
mod table;
mod table_builder;

pub use services::Services;
pub use table::{BuildFault, ObjectTable, TableFault, find_object};
