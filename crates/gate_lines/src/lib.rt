//! The lines of the status page and of the log page, and the rows that the status page shows.
#![tactic(auto)]

mod lines;
mod rows;

pub use lines::{
    log_page, outcome_name, plan_name, push_closing, push_comments, push_downtimes, push_objects,
    state_name,
};
pub use rows::{CommentRow, DowntimeRow, ObjectRow};
