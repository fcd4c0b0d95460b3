//! The book of comments: which comments stand on which objects, in the order of their ids. Comments
//! are added, and removed by id, with all others of their object, with its acknowledgement or with
//! a downtime entry. Memory is taken by `reserve` alone.
#![tactic(auto)]

mod book;
mod counts;
mod faults;

pub use book::CommentBook;
pub use faults::{DeleteFault, IdsSpent};
