//! The rows of a status page: what it shows of each object, comment and downtime entry.

use gate_model::{Acknowledgement, CheckResult, Comment, Moment, Scheduled, State, Text};

/// What the page shows of a monitored object.
#[derive(Drop)]
pub struct ObjectRow {
    pub host: Text,
    pub service: Option<Text>,
    pub state: State,
    /// The last accepted result.
    pub last: Option<CheckResult>,
    pub stale: bool,
    /// The acknowledgement that is in force.
    pub acknowledgement: Option<Acknowledgement>,
    /// How many of its downtime entries are active.
    pub depth: u32,
    /// The output of the last accepted result.
    pub output: Text,
}

/// What the page shows of a comment.
#[derive(Drop)]
pub struct CommentRow {
    pub comment: Comment,
    pub host: Text,
    pub service: Option<Text>,
    /// The moment of its record.
    pub moment: Moment,
    pub author: Text,
    pub text: Text,
}

/// What the page shows of a live downtime entry.
#[derive(Drop)]
pub struct DowntimeRow {
    pub scheduled: Scheduled,
    pub host: Text,
    pub service: Option<Text>,
    /// When it began, in seconds, if it has begun.
    pub begin: Option<u32>,
    pub author: Text,
    pub text: Text,
}
