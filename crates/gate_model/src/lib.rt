//! The values that every crate of the gateway uses: texts, monitored objects, submissions, and
//! records with their moments and outcomes; and what a list of records means.
#![tactic(auto)]

mod act;
mod comments;
mod downtime;
mod limits;
mod object;
mod record;
mod search;
mod state;
mod status;
mod steps;
mod submission;
mod text;
mod writing;

pub use act::{Act, Deed, Name, Span, Words};
pub use comments::{Comment, CommentEvent, Source};
pub use downtime::{DowntimeEvent, Entry, Plan, Scheduled};
pub use limits::{
    DOCUMENT_BYTES, GREATEST_AGE, HOST_NAME, HOSTS, LINE_LENGTH, LINES, MOST_CAPACITY,
    MOST_CLIENTS, MOST_ITEMS, MOST_RECORDS, MOST_SESSIONS, MOST_WORKERS, SERVICE_NAME,
    SERVICES_OF_HOST,
};
pub use object::{Kind, ObjectId, ObjectLine};
pub use record::{Moment, Outcome, Record};
pub use search::{HasId, find_by_id};
pub use state::State;
pub use status::{Acknowledgement, CheckResult, ObjectEvent};
pub use steps::Steps;
pub use submission::{Body, Numbered};
pub use text::Text;
pub use writing::{push_code, push_escaped, push_number};
