//! The status pages of several gateways as one list of objects, comments and downtime entries:
//! merged, counted, and chosen and put into order by the query of a request.
#![tactic(auto)]

mod among;
mod counts;
mod entries;
mod gateway;
mod groups;
mod merging;
mod query;
mod ranks;
mod selecting;
mod sorting;
mod values;

pub use among::{retain_comments, retain_downtimes};
pub use counts::{Counts, count};
pub use entries::{
    CommentLine, DowntimeLine, Entry, Origin, comments_of, downtimes_of, merge_comments,
    merge_downtimes,
};
pub use gateway::{Gateway, MergedObject, Old};
pub use merging::{age_of, merge};
pub use query::{Choice, Query, Sort, choice_name, mark_name, read_query, sort_name};
pub use ranks::{is_made, is_unhandled, rank};
pub use selecting::{filter_rows, is_at, page_rows, select};
pub use sorting::sort_rows;
pub use values::value_in;
