use status_memory::GatewayChange;
use status_merge::{CommentLine, DowntimeLine, Gateway, MergedObject, Query};

/// What a page for a browser shows.
#[derive(Drop)]
pub struct View<'a> {
    pub title: &'a str,
    /// The clock of the program, in seconds since 1970.
    pub clock: u32,
    /// The seconds of refresh without a query.
    pub refresh: u32,
    /// Whether there is a page where the rows of the list can be marked.
    pub marks: bool,
    pub query: &'a Query,
    pub gateways: &'a [Gateway<'a>],
    /// All objects, for the counts.
    pub all: &'a [MergedObject<'a>],
    /// How many the query selects.
    pub selected: usize,
    /// Those of them on its page.
    pub objects: &'a [MergedObject<'a>],
    pub comments: &'a [CommentLine<'a>],
    pub downtimes: &'a [DowntimeLine<'a>],
    /// The changes of states, which have a page of their own.
    pub changes: &'a [GatewayChange<'a>],
}
