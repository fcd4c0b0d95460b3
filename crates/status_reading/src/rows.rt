//! The rows of a status page. Their texts are borrowed from the page and still have its escapes.

use gate_model::State;

/// What a page shows of a monitored object.
#[derive(Clone, Copy)]
pub struct ShownObject<'a> {
    pub host: &'a [u8],
    /// Empty for a host.
    pub service: &'a [u8],
    pub state: State,
    /// The moment of the last accepted result, in seconds since 1970.
    pub last: Option<u32>,
    pub stale: bool,
    pub acknowledgement: ShownAcknowledgement,
    /// How many of its downtime entries are active.
    pub depth: u32,
    pub output: &'a [u8],
}

/// Whether an object's problem is acknowledged, and how.
#[derive(Clone, Copy)]
pub enum ShownAcknowledgement {
    Missing,
    Normal,
    Sticky,
}

/// What a page shows of a comment.
#[derive(Clone, Copy)]
pub struct ShownComment<'a> {
    pub id: u32,
    pub host: &'a [u8],
    /// Empty for a host.
    pub service: &'a [u8],
    pub source: ShownSource,
    pub persistent: bool,
    /// In seconds since 1970.
    pub moment: u32,
    pub author: &'a [u8],
    pub text: &'a [u8],
}

/// Where a comment comes from.
#[derive(Clone, Copy)]
pub enum ShownSource {
    User,
    Acknowledgement,
    Downtime,
}

/// What a page shows of a live downtime entry. Moments are in seconds since 1970.
#[derive(Clone, Copy)]
pub struct ShownDowntime<'a> {
    pub id: u32,
    pub host: &'a [u8],
    /// Empty for a host.
    pub service: &'a [u8],
    /// Otherwise it is flexible.
    pub fixed: bool,
    /// The id of the entry that triggers it, or 0.
    pub trigger: u32,
    pub start: u32,
    pub end: u32,
    /// How many seconds a flexible entry lasts.
    pub duration: u32,
    /// The moment at which it began, if it has begun.
    pub begin: Option<u32>,
    pub author: &'a [u8],
    pub text: &'a [u8],
}
