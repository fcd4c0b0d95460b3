use crate::object::ObjectId;

/// Where a comment comes from.
#[derive(Clone, Copy)]
pub enum Source {
    /// An operator's comment command.
    User,
    /// An acknowledgement of a problem.
    Ack,
    /// A downtime entry, by its id.
    Downtime(u32),
}

/// A comment that stands.
#[derive(Clone, Copy)]
pub struct Comment {
    /// Comments are numbered from the first id of their book on, in the order in which they were made.
    pub id: u32,
    pub object: ObjectId,
    pub source: Source,
    pub persistent: bool,
    /// The log index of the record that made it, which has its author and its text.
    pub log_index: u32,
}

/// What an accepted record is to the comments.
#[derive(Clone, Copy)]
pub enum CommentEvent {
    /// A comment is made.
    Add {
        object: ObjectId,
        source: Source,
        persistent: bool,
        /// The log index of the record.
        log_index: u32,
    },
    /// The comment of this id is deleted.
    Delete {
        id: u32,
    },
    /// All comments of the object at this place are deleted.
    DeleteAll {
        place: u32,
    },
    /// The acknowledgement of the object at this place is cleared or removed.
    Clear {
        place: u32,
    },
    /// The downtime entry of this id is live no more.
    Gone {
        id: u32,
    },
}
