use crate::object::ObjectId;
use crate::record::Moment;

/// What a downtime command asks for (Nagios Core 4 manual, Scheduled Downtime).
#[derive(Clone, Copy, PartialEq, Eq)]
pub struct Plan {
    pub starts: Moment,
    pub ends: Moment,
    /// Whether the downtime is fixed. Any other is flexible.
    pub fixed: bool,
    /// The id of the entry whose beginning begins this one, or 0.
    pub trigger: u32,
    /// How many seconds a flexible downtime lasts.
    pub lasts: u32,
    /// The log index of the record that asks for it.
    pub log_index: u32,
}

/// A downtime entry as it was scheduled.
#[derive(Clone, Copy, PartialEq, Eq)]
pub struct Scheduled {
    /// Entries are numbered from the first id of their book on, in the order in which they were scheduled.
    pub id: u32,
    pub object: ObjectId,
    pub plan: Plan,
    /// When it was scheduled.
    pub moment: Moment,
}

/// A downtime entry with what came of it.
#[derive(Clone, Copy, PartialEq, Eq)]
pub struct Entry {
    pub scheduled: Scheduled,
    /// The first transition of its object that begins it, for an untriggered flexible entry.
    pub transition: Option<Moment>,
    /// Whether it was deleted, by its own id or with a trigger of its chain.
    pub deleted: bool,
}

/// What an accepted record is to the downtime entries.
#[derive(Clone, Copy)]
pub enum DowntimeEvent {
    /// An entry is scheduled.
    Schedule {
        moment: Moment,
        object: ObjectId,
        plan: Plan,
    },
    /// The entry of this id is deleted, and those that it triggers.
    Delete {
        moment: Moment,
        id: u32,
    },
    /// The object at this place goes into a problem state.
    Transition {
        moment: Moment,
        place: u32,
    },
}
