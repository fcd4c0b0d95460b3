use thiserror::Error;

/// Why an entry isn't scheduled, in the order of the tests. Own rule.
#[derive(Clone, Copy, Debug, PartialEq, Error)]
pub enum ScheduleFault {
    /// The window's end isn't after its start.
    #[error("the downtime's window is empty")]
    BadWindow,
    /// The window's end isn't after the book's moment.
    #[error("the downtime's window is over")]
    WindowPast,
    /// The trigger is neither 0 nor the id of a live entry.
    #[error("no live downtime has the trigger's id")]
    NoSuchTrigger,
    /// The last id, 4,294,967,295, was given before.
    #[error("all ids of downtime are spent")]
    IdsSpent,
}

/// Why no entry is deleted, in the order of the tests. Own rule.
#[derive(Clone, Copy, Debug, PartialEq, Error)]
pub enum CancelFault {
    /// No live entry has that id.
    #[error("no such downtime")]
    NoSuchDowntime,
    /// The entry is on an object of the other kind.
    #[error("the downtime is on an object of the other kind")]
    WrongKind,
}
