use gate_model::{Body, Moment, Numbered};

/// What happens. Clients are named by their numbers, from 1.
#[derive(Drop)]
pub enum Event {
    /// A client looks whether a close has begun.
    Look(u32),
    /// A client hands in a body.
    Push(u32, Body),
    /// The applier takes the oldest item of the queue.
    Take,
    /// A close begins at this moment.
    Close(Moment),
    /// A client ends.
    End(u32),
    /// The applier takes in a client that has ended.
    TakeIn(u32),
}

/// What an event is answered.
#[derive(Drop)]
pub enum Reply {
    /// To a look: no close has begun.
    Open,
    /// To a look: a close began, the first one at this moment.
    Closing(Moment),
    /// The client may not do this now. A pushed body is returned.
    Ignored(Option<Body>),
    /// To a push: as many items as the quota allows were queued for this client. The body is
    /// returned.
    Spent(Body),
    /// To a push: the queue holds as many items as it may. The body is returned.
    Full(Body),
    /// To a push: the number of the item among those of its client, from 1.
    Queued(u64),
    /// To a take: the oldest item.
    Taken(Numbered),
    /// To a take: the queue is empty.
    Empty,
    /// To a close: it is the first one.
    Begun,
    /// To a close: another one was first, at this moment.
    AlreadyClosing(Moment),
    /// To an end: the client has ended.
    Ended,
    /// To a taking in: the client was taken in.
    Joined,
}

/// Why a push of a client that may push is refused. The body is returned.
#[derive(Drop)]
pub(crate) enum PushFault {
    /// As many items as the quota allows were queued for this client.
    Spent(Body),
    /// The queue holds as many items as it may.
    Full(Body),
}
