ghost use Rattle.std.specs.Prelude.{◌≡◌, length, IfOk, IfErr};
ghost use Rattle.gate_core.specs.State.{Extends, ExtendsByAll};
ghost use Rattle.gate_core.specs.Event.{FitsEvent, FitEvents};

use crate::event::{Event, PushFault, Reply};
use crate::world::World;
use gate_model::Body;
use std::alloc::Global;
use std::fmt;
use thiserror::Error;

impl World {
    /// Plays one event, and answers it by the events that were played before. It takes no memory.
    /// Own rule.
    pub fn play(&mut self, event: Event) -> Reply
        ensures stands { Extends self.old event result self.new }
        ensures fits { FitsEvent event result }
        ensures limits { self.new.limits ≡ self.old.limits }
    {
        match event {
            Event::Look(client) => self.reply_to_look(client),
            Event::Push(client, body) => self.reply_to_push(client, body),
            Event::Take => match self.take() {
                Some(item) => Reply::Taken(item),
                None => Reply::Empty,
            },
            Event::Close(moment) => match self.close(moment) {
                None => Reply::Begun,
                Some(first) => Reply::AlreadyClosing(first),
            },
            Event::End(client) => self.reply_to_end(client),
            Event::TakeIn(client) => self.reply_to_taking_in(client),
        }
    }

    fn reply_to_look(&mut self, client: u32) -> Reply
        ensures stands { Extends self.old (Event.Look client) result self.new }
        ensures fits { FitsEvent (Event.Look client) result }
        ensures limits { self.new.limits ≡ self.old.limits }
    {
        if !self.is_open(client) {
            return Reply::Ignored(None);
        }
        match self.look(client) {
            None => Reply::Open,
            Some(first) => Reply::Closing(first),
        }
    }

    fn reply_to_push(&mut self, client: u32, body: Body) -> Reply
        ensures stands { Extends self.old (Event.Push client body) result self.new }
        ensures fits { FitsEvent (Event.Push client body) result }
        ensures limits { self.new.limits ≡ self.old.limits }
    {
        if !self.is_ready(client) {
            return Reply::Ignored(Some(body));
        }
        match self.push(client, body) {
            Ok(number) => Reply::Queued(number),
            Err(PushFault::Spent(body)) => Reply::Spent(body),
            Err(PushFault::Full(body)) => Reply::Full(body),
        }
    }

    fn reply_to_end(&mut self, client: u32) -> Reply
        ensures stands { Extends self.old (Event.End client) result self.new }
        ensures fits { FitsEvent (Event.End client) result }
        ensures limits { self.new.limits ≡ self.old.limits }
    {
        if !self.is_open(client) {
            return Reply::Ignored(None);
        }
        self.end(client);
        Reply::Ended
    }

    fn reply_to_taking_in(&mut self, client: u32) -> Reply
        ensures stands { Extends self.old (Event.TakeIn client) result self.new }
        ensures fits { FitsEvent (Event.TakeIn client) result }
        ensures limits { self.new.limits ≡ self.old.limits }
    {
        if !self.is_leaving(client) {
            return Reply::Ignored(None);
        }
        self.take_in(client);
        Reply::Joined
    }
}

/// A run that was refused because memory ran out: nothing was played.
#[derive(Drop, Error)]
#[error("out of memory: no event was played")]
pub struct RefusedRun {
    /// The events, in their order.
    pub events: Vec<Event>,
    /// The World as it was.
    pub world: World,
}

/// Shows the type's name.
impl fmt::Debug for RefusedRun {
    fn fmt<W: fmt::Write>(&self, f: &mut fmt::Formatter<W>) -> fmt::Result {
        f.write_str("RefusedRun")
    }
}

/// Plays events one after another, and lists the replies in the order of the events.
///
/// It fails only where memory runs out. Then nothing was played, and the events and the World are
/// returned.
pub fn run(
    alloc: Global,
    mut world: World,
    events: Vec<Event>,
) -> Result<(Vec<Reply>, World), RefusedRun>
    ensures replies { IfOk result (λ played. length played.0.items ≡ length events.items) }
    ensures stands { IfOk result (λ played.
        ExtendsByAll world events.items played.0.items played.1) }
    ensures fits { IfOk result (λ played. FitEvents events.items played.0.items) }
    ensures limits { IfOk result (λ played. played.1.limits ≡ world.limits) }

    ensures refused { IfErr result (λ refused.
        (refused.events.items ≡ events.items) × (refused.world ≡ world)) }
{
    let Ok(mut replies) = Vec::with_capacity(alloc, events.len()) else {
        return Err(RefusedRun { events, world });
    };
    for event in events {
        replies.push_reserved(world.play(event));
    }
    Ok((replies, world))
}
