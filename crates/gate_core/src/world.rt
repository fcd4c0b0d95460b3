ghost use Rattle.std.specs.Prelude.{◌≡◌, ◌<◌, [], ◌∷◌, ◌++◌, length, slice_get, drop, true, Some, unwrap_or, IsSome, IfSome, IfNone, IfOk};
ghost use Rattle.gate_core.specs.State.{Extends};
ghost use Rattle.gate_core.specs.inner.Calls.{new_world, seat_of, with_seat, with_queue, with_close, is_open_seat, is_ready_seat, is_leaving_seat, after_look, after_end, after_taking_in, AnswersPush, reply_of_push};
ghost use Rattle.gate_core.specs.Limits.{limits_of};
ghost use Rattle.gate_core.specs.Legal.{look_reply, take_reply, close_reply};

use crate::event::{Event, PushFault, Reply};
use gate_model::{Body, Moment, Numbered};
use std::alloc::{AllocError, Global};
use std::collections::VecDeque;
use std::marker::Model;

/// What is kept of a client.
#[derive(Clone, Copy)]
pub struct Seat {
    /// How many items were queued for it.
    pub count: u32,
    /// Its last own event is a look answered Open.
    pub looked: bool,
    /// It has ended.
    pub ended: bool,
    /// It was taken in.
    pub joined: bool,
}

// A client that has done nothing yet.
const NEW_SEAT: Seat = Seat {
    count: 0,
    looked: false,
    ended: false,
    joined: false,
};

/// The queue, its clients and its close, as one value that answers events. Contracts see what it was
/// opened with, the queue, the moment of the first close and a seat for each client.
#[derive(Drop)]
pub struct World {
    clients: u32,
    capacity: usize,
    quota: u32,
    seats: Vec<Seat>,
    queue: VecDeque<Numbered>,
    closed: Option<Moment>,
}

impl Model for World {
    ghost use Rattle.std.specs.Prelude.{◌≡◌, ◌≤◌, length};
    ghost use Rattle.std.specs.VecDeque.{deque_capacity};
    ghost use Rattle.gate_core.specs.State.{WorldState};

    ghost Value = { WorldState };

    ghost view = { λ w. record {
      limits = record { clients = w.clients; quota = w.quota; capacity = w.capacity };
      queue = w.queue.items;
      closed = w.closed;
      seats = w.seats.items;
    } };

    ghost invariant = { λ w.
        (length w.seats.items ≡ w.clients) × (w.capacity ≤ deque_capacity w.queue) };
}

impl World {
    /// A World in which nothing has happened, with all the room that it will need.
    pub(crate) fn empty(
        alloc: Global,
        clients: u32,
        capacity: usize,
        quota: u32,
    ) -> Result<World, AllocError>
        ensures { IfOk result (λ world. world ≡ new_world (limits_of clients quota capacity)) }
    {
        Ok(World {
            clients,
            capacity,
            quota,
            seats: Vec::from_elem(alloc, NEW_SEAT, clients as usize)?,
            queue: VecDeque::with_capacity(alloc, capacity)?,
            closed: None,
        })
    }

    // The client's seat, if the World has one for it.
    fn seat(&self, client: u32) -> Option<Seat>
        ensures { result ≡ seat_of self.now client }
    {
        let index = client.checked_sub(1)?;
        self.seats.get(index as usize).copied()
    }

    // Changes the seat of a client.
    fn put_seat(&mut self, client: u32, seat: Seat)
        requires { IsSome (seat_of self.old client) }
        ensures new { self.new ≡ with_seat self.old client seat }
        ensures there { seat_of self.new client ≡ Some seat }
    {
        self.seats[client as usize - 1] = seat;
    }

    // Puts an item after those of the queue. Its room was taken when the World was opened.
    fn put_last(&mut self, item: Numbered)
        requires { length self.old.queue < self.old.limits.capacity }
        ensures { self.new ≡ with_queue self.old (self.old.queue ++ item ∷ []) }
    {
        self.queue.push_back_reserved(item);
    }

    /// Whether the client is one of the World's, and hasn't ended.
    pub(crate) fn is_open(&self, client: u32) -> bool
        ensures { result ≡ is_open_seat (seat_of self.now client) }
    {
        self.seat(client).is_some_and(|seat| !seat.ended)
    }

    /// Whether the client hasn't ended, and its last own event is a look answered Open.
    pub(crate) fn is_ready(&self, client: u32) -> bool
        ensures { result ≡ is_ready_seat (seat_of self.now client) }
    {
        self.seat(client)
            .is_some_and(|seat| !seat.ended && seat.looked)
    }

    /// How many items were queued for the client.
    pub(crate) fn count(&self, client: u32) -> u32
        ensures { IfSome (seat_of self.now client) (λ seat. result ≡ seat.count) }
    {
        self.seat(client).map_or(0, |seat| seat.count)
    }

    /// A look of an open client: the moment of the first close, if there was one.
    pub(crate) fn look(&mut self, client: u32) -> Option<Moment>
        requires { is_open_seat (seat_of self.old client) ≡ true }
        ensures first { result ≡ self.old.closed }
        ensures after { IfSome (seat_of self.old client) (λ seat.
            self.new ≡ with_seat self.old client (after_look self.old.closed seat)) }
        ensures open { is_open_seat (seat_of self.new client) ≡ true }
        ensures ready { IfNone result (is_ready_seat (seat_of self.new client) ≡ true) }
        ensures stands { Extends self.old (Event.Look client) (look_reply result) self.new }
        ensures limits { self.new.limits ≡ self.old.limits }
    {
        let seat = self.seat(client).unwrap();
        let first = self.closed;
        let looked = first.is_none();
        self.put_seat(client, Seat { looked, ..seat });
        first
    }

    /// A push of a client that has looked: the number of its item.
    pub(crate) fn push(&mut self, client: u32, body: Body) -> Result<u64, PushFault>
        requires { is_ready_seat (seat_of self.old client) ≡ true }
        ensures answers { IfSome (seat_of self.old client) (λ seat.
            AnswersPush self.old client seat body result self.new) }
        ensures open { is_open_seat (seat_of self.new client) ≡ true }
        ensures stands { Extends self.old (Event.Push client body) (reply_of_push result) self.new }
        ensures limits { self.new.limits ≡ self.old.limits }
    {
        let seat = self.seat(client).unwrap();
        let seen = Seat {
            looked: false,
            ..seat
        };
        if seat.count >= self.quota {
            self.put_seat(client, seen);
            return Err(PushFault::Spent(body));
        }
        if self.queue.len() >= self.capacity {
            self.put_seat(client, seen);
            return Err(PushFault::Full(body));
        }
        let count = seat.count + 1;
        let number = u64::from(count);
        self.put_seat(client, Seat { count, ..seen });
        self.put_last(Numbered {
            client,
            number,
            body,
        });
        Ok(number)
    }

    /// Takes the oldest item, which leaves the queue. It takes no memory.
    pub fn take(&mut self) -> Option<Numbered>
        ensures oldest { result ≡ slice_get self.old.queue 0 }
        ensures after { self.new ≡ record self.old { queue = drop 1 self.old.queue } }
        ensures stands { Extends self.old Event.Take (take_reply result) self.new }
        ensures limits { self.new.limits ≡ self.old.limits }
    {
        self.queue.pop_front()
    }

    /// A close: the moment of the first one, if there was one before.
    pub(crate) fn close(&mut self, moment: Moment) -> Option<Moment>
        ensures first { result ≡ self.old.closed }
        ensures after { self.new ≡ with_close self.old (Some (unwrap_or self.old.closed moment)) }
        ensures stands { Extends self.old (Event.Close moment) (close_reply result) self.new }
        ensures limits { self.new.limits ≡ self.old.limits }
    {
        let first = self.closed;
        self.closed = Some(first.unwrap_or(moment));
        first
    }

    /// The end of an open client.
    pub(crate) fn end(&mut self, client: u32)
        requires { is_open_seat (seat_of self.old client) ≡ true }
        ensures after { IfSome (seat_of self.old client) (λ seat.
            self.new ≡ with_seat self.old client (after_end seat)) }
        ensures stands { Extends self.old (Event.End client) Reply.Ended self.new }
    {
        let seat = self.seat(client).unwrap();
        self.put_seat(
            client,
            Seat {
                looked: false,
                ended: true,
                ..seat
            },
        );
    }

    /// Whether the client has ended, and wasn't taken in.
    pub(crate) fn is_leaving(&self, client: u32) -> bool
        ensures { result ≡ is_leaving_seat (seat_of self.now client) }
    {
        self.seat(client)
            .is_some_and(|seat| seat.ended && !seat.joined)
    }

    /// The taking in of a client that has ended.
    pub(crate) fn take_in(&mut self, client: u32)
        requires { is_leaving_seat (seat_of self.old client) ≡ true }
        ensures after { IfSome (seat_of self.old client) (λ seat.
            self.new ≡ with_seat self.old client (after_taking_in seat)) }
        ensures stands { Extends self.old (Event.TakeIn client) Reply.Joined self.new }
    {
        let seat = self.seat(client).unwrap();
        self.put_seat(
            client,
            Seat {
                joined: true,
                ..seat
            },
        );
    }
}
