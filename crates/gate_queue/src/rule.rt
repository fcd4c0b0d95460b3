ghost use Rattle.std.specs.Prelude.{ℕ, ◌≡◌, IfSome, OnOk, IfErr, Some, None};
ghost use Rattle.once_cell.specs.Once.{cell_name};
ghost use Rattle.gate_queue.specs.Knowledge.{close_knowledge, LearnsFrom, StaysKnown};

use crossbeam_queue::RuledArrayQueue;
use crossbeam_queue::protocol::{Join, Lesson, Outcome, Protocol, Split};
use gate_model::{Moment, Numbered};
use once_cell::race::{Note, OnceBox};
use std::alloc::Global;
use std::collections::LinkedList;
use std::marker::{Brand, Model, PhantomData};

/// What was queued for a client that the taker has taken in. No value of it is made.
pub struct EndedList {
    pub client: u64,
    pub queued: LinkedList<Numbered>,
}

/// What a pass knows of the queue. Every pass knows the limits; a client's pass its number and what
/// was queued for it; the taker's pass how many clients' passes it made, what was taken, and what
/// was queued for the clients taken in. No value of it is made.
pub struct View {
    pub clients: u64,
    pub quota: u64,
    pub capacity: u64,
    pub sends: bool,
    pub number: u64,
    pub queued: LinkedList<Numbered>,
    pub takes: bool,
    pub made: u64,
    pub taken: LinkedList<Numbered>,
    pub ended: LinkedList<EndedList>,
}

/// The limits with which a gate is opened, as the call that opens it picks them.
pub trait PickedLimits {
    ghost clients: { ℕ };

    ghost quota: { ℕ };

    ghost capacity: { ℕ };
}

impl PickedLimits for Brand {
    ghost clients = { 0 };

    ghost quota = { 0 };

    ghost capacity = { 0 };
}

/// The rule of the queue: nothing is lost, made or out of order.
pub struct Conserves;

impl Protocol<Numbered, View> for Conserves {
    ghost use Rattle.gate_queue.specs.inner.Rule.{IsRuled, opener};

    ghost holds = { IsRuled };

    ghost first = { opener };
}

/// The first pass becomes the taker's, and gets the limits.
pub struct Begin<J>(PhantomData<J>);

impl<J: PickedLimits> Split<View> for Begin<J> {
    ghost use Rattle.std.specs.Prelude.{[]};
    ghost use Rattle.gate_queue.specs.inner.Rule.{taker, blank};

    ghost left = { λ v. taker J.clients J.quota J.capacity 0 [] [] };

    ghost right = { λ v. blank };
}

/// The taker's pass makes the next client's pass.
pub struct MakeClient;

impl Split<View> for MakeClient {
    ghost use Rattle.std.specs.Prelude.{[], ◌+◌};
    ghost use Rattle.gate_queue.specs.inner.Rule.{taker, client};

    ghost left = { λ v. taker v.clients v.quota v.capacity (v.made + 1) v.taken v.ended };

    ghost right = { λ v. client v.clients v.quota v.capacity (v.made + 1) [] };
}

/// The taker's pass takes in the pass of a client that has ended.
pub struct TakeIn;

impl Join<View> for TakeIn {
    ghost use Rattle.std.specs.Prelude.{◌∷◌};
    ghost use Rattle.gate_queue.specs.Taker.{ended_list};
    ghost use Rattle.gate_queue.specs.inner.Rule.{taker, blank};

    ghost both = { λ v w.
        taker v.clients v.quota v.capacity v.made v.taken
        (ended_list w.number w.queued ∷ v.ended) };

    ghost spent = { blank };
}

/// A client adds an item to the queue, or finds it full.
pub struct Push;

impl Outcome<Numbered, View> for Push {
    ghost use Rattle.std.specs.Prelude.{◌≡◌, [], ◌∷◌, ◌++◌};
    ghost use Rattle.gate_queue.specs.inner.Rule.{client};

    ghost then = { λ v x w.
        w ≡ client v.clients v.quota v.capacity v.number (v.queued ++ x ∷ []) };
}

impl Lesson<Numbered, View> for Push {
    ghost use Rattle.gate_core.specs.Limits.{limits_of};
    ghost use Rattle.gate_queue.specs.Client.{AllowsBeside};

    ghost fact = { λ v items.
        AllowsBeside (limits_of v.clients v.quota v.capacity) v.number v.queued items };
}

/// The taker takes the oldest item of the queue, or finds it empty.
pub struct Pop;

impl Outcome<Numbered, View> for Pop {
    ghost use Rattle.gate_queue.specs.inner.Rule.{TakesNext};

    ghost then = { TakesNext };
}

impl Lesson<Numbered, View> for Pop {
    ghost use Rattle.gate_core.specs.Limits.{limits_of};
    ghost use Rattle.gate_queue.specs.Taker.{AllowsAfter};

    ghost fact = { λ v items.
        AllowsAfter (limits_of v.clients v.quota v.capacity) v.taken v.ended items };
}

/// The queue under its rule.
pub type Ring = RuledArrayQueue<Numbered, View, Conserves>;

// Makes the one note what the other is. A note is no data: the contracts alone see it.
fn copy_note<T>(into: &mut Note<T>, from: &Note<T>)
    ensures { into.new ≡ from.now }
{}

/// What one part of a gate knows of the close. Contracts see the close cell and the moment of the
/// close, once that is known.
#[derive(Drop)]
pub(crate) struct Knowledge {
    note: Note<Moment>,
    moment: Option<Moment>,
    alloc: Global,
}

impl Model for Knowledge {
    ghost use Rattle.std.specs.Prelude.{◌≡◌};
    ghost use Rattle.gate_queue.specs.Knowledge.{CloseKnowledge, close_knowledge};

    ghost Value = { CloseKnowledge };

    ghost view = { λ k. close_knowledge k.note.cell k.moment };

    ghost invariant = { λ k. k.note.known ≡ k.moment };
}

impl Knowledge {
    /// Knows nothing of a close yet.
    pub(crate) fn new(alloc: Global, cell: &OnceBox<Moment>) -> Knowledge
        ensures { result ≡ close_knowledge (cell_name cell.now) None }
    {
        Knowledge {
            note: cell.note(),
            moment: None,
            alloc,
        }
    }

    /// Where its own memory comes from.
    pub(crate) fn alloc(&self) -> Global {
        self.alloc
    }

    /// Looks at the close cell, and returns the moment of the close if there was one.
    pub(crate) fn look(&mut self, cell: &OnceBox<Moment>) -> Option<Moment>
        requires { self.old.cell ≡ cell_name cell.now }
        ensures known { self.new ≡ close_knowledge self.old.cell result }
        ensures same { StaysKnown self.old.known_close result }
    {
        self.moment = cell.get_as(&mut self.note).copied();
        self.moment
    }

    /// Sets the close cell, or returns the moment that it has already.
    pub(crate) fn set(&mut self, cell: &OnceBox<Moment>, value: Box<Moment>) -> Result<(), Moment>
        requires { self.old.cell ≡ cell_name cell.now }
        ensures ok { OnOk result ((self.old.known_close ≡ None)
            × (self.new ≡ close_knowledge self.old.cell (Some value.value))) }
        ensures err { IfErr result (λ first. IfSome self.old.known_close (λ known. known ≡ first)
            × (self.new ≡ close_knowledge self.old.cell (Some first))) }
    {
        let mine = *value;
        match cell.set_as(value, &mut self.note) {
            Ok(()) => {
                self.moment = Some(mine);
                Ok(())
            }
            Err(_) => match cell.get_as(&mut self.note) {
                Some(first) => {
                    self.moment = Some(*first);
                    Err(*first)
                }
                None => unreachable!(),
            },
        }
    }

    /// The moment of the close, if it is known.
    pub(crate) fn moment(&self) -> Option<Moment>
        ensures { result ≡ self.now.known_close }
    {
        self.moment
    }

    /// The same knowledge, for another part. It takes no memory.
    pub(crate) fn again(&self) -> Knowledge
        ensures { result ≡ self.now }
    {
        // An empty cell has no box, and its note is one to copy into.
        let empty: OnceBox<Moment> = OnceBox::new(self.alloc);
        let mut note = empty.note();
        copy_note(&mut note, &self.note);
        Knowledge {
            note,
            moment: self.moment,
            alloc: self.alloc,
        }
    }

    /// Learns what another part of the gate knows.
    pub(crate) fn learn(&mut self, other: Knowledge)
        requires { other.cell ≡ self.old.cell }
        ensures { LearnsFrom other self.old self.new }
    {
        let Knowledge {
            note,
            moment,
            alloc: _,
        } = other;
        if self.moment.is_some() {
            self.note.compare(note);
        } else {
            self.note = note;
            self.moment = moment;
        }
    }
}
