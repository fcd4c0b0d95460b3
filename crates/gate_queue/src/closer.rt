ghost use Rattle.std.specs.Prelude.{◌≡◌, IfOk, IfErr, IfNone, IfSome, Some, None};
ghost use Rattle.gate_queue.specs.Knowledge.{close_knowledge, LearnsFrom};
ghost use Rattle.gate_queue.specs.Closer.{notice_of};

use crate::gate::Gate;
use crate::rule::Knowledge;
use gate_core::CloseFault;
use gate_model::Moment;
use std::alloc::Global;
use std::marker::Model;

/// The right to close a gate. Contracts see what it knows of the gate's close.
#[derive(Drop)]
pub struct Closer {
    knowledge: Knowledge,
    // Room for the moment of a close, so that it can be made also once memory has run out.
    room: Option<Box<Moment>>,
}

impl Model for Closer {
    ghost use Rattle.gate_queue.specs.Knowledge.{CloseKnowledge};

    ghost Value = { CloseKnowledge };

    ghost view = { λ c. c.knowledge };
}

impl Closer {
    ghost use Rattle.gate_queue.specs.Closer.{IsCloseFault};

    /// A closer of this knowledge, with room for the moment of a close, where there is memory for it.
    pub(crate) fn new(alloc: Global, knowledge: Knowledge) -> Closer
        ensures { result ≡ knowledge }
    {
        Closer {
            knowledge,
            room: Box::new(alloc, Moment(0)).ok(),
        }
    }

    // The moment in the room that was kept for it, or in new memory.
    fn boxed(&mut self, alloc: Global, moment: Moment) -> Option<Box<Moment>>
        ensures moment { IfSome result (λ value. value.value ≡ moment) }
        ensures same { self.new ≡ self.old }
    {
        match self.room.take() {
            Some(mut value) => {
                *value = moment;
                Some(value)
            }
            None => Box::new(alloc, moment).ok(),
        }
    }

    /// Closes the gate at this moment, and returns a notice of it.
    ///
    /// It fails with AlreadyClosing where a close was first, and then the closer knows of that one.
    /// It fails with OutOfMemory where there is no room for the moment; nothing is closed then. Room was
    /// taken with the closer, where there was memory for it. A taker that rests is woken. Own rule.
    pub fn close(
        &mut self,
        alloc: Global,
        gate: &Gate,
        moment: Moment,
    ) -> Result<Notice, CloseFault>
        requires { self.old.cell ≡ gate.now.cell }
        ensures notice { IfOk result (λ notice. notice ≡ notice_of self.old.cell moment) }
        ensures known { IfOk result (λ notice. (self.old.known_close ≡ None)
            × (self.new ≡ close_knowledge self.old.cell (Some moment))) }

        ensures fault { IfErr result (λ fault. IsCloseFault fault self.old self.new) }
    {
        if let Some(first) = self.knowledge.look(&gate.cell) {
            return Err(CloseFault::AlreadyClosing(first));
        }
        let Some(value) = self.boxed(alloc, moment) else {
            return Err(CloseFault::OutOfMemory);
        };
        match self.knowledge.set(&gate.cell, value) {
            Ok(()) => {
                gate.parker.unpark();
                Ok(Notice {
                    knowledge: self.knowledge.again(),
                    moment,
                })
            }
            Err(first) => Err(CloseFault::AlreadyClosing(first)),
        }
    }

    /// Learns of the close from a notice.
    pub fn learn(&mut self, notice: &Notice)
        requires { notice.now.cell ≡ self.old.cell }
        ensures known { self.new ≡ close_knowledge self.old.cell (Some notice.now.moment) }
        ensures same { IfSome self.old.known_close (λ known. known ≡ notice.now.moment) }
    {
        self.knowledge.learn(notice.knowledge.again());
    }

    /// Learns what another part of the gate knows of the close.
    pub(crate) fn learn_from(&mut self, other: Knowledge)
        requires { other.cell ≡ self.old.cell }
        ensures { LearnsFrom other self.old self.new }
    {
        self.knowledge.learn(other);
    }

    /// What the closer knows of the close, for another part.
    pub(crate) fn known(&self) -> Knowledge
        ensures { result ≡ self.now }
    {
        self.knowledge.again()
    }

    /// A notice of the close, where the closer knows of one. It takes no memory.
    pub fn notice(&self) -> Option<Notice>
        ensures some { IfSome result (λ notice. (notice.cell ≡ self.now.cell)
            × (self.now.known_close ≡ Some notice.moment)) }
        ensures none { IfNone result (self.now.known_close ≡ None) }
    {
        let moment = self.knowledge.moment()?;
        Some(Notice {
            knowledge: self.knowledge.again(),
            moment,
        })
    }

    /// One more right to close the gate. It knows what this one knows.
    pub fn another(&self) -> Closer
        ensures { result ≡ self.now }
    {
        Closer::new(self.knowledge.alloc(), self.knowledge.again())
    }
}

/// The knowledge that a gate is closing, and since which moment.
#[derive(Drop)]
pub struct Notice {
    pub(crate) knowledge: Knowledge,
    pub(crate) moment: Moment,
}

impl Model for Notice {
    ghost use Rattle.std.specs.Prelude.{◌≡◌, Some};
    ghost use Rattle.gate_queue.specs.Closer.{NoticeState, notice_of};

    ghost Value = { NoticeState };

    ghost view = { λ n. notice_of n.knowledge.cell n.moment };

    ghost invariant = { λ n. n.knowledge.known_close ≡ Some n.moment };
}

impl Notice {
    /// The moment of the close.
    pub fn moment(&self) -> Moment
        ensures { result ≡ self.now.moment }
    {
        self.moment
    }

    /// One more notice of the same close. It takes no memory.
    pub fn again(&self) -> Notice
        ensures { result ≡ self.now }
    {
        Notice {
            knowledge: self.knowledge.again(),
            moment: self.moment,
        }
    }
}
