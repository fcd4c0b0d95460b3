ghost use Rattle.std.specs.Prelude.{◌≡◌, IfOk, IfErr, is_ok};
ghost use Rattle.gate_core.specs.Legal.{Run, is_open};
ghost use Rattle.gate_core.specs.State.{StandsAfter};
ghost use Rattle.gate_core.specs.LocalClient.{local};
ghost use Rattle.gate_core.specs.inner.Calls.{refused_of_push};

use crate::event::PushFault;
use crate::submit::{CloseFault, Operator, Refused, Submit};
use crate::world::World;
use gate_model::{Body, Moment};
use std::marker::Model;

/// A World as one of its clients uses it. Its calls take no memory.
#[derive(Drop)]
pub struct LocalClient {
    world: World,
    number: u32,
}

impl Model for LocalClient {
    ghost use Rattle.std.specs.Prelude.{◌≡◌, true};
    ghost use Rattle.gate_core.specs.inner.Calls.{seat_of, is_open_seat};
    ghost use Rattle.gate_core.specs.LocalClient.{LocalState, local};

    ghost Value = { LocalState };

    ghost view = { λ l. local l.world l.number };

    ghost invariant = { λ l. is_open_seat (seat_of l.world l.number) ≡ true };
}

impl LocalClient {
    /// Makes of a World its client of this number.
    ///
    /// It fails exactly where the World has no such client, or the client has ended; the World is
    /// then returned. Own rule.
    pub fn new(world: World, number: u32) -> Result<LocalClient, World>
        ensures client { IfOk result (λ client. client ≡ local world number) }
        ensures open { (run : Run) → StandsAfter world run →
            is_ok result ≡ is_open world.limits number run }
        ensures returned { IfErr result (λ returned. returned ≡ world) }
    {
        if world.is_open(number) {
            Ok(LocalClient { world, number })
        } else {
            Err(world)
        }
    }

    /// Returns the World.
    pub fn into_world(self) -> World
        ensures { result ≡ self.world }
    {
        self.world
    }
}

// Why a submission is refused whose push was refused.
fn refused_by(fault: PushFault) -> Refused
    ensures { result ≡ refused_of_push fault }
{
    match fault {
        PushFault::Spent(body) => Refused::Spent(body),
        PushFault::Full(body) => Refused::Full(body),
    }
}

impl Submit for LocalClient {
    ghost use Rattle.gate_core.specs.LocalClient.{StandsFor, IsSameClient, AddsSubmission, AddsLook};
    ghost use Rattle.std.proofs.Common.{refl, ◌∙◌};

    ghost stands = { StandsFor };

    ghost named = { λ l. l.number };

    ghost knows = { λ l. l.world.closed };

    ghost answers = { AddsSubmission };

    ghost looks = { AddsLook };

    ghost keeps = { IsSameClient };

    fn submit(&mut self, body: Body) -> Result<u64, Refused> {
        if let Some(first) = self.world.look(self.number) {
            return Err(Refused::Closing(first, body));
        }
        match self.world.push(self.number, body) {
            Ok(number) => Ok(number),
            Err(fault) => Err(refused_by(fault)),
        }
    }

    fn look(&mut self) -> Option<Moment> {
        self.world.look(self.number)
    }

    fn count(&self) -> u64 {
        u64::from(self.world.count(self.number))
    }

    fn number(&self) -> u32 {
        self.number
    }

    ghost keeps_itself = { λ x. record { number = refl; limits = refl } };

    ghost keeps_on = { λ x y z p q.
        record { number = q.number ∙ p.number; limits = q.limits ∙ p.limits } };
}

impl Operator for LocalClient {
    ghost use Rattle.gate_core.specs.LocalClient.{AddsClose};

    ghost closes = { AddsClose };

    fn close(&mut self, moment: Moment) -> Result<Moment, CloseFault> {
        match self.world.close(moment) {
            None => Ok(moment),
            Some(first) => Err(CloseFault::AlreadyClosing(first)),
        }
    }
}
