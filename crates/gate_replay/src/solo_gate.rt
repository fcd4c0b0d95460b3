ghost use Rattle.std.specs.Prelude.{◌≡◌, [], None};
ghost use Rattle.gate_queue.specs.Knowledge.{close_knowledge};
ghost use Rattle.gate_queue.specs.Client.{client_state};
ghost use Rattle.gate_queue.specs.Taker.{taker_state};
ghost use Rattle.gate_replay.specs.SoloGate.{solo_of, IsAfter};

use crate::ending::EndedGate;
use crate::solo_queue::SoloQueue;
use gate_core::{CloseFault, Operator, Refused, Submit};
use gate_model::{Body, Moment, Numbered};
use gate_queue::{Client, Closer, Gate, GateOperator, Taker};
use std::alloc::Global;
use std::marker::Model;
use std::sync::Wait;

/// A gate of two clients that one thread uses alone, which is the gate's only taker. Contracts see
/// the client that is served, the other client, and the taker.
///
/// Its `submit` and `take` wait while other threads are in the midst of a step at the queue.
#[derive(Drop)]
pub struct SoloGate<'a, R: Wait> {
    rt: &'a R,
    alloc: Global,
    gate: &'a Gate,
    // The closer stays with the client that is served, so this one knows of each close.
    client: GateOperator<'a, R>,
    other: Client,
    taker: Taker,
}

impl<'a, R: Wait> Model for SoloGate<'a, R> {
    ghost use Rattle.std.specs.Prelude.{◌≡◌};
    ghost use Rattle.gate_replay.specs.SoloGate.{SoloState, solo_of};

    ghost Value = { SoloState };

    ghost view = { λ d. solo_of d.client d.other d.taker };

    ghost invariant = { λ d. (d.client.gate ≡ d.gate.now) × (d.other.gate ≡ d.gate.now)
        × (d.taker.gate ≡ d.gate.now) };
}

impl<'a, R: Wait> SoloGate<'a, R> {
    /// Makes of the parts of a gate, as it was opened for two clients, a queue that serves client 1.
    pub fn new(
        rt: &'a R,
        alloc: Global,
        gate: &'a Gate,
        taker: Taker,
        closer: Closer,
        one: Client,
        two: Client,
    ) -> SoloGate<'a, R>
        requires clients { gate.now.limits.clients ≡ 2 }
        requires taker { taker ≡ taker_state gate.now [] [] None }
        requires closer { closer ≡ close_knowledge gate.now.cell None }
        requires one { one ≡ client_state gate.now 1 [] None }
        requires two { two ≡ client_state gate.now 2 [] None }
        ensures parts { result ≡ solo_of one two taker }
        ensures new { IsAfter result [] }
    {
        SoloGate {
            rt,
            alloc,
            gate,
            client: GateOperator::new(rt, alloc, gate, one, closer),
            other: two,
            taker,
        }
    }

    /// Returns the client that is served, the closer, which knows the same of the close, the other
    /// client and the taker.
    pub fn into_parts(self) -> (Client, Closer, Client, Taker)
        ensures client { result.0 ≡ self.entry.client }
        ensures closer { result.1 ≡ close_knowledge
            self.entry.client.gate.cell self.entry.client.known_close }
        ensures other { result.2 ≡ self.entry.other }
        ensures taker { result.3 ≡ self.entry.taker }
    {
        let SoloGate {
            rt: _,
            alloc: _,
            gate: _,
            client,
            other,
            taker,
        } = self;
        let (client, closer) = client.into_parts();
        (client, closer, other, taker)
    }
}

impl<'a, R: Wait> Submit for SoloGate<'a, R> {
    ghost use Rattle.std.proofs.Common.{refl, ◌∙◌};
    ghost use Rattle.gate_queue.specs.GateClient.{StandsFor, IsSameClient};
    ghost use Rattle.gate_replay.specs.SoloGate.{SoloSubmits, SoloLooks};

    ghost stands = { λ queue items. StandsFor queue.client items };

    ghost named = { λ queue. queue.client.number };

    ghost knows = { λ queue. queue.client.known_close };

    ghost answers = { SoloSubmits };

    ghost looks = { SoloLooks };

    ghost keeps = { λ old new. IsSameClient old.client new.client };

    fn submit(&mut self, body: Body) -> Result<u64, Refused> {
        self.client.submit(body)
    }

    fn look(&mut self) -> Option<Moment> {
        self.client.look()
    }

    fn count(&self) -> u64 {
        self.client.count()
    }

    fn number(&self) -> u32 {
        self.client.number()
    }

    ghost keeps_itself = { λ x. record { gate = refl; number = refl } };

    ghost keeps_on = { λ x y z p q.
        record { gate = q.gate ∙ p.gate; number = q.number ∙ p.number } };
}

impl<'a, R: Wait> Operator for SoloGate<'a, R> {
    ghost use Rattle.gate_replay.specs.SoloGate.{SoloCloses};

    ghost closes = { SoloCloses };

    fn close(&mut self, moment: Moment) -> Result<Moment, CloseFault> {
        self.client.close(moment)
    }
}

impl<'a, R: Wait> SoloQueue for SoloGate<'a, R> {
    type Ended = EndedGate<'a, R>;

    ghost use Rattle.std.proofs.Common.{ap};
    ghost use Rattle.gate_replay.specs.laws.SoloGates.{after_submit, after_look, after_close};

    ghost after = { IsAfter };

    ghost limits = { λ queue. queue.client.gate.limits };

    fn turn_to(self, number: u32) -> SoloGate<'a, R> {
        if self.client.number() == number {
            return self;
        }
        let SoloGate {
            rt,
            alloc,
            gate,
            client,
            other,
            taker,
        } = self;
        let (client, closer) = client.into_parts();
        SoloGate {
            rt,
            alloc,
            gate,
            client: GateOperator::new(rt, alloc, gate, other, closer),
            other: client,
            taker,
        }
    }

    fn take(self) -> (SoloGate<'a, R>, Option<Numbered>) {
        let mut queue = self;
        let (rt, gate) = (queue.rt, queue.gate);
        let item = queue.taker.take(rt, gate);
        (queue, item)
    }

    fn end(self) -> EndedGate<'a, R> {
        let SoloGate {
            rt,
            alloc: _,
            gate,
            client,
            other,
            taker,
        } = self.turn_to(1);
        let (client, _closer) = client.into_parts();
        let mut taker = taker;
        taker.take_in(gate, client.end());
        taker.take_in(gate, other.end());
        EndedGate { rt, gate, taker }
    }

    ghost after_submit = { after_submit };

    ghost after_look = { after_look };

    ghost after_close = { after_close };

    ghost same_limits = { λ _ _ keeps. ap (λ gate. gate.limits) keeps.gate };

    ghost allowed = { λ _ _ h. h.allowed };
}
