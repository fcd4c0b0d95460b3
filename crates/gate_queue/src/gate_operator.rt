ghost use Rattle.std.specs.Prelude.{◌≡◌};

use crate::client::Client;
use crate::closer::Closer;
use crate::gate::Gate;
use gate_core::{CloseFault, Operator, Refused, Submit};
use gate_model::{Body, Moment};
use std::alloc::Global;
use std::marker::Model;
use std::sync::Wait;

/// A client that may close its gate, with the gate at hand. Contracts see the client. What it knows
/// of the close its closer knows too.
///
/// Its `submit` waits while other threads are in the midst of a step at the queue.
#[derive(Drop)]
pub struct GateOperator<'a, R: Wait> {
    rt: &'a R,
    alloc: Global,
    gate: &'a Gate,
    client: Client,
    closer: Closer,
}

impl<'a, R: Wait> Model for GateOperator<'a, R> {
    ghost use Rattle.std.specs.Prelude.{◌≡◌};
    ghost use Rattle.gate_queue.specs.Client.{ClientState};
    ghost use Rattle.gate_queue.specs.Knowledge.{close_knowledge};

    ghost Value = { ClientState };

    ghost view = { λ g. g.client };

    ghost invariant = { λ g. (g.client.gate ≡ g.gate.now)
        × (g.closer ≡ close_knowledge g.client.gate.cell g.client.known_close) };
}

impl<'a, R: Wait> GateOperator<'a, R> {
    ghost use Rattle.gate_queue.specs.Knowledge.{close_knowledge};
    ghost use Rattle.gate_queue.specs.GateOperator.{Joins};

    /// Joins a client and a closer to references to their gate and the runtime. Each of the two
    /// learns what the other knows of the close.
    pub fn new(
        rt: &'a R,
        alloc: Global,
        gate: &'a Gate,
        client: Client,
        closer: Closer,
    ) -> GateOperator<'a, R>
        requires client { client.gate ≡ gate.now }
        requires closer { closer.cell ≡ gate.now.cell }
        ensures { Joins client closer result }
    {
        let mut client = client;
        let mut closer = closer;
        client.learn_from(closer.known());
        closer.learn_from(client.known());
        GateOperator {
            rt,
            alloc,
            gate,
            client,
            closer,
        }
    }

    /// Returns the client and the closer, which know the same of the close.
    pub fn into_parts(self) -> (Client, Closer)
        ensures client { result.0 ≡ self.entry }
        ensures closer { result.1 ≡
            close_knowledge self.entry.gate.cell self.entry.known_close }
    {
        let GateOperator {
            rt: _,
            alloc: _,
            gate: _,
            client,
            closer,
        } = self;
        (client, closer)
    }
}

impl<'a, R: Wait> Submit for GateOperator<'a, R> {
    ghost use Rattle.std.proofs.Common.{refl, ◌∙◌};
    ghost use Rattle.gate_queue.specs.GateClient.{StandsFor, IsSameClient, Submits, Looks};

    ghost stands = { StandsFor };

    ghost named = { λ client. client.number };

    ghost knows = { λ client. client.known_close };

    ghost answers = { Submits };

    ghost looks = { Looks };

    ghost keeps = { IsSameClient };

    fn submit(&mut self, body: Body) -> Result<u64, Refused> {
        let answer = self.client.submit(self.rt, self.gate, body);
        self.closer.learn_from(self.client.known());
        answer
    }

    fn look(&mut self) -> Option<Moment> {
        let found = self.client.look(self.gate);
        self.closer.learn_from(self.client.known());
        found
    }

    fn count(&self) -> u64 {
        self.client.count()
    }

    fn number(&self) -> u32 {
        self.client.number()
    }

    ghost keeps_itself = { λ x. record { gate = refl; number = refl } };

    ghost keeps_on = { λ x y z p q.
        record { gate = q.gate ∙ p.gate; number = q.number ∙ p.number } };
}

impl<'a, R: Wait> Operator for GateOperator<'a, R> {
    ghost use Rattle.gate_queue.specs.GateOperator.{Closes};

    ghost closes = { Closes };

    fn close(&mut self, moment: Moment) -> Result<Moment, CloseFault> {
        let closed = self.closer.close(self.alloc, self.gate, moment);
        self.client.learn_from(self.closer.known());
        match closed {
            Ok(notice) => Ok(notice.moment()),
            Err(fault) => Err(fault),
        }
    }
}
