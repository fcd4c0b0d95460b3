ghost use Rattle.std.specs.Prelude.{◌≡◌, ◌+◌, ◌<◌, [], ◌∷◌, ◌++◌, length, IfOk, IfErr, IfSome, OnOk, Some, None, is_some};
ghost use Rattle.gate_core.specs.Merge.{numbered};
ghost use Rattle.gate_queue.specs.Knowledge.{close_knowledge, Learns, StaysKnown};
ghost use Rattle.gate_queue.specs.Client.{client_state};
ghost use Rattle.gate_queue.specs.Taker.{BeginsEach, TakesIn};

use crate::closer::Notice;
use crate::gate::Gate;
use crate::rule::{Knowledge, Pop, Push, TakeIn, View};
use crate::taker::Taker;
use crossbeam_queue::Pass;
use gate_core::{Refused, Submit};
use gate_model::{Body, Moment, Numbered};
use std::marker::Model;
use std::sync::Wait;

/// A client, which submits to a gate. Contracts see its gate, its number, what it was answered is
/// queued, and the moment of the close, once it knows of it.
pub struct Client {
    pub(crate) pass: Pass<Numbered, View>,
    pub(crate) knowledge: Knowledge,
    pub(crate) number: u32,
    pub(crate) count: u64,
    pub(crate) quota: u32,
}

// Who drops a client calls this, and knows nothing of its parts.
impl Drop for Client {
    fn drop(self) {
        let Client {
            pass: _pass,
            knowledge: _knowledge,
            number: _,
            count: _,
            quota: _,
        } = self;
    }
}

impl Model for Client {
    ghost use Rattle.std.specs.Prelude.{◌≡◌, []};
    ghost use Rattle.crossbeam_queue.specs.Passes.{view as pass_view};
    ghost use Rattle.gate_queue.specs.Gate.{gate_id};
    ghost use Rattle.gate_queue.specs.Client.{ClientState, client_state};
    ghost use Rattle.gate_queue.specs.inner.Passes.{IsClientPass, limits_in};

    ghost Value = { ClientState };

    ghost view = { λ c.
        client_state (gate_id c.pass.table_id c.knowledge.cell (limits_in (pass_view c.pass)))
        c.number (pass_view c.pass).queued c.knowledge.known_close };

    ghost invariant = { λ c.
        (c.pass.me.1 ≡ []) × IsClientPass (pass_view c.pass) c.number c.count c.quota };
}

impl Client {
    ghost use Rattle.gate_queue.specs.Client.{IsRefusal};

    /// Adds the body to the queue, as this client's next item, and returns its number, from 1.
    ///
    /// It fails with Closing where the gate is closing, with Spent where the client's quota is used
    /// up, and with Full where the queue is full, tested in this order. The body is returned. It
    /// waits while other threads are in the midst of a step at the queue. A taker that rests is woken.
    /// Own rule.
    pub fn submit<R: Wait>(&mut self, rt: &R, gate: &Gate, body: Body) -> Result<u64, Refused>
        requires { self.old.gate ≡ gate.now }
        ensures number { IfOk result (λ number. number ≡ length self.old.queued + 1) }
        ensures queued { IfOk result (λ number. self.new ≡ client_state self.old.gate
            self.old.number (self.old.queued ++ numbered self.old.number number body ∷ []) None) }
        ensures open { OnOk result (self.old.known_close ≡ None) }
        ensures unspent { OnOk result (length self.old.queued < self.old.gate.limits.quota) }

        ensures refused { IfErr result (λ fault. IsRefusal fault body self.old self.new) }
    {
        if let Some(moment) = self.knowledge.look(&gate.cell) {
            return Err(Refused::Closing(moment, body));
        }
        if self.count == u64::from(self.quota) {
            return Err(Refused::Spent(body));
        }
        let item = Numbered {
            client: self.number,
            number: self.count + 1,
            body,
        };
        match gate.ring.push_as::<Push, R>(rt, &mut self.pass, item) {
            Ok(()) => {
                gate.parker.unpark();
                self.count += 1;
                Ok(self.count)
            }
            Err(item) => {
                let Numbered {
                    client: _,
                    number: _,
                    body,
                } = item;
                Err(Refused::Full(body))
            }
        }
    }

    // The taker takes it in, and learns what it knew of the close.
    pub(crate) fn go_in(self, gate: &Gate, taker: &mut Taker)
        requires gate { taker.old.gate ≡ gate.now }
        requires ended { self.gate ≡ gate.now }
        ensures list { TakesIn self taker.old taker.new }
        ensures begins { BeginsEach taker.new }
    {
        let Client {
            pass,
            knowledge,
            number,
            count,
            quota: _,
        } = self;
        gate.ring.absorb::<TakeIn>(&mut taker.pass, pass);
        gate.ring.learn_as::<Pop>(&mut taker.pass);
        taker.knowledge.learn(knowledge);
        taker.counts[number as usize - 1] = Some(count as u32);
    }

    /// Looks whether the gate is closing, and returns the moment of the close if it is.
    pub fn look(&mut self, gate: &Gate) -> Option<Moment>
        requires { self.old.gate ≡ gate.now }
        ensures known { self.new ≡
            client_state self.old.gate self.old.number self.old.queued result }
        ensures same { StaysKnown self.old.known_close result }
    {
        self.knowledge.look(&gate.cell)
    }

    /// Learns of the close from a notice.
    pub fn learn(&mut self, notice: &Notice)
        requires { notice.now.cell ≡ self.old.gate.cell }
        ensures known { self.new ≡ client_state
            self.old.gate self.old.number self.old.queued (Some notice.now.moment) }
        ensures same { IfSome self.old.known_close (λ known. known ≡ notice.now.moment) }
    {
        self.knowledge.learn(notice.knowledge.again());
    }

    /// What the client knows of the close, for another part.
    pub(crate) fn known(&self) -> Knowledge
        ensures { result ≡ close_knowledge self.now.gate.cell self.now.known_close }
    {
        self.knowledge.again()
    }

    /// Learns what another part of the gate knows of the close.
    pub(crate) fn learn_from(&mut self, other: Knowledge)
        requires { other.cell ≡ self.old.gate.cell }
        ensures same { self.new ≡ client_state
            self.old.gate self.old.number self.old.queued self.new.known_close }
        ensures known { Learns other.known_close self.old.known_close self.new.known_close }
    {
        self.knowledge.learn(other);
    }

    /// How many items were queued for this client.
    pub fn count(&self) -> u64
        ensures { result ≡ length self.now.queued }
    {
        self.count
    }

    /// The client's number, from 1.
    pub fn number(&self) -> u32
        ensures { result ≡ self.now.number }
    {
        self.number
    }

    /// Ends the client: it submits no more, and a taker can take it in.
    pub fn end(self) -> Ended
        ensures { result ≡ self }
    {
        Ended { client: self }
    }
}

/// A client that has ended. Contracts see what they saw of the client.
#[derive(Drop)]
pub struct Ended {
    client: Client,
}

impl Model for Ended {
    ghost use Rattle.gate_queue.specs.Client.{ClientState};

    ghost Value = { ClientState };

    ghost view = { λ e. e.client };
}

impl Ended {
    /// The number of the client, from 1.
    pub fn number(&self) -> u32
        ensures { result ≡ self.now.number }
    {
        self.client.number()
    }

    /// Whether the client knew of the close.
    pub fn knows_of_close(&self) -> bool
        ensures { result ≡ is_some self.now.known_close }
    {
        self.client.knowledge.moment().is_some()
    }

    pub(crate) fn into_client(self) -> Client
        ensures { result ≡ self }
    {
        let Ended { client } = self;
        client
    }
}

/// A client with its gate at hand. Contracts see the client.
///
/// Its `submit` waits while other threads are in the midst of a step at the queue.
#[derive(Drop)]
pub struct GateClient<'a, R: Wait> {
    rt: &'a R,
    gate: &'a Gate,
    client: Client,
}

impl<'a, R: Wait> Model for GateClient<'a, R> {
    ghost use Rattle.std.specs.Prelude.{◌≡◌};
    ghost use Rattle.gate_queue.specs.Client.{ClientState};

    ghost Value = { ClientState };

    ghost view = { λ g. g.client };

    ghost invariant = { λ g. g.client.gate ≡ g.gate.now };
}

impl<'a, R: Wait> GateClient<'a, R> {
    /// Joins a client to references to its gate and the runtime.
    pub fn new(rt: &'a R, gate: &'a Gate, client: Client) -> GateClient<'a, R>
        requires { client.gate ≡ gate.now }
        ensures { result ≡ client }
    {
        GateClient { rt, gate, client }
    }

    /// Returns the client.
    pub fn into_parts(self) -> Client
        ensures { result ≡ self.entry }
    {
        let GateClient {
            rt: _,
            gate: _,
            client,
        } = self;
        client
    }
}

impl<'a, R: Wait> Submit for GateClient<'a, R> {
    ghost use Rattle.std.proofs.Common.{refl, ◌∙◌};
    ghost use Rattle.gate_queue.specs.GateClient.{StandsFor, IsSameClient, Submits, Looks};

    ghost stands = { StandsFor };

    ghost named = { λ client. client.number };

    ghost knows = { λ client. client.known_close };

    ghost answers = { Submits };

    ghost looks = { Looks };

    ghost keeps = { IsSameClient };

    fn submit(&mut self, body: Body) -> Result<u64, Refused> {
        self.client.submit(self.rt, self.gate, body)
    }

    fn look(&mut self) -> Option<Moment> {
        self.client.look(self.gate)
    }

    fn count(&self) -> u64 {
        self.client.count()
    }

    fn number(&self) -> u32 {
        self.client.number()
    }

    ghost keeps_itself = { λ x. record { gate = refl; number = refl } };

    ghost keeps_on = { λ x y z p q.
        record { gate = q.gate ∙ p.gate; number = q.number ∙ p.number } };
}
