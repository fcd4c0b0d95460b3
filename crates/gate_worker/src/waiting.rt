ghost use Rattle.std.specs.Prelude.{◌≡◌, ◌+◌, ℕ, List, [], ◌∷◌, ◌++◌, length, None, IfOk, IfErr, OnOk, OnErr};
ghost use Rattle.gate_model.specs.declared.submission.Numbered.{Numbered};
ghost use Rattle.gate_core.specs.Merge.{numbered};
ghost use Rattle.gate_core.specs.Submit.{Refuses};

use gate_core::{CloseFault, Operator, Refused, Submit};
use gate_environment::times::ROOM_PAUSE_MICROS;
use gate_model::{Body, Moment};
use gate_queue::Gate;
use std::marker::Model;
use std::thread;
use std::time::{Clock, Duration, Instant};

/// A client that waits while the queue is full, for a number of milliseconds at most, so that the
/// applier needn't keep up with a burst. Once a body has waited in vain, none waits until the next
/// one is queued; and none waits where nothing is taken from the queue any more. Contracts see the
/// client.
#[derive(Drop)]
pub(crate) struct Waiting<'a, R, S> {
    rt: &'a R,
    gate: &'a Gate,
    client: S,
    millis: u64,
    has_waited: bool,
}

impl<'a, R, S> Model for Waiting<'a, R, S> {
    ghost Value = { S };

    ghost view = { λ waiting. waiting.client };
}

impl<'a, R, S> Waiting<'a, R, S> {
    pub(crate) fn new(rt: &'a R, gate: &'a Gate, client: S, millis: u64) -> Waiting<'a, R, S>
        ensures { result ≡ client }
    {
        Waiting {
            rt,
            gate,
            client,
            millis,
            has_waited: false,
        }
    }

    pub(crate) fn into_client(self) -> S
        ensures { result ≡ self.entry }
    {
        self.client
    }
}

// Whether these milliseconds are over since the first call, or the clock can't be read.
fn is_late<R: Clock>(rt: &R, began: &mut Option<Instant>, millis: u64) -> bool {
    match *began {
        Some(first) => !first
            .elapsed(rt)
            .is_ok_and(|waited| waited < Duration::from_millis(millis)),
        None => {
            *began = Instant::now(rt).ok();
            began.is_none()
        }
    }
}

// Submits a body, and again while the queue is full and items are taken from it, for these
// milliseconds at most.
fn submit_again<R: Clock, S: Submit>(
    rt: &R,
    gate: &Gate,
    client: &mut S,
    body: Body,
    millis: u64,
) -> Result<u64, Refused>
    ensures queued { IfOk result (λ number. (items : List Numbered) → S.stands client.old items →
        (number ≡ length items + 1)
        × S.stands client.new (items ++ numbered (S.named client.old) number body ∷ [])) }
    ensures open { OnOk result ((S.knows client.old ≡ None) × (S.knows client.new ≡ None)) }
    ensures kept { OnErr result
        ((items : List Numbered) → S.stands client.old items → S.stands client.new items) }
    ensures refused { IfErr result (λ refused.
        Refuses refused body (S.knows client.old) (S.knows client.new)) }
    ensures named { S.named client.new ≡ S.named client.old }
    ensures keeps { S.keeps client.old client.new }
{
    let mut body = body;
    let mut began = None;
    for _ in 0..u64::MAX {
        match client.submit(body) {
            Err(Refused::Full(returned)) => {
                if !gate.is_taking() || is_late(rt, &mut began, millis) {
                    return Err(Refused::Full(returned));
                }
                body = returned;
            }
            answer => return answer,
        }
        thread::sleep(rt, Duration::from_micros(ROOM_PAUSE_MICROS));
    }
    client.submit(body)
}

impl<'a, R: Clock, S: Submit> Submit for Waiting<'a, R, S> {
    ghost stands = { S.stands };

    ghost named = { S.named };

    ghost knows = { S.knows };

    ghost looks = { S.looks };

    ghost keeps = { S.keeps };

    fn submit(&mut self, body: Body) -> Result<u64, Refused> {
        let answer = if self.has_waited {
            self.client.submit(body)
        } else {
            submit_again(self.rt, self.gate, &mut self.client, body, self.millis)
        };
        self.has_waited = matches!(answer, Err(Refused::Full(_)));
        answer
    }

    fn look(&mut self) -> Option<Moment> {
        self.client.look()
    }

    fn count(&self) -> u64 {
        self.client.count()
    }

    fn number(&self) -> u32 {
        self.client.number()
    }

    ghost keeps_itself = { S.keeps_itself };

    ghost keeps_on = { S.keeps_on };
}

impl<'a, R: Clock, O: Operator> Operator for Waiting<'a, R, O> {
    ghost closes = { O.closes };

    fn close(&mut self, moment: Moment) -> Result<Moment, CloseFault> {
        self.client.close(moment)
    }
}
