ghost use Rattle.std.specs.Prelude.{◌≡◌, ◌≢◌, ◌<◌, ◌≤◌, [], ◌∷◌, ◌++◌, length, Ok, Err, None, Some, IfOk, OnOk, OnErr, ◌==◌};
ghost use Rattle.circular_buffer.specs.Buffer.{keep_last};
ghost use Rattle.desk_outbox.specs.Labels.{LabelledView};
ghost use Rattle.desk_outbox.specs.Outbox.{empty, take_words, is_queued, prefix_of, settled_text, settled_of, lapsed_of};

use crate::labels::{Label, Labelled};
use crate::receipts::Receipt;
use circular_buffer::HeapCircularBuffer;
use desk_sending::push_answer;
use gate_model::{Body, Text};
use operator_lines::{AskFault, Reply};
use std::alloc::{AllocError, Global};
use std::collections::VecDeque;
use std::marker::Model;

// How many orders wait at most.
const MOST_WAITING: usize = 1024;

// Of how many orders it is kept what came of them.
const MOST_SETTLED: usize = 1024;

/// Why an order is not taken in: it is not sent.
#[derive(Clone, Copy)]
pub enum TakeFault {
    /// 1,024 orders wait.
    Full,
    /// Memory ran out.
    OutOfMemory,
}

impl TakeFault {
    /// The words for it.
    pub fn words(self) -> &'static str
        ensures { result.now ≡ take_words self }
    {
        match self {
            TakeFault::Full => "1024 commands wait for this gateway",
            TakeFault::OutOfMemory => "out of memory",
        }
    }
}

/// What came of an order.
#[derive(Drop)]
pub struct Settled {
    pub label: Label,
    /// When it was settled, in seconds since 1970.
    pub moment: u32,
    /// Whether the gateway queued its command.
    pub is_queued: bool,
    /// What came of it, as a user reads it.
    pub text: Text,
}

/// The orders for a gateway.
#[derive(Drop)]
pub struct Outbox {
    pub(crate) waiting: VecDeque<Labelled>,
    pub(crate) under_way: Option<Label>,
    pub(crate) settled: HeapCircularBuffer<Settled>,
}

impl Model for Outbox {
    ghost use Rattle.std.specs.Prelude.{◌≡◌, ◌≤◌, length};
    ghost use Rattle.desk_outbox.specs.Outbox.{OutboxView};

    ghost Value = { OutboxView };

    ghost view = { λ outbox. record {
      waiting = outbox.waiting.items;
      under_way = outbox.under_way;
      settled = outbox.settled.items;
    } };

    ghost invariant = { λ outbox.
        (length outbox.waiting.items ≤ 1024) × (outbox.settled.capacity ≡ 1024) };
}

fn is_queued(answer: Result<Reply, AskFault>) -> bool
    ensures { result ≡ is_queued answer }
{
    match answer {
        Ok(Reply::Queued(_)) => true,
        _ => false,
    }
}

fn prefix_of(answer: Result<Reply, AskFault>) -> &'static str
    ensures { result.now ≡ prefix_of answer }
{
    match answer {
        Ok(Reply::Queued(_)) => "",
        Ok(_) => "not queued: ",
        Err(AskFault::Unsent(_) | AskFault::WriteFault) => "not sent: ",
        Err(_) => "",
    }
}

// What came of an order, as a user reads it.
fn text_of(alloc: Global, body: &Body, answer: Result<Reply, AskFault>) -> Result<Text, AllocError>
    ensures { IfOk result (λ text. text ≡ settled_text body.now answer) }
{
    let mut text = Vec::from_slice(alloc, prefix_of(answer).as_bytes())?;
    push_answer(&mut text, body, answer)?;
    Ok(Text::new(text))
}

fn settled_of(
    alloc: Global,
    order: Labelled,
    answer: Result<Reply, AskFault>,
    now: u32,
) -> Result<Settled, AllocError>
    ensures { IfOk result (λ settled. settled ≡ settled_of order answer now) }
{
    let text = text_of(alloc, &order.order().command().body, answer);
    let label = order.into_label();
    Ok(Settled {
        label,
        moment: now,
        is_queued: is_queued(answer),
        text: text?,
    })
}

fn lapsed_of(alloc: Global, order: Labelled, now: u32) -> Result<Settled, AllocError>
    ensures { IfOk result (λ settled. settled ≡ lapsed_of order now) }
{
    let label = order.into_label();
    let text = Text::copied(alloc, b"not sent: it waited for 30 seconds")?;
    Ok(Settled {
        label,
        moment: now,
        is_queued: false,
        text,
    })
}

impl Outbox {
    /// Nothing waits, and nothing was sent. The only error is out of memory.
    pub fn new(alloc: Global) -> Result<Outbox, AllocError>
        ensures { IfOk result (λ outbox. outbox ≡ empty) }
    {
        Ok(Outbox {
            waiting: VecDeque::new(alloc),
            under_way: None,
            settled: HeapCircularBuffer::with_capacity(alloc, MOST_SETTLED)?,
        })
    }

    /// Takes in an order, which waits after the others.
    ///
    /// `Full`: 1,024 orders wait. `OutOfMemory` may be returned in place of any answer. Nothing is
    /// changed then.
    pub fn take_in(&mut self, order: Labelled) -> Result<Receipt, TakeFault>
        ensures taken { OnOk result (self.new
            ≡ record self.old { waiting = self.old.waiting ++ order ∷ [] }) }
        ensures receipt { IfOk result (λ receipt. receipt ≡ order) }
        ensures room { OnOk result (length self.old.waiting < 1024) }

        ensures full { result ≡ Err TakeFault.Full → length self.old.waiting ≡ 1024 }
        ensures kept { OnErr result (self.new ≡ self.old) }
    {
        if self.waiting.len() >= MOST_WAITING {
            drop(order);
            return Err(TakeFault::Full);
        }
        let receipt = Receipt::of(&order);
        match self.waiting.push_back(order) {
            Ok(()) => Ok(receipt),
            Err(order) => {
                drop(order);
                Err(TakeFault::OutOfMemory)
            }
        }
    }

    /// Whether no order waits.
    pub fn is_empty(&self) -> bool
        ensures { result ≡ (length self.now.waiting == 0) }
    {
        self.waiting.is_empty()
    }

    /// The oldest order that waits: it waits no more, and is under way. The only error is out of memory,
    /// and then nothing is changed.
    pub fn next(&mut self, alloc: Global) -> Result<Option<Labelled>, AllocError>
        ensures oldest { (order : LabelledView) → result ≡ Ok (Some order)
            → self.old.waiting ≡ order ∷ self.new.waiting }
        ensures under_way { (order : LabelledView) → result ≡ Ok (Some order)
            → self.new.under_way ≡ Some order.label }
        ensures settled { self.new.settled ≡ self.old.settled }

        ensures none { result ≡ Ok None → (self.old.waiting ≡ []) × (self.new ≡ self.old) }
        ensures kept { OnErr result (self.new ≡ self.old) }
    {
        let label = match self.waiting.front() {
            Some(order) => order.label().again(alloc)?,
            None => return Ok(None),
        };
        self.under_way = Some(label);
        Ok(self.waiting.pop_front())
    }

    /// Keeps what came of the order that was under way, settled at this moment in seconds since 1970.
    /// The last 1,024 are kept. The only error is out of memory, and then it is not kept.
    pub fn settle(
        &mut self,
        alloc: Global,
        order: Labelled,
        answer: Result<Reply, AskFault>,
        now: u32,
    ) -> Result<(), AllocError>
        ensures settled { OnOk result (self.new ≡ record {
          waiting = self.old.waiting;
          under_way = None;
          settled = keep_last 1024 (self.old.settled ++ settled_of order answer now ∷ []);
        }) }
        ensures kept { OnErr result (self.new ≡ record self.old { under_way = None }) }
    {
        self.under_way = None;
        let settled = settled_of(alloc, order, answer, now)?;
        let _ = self.settled.push_back(settled);
        Ok(())
    }

    /// Keeps that the order that was under way is late, and not sent, found at this moment in seconds
    /// since 1970. The only error is out of memory, and then it is not kept.
    pub fn lapse(&mut self, alloc: Global, order: Labelled, now: u32) -> Result<(), AllocError>
        ensures lapsed { OnOk result (self.new ≡ record {
          waiting = self.old.waiting;
          under_way = None;
          settled = keep_last 1024 (self.old.settled ++ lapsed_of order now ∷ []);
        }) }
        ensures kept { OnErr result (self.new ≡ record self.old { under_way = None }) }
    {
        self.under_way = None;
        let lapsed = lapsed_of(alloc, order, now)?;
        let _ = self.settled.push_back(lapsed);
        Ok(())
    }
}
