//! What the tests share: objects, packets, appliers, bodies, answers as plain numbers, and gates with
//! their parts.
ghost use Rattle.std.specs.Prelude.{◌≡◌, [], length, IfSome, None};
ghost use Rattle.gate_model.specs.Record.{items_of_records};
ghost use Rattle.gate_queue.specs.Client.{client_state};
ghost use Rattle.gate_queue.specs.Knowledge.{close_knowledge};
ghost use Rattle.gate_queue.specs.Taker.{taker_state};

use gate_applier::{Applier, Ready};
use gate_grammar::read_line;
use gate_model::{Body, Kind, Moment, Numbered, ObjectId, ObjectLine, Text};
use gate_packet::Packet;
use gate_queue::{Client, CloseFault, Closer, Gate, Refused, Taker, open, open_with};
use gate_table::ObjectTable;
use std::alloc::Global;
use std::sync::Wait;
use std::thread;

/// The host of `table`.
pub(crate) const WEB1: ObjectId = ObjectId {
    place: 0,
    kind: Kind::Host,
};

/// Its service.
pub(crate) const HTTP: ObjectId = ObjectId {
    place: 1,
    kind: Kind::Service,
};

fn line(alloc: Global, service: Option<Text>) -> Option<ObjectLine> {
    let host = Text::copied(alloc, b"web1").ok()?;
    Some(ObjectLine {
        host,
        service,
        threshold: 300,
    })
}

/// The host `web1` and its service `HTTP`, each fresh for 300 seconds.
pub(crate) fn table(alloc: Global) -> Option<ObjectTable>
    ensures { IfSome result (λ table. length table ≡ 2) }
{
    let service = Text::copied(alloc, b"HTTP").ok()?;
    let service_line = line(alloc, Some(service))?;
    let host_line = line(alloc, None)?;
    let lines = vec![in alloc; host_line, service_line].ok()?;
    ObjectTable::build(alloc, lines).ok()
}

/// An applier of `table`, opened at 1000.
pub(crate) fn applier(alloc: Global, limit: u32) -> Option<Applier>
    ensures { IfSome result (λ applier. applier.records ≡ []) }
{
    Applier::open(alloc, table(alloc)?, Moment(1000), limit).ok()
}

// Applies a command at the time that its line names.
fn applied(alloc: Global, applier: Applier, line: &str) -> Option<Applier> {
    let Ok(command) = read_line(alloc, line.as_bytes()) else {
        drop(applier);
        return None;
    };
    let item = Numbered {
        client: 1,
        number: 1,
        body: command.body,
    };
    match applier.prepare() {
        Ok(ready) => Some(ready.apply(item, command.entered).0),
        Err(fault) => {
            drop(fault);
            drop(item);
            None
        }
    }
}

/// The same applier after these commands, each applied at the time that its line names.
pub(crate) fn applier_after(alloc: Global, limit: u32, lines: &[&str]) -> Option<Applier> {
    let mut applier = applier(alloc, limit)?;
    for line in lines {
        applier = applied(alloc, applier, line)?;
    }
    Some(applier)
}

/// A packet of 1000 with this host, service and output.
pub(crate) fn packet_of(alloc: Global, code: i16, texts: [&[u8]; 3]) -> Option<Packet> {
    let host = texts[0].to_vec(alloc).ok()?;
    let service = texts[1].to_vec(alloc).ok()?;
    let output = texts[2].to_vec(alloc).ok()?;
    Packet::new(Moment(1000), code, host, service, output).ok()
}

/// A body with this id.
pub(crate) fn body(id: u32) -> Body {
    Body::DelComment {
        kind: Kind::Host,
        id,
    }
}

/// The id of a body.
pub(crate) fn id_in(body: &Body) -> u32 {
    match body {
        Body::DelComment { id, .. } => *id,
        _ => 0,
    }
}

/// What a submission is answered, with the id of the body that it returns.
#[derive(Clone, Copy, PartialEq)]
pub(crate) enum Answer {
    Queued(u64),
    Closing(u32, u32),
    Spent(u32),
    Full(u32),
}

fn answer_in(answered: &Result<u64, Refused>) -> Answer {
    match answered {
        Ok(number) => Answer::Queued(*number),
        Err(Refused::Closing(moment, body)) => Answer::Closing(moment.0, id_in(body)),
        Err(Refused::Spent(body)) => Answer::Spent(id_in(body)),
        Err(Refused::Full(body)) => Answer::Full(id_in(body)),
    }
}

/// The answer, once the body that it may hold is dropped.
pub(crate) fn answer_of(answered: Result<u64, Refused>) -> Answer {
    let answer = answer_in(&answered);
    drop(answered);
    answer
}

/// Submits the body with this id.
pub(crate) fn submitted<R: Wait>(rt: &R, gate: &Gate, client: &mut Client, id: u32) -> Answer
    requires { client.old.gate ≡ gate.now }
    ensures { client.new.gate ≡ gate.now }
{
    answer_of(client.submit(rt, gate, body(id)))
}

fn numbers_of(item: Numbered) -> (u32, u64, u32) {
    let numbers = (item.client, item.number, id_in(&item.body));
    drop(item);
    numbers
}

/// The client, the number and the id of the item that is taken.
pub(crate) fn taken<R: Wait>(rt: &R, gate: &Gate, taker: &mut Taker) -> Option<(u32, u64, u32)>
    requires { taker.old.gate ≡ gate.now }
    ensures { taker.new.gate ≡ gate.now }
{
    match taker.take(rt, gate) {
        Some(item) => Some(numbers_of(item)),
        None => None,
    }
}

/// The moment of the close that succeeds, or of the first one.
pub(crate) fn closed(
    alloc: Global,
    gate: &Gate,
    closer: &mut Closer,
    moment: u32,
) -> Result<u32, Option<u32>>
    requires { closer.old.cell ≡ gate.now.cell }
    ensures { closer.new.cell ≡ gate.now.cell }
{
    match closer.close(alloc, gate, Moment(moment)) {
        Ok(notice) => Ok(notice.moment().0),
        Err(CloseFault::AlreadyClosing(first)) => Err(Some(first.0)),
        Err(CloseFault::OutOfMemory) => Err(None),
    }
}

/// A gate of one client.
pub(crate) fn one_client(alloc: Global, capacity: usize) -> Option<(Gate, Taker, Client)>
    ensures taker { IfSome result (λ opened.
        (opened.1.gate ≡ opened.0) × (opened.1.taken ≡ [])) }
    ensures client { IfSome result (λ opened.
        (opened.2.gate ≡ opened.0) × (opened.2.queued ≡ [])) }
{
    let (gate, taker, _, mut clients) = open(alloc, 1, capacity).ok()?;
    let client = clients.pop().unwrap();
    Some((gate, taker, client))
}

/// A gate of two clients.
pub(crate) fn two_clients(
    alloc: Global,
    capacity: usize,
    quota: u32,
) -> Option<(Gate, Taker, Closer, Client, Client)>
    ensures clients { IfSome result (λ opened. opened.0.limits.clients ≡ 2) }
    ensures taker { IfSome result (λ opened. opened.1 ≡ taker_state opened.0 [] [] None) }
    ensures closer { IfSome result (λ opened.
        opened.2 ≡ close_knowledge opened.0.cell None) }
    ensures one { IfSome result (λ opened. opened.3 ≡ client_state opened.0 1 [] None) }
    ensures two { IfSome result (λ opened. opened.4 ≡ client_state opened.0 2 [] None) }
{
    let (gate, taker, closer, mut clients) = open_with(alloc, 2, capacity, quota).ok()?;
    let two = clients.pop().unwrap();
    let one = clients.pop().unwrap();
    Some((gate, taker, closer, one, two))
}

// Applies the next item, if there is one.
fn applied_next<R: Wait>(rt: &R, gate: &Gate, taker: &mut Taker, ready: Ready) -> Applier
    requires taker { taker.old.gate ≡ gate.now }
    requires applied { items_of_records ready.records ≡ taker.old.taken }
    ensures taker { taker.new.gate ≡ gate.now }
    ensures applied { items_of_records result.records ≡ taker.new.taken }
{
    match taker.take(rt, gate) {
        Some(item) => ready.apply(item, Moment(1400)).0,
        None => ready.give_back(),
    }
}

/// Takes and applies until the gate is closed and the queue is empty, or the log is full.
pub(crate) fn applied_until_closed<R: Wait>(
    rt: &R,
    gate: &Gate,
    taker: Taker,
    applier: Applier,
) -> (Taker, Applier)
    requires taker { taker.gate ≡ gate.now }
    requires applied { items_of_records applier.records ≡ taker.taken }
    ensures taker { result.0.gate ≡ gate.now }
    ensures applied { items_of_records result.1.records ≡ result.0.taken }
{
    let (mut taker, mut applier) = (taker, applier);
    for _ in rt.forever() {
        let count = applier.records().len();
        match applier.prepare() {
            Ok(ready) => applier = applied_next(rt, gate, &mut taker, ready),
            Err(fault) => return (taker, fault.applier),
        }
        if applier.records().len() == count {
            if taker.look(gate).is_some() {
                return (taker, applier);
            }
            thread::yield_now();
        }
    }
    unreachable!()
}
