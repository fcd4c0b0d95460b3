//! Three items are queued, the gate is closed, and all is applied that the log has room for.
ghost use Rattle.std.specs.Prelude.{◌≡◌, [], ◌∷◌, All, IfErr};
ghost use Rattle.gate_close.specs.DrainedClose.{close_parts, CanClose};

use crate::parts::{applier, one_client, two_clients};
use crate::printing::show_records;
use gate_applier::Applier;
use gate_close::{CloseAllFault, Closed, close_all};
use gate_model::{Body, Kind, Moment};
use gate_queue::{Client, Closer, Ended, Gate, Refused, Taker};
use std::alloc::Global;
use std::io::Write;
use std::sync::Wait;

fn show_answer(answered: &Result<u64, Refused>, shown: &mut Vec<u8>) {
    let _ = match answered {
        Ok(number) => writeln!(shown, "queued {number}"),
        Err(Refused::Closing(moment, _)) => writeln!(shown, "closing {}", moment.0),
        Err(_) => writeln!(shown, "refused"),
    };
}

fn submit<R: Wait>(rt: &R, gate: &Gate, client: &mut Client, shown: &mut Vec<u8>)
    requires { client.old.gate ≡ gate.now }
    ensures { client.new.gate ≡ gate.now }
{
    let kind = Kind::Host;
    let answered = client.submit(rt, gate, Body::DelComment { kind, id: 1 });
    show_answer(&answered, shown);
    drop(answered);
}

// Closes the gate, and shows what the taker then finds.
fn close(
    alloc: Global,
    gate: &Gate,
    closer: &mut Closer,
    taker: &mut Taker,
    moment: u32,
    shown: &mut Vec<u8>,
)
    requires closer { closer.old.cell ≡ gate.now.cell }
    requires taker { taker.old.gate ≡ gate.now }
    ensures closer { closer.new.cell ≡ gate.now.cell }
    ensures taker { (taker.new.gate ≡ gate.now) × (taker.new.taken ≡ taker.old.taken) }
{
    let _ = match closer.close(alloc, gate, Moment(moment)) {
        Ok(notice) => write!(shown, "close: {}", notice.moment().0),
        Err(fault) => write!(shown, "close: {fault:?}"),
    };
    let _ = match taker.look(gate) {
        Some(first) => writeln!(shown, ", found {}", first.0),
        None => writeln!(shown, ", found none"),
    };
}

// Two items of the first client and one of the second, two closes, and a submission of each.
fn queue_and_close<R: Wait>(
    rt: &R,
    alloc: Global,
    gate: &Gate,
    closer: Closer,
    taker: Taker,
    clients: (Client, Client),
    shown: &mut Vec<u8>,
) -> (Taker, Ended, Ended)
    requires closer { closer.cell ≡ gate.now.cell }
    requires taker { taker.gate ≡ gate.now }
    requires one { clients.0.gate ≡ gate.now }
    requires two { clients.1.gate ≡ gate.now }
    ensures taker { (result.0.gate ≡ gate.now) × (result.0.taken ≡ taker.taken) }
    ensures one { result.1.gate ≡ gate.now }
    ensures two { result.2.gate ≡ gate.now }
{
    let (mut one, mut two) = clients;
    let (mut closer, mut taker) = (closer, taker);
    submit(rt, gate, &mut one, shown);
    submit(rt, gate, &mut two, shown);
    submit(rt, gate, &mut one, shown);
    close(alloc, gate, &mut closer, &mut taker, 1500, shown);
    close(alloc, gate, &mut closer, &mut taker, 1600, shown);
    submit(rt, gate, &mut one, shown);
    submit(rt, gate, &mut two, shown);
    (taker, one.end(), two.end())
}

// Puts both into a list with room for them.
fn both(room: Vec<Ended>, one: Ended, two: Ended) -> Vec<Ended>
    requires { room.items ≡ [] }
    ensures { (gate : _) → one.gate ≡ gate → two.gate ≡ gate
        → All (λ client. client.gate ≡ gate) result.items }
{
    let mut ended = room;
    let _ = ended.push(one);
    let _ = ended.push(two);
    ended
}

fn show_fault(fault: &CloseAllFault, shown: &mut Vec<u8>) {
    let left = fault.ended.len();
    let _ = writeln!(shown, "close_all: {:?}, {left} clients left", fault.cause);
    show_records(fault.applier.records(), shown);
}

// Shows why not all was applied, and goes on with what was returned.
fn go_on<R: Wait>(
    rt: &R,
    gate: &Gate,
    closed: Result<Closed, CloseAllFault>,
    shown: &mut Vec<u8>,
) -> Result<Closed, CloseAllFault>
    requires { IfErr closed (λ fault. CanClose gate.now
        (close_parts fault.taker fault.ended.items fault.applier)) }
{
    match closed {
        Ok(closed) => Ok(closed),
        Err(fault) => {
            show_fault(&fault, shown);
            close_all(
                rt,
                gate,
                fault.taker,
                fault.ended,
                fault.applier,
                Moment(1700),
            )
        }
    }
}

fn show_closed(closed: Result<Closed, CloseAllFault>, shown: &mut Vec<u8>) {
    match &closed {
        Ok(closed) => {
            let _ = writeln!(shown, "closed");
            show_records(closed.applier.records(), shown);
        }
        Err(fault) => show_fault(fault, shown),
    }
    drop(closed);
}

fn drain<R: Wait>(
    rt: &R,
    gate: &Gate,
    taker: Taker,
    ended: Vec<Ended>,
    applier: Applier,
    shown: &mut Vec<u8>,
)
    requires taker { (taker.gate ≡ gate.now) × (taker.taken ≡ []) }
    requires ended { All (λ client. client.gate ≡ gate.now) ended.items }
    requires applier { applier.records ≡ [] }
{
    let first = close_all(rt, gate, taker, ended, applier, Moment(1600));
    show_closed(go_on(rt, gate, first, shown), shown);
}

/// Plays the story: whether its parts could be opened.
pub fn play_close<R: Wait>(rt: &R, alloc: Global, shown: &mut Vec<u8>) -> bool {
    let Ok(room) = Vec::with_capacity(alloc, 2) else {
        let _ = writeln!(shown, "room: OutOfMemory");
        return false;
    };
    let Some(applier) = applier(alloc, 1000, shown) else {
        return false;
    };
    match two_clients(alloc, shown) {
        Some((gate, taker, closer, one, two)) => {
            let (taker, one, two) = queue_and_close(
                rt,
                alloc,
                &gate,
                closer,
                taker,
                (one, two),
                shown,
            );
            drain(rt, &gate, taker, both(room, one, two), applier, shown);
            true
        }
        None => false,
    }
}

fn queue_three<R: Wait>(rt: &R, gate: &Gate, client: Client, shown: &mut Vec<u8>) -> Ended
    requires { client.gate ≡ gate.now }
    ensures { result.gate ≡ gate.now }
{
    let mut client = client;
    submit(rt, gate, &mut client, shown);
    submit(rt, gate, &mut client, shown);
    submit(rt, gate, &mut client, shown);
    client.end()
}

fn alone(room: Vec<Ended>, one: Ended) -> Vec<Ended>
    requires { room.items ≡ [] }
    ensures { (gate : _) → one.gate ≡ gate → All (λ client. client.gate ≡ gate) result.items }
{
    let mut ended = room;
    let _ = ended.push(one);
    ended
}

// Three items of one client, for a log of so many records.
fn play_limit<R: Wait>(rt: &R, alloc: Global, limit: u32, shown: &mut Vec<u8>) -> bool {
    let Ok(room) = Vec::with_capacity(alloc, 1) else {
        let _ = writeln!(shown, "room: OutOfMemory");
        return false;
    };
    let Some(applier) = applier(alloc, limit, shown) else {
        return false;
    };
    match one_client(alloc, 16, shown) {
        Some((gate, mut taker, mut closer, client)) => {
            let ended = queue_three(rt, &gate, client, shown);
            close(alloc, &gate, &mut closer, &mut taker, 1500, shown);
            drain(rt, &gate, taker, alone(room, ended), applier, shown);
            true
        }
        None => false,
    }
}

/// Plays the story with a log for two records and with one for three: whether its parts could be
/// opened.
pub fn play_full<R: Wait>(rt: &R, alloc: Global, shown: &mut Vec<u8>) -> bool {
    play_limit(rt, alloc, 2, shown) && play_limit(rt, alloc, 3, shown)
}
