//! Clients, a close and an applier on threads of their own: what a close of all then applied.
ghost use Rattle.std.specs.Prelude.{◌≡◌, [], All, IfSome, IfOk};
ghost use Rattle.gate_model.specs.Record.{items_of_records};

use crate::parts::{Answer, applied_until_closed, applier, closed, id_in, submitted};
use gate_applier::Applier;
use gate_close::{CloseAllFault, Closed, close_all};
use gate_model::{Moment, Numbered, Record};
use gate_queue::{Client, Closer, Ended, Gate, Taker, conservation, open};
use std::alloc::Global;
use std::sync::Wait;
use std::sync::atomic::AtomicUsize;
use std::sync::atomic::Ordering::SeqCst;
use std::thread;
use std::thread::Threads;

// What a client was answered: the ids of the bodies that were queued, in order; the moment of the
// close; and whether the numbers were 1, 2, 3 and so on, with nothing but that moment after it.
#[derive(Drop)]
struct Account {
    queued: Vec<u32>,
    closing: Option<u32>,
    kept: bool,
}

fn note_queued(account: &mut Account, id: u32, number: u64) {
    let is_next = number == (account.queued.len() as u64).wrapping_add(1);
    account.kept &= account.closing.is_none() && is_next && account.queued.push(id).is_ok();
}

fn note(account: &mut Account, id: u32, answer: Answer) {
    match answer {
        Answer::Queued(number) => note_queued(account, id, number),
        Answer::Closing(moment, returned) => {
            account.kept &= returned == id && account.closing.is_none_or(|first| first == moment);
            account.closing = Some(moment);
        }
        Answer::Full(returned) => account.kept &= account.closing.is_none() && returned == id,
        Answer::Spent(_) => account.kept = false,
    }
}

// Submits so many bodies, and counts the attempts of all clients.
fn attempted<R: Wait>(
    rt: &R,
    alloc: Global,
    gate: &Gate,
    client: Client,
    attempts: u32,
    made: &AtomicUsize,
) -> (Client, Account)
    requires { client.gate ≡ gate.now }
    ensures { result.0.gate ≡ gate.now }
{
    let mut client = client;
    let mut account = Account {
        queued: Vec::new(alloc),
        closing: None,
        kept: true,
    };
    for id in 0..attempts {
        let answer = submitted(rt, gate, &mut client, id);
        note(&mut account, id, answer);
        made.fetch_add(1, SeqCst);
    }
    (client, account)
}

// Each client submits so many bodies on a thread of its own.
fn all_attempted<R: Threads + Wait + Sync>(
    rt: &R,
    alloc: Global,
    gate: &Gate,
    clients: Vec<Client>,
    attempts: u32,
    made: &AtomicUsize,
) -> Option<Vec<(Client, Account)>>
    requires { All (λ client. client.gate ≡ gate.now) clients.items }
    ensures { IfSome result (λ done. All (λ client. client.0.gate ≡ gate.now) done.items) }
{
    let work = |client: Client| -> (Client, Account)
        requires { client.gate ≡ gate.now }
        ensures { result.0.gate ≡ gate.entry.now }
    { attempted(rt, alloc, gate, client, attempts, made) };
    thread::map_vec(rt, clients, &work).ok()
}

// Closes the gate once so many attempts were made.
fn closed_after(alloc: Global, gate: &Gate, closer: Closer, attempts: usize, made: &AtomicUsize)
    requires { closer.cell ≡ gate.now.cell }
{
    for _ in 0..100_000_000 {
        if made.load(SeqCst) >= attempts {
            break;
        }
        thread::yield_now();
    }
    let mut closer = closer;
    let _ = closed(alloc, gate, &mut closer, 1500);
}

// The clients submit, and another thread closes the gate once so many attempts were made.
fn attempted_with_a_close<R: Threads + Wait + Sync>(
    rt: &R,
    alloc: Global,
    gate: &Gate,
    clients: Vec<Client>,
    closer: Closer,
    attempts: (u32, usize),
) -> Option<Vec<(Client, Account)>>
    requires clients { All (λ client. client.gate ≡ gate.now) clients.items }
    requires closer { closer.cell ≡ gate.now.cell }
    ensures { IfSome result (λ done. All (λ client. client.0.gate ≡ gate.now) done.items) }
{
    let made = AtomicUsize::new(0);
    let made = &made;
    let ((), done) = thread::join(
        rt,
        move || -> ()
            requires { closer.cell ≡ gate.now.cell }
        { closed_after(alloc, gate, closer, attempts.1, made) },
        move || -> Option<Vec<(Client, Account)>>
            requires { All (λ client. client.gate ≡ gate.now) clients.items }
            ensures { IfSome result (λ done.
                All (λ client. client.0.gate ≡ gate.entry.now) done.items) }
        { all_attempted(rt, alloc, gate, clients, attempts.0, made) },
    );
    done
}

// The clients submit and the gate is closed, while another thread takes and applies.
fn run_all<R: Threads + Wait + Sync>(
    rt: &R,
    alloc: Global,
    gate: &Gate,
    clients: (Vec<Client>, Closer),
    taker: Taker,
    applier: Applier,
    attempts: (u32, usize),
) -> ((Taker, Applier), Option<Vec<(Client, Account)>>)
    requires clients { All (λ client. client.gate ≡ gate.now) clients.0.items }
    requires closer { clients.1.cell ≡ gate.now.cell }
    requires taker { taker.gate ≡ gate.now }
    requires applied { items_of_records applier.records ≡ taker.taken }
    ensures taker { result.0.0.gate ≡ gate.now }
    ensures applied { items_of_records result.0.1.records ≡ result.0.0.taken }
    ensures clients { IfSome result.1 (λ done.
        All (λ client. client.0.gate ≡ gate.now) done.items) }
{
    let (clients, closer) = clients;
    thread::join(
        rt,
        move || -> (Taker, Applier)
            requires taker { taker.gate ≡ gate.now }
            requires applied { items_of_records applier.records ≡ taker.taken }
            ensures taker { result.0.gate ≡ gate.entry.now }
            ensures applied { items_of_records result.1.records ≡ result.0.taken }
        { applied_until_closed(rt, gate, taker, applier) },
        move || -> Option<Vec<(Client, Account)>>
            requires clients { All (λ client. client.gate ≡ gate.now) clients.items }
            requires closer { closer.cell ≡ gate.now.cell }
            ensures { IfSome result (λ done.
                All (λ client. client.0.gate ≡ gate.entry.now) done.items) }
        { attempted_with_a_close(rt, alloc, gate, clients, closer, attempts) },
    )
}

// One more attempt after the close, and the client ends.
fn ended<R: Wait>(rt: &R, gate: &Gate, client: Client, account: &mut Account) -> Ended
    requires { client.gate ≡ gate.now }
    ensures { result.gate ≡ gate.now }
{
    let mut client = client;
    let answer = submitted(rt, gate, &mut client, 7);
    note(account, 7, answer);
    client.end()
}

fn keep(all: &mut Vec<Account>, account: Account) {
    let _ = all.push(account);
}

// The clients that ended. What each was answered is added to the accounts.
fn all_ended<R: Wait>(
    rt: &R,
    alloc: Global,
    gate: &Gate,
    done: Vec<(Client, Account)>,
    accounts: &mut Vec<Account>,
) -> Vec<Ended>
    requires { All (λ client. client.0.gate ≡ gate.now) done.items }
    ensures { All (λ client. client.gate ≡ gate.now) result.items }
{
    let mut all = Vec::new(alloc);
    for (client, account) in done {
        let mut account = account;
        let client = ended(rt, gate, client, &mut account);
        keep(accounts, account);
        let _ = all.push(client);
    }
    all
}

// Whether the item is the next of those that its client was answered are queued, after so many.
fn is_next(item: &Numbered, count: usize, account: &Account) -> bool {
    item.number == (count as u64).wrapping_add(1)
        && account.queued.get(count) == Some(&id_in(&item.body))
}

// Whether the client's records are those bodies that it was answered are queued, in order.
fn is_whole(records: &[Record], client: u32, account: &Account) -> bool {
    let mut count = 0usize;
    for applied in records {
        if applied.item.client == client {
            if !is_next(&applied.item, count, account) {
                return false;
            }
            count = count.wrapping_add(1);
        }
    }
    count == account.queued.len() && account.kept && account.closing == Some(1500)
}

// Whether each client's records are whole, and there are no others.
fn are_whole(records: &[Record], accounts: &[Account]) -> bool {
    let mut client = 0u32;
    let mut count = 0usize;
    for account in accounts {
        client = client.wrapping_add(1);
        if !is_whole(records, client, account) {
            return false;
        }
        count = count.wrapping_add(account.queued.len());
    }
    count == records.len()
}

fn are_whole_in(closed: &Result<Closed, CloseAllFault>, accounts: &[Account]) -> bool {
    match closed {
        Ok(closed) => are_whole(closed.applier.records(), accounts),
        Err(_) => false,
    }
}

// Whether all is applied that each client was answered is queued, and nothing else.
fn is_all_applied<R: Wait>(
    rt: &R,
    alloc: Global,
    gate: &Gate,
    taker: Taker,
    applier: Applier,
    done: Vec<(Client, Account)>,
) -> bool
    requires taker { taker.gate ≡ gate.now }
    requires applied { items_of_records applier.records ≡ taker.taken }
    requires done { All (λ client. client.0.gate ≡ gate.now) done.items }
{
    let mut accounts = Vec::new(alloc);
    let ended = all_ended(rt, alloc, gate, done, &mut accounts);
    conservation(&taker);
    let closed = close_all(rt, gate, taker, ended, applier, Moment(1500));
    let are_whole = are_whole_in(&closed, accounts.as_slice());
    drop(closed);
    drop(accounts);
    are_whole
}

// A gate of so many clients, with room for eight items.
fn opened(alloc: Global, count: u32) -> Option<(Gate, Taker, Closer, Vec<Client>)>
    ensures taker { IfSome result (λ opened.
        (opened.1.gate ≡ opened.0) × (opened.1.taken ≡ [])) }
    ensures closer { IfSome result (λ opened. opened.2.cell ≡ opened.0.cell) }
    ensures clients { IfSome result (λ opened.
        All (λ client. client.gate ≡ opened.0) opened.3.items) }
{
    match open(alloc, count, 8) {
        Ok((gate, taker, closer, clients)) => Some((gate, taker, closer, clients)),
        Err(_) => None,
    }
}

// Runs clients, a close and an applier, closes all, and looks at what was applied.
fn are_applied<R: Threads + Wait + Sync>(
    rt: &R,
    alloc: Global,
    gate: &Gate,
    clients: (Vec<Client>, Closer),
    taker: Taker,
    attempts: (u32, usize),
) -> bool
    requires clients { All (λ client. client.gate ≡ gate.now) clients.0.items }
    requires closer { clients.1.cell ≡ gate.now.cell }
    requires taker { (taker.gate ≡ gate.now) × (taker.taken ≡ []) }
{
    match applier(alloc, 1_000_000) {
        Some(applier) => {
            let ((taker, applier), done) = run_all(
                rt, alloc, gate, clients, taker, applier, attempts,
            );
            match done {
                Some(done) => is_all_applied(rt, alloc, gate, taker, applier, done),
                None => {
                    drop(taker);
                    drop(applier);
                    false
                }
            }
        }
        None => {
            drop(taker);
            false
        }
    }
}

// Each of so many clients makes so many attempts, and the gate is closed once so many were made in
// all.
fn is_drained<R: Threads + Wait + Sync>(
    rt: &R,
    alloc: Global,
    count: u32,
    attempts: (u32, usize),
) -> bool {
    match opened(alloc, count) {
        Some((gate, taker, closer, clients)) => {
            let are_applied = are_applied(rt, alloc, &gate, (clients, closer), taker, attempts);
            drop(gate);
            are_applied
        }
        None => false,
    }
}

// Closed once all attempts were made, and amid them.
#[test]
fn what_was_queued_is_applied_whenever_the_gate_is_closed(rt: HostRuntime) {
    for (clients, attempts) in [(4, (1000, 4000)), (64, (50, 3200)), (4, (1000, 1500))] {
        assert!(rt; is_drained(&rt, rt.alloc(), clients, attempts), "{clients}");
    }
}
