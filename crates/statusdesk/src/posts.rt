//! The operators' ports of the gateways. A thread for each sends the orders in its outbox, one after
//! another, so a gateway that doesn't answer keeps its own orders waiting and nobody else.

ghost use Rattle.std.specs.Prelude.{◌≡◌, false, [], ◌∷◌, ◌++◌, map, IfOk, IfSome, IfNone, OnErr};
ghost use Rattle.desk_outbox.specs.Outbox.{OutboxView};
ghost use Rattle.desk_outbox.specs.Showing.{shown_in};
ghost use Rattle.desk_words.specs.Words.{has_port};
ghost use Rattle.statusdesk.specs.Objects.{place_of};

use desk_outbox::{Asked, Labelled, Outbox, Receipt, Shown, TakeFault};
use desk_sending::{Order, audit_of, send_order};
use operator_lines::{AskFault, Reply};
use page_fetching::Timed;
use page_watching::{Place, clock};
use std::alloc::{AllocError, Global};
use std::marker::Model;
use std::net::{Net, SocketAddr, TcpListener, TcpStream};
use std::snapshot::Snapshot;
use std::sync::atomic::{AtomicBool, Ordering};
use std::sync::{Condvar, Mutex, Wait};
use std::thread;
use std::time::{Clock, Duration, Instant};

// The seconds for the connection and the answer of a gateway.
const SEND_TIMEOUT: u64 = 4;

// The milliseconds of a pause where memory runs out.
const MEMORY_MILLIS: u64 = 100;

/// A gateway's operators' port, and its outbox.
#[derive(Drop)]
pub struct Post<'a> {
    pub place: Place<'a>,
    outbox: Mutex<Outbox>,
    // An order was taken in, or the program ends.
    news: Condvar,
    is_over: AtomicBool,
}

/// An order that the outbox of a gateway has taken in: contracts see it with this gateway's name.
/// `Post::put` alone makes one.
#[derive(Drop)]
pub struct Posted<'a> {
    gateway: &'a str,
    receipt: Receipt,
}

impl<'a> Model for Posted<'a> {
    ghost use Rattle.statusdesk.specs.Posted.{PostedView};

    ghost Value = { PostedView };

    ghost view = { λ posted. record { gateway = posted.gateway.now; order = posted.receipt } };
}

// The same in a list.
#[derive(Drop)]
struct Entry<'a> {
    gateway: &'a str,
    order: Snapshot<Labelled>,
}

impl<'a> Model for Entry<'a> {
    ghost use Rattle.statusdesk.specs.Posted.{PostedView};

    ghost Value = { PostedView };

    ghost view = { λ entry. record { gateway = entry.gateway.now; order = entry.order.value } };
}

/// The orders that outboxes have taken in for one request, in order: contracts see them, each with its
/// gateway's name. `Post::put` alone adds one, and `Desk::call` alone begins a list.
#[derive(Drop)]
pub struct Intake<'a> {
    entries: Vec<Entry<'a>>,
}

impl<'a> Model for Intake<'a> {
    ghost use Rattle.std.specs.Prelude.{List};
    ghost use Rattle.statusdesk.specs.Posted.{PostedView};

    ghost Value = { List PostedView };

    ghost view = { λ intake. intake.entries.items };
}

impl<'a> Intake<'a> {
    /// No order yet.
    pub fn new(alloc: Global) -> Intake<'a>
        ensures { result ≡ [] }
    {
        Intake {
            entries: Vec::new(alloc),
        }
    }
}

// Sends an order over a connection of its own.
fn send_within<R: Net<Listener = TcpListener, Stream = TcpStream> + Clock>(
    rt: &R,
    alloc: Global,
    address: SocketAddr,
    order: &Order,
) -> Result<Reply, AskFault> {
    let Ok(begun) = Instant::now(rt) else {
        return Err(AskFault::WriteFault);
    };
    let within = Duration::from_secs(SEND_TIMEOUT);
    let Ok(stream) = TcpStream::connect_timeout(rt, &address, within) else {
        return Err(AskFault::WriteFault);
    };
    let mut reader = Timed::new(rt, &stream, begun, SEND_TIMEOUT);
    let mut writer = Timed::new(rt, &stream, begun, SEND_TIMEOUT);
    send_order(alloc, &mut reader, &mut writer, order)
}

// Prints the line of the audit log of an order, if there was memory for it. One thread prints at a
// time.
fn log<R: Wait + Print>(rt: &R, alloc: Global, printing: &Mutex<()>, line: Option<Vec<u8>>) {
    let Some(line) = line else {
        return;
    };
    if let Ok(text) = String::from_utf8_lossy(alloc, line.as_slice()) {
        let _printing = printing.lock(rt);
        let _ = print!(rt; "{text}");
    }
}

impl<'a> Post<'a> {
    /// The port at a place, with an empty outbox. The only error is out of memory.
    pub fn new(alloc: Global, place: Place<'a>) -> Result<Post<'a>, AllocError>
        ensures { IfOk result (λ post. post.place ≡ place.entry) }
    {
        Ok(Post {
            place,
            outbox: Mutex::new(Outbox::new(alloc)?),
            news: Condvar::new(),
            is_over: AtomicBool::new(false),
        })
    }

    /// Puts an order into the outbox, and adds it to the intake of its request.
    pub fn put<R: Wait>(
        &self,
        rt: &R,
        order: Labelled,
        intake: &mut Intake<'a>,
    ) -> Result<Posted<'a>, TakeFault>
        ensures posted { IfOk result (λ posted.
            posted ≡ record { gateway = self.now.place.name.now; order = order }) }
        ensures added { IfOk result (λ posted. intake.new ≡ intake.old ++ posted ∷ []) }
        ensures kept { OnErr result (intake.new ≡ intake.old) }
    {
        if intake.entries.reserve(1).is_err() {
            drop(order);
            return Err(TakeFault::OutOfMemory);
        }
        let gateway = self.place.name;
        let entry = Entry {
            gateway,
            order: Snapshot::of(&order),
        };
        let taken = self.outbox.lock(rt).take_in(order);
        self.news.notify_one();
        match taken {
            Ok(receipt) => {
                intake.entries.push_reserved(entry);
                Ok(Posted { gateway, receipt })
            }
            Err(fault) => Err(fault),
        }
    }

    /// What a user sees of their orders for an object. The only error is out of memory.
    pub fn shown<R: Wait>(
        &self,
        rt: &R,
        alloc: Global,
        asked: &Asked<'_>,
    ) -> Result<Vec<Shown>, AllocError>
        ensures { IfOk result (λ shown.
            (outbox : OutboxView) × (shown.items ≡ shown_in asked.now outbox)) }
    {
        self.outbox.lock(rt).shown_for(alloc, asked)
    }

    /// Ends `send_always` once no order waits.
    pub fn close<R: Wait>(&self, rt: &R) {
        self.is_over.store(true, Ordering::SeqCst);
        let _outbox = self.outbox.lock(rt);
        self.news.notify_all();
    }

    // Waits for an order: None where the program ends.
    fn next<R: Wait>(&self, rt: &R, alloc: Global) -> Result<Option<Labelled>, AllocError> {
        let is_over = &self.is_over;
        let mut outbox = self.news.wait_while(rt, self.outbox.lock(rt), |outbox| {
            outbox.is_empty() && !is_over.load(Ordering::SeqCst)
        });
        outbox.next(alloc)
    }

    // Sends an order, keeps what came of it, and logs it: a log that nobody reads keeps no outcome
    // back. No lock is held meanwhile. An order that is late is not sent.
    fn send<R: Net<Listener = TcpListener, Stream = TcpStream> + Clock + Wait + Print>(
        &self,
        rt: &R,
        alloc: Global,
        printing: &Mutex<()>,
        order: Labelled,
    ) {
        let begun = clock(rt);
        if order.is_late(begun) {
            let _ = self.outbox.lock(rt).lapse(alloc, order, begun);
            return;
        }
        let answer = send_within(rt, alloc, self.place.address, order.order());
        let user = order.label().user.bytes();
        let line = audit_of(alloc, user, self.place.name, order.order(), answer).ok();
        let now = clock(rt);
        let _ = self.outbox.lock(rt).settle(alloc, order, answer, now);
        log(rt, alloc, printing, line);
    }

    /// Sends the orders that are put into the outbox, one after another and each once, until `close`.
    /// For each it prints a line of the audit log, one thread at a time.
    pub fn send_always<R: Net<Listener = TcpListener, Stream = TcpStream> + Clock + Wait + Print>(
        &self,
        rt: &R,
        alloc: Global,
        printing: &Mutex<()>,
    ) {
        for _ in rt.forever() {
            match self.next(rt, alloc) {
                Ok(Some(order)) => self.send(rt, alloc, printing, order),
                Ok(None) => return,
                Err(_) => thread::sleep(rt, Duration::from_millis(MEMORY_MILLIS)),
            }
        }
    }
}

/// The ports at these places, with empty outboxes. The only error is out of memory.
pub fn posts_at<'a>(alloc: Global, places: &[Place<'a>]) -> Result<Vec<Post<'a>>, AllocError>
    ensures { IfOk result (λ posts. map place_of posts.items ≡ places.now) }
{
    let mut posts = Vec::with_capacity(alloc, places.len())?;
    for place in places {
        posts.push(Post::new(alloc, *place)?)?;
    }
    Ok(posts)
}

/// The operators' port of the gateway of this name, if there is one.
pub fn post_of<'p, 'a>(posts: &'p [Post<'a>], name: &str) -> Option<&'p Post<'a>>
    ensures some { IfSome result (λ post. post.now.place.name.now ≡ name.now) }
    ensures none { IfNone result (has_port (map place_of posts.now) name.now ≡ false) }
{
    for post in posts {
        if post.place.name == name {
            return Some(post);
        }
    }
    None
}
