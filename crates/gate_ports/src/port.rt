ghost use Rattle.std.specs.Prelude.{◌≡◌, ◌<◌, ◌↔◌, vec_len, IsSome, IfOk};
ghost use Rattle.gate_turns.specs.Waiting.{silence_of};

use crate::connections::{Agents, Operators, PeerConnections, Readers};
use crate::listener::Listener;
use crate::peers::Peers;
use crate::selector::{Selector, check};
use crate::serving::Serving;
use crate::shared::{Rules, Shared};
use gate_turns::Role;
use libc::net::listen;
use mio::Waker;
use std::alloc::Global;
use std::io;
use std::net::Net;
use std::os::fd::AsRawFd;
use std::sync::atomic::Ordering;
use std::sync::{Arc, Mutex};
use std::time::Clock;

// How many connections wait at a listener until they are accepted.
const BACKLOG: i32 = 4_096;

/// A worker of a port: its peers, and what wakes it.
#[derive(Drop)]
pub(crate) struct Worker {
    pub(crate) serving: Mutex<Serving>,
    waker: Waker,
    pub(crate) shared: Arc<Shared, Global>,
    pub(crate) rules: Rules,
}

// The peers of a worker, of which there are none yet, and what wakes who waits for them.
fn new_serving<R: Net + Clock>(
    rt: &R,
    alloc: Global,
    rules: Rules,
    shared: &Arc<Shared, Global>,
) -> io::Result<(Serving, Waker)>
    ensures { IfOk result (λ new. new.0.peers.rules ≡ rules) }
{
    let shared = Arc::try_clone(shared)?;
    let (selector, waker) = Selector::new(rt, alloc)?;
    let peers = Peers::new(rt, alloc, rules, shared, selector)?;
    Ok((Serving::new(peers), waker))
}

impl Worker {
    fn new<R: Net + Clock>(
        rt: &R,
        alloc: Global,
        rules: Rules,
        shared: &Arc<Shared, Global>,
    ) -> io::Result<Worker>
        ensures { IfOk result (λ worker. worker.rules ≡ rules) }
    {
        let (serving, waker) = new_serving(rt, alloc, rules, shared)?;
        let shared = Arc::try_clone(shared)?;
        Ok(Worker {
            serving: Mutex::new(serving),
            waker,
            shared,
            rules,
        })
    }
}

/// What a port is told.
#[derive(Clone, Copy)]
pub(crate) enum Call {
    /// To accept connections, and to serve them.
    Open,
    /// That the daemon is to end.
    End,
}

/// A port with its workers.
#[derive(Drop)]
pub(crate) struct Port {
    shared: Arc<Shared, Global>,
    workers: Vec<Worker>,
    rules: Rules,
}

// So many workers, which share this.
fn new_workers<R: Net + Clock>(
    rt: &R,
    alloc: Global,
    count: u32,
    rules: Rules,
    shared: &Arc<Shared, Global>,
) -> io::Result<Vec<Worker>>
    ensures { IfOk result (λ workers. vec_len workers ≡ count) }
{
    let mut workers = Vec::with_capacity(alloc, count as usize)?;
    for _ in 0..count {
        workers.push_reserved(Worker::new(rt, alloc, rules, shared)?);
    }
    Ok(workers)
}

impl Port {
    fn new<R: Net + Clock>(
        rt: &R,
        alloc: Global,
        listener: Listener,
        workers: u32,
        rules: Rules,
    ) -> io::Result<Port>
        ensures workers { IfOk result (λ port. vec_len port.workers ≡ workers) }
        ensures rules { IfOk result (λ port. port.rules ≡ rules) }
    {
        listener.socket.set_nonblocking(true)?;
        check(listen(listener.socket.as_raw_fd(), BACKLOG))?;
        let shared = Arc::new(alloc, Shared::new(listener, workers))?;
        let workers = new_workers(rt, alloc, workers, rules, &shared)?;
        Ok(Port {
            shared,
            workers,
            rules,
        })
    }

    // The worker of this number, from 0.
    fn worker(&self, number: usize) -> Option<&Worker>
        ensures { IsSome result ↔ (number < vec_len self.now.workers) }
    {
        if number < self.workers.len() {
            Some(&self.workers[number])
        } else {
            None
        }
    }

    /// Tells the port this, and wakes all of its workers.
    pub(crate) fn tell(&self, call: Call) {
        match call {
            Call::Open => self.shared.is_open.store(true, Ordering::SeqCst),
            Call::End => self.shared.is_ending.store(true, Ordering::SeqCst),
        }
        for worker in &self.workers {
            let _ = worker.waker.wake();
        }
    }
}

/// The port of agents: up to 4,096 are open at once, or as many as the system has descriptors for. Each is
/// greeted at once, and served once it has brought a whole packet, in the order in which that came. One
/// more comes in place of the one that has been silent for the longest time, of the address with the most
/// connections. One that is silent until its packets would be too old is let go, and none before 60 seconds.
#[derive(Drop)]
pub struct AgentsPort(pub(crate) Port);

impl AgentsPort {
    /// The port of this listener, for so many workers, whose packets are too old at this age in seconds. It
    /// fails where the system has no descriptors for waiting, or memory is missing.
    pub fn new<R: Net + Clock>(
        rt: &R,
        alloc: Global,
        listener: Listener,
        workers: u32,
        greatest_age: u32,
    ) -> io::Result<AgentsPort>
        ensures workers { IfOk result (λ port. vec_len port.0.workers ≡ workers) }
        ensures role { IfOk result (λ port. port.0.rules.role ≡ Role.Agent) }
        ensures silence { IfOk result (λ port. port.0.rules.silence ≡ silence_of greatest_age) }
    {
        let rules = Rules::of_agents(greatest_age);
        Ok(AgentsPort(Port::new(rt, alloc, listener, workers, rules)?))
    }

    /// The connections of the worker of this number, from 0. Once all workers have ended theirs, the port is
    /// closed.
    pub fn connections<'a, R>(
        &'a self,
        rt: &'a R,
        worker: usize,
    ) -> Option<PeerConnections<'a, R, Agents>>
        ensures { IsSome result ↔ (worker < vec_len self.now.0.workers) }
    {
        match self.0.worker(worker) {
            Some(worker) => Some(PeerConnections::new(rt, worker, Agents)),
            None => None,
        }
    }
}

/// The port of operators: up to 256 are open at once, and those that have sent a whole line are served
/// in the order in which it ended. One more comes in place of the one that has owed the end of a line, or
/// the taking of an answer, for the longest time.
#[derive(Drop)]
pub struct OperatorsPort {
    pub(crate) port: Port,
    ghost one: { vec_len port.workers ≡ 1 },
}

impl OperatorsPort {
    /// The port of this listener. It fails where the system has no descriptors for waiting, or memory is
    /// missing.
    pub fn new<R: Net + Clock>(
        rt: &R,
        alloc: Global,
        listener: Listener,
    ) -> io::Result<OperatorsPort>
        ensures { IfOk result (λ port. port.port.rules.role ≡ Role.Operator) }
    {
        let rules = Rules::of_others(Role::Operator);
        let port = Port::new(rt, alloc, listener, 1, rules)?;
        Ok(OperatorsPort { port })
    }

    /// The connections of the operators' worker.
    pub fn connections<'a, R>(&'a self, rt: &'a R) -> PeerConnections<'a, R, Operators> {
        PeerConnections::new(rt, &self.port.workers[0], Operators)
    }
}

/// The port of the readers of pages: up to 256 are open at once, and each gets its page in the order in
/// which they came. One more comes in place of one that takes less than 1 MB a second of its page, or of
/// one that has it.
#[derive(Drop)]
pub struct PagesPort {
    pub(crate) port: Port,
    ghost one: { vec_len port.workers ≡ 1 },
}

impl PagesPort {
    /// The port of this listener. It fails where the system has no descriptors for waiting, or memory is
    /// missing.
    pub fn new<R: Net + Clock>(rt: &R, alloc: Global, listener: Listener) -> io::Result<PagesPort>
        ensures { IfOk result (λ port. port.port.rules.role ≡ Role.Reader) }
    {
        let rules = Rules::of_others(Role::Reader);
        let port = Port::new(rt, alloc, listener, 1, rules)?;
        Ok(PagesPort { port })
    }

    /// The connections that get pages.
    pub fn connections<'a, R>(&'a self, rt: &'a R) -> PeerConnections<'a, R, Readers> {
        PeerConnections::new(rt, &self.port.workers[0], Readers)
    }
}
