ghost use Rattle.std.specs.Prelude.{◌≡◌, IfErr, IfOk, IsTrue};
ghost use Rattle.gate_start.specs.BeforeServing.{AreBoundAs, IsAddressIn, IsBindEnd, IsBoundAs};

use crate::fault::{ServeFault, or_fault};
use crate::lent::Lent;
use gate_config::{Address, Config};
use gate_model::Text;
use gate_ports::{AgentsPort, Listener, OperatorsPort, Owner, PagesPort, Ports};
use std::alloc::Global;
use std::io;
use std::io::ErrorKind;
use std::net::{Net, SocketAddr, TcpListener, TcpStream};
use std::time::Clock;

// How many descriptors each agents' worker needs, at least: two that it waits with, and an agent's.
const WORKER_DESCRIPTORS: u32 = 3;

// How many are needed beside those, at least.
const SPARE_DESCRIPTORS: u32 = 16;

/// A port, with the address that it is bound to. Where a configuration has port 0, the system chose the
/// port.
#[derive(Drop)]
pub(crate) struct Bound<P> {
    pub(crate) port: P,
    pub(crate) address: SocketAddr,
}

/// The daemon's ports, and the addresses of agents, of operators and of pages.
#[derive(Drop)]
pub(crate) struct Listening {
    pub(crate) ports: Ports,
    pub(crate) agents: SocketAddr,
    pub(crate) operators: SocketAddr,
    pub(crate) pages: SocketAddr,
}

fn is_bound_as(configured: SocketAddr, address: SocketAddr) -> bool
    ensures { IsTrue result → IsBoundAs configured address }
{
    address.ip() == configured.ip()
        && (configured.port() == 0 || address.port() == configured.port())
}

// The listening socket of this address: one that is lent, or else one that is bound here.
fn listener_of<R: Net<Listener = TcpListener, Stream = TcpStream>>(
    rt: &R,
    lent: &mut Lent,
    socket: SocketAddr,
) -> io::Result<Listener> {
    match lent.take(socket) {
        Some(socket) => Ok(Listener {
            socket,
            owner: Owner::Supervisor,
        }),
        None => Ok(Listener {
            socket: TcpListener::bind(rt, socket)?,
            owner: Owner::Daemon,
        }),
    }
}

// Binds a socket, unless it is lent, and opens a port at this very listener.
fn bind_socket<
    R: Net<Listener = TcpListener, Stream = TcpStream>,
    P: Drop,
    F: FnOnce(Listener) -> io::Result<P> + Drop,
>(rt: &R, lent: &mut Lent, socket: SocketAddr, make: F) -> io::Result<Bound<P>>
    requires { F.IsAlwaysCallable make }
    ensures { IfOk result (λ bound. IsBoundAs socket bound.address) }
{
    let listener = listener_of(rt, lent, socket)?;
    let address = listener.socket.local_addr()?;
    if !is_bound_as(socket, address) {
        return Err(io::Error::from(ErrorKind::AddrNotAvailable));
    }
    Ok(Bound {
        port: make(listener)?,
        address,
    })
}

// The same at an address of the configuration.
fn bind<
    R: Net<Listener = TcpListener, Stream = TcpStream>,
    P: Drop,
    F: FnOnce(Listener) -> io::Result<P> + Drop,
>(
    rt: &R,
    alloc: Global,
    lent: &mut Lent,
    address: &Address,
    make: F,
) -> Result<Bound<P>, ServeFault>
    requires { F.IsAlwaysCallable make }
    ensures bound { IfOk result (λ bound. IsBoundAs address.now.socket bound.address) }
    ensures err { IfErr result (IsBindEnd (λ text. text ≡ address.now.text)) }
{
    let unbound = ServeFault::Bind(Text::copied(alloc, address.text.bytes())?);
    or_fault(bind_socket(rt, lent, address.socket, make), unbound)
}

// Whether the system grants so many descriptors: they are those of peers, once the daemon serves.
fn grants_descriptors(alloc: Global, listener: &TcpListener, count: u32) -> io::Result<()> {
    let mut taken = Vec::with_capacity(alloc, count as usize)?;
    for _ in 0..count {
        taken.push(listener.try_clone()?)?;
    }
    Ok(())
}

/// Binds the addresses of agents, of operators and of pages, in this order, each once. An address at which a
/// listening socket is lent isn't bound: that socket is taken.
///
/// Bind names the first address that can't be bound, or at which the system doesn't grant what its port
/// waits with. It names that of the agents where the system doesn't grant three descriptors for each
/// agents' worker and 16 more. Nobody is served at the ports until they are opened. Own rule.
pub(crate) fn listen<R: Net<Listener = TcpListener, Stream = TcpStream> + Clock>(
    rt: &R,
    alloc: Global,
    lent: &mut Lent,
    config: &Config,
) -> Result<Listening, ServeFault>
    ensures bound { IfOk result (λ listening. AreBoundAs config.now
        listening.agents listening.operators listening.pages) }

    ensures err { IfErr result (IsBindEnd (IsAddressIn config.now)) }
{
    let agents = bind(rt, alloc, lent, &config.agents, |listener| {
        let of_workers = config.workers.saturating_mul(WORKER_DESCRIPTORS);
        let count = of_workers.saturating_add(SPARE_DESCRIPTORS);
        grants_descriptors(alloc, &listener.socket, count)?;
        let greatest_age = config.limits.greatest_age;
        AgentsPort::new(rt, alloc, listener, config.workers, greatest_age)
    })?;
    let operators = bind(rt, alloc, lent, &config.operators, |listener| {
        OperatorsPort::new(rt, alloc, listener)
    })?;
    let pages = bind(rt, alloc, lent, &config.pages, |listener| {
        PagesPort::new(rt, alloc, listener)
    })?;
    Ok(Listening {
        ports: Ports {
            agents: agents.port,
            operators: operators.port,
            pages: pages.port,
        },
        agents: agents.address,
        operators: operators.address,
        pages: pages.address,
    })
}
