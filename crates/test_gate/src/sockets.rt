use crate::fakes::{packet, settings};
use crate::gateways::left_by;
use gate_daemon::{Endpoints, run_gateway};
use gate_environment::NoHold;
use gate_ports::{AgentsPort, Listener, OperatorsPort, Owner, PagesPort, Ports, SystemWatch};
use gate_worker::Endpoint;
use std::alloc::Global;
use std::io::{Read, Write};
use std::net::{Net, Shutdown, SocketAddr, TcpListener, TcpStream};
use std::sync::Wait;
use std::thread::Threads;
use std::time::Clock;
use std::{io, thread};

// Sends these bytes, reads the beginning of the answer, and waits for what comes after it, since an
// agent's connection ends once its packet is queued.
fn exchange<R: Net<Listener = TcpListener, Stream = TcpStream>>(
    rt: &R,
    address: SocketAddr,
    bytes: &[u8],
    answer: &mut [u8],
) -> io::Result<()> {
    let mut stream = TcpStream::connect(rt, address)?;
    stream.write_all(bytes)?;
    stream.shutdown(Shutdown::Write)?;
    stream.read_exact(answer)?;
    stream.read(&mut [0])?;
    Ok(())
}

// An agent's packet, an operator's comment, a page, and then the shutdown.
fn talk<R: Net<Listener = TcpListener, Stream = TcpStream>>(
    rt: &R,
    addresses: (SocketAddr, SocketAddr, SocketAddr),
    bytes: &[u8],
) -> io::Result<bool> {
    let mut greeting = [0; 132];
    exchange(rt, addresses.0, bytes, &mut greeting)?;
    let mut queued = [0; 9];
    exchange(
        rt,
        addresses.1,
        b"[1] ADD_HOST_COMMENT;web1;0;ann;hi\n",
        &mut queued,
    )?;
    let mut page = [0; 7];
    exchange(rt, addresses.2, b"", &mut page)?;
    let mut closing = [0; 8];
    exchange(rt, addresses.1, b"[1] SHUTDOWN_PROGRAM\n", &mut closing)?;
    Ok(&queued == b"queued 1\n" && &page == b"status " && &closing == b"closing\n")
}

// Runs a gateway on these ports: how many records it left.
fn serve<R: Threads + Wait + Clock + Sync>(rt: &R, alloc: Global, ports: &Ports) -> Option<usize> {
    let mut of_agents = Vec::with_capacity(alloc, 1).ok()?;
    of_agents.push_reserved(Endpoint {
        connections: ports.agents.connections(rt, 0)?,
        hold: NoHold,
    });
    let endpoints = Endpoints {
        agents: of_agents,
        operator: Endpoint {
            connections: ports.operators.connections(rt),
            hold: NoHold,
        },
        pages: ports.pages.connections(rt),
        applier: NoHold,
    };
    let settings = settings(alloc, 1)?;
    let watch = SystemWatch { rt };
    let (records, _, _) = left_by(run_gateway(rt, alloc, settings, endpoints, &watch, ports))?;
    Some(records)
}

// A listener at a free port, with its address.
fn bound<R: Net<Listener = TcpListener, Stream = TcpStream>>(
    rt: &R,
) -> io::Result<(Listener, SocketAddr)> {
    let socket = TcpListener::bind(rt, "127.0.0.1:0")?;
    let address = socket.local_addr()?;
    let owner = Owner::Daemon;
    Ok((Listener { socket, owner }, address))
}

// The ports of a gateway at free ports, with their addresses: the agents', the operators' and the pages'.
fn ports_of<R: Net<Listener = TcpListener, Stream = TcpStream> + Clock>(
    rt: &R,
    alloc: Global,
) -> io::Result<(Ports, (SocketAddr, SocketAddr, SocketAddr))> {
    let (agents, first) = bound(rt)?;
    let agents = AgentsPort::new(rt, alloc, agents, 1, 30)?;
    let (operators, second) = bound(rt)?;
    let operators = OperatorsPort::new(rt, alloc, operators)?;
    let (pages, third) = bound(rt)?;
    let pages = PagesPort::new(rt, alloc, pages)?;
    let ports = Ports {
        agents,
        operators,
        pages,
    };
    Ok((ports, (first, second, third)))
}

fn is_served<R: Net<Listener = TcpListener, Stream = TcpStream> + Threads + Wait + Clock + Sync>(
    rt: &R,
    alloc: Global,
    bytes: &[u8],
) -> io::Result<bool> {
    let (ports, addresses) = ports_of(rt, alloc)?;
    ports.open();
    let (answered, records) = thread::join(
        rt,
        || talk(rt, addresses, bytes),
        || serve(rt, alloc, &ports),
    );
    drop(ports);
    Ok(answered? && records == Some(2))
}

#[test]
fn a_daemon_serves_real_sockets(rt: HostRuntime) {
    let is_served = match packet(rt.alloc()) {
        Some(bytes) => matches!(is_served(&rt, rt.alloc(), &bytes), Ok(true)),
        None => false,
    };
    assert!(rt; is_served);
}
