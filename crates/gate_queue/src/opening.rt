ghost use Rattle.std.specs.Prelude.{◌≡◌, ◌-◌, ◌≤◌, [], IfOk, OnOk, None};
ghost use Rattle.once_cell.specs.Once.{cell_name};
ghost use Rattle.crossbeam_queue.specs.Passes.{view as pass_view, IsPassOf};
ghost use Rattle.gate_core.specs.Merge.{IsClient};
ghost use Rattle.gate_core.specs.Limits.{limits_of, default_quota, IsGoodCount, OpensWithin};
ghost use Rattle.gate_queue.specs.Client.{client_state};
ghost use Rattle.gate_queue.specs.Opening.{new_clients, IsNewGate};
ghost use Rattle.gate_queue.specs.Gate.{gate_id};
ghost use Rattle.gate_queue.specs.inner.Rule.{opener, taker};

use crate::client::Client;
use crate::closer::Closer;
use crate::gate::Gate;
use crate::rule::{Begin, Knowledge, MakeClient, PickedLimits, Ring, View};
use crate::taker::Taker;
use crossbeam_queue::Pass;
use gate_core::OpenFault;
use gate_model::{MOST_CAPACITY, MOST_CLIENTS, Moment, Numbered};
use once_cell::race::OnceBox;
use std::alloc::{AllocError, Global};
use std::marker::Brand;
use std::sync::atomic::AtomicBool;
use std::thread::Parker;

// The numbers with which a gate is opened.
#[derive(Clone, Copy)]
struct Bounds {
    clients: u32,
    capacity: usize,
    quota: u32,
}

/// Opens a gate for clients 1 to `clients`, with room for `capacity` items. Each client may queue
/// 4,294,967,295 items. It returns the gate, its taker, a closer, and the clients in order.
///
/// It fails with BadCount where `clients` isn't 1 to 64, then with BadCapacity where `capacity`
/// isn't 1 to 65,536, and then with OutOfMemory. Own rule: the limits are those of a World.
pub fn open(
    alloc: Global,
    clients: u32,
    capacity: usize,
) -> Result<(Gate, Taker, Closer, Vec<Client>), OpenFault>
    ensures opened { IfOk result (λ opened. IsNewGate (limits_of clients default_quota capacity)
        opened.0 opened.1 opened.2 opened.3.items) }
    ensures answer { OpensWithin clients default_quota capacity result }
{
    open_with(alloc, clients, capacity, u32::MAX)
}

/// Opens a gate for clients 1 to `clients`, with room for `capacity` items. Each client may queue
/// `quota` items. It returns the gate, its taker, a closer, and the clients in order.
///
/// It fails with BadCount where `clients` isn't 1 to 64, then with BadCapacity where `capacity`
/// isn't 1 to 65,536, then with BadQuota where `quota` is 0, and then with OutOfMemory. Own rule:
/// the limits are those of a World.
pub fn open_with(
    alloc: Global,
    clients: u32,
    capacity: usize,
    quota: u32,
) -> Result<(Gate, Taker, Closer, Vec<Client>), OpenFault>
    ensures opened { IfOk result (λ opened. IsNewGate (limits_of clients quota capacity)
        opened.0 opened.1 opened.2 opened.3.items) }
    ensures answer { OpensWithin clients quota capacity result }
{
    if clients < 1 || clients > MOST_CLIENTS {
        return Err(OpenFault::BadCount);
    }
    if capacity < 1 || capacity > MOST_CAPACITY as usize {
        return Err(OpenFault::BadCapacity);
    }
    if quota < 1 {
        return Err(OpenFault::BadQuota);
    }
    Ok(open_all(
        alloc,
        Bounds {
            clients,
            capacity,
            quota,
        },
    )?)
}

// Opens a gate whose limits were tested.
fn open_all(alloc: Global, bounds: Bounds) -> Result<(Gate, Taker, Closer, Vec<Client>), AllocError>
    requires clients { IsGoodCount bounds.clients }
    requires capacity { 1 ≤ bounds.capacity }
    ensures { IfOk result (λ opened. IsNewGate
        (limits_of bounds.clients bounds.quota bounds.capacity)
        opened.0 opened.1 opened.2 opened.3.items) }
{
    let counts = Vec::from_elem(alloc, None, bounds.clients as usize)?;
    let (ring, mut pass) = Ring::ruled(alloc, bounds.capacity)?;
    let cell = OnceBox::new(alloc);
    begin::<Brand>(&ring, &mut pass, bounds);
    let clients = all_clients(alloc, &ring, &cell, &mut pass, bounds)?;
    let taker = Taker {
        pass,
        knowledge: Knowledge::new(alloc, &cell),
        counts,
    };
    let closer = Closer::new(alloc, Knowledge::new(alloc, &cell));
    let gate = Gate {
        ring,
        cell,
        clients: bounds.clients,
        quota: bounds.quota,
        is_taking: AtomicBool::new(true),
        parker: Parker::new(),
    };
    Ok((gate, taker, closer, clients))
}

// The first pass becomes the taker's, and gets the limits.
fn begin<J: PickedLimits>(ring: &Ring, pass: &mut Pass<Numbered, View>, bounds: Bounds)
    requires limits { (J.clients ≡ bounds.clients) × (J.quota ≡ bounds.quota)
        × (J.capacity ≡ bounds.capacity) }
    requires pass { IsPassOf ring.now pass.old × (pass_view pass.old ≡ opener) }
    ensures { IsPassOf ring.now pass.new × (pass_view pass.new
        ≡ taker bounds.clients bounds.quota bounds.capacity 0 [] []) }
{
    let _blank = ring.another::<Begin<J>>(pass);
}

// All clients, in order.
fn all_clients(
    alloc: Global,
    ring: &Ring,
    cell: &OnceBox<Moment>,
    pass: &mut Pass<Numbered, View>,
    bounds: Bounds,
) -> Result<Vec<Client>, AllocError>
    requires { IsPassOf ring.now pass.old × (pass_view pass.old
        ≡ taker bounds.clients bounds.quota bounds.capacity 0 [] []) }
    ensures pass { OnOk result (IsPassOf ring.now pass.new × (pass_view pass.new
        ≡ taker bounds.clients bounds.quota bounds.capacity bounds.clients [] [])) }
    ensures clients { IfOk result (λ clients. clients.items ≡ new_clients
        (gate_id ring.now.table.shared.table_id (cell_name cell.now)
        (limits_of bounds.clients bounds.quota bounds.capacity)) bounds.clients) }
{
    let mut clients = Vec::with_capacity(alloc, bounds.clients as usize)?;
    for made in 0..bounds.clients {
        clients.push(next_client(alloc, ring, cell, pass, bounds, made + 1))?;
    }
    Ok(clients)
}

// The client with the next number, and a pass of its own.
fn next_client(
    alloc: Global,
    ring: &Ring,
    cell: &OnceBox<Moment>,
    pass: &mut Pass<Numbered, View>,
    bounds: Bounds,
    number: u32,
) -> Client
    requires number { IsClient bounds.clients number }
    requires pass { IsPassOf ring.now pass.old × (pass_view pass.old
        ≡ taker bounds.clients bounds.quota bounds.capacity (number - 1) [] []) }
    ensures pass { IsPassOf ring.now pass.new × (pass_view pass.new
        ≡ taker bounds.clients bounds.quota bounds.capacity number [] []) }
    ensures client { result ≡ client_state
        (gate_id ring.now.table.shared.table_id (cell_name cell.now)
        (limits_of bounds.clients bounds.quota bounds.capacity)) number [] None }
{
    Client {
        pass: ring.another::<MakeClient>(pass),
        knowledge: Knowledge::new(alloc, cell),
        number,
        count: 0,
        quota: bounds.quota,
    }
}
