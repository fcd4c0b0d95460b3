ghost use Rattle.std.specs.Prelude.{◌≡◌, IfSome};

use crate::parts::packet_of;
use gate_daemon::GatewaySettings;
use gate_environment::{Connections, Piece, PieceEnd, Wake, Watch};
use gate_model::Moment;
use gate_packet::{PACKET_SIZE, encode};
use gate_reader::SessionLimits;
use gate_table::ObjectTable;
use gate_worker::WorkerLimits;
use std::alloc::Global;
use std::sync::atomic::{AtomicU64, Ordering};
use std::thread;

// How often a held thread looks whether it may go on.
const TURNS: u64 = 10_000_000;

// Some connections, each of which sends these bytes. What is written to them is dropped.
#[derive(Drop)]
pub struct Sending<'a> {
    pub alloc: Global,
    pub connections: u32,
    pub bytes: &'a [u8],
}

impl<'a> Connections for Sending<'a> {
    type In = &'a [u8];

    type Out = Vec<u8>;

    fn next(&mut self) -> Option<Piece<&'a [u8], Vec<u8>>> {
        if self.connections == 0 {
            return None;
        }
        self.connections -= 1;
        Some(Piece {
            place: 0,
            is_first: true,
            input: self.bytes,
            output: Vec::new(self.alloc),
        })
    }

    fn part(&mut self, _piece: Piece<&'a [u8], Vec<u8>>, _end: PieceEnd)
        ensures { self.new.connections ≡ self.old.connections }
    {}

    fn end(&mut self) {}
}

pub fn is_reached(count: &AtomicU64, least: u64) -> bool {
    for _ in 0..TURNS {
        if count.load(Ordering::SeqCst) >= least {
            return true;
        }
        thread::yield_now();
    }
    false
}

pub struct AlwaysAt(pub u32);

impl Watch for AlwaysAt {
    fn read(&self) -> Moment {
        Moment(self.0)
    }
}

pub struct NoWake;

impl Wake for NoWake {
    fn agents(&self) {}

    fn pages(&self) {}
}

pub fn limits() -> WorkerLimits {
    WorkerLimits {
        sessions: 10,
        session: SessionLimits {
            items: 10,
            reads: 100,
        },
        greatest_age: 0,
    }
}

// No objects, so each record is refused as one of an object that isn't known.
pub fn settings(alloc: Global, workers: u32) -> Option<GatewaySettings>
    ensures { IfSome result (λ settings. settings.workers ≡ workers) }
{
    let table = ObjectTable::build(alloc, Vec::new(alloc)).ok()?;
    Some(GatewaySettings {
        workers,
        capacity: 16,
        limit: 1000,
        worker: limits(),
        table,
    })
}

// A packet that an agent may send.
pub fn packet(alloc: Global) -> Option<[u8; PACKET_SIZE]> {
    let packet = packet_of(alloc, 2, [b"web1", b"HTTP", b"timeout"])?;
    let bytes = encode(&packet);
    drop(packet);
    Some(bytes)
}
