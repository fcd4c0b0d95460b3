ghost use Rattle.std.specs.Prelude.{◌≡◌};

use gate_environment::{Connections, Piece, PieceEnd, Wake, Watch};
use gate_model::Moment;
use gate_reader::SessionLimits;
use gate_streams::Sink;
use gate_worker::WorkerLimits;
use std::io;

/// A writer that drops what is written.
#[derive(Drop)]
pub struct Nowhere;

impl Sink for Nowhere {
    fn put(&mut self, _bytes: &[u8]) -> io::Result<()> {
        Ok(())
    }

    fn deliver(&mut self) -> io::Result<()> {
        Ok(())
    }
}

/// Some connections, each of which sends these bytes.
#[derive(Drop)]
pub struct Sending<'a> {
    pub connections: u32,
    pub bytes: &'a [u8],
}

impl<'a> Connections for Sending<'a> {
    type In = &'a [u8];

    type Out = Nowhere;

    fn next(&mut self) -> Option<Piece<&'a [u8], Nowhere>> {
        if self.connections == 0 {
            return None;
        }
        self.connections -= 1;
        Some(Piece {
            place: 0,
            is_first: true,
            input: self.bytes,
            output: Nowhere,
        })
    }

    fn part(&mut self, _piece: Piece<&'a [u8], Nowhere>, _end: PieceEnd)
        ensures { self.new.connections ≡ self.old.connections }
    {}

    fn end(&mut self) {}
}

/// A clock that stands at this moment.
pub struct AlwaysAt(pub u32);

impl Watch for AlwaysAt {
    fn read(&self) -> Moment {
        Moment(self.0)
    }
}

/// Nobody is woken: connections of this program don't wait.
pub struct NoWake;

impl Wake for NoWake {
    fn agents(&self) {}

    fn pages(&self) {}
}

pub fn limits(sessions: u32) -> WorkerLimits {
    WorkerLimits {
        sessions,
        session: SessionLimits {
            items: 10,
            reads: 100,
        },
        greatest_age: 0,
    }
}
