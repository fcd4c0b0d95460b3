use crate::devices::{Kept, Pieces, Ticking};
use crate::settings::Settings;
use gate_core::{LocalClient, Operator, Submit, World};
use gate_model::{Body, Kind, Moment};
use gate_reader::{Report, SessionLimits, serve_lines, serve_packets};
use std::alloc::Global;
use std::io;
use std::io::{Error, ErrorKind};

/// What came of a connection: the session's report, what was written, and the World.
#[derive(Drop)]
pub struct Outcome {
    pub report: Report,
    pub written: Vec<u8>,
    pub world: World,
}

fn world_of(alloc: Global, settings: &Settings) -> io::Result<World> {
    match World::open_with(alloc, 1, settings.capacity as usize, settings.quota) {
        Ok(world) => Ok(world),
        Err(_) => Err(Error::from(ErrorKind::InvalidInput)),
    }
}

// The World's one client, after the items and the close that come before the session.
fn client_of(alloc: Global, settings: &Settings) -> io::Result<LocalClient> {
    let Ok(mut client) = LocalClient::new(world_of(alloc, settings)?, 1) else {
        return Err(Error::from(ErrorKind::InvalidInput));
    };
    for id in 0..settings.queued {
        let kind = Kind::Host;
        drop(client.submit(Body::DelComment { kind, id }));
    }
    if settings.closed > 0 {
        let _reply = client.close(Moment(settings.closed));
    }
    Ok(client)
}

// Serves the stream by the call that the settings name.
fn report_of(
    alloc: Global,
    settings: &Settings,
    stream: &[u8],
    client: &mut LocalClient,
    written: &mut Vec<u8>,
) -> Report {
    let mut reader = Pieces::new(stream, settings);
    let mut writer = Kept::new(written, settings);
    let mut clock = Ticking::new(settings);
    let limits = SessionLimits {
        items: settings.items,
        reads: settings.reads,
    };
    if settings.is_packets {
        let age = settings.age;
        serve_packets(
            alloc,
            &mut reader,
            &mut writer,
            &mut clock,
            client,
            limits,
            age,
        )
    } else {
        serve_lines(alloc, &mut reader, &mut writer, &mut clock, client, limits)
    }
}

/// Serves the stream as one connection of the one client of a World.
pub fn serve(alloc: Global, settings: &Settings, stream: &[u8]) -> io::Result<Outcome> {
    let mut client = client_of(alloc, settings)?;
    // With room from the start, a write asks for no memory.
    let mut written = Vec::with_capacity(alloc, 65_536)?;
    let report = report_of(alloc, settings, stream, &mut client, &mut written);
    let world = client.into_world();
    Ok(Outcome {
        report,
        written,
        world,
    })
}
