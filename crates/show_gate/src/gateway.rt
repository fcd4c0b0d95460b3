//! A gateway with one connection of packets and one of an operator, who shuts it down.
ghost use Rattle.std.specs.Prelude.{◌≡◌, IfSome};

use crate::fakes::{AlwaysAt, NoWake, Sending, limits};
use crate::parts::no_objects;
use crate::printing::{show_records, show_reports};
use gate_daemon::{Endpoints, Finished, GatewayFault, GatewaySettings, run_gateway};
use gate_environment::NoHold;
use gate_model::Record;
use gate_reader::Report;
use gate_worker::Endpoint;
use std::alloc::Global;
use std::io::Write;
use std::sync::Wait;
use std::thread::Threads;
use std::time::Clock;

const LINES: &[u8] = b"[1] ADD_HOST_COMMENT;web1;0;ann;hi\n[1] SHUTDOWN_PROGRAM\n";

fn settings(alloc: Global, shown: &mut Vec<u8>) -> Option<GatewaySettings>
    ensures { IfSome result (λ settings. settings.workers ≡ 1) }
{
    Some(GatewaySettings {
        workers: 1,
        capacity: 16,
        limit: 1000,
        worker: limits(10),
        table: no_objects(alloc, shown)?,
    })
}

fn show_parts(reports: &[(u32, Vec<Report>)], records: &[Record], shown: &mut Vec<u8>) {
    for (client, reports) in reports {
        show_reports(*client, reports, shown);
    }
    let _ = writeln!(shown, "records");
    show_records(records, shown);
}

fn show_gateway(ran: Result<Finished, GatewayFault>, shown: &mut Vec<u8>) {
    match &ran {
        Ok(finished) => {
            let _ = writeln!(shown, "{:?}", finished.operator);
            let records = finished.closed.applier.records();
            show_parts(finished.reports.as_slice(), records, shown);
        }
        Err(GatewayFault::CloseAll { fault, reports, .. }) => {
            let _ = writeln!(shown, "close_all: {:?}", fault.cause);
            show_parts(reports.as_slice(), fault.applier.records(), shown);
        }
        Err(fault) => {
            let _ = writeln!(shown, "{fault:?}");
        }
    }
    drop(ran);
}

fn endpoint<'a>(connections: u32, bytes: &'a [u8]) -> Endpoint<Sending<'a>, NoHold> {
    Endpoint {
        connections: Sending { connections, bytes },
        hold: NoHold,
    }
}

/// Plays the story: whether its configuration could be made.
pub fn play_gateway<R: Threads + Wait + Clock + Sync>(
    rt: &R,
    alloc: Global,
    bytes: &[u8],
    shown: &mut Vec<u8>,
) -> bool {
    let Ok(mut packets) = Vec::with_capacity(alloc, 1) else {
        let _ = writeln!(shown, "room: OutOfMemory");
        return false;
    };
    packets.push_reserved(endpoint(1, bytes));
    let Some(settings) = settings(alloc, shown) else {
        return false;
    };
    let endpoints = Endpoints {
        agents: packets,
        operator: endpoint(1, LINES),
        pages: Sending {
            connections: 0,
            bytes: &[],
        },
        applier: NoHold,
    };
    let ran = run_gateway(rt, alloc, settings, endpoints, &AlwaysAt(1500), &NoWake);
    show_gateway(ran, shown);
    true
}
