ghost use Rattle.std.specs.Prelude.{◌≡◌, ℕ, ◌≤◌, IfOk, IfErr, OnOk, true};
ghost use Rattle.gate_applier.specs.Applier.{is_limit, opened};
ghost use Rattle.gate_opening.specs.Opening.{AreParts, IsOpening, IsUnopened};

use crate::fault::GatewayFault;
use gate_applier::Applier;
use gate_model::Moment;
use gate_pages::Board;
use gate_queue::{Client, Closer, Gate, Taker, open};
use gate_table::ObjectTable;
use gate_worker::Collected;
use std::alloc::Global;
use std::sync::Mutex;

/// A gate's parts; the last of its clients is the operator's.
#[derive(Drop)]
pub struct Opening {
    pub gate: Gate,
    pub taker: Taker,
    pub closer: Closer,
    pub clients: Vec<Client>,
    pub last: Client,
}

// Opens a gate for so many workers and the operator.
fn open_gate(alloc: Global, workers: u32, capacity: usize) -> Result<Opening, GatewayFault>
    requires { workers ≤ 63 }
    ensures opening { IfOk result (IsOpening workers) }
    ensures fault { IfErr result (λ fault.
        (limit : ℕ) → is_limit limit ≡ true → IsUnopened workers capacity limit fault) }
{
    match open(alloc, workers + 1, capacity) {
        Ok((gate, taker, closer, mut clients)) => match clients.pop() {
            Some(last) => Ok(Opening {
                gate,
                taker,
                closer,
                clients,
                last,
            }),
            None => unreachable!(),
        },
        Err(fault) => Err(GatewayFault::Queue(fault)),
    }
}

// Opens an applier, with the first board that its pages show.
fn open_log(
    alloc: Global,
    table: ObjectTable,
    moment: Moment,
    limit: u32,
) -> Result<(Applier, Mutex<Board>), GatewayFault>
    ensures opened { IfOk result (λ log. log.0 ≡ opened table moment limit) }
    ensures limit { OnOk result (is_limit limit ≡ true) }
    ensures fault { IfErr result (λ fault.
        (workers capacity : ℕ) → IsUnopened workers capacity limit fault) }
{
    match Applier::open(alloc, table, moment, limit) {
        Ok(applier) => match Board::of(alloc, &applier) {
            Ok(board) => Ok((applier, Mutex::new(board))),
            Err(_) => {
                drop(applier);
                Err(GatewayFault::OutOfMemory)
            }
        },
        Err(fault) => {
            let cause = fault.cause;
            drop(fault);
            Err(GatewayFault::Applier(cause))
        }
    }
}

/// A gateway's parts, before its threads start.
#[derive(Drop)]
pub struct Parts {
    pub opening: Opening,
    pub applier: Applier,
    pub collected: Collected,
    pub board: Mutex<Board>,
}

/// Opens an applier at this moment, for a log of so many records, and a gate for so many agents'
/// workers and the operator, and makes room for what the workers return. It fails where the applier or
/// the gate can't be opened, and where memory runs out. Own rule.
pub fn open_parts(
    alloc: Global,
    workers: u32,
    capacity: usize,
    limit: u32,
    table: ObjectTable,
    now: Moment,
) -> Result<Parts, GatewayFault>
    requires { workers ≤ 63 }
    ensures parts { IfOk result (AreParts workers) }
    ensures applier { IfOk result (λ parts. parts.applier ≡ opened table now limit) }
    ensures fault { IfErr result (IsUnopened workers capacity limit) }
{
    let (applier, board) = match open_log(alloc, table, now, limit) {
        Ok(log) => log,
        Err(fault) => return Err(fault),
    };
    let Ok(collected) = Collected::with_room(alloc, workers as usize + 1) else {
        drop(applier);
        drop(board);
        return Err(GatewayFault::OutOfMemory);
    };
    match open_gate(alloc, workers, capacity) {
        Ok(opening) => Ok(Parts {
            opening,
            applier,
            collected,
            board,
        }),
        Err(fault) => {
            drop(applier);
            drop(board);
            drop(collected);
            Err(fault)
        }
    }
}
