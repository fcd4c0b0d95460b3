ghost use Rattle.std.specs.Prelude.{◌≡◌, [], IfSome};

use gate_applier::Applier;
use gate_model::Moment;
use gate_queue::{Client, Closer, Gate, Taker, open};
use gate_table::ObjectTable;
use std::alloc::Global;
use std::io::Write;

/// A gate of one client, whose queue has room for so many items. Why it can't be opened is printed.
pub fn one_client(
    alloc: Global,
    capacity: usize,
    shown: &mut Vec<u8>,
) -> Option<(Gate, Taker, Closer, Client)>
    ensures taker { IfSome result (λ opened.
        (opened.1.gate ≡ opened.0) × (opened.1.taken ≡ [])) }
    ensures closer { IfSome result (λ opened. opened.2.cell ≡ opened.0.cell) }
    ensures client { IfSome result (λ opened.
        (opened.3.gate ≡ opened.0) × (opened.3.queued ≡ [])) }
{
    match open(alloc, 1, capacity) {
        Ok((gate, taker, closer, mut clients)) => {
            let client = clients.pop()?;
            Some((gate, taker, closer, client))
        }
        Err(fault) => {
            let _ = writeln!(shown, "open: {fault:?}");
            None
        }
    }
}

/// A gate of two clients. Why it can't be opened is printed.
pub fn two_clients(
    alloc: Global,
    shown: &mut Vec<u8>,
) -> Option<(Gate, Taker, Closer, Client, Client)>
    ensures taker { IfSome result (λ opened.
        (opened.1.gate ≡ opened.0) × (opened.1.taken ≡ [])) }
    ensures closer { IfSome result (λ opened. opened.2.cell ≡ opened.0.cell) }
    ensures one { IfSome result (λ opened. opened.3.gate ≡ opened.0) }
    ensures two { IfSome result (λ opened. opened.4.gate ≡ opened.0) }
{
    match open(alloc, 2, 16) {
        Ok((gate, taker, closer, mut clients)) => {
            let two = clients.pop()?;
            let one = clients.pop()?;
            Some((gate, taker, closer, one, two))
        }
        Err(fault) => {
            let _ = writeln!(shown, "open: {fault:?}");
            None
        }
    }
}

/// No objects, so that each record is refused as one of an object that isn't known. Why there is no
/// table is printed.
pub fn no_objects(alloc: Global, shown: &mut Vec<u8>) -> Option<ObjectTable> {
    match ObjectTable::build(alloc, Vec::new(alloc)) {
        Ok(table) => Some(table),
        Err(fault) => {
            let _ = writeln!(shown, "build: {:?}", fault.cause);
            None
        }
    }
}

/// An applier without objects, for so many records. Why it can't be opened is printed.
pub fn applier(alloc: Global, limit: u32, shown: &mut Vec<u8>) -> Option<Applier>
    ensures { IfSome result (λ applier. applier.records ≡ []) }
{
    match Applier::open(alloc, no_objects(alloc, shown)?, Moment(1000), limit) {
        Ok(applier) => Some(applier),
        Err(fault) => {
            let _ = writeln!(shown, "applier: {:?}", fault.cause);
            None
        }
    }
}
