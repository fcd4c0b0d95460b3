//! What a status page says of the gateway that wrote it.

ghost use Rattle.std.specs.Prelude.{◌≡◌, ◌≢◌, IfErr, IfOk, map};
ghost use Rattle.gate_table.specs.Faults.{IsFaultless, IsFaultOf};
ghost use Rattle.operator_restore.specs.Pages.{kept_service, kept_line, kept_lines};

use gate_model::{ObjectLine, Text};
use gate_table::{ObjectTable, TableFault};
use status_reading::{ShownObject, StatusPage, plain_bytes};
use std::alloc::{AllocError, Global};

/// The name of a service that a field shows. A host's is empty.
fn kept_service(alloc: Global, field: &[u8]) -> Result<Option<Text>, AllocError>
    ensures { IfOk result (λ service. service ≡ kept_service field.now) }
{
    if field.is_empty() {
        return Ok(None);
    }
    Ok(Some(Text::new(plain_bytes(alloc, field)?)))
}

/// The line of the object of a row.
fn kept_line(alloc: Global, row: &ShownObject<'_>) -> Result<ObjectLine, AllocError>
    ensures { IfOk result (λ line. line ≡ kept_line row.now) }
{
    Ok(ObjectLine {
        host: Text::new(plain_bytes(alloc, row.host)?),
        service: kept_service(alloc, row.service)?,
        threshold: 0,
    })
}

/// The lines of the objects of these rows.
fn kept_lines(alloc: Global, rows: &[ShownObject<'_>]) -> Result<Vec<ObjectLine>, AllocError>
    ensures { IfOk result (λ lines. lines.items ≡ map kept_line rows.now) }
{
    let mut lines = Vec::with_capacity(alloc, rows.len())?;
    for row in rows {
        let line = kept_line(alloc, row)?;
        lines.push(line)?;
    }
    Ok(lines)
}

/// The objects of the gateway that wrote the page, in its order, and without their freshness, which
/// no page shows. `OutOfMemory` may come in the place of any other answer; the other faults name a
/// row by its number from 1.
pub fn kept_table(alloc: Global, page: &StatusPage<'_>) -> Result<ObjectTable, TableFault>
    ensures table { IfOk result (λ table. table ≡ kept_lines page.now) }
    ensures fault { IfErr result (λ fault.
        fault ≢ TableFault.OutOfMemory → IsFaultOf (kept_lines page.now) fault) }
    ensures faulty { IfErr result (λ fault.
        fault ≢ TableFault.OutOfMemory → ¬ IsFaultless (kept_lines page.now)) }
{
    let Ok(lines) = kept_lines(alloc, page.objects.as_slice()) else {
        return Err(TableFault::OutOfMemory);
    };
    match ObjectTable::build(alloc, lines) {
        Ok(table) => Ok(table),
        Err(refused) => Err(refused.cause),
    }
}
