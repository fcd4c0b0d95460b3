//! What is restored, of the files that were kept.

ghost use Rattle.std.specs.Prelude.{Bool, IfOk};
ghost use Rattle.operator_restoring.specs.Restored.{IsPlannedAt};

use crate::restore_fault::RestoreFault;
use gate_model::Moment;
use gate_table::ObjectTable;
use kept_files::{is_newer, read_file};
use operator_commands::Options;
use operator_restore::{Prospect, Tables, look_ahead, look_ahead_by_page};
use operator_setup::configuration;
use std::alloc::Global;
use std::fs::Files;

/// The paths of what was kept, and whether a page without a log may be old.
#[derive(Clone, Copy)]
pub struct KeptFiles<'a> {
    pub page: &'a str,
    pub log: Option<&'a str>,
    pub old: bool,
}

// The objects of the configuration, which was read before.
fn table_in<F: Files>(
    files: &F,
    alloc: Global,
    options: &Options,
) -> Result<ObjectTable, RestoreFault> {
    match configuration(files, alloc, options) {
        Ok(config) => Ok(config.table),
        Err(_) => Err(RestoreFault::Unreadable),
    }
}

fn tables_of<F: Files>(
    files: &F,
    alloc: Global,
    options: &Options,
) -> Result<Tables, RestoreFault> {
    Ok(Tables {
        fresh: table_in(files, alloc, options)?,
        of_log: table_in(files, alloc, options)?,
    })
}

// The kept log: that of the words, or else the one that `stop` kept beside the page, unless the page
// is newer.
fn log_text<F: Files>(
    files: &F,
    alloc: Global,
    kept: KeptFiles<'_>,
) -> Result<Option<Vec<u8>>, RestoreFault> {
    if let Some(path) = kept.log {
        return match read_file(files, alloc, path) {
            Ok(text) => Ok(Some(text)),
            Err(_) => Err(RestoreFault::Unreadable),
        };
    }
    let page = kept.page;
    let beside = format!(in alloc; "{page}.log")?;
    if is_newer(files, page, beside.as_str()).unwrap_or(false) {
        return Ok(None);
    }
    Ok(read_file(files, alloc, beside.as_str()).ok())
}

fn by_log(
    alloc: Global,
    tables: Tables,
    page: &[u8],
    printed: &[u8],
    now: Moment,
) -> Result<Prospect, RestoreFault>
    ensures { IfOk result (λ found. (old : Bool) → IsPlannedAt old now found) }
{
    let prospect = look_ahead(alloc, tables, page, printed, now)?;
    Ok(prospect)
}

fn by_page(
    alloc: Global,
    fresh: ObjectTable,
    text: &[u8],
    old: bool,
    now: Moment,
) -> Result<Prospect, RestoreFault>
    ensures { IfOk result (IsPlannedAt old now) }
{
    let prospect = look_ahead_by_page(alloc, fresh, text, old, now)?;
    Ok(prospect)
}

// The plan of a printed log, and of the kept page, where there is one.
fn by_printed<F: Files>(
    files: &F,
    alloc: Global,
    options: &Options,
    page: &str,
    printed: &[u8],
    now: Moment,
) -> Result<Prospect, RestoreFault>
    ensures { IfOk result (λ found. (old : Bool) → IsPlannedAt old now found) }
{
    let tables = tables_of(files, alloc, options)?;
    match read_file(files, alloc, page) {
        Ok(text) => by_log(alloc, tables, text.as_slice(), printed, now),
        Err(_) => by_log(alloc, tables, b"", printed, now),
    }
}

// The plan of the kept page alone.
fn by_kept<F: Files>(
    files: &F,
    alloc: Global,
    options: &Options,
    kept: KeptFiles<'_>,
    now: Moment,
) -> Result<Prospect, RestoreFault>
    ensures { IfOk result (IsPlannedAt kept.entry.old now) }
{
    let fresh = table_in(files, alloc, options)?;
    match read_file(files, alloc, kept.page) {
        Ok(text) => by_page(alloc, fresh, text.as_slice(), kept.old, now),
        Err(_) => Err(RestoreFault::Unreadable),
    }
}

/// What is restored, planned at this moment.
pub fn prospect_of<F: Files>(
    files: &F,
    alloc: Global,
    options: &Options,
    kept: KeptFiles<'_>,
    now: Moment,
) -> Result<Prospect, RestoreFault>
    ensures { IfOk result (IsPlannedAt kept.entry.old now) }
{
    match log_text(files, alloc, kept)? {
        Some(printed) => by_printed(files, alloc, options, kept.page, printed.as_slice(), now),
        None => by_kept(files, alloc, options, kept, now),
    }
}
