//! The lines of the object table, from the hosts of a document.

ghost use Rattle.std.specs.Prelude.{◌≡◌, ◌++◌, IfOk, IfErr, OnOk, Some, None};
ghost use Rattle.std.specs.List.{flat_map};
ghost use Rattle.std.specs.Option.{option_copied};
ghost use Rattle.toml.specs.View.{table_view, view};
ghost use Rattle.toml.specs.Data.{as_table};
ghost use Rattle.gate_config.specs.declared.fault.ConfigFault.TheVariants.{BadValue};
ghost use Rattle.gate_config.specs.Document.{line_of, host_checks, service_checks, host_lines, service_lines, number_at};
ghost use Rattle.gate_config.specs.Check.{AllPass, IsFirstFault};

use crate::fault::ConfigFault;
use crate::key::Key;
use crate::values;
use gate_model::{ObjectLine, Text};
use std::alloc::{AllocError, Global};
use toml::{Table, Value};

const HOST_KEYS: [Key; 3] = [Key::Name, Key::Freshness, Key::Service];

const SERVICE_KEYS: [Key; 2] = [Key::Name, Key::Freshness];

fn line(
    alloc: Global,
    host: &str,
    service: Option<&str>,
    threshold: u32,
) -> Result<ObjectLine, AllocError>
    ensures { IfOk result (λ line.
        line ≡ line_of host.now (option_copied service.entry) threshold) }
{
    let host = Text::copied(alloc, host.as_bytes())?;
    let service = match service {
        Some(service) => Some(Text::copied(alloc, service.as_bytes())?),
        None => None,
    };
    Ok(ObjectLine {
        host,
        service,
        threshold,
    })
}

/// The seconds for which a result of a host or a service is fresh.
fn threshold(table: &Table) -> Result<u32, ConfigFault>
    ensures threshold { IfOk result (λ threshold.
        number_at (table_view table.now) Key.Freshness ≡ Some threshold) }
    ensures bad { IfErr result (λ fault. (fault ≡ BadValue Key.Freshness)
        × (number_at (table_view table.now) Key.Freshness ≡ None)) }
{
    values::number(table, Key::Freshness, 0, u32::MAX, 0)
}

// Appends the line of a service of this host.
fn push_service(
    alloc: Global,
    lines: &mut Vec<ObjectLine>,
    host: &str,
    row: &Value,
) -> Result<(), ConfigFault>
    ensures lines { OnOk result (lines.new.items
        ≡ lines.old.items ++ service_lines host.now (as_table (view row.now))) }
    ensures passed { OnOk result (AllPass (service_checks (as_table (view row.now)))) }
    ensures failed { IfErr result (IsFirstFault (service_checks (as_table (view row.now)))) }
{
    let Some(service) = row.as_table() else {
        return Ok(());
    };
    values::check_keys(alloc, service, SERVICE_KEYS.as_slice())?;
    let name = values::name(service)?;
    let threshold = threshold(service)?;
    lines.push(line(alloc, host, Some(name), threshold)?)?;
    Ok(())
}

fn push_services(
    alloc: Global,
    lines: &mut Vec<ObjectLine>,
    host: &str,
    rows: &[Value],
) -> Result<(), ConfigFault>
    ensures lines { OnOk result (lines.new.items ≡ lines.old.items
        ++ flat_map (λ row. service_lines host.now (as_table (view row))) rows.now) }
    ensures passed { OnOk result (AllPass
        (flat_map (λ row. service_checks (as_table (view row))) rows.now)) }
    ensures failed { IfErr result (IsFirstFault
        (flat_map (λ row. service_checks (as_table (view row))) rows.now)) }
{
    for row in rows {
        push_service(alloc, lines, host, row)?;
    }
    Ok(())
}

// Appends the line of a host and those of its services.
fn push_host(alloc: Global, lines: &mut Vec<ObjectLine>, row: &Value) -> Result<(), ConfigFault>
    ensures lines { OnOk result (lines.new.items
        ≡ lines.old.items ++ host_lines (as_table (view row.now))) }
    ensures passed { OnOk result (AllPass (host_checks (as_table (view row.now)))) }
    ensures failed { IfErr result (IsFirstFault (host_checks (as_table (view row.now)))) }
{
    let Some(host) = row.as_table() else {
        return Ok(());
    };
    values::check_keys(alloc, host, HOST_KEYS.as_slice())?;
    let name = values::name(host)?;
    let threshold = threshold(host)?;
    let services = values::tables(host, Key::Service)?;
    lines.push(line(alloc, name, None, threshold)?)?;
    push_services(alloc, lines, name, services)
}

/// The lines of the object table that these hosts give.
pub(crate) fn read_hosts(alloc: Global, rows: &[Value]) -> Result<Vec<ObjectLine>, ConfigFault>
    ensures lines { IfOk result (λ lines.
        lines.items ≡ flat_map (λ row. host_lines (as_table (view row))) rows.now) }
    ensures passed { OnOk result (AllPass
        (flat_map (λ row. host_checks (as_table (view row))) rows.now)) }
    ensures failed { IfErr result (IsFirstFault
        (flat_map (λ row. host_checks (as_table (view row))) rows.now)) }
{
    let mut lines = Vec::new(alloc);
    for row in rows {
        push_host(alloc, &mut lines, row)?;
    }
    Ok(lines)
}
