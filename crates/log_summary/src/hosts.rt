//! Refused records by their reason and their host.

ghost use Rattle.std.specs.Prelude.{◌≡◌, ◌==◌, ◌<◌, ◌++◌, ◌∷◌, [], length, not, if◌then◌else◌, IfOk, OnOk};
ghost use Rattle.std.specs.List.{after_first, before_first, list_any, position_or_len};
ghost use Rattle.std.specs.Str.{bytes_eq};
ghost use Rattle.indexmap.specs.IndexSet.{insert_key};
ghost use Rattle.log_summary.specs.Summary.{is_of_id, host_of, by_host, refusals};
ghost use Rattle.log_summary.specs.inner.Groups.{values_in, hosts_in, groups_in, with_one_more};

use crate::counting::with_outcome;
use gate_model::Outcome;
use indexmap::IndexSet;
use log_reading::Logged;
use memchr::memchr;
use std::alloc::{AllocError, Global};

/// Why a record is refused.
pub const REASONS: [Outcome; 12] = [
    Outcome::NoSuchHost,
    Outcome::NoSuchService,
    Outcome::PassiveDisabled,
    Outcome::NoServices,
    Outcome::NoSuchComment,
    Outcome::NoSuchDowntime,
    Outcome::WrongKind,
    Outcome::NoProblem,
    Outcome::NotAcknowledged,
    Outcome::BadWindow,
    Outcome::WindowPast,
    Outcome::NoSuchTrigger,
];

// What stands after the first semicolon.
fn after_mark(text: &[u8]) -> &[u8]
    ensures { result.now ≡ after_first (λ byte. byte == 59) text.now }
{
    match memchr(b';', text) {
        Some(index) => &text[index + 1..],
        None => &[],
    }
}

fn before_mark(text: &[u8]) -> &[u8]
    ensures { result.now ≡ before_first (λ byte. byte == 59) text.now }
{
    match memchr(b';', text) {
        Some(index) => &text[..index],
        None => text,
    }
}

fn is_of_id(outcome: Outcome) -> bool
    ensures { result ≡ is_of_id outcome }
{
    matches!(
        outcome,
        Outcome::NoSuchComment | Outcome::NoSuchDowntime | Outcome::WrongKind
    )
}

/// The host of a record that was refused; no bytes where there is none.
pub fn host_of(one: &Logged) -> &[u8]
    ensures { result.now ≡ host_of one.now }
{
    match one {
        Logged::Accepted(_) => &[],
        Logged::Refused(refusal) if is_of_id(refusal.outcome) => &[],
        Logged::Refused(refusal) => before_mark(after_mark(refusal.command.bytes())),
    }
}

// Adds a host, unless it is among these. Returns its index, and whether it is new.
fn add_host<'a>(hosts: &mut IndexSet<&'a [u8]>, host: &'a [u8]) -> Result<(usize, bool), AllocError>
    ensures hosts { OnOk result (hosts_in hosts.new.keys
        ≡ insert_key bytes_eq (hosts_in hosts.old.keys) host.entry.now) }
    ensures index { IfOk result (λ added. added.0
        ≡ position_or_len (bytes_eq host.entry.now) (hosts_in hosts.old.keys)) }
    ensures new { IfOk result (λ added. added.1
        ≡ not (list_any (bytes_eq host.entry.now) (hosts_in hosts.old.keys))) }
{
    Ok(hosts.insert_full(host)?)
}

// Begins a group, where the host is new.
fn begin<'a>(
    alloc: Global,
    groups: &mut Vec<Vec<&'a Logged>>,
    is_new: bool,
) -> Result<(), AllocError>
    ensures { OnOk result (groups_in groups.new.items
        ≡ (if is_new then groups_in groups.old.items ++ [] ∷ [] else groups_in groups.old.items)) }
{
    if is_new {
        groups.push(Vec::new(alloc))?;
    }
    Ok(())
}

// Adds a record to the group at this index.
fn add_to<'a>(
    groups: &mut [Vec<&'a Logged>],
    index: usize,
    one: &'a Logged,
) -> Result<(), AllocError>
    requires { index < length groups.old }
    ensures { OnOk result (groups_in groups.new
        ≡ with_one_more (groups_in groups.old) index one.entry.now) }
{
    groups[index].push(one)?;
    Ok(())
}

// The records of each host, the hosts in the order of their first ones.
fn by_host<'a>(alloc: Global, log: &[&'a Logged]) -> Result<Vec<Vec<&'a Logged>>, AllocError>
    ensures { IfOk result (λ groups. groups_in groups.items ≡ by_host (values_in log.now)) }
{
    let mut hosts: IndexSet<&[u8]> = IndexSet::new(alloc);
    let mut groups = Vec::new(alloc);
    for one in log {
        let (index, is_new) = add_host(&mut hosts, host_of(one))?;
        begin(alloc, &mut groups, is_new)?;
        add_to(&mut groups, index, one)?;
    }
    Ok(groups)
}

/// The records that were refused: those of each reason, of each host, the hosts in the order of
/// their first ones. The only error is out of memory.
pub fn refusals<'a>(alloc: Global, log: &'a [Logged]) -> Result<Vec<Vec<&'a Logged>>, AllocError>
    ensures { IfOk result (λ groups. groups_in groups.items ≡ refusals log.now) }
{
    let mut groups = Vec::new(alloc);
    for reason in &REASONS {
        let found = with_outcome(alloc, log, *reason)?;
        let mut more = by_host(alloc, &found)?;
        groups.append(&mut more)?;
    }
    Ok(groups)
}
