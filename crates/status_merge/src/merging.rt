ghost use Rattle.std.specs.Prelude.{◌≡◌, ◌<◌, ◌++◌, OnOk, IfOk, length, map, not, false};
ghost use Rattle.std.specs.List.{All, flat_map, list_any, position_or_len};
ghost use Rattle.indexmap.specs.IndexSet.{insert_key};
ghost use Rattle.status_merge.specs.Objects.{counted_age, is_younger, age_of, shown_by, objects_on, merged, is_host_out, with_hosts, unmarked, IsListOf, HasSoundPage, HasOwnState};
ghost use Rattle.status_merge.specs.inner.Hosts.{AreHostsOut, is_of};
ghost use Rattle.status_merge.specs.inner.Names.{key_of, same_key, newer, with_row};

use crate::gateway::{Gateway, MergedObject};
use indexmap::IndexSet;
use status_memory::Since;
use status_reading::ShownObject;
use std::alloc::{AllocError, Global};
use std::collections::HashSet;

/// The names of an object's host and service, which a host has empty.
pub(crate) type Name<'a> = (&'a [u8], &'a [u8]);

// How old the last result is on its page. On an old page 2 to the power of 32 seconds are added.
fn counted_age(object: &MergedObject<'_>) -> Option<u64>
    ensures { result ≡ counted_age object.now }
{
    match object.row.last {
        Some(last) => {
            let age = u64::from(object.moment.saturating_sub(last));
            if object.is_old {
                Some(age + 4_294_967_296)
            } else {
                Some(age)
            }
        }
        None => None,
    }
}

fn is_younger(one: Option<u64>, other: Option<u64>) -> bool
    ensures { result ≡ is_younger one other }
{
    match (one, other) {
        (Some(one), Some(other)) => one < other,
        (Some(_), None) => true,
        (None, _) => false,
    }
}

/// How many seconds old a page is, where it is old; 0 where it is new.
pub fn age_of(gateway: &Gateway<'_>) -> u32
    ensures { result ≡ age_of gateway.now }
{
    match &gateway.old {
        Some(old) => old.age,
        None => 0,
    }
}

// A row of a page, by its index.
fn shown_by<'a>(
    gateway: &Gateway<'a>,
    moment: u32,
    index: usize,
    row: &ShownObject<'a>,
) -> MergedObject<'a>
    ensures { result ≡ shown_by gateway.now moment index row.now }
{
    let since = gateway.since.get(index).copied();
    MergedObject {
        gateway: gateway.name,
        moment: moment.saturating_add(age_of(gateway)),
        is_old: gateway.old.is_some(),
        since: since.unwrap_or(Since {
            moment,
            at_least: true,
            is_held: false,
        }),
        host_is_out: false,
        row: ShownObject {
            stale: row.stale || gateway.old.is_some(),
            ..*row
        },
    }
}

// Adds the objects of a page.
fn add_page<'a>(
    objects: &mut Vec<MergedObject<'a>>,
    gateway: &Gateway<'a>,
) -> Result<(), AllocError>
    ensures { OnOk result (objects.new.items ≡ objects.old.items ++ objects_on gateway.now) }
{
    let Ok(page) = &gateway.page else {
        return Ok(());
    };
    let rows = page.objects.as_slice();
    objects.reserve(rows.len())?;
    for (index, row) in rows.iter().enumerate() {
        objects.push(shown_by(gateway, page.moment, index, row))?;
    }
    Ok(())
}

// The objects of all pages, in their order.
fn objects_of<'a>(
    alloc: Global,
    gateways: &[Gateway<'a>],
) -> Result<Vec<MergedObject<'a>>, AllocError>
    ensures { IfOk result (λ objects. objects.items ≡ flat_map objects_on gateways.now) }
{
    let mut objects = Vec::new(alloc);
    for gateway in gateways {
        add_page(&mut objects, gateway)?;
    }
    Ok(objects)
}

// Adds the name of a row, unless it is among these. Returns its place, and whether it is new.
fn add_name<'a>(
    names: &mut IndexSet<Name<'a>>,
    row: &MergedObject<'a>,
) -> Result<(usize, bool), AllocError>
    ensures names { OnOk result (names.new.keys
        ≡ insert_key same_key names.old.keys (key_of row.now)) }
    ensures place { IfOk result (λ added. added.0
        ≡ position_or_len (same_key (key_of row.now)) names.old.keys) }
    ensures new { IfOk result (λ added. added.1
        ≡ not (list_any (same_key (key_of row.now)) names.old.keys)) }
{
    Ok(names.insert_full((row.row.host, row.row.service))?)
}

// A row, or the one that is known, where the row's last result is no younger.
fn newer<'a>(row: &MergedObject<'a>, known: &MergedObject<'a>) -> MergedObject<'a>
    ensures { result ≡ newer row.now known.now }
{
    if is_younger(counted_age(row), counted_age(known)) {
        *row
    } else {
        *known
    }
}

// Takes in a row: last where its name is new, and else at the place of its name.
fn take_in<'a>(
    shown: &mut Vec<MergedObject<'a>>,
    place: usize,
    is_new: bool,
    row: &MergedObject<'a>,
) -> Result<(), AllocError>
    requires { is_new ≡ false → place < length shown.old.items }
    ensures { OnOk result (shown.new.items ≡ with_row shown.old.items place is_new row.now) }
{
    if is_new {
        shown.push(*row)?;
    } else {
        shown[place] = newer(row, &shown[place]);
    }
    Ok(())
}

// Each name of the rows once, by the row with the youngest result.
fn latest_rows<'a>(
    alloc: Global,
    rows: &[MergedObject<'a>],
) -> Result<Vec<MergedObject<'a>>, AllocError>
    ensures { IfOk result (λ found. found.items ≡ merged rows.now) }
{
    let mut names = IndexSet::with_capacity(alloc, rows.len())?;
    let mut shown = Vec::with_capacity(alloc, rows.len())?;
    for row in rows {
        let (place, is_new) = add_name(&mut names, row)?;
        take_in(&mut shown, place, is_new, row)?;
    }
    Ok(shown)
}

fn is_host_out(object: &MergedObject<'_>) -> bool
    ensures { result ≡ is_host_out object.now }
{
    object.row.service.is_empty() && (object.row.state.is_problem() || object.row.depth > 0)
}

// The names of the hosts that are DOWN, UNREACHABLE or in downtime.
fn hosts_out<'a>(
    alloc: Global,
    objects: &[MergedObject<'a>],
) -> Result<HashSet<&'a [u8]>, AllocError>
    ensures { IfOk result (λ found. AreHostsOut objects.now found) }
{
    let mut found = HashSet::new(alloc);
    for object in objects {
        if is_host_out(object) {
            found.insert(object.row.host)?;
        }
    }
    Ok(found)
}

// Whether an object is a service of one of these hosts.
fn is_of(out: &HashSet<&[u8]>, object: &MergedObject<'_>) -> bool
    ensures { result ≡ is_of out.now object.now }
{
    !object.row.service.is_empty() && out.contains(&object.row.host)
}

// The objects, each with whether its host is out.
fn with_hosts<'a>(
    alloc: Global,
    objects: &[MergedObject<'a>],
) -> Result<Vec<MergedObject<'a>>, AllocError>
    ensures { IfOk result (λ found. found.items ≡ with_hosts objects.now) }
{
    let out = hosts_out(alloc, objects)?;
    let mut found = Vec::with_capacity(alloc, objects.len())?;
    for object in objects {
        found.push(MergedObject {
            host_is_out: is_of(&out, object),
            ..*object
        })?;
    }
    Ok(found)
}

/// The objects of all pages, each once, in the order in which the pages name them first, each with
/// whether its host is DOWN, UNREACHABLE or in downtime. Those of an old page are stale.
///
/// Where several rows are of one name, one without a result is shown only where none has one. Of those
/// with a result one of a page that isn't old goes before one of an old page, and then the one whose
/// result is the youngest by its own page's moment; of equals the first. The only error is out of
/// memory.
pub fn merge<'a>(
    alloc: Global,
    gateways: &[Gateway<'a>],
) -> Result<Vec<MergedObject<'a>>, AllocError>
    ensures merged { IfOk result (λ found.
        found.items ≡ with_hosts (merged (flat_map objects_on gateways.now))) }
    ensures lists { IfOk result (λ found.
        IsListOf (flat_map objects_on gateways.now) (map unmarked found.items)) }
    ensures own { IfOk result (λ found. All HasSoundPage gateways.now
        → All HasOwnState found.items) }
{
    let rows = objects_of(alloc, gateways)?;
    let merged = latest_rows(alloc, rows.as_slice())?;
    with_hosts(alloc, merged.as_slice())
}
