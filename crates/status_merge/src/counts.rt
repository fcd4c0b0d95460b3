ghost use Rattle.std.specs.Prelude.{◌≡◌, nat_lt, count_by};
ghost use Rattle.status_merge.specs.Ranks.{is_unhandled, is_made, hosts_in, services_in, counts_of};

use crate::gateway::MergedObject;
use crate::ranks::{is_made, is_unhandled};
use status_reading::State;

/// How many hosts and services are in each state, and how many objects have each mark.
#[derive(Clone, Copy)]
pub struct Counts {
    pub up: usize,
    pub down: usize,
    pub unreachable: usize,
    pub host_pending: usize,
    pub ok: usize,
    pub warning: usize,
    pub critical: usize,
    pub unknown: usize,
    pub service_pending: usize,
    pub stale: usize,
    pub unhandled: usize,
    pub acknowledged: usize,
    pub in_downtime: usize,
    pub objects: usize,
}

fn hosts_in(objects: &[MergedObject<'_>], state: State) -> usize
    ensures { result ≡ hosts_in state objects.now }
{
    objects
        .iter()
        .filter(|object| {
            let found = object.row.state;
            found == state && object.row.service.is_empty()
        })
        .count()
}

fn services_in(objects: &[MergedObject<'_>], state: State) -> usize
    ensures { result ≡ services_in state objects.now }
{
    objects
        .iter()
        .filter(|object| {
            let found = object.row.state;
            found == state && !object.row.service.is_empty()
        })
        .count()
}

fn stale_in(objects: &[MergedObject<'_>]) -> usize
    ensures { result ≡ count_by (λ object. object.row.stale) objects.now }
{
    objects.iter().filter(|object| object.row.stale).count()
}

fn unhandled_in(objects: &[MergedObject<'_>]) -> usize
    ensures { result ≡ count_by is_unhandled objects.now }
{
    objects.iter().filter(|object| is_unhandled(object)).count()
}

fn acknowledged_in(objects: &[MergedObject<'_>]) -> usize
    ensures { result ≡ count_by (λ object. is_made object.row.acknowledgement) objects.now }
{
    objects
        .iter()
        .filter(|object| is_made(object.row.acknowledgement))
        .count()
}

fn downtimes_in(objects: &[MergedObject<'_>]) -> usize
    ensures { result ≡ count_by (λ object. nat_lt 0 object.row.depth) objects.now }
{
    objects.iter().filter(|object| object.row.depth > 0).count()
}

/// Counts objects: hosts and services by their states, and objects by their marks.
pub fn count(objects: &[MergedObject<'_>]) -> Counts
    ensures { result ≡ counts_of objects.now }
{
    Counts {
        up: hosts_in(objects, State::Up),
        down: hosts_in(objects, State::Down),
        unreachable: hosts_in(objects, State::Unreachable),
        host_pending: hosts_in(objects, State::Pending),
        ok: services_in(objects, State::Ok),
        warning: services_in(objects, State::Warning),
        critical: services_in(objects, State::Critical),
        unknown: services_in(objects, State::Unknown),
        service_pending: services_in(objects, State::Pending),
        stale: stale_in(objects),
        unhandled: unhandled_in(objects),
        acknowledged: acknowledged_in(objects),
        in_downtime: downtimes_in(objects),
        objects: objects.len(),
    }
}
