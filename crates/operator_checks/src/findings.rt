//! What is found of a gateway.

ghost use Rattle.std.specs.Prelude.{◌≡◌, ◌++◌, OnOk, count_by, codes};
ghost use Rattle.std.specs.Fmt.{decimal};
ghost use Rattle.gate_model.specs.State.{is_problem};
ghost use Rattle.operator_checks.specs.Findings.{figures_of, figures_text, finding_text, named, port_name, silence, weight};

use gate_model::push_number;
use status_merge::{MergedObject, count};
use std::alloc::AllocError;

/// A port that is asked beside that of the pages.
#[derive(Clone, Copy)]
pub enum Port {
    Agents,
    Operators,
}

/// How many objects a page shows, and how many of them are problems, unhandled ones, and stale.
#[derive(Clone, Copy)]
pub struct Figures {
    pub objects: usize,
    pub problems: usize,
    pub unhandled: usize,
    pub stale: usize,
}

/// What is so of a gateway of a name, or of a port at an address.
#[derive(Clone, Copy)]
pub enum Finding<'a> {
    /// OK: the page shows this.
    Serves(&'a [u8], Figures),
    /// WARNING: it shows this, and that the gateway is shutting down.
    Closes(&'a [u8], Figures),
    /// CRITICAL: its moment is so many seconds ago.
    StandsStill(&'a [u8], u64, Figures),
    /// CRITICAL: no page came from the address.
    NoPage(&'a [u8], &'a [u8]),
    /// WARNING: none came in time.
    SlowPage(&'a [u8], &'a [u8]),
    /// UNKNOWN: what came is no page.
    OtherPage(&'a [u8], &'a [u8]),
    /// CRITICAL: no greeting or answer came from the address.
    Silent(Port, &'a [u8]),
    /// WARNING: none came in time.
    Slow(Port, &'a [u8]),
    /// UNKNOWN: it is no address.
    BadAddress(&'a [u8]),
    /// WARNING: the page can't be kept in this file.
    Unkept(&'a [u8]),
}

fn problems_in(objects: &[MergedObject<'_>]) -> usize
    ensures { result ≡ count_by (λ object. is_problem object.row.state) objects.now }
{
    objects
        .iter()
        .filter(|object| object.row.state.is_problem())
        .count()
}

/// Counts the objects of a page.
pub fn figures_of(objects: &[MergedObject<'_>]) -> Figures
    ensures { result ≡ figures_of objects.now }
{
    let counts = count(objects);
    Figures {
        objects: counts.objects,
        problems: problems_in(objects),
        unhandled: counts.unhandled,
        stale: counts.stale,
    }
}

fn push_count(out: &mut Vec<u8>, number: u64, what: &[u8]) -> Result<(), AllocError>
    ensures { OnOk result (out.new.items ≡ out.old.items ++ (decimal number ++ what.now)) }
{
    push_number(out, number)?;
    out.extend_from_slice(what)
}

fn push_figures(out: &mut Vec<u8>, figures: Figures) -> Result<(), AllocError>
    ensures { OnOk result (out.new.items ≡ out.old.items ++ figures_text figures) }
{
    push_count(out, figures.objects as u64, b" objects, ")?;
    push_count(out, figures.problems as u64, b" problems, ")?;
    push_count(out, figures.unhandled as u64, b" unhandled, ")?;
    push_count(out, figures.stale as u64, b" stale")
}

fn port_name(port: Port) -> &'static [u8]
    ensures { result.now ≡ port_name port }
{
    match port {
        Port::Agents => b"the agents' port ",
        Port::Operators => b"the operators' port ",
    }
}

fn silence(port: Port) -> &'static [u8]
    ensures { result.now ≡ silence port }
{
    match port {
        Port::Agents => b" greets nobody",
        Port::Operators => b" answers nobody",
    }
}

fn push_three(out: &mut Vec<u8>, one: &[u8], two: &[u8], three: &[u8]) -> Result<(), AllocError>
    ensures { OnOk result (out.new.items ≡ out.old.items ++ (one.now ++ two.now ++ three.now)) }
{
    out.extend_from_slice(one)?;
    out.extend_from_slice(two)?;
    out.extend_from_slice(three)
}

// Appends that a page has stood still for so long.
fn push_still(out: &mut Vec<u8>, seconds: u64) -> Result<(), AllocError>
    ensures { OnOk result (out.new.items ≡ out.old.items
        ++ (codes "its page has stood still for " ++ decimal seconds
        ++ codes " seconds, as with a full log; ")) }
{
    out.extend_from_slice(b"its page has stood still for ")?;
    push_count(out, seconds, b" seconds, as with a full log; ")
}

fn push_two(out: &mut Vec<u8>, one: &[u8], two: &[u8]) -> Result<(), AllocError>
    ensures { OnOk result (out.new.items ≡ out.old.items ++ (one.now ++ two.now)) }
{
    out.extend_from_slice(one)?;
    out.extend_from_slice(two)
}

/// Appends what is found.
pub fn push_finding(out: &mut Vec<u8>, finding: &Finding<'_>) -> Result<(), AllocError>
    ensures { OnOk result (out.new.items ≡ out.old.items ++ finding_text finding.now) }
{
    match finding {
        Finding::Serves(name, figures) => {
            push_two(out, name, b": ")?;
            push_figures(out, *figures)
        }
        Finding::Closes(name, figures) => {
            push_three(out, name, b": ", b"shutting down; ")?;
            push_figures(out, *figures)
        }
        Finding::StandsStill(name, seconds, figures) => {
            push_two(out, name, b": ")?;
            push_still(out, *seconds)?;
            push_figures(out, *figures)
        }
        Finding::NoPage(name, address) => {
            push_two(out, name, b": ")?;
            push_two(out, b"no page came from ", address)
        }
        Finding::SlowPage(name, address) => {
            push_two(out, name, b": ")?;
            push_three(out, b"the pages port ", address, b" is slow")
        }
        Finding::OtherPage(name, address) => {
            push_two(out, name, b": ")?;
            push_two(out, b"no status page came from ", address)
        }
        Finding::Silent(port, address) => {
            push_three(out, port_name(*port), address, silence(*port))
        }
        Finding::Slow(port, address) => push_three(out, port_name(*port), address, b" is slow"),
        Finding::BadAddress(address) => push_two(out, address, b" is no IP address with a port"),
        Finding::Unkept(file) => push_two(out, b"the page can't be kept in ", file),
    }
}

/// How bad it is: 0 OK, 1 WARNING, 2 UNKNOWN, 3 CRITICAL.
pub fn weight(finding: &Finding<'_>) -> u8
    ensures { result ≡ weight finding.now }
{
    match finding {
        Finding::Serves(..) => 0,
        Finding::Closes(..) | Finding::SlowPage(..) | Finding::Slow(..) | Finding::Unkept(_) => 1,
        Finding::OtherPage(..) | Finding::BadAddress(_) => 2,
        Finding::StandsStill(..) | Finding::NoPage(..) | Finding::Silent(..) => 3,
    }
}
