//! What the page says of a form where a gateway hasn't taken it.
ghost use Rattle.std.specs.Prelude.{◌≡◌, ◌++◌, map, IfOk, OnOk};
ghost use Rattle.statusdesk.specs.Notes.{said_view};
ghost use Rattle.statusdesk.specs.Said.{is_for, is_taken, done_words, said_at_gateway, said_of, alarm, names_of, or_nowhere, said_of_mark, said_of_marks, said_of_fault};
ghost use Rattle.statusdesk.specs.Marking.{dones_in};

use crate::commanding::Done;
use crate::notes::Said;
use desk_forms::{FormFault, after_byte, before_byte};
use desk_sending::push_objection;
use gate_model::Text;
use page_watching::Seen;
use std::alloc::{AllocError, Global};

fn is_for(done: &Done<'_>) -> bool
    ensures { result ≡ is_for done.now }
{
    match done {
        Done::NotAsked => false,
        _ => true,
    }
}

/// Whether its outbox has taken in the order.
pub fn is_taken(done: &Done<'_>) -> bool
    ensures { result ≡ is_taken done.now }
{
    match done {
        Done::Taken(_) => true,
        _ => false,
    }
}

// Appends what became of a form at a gateway.
fn push_words(out: &mut Vec<u8>, done: &Done<'_>) -> Result<(), AllocError>
    ensures { OnOk result (out.new.items ≡ out.old.items ++ done_words done.now) }
{
    match done {
        Done::NotAsked => Ok(()),
        Done::Objected(objection) => {
            out.extend_from_slice(b"not sent: ")?;
            push_objection(out, objection)
        }
        Done::Untaken(fault) => {
            out.extend_from_slice(b"not sent: ")?;
            out.extend_from_slice(fault.words().as_bytes())
        }
        Done::Taken(_) => out.extend_from_slice(b"being sent"),
    }
}

fn said_at_gateway<'t>(
    alloc: Global,
    names: &[u8],
    seen: &'t Seen<'_>,
    done: &Done<'_>,
) -> Result<Said<'t>, AllocError>
    ensures { IfOk result (λ said. said_view said ≡ said_at_gateway names.now seen.entry.now done.now) }
{
    let mut text = Vec::from_slice(alloc, names)?;
    push_words(&mut text, done)?;
    Ok(Said {
        gateway: seen.place.name,
        text: Text::new(text),
        is_settled: true,
        is_alarm: !is_taken(done),
    })
}

/// What is said of a form at the gateways, after these names.
pub fn said_of<'t>(
    alloc: Global,
    names: &[u8],
    seen: &'t [Seen<'_>],
    all: &[Done<'_>],
) -> Result<Vec<Said<'t>>, AllocError>
    ensures { IfOk result (λ said.
        map said_view said.items ≡ said_of names.now seen.entry.now all.now) }
{
    let mut said = Vec::new(alloc);
    for (one, done) in seen.iter().zip(all.iter()) {
        if is_for(done) {
            said.push(said_at_gateway(alloc, names, one, done)?)?;
        }
    }
    Ok(said)
}

fn alarm<'t>(text: Vec<u8>) -> Said<'t>
    ensures { said_view result ≡ alarm text.items }
{
    Said {
        gateway: "",
        text: Text::new(text),
        is_settled: true,
        is_alarm: true,
    }
}

// The names of a mark's object.
fn names_of(alloc: Global, mark: &[u8]) -> Result<Vec<u8>, AllocError>
    ensures { IfOk result (λ names. names.items ≡ names_of mark.now) }
{
    let mut names = Vec::from_slice(alloc, before_byte(mark, b';'))?;
    let service = after_byte(mark, b';');
    if !service.is_empty() {
        names.push(b' ')?;
        names.extend_from_slice(service)?;
    }
    names.extend_from_slice(b": ")?;
    Ok(names)
}

// These, or that no gateway shows the mark's object.
fn or_nowhere<'t>(mut names: Vec<u8>, mut said: Vec<Said<'t>>) -> Result<Vec<Said<'t>>, AllocError>
    ensures { IfOk result (λ all. map said_view all.items
        ≡ or_nowhere names.items (map said_view said.entry.items)) }
{
    if said.is_empty() {
        names.extend_from_slice(b"not sent: no gateway shows it")?;
        said.push(alarm(names))?;
    }
    Ok(said)
}

// What is said of the form for a mark.
fn said_of_mark<'t>(
    alloc: Global,
    seen: &'t [Seen<'_>],
    mark: &[u8],
    all: &[Done<'_>],
) -> Result<Vec<Said<'t>>, AllocError>
    ensures { IfOk result (λ said.
        map said_view said.items ≡ said_of_mark seen.entry.now (mark.now, all.now)) }
{
    let names = names_of(alloc, mark)?;
    let said = said_of(alloc, names.as_slice(), seen, all)?;
    or_nowhere(names, said)
}

// Appends these.
fn push_all<'t>(more: Vec<Said<'t>>, said: &mut Vec<Said<'t>>) -> Result<(), AllocError>
    ensures { OnOk result (map said_view said.new.items
        ≡ map said_view said.old.items ++ map said_view more.entry.items) }
{
    for one in more {
        said.push(one)?;
    }
    Ok(())
}

/// What is said of the forms for these marks.
pub fn said_of_marks<'t>(
    alloc: Global,
    seen: &'t [Seen<'_>],
    marks: &[&[u8]],
    all: &[Vec<Done<'_>>],
) -> Result<Vec<Said<'t>>, AllocError>
    ensures { IfOk result (λ said. map said_view said.items
        ≡ said_of_marks seen.entry.now (map (λ mark. mark.now) marks.now) (dones_in all.now)) }
{
    let mut said = Vec::new(alloc);
    for (mark, one) in marks.iter().zip(all.iter()) {
        push_all(said_of_mark(alloc, seen, *mark, one.as_slice())?, &mut said)?;
    }
    Ok(said)
}

/// What is said of a form without marks that count.
pub fn said_of_fault<'t>(alloc: Global, fault: FormFault) -> Result<Vec<Said<'t>>, AllocError>
    ensures { IfOk result (λ said. map said_view said.items ≡ said_of_fault fault) }
{
    let mut said = Vec::new(alloc);
    said.push(alarm(Vec::from_slice(alloc, fault.words().as_bytes())?))?;
    Ok(said)
}
