//! The table of monitored objects.

ghost use Rattle.std.specs.Prelude.{◌≡◌, ◌≢◌, ◌<◌, ◌≤◌, ℕ, List, length, map, slice_get, option_copied, IfErr, IfOk, IfSome, MatchResult, None, Some, true, false, ◌↔◌, IsTrue};
ghost use Rattle.gate_table.specs.declared.table.TableFault.TheVariants.{OutOfMemory};
ghost use Rattle.gate_model.specs.declared.object.Kind.TheVariants.{Service};
ghost use Rattle.gate_model.specs.declared.record.Outcome.{Outcome};
ghost use Rattle.gate_model.specs.Table.{has_object, object_at, object_kind, object_of, place_of, services_of, services_at, most_services};
ghost use Rattle.gate_table.specs.Faults.{IsFaultless, IsFaultOf};
ghost use Rattle.gate_model.specs.Record.{is_accepted};
ghost use Rattle.gate_model.specs.Meaning.{outcome_for};
ghost use Rattle.gate_table.specs.inner.NamedObjects.{IsTable};
ghost use Rattle.std.specs.Option.{option_copied};
ghost use Rattle.gate_model.specs.declared.object.ObjectLine.{ObjectLine};

use crate::named_objects::NamedObjects;
use crate::services::Services;
use crate::table_builder::TableBuilder;
use gate_model::{Kind, LINES, Name, ObjectId, ObjectLine, Outcome};
use std::alloc::Global;
use std::error::Error;
use std::fmt;
use std::marker::Model;

/// Why lines are no table: what is wrong with the first faulty line, which is given by its number,
/// from 1. The faults of one line are tested in this order. Own rule.
///
/// It is shown as a short phrase, for example "line 3: a host of that name stands before it".
#[derive(Clone, Copy, Debug)]
pub enum TableFault {
    /// A name is empty or too long (a host's has at most 63 bytes, a service's 127), begins or ends
    /// with a space, or contains `;` or a control byte.
    BadName(u32),
    /// No host of that name is before the service.
    NoSuchHost(u32),
    /// A host of that name is before it.
    DuplicateHost(u32),
    /// A service of that name, of the same host, is before it.
    DuplicateService(u32),
    /// It is the 1,025th host, or the 1,025th service of its host. Line 0 stands for the whole
    /// list, which has more than 16,384 lines.
    TooMany(u32),
    /// Memory ran out at a line. Neither it nor one before it is faulty.
    OutOfMemory,
}

impl TableFault {
    /// The number of the faulty line, where it is one, and what is wrong with it or the list.
    fn phrase(self) -> (Option<u32>, &'static str) {
        match self {
            TableFault::BadName(line) => (
                Some(line),
                "a name is empty or too long, has a space at an end, or contains a `;` or a control byte",
            ),
            TableFault::NoSuchHost(line) => (Some(line), "no host of that name stands before it"),
            TableFault::DuplicateHost(line) => (Some(line), "a host of that name stands before it"),
            TableFault::DuplicateService(line) => (
                Some(line),
                "a service of that name, of the same host, stands before it",
            ),
            TableFault::TooMany(0) => (None, "more than 16384 lines"),
            TableFault::TooMany(line) => {
                (Some(line), "more than 1024 hosts, or services of one host")
            }
            TableFault::OutOfMemory => (None, "out of memory"),
        }
    }
}

impl fmt::Display for TableFault {
    fn fmt<W: fmt::Write>(&self, f: &mut fmt::Formatter<W>) -> fmt::Result {
        match self.phrase() {
            (Some(line), phrase) => write!(f, "line {line}: {phrase}"),
            (None, phrase) => f.write_str(phrase),
        }
    }
}

impl Error for TableFault {}

/// A refused list of lines: why it is no table, and the lines.
#[derive(Debug, Drop)]
pub struct BuildFault {
    pub cause: TableFault,
    pub lines: Vec<ObjectLine>,
}

/// Shows the cause.
impl fmt::Display for BuildFault {
    fn fmt<W: fmt::Write>(&self, f: &mut fmt::Formatter<W>) -> fmt::Result {
        write!(f, "{}", self.cause)
    }
}

impl Error for BuildFault {}

/// The monitored objects: hosts and their services. The index of an object, from 0, is its place.
pub struct ObjectTable {
    lines: Vec<ObjectLine>,
    objects: NamedObjects,
    // How many services the host with the most of them has.
    most: usize,
}

// Who drops a table calls this, and knows nothing of its parts.
impl Drop for ObjectTable {
    fn drop(self) {
        let ObjectTable {
            lines: _lines,
            objects: _objects,
            most: _,
        } = self;
    }
}

impl Model for ObjectTable {
    ghost use Rattle.std.specs.Prelude.{List};
    ghost use Rattle.gate_model.specs.declared.object.ObjectLine.{ObjectLine};
    ghost use Rattle.gate_table.specs.inner.NamedObjects.{IsTable};

    ghost Value = { List ObjectLine };

    ghost view = { λ table. table.lines.items };

    ghost invariant = { λ table.
        IsTable table.lines.items table.objects table.most };
}

impl ObjectTable {
    /// Builds the table of these lines. A service may be anywhere after its host.
    ///
    /// More than 16,384 lines are refused as `TooMany(0)`. Otherwise the fault is that of the first
    /// faulty line, or `OutOfMemory` where memory ran out at a line such that neither it nor one
    /// before it is faulty. Each refusal returns the lines.
    pub fn build(alloc: Global, lines: Vec<ObjectLine>) -> Result<ObjectTable, BuildFault>
        ensures table { IfOk result (λ table. table ≡ lines.items) }
        ensures faultless { IfOk result (λ table. IsFaultless table) }

        ensures kept { IfErr result (λ refused. refused.lines ≡ lines) }
        ensures fault { IfErr result (λ refused. IsFaultOf lines.items refused.cause) }
        ensures faulty { IfErr result (λ refused.
            refused.cause ≢ OutOfMemory → ¬ IsFaultless refused.lines.items) }
    {
        match objects_of(alloc, &lines) {
            Ok((objects, most)) => Ok(ObjectTable {
                lines,
                objects,
                most,
            }),
            Err(cause) => Err(BuildFault { cause, lines }),
        }
    }

    /// The host of that name.
    pub fn find_host(&self, host: &[u8]) -> Option<ObjectId>
        ensures value { result ≡ object_of self.now host.now None }
        ensures within { IfSome result (λ object. object.place < length self.now) }
    {
        match self.place(host, None) {
            Some(place) => Some(ObjectId {
                place,
                kind: Kind::Host,
            }),
            None => None,
        }
    }

    /// The service of that name, of the host of that name.
    pub fn find_service(&self, host: &[u8], service: &[u8]) -> Option<ObjectId>
        ensures value { result ≡ object_of self.now host.now (Some service.now) }
        ensures within { IfSome result (λ object. object.place < length self.now) }

        // The host of a service that is found is in the table too.
        ensures host { IfSome result (λ _. has_object self.now host.now None ≡ true) }
    {
        match self.place(host, Some(service)) {
            Some(place) => Some(ObjectId {
                place,
                kind: Kind::Service,
            }),
            None => None,
        }
    }

    /// How many objects there are, at most 16,384.
    pub fn len(&self) -> usize
        ensures len { result ≡ length self.now }
        ensures faultless { IsFaultless self.now }
    {
        self.lines.len()
    }

    /// Whether there is no object.
    pub fn is_empty(&self) -> bool
        ensures { IsTrue result ↔ (length self.now ≡ 0) }
    {
        self.lines.is_empty()
    }

    /// The line of the object at that place.
    pub fn line(&self, place: u32) -> Option<&ObjectLine>
        ensures { option_copied result ≡ slice_get self.now place }
    {
        self.lines.get(place as usize)
    }

    /// The services of the host of this object, in table order. They are listed when the table is
    /// built: finding them takes the same time in a table of any size.
    pub fn services(&self, host: ObjectId) -> Services<'_>
        ensures services { result ≡ services_at self.now host.place }
        ensures named { (name : List ℕ) → place_of self.now name None ≡ Some host.place
            → result ≡ services_of self.now name }
    {
        Services::new(self.service_places(host.place))
    }

    /// How many services the host with the most of them has, at most 1,024.
    pub fn most_services(&self) -> usize
        ensures most { result ≡ most_services self.now }
        ensures few { result ≤ 1024 }
    {
        self.most
    }

    fn service_places(&self, place: u32) -> &[u32]
        ensures services { map (object_at Service) result.now ≡ services_at self.now place }
    {
        match self.line(place) {
            None => &[],
            Some(line) => match self.objects.find(line.host.bytes(), None) {
                None => &[],
                Some(host) => self.objects.services(host),
            },
        }
    }

    fn place(&self, host: &[u8], service: Option<&[u8]>) -> Option<u32>
        ensures value { result ≡ place_of self.now host.now (option_copied service.entry) }
        ensures within { IfSome result (λ place. place < length self.now) }
        ensures host { IfSome result (λ _. has_object self.now host.now None ≡ true) }
    {
        match self.objects.find(host, service) {
            Some(place) => Some(place as u32),
            None => None,
        }
    }
}

/// Finds the object of these names, for an act on it.
///
/// It is refused as `NoSuchHost` if no host of that name is in the table, and else as
/// `NoSuchService` if the host has no service of that name.
pub fn find_object(
    table: &ObjectTable,
    host: Name<'_>,
    service: Option<Name<'_>>,
) -> Result<ObjectId, Outcome>
    ensures place { IfOk result (λ object.
        place_of table.now host.entry service.entry ≡ Some object.place) }
    ensures kind { IfOk result (λ object. object.kind ≡ object_kind service.entry) }
    ensures within { IfOk result (λ object. object.place < length table.now) }

    // Whatever is then judged of the object, this is the outcome of an act on it.
    ensures outcome { (judge : ℕ → Outcome) → MatchResult result
        (λ object. outcome_for table.now host.entry service.entry judge ≡ judge object.place)
        (λ refusal. outcome_for table.now host.entry service.entry judge ≡ refusal) }
    ensures refused { IfErr result (λ refusal. is_accepted refusal ≡ false) }
{
    match service {
        None => match table.find_host(host.bytes()) {
            Some(object) => Ok(object),
            None => Err(Outcome::NoSuchHost),
        },
        Some(name) => match table.find_service(host.bytes(), name.bytes()) {
            Some(object) => Ok(object),
            // Only a refusal looks for the host, so that a known service takes one lookup.
            None => match table.find_host(host.bytes()) {
                Some(_) => Err(Outcome::NoSuchService),
                None => Err(Outcome::NoSuchHost),
            },
        },
    }
}

/// The objects of the lines and how many services the host with the most of them has, or why these
/// are no table.
fn objects_of(alloc: Global, lines: &[ObjectLine]) -> Result<(NamedObjects, usize), TableFault>
    ensures table { IfOk result (λ found. IsTable lines.now found.0 found.1) }
    ensures fault { IfErr result (IsFaultOf lines.now) }
    ensures faulty { IfErr result (λ fault. fault ≢ OutOfMemory → ¬ IsFaultless lines.now) }
{
    if lines.len() > LINES {
        return Err(TableFault::TooMany(0));
    }
    let mut builder = TableBuilder::new(alloc);
    for i in 0..lines.len() {
        if let Err(fault) = builder.add_line(alloc, lines, i) {
            return Err(fault);
        }
    }
    let most = builder.most_services(lines);
    Ok((builder.into_objects(), most))
}
