//! Finds the first fault of a list of lines, from the first line to the last.

ghost use Rattle.std.specs.Prelude.{◌≡◌, ◌<◌, ◌≤◌, [], None, true, Some, length, take, slice_get, count_by, max, IfSome};
ghost use Rattle.gate_model.specs.Table.{is_service_line_of, most_services};
ghost use Rattle.gate_table.specs.Faults.{is_named};
ghost use Rattle.gate_table.specs.inner.TableBuilder.{TracksLines, AddsOrRefuses};

use crate::keys::key_of;
use crate::named_objects::NamedObjects;
use crate::names::is_named;
use crate::table::TableFault;
use gate_model::{HOSTS, ObjectLine, SERVICES_OF_HOST};
use std::alloc::Global;

/// What is kept of the lines that were added.
#[derive(Drop)]
pub struct TableBuilder {
    /// The objects of the lines.
    pub objects: NamedObjects,
    /// How many hosts there are.
    pub hosts: usize,
}

impl TableBuilder {
    pub fn new(alloc: Global) -> TableBuilder
        ensures { TracksLines [] result }
    {
        TableBuilder {
            objects: NamedObjects::new(alloc),
            hosts: 0,
        }
    }

    /// How many services the host with the most of them has.
    pub fn most_services(&self, lines: &[ObjectLine]) -> usize
        requires { TracksLines lines.now self.now }
        ensures { result ≡ most_services lines.now }
    {
        let mut most = 0;
        for line in lines {
            most = greater(most, self.services_of(lines, line.host.bytes()));
        }
        most
    }

    /// How many services the host of that name has.
    fn services_of(&self, lines: &[ObjectLine], host: &[u8]) -> usize
        requires { TracksLines lines.now self.now }
        ensures { result ≡ count_by (is_service_line_of host.now) lines.now }
    {
        match self.objects.find(host, None) {
            None => 0,
            Some(place) => self.objects.services(place).len(),
        }
    }

    /// The objects of the lines that were added.
    pub fn into_objects(self) -> NamedObjects
        ensures { result ≡ self.objects }
    {
        self.objects
    }

    /// Adds the line at index `i`, or returns what is wrong with it after the lines before it.
    pub fn add_line(
        &mut self,
        alloc: Global,
        lines: &[ObjectLine],
        i: usize,
    ) -> Result<(), TableFault>
        requires few { length lines.now ≤ 16384 }
        requires within { i < length lines.now }
        requires tracks { TracksLines (take i lines.now) self.old }
        ensures { AddsOrRefuses lines.now i result self.new }
    {
        let line = &lines[i];
        if !is_named(line) {
            return Err(TableFault::BadName(i as u32 + 1));
        }
        match &line.service {
            None => self.add_host(alloc, lines, i),
            Some(service) => self.add_service(alloc, lines, i, service.bytes()),
        }
    }

    fn add_host(&mut self, alloc: Global, lines: &[ObjectLine], i: usize) -> Result<(), TableFault>
        requires few { length lines.now ≤ 16384 }
        requires within { i < length lines.now }
        requires tracks { TracksLines (take i lines.now) self.old }
        requires host { IfSome (slice_get lines.now i) (λ line.
            (is_named line ≡ true) × (line.service ≡ None)) }
        ensures { AddsOrRefuses lines.now i result self.new }
    {
        let number = i as u32 + 1;
        let Some(key) = key_of(lines[i].host.bytes(), None) else {
            return Err(TableFault::BadName(number));
        };
        if self.objects.place(&key).is_some() {
            return Err(TableFault::DuplicateHost(number));
        }
        if self.hosts >= HOSTS {
            return Err(TableFault::TooMany(number));
        }
        match self.objects.add(alloc, &key) {
            Ok(_) => {
                self.hosts += 1;
                Ok(())
            }
            Err(_) => Err(TableFault::OutOfMemory),
        }
    }

    fn add_service(
        &mut self,
        alloc: Global,
        lines: &[ObjectLine],
        i: usize,
        service: &[u8],
    ) -> Result<(), TableFault>
        requires few { length lines.now ≤ 16384 }
        requires within { i < length lines.now }
        requires tracks { TracksLines (take i lines.now) self.old }
        requires service { IfSome (slice_get lines.now i) (λ line.
            (is_named line ≡ true) × (line.service ≡ Some service.now)) }
        ensures { AddsOrRefuses lines.now i result self.new }
    {
        let number = i as u32 + 1;
        let host = lines[i].host.bytes();
        let Some(place) = self.objects.find(host, None) else {
            return Err(TableFault::NoSuchHost(number));
        };
        let Some(key) = key_of(host, Some(service)) else {
            return Err(TableFault::BadName(number));
        };
        if self.objects.place(&key).is_some() {
            return Err(TableFault::DuplicateService(number));
        }
        if self.objects.services(place).len() >= SERVICES_OF_HOST {
            return Err(TableFault::TooMany(number));
        }
        match self.objects.add_service(alloc, place, &key) {
            Ok(()) => Ok(()),
            Err(_) => Err(TableFault::OutOfMemory),
        }
    }
}

fn greater(one: usize, other: usize) -> usize
    ensures { result ≡ max one other }
{
    one.max(other)
}
