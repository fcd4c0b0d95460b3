//! The texts of faults, which no contract names.
use crate::parts::body;
use gate_close::CloseAllCause;
use gate_core::OpenFault;
use gate_downtime::{CancelFault, ScheduleFault};
use gate_grammar::LineFault;
use gate_model::Moment;
use gate_packet::{ContentFault, Field, PacketFault};
use gate_queue::{CloseFault, Refused};
use gate_table::{BuildFault, TableFault};
use std::alloc::Global;
use std::fmt::Display;

fn is_shown_as<D: Display>(alloc: Global, fault: &D, text: &str) -> bool {
    match format!(in alloc; "{fault}") {
        Ok(shown) => shown.as_str() == text,
        Err(_) => false,
    }
}

#[rattlefmt::skip]
static TABLE_FAULTS: [(TableFault, &str); 7] = [
    (TableFault::BadName(1), "line 1: a name is empty or too long, has a space at an end, or contains a `;` or a control byte"),
    (TableFault::NoSuchHost(2), "line 2: no host of that name stands before it"),
    (TableFault::DuplicateHost(3), "line 3: a host of that name stands before it"),
    (TableFault::DuplicateService(4), "line 4: a service of that name, of the same host, stands before it"),
    (TableFault::TooMany(5), "line 5: more than 1024 hosts, or services of one host"),
    (TableFault::TooMany(0), "more than 16384 lines"),
    (TableFault::OutOfMemory, "out of memory"),
];

// Whether the refusal of a table shows its cause.
fn is_refusal_shown_as(alloc: Global, cause: TableFault, text: &str) -> bool {
    let refused = BuildFault {
        cause,
        lines: Vec::new(alloc),
    };
    let is_so = is_shown_as(alloc, &refused, text);
    drop(refused);
    is_so
}

#[test]
fn a_fault_of_a_table_is_shown_in_words(rt: HostRuntime) {
    for (fault, text) in TABLE_FAULTS.iter() {
        assert!(rt; is_shown_as(rt.alloc(), fault, text), "{text}");
        assert!(rt; is_refusal_shown_as(rt.alloc(), *fault, text), "{text}");
    }
}

#[rattlefmt::skip]
static CONTENT_FAULTS: [(ContentFault, &str); 7] = [
    (ContentFault::EmptyHost, "the host's name is empty"),
    (ContentFault::TooLong(Field::Host), "the host's name is longer than 63 bytes"),
    (ContentFault::TooLong(Field::Service), "the service's name is longer than 127 bytes"),
    (ContentFault::TooLong(Field::Output), "the output is longer than 4095 bytes"),
    (ContentFault::HasNul(Field::Host), "the host's name has a NUL"),
    (ContentFault::HasNul(Field::Service), "the service's name has a NUL"),
    (ContentFault::HasNul(Field::Output), "the output has a NUL"),
];

#[test]
fn the_fault_of_a_content_names_the_text_and_its_limit(rt: HostRuntime) {
    for (fault, text) in CONTENT_FAULTS.iter() {
        assert!(rt; is_shown_as(rt.alloc(), fault, text), "{text}");
    }
}

#[rattlefmt::skip]
static LINE_FAULTS: [(LineFault, &str); 3] = [
    (LineFault::TooLong, "command line too long: more than 8192 bytes"),
    (LineFault::MissingArgument(4), "argument 4 is missing"),
    (LineFault::OutOfMemory, "out of memory"),
];

#[test]
fn the_fault_of_a_line_or_a_packet_is_shown_in_words(rt: HostRuntime) {
    for (fault, text) in LINE_FAULTS.iter() {
        assert!(rt; is_shown_as(rt.alloc(), fault, text), "{text}");
    }
    let stale = "the packet is older than the greatest age";
    assert!(rt; is_shown_as(rt.alloc(), &PacketFault::Stale, stale));
}

#[test]
fn a_refused_downtime_command_is_shown_in_words(rt: HostRuntime) {
    let empty = "the downtime's window is empty";
    assert!(rt; is_shown_as(rt.alloc(), &ScheduleFault::BadWindow, empty));
    assert!(rt; is_shown_as(rt.alloc(), &CancelFault::NoSuchDowntime, "no such downtime"));
}

#[rattlefmt::skip]
static OPEN_FAULTS: [(OpenFault, &str); 4] = [
    (OpenFault::BadCount, "not 1 to 64 clients"),
    (OpenFault::BadCapacity, "the capacity is not from 1 to 65536 items"),
    (OpenFault::BadQuota, "the quota is 0 items"),
    (OpenFault::OutOfMemory, "out of memory"),
];

#[test]
fn each_open_fault_has_its_text(rt: HostRuntime) {
    for (fault, text) in OPEN_FAULTS.iter() {
        assert!(rt; is_shown_as(rt.alloc(), fault, text), "{text}");
    }
}

fn is_refused_as(alloc: Global, refused: Refused, text: &str) -> bool {
    let is_so = is_shown_as(alloc, &refused, text);
    drop(refused);
    is_so
}

#[test]
fn each_refusal_has_its_text(rt: HostRuntime) {
    let alloc = rt.alloc();
    let closing = Refused::Closing(Moment(1500), body(1));
    assert!(rt; is_refused_as(alloc, closing, "a close has begun"));
    assert!(rt;
        is_refused_as(
            alloc,
            Refused::Spent(body(1)),
            "the client's quota is used up"
        )
    );
    assert!(rt; is_refused_as(alloc, Refused::Full(body(1)), "the queue is full"));
}

#[rattlefmt::skip]
static CLOSE_CAUSES: [(CloseAllCause, &str); 4] = [
    (CloseAllCause::Missing(2), "client 2 has not ended"),
    (CloseAllCause::NotClosing, "no close has begun"),
    (CloseAllCause::LogFull, "the log is full"),
    (CloseAllCause::OutOfMemory, "out of memory"),
];

#[test]
fn each_cause_of_an_unfinished_close_has_its_text(rt: HostRuntime) {
    for (cause, text) in CLOSE_CAUSES.iter() {
        assert!(rt; is_shown_as(rt.alloc(), cause, text), "{text}");
    }
    let second = CloseFault::AlreadyClosing(Moment(1500));
    assert!(rt; is_shown_as(rt.alloc(), &second, "another close was first"));
    assert!(rt; is_shown_as(rt.alloc(), &CloseFault::OutOfMemory, "out of memory"));
}
