//! What an applier shows of its records.
use crate::parts::{HTTP, WEB1, applier, applier_after, table};
use gate_applier::{Applier, OpenCause};
use gate_model::{Moment, Outcome, State};
use std::alloc::Global;

fn is_without_records(applier: &Applier, limit: u32) -> bool {
    applier.opening() == Moment(1000)
        && applier.moment() == Moment(1000)
        && applier.limit() == limit
        && applier.table().len() == 2
        && applier.records().is_empty()
        && applier.state(WEB1) == State::Pending
}

fn opens(alloc: Global, limit: u32) -> bool {
    let applier = applier(alloc, limit);
    let opens = match &applier {
        Some(applier) => is_without_records(applier, limit),
        None => false,
    };
    drop(applier);
    opens
}

#[test]
fn a_log_may_be_limited_to_1_to_1000000_records(rt: HostRuntime) {
    assert!(rt; opens(rt.alloc(), 1) && opens(rt.alloc(), 1_000_000));
}

fn open_cause(alloc: Global, limit: u32) -> Option<OpenCause> {
    let opened = Applier::open(alloc, table(alloc)?, Moment(1000), limit);
    let cause = match &opened {
        Ok(_) => None,
        Err(fault) => Some(fault.cause),
    };
    drop(opened);
    cause
}

#[test]
fn a_log_of_another_limit_is_not_opened(rt: HostRuntime) {
    for limit in [0, 1_000_001, u32::MAX] {
        assert!(rt;
            open_cause(rt.alloc(), limit) == Some(OpenCause::BadLimit),
            "{limit}"
        );
    }
}

// The clock goes back before the last two records.
static DAY: [&str; 5] = [
    "[1100] SCHEDULE_SVC_DOWNTIME;web1;HTTP;1200;1300;0;0;50;bob;reboot",
    "[1250] PROCESS_SERVICE_CHECK_RESULT;web1;HTTP;2;timeout",
    "[1255] ACKNOWLEDGE_SVC_PROBLEM;web1;HTTP;2;0;0;ann;on it",
    "[1240] DISABLE_PASSIVE_SVC_CHECKS;web1;HTTP",
    "[1240] DEL_HOST_COMMENT;9",
];

static OUTCOMES: [Outcome; 5] = [
    Outcome::Accepted,
    Outcome::Accepted,
    Outcome::Accepted,
    Outcome::Accepted,
    Outcome::NoSuchComment,
];

fn shows_its_records(applier: &Applier) -> bool {
    let is_in_order = match applier.records() {
        [first, .., last] => first.moment == Moment(1100) && last.moment == Moment(1255),
        _ => false,
    };
    is_in_order && applier.moment() == Moment(1255) && applier.outcomes() == OUTCOMES.as_slice()
}

fn shows_its_objects(applier: &Applier) -> bool {
    let is_last = match applier.last(HTTP) {
        Some(last) => last.state == State::Critical && last.moment == Moment(1250),
        None => false,
    };
    let is_sticky = match applier.ack(HTTP) {
        Some(acknowledgement) => acknowledgement.sticky,
        None => false,
    };
    is_last
        && is_sticky
        && applier.state(HTTP) == State::Critical
        && !applier.passive(HTTP)
        && !applier.stale(HTTP)
        && applier.depth(HTTP) == 1
}

fn shows_its_downtime(applier: &Applier) -> bool {
    let are_comments = match applier.comments() {
        [first, second] => first.id == 1 && second.id == 2,
        _ => false,
    };
    let mut downtimes = applier.downtimes();
    let is_begun = match downtimes.next() {
        Some(one) => one.scheduled().object == HTTP && one.begin() == Some(Moment(1250)),
        None => false,
    };
    are_comments && is_begun && downtimes.next().is_none()
}

fn shows_the_day(alloc: Global) -> bool {
    let Some(applier) = applier_after(alloc, 9, &DAY) else {
        return false;
    };
    let applier = match applier.prepare() {
        Ok(ready) => ready.give_back(),
        Err(fault) => fault.applier,
    };
    let shows_all = shows_its_records(&applier)
        && shows_its_objects(&applier)
        && shows_its_downtime(&applier);
    drop(applier);
    shows_all
}

#[test]
fn an_applier_shows_what_its_records_mean(rt: HostRuntime) {
    assert!(rt; shows_the_day(rt.alloc()));
}
