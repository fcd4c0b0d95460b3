ghost use Rattle.std.specs.Prelude.{◌≡◌, length, IfSome};

use crate::parts::{HTTP, WEB1, table};
use gate_model::{Acknowledgement, CheckResult, Moment, State};
use gate_objects::{Change, NotAcknowledged, ObjectBook, PassiveDisabled};
use std::alloc::Global;

const BEGUN: Change = Change {
    transition: true,
    cleared: false,
};

const WARNING: CheckResult = CheckResult {
    state: State::Warning,
    moment: Moment(1100),
    log_index: 0,
};

const STICKY: Acknowledgement = Acknowledgement {
    sticky: true,
    log_index: 1,
};

// The book of the table, opened at 1000.
fn opened(alloc: Global) -> Option<ObjectBook>
    ensures { IfSome result (λ book. length book.statuses ≡ 2) }
{
    let table = table(alloc)?;
    let book = ObjectBook::open(alloc, &table, Moment(1000)).ok();
    drop(table);
    book
}

fn lists_the_host_as_stale(book: &ObjectBook) -> bool {
    let mut stale = book.stale_list(Moment(1400));
    stale.next() == Some(WEB1) && stale.next().is_none()
}

// Whether a result of HTTP at 1100 is kept, and one of web1 is refused.
fn keeps_results(alloc: Global) -> bool {
    let Some(mut book) = opened(alloc) else {
        return false;
    };
    book.set_passive(WEB1, false);
    let is_kept = book.result(WEB1, 1, 0, Moment(1100)) == Err(PassiveDisabled)
        && book.result(HTTP, 1, 0, Moment(1100)) == Ok(BEGUN)
        && !book.passive(WEB1)
        && book.passive(HTTP)
        && book.state(WEB1) == State::Pending
        && book.state(HTTP) == State::Warning
        && book.last(HTTP) == Some(WARNING)
        && !book.stale(HTTP, Moment(1400))
        && book.stale(HTTP, Moment(1401))
        && lists_the_host_as_stale(&book);
    drop(book);
    is_kept
}

#[test]
fn a_result_is_kept_while_passive_checks_are_enabled(rt: HostRuntime) {
    assert!(rt; keeps_results(rt.alloc()));
}

fn keeps_an_acknowledgement(alloc: Global) -> bool {
    let Some(mut book) = opened(alloc) else {
        return false;
    };
    let is_kept = book.result(HTTP, 1, 0, Moment(1100)) == Ok(BEGUN)
        && book.acknowledge(HTTP, true, 1) == Ok(())
        && book.ack(HTTP) == Some(STICKY)
        && book.remove_ack(HTTP) == Ok(())
        && book.remove_ack(HTTP) == Err(NotAcknowledged);
    drop(book);
    is_kept
}

#[test]
fn an_acknowledgement_is_removed_once(rt: HostRuntime) {
    assert!(rt; keeps_an_acknowledgement(rt.alloc()));
}
