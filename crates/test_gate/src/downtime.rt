ghost use Rattle.std.specs.Prelude.{◌≡◌, ◌<◌};

use crate::parts::{HTTP, WEB1};
use gate_downtime::{CancelFault, DowntimeBook, ScheduleFault};
use gate_model::{Kind, Moment, ObjectId, Plan, Steps};
use std::alloc::Global;

/// A call of a book over two objects, with what it must answer.
#[derive(Clone, Copy)]
enum Step {
    At(u32),
    Schedule(ObjectId, Plan, Result<u32, ScheduleFault>),
    Cancel(Kind, u32, Result<(), CancelFault>),
    Transition(ObjectId),
    Depth(ObjectId, u32),
    Live(u32, bool),
    Begin(u32, Option<u32>),
    Gone(Option<u32>),
}

use Step::{At, Begin, Cancel, Depth, Gone, Live, Schedule, Transition};

const fn fixed(starts: u32, ends: u32, trigger: u32) -> Plan {
    Plan {
        starts: Moment(starts),
        ends: Moment(ends),
        fixed: true,
        trigger,
        lasts: 0,
        log_index: 0,
    }
}

const fn flexible(starts: u32, ends: u32, trigger: u32, lasts: u32) -> Plan {
    Plan {
        starts: Moment(starts),
        ends: Moment(ends),
        fixed: false,
        trigger,
        lasts,
        log_index: 0,
    }
}

fn schedules(
    book: &mut DowntimeBook,
    object: ObjectId,
    plan: Plan,
    wanted: Result<u32, ScheduleFault>,
) -> bool
    requires { book.old.objects ≡ 2 }
    ensures { book.new.objects ≡ 2 }
{
    if object.place >= 2 || book.reserve(1).is_err() || book.room() == 0 {
        return false;
    }
    book.schedule(object, plan) == wanted
}

fn changes(book: &mut DowntimeBook, object: ObjectId) -> bool
    requires { book.old.objects ≡ 2 }
    ensures { book.new.objects ≡ 2 }
{
    if object.place >= 2 {
        return false;
    }
    book.transition(object);
    true
}

fn is_as_deep(book: &DowntimeBook, object: ObjectId, wanted: u32) -> bool
    requires { book.now.objects ≡ 2 }
{
    object.place < 2 && book.depth(object) == wanted
}

fn advances(book: &mut DowntimeBook, moment: u32) -> bool
    requires { book.old.objects ≡ 2 }
    ensures { book.new.objects ≡ 2 }
{
    book.advance(Moment(moment));
    book.moment() == Moment(moment)
}

fn holds(book: &mut DowntimeBook, step: Step) -> bool
    requires { book.old.objects ≡ 2 }
    ensures { book.new.objects ≡ 2 }
{
    match step {
        At(moment) => advances(book, moment),
        Schedule(object, plan, wanted) => schedules(book, object, plan, wanted),
        Cancel(kind, id, wanted) => book.cancel(kind, id) == wanted,
        Transition(object) => changes(book, object),
        Depth(object, wanted) => is_as_deep(book, object, wanted),
        Live(id, wanted) => book.is_live(id) == wanted,
        Begin(id, wanted) => book.begin(id) == wanted.map(Moment),
        Gone(wanted) => book.next_gone() == wanted,
    }
}

// Whether a book whose first id is this one, opened at that moment, answers all steps so.
fn plays(alloc: Global, first_id: u32, moment: u32, steps: &[Step]) -> bool
    requires { 0 < first_id }
{
    let Ok(mut book) = DowntimeBook::open(alloc, 2, first_id, Moment(moment)) else {
        return false;
    };
    'steps: for step in steps {
        if !holds(&mut book, *step) {
            return false;
        }
    }
    true
}

#[test]
fn a_flexible_entry_is_gone_unbegun_at_its_end(rt: HostRuntime) {
    let late = [
        Schedule(HTTP, flexible(1200, 1300, 0, 50), Ok(1)),
        At(1299),
        Live(1, true),
        Gone(None),
        At(1300),
        Transition(HTTP),
        Depth(HTTP, 0),
        Live(1, false),
        Begin(1, None),
        Gone(Some(1)),
        Gone(None),
    ];
    assert!(rt; plays(rt.alloc(), 1, 1100, &late));
}

#[test]
fn a_deletion_follows_the_chain_of_triggers(rt: HostRuntime) {
    let steps = [
        Schedule(HTTP, flexible(1200, 1300, 0, 50), Ok(1)),
        Schedule(WEB1, flexible(1200, 1300, 1, 100), Ok(2)),
        Schedule(HTTP, fixed(1200, 1400, 2), Ok(3)),
        At(1250),
        Transition(HTTP),
        Depth(HTTP, 2),
        Depth(WEB1, 1),
        Begin(3, Some(1250)),
        At(1260),
        Cancel(Kind::Service, 1, Ok(())),
        Depth(HTTP, 0),
        Depth(WEB1, 0),
        Gone(Some(1)),
        Gone(Some(2)),
        Gone(Some(3)),
        Gone(None),
        Cancel(Kind::Service, 1, Err(CancelFault::NoSuchDowntime)),
        Schedule(
            HTTP,
            fixed(1300, 1400, 1),
            Err(ScheduleFault::NoSuchTrigger),
        ),
    ];
    assert!(rt; plays(rt.alloc(), 1, 1100, &steps));
}

#[test]
fn ids_are_spent_after_the_last(rt: HostRuntime) {
    let steps = [
        Schedule(HTTP, fixed(1100, 1200, 0), Ok(4294967295)),
        Schedule(HTTP, fixed(1100, 1200, 0), Err(ScheduleFault::IdsSpent)),
        Schedule(
            HTTP,
            fixed(1100, 1200, 7),
            Err(ScheduleFault::NoSuchTrigger),
        ),
    ];
    assert!(rt; plays(rt.alloc(), 4294967295, 1000, &steps));
}

/// The entries 1 to 1,000: entry k from 1100 + k to 2100 + k.
fn schedules_a_thousand(book: &mut DowntimeBook) -> bool
    requires { book.old.objects ≡ 2 }
    ensures { book.new.objects ≡ 2 }
{
    'entries: for id in 1..1001 {
        if !schedules(book, HTTP, fixed(1100 + id, 2100 + id, 0), Ok(id)) {
            return false;
        }
    }
    true
}

/// A book at 1050 with a thousand entries.
fn thousand(alloc: Global) -> Option<DowntimeBook> {
    let mut book = DowntimeBook::open(alloc, 2, 1, Moment(1050)).ok()?;
    if schedules_a_thousand(&mut book) {
        Some(book)
    } else {
        None
    }
}

fn steps_to_find(book: &DowntimeBook, id: u32) -> Option<u32> {
    let mut steps = Steps::new();
    let index = book.find(id, &mut steps)?;
    let entry = book.live().nth(index)?;
    if entry.id == id {
        Some(steps.count())
    } else {
        None
    }
}

fn each_is_found_in_1_to_10_steps(alloc: Global) -> bool {
    let book = thousand(alloc);
    let found = match &book {
        Some(book) => {
            (1..1001).all(
                |id| matches!(steps_to_find(book, id), Some(steps) if 1 <= steps && steps <= 10),
            )
        }
        None => false,
    };
    drop(book);
    found
}

#[test]
fn each_of_a_thousand_entries_is_found_in_1_to_10_comparisons(rt: HostRuntime) {
    assert!(rt; each_is_found_in_1_to_10_steps(rt.alloc()));
}
