ghost use Rattle.std.specs.Prelude.{◌≡◌, ◌≢◌, ◌*◌, ◌≤◌, IsSome, Some, length};
ghost use Rattle.std.specs.Duration.{as_nanos};
ghost use Rattle.gate_model.specs.Record.{items_of_records};
ghost use Rattle.gate_boards.specs.declared.applying.ApplierStop.TheVariants.{Closing, LogFull};
ghost use Rattle.gate_boards.specs.declared.applying.FullLog.{FullLog};
ghost use Rattle.gate_boards.specs.Applying.{GoesByClock, IsSameLog};
ghost use Rattle.gate_boards.specs.Boards.{millis_left};
ghost use Rattle.gate_boards.specs.inner.Publishing.{GoesOn};
ghost use Rattle.gate_boards.specs.declared.applying.Attempt.TheVariants as attempt;
ghost use Rattle.gate_boards.specs.declared.boards.Found.TheVariants.{Item, Nothing};
ghost use Rattle.gate_environment.specs.Points.{passing};
ghost use Rattle.gate_environment.specs.declared.connections.Point.TheVariants.{BeforeApply};

use crate::boards::{Found, LastBoard, Published, millis_since, replace, show};
use gate_applier::{Applier, PrepareCause, PrepareFault};
use gate_environment::times::MEMORY_TRIES;
use gate_environment::{Clock, Hold, Point, pause};
use gate_pages::Board;
use gate_queue::{Gate, Taker};
use std::alloc::Global;
use std::sync::{Mutex, Wait};
use std::time;
use std::time::{Duration, SystemTime};

/// Why the applier stopped. Own rules.
#[derive(Clone, Copy)]
pub enum ApplierStop {
    /// The gate is closing, and the queue was empty or there was no memory for one more record.
    Closing,
    /// The log is full.
    LogFull(FullLog),
}

/// It was noted in the gate that a full log takes nothing from the queue, so that nobody waits for
/// room; and a board shows all of it, or memory for one was missing for a second. Only `end_full`
/// makes one of these.
#[derive(Clone, Copy)]
pub struct FullLog {
    shown: Option<Published>,
}

// What one turn of the applier did.
#[derive(Clone, Copy)]
pub(crate) enum Attempt {
    Took(Found),
    LogFull,
    OutOfMemory,
}

// Why the applier can't apply one more record.
fn refused_attempt(cause: PrepareCause) -> Attempt
    ensures full { result ≡ attempt.LogFull → cause ≡ PrepareCause.LogFull }
    ensures took_none { result ≢ attempt.Took Item }
{
    match cause {
        PrepareCause::LogFull => Attempt::LogFull,
        PrepareCause::OutOfMemory => Attempt::OutOfMemory,
    }
}

// Takes an item and applies it, where there is room for it.
fn turn<R: Wait, K: Clock, H: Hold>(
    rt: &R,
    gate: &Gate,
    taker: &mut Taker,
    applier: Applier,
    clock: &mut K,
    hold: &mut H,
) -> (Applier, Attempt)
    requires gate { taker.old.gate ≡ gate.now }
    requires applied { items_of_records applier.records ≡ taker.old.taken }
    ensures gate { taker.new.gate ≡ taker.old.gate }
    ensures ended { taker.new.ended ≡ taker.old.ended }
    ensures applied { items_of_records result.0.records ≡ taker.new.taken }
    ensures same { IsSameLog applier result.0 }
    ensures clock { GoesByClock (K.state clock.old) (K.state clock.new) applier result.0 }
    ensures seen { H.seen hold.new ≡ H.seen hold.old }
    ensures held { result.1 ≡ attempt.Took Item
        → H.passed hold.new ≡ passing BeforeApply (H.passed hold.old) }
    ensures log_full { result.1 ≡ attempt.LogFull
        → length result.0.records ≡ result.0.limit }
{
    let ready = match applier.prepare() {
        Ok(ready) => ready,
        Err(PrepareFault { cause, applier }) => return (applier, refused_attempt(cause)),
    };
    match taker.take(rt, gate) {
        Some(item) => {
            hold.pass(Point::BeforeApply);
            let (applier, _) = ready.apply(item, clock.now());
            (applier, Attempt::Took(Found::Item))
        }
        None => (ready.give_back(), Attempt::Took(Found::Nothing)),
    }
}

// Goes on to the clock's moment, where it is later.
fn go_on<K: Clock>(applier: &mut Applier, clock: &mut K)
    ensures idle { GoesOn (K.state clock.old) (K.state clock.new)
        applier.old.moment applier.new.moment }
    ensures records { applier.new.records ≡ applier.old.records }
    ensures same { IsSameLog applier.old applier.new }
{
    let now = clock.now();
    // What is due by time is looked for once a second, and not in each turn.
    if applier.moment().0 < now.0 {
        applier.advance(now);
    }
}

// Publishes a board, where one is due. Where no item was found, the applier goes on with the clock
// before it.
fn show_turn<R: Wait + time::Clock, K: Clock>(
    rt: &R,
    alloc: Global,
    applier: &mut Applier,
    found: Found,
    clock: &mut K,
    last: LastBoard,
    board: &Mutex<Board>,
) -> LastBoard
    requires rest { last.rest_millis ≤ 5_000 }
    ensures rest { result.rest_millis ≤ 5_000 }
    ensures clock { GoesByClock
        (K.state clock.old) (K.state clock.new) applier.old applier.new }
    ensures idle { found ≡ Nothing → GoesOn (K.state clock.old) (K.state clock.new)
        applier.old.moment applier.new.moment }
    ensures records { applier.new.records ≡ applier.old.records }
    ensures same { IsSameLog applier.old applier.new }
{
    let passed_millis = millis_since(rt, last.ended);
    match found {
        Found::Item => show(rt, alloc, applier, found, last, passed_millis, board),
        Found::Nothing => {
            go_on(applier, clock);
            show(rt, alloc, applier, found, last, passed_millis, board)
        }
    }
}

// Ends the taking, since the log is full, and shows all of it.
fn end_full<R: Wait + time::Clock>(
    rt: &R,
    alloc: Global,
    gate: &Gate,
    applier: &Applier,
    board: &Mutex<Board>,
) -> FullLog
    requires { length applier.now.records ≡ applier.now.limit }
{
    gate.stop_taking();
    for _ in 0..MEMORY_TRIES {
        let next = Board::of(alloc, applier);
        if let Some(published) = replace(&mut board.lock(rt), next) {
            return FullLog {
                shown: Some(published),
            };
        }
        pause(rt);
    }
    FullLog { shown: None }
}

// The time until a clock's next second, by the time since the epoch that it shows.
fn until_next_second(since_epoch: Option<Duration>) -> Duration
    ensures { as_nanos result ≡ millis_left since_epoch * 1_000_000 }
{
    let within = match since_epoch {
        Some(since) => since.subsec_millis(),
        None => 0,
    };
    Duration::from_millis(1_000 - u64::from(within))
}

// Rests until an item is queued or the gate is closed, where the queue was empty: until a board is due
// where one is needed, and otherwise until the clock's next second.
fn rest_after<R: Wait + time::Clock>(
    rt: &R,
    gate: &Gate,
    taker: &mut Taker,
    applier: &Applier,
    attempt: Attempt,
    last: LastBoard,
)
    requires { taker.old.gate ≡ gate.now }
    ensures { taker.new ≡ taker.old }
{
    match attempt {
        Attempt::Took(Found::Nothing) => {}
        // An item may be queued that can't be applied, for which it would not rest.
        Attempt::OutOfMemory => {
            pause(rt);
            return;
        }
        Attempt::Took(Found::Item) | Attempt::LogFull => return,
    }
    let most = if last.shows_all(applier.records().len(), applier.moment()) {
        let now = SystemTime::now(rt).ok();
        let since_epoch = now.and_then(|now| now.duration_since(SystemTime::UNIX_EPOCH).ok());
        until_next_second(since_epoch)
    } else {
        Duration::from_millis(last.sleep_millis(millis_since(rt, last.ended)))
    };
    taker.rest(rt, gate, most);
}

/// Takes and applies the items of the queue, one by one, each at the clock's moment or the
/// applier's, whichever is later. While no item comes it goes on to the clock's moment, and publishes
/// a board where something was applied or a second has passed. While items come one after another a
/// board is published where a second has passed. After each board none is made for nine times as long as
/// it took, for 50 ms at least and 5 s at most. It sleeps until an item is queued or the gate is closed,
/// and wakes each second.
///
/// In each turn the hold sees the log as it is, also where nothing was applied.
///
/// It stops where the gate is closing and the queue is empty or memory for one more record is missing,
/// and where the log is full, once a board shows all of it or memory for one is missing for a second:
/// the queue fills up then, and nobody waits for room in it. Where memory is missing and the gate is
/// open, it tries again. It waits for items, and for other threads at the queue and at the board.
/// Own rule.
pub fn run_applier<R: Wait + time::Clock, K: Clock, H: Hold>(
    rt: &R,
    alloc: Global,
    gate: &Gate,
    taker: Taker,
    applier: Applier,
    clock: &mut K,
    hold: &mut H,
    board: &Mutex<Board>,
) -> (Taker, Applier, ApplierStop)
    requires gate { taker.gate ≡ gate.now }
    requires applied { items_of_records applier.records ≡ taker.taken }

    // What is in the log is what was taken, each item once and in that order.
    ensures applied { items_of_records result.1.records ≡ result.0.taken }
    ensures gate { result.0.gate ≡ gate.now }
    ensures ended { result.0.ended ≡ taker.ended }
    ensures same { IsSameLog applier result.1 }
    // Each record stands at the later of a reading of its own and the applier's moment then.
    ensures clock { GoesByClock (K.state clock.old) (K.state clock.new) applier result.1 }

    // The hold has seen all of the log.
    ensures seen { IsSome (H.seen hold.old)
        → H.seen hold.new ≡ Some (result.1.records, result.1.outcomes) }

    ensures closing { result.2 ≡ Closing → IsSome result.0.known_close }
    ensures log_full { (full : FullLog) → result.2 ≡ LogFull full
        → length result.1.records ≡ result.1.limit }
{
    let mut taker = taker;
    let mut applier = applier;
    let mut last = LastBoard {
        records: 0,
        moment: applier.moment(),
        published: None,
        ended: None,
        rest_millis: 0,
        quiet_pauses: 0,
    };
    for _ in rt.forever() {
        let (next, attempt) = turn(rt, gate, &mut taker, applier, clock, hold);
        applier = next;
        hold.see(applier.opening(), applier.records(), applier.outcomes());
        let found = match attempt {
            Attempt::LogFull => {
                let full = end_full(rt, alloc, gate, &applier, board);
                return (taker, applier, ApplierStop::LogFull(full));
            }
            Attempt::Took(Found::Item) => Found::Item,
            Attempt::Took(Found::Nothing) | Attempt::OutOfMemory => {
                if taker.look(gate).is_some() {
                    return (taker, applier, ApplierStop::Closing);
                }
                Found::Nothing
            }
        };
        last = show_turn(rt, alloc, &mut applier, found, clock, last, board);
        rest_after(rt, gate, &mut taker, &applier, attempt, last);
    }
    unreachable!()
}
