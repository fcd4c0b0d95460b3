ghost use Rattle.std.specs.Prelude.{◌≡◌, ◌≤◌, ◌^◌, ◌-◌, length, true, false};
ghost use Rattle.std.specs.Prelude.{None, IfOk, IfErr, IsSome};
ghost use Rattle.gate_boards.specs.Boards.{is_due, quiet_after, rest_after};
ghost use Rattle.gate_boards.specs.Boards.{shows_all, sleep_before};
ghost use Rattle.gate_boards.specs.declared.boards.Found.TheVariants.{Nothing};
ghost use Rattle.gate_boards.specs.inner.Publishing.{IsTried};

use gate_applier::Applier;
use gate_environment::times::{
    BOARD_RESTS, LEAST_BOARD_REST_MILLIS, MOST_BOARD_REST_MILLIS, PAUSE_MILLIS, QUIET_PAUSES,
};
use gate_model::Moment;
use gate_pages::{Board, publish};
use std::alloc::{AllocError, Global};
use std::sync::{Mutex, Wait};
use std::time::{Clock, Instant};

/// What the applier found in the queue.
#[derive(Clone, Copy)]
pub(crate) enum Found {
    Item,
    Nothing,
}

/// A board was published: only `replace` makes one of these.
#[derive(Clone, Copy)]
pub(crate) struct Published(());

/// The last board that was tried.
#[derive(Clone, Copy)]
pub(crate) struct LastBoard {
    // How many records it shows.
    pub(crate) records: usize,
    // Its moment.
    pub(crate) moment: Moment,
    // None: there was no memory for it.
    pub(crate) published: Option<Published>,
    // When it was made; None: none was, or the clock could not be read.
    pub(crate) ended: Option<Instant>,
    // For how long no other one is made after it.
    pub(crate) rest_millis: u64,
    // How many turns without an item come before the next one.
    pub(crate) quiet_pauses: u32,
}

impl LastBoard {
    /// Whether it was published, and shows so many records and this moment.
    pub(crate) fn shows_all(&self, records: usize, now: Moment) -> bool
        ensures { result ≡ shows_all self.now records now }
    {
        self.published.is_some() && self.records == records && now.0 <= self.moment.0
    }

    /// For how many milliseconds the applier sleeps where a board isn't due yet, so long after it.
    pub(crate) fn sleep_millis(&self, passed_millis: u64) -> u64
        ensures { result ≡ sleep_before self.now passed_millis }
    {
        if self.quiet_pauses == 0 {
            self.rest_millis
                .saturating_sub(passed_millis)
                .max(PAUSE_MILLIS)
        } else {
            PAUSE_MILLIS
        }
    }
}

/// For how long no other board is made after one that took so long. Own rule.
pub(crate) fn rest_of(took_millis: u64) -> u64
    ensures rest { result ≡ rest_after took_millis }
    ensures most { result ≤ 5_000 }
{
    took_millis
        .saturating_mul(BOARD_RESTS)
        .clamp(LEAST_BOARD_REST_MILLIS, MOST_BOARD_REST_MILLIS)
}

/// Whether a board is tried now, and how many turns without an item then come before the next one.
#[derive(Clone, Copy)]
pub(crate) struct NextBoard {
    pub(crate) is_due: bool,
    pub(crate) quiet_pauses: u32,
}

/// Decides in each turn of the applier whether a board is tried: one of so many records, at this
/// moment, so long after the last one. Where there was no memory for it, one is still due. Own rule.
pub(crate) fn next_board(
    last: LastBoard,
    found: Found,
    records: usize,
    now: Moment,
    passed_millis: u64,
) -> NextBoard
    requires { last.rest_millis ≤ 5_000 }
    ensures due { result.is_due ≡ is_due found last records now passed_millis }
    ensures quiet { result.quiet_pauses ≡ quiet_after found last.quiet_pauses }
    // Where something isn't shown, a board is due after 5 seconds and three turns without an item at most.
    ensures within { found ≡ Nothing → last.quiet_pauses ≡ 0 → shows_all last records now ≡ false
        → 5_000 ≤ passed_millis → result.is_due ≡ true }
{
    let has_rested = last.rest_millis <= passed_millis;
    let is_due = match found {
        Found::Item => last.moment.0 < now.0 && has_rested,
        Found::Nothing => { last.quiet_pauses == 0 && !last.shows_all(records, now) && has_rested }
    };
    let quiet_pauses = match found {
        Found::Item => QUIET_PAUSES,
        Found::Nothing => last.quiet_pauses.saturating_sub(1),
    };
    NextBoard {
        is_due,
        quiet_pauses,
    }
}

/// How many milliseconds have passed since then; 2^64 - 1 where that isn't known.
pub(crate) fn millis_since<R: Clock>(rt: &R, then: Option<Instant>) -> u64
    ensures { then ≡ None → result ≡ 2 ^ 64 - 1 }
{
    let passed = then.and_then(|then| then.elapsed(rt).ok());
    match passed {
        Some(passed) => u64::try_from(passed.as_millis()).unwrap_or(u64::MAX),
        None => u64::MAX,
    }
}

/// Replaces the board, if the next one could be made.
pub(crate) fn replace(board: &mut Board, next: Result<Board, AllocError>) -> Option<Published>
    ensures published { IfOk next (λ made. IsSome result × (board.new ≡ made)) }
    ensures kept { IfErr next (λ _. (result ≡ None) × (board.new ≡ board.old)) }
{
    match next {
        Ok(next) => {
            publish(board, next);
            Some(Published(()))
        }
        Err(_) => None,
    }
}

/// Publishes a board of what the applier shows, where one is due so long after the last one.
pub(crate) fn show<R: Wait + Clock>(
    rt: &R,
    alloc: Global,
    applier: &Applier,
    found: Found,
    last: LastBoard,
    passed_millis: u64,
    board: &Mutex<Board>,
) -> LastBoard
    requires rest { last.rest_millis ≤ 5_000 }
    ensures due { let shown = applier.now in
        is_due found last (length shown.records) shown.moment passed_millis ≡ true
        → IsTried shown result }
    ensures waits { let shown = applier.now in
        is_due found last (length shown.records) shown.moment passed_millis ≡ false
        → result ≡ record last { quiet_pauses = quiet_after found last.quiet_pauses } }
    ensures rest { result.rest_millis ≤ 5_000 }
{
    let moment = applier.moment();
    let records = applier.records().len();
    let NextBoard {
        is_due,
        quiet_pauses,
    } = next_board(last, found, records, moment, passed_millis);
    if !is_due {
        return LastBoard {
            quiet_pauses,
            ..last
        };
    }
    let began = Instant::now(rt).ok();
    // It is made before the lock is taken, so that no page waits for it.
    let next = Board::of(alloc, applier);
    let published = replace(&mut board.lock(rt), next);
    let took_millis = millis_since(rt, began);
    LastBoard {
        records,
        moment,
        published,
        ended: Instant::now(rt).ok(),
        rest_millis: rest_of(took_millis),
        quiet_pauses,
    }
}
