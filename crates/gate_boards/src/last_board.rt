ghost use Rattle.std.specs.Prelude.{◌≡◌, IfSome, Some, None};

use gate_applier::Applier;
use gate_environment::times::MEMORY_TRIES;
use gate_environment::{Wake, pause};
use gate_model::Moment;
use gate_pages::{Board, publish};
use std::alloc::Global;
use std::sync::{Mutex, Wait};
use std::time::Clock;

/// With which moment the board is marked that was published last; None: there was no memory for it.
/// Only `end_pages` makes one of these.
#[derive(Clone, Copy)]
pub struct LastShown {
    closing: Option<Moment>,
}

// Publishes a board that is marked closing, at this moment.
fn publish_last(board: &mut Board, next: Board, moment: Moment) -> LastShown
    requires { next.shown.closing ≡ Some moment }
    ensures published { board.new ≡ next }
    ensures shown { result.closing ≡ Some moment }
{
    publish(board, next);
    LastShown {
        closing: Some(moment),
    }
}

// Publishes a board that is marked closing, so that the pages end with it. Where there is no memory for
// it, it is tried for a second.
fn show_close<R: Wait + Clock>(
    rt: &R,
    alloc: Global,
    applier: &Applier,
    board: &Mutex<Board>,
    moment: Moment,
) -> LastShown
    ensures { IfSome result.closing (λ shown. shown ≡ moment) }
{
    for _ in 0..MEMORY_TRIES {
        if let Ok(next) = Board::of(alloc, applier) {
            return publish_last(&mut board.lock(rt), next.closing(moment), moment);
        }
        pause(rt);
    }
    LastShown { closing: None }
}

/// The server of the status page was woken, once the last board stood there for it. Only `end_pages`
/// makes one of these.
#[derive(Clone, Copy)]
pub struct Woken {
    last: LastShown,
}

// Wakes the thread that serves pages. Woken before the last board is published, it would end with
// an earlier one.
fn wake_pages<W: Wake>(wake: &W, last: LastShown) -> Woken
    ensures last { result.last ≡ last }
    ensures woken { W.has_woken_pages wake.now }
{
    wake.pages();
    Woken { last }
}

/// Ends the server of the status page: publishes a board that is marked closing, at this moment, and
/// wakes the server. Where there is no memory for the board, it is tried for a second. Own rule.
pub fn end_pages<R: Wait + Clock, W: Wake>(
    rt: &R,
    alloc: Global,
    applier: &Applier,
    board: &Mutex<Board>,
    moment: Moment,
    wake: &W,
) -> Woken
    ensures last { IfSome result.last.closing (λ shown. shown ≡ moment) }
    ensures woken { W.has_woken_pages wake.now }
{
    wake_pages(wake, show_close(rt, alloc, applier, board, moment))
}
