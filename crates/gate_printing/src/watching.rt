ghost use Rattle.std.specs.Prelude.{◌≡◌, ◌≤◌, IfSome};
ghost use Rattle.gate_printing.specs.Watching.{IsNoticed, still_after};

use crate::progress::Progress;
use gate_streams::{Sink, put_last};
use std::sync::Wait;
use std::time::{Clock, Duration, Instant};

/// After how long without a printed line it is said that nobody reads the page.
pub const STILL_MILLIS: u64 = 10_000;

// How often is looked for printed lines.
const LOOK_MILLIS: u64 = 500;

// What was seen of the progress: how many lines are printed, and for how long there were no more.
#[derive(Clone, Copy)]
struct Seen {
    lines: u64,
    still_millis: u64,
}

// What is seen so many milliseconds later.
fn seen_after(last: Seen, lines: u64, millis: u64) -> Seen
    ensures lines { result.lines ≡ lines }
    ensures still { result.still_millis ≡ still_after last.lines last.still_millis lines millis }
{
    let still_millis = if lines == last.lines {
        last.still_millis.saturating_add(millis)
    } else {
        0
    };
    Seen {
        lines,
        still_millis,
    }
}

// How many milliseconds lie between two readings of the clock; none where it can't be read.
fn millis_between(earlier: Option<Instant>, later: Option<Instant>) -> u64 {
    match (earlier, later) {
        (Some(earlier), Some(later)) => {
            u64::try_from(later.duration_since(earlier).as_millis()).unwrap_or(u64::MAX)
        }
        _ => 0,
    }
}

// Looks until the page is over, or no line was printed for 10 s.
fn stands_still<R: Wait + Clock>(rt: &R, progress: &Progress) -> Option<Seen>
    ensures { IfSome result (λ seen. STILL_MILLIS ≤ seen.still_millis) }
{
    let mut seen = Seen {
        lines: progress.lines(),
        still_millis: 0,
    };
    let mut at = Instant::now(rt).ok();
    for _ in rt.forever() {
        progress.rest(rt, Duration::from_millis(LOOK_MILLIS));
        if progress.is_over() {
            return None;
        }
        let now = Instant::now(rt).ok();
        seen = seen_after(seen, progress.lines(), millis_between(at, now));
        at = now;
        if STILL_MILLIS <= seen.still_millis {
            return Some(seen);
        }
    }
    unreachable!()
}

/// Waits until a page begins. Where no line of it is printed for 10 s, it says once on `errors` that
/// nobody reads the log page. It returns then, or once the page is over. That the line can't be written
/// changes nothing. Own rule.
pub fn watch<R: Wait + Clock, E: Sink>(rt: &R, progress: &Progress, errors: &mut E)
    ensures { IsNoticed (E.state errors.old) (E.state errors.new) }
{
    progress.wait(rt);
    if stands_still(rt, progress).is_some() {
        let _unsaid = put_last(errors, b"nscagate: nobody reads the log page\n");
    }
}
