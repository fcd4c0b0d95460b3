ghost use Rattle.std.specs.Prelude.{◌≡◌, IfOk};
ghost use Rattle.std.specs.Arc.{arc_value};
ghost use Rattle.gate_pages.specs.StatusPage.{status_text};
ghost use Rattle.gate_boards.specs.Showing.{ShowsBoard, IsShowing};
ghost use Rattle.gate_boards.specs.inner.Making.{IsMadeOf};
ghost use Rattle.gate_boards.specs.inner.Serving.{ServesOnce};

use gate_environment::times::MEMORY_TRIES;
use gate_environment::{Connections, PieceEnd, pause};
use gate_pages::Board;
use gate_streams::{Sink, put_last};
use std::alloc::{AllocError, Global};
use std::sync::{Arc, Mutex, Wait};
use std::time::Clock;

// The status page of a board, if there is memory for it. The first reader's is kept for the others.
fn shared_page(alloc: Global, board: &mut Board) -> Result<Arc<Vec<u8>, Global>, AllocError>
    ensures text { IfOk result (λ page. (arc_value page).items ≡ status_text board.old.shown) }
    ensures shown { board.new.shown ≡ board.old.shown }
{
    board.keep_page(alloc)?;
    match board.kept_page() {
        Some(page) => Arc::try_clone(page),
        None => unreachable!(),
    }
}

// The status page of the board, if there is memory for it, and whether it is the last one: that of a
// closing board.
fn page_of<R: Wait>(
    rt: &R,
    alloc: Global,
    board: &Mutex<Board>,
) -> (Result<Arc<Vec<u8>, Global>, AllocError>, bool)
    ensures { IsMadeOf result.0 result.1 }
{
    let mut board = board.lock(rt);
    let is_last = board.closes_at().is_some();
    (shared_page(alloc, &mut board), is_last)
}

// The same, where memory for the page is missing after a second.
fn next_page<R: Wait + Clock>(
    rt: &R,
    alloc: Global,
    board: &Mutex<Board>,
) -> (Result<Arc<Vec<u8>, Global>, AllocError>, bool)
    ensures { IsMadeOf result.0 result.1 }
{
    for _ in 1..MEMORY_TRIES {
        let (page, is_last) = page_of(rt, alloc, board);
        if page.is_ok() {
            return (page, is_last);
        }
        pause(rt);
    }
    page_of(rt, alloc, board)
}

// Writes the page of the board that stands there to a reader, who doesn't get it where it has gone, or
// where memory for it is missing after a second. Whether it was the last one.
fn show_page<R: Wait + Clock, O: Sink>(
    rt: &R,
    alloc: Global,
    board: &Mutex<Board>,
    output: &mut O,
) -> bool
    ensures { ShowsBoard (O.state output.old) (O.state output.new) result }
{
    let (page, is_last) = next_page(rt, alloc, board);
    if let Ok(page) = page {
        let _ = put_last(output, page.as_slice());
    }
    is_last
}

/// Why the pages ended. Own rules.
#[derive(Clone, Copy)]
pub enum PagesEnd {
    /// A reader was served with a closing board.
    Closed,
    /// There are no more readers.
    NoMoreReaders,
}

// Shows each reader a board, until one is shown a closing board or none is left.
fn show_readers<R: Wait + Clock, C: Connections>(
    rt: &R,
    alloc: Global,
    connections: &mut C,
    board: &Mutex<Board>,
) -> PagesEnd
    ensures { ServesOnce (C.streams connections.old) result
        (C.parted connections.old) (C.parted connections.new) }
{
    for _ in rt.forever() {
        let Some(mut piece) = connections.next() else {
            return PagesEnd::NoMoreReaders;
        };
        let is_last = show_page(rt, alloc, board, &mut piece.output);
        connections.part(piece, PieceEnd::Over);
        if is_last {
            return PagesEnd::Closed;
        }
    }
    unreachable!()
}

/// Writes the status page to each connection, which is over after its one piece. It ends after the
/// first connection that is served with a closing board, and where there are no more connections.
///
/// What a connection sends isn't looked at. A page for which memory is missing for a second isn't
/// written. It waits for the connections and for the board. Own rule.
pub fn run_pages<R: Wait + Clock, C: Connections + Drop>(
    rt: &R,
    alloc: Global,
    mut connections: C,
    board: &Mutex<Board>,
) -> PagesEnd
    ensures { IsShowing (C.streams connections) result }
{
    let end = show_readers(rt, alloc, &mut connections, board);
    connections.end();
    end
}
