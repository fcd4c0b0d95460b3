ghost use Rattle.std.specs.Prelude.{◌≡◌, Some, IfOk, IfSome, IsOk, IsTrue, false, is_ok, is_some};
ghost use Rattle.std.specs.Arc.{arc_value};
ghost use Rattle.gate_pages.specs.StatusPage.{board_at, status_text};

use crate::rows::{comment_rows, downtime_rows, object_rows};
use gate_applier::Applier;
use gate_lines::{
    CommentRow, DowntimeRow, ObjectRow, push_closing, push_comments, push_downtimes, push_objects,
};
use gate_model::{Moment, push_number};
use std::alloc::{AllocError, Global};
use std::marker::Model;
use std::sync::Arc;

/// What a status page shows: the rows of one moment, and the moment of the close once the page is
/// marked closing. It owns all of it, so that another thread can write the page.
#[derive(Drop)]
struct Shown {
    moment: Moment,
    objects: Vec<ObjectRow>,
    comments: Vec<CommentRow>,
    downtimes: Vec<DowntimeRow>,
    closing: Option<Moment>,
}

impl Model for Shown {
    ghost use Rattle.gate_pages.specs.StatusPage.{BoardView};

    ghost Value = { BoardView };

    ghost view = { λ shown. record {
      moment = shown.moment;
      objects = shown.objects.items;
      comments = shown.comments.items;
      downtimes = shown.downtimes.items;
      closing = shown.closing;
    } };
}

/// What a status page shows, and the page once somebody has asked for it: all its readers get that one.
pub struct Board {
    shown: Shown,
    page: Option<Arc<Vec<u8>, Global>>,
}

// Who drops a board calls this, and knows nothing of its parts.
impl Drop for Board {
    fn drop(self) {
        let Board {
            shown: _shown,
            page: _page,
        } = self;
    }
}

impl Model for Board {
    ghost use Rattle.std.specs.Prelude.{◌≡◌, IfSome, is_some};
    ghost use Rattle.std.specs.Arc.{arc_value};
    ghost use Rattle.gate_pages.specs.StatusPage.{BoardState, status_text};

    ghost Value = { BoardState };

    ghost view = { λ board. record { shown = board.shown; has_page = is_some board.page } };

    ghost invariant = { λ board.
        IfSome board.page (λ page. (arc_value page).items ≡ status_text board.shown) };
}

impl Board {
    /// The board of what an applier shows: its moment, and a row for each object of its table, for
    /// each comment and for each live downtime entry. The only error is out of memory.
    pub fn of(alloc: Global, applier: &Applier) -> Result<Board, AllocError>
        ensures shown { let now = applier.now in IfOk result (λ board.
            board.shown ≡ board_at now.table now.opening now.records now.moment) }
        ensures none_kept { IfOk result (λ board. board.has_page ≡ false) }
    {
        let shown = Shown {
            moment: applier.moment(),
            objects: object_rows(alloc, applier)?,
            comments: comment_rows(
                alloc,
                applier.table(),
                applier.records(),
                applier.comments(),
            )?,
            downtimes: downtime_rows(alloc, applier)?,
            closing: None,
        };
        Ok(Board { shown, page: None })
    }

    /// Marks the board closing, so that its page ends with the close's moment. A page that was kept
    /// is none of it.
    pub fn closing(self, moment: Moment) -> Board
        ensures shown { result.shown ≡ record self.shown { closing = Some moment } }
        ensures none_kept { result.has_page ≡ false }
    {
        let mut board = self;
        board.shown.closing = Some(moment);
        board.page = None;
        board
    }

    /// The moment of the close, where the board is marked closing.
    pub fn closes_at(&self) -> Option<Moment>
        ensures { result ≡ self.now.shown.closing }
    {
        self.shown.closing
    }

    /// Makes the board's status page and keeps it. Where one is kept, none is made, and no memory is
    /// asked for. The only error is out of memory.
    pub fn keep_page(&mut self, alloc: Global) -> Result<(), AllocError>
        ensures kept { self.new ≡ record self.old { has_page = is_ok result } }
        ensures once { IsTrue self.old.has_page → IsOk result }
    {
        if self.page.is_some() {
            return Ok(());
        }
        let page = page_of(alloc, &self.shown)?;
        match Arc::new(alloc, page) {
            Ok(page) => {
                self.page = Some(page);
                Ok(())
            }
            Err(_) => Err(AllocError),
        }
    }

    /// The board's status page, where it is kept.
    pub fn kept_page(&self) -> Option<&Arc<Vec<u8>, Global>>
        ensures kept { is_some result ≡ self.now.has_page }
        ensures text { IfSome result (λ page.
            (arc_value page.now).items ≡ status_text self.now.shown) }
    {
        self.page.as_ref()
    }
}

/// Replaces a board by the next one.
pub fn publish(board: &mut Board, next: Board)
    ensures { board.new ≡ next }
{
    *board = next;
}

fn page_of(alloc: Global, shown: &Shown) -> Result<Vec<u8>, AllocError>
    ensures { IfOk result (λ page. page.items ≡ status_text shown.now) }
{
    let mut page = Vec::from_slice(alloc, b"status ")?;
    push_number(&mut page, u64::from(shown.moment.0))?;
    page.extend_from_slice(b"\n")?;
    push_objects(&mut page, &shown.objects)?;
    push_comments(&mut page, &shown.comments)?;
    push_downtimes(&mut page, &shown.downtimes)?;
    push_closing(&mut page, shown.closing)?;
    Ok(page)
}

/// Writes the status page of a board: its moment, a line for each object in table order, for each
/// comment and for each live downtime entry, ids ascending, and where it is marked closing the
/// close's moment. The only error is out of memory. Own rule.
pub fn status_page(alloc: Global, board: &Board) -> Result<Vec<u8>, AllocError>
    ensures { IfOk result (λ page. page.items ≡ status_text board.now.shown) }
{
    page_of(alloc, &board.shown)
}
