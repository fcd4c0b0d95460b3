ghost use Rattle.std.specs.Prelude.{◌≡◌, ◌∷◌, ◌++◌, ◌<◌, ℕ, List, length, codes, true, IfOk, IfErr, IfSome, MatchOption, MatchResult, OnOk};
ghost use Rattle.gate_pages.specs.StatusPage.{BoardView, status_text};
ghost use Rattle.status_reading.specs.Rows.{PageView, page_view};
ghost use Rattle.status_reading.specs.Page.{status_line, page_text};
ghost use Rattle.status_reading.specs.Readable.{Fits, IsReadable};
ghost use Rattle.status_reading.specs.RowFaults.{IsSound};
ghost use Rattle.status_reading.specs.Faults.{IsFaultOf};
ghost use Rattle.status_reading.specs.Board.{IsPlainBoard, shown_board};
ghost use Rattle.status_reading.specs.Gateway.{GatewayView, IsGateway, published_board};
ghost use Rattle.status_reading.specs.inner.Reading.{IsPageOf};
ghost use Rattle.status_reading.specs.inner.Rows.{row_view, content, IsReadableRow, may_go_on, with_row, IsEnded};

use crate::cuts::cut;
use crate::lines::{Row, read_row};
use crate::row_faults::{RowFault, check_rows};
use crate::rows::{ShownComment, ShownDowntime, ShownObject};
use crate::words;
use std::alloc::{AllocError, AllocFailed, Global};
use thiserror::Error;

/// A status page: what a gateway shows at one moment. Moments are in seconds since 1970.
#[derive(Drop)]
pub struct StatusPage<'a> {
    pub moment: u32,
    pub objects: Vec<ShownObject<'a>>,
    pub comments: Vec<ShownComment<'a>>,
    pub downtimes: Vec<ShownDowntime<'a>>,
    /// The moment of the close, where the gateway is closing.
    pub closing: Option<u32>,
}

/// Why a text is no status page.
#[derive(Clone, Copy, Debug, Error)]
pub enum ReadFault {
    /// It doesn't begin with `status`, a space, a moment and LF.
    #[error("not a status page")]
    NoStatus,
    /// The line of this number, from 1, may not follow the lines before it, or has no LF.
    #[error("line {0} is no line of a status page, or is cut off")]
    BadLine(usize),
    /// Each line is one of a status page, but no gateway writes the line of this number, from 1.
    #[error("line {0} is none that a gateway writes there: {1}")]
    BadRow(usize, RowFault),
    #[error("out of memory")]
    OutOfMemory,
}

impl From<AllocError> for ReadFault {
    ghost use Rattle.status_reading.specs.declared.page.ReadFault.TheVariants.{OutOfMemory};

    ghost from_gives = { λ _ fault. fault ≡ OutOfMemory };

    fn from(_: AllocError) -> ReadFault {
        ReadFault::OutOfMemory
    }
}

impl<T: Drop> From<AllocFailed<T>> for ReadFault {
    ghost use Rattle.status_reading.specs.declared.page.ReadFault.TheVariants.{OutOfMemory};

    ghost from_gives = { λ _ fault. fault ≡ OutOfMemory };

    fn from(_: AllocFailed<T>) -> ReadFault {
        ReadFault::OutOfMemory
    }
}

impl<'a> StatusPage<'a> {
    /// Whether a page may go on with this row: objects come first, then comments, then downtime
    /// entries, and the close is the last line.
    #[tactic(auto, using(crate::proofs::PageSteps::none_of_map))]
    fn may_go_on(&self, row: &Row<'a>) -> bool
        ensures { result ≡ may_go_on (page_view self.now) (row_view row.now) }
    {
        if self.closing.is_some() {
            return false;
        }
        match row {
            Row::Object(_) => self.comments.is_empty() && self.downtimes.is_empty(),
            Row::Comment(_) => self.downtimes.is_empty(),
            Row::Downtime(_) | Row::Closing(_) => true,
        }
    }

    /// Adds a row.
    fn push(&mut self, row: Row<'a>) -> Result<(), ReadFault>
        ensures ok { OnOk result
            (page_view self.new ≡ with_row (page_view self.old) (row_view row.entry)) }
        ensures err { IfErr result (λ fault. fault ≡ ReadFault.OutOfMemory) }
    {
        match row {
            Row::Object(object) => self.objects.push(object)?,
            Row::Comment(comment) => self.comments.push(comment)?,
            Row::Downtime(downtime) => self.downtimes.push(downtime)?,
            Row::Closing(moment) => self.closing = Some(moment),
        }
        Ok(())
    }
}

fn moment_field(line: &[u8]) -> Option<&[u8]>
    ensures { MatchOption result
        ((field : List ℕ) → line.now ≡ codes "status " ++ field → ⊥)
        (λ field. line.now ≡ codes "status " ++ field.now) }
{
    match line.strip_prefix(b"status ".as_slice()) {
        Some(field) => Some(field),
        None => None,
    }
}

/// The moment of the first line, and the lines after it.
fn status_line(text: &[u8]) -> Option<(u32, &[u8])>
    ensures { MatchOption result
        ((moment : ℕ) (rest : List ℕ) → Fits moment → text.now ≡ status_line moment ++ rest → ⊥)
        (λ found. (text.now ≡ status_line found.0 ++ found.1.now) × Fits found.0) }
{
    let (line, rest) = cut(text, b'\n')?;
    let field = moment_field(line)?;
    Some((words::number(field)?, rest))
}

/// The row of the next line, where a page may go on with it, and the lines after it.
fn next_row<'a>(page: &StatusPage<'a>, text: &'a [u8]) -> Option<(Row<'a>, &'a [u8])>
    ensures next { MatchOption result
        (IsEnded (page_view page.now) text.now)
        (λ found. (text.now ≡ content (row_view found.0) ++ 10 ∷ found.1.now)
        × IsReadableRow (row_view found.0)
        × (may_go_on (page_view page.now) (row_view found.0) ≡ true)) }
    ensures shorter { IfSome result (λ found. length found.1.now < length text.now) }
{
    let (line, rest) = cut(text, b'\n')?;
    let next = read_row(line)?;
    if page.may_go_on(&next) {
        Some((next, rest))
    } else {
        None
    }
}

/// Reads the lines of a page, or finds the first that is none.
pub(crate) fn read_lines<'a>(alloc: Global, text: &'a [u8]) -> Result<StatusPage<'a>, ReadFault>
    ensures { MatchResult result
        (λ page. IsPageOf text.now (page_view page))
        (IsFaultOf text.now) }
{
    let Some((moment, lines)) = status_line(text) else {
        return Err(ReadFault::NoStatus);
    };
    let mut page = StatusPage {
        moment,
        objects: Vec::new(alloc),
        comments: Vec::new(alloc),
        downtimes: Vec::new(alloc),
        closing: None,
    };
    let mut rest = lines;
    let mut number = 1;
    while !rest.is_empty() {
        number += 1;
        let Some((next, after)) = next_row(&page, rest) else {
            return Err(ReadFault::BadLine(number));
        };
        page.push(next)?;
        rest = after;
    }
    Ok(page)
}

// Reads the rows of a page, or finds the first line or the first row that is bad.
fn read_rows<'a>(alloc: Global, text: &'a [u8]) -> Result<StatusPage<'a>, ReadFault>
    ensures { MatchResult result
        (λ page. IsPageOf text.now (page_view page) × IsSound (page_view page))
        (IsFaultOf text.now) }
{
    let page = read_lines(alloc, text)?;
    check_rows(alloc, &page)?;
    Ok(page)
}

/// Reads a status page into rows. A page that is cut within a line is refused whole, and so is one
/// that no gateway writes, as where the cut takes away an active downtime entry. A page that is cut
/// between two lines can be the page of its first rows: nothing of the text shows the cut then.
///
/// `BadLine` names the first line that no page has after the lines before it, or that has no LF.
/// Where each line is one of a page, `BadRow` names the first row that no gateway writes.
/// `OutOfMemory` may come in the place of any other answer.
///
/// Own rule: the lines of a status page, and the faults of its rows.
pub fn read_status_page<'a>(alloc: Global, text: &'a [u8]) -> Result<StatusPage<'a>, ReadFault>
    // What is read, written again, is the text.
    ensures written { IfOk result (λ page. text.now ≡ page_text (page_view page)) }

    // It is a page whose fields can be read, and no row of it has a fault.
    ensures page { IfOk result (λ page. IsReadable (page_view page) × IsSound (page_view page)) }

    // The page of any rows without a fault is read as these rows, where no field holds an LF, and none
    // but the last of a line a semicolon.
    ensures read { (page : PageView) → IsReadable page → IsSound page → text.now ≡ page_text page
        → MatchResult result
        (λ found. page_view found ≡ page)
        (λ fault. fault ≡ ReadFault.OutOfMemory) }
    ensures fault { IfErr result (IsFaultOf text.now) }

    // So is the page of a board, where its names and authors hold no semicolon.
    ensures board { (board : BoardView) → IsPlainBoard board → IsSound (shown_board board)
        → text.now ≡ status_text board
        → MatchResult result
        (λ found. page_view found ≡ shown_board board)
        (λ fault. fault ≡ ReadFault.OutOfMemory) }

    // The page of a gateway is read as what its records make of its objects.
    ensures gateway { (gateway : GatewayView) → IsGateway gateway
        → text.now ≡ status_text (published_board gateway)
        → MatchResult result
        (λ found. page_view found ≡ shown_board (published_board gateway))
        (λ fault. fault ≡ ReadFault.OutOfMemory) }
{
    read_rows(alloc, text)
}
