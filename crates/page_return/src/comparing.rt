ghost use Rattle.std.specs.Prelude.{◌≡◌, ◌↔◌, IfOk};
ghost use Rattle.std.specs.Option.{option_map};
ghost use Rattle.page_return.specs.Missing.{after_same, missing_from, missing_objects, missing_comments, missing_downtimes, IsNone, IsShownAgain};

use crate::again::Again;
use status_reading::StatusPage;
use std::alloc::{AllocError, Global};

/// The rows of a kept page that another page doesn't show again, by their indexes from 0.
#[derive(Drop)]
pub struct Missing {
    pub objects: Vec<usize>,
    pub comments: Vec<usize>,
    pub downtimes: Vec<usize>,
}

/// What stands after the first row that shows the same as this one.
fn after_same<'a, T: Again>(row: &T, shown: &'a [T]) -> Option<&'a [T]>
    ensures { option_map (λ rest. rest.now) result ≡ after_same T.same row.now shown.now }
{
    for (index, one) in shown.iter().enumerate() {
        if row.is_again(one) {
            return Some(&shown[index + 1..]);
        }
    }
    None
}

/// The indexes of the kept rows that aren't shown again.
fn missing_rows<T: Again>(alloc: Global, kept: &[T], shown: &[T]) -> Result<Vec<usize>, AllocError>
    ensures { IfOk result (λ missing. missing.items ≡ missing_from T.same 0 kept.now shown.now) }
{
    let mut missing = Vec::new(alloc);
    let mut rest = shown;
    for (index, row) in kept.iter().enumerate() {
        match after_same(row, rest) {
            Some(after) => rest = after,
            None => missing.push(index)?,
        }
    }
    Ok(missing)
}

/// The rows of the page `kept` that the page `shown` doesn't show again: rows are compared in the
/// order of the pages, and but for ids and moments. Rows of the page `shown` that the other hasn't
/// may stand between. The only error is out of memory. Own rule.
pub fn find_missing(
    alloc: Global,
    kept: &StatusPage<'_>,
    shown: &StatusPage<'_>,
) -> Result<Missing, AllocError>
    ensures objects { IfOk result (λ missing.
        missing.objects.items ≡ missing_objects kept.now shown.now) }
    ensures comments { IfOk result (λ missing.
        missing.comments.items ≡ missing_comments kept.now shown.now) }
    ensures downtimes { IfOk result (λ missing.
        missing.downtimes.items ≡ missing_downtimes kept.now shown.now) }

    // No row is missing exactly where each stands on the page, in the order of the kept ones.
    ensures none { IfOk result (λ missing.
        IsNone missing ↔ IsShownAgain kept.now shown.now) }
{
    let objects = missing_rows(alloc, kept.objects.as_slice(), shown.objects.as_slice())?;
    let comments = missing_rows(alloc, kept.comments.as_slice(), shown.comments.as_slice())?;
    let downtimes = missing_rows(alloc, kept.downtimes.as_slice(), shown.downtimes.as_slice())?;
    Ok(Missing {
        objects,
        comments,
        downtimes,
    })
}
