//! Rows of several pages in groups: those with one key.

ghost use Rattle.std.specs.Prelude.{◌≡◌, [], IfOk, map, filter, unwrap_or};
ghost use Rattle.std.specs.Option.{option_map};
ghost use Rattle.std.specs.HashMap.{get};
ghost use Rattle.std.specs.Vec.Iter.{into_iter_items};
ghost use Rattle.status_merge.specs.Groups.{firsts, groups};
ghost use Rattle.status_merge.specs.inner.Views.{group_view};

use itertools::Itertools;
use std::alloc::{AllocError, Global};
use std::collections::HashMap;
use std::hash::Hash;
use std::vec::IntoIter;

/// A row, with the key of its group.
pub(crate) trait Keyed: Copy + Drop {
    type Key: Eq + Hash + Drop;

    ghost key_of: { Self → Self.Key };

    fn key(&self) -> Self::Key
        ensures { result ≡ key_of self.now };
}

/// The rows of one key, in their order.
#[derive(Drop)]
pub(crate) struct Group<R> {
    pub first: R,
    /// The first one too.
    pub rows: Vec<R>,
}

fn by_key<R: Keyed>(alloc: Global, rows: &[R]) -> Result<HashMap<R::Key, Vec<R>>, AllocError>
    ensures { IfOk result (λ found. (key : R.Key)
        → unwrap_or (option_map (λ group. group.items) (get R.Key.eq found key)) []
        ≡ filter (λ row. R.Key.eq (R.key_of row) key) rows.now) }
{
    rows.iter()
        .copied()
        .into_group_map_by(alloc, |row| row.key())
}

fn firsts<R: Keyed>(alloc: Global, rows: &[R]) -> Result<IntoIter<R>, AllocError>
    ensures { IfOk result (λ found. into_iter_items found
        ≡ firsts (λ one other. R.Key.eq (R.key_of one) (R.key_of other)) rows.now) }
{
    rows.iter().copied().unique_by(alloc, |row| row.key())
}

fn rows_like<R: Keyed>(
    alloc: Global,
    by_key: &HashMap<R::Key, Vec<R>>,
    first: &R,
) -> Result<Vec<R>, AllocError>
    ensures { IfOk result (λ rows. rows.items ≡ unwrap_or (option_map (λ group. group.items)
        (get R.Key.eq by_key.now (R.key_of first.now))) []) }
{
    match by_key.get(&first.key()) {
        Some(rows) => Ok(Vec::from_slice(alloc, rows.as_slice())?),
        None => Ok(Vec::new(alloc)),
    }
}

/// Groups rows by their keys, in the order of the keys' first rows.
pub(crate) fn grouped<R: Keyed>(alloc: Global, rows: &[R]) -> Result<Vec<Group<R>>, AllocError>
    ensures { IfOk result (λ found. map group_view found.items
        ≡ groups (λ one other. R.Key.eq (R.key_of one) (R.key_of other)) rows.now) }
{
    let by_key = by_key(alloc, rows)?;
    let mut found = Vec::new(alloc);
    for first in firsts(alloc, rows)? {
        let rows = rows_like(alloc, &by_key, &first)?;
        found.push(Group { first, rows })?;
    }
    Ok(found)
}
