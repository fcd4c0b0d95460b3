ghost use Rattle.std.specs.Prelude.{◌≡◌, ◌<◌, length, vec_len};
ghost use Rattle.gate_downtime.specs.inner.Walk.{AllFlexLinked, may_begin};
ghost use Rattle.gate_downtime.specs.inner.Pruning.{SetsNext, IsLastWithin, SameKin};
ghost use Rattle.gate_downtime.specs.inner.Sizes.{SameSize};

use crate::links::{Link, link_at, write_link};
use crate::row::{Row, row_at};

/// Whether a transition can begin the entry of an untriggered flexible row, now or later.
fn may_begin(row: Row, now: u32) -> bool
    ensures { result ≡ may_begin now row.entry }
{
    row.entry.transition.is_none() && !row.entry.deleted && now < row.entry.scheduled.plan.ends.0
}

/// The row after the last one of a list that was kept becomes this one. Where none was kept, it is
/// the list's first.
fn set_next(
    links: &mut Vec<Link>,
    heads: &mut Vec<Option<usize>>,
    place: usize,
    last: Option<usize>,
    next: Option<usize>,
)
    requires place { place < length heads.old.items }
    requires last { IsLastWithin last links.old.items }
    ensures sets { SetsNext last next place links.old.items heads.old.items
        links.new.items heads.new.items }
    ensures size { SameSize links.old links.new }
    ensures heads_len { vec_len heads.new ≡ vec_len heads.old }
{
    match last {
        None => heads[place] = next,
        Some(at) => {
            let link = link_at(links, at);
            write_link(
                links,
                at,
                Link {
                    child: link.child,
                    sibling: link.sibling,
                    waiting: next,
                },
            );
        }
    }
}

/// Takes the rows that no transition can begin any more out of the object's list of waiting rows.
pub fn prune(
    rows: &[Row],
    links: &mut Vec<Link>,
    heads: &mut Vec<Option<usize>>,
    place: usize,
    now: u32,
)
    requires place { place < length heads.old.items }
    requires linked { length links.old.items ≡ length rows.now }
    requires waiting { AllFlexLinked now rows.now links.old.items heads.old.items }
    ensures waiting { AllFlexLinked now rows.now links.new.items heads.new.items }
    ensures kin { SameKin links.old.items links.new.items }
    ensures size { SameSize links.old links.new }
    ensures heads_len { vec_len heads.new ≡ vec_len heads.old }
{
    let mut last = None;
    let mut cursor = heads[place];
    'walk: while let Some(at) = cursor {
        let link = link_at(links, at);
        let row = row_at(rows, at);
        cursor = link.waiting;
        if may_begin(row, now) {
            last = Some(at);
        } else {
            set_next(links, heads, place, last, link.waiting);
        }
    }
}
