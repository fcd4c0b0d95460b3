ghost use Rattle.std.specs.Prelude.{OnOk};
ghost use Rattle.status_merge.specs.Sorting.{IsInOrder};
ghost use Rattle.status_merge.specs.declared.query.Sort.TheVariants.{Host, Since, Last};

use crate::gateway::MergedObject;
use crate::query::Sort;
use std::alloc::AllocError;
use std::cmp::Reverse;

fn sort_by_host(rows: &mut Vec<MergedObject<'_>>) -> Result<(), AllocError>
    ensures { OnOk result (IsInOrder Host rows.old.items rows.new.items) }
{
    rows.sort_by_key(|object| object.row.host)?;
    Ok(())
}

fn sort_by_since(rows: &mut Vec<MergedObject<'_>>) -> Result<(), AllocError>
    ensures { OnOk result (IsInOrder Since rows.old.items rows.new.items) }
{
    rows.sort_by_key(|object| Reverse(object.since.moment))?;
    Ok(())
}

fn sort_by_last(rows: &mut Vec<MergedObject<'_>>) -> Result<(), AllocError>
    ensures { OnOk result (IsInOrder Last rows.old.items rows.new.items) }
{
    rows.sort_by_key(|object| object.row.last)?;
    Ok(())
}

/// Puts selected objects, which are by rank, into an order; those of which neither is first stay by
/// rank. The only error is out of memory.
pub fn sort_rows(rows: &mut Vec<MergedObject<'_>>, sort: Sort) -> Result<(), AllocError>
    ensures { OnOk result (IsInOrder sort rows.old.items rows.new.items) }
{
    match sort {
        Sort::Worst => Ok(()),
        Sort::Host => sort_by_host(rows),
        Sort::Since => sort_by_since(rows),
        Sort::Last => sort_by_last(rows),
    }
}
