//! The comments and downtime entries of some objects alone.

ghost use Rattle.std.specs.Prelude.{◌≡◌, IfOk, OnOk, filter, map};
ghost use Rattle.std.specs.HashSet.{contains};
ghost use Rattle.status_merge.specs.Entries.{is_comment_among, is_downtime_among, comment_view, downtime_view};
ghost use Rattle.status_merge.specs.inner.Among.{AreNamesOf};
ghost use Rattle.status_merge.specs.inner.Names.{same_key};

use crate::entries::{CommentLine, DowntimeLine};
use crate::gateway::MergedObject;
use crate::merging::Name;
use std::alloc::{AllocError, Global};
use std::collections::HashSet;

// The names of some objects.
fn names_of<'a>(
    alloc: Global,
    objects: &[MergedObject<'a>],
) -> Result<HashSet<Name<'a>>, AllocError>
    ensures { IfOk result (λ found. AreNamesOf objects.now found) }
{
    let mut found = HashSet::new(alloc);
    for object in objects {
        found.insert((object.row.host, object.row.service))?;
    }
    Ok(found)
}

fn has_name<'a>(names: &HashSet<Name<'a>>, host: &'a [u8], service: &'a [u8]) -> bool
    ensures { result ≡ contains same_key names.now (host.entry, service.entry) }
{
    names.contains(&(host, service))
}

/// Leaves the lines of the comments on these objects. The only error is out of memory.
pub fn retain_comments<'a>(
    alloc: Global,
    lines: &mut Vec<CommentLine<'a>>,
    objects: &[MergedObject<'a>],
) -> Result<(), AllocError>
    ensures { OnOk result (map comment_view lines.new.items
        ≡ filter (is_comment_among objects.now) (map comment_view lines.old.items)) }
{
    let names = names_of(alloc, objects)?;
    lines.retain(|line| has_name(&names, line.row.host, line.row.service));
    Ok(())
}

/// Leaves the lines of the downtime entries of these objects. The only error is out of memory.
pub fn retain_downtimes<'a>(
    alloc: Global,
    lines: &mut Vec<DowntimeLine<'a>>,
    objects: &[MergedObject<'a>],
) -> Result<(), AllocError>
    ensures { OnOk result (map downtime_view lines.new.items
        ≡ filter (is_downtime_among objects.now) (map downtime_view lines.old.items)) }
{
    let names = names_of(alloc, objects)?;
    lines.retain(|line| has_name(&names, line.row.host, line.row.service));
    Ok(())
}
