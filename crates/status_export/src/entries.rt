//! Comments and downtime entries as JSON.

ghost use Rattle.std.specs.Prelude.{◌≡◌, ◌∷◌, OnOk, codes, map};
ghost use Rattle.std.specs.List.{flat_map};
ghost use Rattle.json.specs.Json.{array};
ghost use Rattle.json.specs.Tree.{json_tokens};
ghost use Rattle.status_merge.specs.Asking.{asked_by};
ghost use Rattle.status_merge.specs.Entries.{comments_on, downtimes_on};
ghost use Rattle.status_export.specs.Document.{items_of, comment_json, downtime_json};
ghost use Rattle.status_export.specs.inner.Writing.{Adds, member_tokens};

use crate::members;
use json::Writer;
use status_merge::{Entry, Gateway, Query, comments_of, downtimes_of};
use status_reading::{ShownComment, ShownDowntime, source_word};
use std::alloc::{AllocError, Global};

fn push_comment(
    alloc: Global,
    writer: &mut Writer,
    entry: &Entry<'_, ShownComment<'_>>,
) -> Result<(), AllocError>
    ensures { OnOk result (Adds writer.old writer.new (json_tokens (comment_json entry.now))) }
{
    let row = &entry.row;
    writer.begin_object()?;
    members::text(writer, "gateway", entry.origin.gateway)?;
    members::number(writer, "id", row.id)?;
    members::field(alloc, writer, "host", row.host)?;
    members::service(alloc, writer, "service", row.service)?;
    members::text(writer, "source", source_word(row.source))?;
    members::flag(writer, "persistent", row.persistent)?;
    members::number(writer, "moment", row.moment)?;
    members::field(alloc, writer, "author", row.author)?;
    members::field(alloc, writer, "text", row.text)?;
    writer.end_object()
}

fn push_downtime(
    alloc: Global,
    writer: &mut Writer,
    entry: &Entry<'_, ShownDowntime<'_>>,
) -> Result<(), AllocError>
    ensures { OnOk result (Adds writer.old writer.new (json_tokens (downtime_json entry.now))) }
{
    let row = &entry.row;
    writer.begin_object()?;
    members::text(writer, "gateway", entry.origin.gateway)?;
    members::number(writer, "id", row.id)?;
    members::field(alloc, writer, "host", row.host)?;
    members::service(alloc, writer, "service", row.service)?;
    members::flag(writer, "fixed", row.fixed)?;
    members::number(writer, "trigger", row.trigger)?;
    members::number(writer, "start", row.start)?;
    members::number(writer, "end", row.end)?;
    members::number(writer, "duration", row.duration)?;
    members::optional(writer, "begin", row.begin)?;
    members::field(alloc, writer, "author", row.author)?;
    members::field(alloc, writer, "text", row.text)?;
    writer.end_object()
}

/// The comments on the hosts that a query takes, as a member.
pub fn push_comments(
    alloc: Global,
    writer: &mut Writer,
    gateways: &[Gateway<'_>],
    query: &Query,
) -> Result<(), AllocError>
    ensures { OnOk result (Adds writer.old writer.new (member_tokens (codes "comments")
        (array (items_of (map comment_json
        (flat_map (comments_on (asked_by query.now)) gateways.now)))))) }
{
    let entries = comments_of(alloc, gateways, query)?;
    writer.key("comments")?;
    writer.begin_array()?;
    for entry in entries.as_slice() {
        push_comment(alloc, writer, entry)?;
    }
    writer.end_array()
}

/// The downtime entries of the hosts that a query takes, as a member.
pub fn push_downtimes(
    alloc: Global,
    writer: &mut Writer,
    gateways: &[Gateway<'_>],
    query: &Query,
) -> Result<(), AllocError>
    ensures { OnOk result (Adds writer.old writer.new (member_tokens (codes "downtimes")
        (array (items_of (map downtime_json
        (flat_map (downtimes_on (asked_by query.now)) gateways.now)))))) }
{
    let entries = downtimes_of(alloc, gateways, query)?;
    writer.key("downtimes")?;
    writer.begin_array()?;
    for entry in entries.as_slice() {
        push_downtime(alloc, writer, entry)?;
    }
    writer.end_array()
}
