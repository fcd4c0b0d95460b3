//! JSON for scripts.

ghost use Rattle.std.specs.Prelude.{◌≡◌, ℕ, List, Some, OnOk, IfOk, codes, map, string_bytes};
ghost use Rattle.std.specs.Str.{IsUtf8};
ghost use Rattle.json.specs.Json.{array, document};
ghost use Rattle.json.specs.Tree.{json_tokens};
ghost use Rattle.gate_model.specs.Escaping.{escaped};
ghost use Rattle.status_merge.specs.Asking.{asked_by};
ghost use Rattle.status_export.specs.Document.{plain_text, acknowledgement_word, reachable_json, unreachable_json, old_json, alarms_json, page_json, gateway_json, object_json, items_of, compact_text, status_document};
ghost use Rattle.status_export.specs.inner.Writing.{Adds, member_tokens};

use crate::entries::{push_comments, push_downtimes};
use crate::members;
use json::Writer;
use status_memory::{Alarm, alarm_name};
use status_merge::{Gateway, MergedObject, Old, Query, is_unhandled};
use status_reading::{ShownAcknowledgement, StatusPage, state_name};
use std::alloc::{AllocError, Global};

fn acknowledgement_word(acknowledgement: ShownAcknowledgement) -> &'static str
    ensures { result.now ≡ acknowledgement_word acknowledgement }
{
    match acknowledgement {
        ShownAcknowledgement::Missing => "none",
        ShownAcknowledgement::Normal => "normal",
        ShownAcknowledgement::Sticky => "sticky",
    }
}

// The names of alarms, as a member.
fn push_alarms(writer: &mut Writer, alarms: &[Alarm]) -> Result<(), AllocError>
    ensures { OnOk result (Adds writer.old writer.new
        (member_tokens (codes "alarms") (alarms_json alarms.now))) }
{
    writer.key("alarms")?;
    writer.begin_array()?;
    for alarm in alarms {
        writer.string(alarm_name(*alarm))?;
    }
    writer.end_array()
}

fn push_reachable(
    writer: &mut Writer,
    name: &str,
    page: &StatusPage<'_>,
    alarms: &[Alarm],
) -> Result<(), AllocError>
    ensures { OnOk result (Adds writer.old writer.new
        (json_tokens (reachable_json name.now page.now alarms.now))) }
{
    writer.begin_object()?;
    members::text(writer, "name", name)?;
    members::flag(writer, "reachable", true)?;
    members::number(writer, "moment", page.moment)?;
    members::optional(writer, "closing", page.closing)?;
    push_alarms(writer, alarms)?;
    writer.end_object()
}

fn push_unreachable(
    writer: &mut Writer,
    name: &str,
    cause: &str,
    alarms: &[Alarm],
) -> Result<(), AllocError>
    ensures { OnOk result (Adds writer.old writer.new
        (json_tokens (unreachable_json name.now cause.now alarms.now))) }
{
    writer.begin_object()?;
    members::text(writer, "name", name)?;
    members::flag(writer, "reachable", false)?;
    members::text(writer, "fault", cause)?;
    push_alarms(writer, alarms)?;
    writer.end_object()
}

fn push_old(
    writer: &mut Writer,
    name: &str,
    page: &StatusPage<'_>,
    old: &Old,
    alarms: &[Alarm],
) -> Result<(), AllocError>
    ensures { OnOk result (Adds writer.old writer.new
        (json_tokens (old_json name.now page.now (string_bytes old.now.cause) old.now.age alarms.now))) }
{
    writer.begin_object()?;
    members::text(writer, "name", name)?;
    members::flag(writer, "reachable", false)?;
    members::text(writer, "fault", old.cause.as_str())?;
    members::number(writer, "moment", page.moment)?;
    members::optional(writer, "closing", page.closing)?;
    members::number(writer, "age", old.age)?;
    push_alarms(writer, alarms)?;
    writer.end_object()
}

fn push_page(
    writer: &mut Writer,
    name: &str,
    page: &StatusPage<'_>,
    old: &Option<Old>,
    alarms: &[Alarm],
) -> Result<(), AllocError>
    ensures { OnOk result (Adds writer.old writer.new
        (json_tokens (page_json name.now page.now old.now alarms.now))) }
{
    match old {
        Some(old) => push_old(writer, name, page, old, alarms),
        None => push_reachable(writer, name, page, alarms),
    }
}

fn push_gateway(writer: &mut Writer, gateway: &Gateway<'_>) -> Result<(), AllocError>
    ensures { OnOk result
        (Adds writer.old writer.new (json_tokens (gateway_json gateway.now))) }
{
    let alarms = gateway.alarms.as_slice();
    match &gateway.page {
        Ok(page) => push_page(writer, gateway.name, page, &gateway.old, alarms),
        Err(cause) => push_unreachable(writer, gateway.name, cause.as_str(), alarms),
    }
}

fn push_object(
    alloc: Global,
    writer: &mut Writer,
    shown: &MergedObject<'_>,
) -> Result<(), AllocError>
    ensures { OnOk result (Adds writer.old writer.new (json_tokens (object_json shown.now))) }
{
    let row = &shown.row;
    writer.begin_object()?;
    members::text(writer, "gateway", shown.gateway)?;
    members::field(alloc, writer, "host", row.host)?;
    members::service(alloc, writer, "service", row.service)?;
    members::text(writer, "state", state_name(row.state))?;
    members::number(writer, "since", shown.since.moment)?;
    members::flag(writer, "since_at_least", shown.since.at_least)?;
    members::optional(writer, "last", row.last)?;
    members::flag(writer, "stale", row.stale)?;
    members::text(
        writer,
        "acknowledgement",
        acknowledgement_word(row.acknowledgement),
    )?;
    members::number(writer, "depth", row.depth)?;
    members::flag(writer, "unhandled", is_unhandled(shown))?;
    members::field(alloc, writer, "output", row.output)?;
    writer.end_object()
}

fn push_gateways(writer: &mut Writer, gateways: &[Gateway<'_>]) -> Result<(), AllocError>
    ensures { OnOk result (Adds writer.old writer.new (member_tokens (codes "gateways")
        (array (items_of (map gateway_json gateways.now))))) }
{
    writer.key("gateways")?;
    writer.begin_array()?;
    for gateway in gateways {
        push_gateway(writer, gateway)?;
    }
    writer.end_array()
}

fn push_objects(
    alloc: Global,
    writer: &mut Writer,
    objects: &[MergedObject<'_>],
) -> Result<(), AllocError>
    ensures { OnOk result (Adds writer.old writer.new (member_tokens (codes "objects")
        (array (items_of (map object_json objects.now))))) }
{
    writer.key("objects")?;
    writer.begin_array()?;
    for shown in objects {
        push_object(alloc, writer, shown)?;
    }
    writer.end_array()
}

/// Writes gateways, objects, and the comments and downtime entries of the hosts that a query takes,
/// as JSON (RFC 8259) on one line. The only error is out of memory.
///
/// Comments and downtime entries stand in the order of the gateways and of their pages, each with
/// its gateway. A text stands without the page's escapes, and with U+FFFD for bytes that are no
/// UTF-8. Moments are in seconds since 1970. Own rule: the members and their order.
#[tactic(auto, using(crate::proofs::PlainLaws::plain_utf8))]
pub fn json_text(
    alloc: Global,
    gateways: &[Gateway<'_>],
    objects: &[MergedObject<'_>],
    query: &Query,
) -> Result<Vec<u8>, AllocError>
    ensures text { IfOk result (λ text. text.items
        ≡ compact_text (status_document gateways.now objects.now (asked_by query.now))) }
    // A reader of JSON finds the document in the text.
    ensures utf8 { IfOk result (λ text. IsUtf8 text.items) }
    ensures read { IfOk result (λ text. document text.items
        ≡ Some (status_document gateways.now objects.now (asked_by query.now))) }

    // The field that shows a text on a page stands for this text where its bytes are UTF-8.
    ensures kept { (text : List ℕ) → IsUtf8 text → plain_text (escaped text) ≡ text }
{
    let mut writer = Writer::new(Vec::new(alloc));
    writer.begin_object()?;
    push_gateways(&mut writer, gateways)?;
    push_objects(alloc, &mut writer, objects)?;
    push_comments(alloc, &mut writer, gateways, query)?;
    push_downtimes(alloc, &mut writer, gateways, query)?;
    writer.end_object()?;
    Ok(writer.into_inner())
}
