//! Metrics for Prometheus.

ghost use Rattle.std.specs.Prelude.{◌≡◌, ◌∷◌, ◌++◌, ℕ, List, Some, false, ◌==◌, OnOk, IfOk, codes};
ghost use Rattle.std.specs.List.{flat_map, list_any};
ghost use Rattle.status_merge.specs.Ranks.{counts_of};
ghost use Rattle.status_export.specs.Gauges.{sample_text, gauge_text, value_text, read_value};
ghost use Rattle.status_export.specs.Metrics.{gateway_sample, is_up, page_samples, age_samples, alarm_sample, alarm_samples, up_gauge, alarm_gauge, age_gauge, page_gauge, gateway_gauges, state_sample, state_gauge, number_gauge, object_gauges, flag_word, labelled, object_sample, problem_samples, problem_gauge, stale_samples, stale_gauge, metrics_page};
ghost use Rattle.status_export.specs.inner.Labels.{page_number};
ghost use Rattle.status_export.specs.inner.Writing.{Appends};

use crate::gauges::{push_head, push_sample};
use crate::members::plain_text;
use status_memory::{Alarm, alarm_name};
use status_merge::{Counts, Gateway, MergedObject, age_of, count, is_made};
use status_reading::{State, StatusPage, state_name};
use std::alloc::{AllocError, Global};

/// A number of a page.
#[derive(Clone, Copy)]
enum PageNumber {
    Moment,
    Closing,
    Objects,
    Comments,
    Downtimes,
}

fn page_number(page: &StatusPage<'_>, number: PageNumber) -> u64
    ensures { result ≡ page_number number page.now }
{
    match number {
        PageNumber::Moment => u64::from(page.moment),
        PageNumber::Closing => u64::from(page.closing.is_some()),
        PageNumber::Objects => page.objects.len() as u64,
        PageNumber::Comments => page.comments.len() as u64,
        PageNumber::Downtimes => page.downtimes.len() as u64,
    }
}

// The sample of a gateway.
fn push_gateway_sample(
    out: &mut Vec<u8>,
    name: &str,
    gateway: &str,
    number: u64,
) -> Result<(), AllocError>
    ensures { OnOk result (Appends out.old.items out.new.items
        (sample_text name.now (gateway_sample gateway.now number))) }
{
    push_sample(out, name, &[("gateway", gateway)], number)
}

// Whether the gateway's page was read and is new.
fn is_up(gateway: &Gateway<'_>) -> bool
    ensures { result ≡ is_up gateway.now }
{
    gateway.page.is_ok() && gateway.old.is_none()
}

fn push_up_gauge(out: &mut Vec<u8>, gateways: &[Gateway<'_>]) -> Result<(), AllocError>
    ensures { OnOk result
        (Appends out.old.items out.new.items (gauge_text (up_gauge gateways.now))) }
{
    push_head(
        out,
        "nscagate_up",
        "Whether the gateway's status page was read, and is not old.",
    )?;
    for gateway in gateways {
        push_gateway_sample(out, "nscagate_up", gateway.name, u64::from(is_up(gateway)))?;
    }
    Ok(())
}

fn push_alarm_sample(out: &mut Vec<u8>, gateway: &str, alarm: Alarm) -> Result<(), AllocError>
    ensures { OnOk result (Appends out.old.items out.new.items
        (sample_text (codes "nscagate_alarm") (alarm_sample gateway.now alarm))) }
{
    let labels = [("gateway", gateway), ("alarm", alarm_name(alarm))];
    push_sample(out, "nscagate_alarm", &labels, 1)
}

fn push_alarm_samples(out: &mut Vec<u8>, gateway: &Gateway<'_>) -> Result<(), AllocError>
    ensures { OnOk result (Appends out.old.items out.new.items
        (flat_map (sample_text (codes "nscagate_alarm")) (alarm_samples gateway.now))) }
{
    for alarm in gateway.alarms.as_slice() {
        push_alarm_sample(out, gateway.name, *alarm)?;
    }
    Ok(())
}

fn push_alarm_gauge(out: &mut Vec<u8>, gateways: &[Gateway<'_>]) -> Result<(), AllocError>
    ensures { OnOk result
        (Appends out.old.items out.new.items (gauge_text (alarm_gauge gateways.now))) }
{
    push_head(out, "nscagate_alarm", "Alarms about the gateway.")?;
    for gateway in gateways {
        push_alarm_samples(out, gateway)?;
    }
    Ok(())
}

fn push_age_samples(out: &mut Vec<u8>, gateway: &Gateway<'_>) -> Result<(), AllocError>
    ensures { OnOk result (Appends out.old.items out.new.items
        (flat_map (sample_text (codes "nscagate_page_age_seconds")) (age_samples gateway.now))) }
{
    match &gateway.page {
        Ok(_) => push_gateway_sample(
            out,
            "nscagate_page_age_seconds",
            gateway.name,
            u64::from(age_of(gateway)),
        ),
        Err(_) => Ok(()),
    }
}

fn push_age_gauge(out: &mut Vec<u8>, gateways: &[Gateway<'_>]) -> Result<(), AllocError>
    ensures { OnOk result
        (Appends out.old.items out.new.items (gauge_text (age_gauge gateways.now))) }
{
    push_head(
        out,
        "nscagate_page_age_seconds",
        "How old the gateway's page is, where it is old.",
    )?;
    for gateway in gateways {
        push_age_samples(out, gateway)?;
    }
    Ok(())
}

// The number of a gateway's page, if it was read.
fn push_page_samples(
    out: &mut Vec<u8>,
    name: &str,
    number: PageNumber,
    gateway: &Gateway<'_>,
) -> Result<(), AllocError>
    ensures { OnOk result (Appends out.old.items out.new.items
        (flat_map (sample_text name.now) (page_samples (page_number number) gateway.now))) }
{
    match &gateway.page {
        Ok(page) => push_gateway_sample(out, name, gateway.name, page_number(page, number)),
        Err(_) => Ok(()),
    }
}

// A gauge of a number of each page that was read.
fn push_page_gauge(
    out: &mut Vec<u8>,
    name: &str,
    help: &str,
    number: PageNumber,
    gateways: &[Gateway<'_>],
) -> Result<(), AllocError>
    ensures { OnOk result (Appends out.old.items out.new.items
        (gauge_text (page_gauge name.now help.now (page_number number) gateways.now))) }
{
    push_head(out, name, help)?;
    for gateway in gateways {
        push_page_samples(out, name, number, gateway)?;
    }
    Ok(())
}

fn push_gateway_gauges(out: &mut Vec<u8>, gateways: &[Gateway<'_>]) -> Result<(), AllocError>
    ensures { OnOk result (Appends out.old.items out.new.items
        (flat_map gauge_text (gateway_gauges gateways.now))) }
{
    push_up_gauge(out, gateways)?;
    push_alarm_gauge(out, gateways)?;
    push_age_gauge(out, gateways)?;
    push_page_gauge(
        out,
        "nscagate_page_seconds",
        "The moment of the gateway's page.",
        PageNumber::Moment,
        gateways,
    )?;
    push_page_gauge(
        out,
        "nscagate_closing",
        "Whether the gateway is closing.",
        PageNumber::Closing,
        gateways,
    )?;
    push_page_gauge(
        out,
        "nscagate_page_objects",
        "Objects on the gateway's page.",
        PageNumber::Objects,
        gateways,
    )?;
    push_page_gauge(
        out,
        "nscagate_comments",
        "Comments on the gateway's page.",
        PageNumber::Comments,
        gateways,
    )?;
    push_page_gauge(
        out,
        "nscagate_downtimes",
        "Downtime entries on the gateway's page.",
        PageNumber::Downtimes,
        gateways,
    )
}

// The sample of the objects of a kind in a state.
fn push_state_sample(
    out: &mut Vec<u8>,
    kind: &str,
    state: State,
    number: usize,
) -> Result<(), AllocError>
    ensures { OnOk result (Appends out.old.items out.new.items
        (sample_text (codes "nscagate_objects") (state_sample kind.now state number))) }
{
    let labels = [("kind", kind), ("state", state_name(state))];
    push_sample(out, "nscagate_objects", &labels, number as u64)
}

fn push_state_gauge(out: &mut Vec<u8>, counts: &Counts) -> Result<(), AllocError>
    ensures { OnOk result
        (Appends out.old.items out.new.items (gauge_text (state_gauge counts.now))) }
{
    push_head(out, "nscagate_objects", "Hosts and services by state.")?;
    push_state_sample(out, "host", State::Up, counts.up)?;
    push_state_sample(out, "host", State::Down, counts.down)?;
    push_state_sample(out, "host", State::Unreachable, counts.unreachable)?;
    push_state_sample(out, "host", State::Pending, counts.host_pending)?;
    push_state_sample(out, "service", State::Ok, counts.ok)?;
    push_state_sample(out, "service", State::Warning, counts.warning)?;
    push_state_sample(out, "service", State::Critical, counts.critical)?;
    push_state_sample(out, "service", State::Unknown, counts.unknown)?;
    push_state_sample(out, "service", State::Pending, counts.service_pending)
}

// A gauge of one number.
fn push_number_gauge(
    out: &mut Vec<u8>,
    name: &str,
    help: &str,
    number: usize,
) -> Result<(), AllocError>
    ensures { OnOk result (Appends out.old.items out.new.items
        (gauge_text (number_gauge name.now help.now number))) }
{
    push_head(out, name, help)?;
    push_sample(out, name, &[], number as u64)
}

fn push_object_gauges(out: &mut Vec<u8>, counts: &Counts) -> Result<(), AllocError>
    ensures { OnOk result (Appends out.old.items out.new.items
        (flat_map gauge_text (object_gauges counts.now))) }
{
    push_state_gauge(out, counts)?;
    push_number_gauge(
        out,
        "nscagate_objects_stale",
        "Objects without a result for longer than their threshold.",
        counts.stale,
    )?;
    push_number_gauge(
        out,
        "nscagate_problems_unhandled",
        "Problems neither acknowledged nor in downtime, without services whose host is out.",
        counts.unhandled,
    )?;
    push_number_gauge(
        out,
        "nscagate_objects_acknowledged",
        "Objects with an acknowledgement.",
        counts.acknowledged,
    )?;
    push_number_gauge(
        out,
        "nscagate_objects_in_downtime",
        "Objects in active downtime.",
        counts.in_downtime,
    )
}

fn flag_word(flag: bool) -> &'static str
    ensures { result.now ≡ flag_word flag }
{
    if flag { "true" } else { "false" }
}

// The sample of these labels.
fn push_labelled<'a>(
    out: &mut Vec<u8>,
    name: &str,
    gateway: &'a str,
    host: &'a str,
    service: &'a str,
    state: &'a str,
    acknowledged: &'a str,
    downtime: &'a str,
    host_out: &'a str,
) -> Result<(), AllocError>
    ensures { OnOk result (Appends out.old.items out.new.items
        (sample_text name.now (labelled gateway.now host.now service.now state.now
        acknowledged.now downtime.now host_out.now))) }
{
    let labels = [
        ("gateway", gateway),
        ("host", host),
        ("service", service),
        ("state", state),
        ("acknowledged", acknowledged),
        ("downtime", downtime),
        ("host_out", host_out),
    ];
    push_sample(out, name, &labels, 1)
}

// The sample of an object.
fn push_object(
    alloc: Global,
    out: &mut Vec<u8>,
    name: &str,
    object: &MergedObject<'_>,
) -> Result<(), AllocError>
    ensures { OnOk result (Appends out.old.items out.new.items
        (sample_text name.now (object_sample object.now))) }
{
    let row = &object.row;
    let host = plain_text(alloc, row.host)?;
    let service = plain_text(alloc, row.service)?;
    push_labelled(
        out,
        name,
        object.gateway,
        host.as_str(),
        service.as_str(),
        state_name(row.state),
        flag_word(is_made(row.acknowledgement)),
        flag_word(row.depth > 0),
        flag_word(object.host_is_out),
    )
}

fn push_problem_samples(
    alloc: Global,
    out: &mut Vec<u8>,
    object: &MergedObject<'_>,
) -> Result<(), AllocError>
    ensures { OnOk result (Appends out.old.items out.new.items
        (flat_map (sample_text (codes "nscagate_problem")) (problem_samples object.now))) }
{
    if object.row.state.is_problem() {
        push_object(alloc, out, "nscagate_problem", object)
    } else {
        Ok(())
    }
}

fn push_problem_gauge(
    alloc: Global,
    out: &mut Vec<u8>,
    objects: &[MergedObject<'_>],
) -> Result<(), AllocError>
    ensures { OnOk result
        (Appends out.old.items out.new.items (gauge_text (problem_gauge objects.now))) }
{
    push_head(out, "nscagate_problem", "Objects with a problem.")?;
    for object in objects {
        push_problem_samples(alloc, out, object)?;
    }
    Ok(())
}

fn push_stale_samples(
    alloc: Global,
    out: &mut Vec<u8>,
    object: &MergedObject<'_>,
) -> Result<(), AllocError>
    ensures { OnOk result (Appends out.old.items out.new.items
        (flat_map (sample_text (codes "nscagate_stale")) (stale_samples object.now))) }
{
    if object.row.stale && !object.since.is_held {
        push_object(alloc, out, "nscagate_stale", object)
    } else {
        Ok(())
    }
}

fn push_stale_gauge(
    alloc: Global,
    out: &mut Vec<u8>,
    objects: &[MergedObject<'_>],
) -> Result<(), AllocError>
    ensures { OnOk result
        (Appends out.old.items out.new.items (gauge_text (stale_gauge objects.now))) }
{
    push_head(
        out,
        "nscagate_stale",
        "Objects without a result for longer than their threshold.",
    )?;
    for object in objects {
        push_stale_samples(alloc, out, object)?;
    }
    Ok(())
}

/// Writes the metrics of gateways, and of the objects of all of them, in the text format of
/// Prometheus, version 0.0.4. The only error is out of memory.
///
/// Own rule: the names, the help texts, the labels and their order.
#[tactic(auto, using(crate::proofs::LabelLaws::value_read, crate::proofs::LabelLaws::value_line))]
pub fn metrics_text(
    alloc: Global,
    gateways: &[Gateway<'_>],
    objects: &[MergedObject<'_>],
) -> Result<Vec<u8>, AllocError>
    ensures text { IfOk result (λ text. text.items ≡ metrics_page gateways.now objects.now) }

    // A label's value ends at the quote after it, is read as it was, and is on one line.
    ensures labels { (value rest : List ℕ)
        → read_value false (value_text value ++ 34 ∷ rest) ≡ Some (value, rest) }
    ensures lines { (value : List ℕ) → list_any (λ byte. byte == 10) (value_text value) ≡ false }
{
    let mut out = Vec::new(alloc);
    push_gateway_gauges(&mut out, gateways)?;
    push_object_gauges(&mut out, &count(objects))?;
    push_problem_gauge(alloc, &mut out, objects)?;
    push_stale_gauge(alloc, &mut out, objects)?;
    Ok(out)
}
