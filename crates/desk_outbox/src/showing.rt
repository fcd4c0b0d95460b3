//! What a user sees of the orders for an object, or for each.

ghost use Rattle.std.specs.Prelude.{◌≡◌, ◌++◌, IfOk, OnOk, map, filter};
ghost use Rattle.std.specs.Option.{option_to_list};
ghost use Rattle.desk_outbox.specs.Showing.{is_at, is_for, is_of, names_in, unsent, is_recent, is_before, ending, shown_settled, is_asked, shown_in};
ghost use Rattle.desk_outbox.specs.inner.Rows.{unsent_row, settled_row};

use crate::labels::{Label, Labelled};
use crate::outbox::{Outbox, Settled};
use circular_buffer::HeapCircularBuffer;
use gate_model::Text;
use std::alloc::{AllocError, Global};
use std::collections::VecDeque;

// For how many seconds it is kept what came of an order.
const KEPT: u64 = 600;

/// Whose orders are asked for, for which object, and where they are shown.
#[derive(Clone, Copy)]
pub struct Asked<'a> {
    pub user: &'a [u8],
    pub host: &'a [u8],
    /// Empty for a host.
    pub service: &'a [u8],
    /// Whether those for each object are asked for, and not only for this one. What is shown of an order
    /// begins then with the names of its object.
    pub is_each: bool,
    /// The moment of the form, in seconds since 1970. None: each form.
    pub at: Option<u32>,
    /// The clock, in seconds since 1970.
    pub clock: u32,
    /// When the gateway's page that is shown beside them was fetched, in seconds since 1970.
    pub fetched: u64,
}

/// What a user sees of an order.
#[derive(Drop)]
pub struct Shown {
    pub text: Text,
    /// Whether it is answered, and no longer may the page be from before it.
    pub is_settled: bool,
    /// Whether it is answered, and not queued.
    pub is_alarm: bool,
}

fn is_at(asked: Option<u32>, at: u32) -> bool
    ensures { result ≡ is_at asked at }
{
    match asked {
        Some(asked) => at == asked,
        None => true,
    }
}

fn is_for(asked: &Asked<'_>, label: &Label) -> bool
    ensures { result ≡ is_for asked.now label.now }
{
    asked.is_each || (label.host.bytes() == asked.host && label.service.bytes() == asked.service)
}

fn is_of(asked: &Asked<'_>, label: &Label) -> bool
    ensures { result ≡ is_of asked.now label.now }
{
    is_at(asked.at, label.at) && label.user.bytes() == asked.user && is_for(asked, label)
}

// What is shown of an order begins with this.
fn names_in(alloc: Global, is_each: bool, label: &Label) -> Result<Vec<u8>, AllocError>
    ensures { IfOk result (λ names. names.items ≡ names_in is_each label.now) }
{
    let mut names = Vec::new(alloc);
    if is_each {
        names.extend_from_slice(label.host.bytes())?;
        if !label.service.bytes().is_empty() {
            names.push(b' ')?;
            names.extend_from_slice(label.service.bytes())?;
        }
        names.extend_from_slice(b": ")?;
    }
    Ok(names)
}

fn is_recent(settled: &Settled, now: u32) -> bool
    ensures { result ≡ is_recent now settled.now }
{
    u64::from(now) < u64::from(settled.moment) + KEPT
}

// Whether the page may be from before the gateway queued the command.
fn is_before(settled: &Settled, fetched: u64) -> bool
    ensures { result ≡ is_before fetched settled.now }
{
    settled.is_queued && fetched <= u64::from(settled.moment)
}

fn ending(is_before: bool) -> &'static str
    ensures { result.now ≡ ending is_before }
{
    if is_before {
        "; this page may be from before it"
    } else {
        ""
    }
}

fn unsent(alloc: Global, asked: &Asked<'_>, label: &Label) -> Result<Shown, AllocError>
    ensures { IfOk result (λ shown. shown ≡ unsent asked.now label.now) }
{
    let mut text = names_in(alloc, asked.is_each, label)?;
    text.extend_from_slice(b"being sent")?;
    Ok(Shown {
        text: Text::new(text),
        is_settled: false,
        is_alarm: false,
    })
}

fn shown_settled(alloc: Global, asked: &Asked<'_>, settled: &Settled) -> Result<Shown, AllocError>
    ensures { IfOk result (λ shown. shown ≡ shown_settled asked.now settled.now) }
{
    let is_before = is_before(settled, asked.fetched);
    let mut text = names_in(alloc, asked.is_each, &settled.label)?;
    text.extend_from_slice(settled.text.bytes())?;
    text.extend_from_slice(ending(is_before).as_bytes())?;
    Ok(Shown {
        text: Text::new(text),
        is_settled: !is_before,
        is_alarm: !settled.is_queued,
    })
}

fn push_settled(
    alloc: Global,
    asked: &Asked<'_>,
    settled: &Settled,
    shown: &mut Vec<Shown>,
) -> Result<(), AllocError>
    ensures { OnOk result (shown.new.items ≡ shown.old.items ++ settled_row asked.now settled.now) }
{
    if is_recent(settled, asked.clock) && is_of(asked, &settled.label) {
        shown.push(shown_settled(alloc, asked, settled)?)?;
    }
    Ok(())
}

fn push_unsent(
    alloc: Global,
    asked: &Asked<'_>,
    label: &Label,
    shown: &mut Vec<Shown>,
) -> Result<(), AllocError>
    ensures { OnOk result (shown.new.items ≡ shown.old.items ++ unsent_row asked.now label.now) }
{
    if is_of(asked, label) {
        shown.push(unsent(alloc, asked, label)?)?;
    }
    Ok(())
}

fn push_all_settled(
    alloc: Global,
    asked: &Asked<'_>,
    all: &HeapCircularBuffer<Settled>,
    shown: &mut Vec<Shown>,
) -> Result<(), AllocError>
    ensures { OnOk result (shown.new.items ≡ shown.old.items
        ++ map (shown_settled asked.now) (filter (is_asked asked.now) all.now.items)) }
{
    for settled in all.iter() {
        push_settled(alloc, asked, settled, shown)?;
    }
    Ok(())
}

fn push_under_way(
    alloc: Global,
    asked: &Asked<'_>,
    under_way: &Option<Label>,
    shown: &mut Vec<Shown>,
) -> Result<(), AllocError>
    ensures { OnOk result (shown.new.items ≡ shown.old.items
        ++ map (unsent asked.now) (filter (is_of asked.now) (option_to_list under_way.now))) }
{
    match under_way {
        Some(label) => push_unsent(alloc, asked, label, shown),
        None => Ok(()),
    }
}

fn push_waiting(
    alloc: Global,
    asked: &Asked<'_>,
    waiting: &VecDeque<Labelled>,
    shown: &mut Vec<Shown>,
) -> Result<(), AllocError>
    ensures { OnOk result (shown.new.items ≡ shown.old.items
        ++ map (unsent asked.now) (filter (is_of asked.now)
        (map (λ order. order.label) waiting.now.items))) }
{
    for order in waiting.iter() {
        push_unsent(alloc, asked, order.label(), shown)?;
    }
    Ok(())
}

impl Outbox {
    /// What a user sees of their orders that are asked for: of those that were settled in the last ten
    /// minutes, of the one that is under way, and of those that wait. The only error is out of memory.
    pub fn shown_for(&self, alloc: Global, asked: &Asked<'_>) -> Result<Vec<Shown>, AllocError>
        ensures { IfOk result (λ shown. shown.items ≡ shown_in asked.now self.now) }
    {
        let mut shown = Vec::new(alloc);
        push_all_settled(alloc, asked, &self.settled, &mut shown)?;
        push_under_way(alloc, asked, &self.under_way, &mut shown)?;
        push_waiting(alloc, asked, &self.waiting, &mut shown)?;
        Ok(shown)
    }
}
