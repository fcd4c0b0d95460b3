ghost use Rattle.std.specs.Prelude.{◌≡◌, ◌-◌, [], ◌∷◌, ◌++◌, List, max, min, nat_lt, is_some, OnOk, IfOk};
ghost use Rattle.std.specs.Option.{option_to_list};
ghost use Rattle.status_memory.specs.declared.memory.Fetch.{Fetch as Fetched};
ghost use Rattle.status_memory.specs.Memory.{IsMemoryOf, page_age, time_alarm, age_of, old_alarm, alarms_of};
ghost use Rattle.status_memory.specs.Memory.{alarm_if, agreed_after, most_after, other_after, is_recent, page_alarms, alarms_from, alarms_at};

use crate::alarm::Alarm;
use std::alloc::{AllocError, Global};

/// A page: its text, and what it says by which alarms are found.
#[derive(Clone, Copy, Drop)]
pub struct Page<T> {
    pub text: T,
    /// Its own moment, in seconds since 1970.
    pub moment: u32,
    /// How many objects it shows.
    pub objects: usize,
    /// Whether its gateway is closing.
    pub closing: bool,
    /// Whether it has other objects than the page before it.
    pub is_other: bool,
}

/// What a fetch gave: a page, or why there is none.
#[derive(Drop)]
pub struct Fetch<T, F> {
    /// When it ended, in seconds of a clock.
    pub moment: u64,
    pub page: Result<Page<T>, F>,
}

/// A page that is kept.
#[derive(Drop)]
pub struct Kept<T> {
    pub page: Page<T>,
    /// When its fetch ended, in seconds of a clock.
    pub moment: u64,
}

/// What is kept of all fetches of a gateway's page.
#[derive(Drop)]
pub struct Memory<T, F> {
    /// The last page.
    pub last: Option<Kept<T>>,
    /// Why the last fetch gave no page. `None` where it gave one, and before the first.
    pub fault: Option<F>,
    /// The most objects that a page has shown since pages had as many for an hour.
    pub most: usize,
    /// Since when pages have as many objects as the last one: when the first of them was fetched.
    pub agreed: u64,
    /// When the last page with other objects than the one before it was fetched.
    pub other: Option<u64>,
}

fn larger(one: usize, other: usize) -> usize
    ensures { result ≡ max one other }
{
    if one < other { other } else { one }
}

// Since when pages have as many objects as the next one.
fn agreed_after<T>(last: &Option<Kept<T>>, agreed: u64, objects: usize, moment: u64) -> u64
    ensures { result ≡ agreed_after last.now agreed objects moment }
{
    match last {
        Some(kept) if kept.page.objects == objects => agreed,
        _ => moment,
    }
}

// The most objects after a page of this moment, as pages have since then: so many where it is an hour.
fn most_after(most: usize, objects: usize, moment: u64, agreed: u64) -> usize
    ensures { result ≡ most_after most objects moment agreed }
{
    if moment.saturating_sub(agreed) < 3600 {
        larger(most, objects)
    } else {
        objects
    }
}

fn other_after(other: Option<u64>, is_other: bool, moment: u64) -> Option<u64>
    ensures { result ≡ other_after other is_other moment }
{
    if is_other { Some(moment) } else { other }
}

// Whether a moment is of the last hour.
fn is_recent(now: u64, moment: Option<u64>) -> bool
    ensures { result ≡ is_recent now moment }
{
    match moment {
        Some(moment) => now.saturating_sub(moment) < 3600,
        None => false,
    }
}

fn longer(one: u64, other: u64) -> u64
    ensures { result ≡ max one other }
{
    if one < other { other } else { one }
}

fn seconds(span: u64) -> u32
    ensures { result ≡ min span 4294967295 }
{
    u32::try_from(span).unwrap_or(u32::MAX)
}

// How many seconds before the clock a page was fetched, or its moment is, whichever is more.
fn page_age<T>(now: u64, kept: &Kept<T>) -> u32
    ensures { result ≡ page_age now kept.now }
{
    let fetched = now.saturating_sub(kept.moment);
    let shown = now.saturating_sub(u64::from(kept.page.moment));
    seconds(longer(fetched, shown))
}

fn time_alarm<T>(now: u64, failed: bool, kept: &Kept<T>) -> Option<Alarm>
    ensures { result ≡ time_alarm now failed kept.now }
{
    let shown = u64::from(kept.page.moment);
    if failed || now.saturating_sub(kept.moment) > 60 {
        Some(Alarm::NoNewPage(page_age(now, kept)))
    } else if now.saturating_sub(shown) > 60 {
        Some(Alarm::StandsStill(page_age(now, kept)))
    } else if shown.saturating_sub(now) > 60 {
        Some(Alarm::ClockAhead(seconds(shown.saturating_sub(now))))
    } else {
        None
    }
}

fn push_if(alarms: &mut Vec<Alarm>, holds: bool, alarm: Alarm) -> Result<(), AllocError>
    ensures { OnOk result (alarms.new.items ≡ alarms.old.items ++ alarm_if holds alarm) }
{
    if holds {
        alarms.push(alarm)?;
    }
    Ok(())
}

fn push_some(alarms: &mut Vec<Alarm>, found: Option<Alarm>) -> Result<(), AllocError>
    ensures { OnOk result (alarms.new.items ≡ alarms.old.items ++ option_to_list found) }
{
    if let Some(alarm) = found {
        alarms.push(alarm)?;
    }
    Ok(())
}

// Appends the alarms about a gateway of which a page is kept.
fn push_page_alarms<T>(
    alarms: &mut Vec<Alarm>,
    now: u64,
    failed: bool,
    kept: &Kept<T>,
    most: usize,
    other: Option<u64>,
) -> Result<(), AllocError>
    ensures { OnOk result (alarms.new.items
        ≡ alarms.old.items ++ page_alarms now failed kept.now most other) }
{
    let page = &kept.page;
    push_some(alarms, time_alarm(now, failed, kept))?;
    push_if(alarms, page.closing, Alarm::Closing)?;
    push_if(
        alarms,
        page.objects < most,
        Alarm::FewerObjects(page.objects, most),
    )?;
    push_if(alarms, is_recent(now, other), Alarm::OtherObjects)
}

// Appends the alarms about a gateway, whether a page of it is kept or none.
fn push_alarms<T>(
    alarms: &mut Vec<Alarm>,
    now: u64,
    failed: bool,
    last: &Option<Kept<T>>,
    most: usize,
    other: Option<u64>,
) -> Result<(), AllocError>
    ensures { OnOk result (alarms.new.items
        ≡ alarms.old.items ++ alarms_from now failed last.now most other) }
{
    match last {
        Some(kept) => push_page_alarms(alarms, now, failed, kept, most, other),
        None => {
            alarms.push(Alarm::NoPage)?;
            Ok(())
        }
    }
}

impl<T: Drop, F: Drop> Memory<T, F> {
    /// What is kept before the first fetch.
    pub fn new() -> Memory<T, F>
        ensures { IsMemoryOf [] result }
    {
        Memory {
            last: None,
            fault: None,
            most: 0,
            agreed: 0,
            other: None,
        }
    }

    /// Takes in a fetch.
    pub fn observe(&mut self, fetch: Fetch<T, F>)
        ensures { (fetches : List (Fetched T F)) → IsMemoryOf fetches self.old
            → IsMemoryOf (fetches ++ fetch ∷ []) self.new }
    {
        let Fetch { moment, page } = fetch;
        match page {
            Ok(page) => {
                self.agreed = agreed_after(&self.last, self.agreed, page.objects, moment);
                self.most = most_after(self.most, page.objects, moment, self.agreed);
                self.other = other_after(self.other, page.is_other, moment);
                self.last = Some(Kept { page, moment });
                self.fault = None;
            }
            Err(fault) => self.fault = Some(fault),
        }
    }

    /// How many seconds before the clock the last page was fetched, or its moment is, whichever is
    /// more; 0 before the first page.
    pub fn age(&self, now: u64) -> u32
        ensures { result ≡ age_of now self.now }
    {
        match &self.last {
            Some(kept) => page_age(now, kept),
            None => 0,
        }
    }

    /// Why the last page is old, if it is: a later fetch gave none, or it was fetched more than 60
    /// seconds ago; or its moment is more than 60 seconds before the clock, or after it. Own rule.
    pub fn old_alarm(&self, now: u64) -> Option<Alarm>
        ensures { result ≡ old_alarm now self.now }
    {
        match &self.last {
            Some(kept) => time_alarm(now, self.fault.is_some(), kept),
            None => None,
        }
    }

    /// The alarms about the gateway at this clock. The only error is out of memory.
    pub fn alarms(&self, alloc: Global, now: u64) -> Result<Vec<Alarm>, AllocError>
        ensures kept { IfOk result (λ alarms. alarms.items ≡ alarms_of now self.now) }
        ensures fetched { (fetches : List (Fetched T F)) → IsMemoryOf fetches self.now
            → IfOk result (λ alarms. alarms.items ≡ alarms_at now fetches) }
    {
        let mut alarms = Vec::new(alloc);
        let failed = self.fault.is_some();
        push_alarms(&mut alarms, now, failed, &self.last, self.most, self.other)?;
        Ok(alarms)
    }
}
