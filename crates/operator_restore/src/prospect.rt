//! What restoring sends, and what it can't bring back, before anything is sent.

ghost use Rattle.std.specs.Prelude.{◌≡◌, ◌≢◌, ◌⊎◌, ◌<◌, ◌↔◌, ◌+◌, ◌++◌, ℕ, List, [], false, true, Err, IfErr, IfOk, filter_map, map, codes, None};
ghost use Rattle.std.specs.Option.{option_map};
ghost use Rattle.gate_model.specs.declared.object.ObjectLine.{ObjectLine};
ghost use Rattle.gate_pages.specs.StatusPage.{status_text_at};
ghost use Rattle.status_reading.specs.RowFaults.{IsSound};
ghost use Rattle.status_reading.specs.Rows.{page_view};
ghost use Rattle.restore_plan.specs.Plan.{results_of, others_of, commands_of};
ghost use Rattle.restore_plan.specs.PagePlan.{object_fates, page_others};
ghost use Rattle.restore_plan.specs.Acceptance.{AcknowledgesProblems};
ghost use Rattle.restore_plan.specs.Rehearsal.{first_refusal};
ghost use Rattle.operator_restore.specs.Escapes.{is_escaped_text};
ghost use Rattle.operator_restore.specs.Faults.{IsNoPage, IsUnforeseen, IsPageFault, IsLogFault};
ghost use Rattle.operator_restore.specs.Kept.{IsKept, IsKeptFault};
ghost use Rattle.operator_restore.specs.Naming.{left_lines, left_count, row_lines, row_count};
ghost use Rattle.operator_restore.specs.Pages.{kept_lines};
ghost use Rattle.operator_restore.specs.Printed.{HasNoPage, IsLastPage};
ghost use Rattle.operator_restore.specs.inner.Planned.{IsNamed, IsPlanned, AreObjectsBy};
ghost use Rattle.operator_restore.specs.Prospect.{is_new, sent_by, shown_after, IsTextOf, IsProspect, until_of, AreObjectsOf, IsLogProspect, age_of, page_warning, IsPageProspect, source_line};

use crate::escapes::is_escaped_text;
use crate::kept::{KeptFault, kept_gateway, kept_over};
use crate::naming::{left_count, push_left, push_rows, row_count};
use crate::printed::log_part;
use gate_applier::Applier;
use gate_model::{Body, Moment, push_number};
use gate_table::ObjectTable;
use page_return::{Missing, find_missing};
use restore_plan::{
    Fate, Plan, RehearsalFault, commands_of, page_of, plan_of, plan_of_page, rehearse,
};
use status_reading::{ReadFault, StatusPage, read_status_page};
use std::alloc::{AllocError, Global};
use thiserror::Error;

/// The seconds that a page without a log may be old.
const OLDEST: u32 = 600;
/// The seconds in which all is sent, and applied: what is over by then is left out.
const SENT_WITHIN: u32 = 30;

/// Why nothing can be restored.
#[derive(Clone, Copy, Debug, Error)]
pub enum ProspectFault {
    /// The kept page is no status page.
    #[error("the kept page is no status page")]
    BadPage,
    /// There is no log, and the page is so many seconds old, which is more than ten minutes.
    #[error("there is no kept log, and the kept page is {0} seconds old: --old restores it")]
    Old(u32),
    /// What the daemon printed has no log page.
    #[error("there is no log page in the kept log")]
    NoLog,
    /// What was kept is that of no gateway.
    #[error("{0}")]
    Kept(KeptFault),
    /// A fresh gateway wouldn't do what would be sent.
    #[error("{0}")]
    Unrehearsed(RehearsalFault),
    #[error("out of memory")]
    OutOfMemory,
}

impl From<AllocError> for ProspectFault {
    ghost use Rattle.operator_restore.specs.declared.prospect.ProspectFault.TheVariants.{OutOfMemory};

    ghost from_gives = { λ _ fault. fault ≡ OutOfMemory };

    fn from(_: AllocError) -> ProspectFault {
        ProspectFault::OutOfMemory
    }
}

impl From<RehearsalFault> for ProspectFault {
    ghost use Rattle.operator_restore.specs.declared.prospect.ProspectFault.TheVariants.{OutOfMemory, Unrehearsed};

    ghost from_gives = { λ fault other. (other ≡ OutOfMemory) ⊎ (other ≡ Unrehearsed fault) };

    fn from(fault: RehearsalFault) -> ProspectFault {
        match fault {
            RehearsalFault::OutOfMemory => ProspectFault::OutOfMemory,
            fault => ProspectFault::Unrehearsed(fault),
        }
    }
}

impl From<KeptFault> for ProspectFault {
    ghost use Rattle.operator_restore.specs.declared.prospect.ProspectFault.TheVariants.{Kept, OutOfMemory};

    ghost from_gives = { λ fault other. (other ≡ OutOfMemory) ⊎ (other ≡ Kept fault) };

    fn from(fault: KeptFault) -> ProspectFault {
        match fault {
            KeptFault::OutOfMemory => ProspectFault::OutOfMemory,
            fault => ProspectFault::Kept(fault),
        }
    }
}

impl From<ReadFault> for ProspectFault {
    ghost use Rattle.status_reading.specs.declared.page.ReadFault.TheVariants as reading;
    ghost use Rattle.operator_restore.specs.declared.prospect.ProspectFault.TheVariants.{BadPage, OutOfMemory};

    ghost from_gives = { λ fault other.
        (other ≡ OutOfMemory) ⊎ ((fault ≢ reading.OutOfMemory) × (other ≡ BadPage)) };

    fn from(fault: ReadFault) -> ProspectFault {
        match fault {
            ReadFault::OutOfMemory => ProspectFault::OutOfMemory,
            ReadFault::NoStatus | ReadFault::BadLine(_) | ReadFault::BadRow(..) => {
                ProspectFault::BadPage
            }
        }
    }
}

/// What is sent, and by what it is judged.
#[derive(Drop)]
pub struct Prospect {
    /// The last results of objects.
    pub results: Vec<Body>,
    /// The other commands, which are sent by the moment `until`.
    pub others: Vec<Body>,
    pub until: Moment,
    /// The status page of the kept gateway.
    pub kept: Vec<u8>,
    /// That of a fresh gateway, once it has applied all that is sent.
    pub shown: Vec<u8>,
    /// The rows of the first that the second doesn't show.
    pub foreseen: Missing,
    /// The line that names what is restored from, where all of it is kept.
    pub source: Vec<u8>,
    /// The lines that name a page without a log, what is left out, and these rows.
    pub lines: Vec<u8>,
    /// How many commands and rows they name.
    pub named: usize,
}

/// Object tables of the configuration: the fresh gateway's, and one for a log without a page.
#[derive(Drop)]
pub struct Tables {
    pub fresh: ObjectTable,
    pub of_log: ObjectTable,
}

// ---- what is sent

/// The commands that are sent by these fates. The only error is out of memory.
pub fn sent_by(alloc: Global, fates: Vec<Fate>) -> Result<Vec<Body>, AllocError>
    ensures { IfOk result (λ bodies. bodies.items ≡ sent_by fates.items) }
{
    let results = Vec::new(alloc);
    let plan = Plan {
        results,
        others: fates,
    };
    commands_of(alloc, plan)
}

/// What is named of a plan.
#[derive(Drop)]
struct Named {
    foreseen: Missing,
    lines: Vec<u8>,
    count: usize,
}

/// Names what a plan leaves out, and the rows of a kept page that the other one doesn't show.
fn name_all(
    alloc: Global,
    plan: &Plan,
    kept: &[u8],
    shown: &[u8],
    warning: Vec<u8>,
) -> Result<Named, ProspectFault>
    ensures named { IfOk result (IsNamed plan.now.results.items plan.now.others.items kept.now
        shown.now warning.items) }
    ensures fault { IfErr result (λ fault. (fault ≡ ProspectFault.OutOfMemory)
        ⊎ ((fault ≡ ProspectFault.BadPage) × (IsNoPage kept.now ⊎ IsNoPage shown.now))) }
{
    let (results, others) = (plan.results.as_slice(), plan.others.as_slice());
    let mut lines = warning;
    push_left(alloc, &mut lines, results)?;
    push_left(alloc, &mut lines, others)?;
    let page = read_status_page(alloc, kept)?;
    let foreseen = find_missing(alloc, &page, &read_status_page(alloc, shown)?)?;
    let front = b"not to be shown again: ";
    push_rows(alloc, &mut lines, front, kept, &page, &foreseen)?;
    let count = left_count(results)
        .saturating_add(left_count(others))
        .saturating_add(row_count(&foreseen));
    Ok(Named {
        foreseen,
        lines,
        count,
    })
}

/// What a plan brings back of a kept page, where the fresh gateway will show the other one.
fn prospect_of(
    alloc: Global,
    plan: Plan,
    until: Moment,
    kept: Vec<u8>,
    shown: Vec<u8>,
    source: Vec<u8>,
    warning: Vec<u8>,
) -> Result<Prospect, ProspectFault>
    ensures prospect { IfOk result (IsProspect plan.results.items plan.others.items until kept.items
        shown.items warning.items) }
    ensures fault { IfErr result (λ fault. (fault ≡ ProspectFault.OutOfMemory)
        ⊎ ((fault ≡ ProspectFault.BadPage) × (IsNoPage kept.items ⊎ IsNoPage shown.items))) }
{
    let named = name_all(alloc, &plan, kept.as_slice(), shown.as_slice(), warning)?;
    let Named {
        foreseen,
        lines,
        count,
    } = named;
    let Plan { results, others } = plan;
    Ok(Prospect {
        results: sent_by(alloc, results)?,
        others: sent_by(alloc, others)?,
        until,
        kept,
        shown,
        foreseen,
        source,
        lines,
        named: count,
    })
}

/// By when all is sent that is planned at this moment.
fn until_of(now: Moment) -> Moment
    ensures { result ≡ until_of now }
{
    Moment(now.0.saturating_add(SENT_WITHIN))
}

/// How many seconds old a page is.
fn age_of(page: &StatusPage<'_>, now: Moment) -> u32
    ensures { result ≡ age_of page.now now }
{
    now.0.saturating_sub(page.moment)
}

/// A plan twice, and the page of the kept gateway.
#[derive(Drop)]
struct Planned {
    plan: Plan,
    double: Plan,
    kept: Vec<u8>,
}

/// Foresees what a fresh gateway over these objects shows of a plan.
fn foresee(
    alloc: Global,
    fresh: ObjectTable,
    planned: Planned,
    until: Moment,
    source: Vec<u8>,
    warning: Vec<u8>,
) -> Result<Prospect, ProspectFault>
    ensures prospect { IfOk result (IsProspect planned.plan.results.items planned.plan.others.items
        until planned.kept.items (shown_after fresh until (commands_of planned.double))
        warning.items) }
    ensures fault { IfErr result
        (IsUnforeseen fresh until (commands_of planned.double) planned.kept.items) }
{
    let Planned { plan, double, kept } = planned;
    let shown = rehearse(alloc, fresh, until, commands_of(alloc, double)?)?;
    prospect_of(alloc, plan, until, kept, shown, source, warning)
}

// ---- from a page

/// The line that names a page of this age.
fn page_warning(alloc: Global, age: u32) -> Result<Vec<u8>, AllocError>
    ensures { IfOk result (λ line. line.items ≡ page_warning age) }
{
    let mut line = Vec::from_slice(alloc, b"nscagatectl: restoring from a page that is ")?;
    push_number(&mut line, u64::from(age))?;
    line.extend_from_slice(
        b" seconds old, without a log: passive checks that were disabled are enabled\n",
    )?;
    Ok(line)
}

/// Whether a page of this age may be restored.
fn is_new(age: u32, old: bool) -> bool
    ensures { result ≡ is_new age old }
{
    old || age <= OLDEST
}

/// How many seconds old a page of this text is, which may be restored.
fn good_age(
    alloc: Global,
    text: &[u8],
    page: &StatusPage<'_>,
    old: bool,
    now: Moment,
) -> Result<u32, ProspectFault>
    ensures age { IfOk result (λ age. age ≡ age_of page.now now) }
    ensures escaped { IfOk result (λ _. is_escaped_text text.now ≡ true) }
    ensures is_new { IfOk result (λ _. is_new (age_of page.now now) old ≡ true) }
    ensures fault { let age = age_of page.now now in IfErr result (λ fault.
        (fault ≡ ProspectFault.OutOfMemory)
        ⊎ ((fault ≡ ProspectFault.BadPage) × (is_escaped_text text.now ≡ false))
        ⊎ ((fault ≡ ProspectFault.Old age) × (is_new age old ≡ false))) }
{
    let age = age_of(page, now);
    if !is_escaped_text(alloc, text)? {
        Err(ProspectFault::BadPage)
    } else if is_new(age, old) {
        Ok(age)
    } else {
        Err(ProspectFault::Old(age))
    }
}

fn planned_by_page(
    alloc: Global,
    fresh: &ObjectTable,
    text: &[u8],
    page: &StatusPage<'_>,
    now: Moment,
) -> Result<Planned, AllocError>
    ensures planned { let until = until_of now in IfOk result (IsPlanned
        (object_fates fresh.now now page.now.objects.items)
        (page_others fresh.now now until page.now) text.now) }
    ensures accepted { IfOk result (λ planned. IsSound (page_view page.now)
        → AcknowledgesProblems page.now
        → first_refusal fresh.now (until_of now) (commands_of planned.double) ≡ None) }
{
    // The contract of `len` says that a table has no fault.
    let _faultless = fresh.len();
    Ok(Planned {
        plan: plan_of_page(alloc, fresh, page, now, until_of(now))?,
        double: plan_of_page(alloc, fresh, page, now, until_of(now))?,
        kept: Vec::from_slice(alloc, text)?,
    })
}

/// Prepares the restoring of a kept page, where there is no log: it is at most ten minutes old,
/// unless an older one is asked for. `Refused` comes only of a page that acknowledges an object
/// without a problem, as no gateway's does.
pub fn look_ahead_by_page(
    alloc: Global,
    fresh: ObjectTable,
    text: &[u8],
    old: bool,
    now: Moment,
) -> Result<Prospect, ProspectFault>
    ensures prospect { IfOk result (IsPageProspect fresh text.now old now) }
    ensures fault { IfErr result (IsPageFault fresh text.now old now) }
{
    let page = read_status_page(alloc, text)?;
    let age = good_age(alloc, text, &page, old, now)?;
    let planned = planned_by_page(alloc, &fresh, text, &page, now);
    drop(page);
    let planned = planned?;
    let warning = page_warning(alloc, age)?;
    let none = Vec::new(alloc);
    let until = until_of(now);
    let prospect = foresee(alloc, fresh, planned, until, none, warning)?;
    Ok(prospect)
}

// ---- from a log

/// The gateway of a log: over the objects of a kept page, or where there is none of the same gateway,
/// over these.
fn gateway_of(
    alloc: Global,
    table: ObjectTable,
    page: &Option<StatusPage<'_>>,
    log: &[u8],
    now: Moment,
) -> Result<Applier, KeptFault>
    ensures kept { IfOk result (λ kept. IsKept kept.table log.now now kept) }
    ensures objects { IfOk result (λ kept. AreObjectsBy page.now table kept.table) }
    ensures fault { IfErr result (IsKeptFault table log.now) }
{
    if let Some(page) = page {
        match kept_gateway(alloc, page, log, now) {
            Err(KeptFault::BadTable | KeptFault::OtherGateway) => {}
            found => return found,
        }
    }
    kept_over(alloc, table, log, now)
}

/// The line that names from what is restored where there is a log.
fn log_source(
    alloc: Global,
    page: &Option<StatusPage<'_>>,
    now: Moment,
) -> Result<Vec<u8>, AllocError>
    ensures { IfOk result (λ line.
        line.items ≡ source_line (option_map (λ one. age_of one now) page.now)) }
{
    let Some(page) = page else {
        return Vec::from_slice(alloc, b"nscagatectl: restoring from a log without a page\n");
    };
    let mut line = Vec::from_slice(
        alloc,
        b"nscagatectl: restoring from a log, and a page that is ",
    )?;
    push_number(&mut line, u64::from(age_of(page, now)))?;
    line.extend_from_slice(b" seconds old\n")?;
    Ok(line)
}

fn planned_by_log(
    alloc: Global,
    fresh: &ObjectTable,
    kept: &Applier,
    until: Moment,
) -> Result<Planned, AllocError>
    ensures planned { IfOk result (IsPlanned (results_of fresh.now kept.now)
        (others_of fresh.now kept.now until)
        (status_text_at kept.now.table kept.now.opening kept.now.records kept.now.moment)) }
    ensures accepted { IfOk result (λ planned.
        first_refusal fresh.now until (commands_of planned.double) ≡ None) }
{
    // The contract of `len` says that a table has no fault.
    let _faultless = fresh.len();
    Ok(Planned {
        plan: plan_of(alloc, fresh, kept, until)?,
        double: plan_of(alloc, fresh, kept, until)?,
        kept: page_of(alloc, kept)?,
    })
}

fn look_ahead_by_log(
    alloc: Global,
    tables: Tables,
    page: &[u8],
    log: &[u8],
    now: Moment,
) -> Result<Prospect, ProspectFault>
    ensures prospect { IfOk result (IsLogProspect tables.fresh tables.of_log page.now log.now now) }
    ensures fault { IfErr result (IsLogFault tables.fresh tables.of_log page.now log.now now) }
{
    let Tables { fresh, of_log } = tables;
    let page = read_status_page(alloc, page).ok();
    let source = log_source(alloc, &page, now);
    let applier = gateway_of(alloc, of_log, &page, log, now);
    drop(page);
    let applier = applier?;
    let until = until_of(applier.moment());
    let planned = planned_by_log(alloc, &fresh, &applier, until);
    drop(applier);
    let planned = planned?;
    let source = source?;
    let none = Vec::new(alloc);
    let prospect = foresee(alloc, fresh, planned, until, source, none)?;
    Ok(prospect)
}

/// Prepares the restoring of the last log page that daemons printed, and of a kept page where there
/// is one. `NoLog`: there is no log page. `Refused` never comes.
pub fn look_ahead(
    alloc: Global,
    tables: Tables,
    page: &[u8],
    printed: &[u8],
    now: Moment,
) -> Result<Prospect, ProspectFault>
    ensures prospect { IfOk result (λ prospect. (log : List ℕ) × IsLastPage printed.now log
        × IsLogProspect tables.fresh tables.of_log page.now log now prospect) }
    ensures no_log { HasNoPage printed.now → result ≡ Err ProspectFault.NoLog }
    ensures fault { IfErr result (λ fault. HasNoPage printed.now
        ⊎ ((log : List ℕ) × IsLastPage printed.now log
        × IsLogFault tables.fresh tables.of_log page.now log now fault)) }
{
    match log_part(printed) {
        Some(log) => look_ahead_by_log(alloc, tables, page, log, now),
        None => Err(ProspectFault::NoLog),
    }
}
