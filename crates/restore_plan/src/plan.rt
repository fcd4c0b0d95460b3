//! The fates of all records, and what is sent.

ghost use Rattle.std.specs.Prelude.{◌≡◌, ◌≤◌, [], ◌∷◌, ◌++◌, length, take, drop, filter_map, None, IfOk, OnOk};
ghost use Rattle.std.specs.Option.{option_to_list};
ghost use Rattle.gate_table.specs.Faults.{IsFaultless};
ghost use Rattle.restore_plan.specs.Rehearsal.{first_refusal};
ghost use Rattle.restore_plan.specs.Entries.{renewals_of, entry_fate};
ghost use Rattle.restore_plan.specs.Scheduling.{sent_terms, AreSchedulable};
ghost use Rattle.restore_plan.specs.Plan.{result_in, other_in, results_from, taken_at, others_from, results_of, others_of, sent_of, commands_of};

use crate::entries::{Renewal, push_entries, renewals_of};
use crate::fates::Fate;
use crate::objects::{acknowledgement_fate, comment_fate, result_fate, setting_fate};
use gate_applier::Applier;
use gate_model::{Body, Moment, Record};
use gate_table::ObjectTable;
use std::alloc::{AllocError, Global};

/// The fate of each thing that stands of a kept log.
#[derive(Drop)]
pub struct Plan {
    /// The last result of each object.
    pub results: Vec<Fate>,
    /// Comments, acknowledgements, settings and downtime, in the order of their records.
    pub others: Vec<Fate>,
}

/// Appends a fate, if there is one.
fn push_some(fates: &mut Vec<Fate>, fate: Option<Fate>) -> Result<(), AllocError>
    ensures { OnOk result (fates.new.items ≡ fates.old.items ++ option_to_list fate) }
{
    if let Some(fate) = fate {
        fates.push(fate)?;
    }
    Ok(())
}

/// The fate of a record's body, where it is a result.
fn result_in(
    alloc: Global,
    fresh: &ObjectTable,
    kept: &Applier,
    index: usize,
    body: &Body,
) -> Result<Option<Fate>, AllocError>
    ensures { IfOk result (λ fate. fate ≡ result_in fresh.now kept.now index body.now) }
{
    match body {
        Body::Result {
            host,
            service,
            code,
            output,
        } => result_fate(alloc, fresh, kept, index, host, service, *code, output),
        _ => Ok(None),
    }
}

/// The fate of a record's body, where it is neither a result nor downtime.
fn other_in(
    alloc: Global,
    fresh: &ObjectTable,
    kept: &Applier,
    index: usize,
    body: &Body,
) -> Result<Option<Fate>, AllocError>
    ensures { IfOk result (λ fate. fate ≡ other_in fresh.now kept.now index body.now) }
{
    match body {
        Body::AddComment {
            host,
            service,
            persistent,
            author,
            text,
        } => comment_fate(
            alloc,
            fresh,
            kept,
            index,
            host,
            service,
            *persistent,
            author,
            text,
        ),
        Body::Acknowledge {
            host,
            service,
            sticky,
            notify,
            persistent,
            author,
            text,
        } => acknowledgement_fate(
            alloc,
            fresh,
            kept,
            index,
            host,
            service,
            *sticky,
            *notify,
            *persistent,
            author,
            text,
        ),
        Body::Passive { host, service, on } => {
            setting_fate(alloc, fresh, kept, host, service, *on)
        }
        _ => Ok(None),
    }
}

/// The fates of the results among these records.
fn results_of(
    alloc: Global,
    fresh: &ObjectTable,
    kept: &Applier,
    records: &[Record],
) -> Result<Vec<Fate>, AllocError>
    ensures { IfOk result (λ fates.
        fates.items ≡ results_from fresh.now kept.now 0 records.now) }
{
    let mut fates = Vec::new(alloc);
    for (index, record) in records.iter().enumerate() {
        let fate = result_in(alloc, fresh, kept, index, &record.item.body)?;
        push_some(&mut fates, fate)?;
    }
    Ok(fates)
}

/// How many of these entries the record of this index and those before it scheduled.
fn taken_at(index: usize, left: &[Renewal]) -> usize
    ensures taken { result ≡ taken_at index left.now }
    ensures within { result ≤ length left.now }
{
    let mut taken = 0;
    for one in left {
        if one.entry.scheduled().plan.log_index as usize > index {
            return taken;
        }
        taken += 1;
    }
    taken
}

/// Appends the fate of a record, where it is no result, and those of the entries up to its own, of
/// which the first `done` are appended; returns how many entries are appended then.
#[tactic(auto, using(crate::proofs::RowSteps::left_after))]
fn push_up_to(
    alloc: Global,
    fresh: &ObjectTable,
    kept: &Applier,
    renewals: &[Renewal],
    index: usize,
    body: &Body,
    done: usize,
    fates: &mut Vec<Fate>,
) -> Result<usize, AllocError>
    requires { done ≤ length renewals.now }
    ensures pushed { let left = drop done renewals.now in OnOk result (
        fates.new.items ≡ fates.old.items
        ++ option_to_list (other_in fresh.now kept.now index body.now)
        ++ filter_map (entry_fate kept.now) (take (taken_at index left) left)) }
    ensures rest { let left = drop done renewals.now in IfOk result (λ next.
        drop next renewals.now ≡ drop (taken_at index left) left) }
    ensures within { IfOk result (λ next. next ≤ length renewals.now) }
{
    let fate = other_in(alloc, fresh, kept, index, body)?;
    push_some(fates, fate)?;
    let left = &renewals[done..];
    let taken = taken_at(index, left);
    push_entries(alloc, kept, &left[..taken], fates)?;
    Ok(done + taken)
}

/// The fates of the others.
fn others_of(
    alloc: Global,
    fresh: &ObjectTable,
    kept: &Applier,
    records: &[Record],
    renewals: &[Renewal],
) -> Result<Vec<Fate>, AllocError>
    ensures { IfOk result (λ fates.
        fates.items ≡ others_from fresh.now kept.now 0 records.now renewals.now) }
{
    let mut fates = Vec::new(alloc);
    let mut done = 0;
    for (index, record) in records.iter().enumerate() {
        let body = &record.item.body;
        done = push_up_to(alloc, fresh, kept, renewals, index, body, done, &mut fates)?;
    }
    push_entries(alloc, kept, &renewals[done..], &mut fates)?;
    Ok(fates)
}

/// The fate of each thing that stands of the records of a kept gateway, on a fresh one over these
/// objects that applies all by the moment `until`. The only error is out of memory. Own rule.
#[tactic(auto, using(crate::proofs::LogSteps::of_log))]
pub fn plan_of(
    alloc: Global,
    fresh: &ObjectTable,
    kept: &Applier,
    until: Moment,
) -> Result<Plan, AllocError>
    ensures results { IfOk result (λ plan. plan.results.items ≡ results_of fresh.now kept.now) }
    ensures others { IfOk result (λ plan.
        plan.others.items ≡ others_of fresh.now kept.now until) }

    // What is sent can be scheduled: no window is over by then, and each trigger is the number of an
    // entry that is sent before it.
    ensures schedulable { IfOk result (λ plan.
        AreSchedulable until 0 (filter_map sent_terms plan.others.items)) }

    // At that moment, and one after another, none of it is refused.
    ensures accepted { IfOk result (λ plan. IsFaultless fresh.now
        → first_refusal fresh.now until (commands_of plan) ≡ None) }
{
    let renewals = renewals_of(alloc, fresh, kept, until)?;
    let records = kept.records();
    let results = results_of(alloc, fresh, kept, records)?;
    let others = others_of(alloc, fresh, kept, records, renewals.as_slice())?;
    Ok(Plan { results, others })
}

fn push_body(commands: &mut Vec<Body>, body: Body) -> Result<(), AllocError>
    ensures { OnOk result (commands.new.items ≡ commands.old.items ++ body ∷ []) }
{
    commands.push(body)?;
    Ok(())
}

/// Appends the commands that are sent by these fates.
fn push_sent(commands: &mut Vec<Body>, fates: Vec<Fate>) -> Result<(), AllocError>
    ensures { OnOk result (
        commands.new.items ≡ commands.old.items ++ filter_map sent_of fates.items) }
{
    let mut left = fates;
    left.reverse();
    while let Some(fate) = left.pop() {
        match fate {
            Fate::Sent(body) => push_body(commands, body)?,
            Fate::Left(_, body) => drop(body),
        }
    }
    Ok(())
}

/// All commands that are sent by a plan, and nothing else: results first, since only a problem can be
/// acknowledged, and then the others. The only error is out of memory. Own rule.
pub fn commands_of(alloc: Global, plan: Plan) -> Result<Vec<Body>, AllocError>
    ensures { IfOk result (λ commands. commands.items ≡ commands_of plan) }
{
    let mut commands = Vec::new(alloc);
    push_sent(&mut commands, plan.results)?;
    push_sent(&mut commands, plan.others)?;
    Ok(commands)
}
