//! Since when each object of a gateway has its state, and the last changes of states.

ghost use Rattle.std.specs.Prelude.{◌≡◌, ◌≤◌, ◌-◌, ◌&&◌, nat_lt, [], ◌∷◌, ◌++◌, List, length, map, count_by, is_some, IfOk, OnOk, OnErr};
ghost use Rattle.std.specs.List.{flat_map, list_any};
ghost use Rattle.std.specs.Option.{option_map};
ghost use Rattle.std.specs.HashMap.{get};
ghost use Rattle.circular_buffer.specs.Buffer.{keep_last};
ghost use Rattle.status_reading.specs.Rows.{PageView, object_view, page_view};
ghost use Rattle.status_memory.specs.History.{KnownView, result_view, change_view, is_pending, is_change, change_from, by_result, shown_row, shown_rows, shown_since, is_other_in, IsHistoryOf};
ghost use Rattle.status_memory.specs.inner.Known.{Key, same_key, known_view, lent_view, lent_result, standing_in, standing_at, since_result, since_after, result_in, state_of, result_with, result_after, held_after, known_since, known_with, known_at, change_at, held_in, since_in, all_held, changes_if, shared_with, all_known, all_changes};

use circular_buffer::HeapCircularBuffer;
use status_reading::{ShownAcknowledgement, ShownObject, State, StatusPage};
use std::alloc::{AllocError, Global};
use std::collections::HashMap;
use std::marker::Model;

// How many changes are kept.
const MOST_CHANGES: usize = 1000;

/// A change of an object's state: its last result before was another one, or it had none, and has a
/// problem.
#[derive(Drop)]
pub struct StateChange {
    /// The moment of the first page that shows the new state, in seconds since 1970.
    pub moment: u32,
    /// The host's name as on the page, with its escapes.
    pub host: Vec<u8>,
    /// The service's likewise; empty for a host.
    pub service: Vec<u8>,
    /// None where the object had no result before.
    pub from: Option<State>,
    pub to: State,
}

/// A change, with the name of the gateway whose pages show it.
#[derive(Clone, Copy)]
pub struct GatewayChange<'a> {
    pub gateway: &'a str,
    pub change: &'a StateChange,
}

/// Since when an object has its state.
#[derive(Clone, Copy)]
pub struct Since {
    /// The moment of the first page of the unbroken run of pages that show it, in seconds since 1970. A
    /// page that shows the object without a result breaks no run.
    pub moment: u32,
    /// Whether the run begins with the first page of all: the object may have had the state before.
    pub at_least: bool,
    /// Whether the state is that of an earlier page, as the last page shows no result of the object, which
    /// its gateway doesn't call stale.
    pub is_held: bool,
}

/// What a page shows of an object by its last result.
#[derive(Drop)]
pub struct ShownResult {
    pub state: State,
    /// The moment of the result, in seconds since 1970.
    pub last: Option<u32>,
    pub acknowledgement: ShownAcknowledgement,
    pub output: Vec<u8>,
    /// Since when the object has this state.
    pub since: Since,
}

/// An object of the last page.
#[derive(Drop)]
struct Known {
    host: Vec<u8>,
    service: Vec<u8>,
    /// Its state there, and since when it has it.
    state: State,
    since: Since,
    /// Its last result on all pages.
    result: Option<ShownResult>,
    /// Whether it is shown by that, which is of an earlier page.
    is_held: bool,
    /// Whether its gateway calls it stale.
    is_stale: bool,
}

/// What is kept of the states on all pages of a gateway: of each object of the last page its last
/// result, and since when it has its state; the last 1,000 changes; and whether the last page has other
/// objects than the one before it.
#[derive(Drop)]
pub struct History {
    has_page: bool,
    is_other: bool,
    known: Vec<Known>,
    changes: HeapCircularBuffer<StateChange>,
    ghost room: { changes.capacity ≡ 1000 },
}

impl Model for History {
    ghost use Rattle.std.specs.Prelude.{map};
    ghost use Rattle.circular_buffer.specs.Buffer.{keep_last};
    ghost use Rattle.status_memory.specs.History.{HistoryView, change_view};
    ghost use Rattle.status_memory.specs.inner.Known.{known_view};

    ghost Value = { HistoryView };

    ghost view = { λ history. record {
      has_page = history.has_page;
      is_other = history.is_other;
      known = map known_view history.known.items;
      changes = keep_last 1000 (map change_view history.changes.items);
    } };
}

// What is known of each object, by its names: of equal names the first.
fn by_name<'k>(
    alloc: Global,
    known: &'k [Known],
) -> Result<HashMap<(&'k [u8], &'k [u8]), &'k Known>, AllocError>
    ensures { IfOk result (λ found. (key : Key) → option_map lent_view (get same_key found key)
        ≡ standing_in (map known_view known.now) key.0.now key.1.now) }
{
    let mut found = HashMap::new(alloc);
    let mut index = known.len();
    while index > 0 {
        index -= 1;
        let one = &known[index];
        found.insert((one.host.as_slice(), one.service.as_slice()), one)?;
    }
    Ok(found)
}

fn is_pending(state: State) -> bool
    ensures { result ≡ is_pending state }
{
    state == State::Pending
}

fn result_in<'k>(standing: Option<&'k Known>) -> Option<&'k ShownResult>
    ensures { option_map lent_result result ≡ result_in (option_map lent_view standing.entry) }
{
    match standing {
        Some(known) => known.result.as_ref(),
        None => None,
    }
}

// Since when an object has a state on a page of this moment, which may be the first one, by its last
// result.
fn since_result(had_page: bool, last: Option<&ShownResult>, state: State, moment: u32) -> Since
    ensures { result ≡ since_result had_page (option_map lent_result last.entry) state moment }
{
    match last {
        Some(known) if known.state == state => known.since,
        _ => Since {
            moment,
            at_least: !had_page,
            is_held: false,
        },
    }
}

// The same by what is known of it.
fn since_after(had_page: bool, standing: Option<&Known>, state: State, moment: u32) -> Since
    ensures { result ≡ since_after had_page (option_map lent_view standing.entry) state moment }
{
    match standing {
        Some(known) if known.state == state => known.since,
        _ => since_result(had_page, result_in(standing), state, moment),
    }
}

// A result once more.
fn result_again(alloc: Global, last: &ShownResult) -> Result<ShownResult, AllocError>
    ensures { IfOk result (λ again. result_view again ≡ result_view last.now) }
{
    Ok(ShownResult {
        state: last.state,
        last: last.last,
        acknowledgement: last.acknowledgement,
        output: Vec::from_slice(alloc, last.output.as_slice())?,
        since: last.since,
    })
}

fn maybe_again(alloc: Global, last: Option<&ShownResult>) -> Result<Option<ShownResult>, AllocError>
    ensures { IfOk result (λ again.
        option_map result_view again ≡ option_map lent_result last.entry) }
{
    match last {
        Some(last) => Ok(Some(result_again(alloc, last)?)),
        None => Ok(None),
    }
}

fn result_with(
    alloc: Global,
    since: Since,
    row: &ShownObject<'_>,
) -> Result<ShownResult, AllocError>
    ensures { IfOk result (λ made. result_view made ≡ result_with since (object_view row.now)) }
{
    Ok(ShownResult {
        state: row.state,
        last: row.last,
        acknowledgement: row.acknowledgement,
        output: Vec::from_slice(alloc, row.output)?,
        since,
    })
}

// The last result of an object after a row whose state it has since then.
fn result_after(
    alloc: Global,
    standing: Option<&Known>,
    since: Since,
    row: &ShownObject<'_>,
) -> Result<Option<ShownResult>, AllocError>
    ensures { IfOk result (λ made. option_map result_view made
        ≡ result_after (option_map lent_view standing.entry) since (object_view row.now)) }
{
    if is_pending(row.state) {
        maybe_again(alloc, result_in(standing))
    } else {
        Ok(Some(result_with(alloc, since, row)?))
    }
}

// Whether an object is shown by its last result, where it has the row's state since this moment.
fn held_after(standing: Option<&Known>, from: u32, moment: u32, row: &ShownObject<'_>) -> bool
    ensures { result
        ≡ held_after (option_map lent_view standing.entry) from moment (object_view row.now) }
{
    is_pending(row.state)
        && result_in(standing).is_some()
        && (row.stale || moment.saturating_sub(from) < 3600)
}

fn known_since(
    alloc: Global,
    standing: Option<&Known>,
    since: Since,
    row: &ShownObject<'_>,
    moment: u32,
) -> Result<Known, AllocError>
    ensures { IfOk result (λ one. known_view one
        ≡ known_since (option_map lent_view standing.entry) since moment (object_view row.now)) }
{
    Ok(Known {
        host: Vec::from_slice(alloc, row.host)?,
        service: Vec::from_slice(alloc, row.service)?,
        state: row.state,
        since,
        result: result_after(alloc, standing, since, row)?,
        is_held: held_after(standing, since.moment, moment, row),
        is_stale: row.stale,
    })
}

fn known_with(
    alloc: Global,
    had_page: bool,
    standing: Option<&Known>,
    row: &ShownObject<'_>,
    moment: u32,
) -> Result<Known, AllocError>
    ensures { IfOk result (λ one. known_view one
        ≡ known_with had_page (option_map lent_view standing.entry) moment (object_view row.now)) }
{
    let since = since_after(had_page, standing, row.state, moment);
    known_since(alloc, standing, since, row, moment)
}

fn is_change(before: Option<State>, state: State) -> bool
    ensures { result ≡ is_change before state }
{
    match before {
        Some(before) => !is_pending(state) && before != state,
        None => state.is_problem(),
    }
}

// The state of an object by its last result.
fn state_in(standing: Option<&Known>) -> Option<State>
    ensures { result ≡ state_of (option_map lent_view standing.entry) }
{
    match result_in(standing) {
        Some(result) => Some(result.state),
        None => None,
    }
}

// Appends the change of an object, where its state was another, or it has its first result, a problem.
fn push_change(
    alloc: Global,
    changes: &mut Vec<StateChange>,
    before: Option<State>,
    row: &ShownObject<'_>,
    moment: u32,
) -> Result<(), AllocError>
    ensures { OnOk result (map change_view changes.new.items ≡ map change_view changes.old.items
        ++ change_from moment (object_view row.now) before) }
{
    if is_change(before, row.state) {
        changes.push(StateChange {
            moment,
            host: Vec::from_slice(alloc, row.host)?,
            service: Vec::from_slice(alloc, row.service)?,
            from: before,
            to: row.state,
        })?;
    }
    Ok(())
}

fn standing_at<'k>(
    found: &HashMap<(&'k [u8], &'k [u8]), &'k Known>,
    row: &ShownObject<'_>,
) -> Option<&'k Known>
    ensures { option_map lent_view result ≡ standing_at found.now row.now }
{
    found.get(&(row.host, row.service)).copied()
}

// The objects of the next page.
fn all_known<'k>(
    alloc: Global,
    had_page: bool,
    found: &HashMap<(&'k [u8], &'k [u8]), &'k Known>,
    rows: &[ShownObject<'_>],
    moment: u32,
) -> Result<Vec<Known>, AllocError>
    ensures { IfOk result (λ known. map known_view known.items
        ≡ map (known_at had_page found.now moment) rows.now) }
{
    let mut known = Vec::with_capacity(alloc, rows.len())?;
    for row in rows {
        let standing = standing_at(found, row);
        known.push(known_with(alloc, had_page, standing, row, moment)?)?;
    }
    Ok(known)
}

// The changes that the next page shows.
fn all_changes<'k>(
    alloc: Global,
    found: &HashMap<(&'k [u8], &'k [u8]), &'k Known>,
    rows: &[ShownObject<'_>],
    moment: u32,
) -> Result<Vec<StateChange>, AllocError>
    ensures { IfOk result (λ changes. map change_view changes.items
        ≡ flat_map (change_at found.now moment) rows.now) }
{
    let mut changes = Vec::new(alloc);
    for row in rows {
        let before = state_in(standing_at(found, row));
        push_change(alloc, &mut changes, before, row, moment)?;
    }
    Ok(changes)
}

// The changes that the next page shows; none where it is the first.
fn changes_after<'k>(
    alloc: Global,
    has_page: bool,
    found: &HashMap<(&'k [u8], &'k [u8]), &'k Known>,
    rows: &[ShownObject<'_>],
    moment: u32,
) -> Result<Vec<StateChange>, AllocError>
    ensures { IfOk result (λ changes. map change_view changes.items
        ≡ changes_if has_page (flat_map (change_at found.now moment) rows.now)) }
{
    if has_page {
        all_changes(alloc, found, rows, moment)
    } else {
        Ok(Vec::new(alloc))
    }
}

// How many objects of the next page the last one shows.
fn shared_in<'k>(
    found: &HashMap<(&'k [u8], &'k [u8]), &'k Known>,
    rows: &[ShownObject<'_>],
) -> usize
    ensures { result ≡ count_by (λ row. is_some (standing_at found.now row)) rows.now }
{
    rows.iter()
        .filter(|row| standing_at(found, row).is_some())
        .count()
}

// Whether of so many objects, of which the page before shows these, fewer are shared than not.
fn is_other(had_page: bool, shared: usize, objects: usize) -> bool
    ensures { result ≡ (had_page && nat_lt shared (objects - shared)) }
{
    had_page && shared < objects.saturating_sub(shared)
}

/// What a page adds: its objects, the changes that it shows, and how many objects the last page shows.
#[derive(Drop)]
struct Step {
    known: Vec<Known>,
    changes: Vec<StateChange>,
    shared: usize,
}

fn take_in(
    alloc: Global,
    has_page: bool,
    known: &[Known],
    rows: &[ShownObject<'_>],
    moment: u32,
) -> Result<Step, AllocError>
    ensures known { IfOk result (λ step. map known_view step.known.items
        ≡ all_known has_page (map known_view known.now) moment rows.now) }
    ensures changes { IfOk result (λ step. map change_view step.changes.items
        ≡ changes_if has_page (all_changes (map known_view known.now) moment rows.now)) }
    ensures shared { IfOk result (λ step. step.shared
        ≡ shared_with (map known_view known.now) rows.now) }
{
    let found = by_name(alloc, known)?;
    Ok(Step {
        known: all_known(alloc, has_page, &found, rows, moment)?,
        changes: changes_after(alloc, has_page, &found, rows, moment)?,
        shared: shared_in(&found, rows),
    })
}

// Appends changes, of which the last 1,000 are kept.
fn keep(kept: &mut HeapCircularBuffer<StateChange>, changes: Vec<StateChange>)
    requires { kept.old.capacity ≡ 1000 }
    ensures room { kept.new.capacity ≡ 1000 }
    ensures kept { keep_last 1000 (map change_view kept.new.items)
        ≡ keep_last 1000 (map change_view kept.old.items ++ map change_view changes.items) }
{
    for change in changes {
        let _ = kept.push_back(change);
    }
}

// The result by which an object is shown, if it is of an earlier page.
fn held_in(known: &Known) -> Option<&ShownResult>
    ensures { option_map lent_result result ≡ held_in (known_view known.now) }
{
    if known.is_held {
        known.result.as_ref()
    } else {
        None
    }
}

// Since when an object has the state by which it is shown.
fn since_in(known: &Known) -> Since
    ensures { result ≡ since_in (known_view known.now) }
{
    match held_in(known) {
        Some(last) => Since {
            is_held: !known.is_stale,
            ..last.since
        },
        None => known.since,
    }
}

fn all_since(alloc: Global, known: &[Known]) -> Result<Vec<Since>, AllocError>
    ensures { IfOk result (λ since. since.items ≡ map since_in (map known_view known.now)) }
{
    let mut since = Vec::with_capacity(alloc, known.len())?;
    for one in known {
        since.push(since_in(one))?;
    }
    Ok(since)
}

// The result of an earlier page by which an object is shown, if it is.
fn held_again(alloc: Global, known: &Known) -> Result<Option<ShownResult>, AllocError>
    ensures { IfOk result (λ held. option_map result_view held ≡ held_in (known_view known.now)) }
{
    maybe_again(alloc, held_in(known))
}

fn is_any_held(known: &[Known]) -> bool
    ensures { result ≡ list_any (λ one. one.is_held) known.now }
{
    known.iter().any(|one| one.is_held)
}

fn each_held(alloc: Global, known: &[Known]) -> Result<Vec<Option<ShownResult>>, AllocError>
    ensures { IfOk result (λ held. map (option_map result_view) held.items
        ≡ map held_in (map known_view known.now)) }
{
    let mut held = Vec::with_capacity(alloc, known.len())?;
    for one in known {
        held.push(held_again(alloc, one)?)?;
    }
    Ok(held)
}

// The same; an empty list where none is.
#[tactic(auto, using(crate::proofs::HistorySteps::any_held))]
fn all_held(alloc: Global, known: &[Known]) -> Result<Vec<Option<ShownResult>>, AllocError>
    ensures { IfOk result (λ held. map (option_map result_view) held.items
        ≡ all_held (map known_view known.now)) }
{
    if is_any_held(known) {
        each_held(alloc, known)
    } else {
        Ok(Vec::new(alloc))
    }
}

// A change once more.
fn again(alloc: Global, change: &StateChange) -> Result<StateChange, AllocError>
    ensures { IfOk result (λ again. change_view again ≡ change_view change.now) }
{
    Ok(StateChange {
        moment: change.moment,
        host: Vec::from_slice(alloc, change.host.as_slice())?,
        service: Vec::from_slice(alloc, change.service.as_slice())?,
        from: change.from,
        to: change.to,
    })
}

fn all_again(
    alloc: Global,
    kept: &HeapCircularBuffer<StateChange>,
) -> Result<Vec<StateChange>, AllocError>
    ensures same { IfOk result (λ changes.
        map change_view changes.items ≡ map change_view kept.now.items) }
    ensures room { length kept.now.items ≤ kept.now.capacity }
{
    let mut changes = Vec::with_capacity(alloc, kept.len())?;
    for change in kept.iter() {
        changes.push(again(alloc, change)?)?;
    }
    Ok(changes)
}

/// A row of a page by an earlier result, if there is one: it is stale then. Its downtime is that of the
/// page.
pub fn by_result<'t>(row: &ShownObject<'t>, held: &'t Option<ShownResult>) -> ShownObject<'t>
    ensures { object_view result
        ≡ by_result (object_view row.now) (option_map result_view held.entry.now) }
{
    match held {
        Some(earlier) => ShownObject {
            state: earlier.state,
            last: earlier.last,
            stale: true,
            acknowledgement: earlier.acknowledgement,
            output: earlier.output.as_slice(),
            ..*row
        },
        None => *row,
    }
}

impl History {
    /// What is kept before the first page. The only error is out of memory.
    pub fn new(alloc: Global) -> Result<History, AllocError>
        ensures { IfOk result (IsHistoryOf []) }
    {
        Ok(History {
            has_page: false,
            is_other: false,
            known: Vec::new(alloc),
            changes: HeapCircularBuffer::with_capacity(alloc, MOST_CHANGES)?,
        })
    }

    /// Takes in the next page. The only error is out of memory, and then nothing is changed.
    pub fn observe(&mut self, alloc: Global, page: &StatusPage<'_>) -> Result<(), AllocError>
        ensures taken { (pages : List PageView) → IsHistoryOf pages self.old
            → OnOk result (IsHistoryOf (page_view page.now ∷ pages) self.new) }
        ensures kept { OnErr result (self.new ≡ self.old) }
    {
        let rows = page.objects.as_slice();
        let had_page = self.has_page;
        let step = take_in(alloc, had_page, self.known.as_slice(), rows, page.moment)?;
        self.has_page = true;
        self.is_other = is_other(had_page, step.shared, rows.len());
        self.known = step.known;
        keep(&mut self.changes, step.changes);
        Ok(())
    }

    /// Whether fewer objects of the last page than not are on the page before it; not where it is the
    /// first. Own rule.
    pub fn is_other(&self) -> bool
        ensures { (pages : List PageView) → IsHistoryOf pages self.now → result ≡ is_other_in pages }
    {
        self.is_other
    }

    /// Since when each object of the last page has the state by which it is shown, in the order of the
    /// page's rows: the moment of the first page of the unbroken run of pages that show this state, and
    /// whether this is the first of all. A page that shows the object as PENDING breaks no run. The only
    /// error is out of memory.
    pub fn since(&self, alloc: Global) -> Result<Vec<Since>, AllocError>
        ensures known { IfOk result (λ since. since.items ≡ map since_in self.now.known) }
        ensures since { (page : PageView) (before : List PageView)
            → IsHistoryOf (page ∷ before) self.now
            → IfOk result (λ since. since.items
            ≡ map (shown_since before page.moment) page.objects) }
    {
        all_since(alloc, self.known.as_slice())
    }

    /// Of each object of the last page the earlier result by which it is shown, if it is: where the page
    /// shows it as PENDING, for an hour from the first page on that shows it so, and for as long as its
    /// gateway calls it stale. An empty list where no object is. The only error is out of memory. Own
    /// rule.
    pub fn held(&self, alloc: Global) -> Result<Vec<Option<ShownResult>>, AllocError>
        ensures known { IfOk result (λ held.
            map (option_map result_view) held.items ≡ all_held self.now.known) }
        ensures held { (page : PageView) (before : List PageView)
            → IsHistoryOf (page ∷ before) self.now
            → IfOk result (λ held. shown_rows page.objects (map (option_map result_view) held.items)
            ≡ map (shown_row before page.moment) page.objects) }
    {
        all_held(alloc, self.known.as_slice())
    }

    /// The last 1,000 changes, the oldest first. The only error is out of memory.
    pub fn changes(&self, alloc: Global) -> Result<Vec<StateChange>, AllocError>
        ensures { IfOk result (λ changes.
            map change_view changes.items ≡ self.now.changes) }
    {
        all_again(alloc, &self.changes)
    }
}
