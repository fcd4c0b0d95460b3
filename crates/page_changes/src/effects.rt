//! What a status page shows of a command's effect.

ghost use Rattle.std.specs.Prelude.{◌≡◌, not, Some, map, option_map, IfOk};
ghost use Rattle.gate_model.specs.declared.submission.Body.{Body as Given};
ghost use Rattle.gate_model.specs.Table.{greatest};
ghost use Rattle.gate_model.specs.Act.{output_of, words_of};
ghost use Rattle.gate_model.specs.Escaping.{escaped};
ghost use Rattle.gate_model.specs.State.{is_same_state};
ghost use Rattle.status_reading.specs.Rows.{CommentView, DowntimeView, PageView, object_view, comment_view, downtime_view, page_view};
ghost use Rattle.status_reading.specs.RowFaults.{IsSound};
ghost use Rattle.page_changes.specs.Foreseen.{is_acknowledged};
ghost use Rattle.page_changes.specs.declared.effects.Made.{Made as Making};
ghost use Rattle.page_changes.specs.Effects.{is_same, is_from, is_made, shown_words, has_words, comment_of, has_span, entry_of, has_entries, has_none_of, is_since, has_output, has_result, is_row, shown_if, shown_by, acknowledged_by, OfComment, OfEntry, new_with, mark_of, effect_of_deed, effect_of, made_in, id_of_made};

use crate::foreseen::{comment_field, downtime_field, is_acknowledged};
use crate::names::{Names, kind_of_field, row_of, shown};
use gate_model::{Act, Body, Deed, Span, State, Text};
use status_reading::{
    ShownAcknowledgement, ShownComment, ShownDowntime, ShownObject, ShownSource, StatusPage,
};
use std::alloc::{AllocError, Global};

/// What a page shows of a command.
#[derive(Clone, Copy)]
pub struct Effect {
    /// The state of the object that it acknowledged.
    pub state: Option<State>,
    /// What it made, unless that is downtime of each service of a host.
    pub made: Option<Made>,
}

/// The id of what a command made.
#[derive(Clone, Copy)]
pub enum Made {
    Comment(u32),
    Downtime(u32),
}

impl Made {
    /// The id.
    pub fn id(self) -> u32
        ensures { result ≡ id_of_made self }
    {
        match self {
            Made::Comment(id) | Made::Downtime(id) => id,
        }
    }
}

/// The author and the text of a comment or of downtime, as a page shows them.
#[derive(Drop)]
pub struct Written {
    pub author: Text,
    pub text: Text,
}

fn shown_words(alloc: Global, body: &Body) -> Result<Option<Written>, AllocError>
    ensures { IfOk result (λ words. words ≡ shown_words (words_of body.now)) }
{
    match body.words() {
        Some(words) => Ok(Some(Written {
            author: shown(alloc, words.author())?,
            text: shown(alloc, words.text())?,
        })),
        None => Ok(None),
    }
}

fn shown_output(alloc: Global, body: &Body) -> Result<Option<Text>, AllocError>
    ensures { IfOk result (λ output. output ≡ option_map escaped (output_of body.now)) }
{
    match body.output() {
        Some(output) => Ok(Some(shown(alloc, output)?)),
        None => Ok(None),
    }
}

fn has_words(words: &Option<Written>, author: &[u8], text: &[u8]) -> bool
    ensures { result ≡ has_words words.now author.now text.now }
{
    match words {
        Some(words) => author == words.author.bytes() && text == words.text.bytes(),
        None => false,
    }
}

/// Whether both are true or both false.
pub fn is_same(one: bool, other: bool) -> bool
    ensures { result ≡ is_same one other }
{
    if one { other } else { !other }
}

fn is_from(acknowledgement: bool, source: ShownSource) -> bool
    ensures { result ≡ is_from acknowledgement source }
{
    match source {
        ShownSource::User => !acknowledgement,
        ShownSource::Acknowledgement => acknowledgement,
        ShownSource::Downtime => false,
    }
}

/// The greatest id of the comments, and 0 where there are none.
fn last_comment(rows: &[ShownComment<'_>]) -> u32
    ensures { result ≡ greatest (map (λ (row : CommentView). row.id) (map comment_view rows.now)) }
{
    let mut last = 0;
    for row in rows {
        last = row.id.max(last);
    }
    last
}

/// The greatest id of the downtime entries, and 0 where there are none.
fn last_entry(rows: &[ShownDowntime<'_>]) -> u32
    ensures { result
        ≡ greatest (map (λ (row : DowntimeView). row.id) (map downtime_view rows.now)) }
{
    let mut last = 0;
    for row in rows {
        last = row.id.max(last);
    }
    last
}

/// The id of the first comment with an id above this one, of this object and from there, with this
/// persistence and these words.
fn comment_of(
    rows: &[ShownComment<'_>],
    last: u32,
    names: &Names,
    acknowledgement: bool,
    persistent: bool,
    words: &Option<Written>,
) -> Option<u32>
    ensures { result ≡ comment_of last names.now acknowledgement persistent words.now
        (map comment_view rows.now) }
{
    for row in rows {
        if last < row.id
            && names.are(row.host, row.service)
            && is_from(acknowledgement, row.source)
            && is_same(persistent, row.persistent)
            && has_words(words, row.author, row.text)
        {
            return Some(row.id);
        }
    }
    None
}

/// Whether the entry is as it was asked for.
fn has_span(span: Span, row: &ShownDowntime<'_>) -> bool
    ensures { result ≡ has_span span (downtime_view row.now) }
{
    row.start == span.starts.0
        && row.end == span.ends.0
        && is_same(span.fixed, row.fixed)
        && row.trigger == span.trigger
        && row.duration == span.lasts
}

/// The id of the first downtime entry with an id above this one, of this object, as it was asked for
/// and with these words.
fn entry_of(
    rows: &[ShownDowntime<'_>],
    last: u32,
    host: &[u8],
    service: &[u8],
    span: Span,
    words: &Option<Written>,
) -> Option<u32>
    ensures { result ≡ entry_of last host.now service.now span words.now
        (map downtime_view rows.now) }
{
    for row in rows {
        if last < row.id
            && row.host == host
            && row.service == service
            && has_span(span, row)
            && has_words(words, row.author, row.text)
        {
            return Some(row.id);
        }
    }
    None
}

/// Whether there is such an entry for each of these rows that is of a service of the host.
fn has_entries(
    rows: &[ShownObject<'_>],
    entries: &[ShownDowntime<'_>],
    last: u32,
    names: &Names,
    span: Span,
    words: &Option<Written>,
) -> bool
    ensures { result ≡ has_entries last names.now.host span words.now
        (map object_view rows.now) (map downtime_view entries.now) }
{
    for row in rows {
        if names.is_host_of(row.host, row.service)
            && entry_of(entries, last, row.host, row.service, span, words).is_none()
        {
            return false;
        }
    }
    true
}

/// Whether there is no comment of the object with an id up to this one.
fn has_none_of(rows: &[ShownComment<'_>], last: u32, names: &Names) -> bool
    ensures { result ≡ has_none_of last names.now (map comment_view rows.now) }
{
    for row in rows {
        if names.are(row.host, row.service) && row.id <= last {
            return false;
        }
    }
    true
}

/// Whether the two are one state.
pub fn is_same_state(one: State, other: State) -> bool
    ensures { result ≡ is_same_state one other }
{
    one == other
}

fn is_since(moment: u32, last: Option<u32>) -> bool
    ensures { result ≡ is_since moment last }
{
    match last {
        Some(last) => moment <= last,
        None => false,
    }
}

fn has_output(output: &Option<Text>, field: &[u8]) -> bool
    ensures { result ≡ has_output output.now field.now }
{
    match output {
        Some(output) => field == output.bytes(),
        None => false,
    }
}

/// Whether the row has the state and the output of a result, and its last result is of this moment
/// or a later one.
fn has_result(
    row: Option<ShownObject<'_>>,
    moment: u32,
    state: State,
    output: &Option<Text>,
) -> bool
    ensures { result
        ≡ is_row (has_result moment state output.now) (option_map object_view row.entry) }
{
    match row {
        Some(row) => {
            is_same_state(row.state, state)
                && has_output(output, row.output)
                && is_since(moment, row.last)
        }
        None => false,
    }
}

fn is_made(sticky: bool, shown: ShownAcknowledgement) -> bool
    ensures { result ≡ is_made sticky shown }
{
    match shown {
        ShownAcknowledgement::Missing => false,
        ShownAcknowledgement::Normal => !sticky,
        ShownAcknowledgement::Sticky => sticky,
    }
}

fn is_unacknowledged(row: Option<ShownObject<'_>>) -> bool
    ensures { result ≡ is_row (λ row. not (is_acknowledged row.acknowledgement))
        (option_map object_view row.entry) }
{
    match row {
        Some(row) => !is_acknowledged(row.acknowledgement),
        None => false,
    }
}

fn shown_if(shown: bool) -> Option<Effect>
    ensures { result ≡ shown_if shown }
{
    if shown {
        Some(Effect {
            state: None,
            made: None,
        })
    } else {
        None
    }
}

fn shown_by(state: Option<State>, made: Option<Made>) -> Option<Effect>
    ensures { result ≡ shown_by state made }
{
    match made {
        Some(_) => Some(Effect { state, made }),
        None => None,
    }
}

fn acknowledged_by(sticky: bool, made: Option<Made>, row: Option<ShownObject<'_>>) -> Option<Effect>
    ensures { result ≡ acknowledged_by sticky made (option_map object_view row.entry) }
{
    match row {
        Some(row) if is_made(sticky, row.acknowledgement) => shown_by(Some(row.state), made),
        _ => None,
    }
}

// Of the two pages the first was read before the command was sent, and the second after it.

/// The comment that was made of the object, with these words.
fn new_comment(
    before: &StatusPage<'_>,
    after: &StatusPage<'_>,
    names: &Names,
    words: &Option<Written>,
    acknowledgement: bool,
    persistent: bool,
) -> Option<Made>
    ensures { result ≡ new_with (page_view before.now) (page_view after.now)
        (OfComment names.now acknowledgement persistent words.now) }
{
    let last = last_comment(before.comments.as_slice());
    let rows = after.comments.as_slice();
    match comment_of(rows, last, names, acknowledgement, persistent, words) {
        Some(id) => Some(Made::Comment(id)),
        None => None,
    }
}

/// The downtime entry that was made of the object, with these words.
fn new_entry(
    before: &StatusPage<'_>,
    after: &StatusPage<'_>,
    names: &Names,
    words: &Option<Written>,
    span: Span,
) -> Option<Made>
    ensures { result ≡ new_with (page_view before.now) (page_view after.now)
        (OfEntry names.now span words.now) }
{
    let last = last_entry(before.downtimes.as_slice());
    let rows = after.downtimes.as_slice();
    let (host, service) = (names.host.bytes(), names.service.bytes());
    match entry_of(rows, last, host, service, span, words) {
        Some(id) => Some(Made::Downtime(id)),
        None => None,
    }
}

/// What the page shows of a deed on the object of these names, with these words or this output.
fn effect_of_deed(
    before: &StatusPage<'_>,
    after: &StatusPage<'_>,
    names: &Names,
    words: &Option<Written>,
    output: &Option<Text>,
    deed: Deed,
) -> Option<Effect>
    ensures { result ≡ effect_of_deed (page_view before.now) (page_view after.now) names.now
        words.now output.now deed }
{
    let row = row_of(after.objects.as_slice(), names);
    match deed {
        Deed::Result { code } => {
            let state = State::of_code(kind_of_field(names.service.bytes()), code);
            shown_if(has_result(row, before.moment, state, output))
        }
        Deed::AddComment { persistent } => {
            let made = new_comment(before, after, names, words, false, persistent);
            shown_by(None, made)
        }
        Deed::DelAllComments => {
            let last = last_comment(before.comments.as_slice());
            shown_if(has_none_of(after.comments.as_slice(), last, names))
        }
        Deed::Acknowledge { sticky, persistent } => {
            let made = new_comment(before, after, names, words, true, persistent);
            acknowledged_by(sticky, made, row)
        }
        Deed::RemoveAck => shown_if(is_unacknowledged(row)),
        Deed::Schedule { span } => shown_by(None, new_entry(before, after, names, words, span)),
        Deed::Passive { .. } => None,
    }
}

fn effect_between(
    alloc: Global,
    body: &Body,
    before: &StatusPage<'_>,
    after: &StatusPage<'_>,
) -> Result<Option<Effect>, AllocError>
    ensures { IfOk result (λ effect.
        effect ≡ effect_of body.now (page_view before.now) (page_view after.now)) }
{
    let words = shown_words(alloc, body)?;
    match body.act() {
        Act::On {
            host,
            service,
            deed,
        } => {
            let names = Names::of(alloc, &host, &service)?;
            let output = shown_output(alloc, body)?;
            Ok(effect_of_deed(before, after, &names, &words, &output, deed))
        }
        Act::ScheduleServices { host, span } => {
            let names = Names::of(alloc, &host, &None)?;
            let rows = before.objects.as_slice();
            let entries = after.downtimes.as_slice();
            let last = last_entry(before.downtimes.as_slice());
            Ok(shown_if(has_entries(rows, entries, last, &names, span, &words)))
        }
        Act::DelComment { id, .. } => {
            Ok(shown_if(comment_field(after.comments.as_slice(), id).is_none()))
        }
        Act::DelDowntime { id, .. } => {
            Ok(shown_if(downtime_field(after.downtimes.as_slice(), id).is_none()))
        }
        Act::Shutdown => Ok(shown_if(after.closing.is_some())),
    }
}

/// What the page `after` shows of a command, where the page `before` was read before the command was
/// sent; None where it doesn't show its effect.
///
/// A result is shown by its state, its output and its moment; a comment, an acknowledgement and
/// downtime by a row that the page before had not; a deletion by the row that is missing. No page
/// shows whether passive checks are enabled. The only error is out of memory. Own rule.
pub fn effect_of(
    alloc: Global,
    body: &Body,
    before: &StatusPage<'_>,
    after: &StatusPage<'_>,
) -> Result<Option<Effect>, AllocError>
    ensures effect { IfOk result (λ effect.
        effect ≡ effect_of body.now (page_view before.now) (page_view after.now)) }

    // By this page only a command with this mark made what this one made, whichever page was read
    // before that one.
    ensures own { IsSound (page_view after.now) → (earlier : PageView) (other : Given) (made : Making)
        → made_in (effect_of other earlier (page_view after.now)) ≡ Some made
        → IfOk result (λ effect. made_in effect ≡ Some made → mark_of body.now ≡ mark_of other) }
{
    effect_between(alloc, body, before, after)
}
