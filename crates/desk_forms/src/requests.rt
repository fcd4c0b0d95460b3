//! The request of a form, by its button.

ghost use Rattle.std.specs.Prelude.{◌≡◌, ◌∷◌, [], Some, None, IfOk, IfErr, codes, map, find, option_map};
ghost use Rattle.std.specs.Str.{bytes_eq};
ghost use Rattle.status_reading.specs.Rows.{object_view, comment_view, downtime_view, page_view};
ghost use Rattle.desk_forms.specs.Fields.{given};
ghost use Rattle.desk_forms.specs.Moments.{time_of};
ghost use Rattle.desk_forms.specs.Requests.{action_of, is_row, object_of, object_on, remark_in, window_in, shows_comment, shows_downtime, request_for, request_of, status_of, IsMissing};
ghost use Rattle.desk_forms.specs.Faults.{needing, object_fault, remark_fault, fault_for, first_fault, IsFirst, request_words, words_of};
ghost use Rattle.desk_forms.specs.Offers.{IsOn, IsOffered};

use crate::fields::Field;
use crate::lookup::{is_checked, text_in, value_or_empty};
use crate::moments::time_of;
use gate_grammar::read_number;
use gate_model::Text;
use operator_commands::{Object, Remark, Request, RequestFault, Texts, Window};
use status_reading::{ShownComment, ShownDowntime, ShownObject, StatusPage, plain_bytes};
use std::alloc::{AllocError, AllocFailed, Global};

/// Why a form asks for no command.
#[derive(Clone, Copy)]
pub enum FormFault {
    /// It names no action.
    NoAction,
    /// The page shows no object of these names.
    NoObject,
    /// The comment is missing.
    NoText,
    /// The page shows no comment or downtime entry of this id.
    NoEntry,
    /// It marks no object.
    NoMarks,
    /// It marks more than 256 objects.
    TooManyMarks,
    /// A time, a span or a setting is none.
    Request(RequestFault),
    /// Memory ran out.
    OutOfMemory,
}

fn request_words(fault: RequestFault) -> &'static str
    ensures { result.now ≡ request_words fault }
{
    match fault {
        RequestFault::BadSetting => "passive checks are on or off",
        RequestFault::ServicesOfService => "only a host has services",
        RequestFault::BadTime => "a time is as 2026-11-23T20:15 in UTC, or in seconds since 1970",
        RequestFault::BadSpan => "a span is a number with s, m, h or d, as 90m",
        RequestFault::NoEnd => "downtime ends after a span or at a moment: give one of them",
        // No form has these.
        RequestFault::BadState | RequestFault::BadId | RequestFault::NoCommand => {
            "the form asks for no command"
        }
    }
}

impl From<AllocError> for FormFault {
    ghost use Rattle.desk_forms.specs.declared.requests.FormFault.TheVariants.{OutOfMemory};

    ghost from_gives = { λ _ fault. fault ≡ OutOfMemory };

    fn from(_: AllocError) -> FormFault {
        FormFault::OutOfMemory
    }
}

impl<T: Drop> From<AllocFailed<T>> for FormFault {
    ghost use Rattle.desk_forms.specs.declared.requests.FormFault.TheVariants.{OutOfMemory};

    ghost from_gives = { λ _ fault. fault ≡ OutOfMemory };

    fn from(_: AllocFailed<T>) -> FormFault {
        FormFault::OutOfMemory
    }
}

impl FormFault {
    /// The words for it.
    pub fn words(self) -> &'static str
        ensures { result.now ≡ words_of self }
    {
        match self {
            FormFault::NoAction => "the form names no action",
            FormFault::NoObject => "the page doesn't show this object",
            FormFault::NoText => "the comment is missing",
            FormFault::NoEntry => "the page doesn't show this entry",
            FormFault::NoMarks => "the form marks no object",
            FormFault::TooManyMarks => "the form marks more than 256 objects",
            FormFault::Request(cause) => request_words(cause),
            FormFault::OutOfMemory => "out of memory",
        }
    }

    /// The status of the answer (RFC 9110, section 15). Own rule: which one.
    pub fn status(self) -> u16
        ensures { result ≡ status_of self }
    {
        match self {
            FormFault::NoAction
            | FormFault::NoText
            | FormFault::NoMarks
            | FormFault::TooManyMarks
            | FormFault::Request(_) => 400,
            FormFault::NoObject | FormFault::NoEntry => 404,
            FormFault::OutOfMemory => 503,
        }
    }
}

/// What the button of a form asks for.
#[derive(Clone, Copy)]
pub enum Action {
    Acknowledge,
    Unacknowledge,
    Comment,
    Uncomment,
    Downtime,
    Cancel,
    Passive,
}

fn action_of(word: &[u8]) -> Option<Action>
    ensures { result ≡ action_of word.now }
{
    if word == b"acknowledge".as_slice() {
        Some(Action::Acknowledge)
    } else if word == b"unacknowledge".as_slice() {
        Some(Action::Unacknowledge)
    } else if word == b"comment".as_slice() {
        Some(Action::Comment)
    } else if word == b"uncomment".as_slice() {
        Some(Action::Uncomment)
    } else if word == b"downtime".as_slice() {
        Some(Action::Downtime)
    } else if word == b"cancel".as_slice() {
        Some(Action::Cancel)
    } else if word == b"passive".as_slice() {
        Some(Action::Passive)
    } else {
        None
    }
}

fn row_of<'t>(rows: &[ShownObject<'t>], host: &[u8], service: &[u8]) -> Option<ShownObject<'t>>
    ensures { option_map object_view result
        ≡ find (is_row host.now service.now) (map object_view rows.now) }
{
    for row in rows {
        if row.host == host && row.service == service {
            return Some(*row);
        }
    }
    None
}

fn object_of(alloc: Global, row: &ShownObject<'_>) -> Result<Object, AllocError>
    ensures { IfOk result (λ object. object ≡ object_of (object_view row.now)) }
{
    let host = Text::new(plain_bytes(alloc, row.host)?);
    if row.service.is_empty() {
        return Ok(Object {
            host,
            service: None,
        });
    }
    let service = Some(Text::new(plain_bytes(alloc, row.service)?));
    Ok(Object { host, service })
}

// The object that a form names, as the page spells it.
fn object_on(alloc: Global, page: &StatusPage<'_>, fields: &[Field]) -> Result<Object, FormFault>
    ensures object { IfOk result (λ object. object_on (page_view page.now) fields.now ≡ Some object) }
    ensures shown { IfOk result (IsOn (page_view page.now)) }
    ensures refused { IfErr result (IsFirst (object_fault (page_view page.now) fields.now)) }
{
    let host = value_or_empty(fields, "host");
    let service = value_or_empty(fields, "service");
    match row_of(page.objects.as_slice(), host, service) {
        Some(row) => Ok(object_of(alloc, &row)?),
        None => Err(FormFault::NoObject),
    }
}

// What a form says of it.
fn remark_in(alloc: Global, fields: &[Field]) -> Result<Remark, FormFault>
    ensures remark { IfOk result (λ remark. remark_in fields.now ≡ Some remark) }
    ensures refused { IfErr result (IsFirst (needing (remark_in fields.now) FormFault.NoText None)) }
{
    match text_in(alloc, fields, "text")? {
        Some(text) => Ok(Remark { text, author: None }),
        None => Err(FormFault::NoText),
    }
}

fn time_in(alloc: Global, fields: &[Field], name: &str) -> Result<Option<Text>, AllocError>
    ensures { IfOk result (λ time. time ≡ option_map time_of (given name.now fields.now)) }
{
    match text_in(alloc, fields, name)? {
        Some(text) => Ok(Some(time_of(alloc, text)?)),
        None => Ok(None),
    }
}

fn window_in(alloc: Global, fields: &[Field]) -> Result<Window, AllocError>
    ensures { IfOk result (λ window. window ≡ window_in fields.now) }
{
    let lasts = text_in(alloc, fields, "for")?;
    let until = time_in(alloc, fields, "until")?;
    let from = time_in(alloc, fields, "from")?;
    let flexible = text_in(alloc, fields, "flexible")?;
    Ok(Window {
        lasts,
        until,
        from,
        flexible,
        trigger: None,
    })
}

fn shows_comment(rows: &[ShownComment<'_>], id: u32) -> bool
    ensures { result ≡ shows_comment id (map comment_view rows.now) }
{
    for row in rows {
        if row.id == id {
            return true;
        }
    }
    false
}

fn shows_downtime(rows: &[ShownDowntime<'_>], id: u32) -> bool
    ensures { result ≡ shows_downtime id (map downtime_view rows.now) }
{
    for row in rows {
        if row.id == id {
            return true;
        }
    }
    false
}

fn one(alloc: Global, word: Text) -> Result<Texts, AllocError>
    ensures { IfOk result (λ words. words ≡ word ∷ []) }
{
    let mut words = Vec::with_capacity(alloc, 1)?;
    words.push_reserved(word);
    Ok(Texts::new(words))
}

fn acknowledgement(
    alloc: Global,
    page: &StatusPage<'_>,
    fields: &[Field],
) -> Result<Request, FormFault>
    ensures request { IfOk result (λ request.
        request_for Action.Acknowledge (page_view page.now) fields.now ≡ Some request) }
    ensures offered { IfOk result (IsOffered (page_view page.now)) }
    ensures refused { IfErr result
        (IsFirst (fault_for Action.Acknowledge (page_view page.now) fields.now)) }
{
    let object = object_on(alloc, page, fields)?;
    let remark = remark_in(alloc, fields)?;
    Ok(Request::Ack {
        object,
        remark,
        sticky: is_checked(fields, "sticky"),
        persistent: is_checked(fields, "persistent"),
    })
}

fn removal(alloc: Global, page: &StatusPage<'_>, fields: &[Field]) -> Result<Request, FormFault>
    ensures request { IfOk result (λ request.
        request_for Action.Unacknowledge (page_view page.now) fields.now ≡ Some request) }
    ensures offered { IfOk result (IsOffered (page_view page.now)) }
    ensures refused { IfErr result
        (IsFirst (fault_for Action.Unacknowledge (page_view page.now) fields.now)) }
{
    let object = object_on(alloc, page, fields)?;
    Ok(Request::Unack { object })
}

fn comment(alloc: Global, page: &StatusPage<'_>, fields: &[Field]) -> Result<Request, FormFault>
    ensures request { IfOk result (λ request.
        request_for Action.Comment (page_view page.now) fields.now ≡ Some request) }
    ensures offered { IfOk result (IsOffered (page_view page.now)) }
    ensures refused { IfErr result
        (IsFirst (fault_for Action.Comment (page_view page.now) fields.now)) }
{
    let object = object_on(alloc, page, fields)?;
    let remark = remark_in(alloc, fields)?;
    Ok(Request::Comment {
        object,
        remark,
        persistent: is_checked(fields, "persistent"),
    })
}

fn comment_deletion(
    alloc: Global,
    page: &StatusPage<'_>,
    fields: &[Field],
) -> Result<Request, FormFault>
    ensures request { IfOk result (λ request.
        request_for Action.Uncomment (page_view page.now) fields.now ≡ Some request) }
    ensures offered { IfOk result (IsOffered (page_view page.now)) }
    ensures refused { IfErr result
        (IsFirst (fault_for Action.Uncomment (page_view page.now) fields.now)) }
{
    let Some(word) = text_in(alloc, fields, "id")? else {
        return Err(FormFault::NoEntry);
    };
    match read_number(word.bytes()) {
        Some(id) if shows_comment(page.comments.as_slice(), id) => Ok(Request::Uncomment {
            words: one(alloc, word)?,
            all: false,
        }),
        _ => Err(FormFault::NoEntry),
    }
}

fn downtime(alloc: Global, page: &StatusPage<'_>, fields: &[Field]) -> Result<Request, FormFault>
    ensures request { IfOk result (λ request.
        request_for Action.Downtime (page_view page.now) fields.now ≡ Some request) }
    ensures offered { IfOk result (IsOffered (page_view page.now)) }
    ensures refused { IfErr result
        (IsFirst (fault_for Action.Downtime (page_view page.now) fields.now)) }
{
    let object = object_on(alloc, page, fields)?;
    let remark = remark_in(alloc, fields)?;
    let window = window_in(alloc, fields)?;
    Ok(Request::Downtime {
        object,
        remark,
        window,
        services: is_checked(fields, "services"),
    })
}

fn cancellation(
    alloc: Global,
    page: &StatusPage<'_>,
    fields: &[Field],
) -> Result<Request, FormFault>
    ensures request { IfOk result (λ request.
        request_for Action.Cancel (page_view page.now) fields.now ≡ Some request) }
    ensures offered { IfOk result (IsOffered (page_view page.now)) }
    ensures refused { IfErr result
        (IsFirst (fault_for Action.Cancel (page_view page.now) fields.now)) }
{
    let Some(word) = text_in(alloc, fields, "id")? else {
        return Err(FormFault::NoEntry);
    };
    match read_number(word.bytes()) {
        Some(id) if shows_downtime(page.downtimes.as_slice(), id) => Ok(Request::Cancel {
            ids: one(alloc, word)?,
        }),
        _ => Err(FormFault::NoEntry),
    }
}

fn passive(alloc: Global, page: &StatusPage<'_>, fields: &[Field]) -> Result<Request, FormFault>
    ensures request { IfOk result (λ request.
        request_for Action.Passive (page_view page.now) fields.now ≡ Some request) }
    ensures offered { IfOk result (IsOffered (page_view page.now)) }
    ensures refused { IfErr result
        (IsFirst (fault_for Action.Passive (page_view page.now) fields.now)) }
{
    let object = object_on(alloc, page, fields)?;
    match text_in(alloc, fields, "setting")? {
        Some(setting) => Ok(Request::Passive { setting, object }),
        None => Err(FormFault::Request(RequestFault::BadSetting)),
    }
}

/// The request of a form on a page. `action` names the button, `host` and `service` the object as the
/// page spells it, and `id` a comment or a downtime entry. The author is left to the caller.
///
/// `NoAction`, `NoObject`, `NoText`, `NoEntry` and `Request` are the first fault of the form.
/// `OutOfMemory` may be returned in place of any other answer.
pub fn request_of(
    alloc: Global,
    page: &StatusPage<'_>,
    fields: &[Field],
) -> Result<Request, FormFault>
    ensures request { IfOk result (λ request.
        request_of (page_view page.now) fields.now ≡ Some request) }
    ensures offered { IfOk result (IsOffered (page_view page.now)) }
    ensures fault { IfErr result (IsFirst (first_fault (page_view page.now) fields.now)) }
    ensures refused { IfErr result (IsMissing (request_of (page_view page.now) fields.now)) }
{
    let word = value_or_empty(fields, "action");
    match action_of(word) {
        Some(Action::Acknowledge) => acknowledgement(alloc, page, fields),
        Some(Action::Unacknowledge) => removal(alloc, page, fields),
        Some(Action::Comment) => comment(alloc, page, fields),
        Some(Action::Uncomment) => comment_deletion(alloc, page, fields),
        Some(Action::Downtime) => downtime(alloc, page, fields),
        Some(Action::Cancel) => cancellation(alloc, page, fields),
        Some(Action::Passive) => passive(alloc, page, fields),
        None => Err(FormFault::NoAction),
    }
}
