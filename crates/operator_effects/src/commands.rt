//! The commands that a request is, on a status page.

ghost use Rattle.std.specs.Prelude.{◌≡◌, ◌≢◌, ◌∷◌, [], None, Some, Err, IfErr, IfOk, map, option_map};
ghost use Rattle.operator_effects.specs.Commands.{kind_of, deletion_of, deletion, comments_deletion, downtime, commands_of, ids_fault, object_fault, downtime_fault, first_fault};
ghost use Rattle.gate_grammar.specs.Numbers.{number_of};
ghost use Rattle.operator_commands.specs.declared.bodies.RequestFault.TheVariants.{BadId};
ghost use Rattle.status_reading.specs.Rows.{page_view};

use gate_grammar::read_number;
use gate_model::{Body, Kind, Moment, Text};
use operator_commands::{
    Object, Remark, Request, RequestFault, Window, body_for, schedule, times_of,
};
use page_changes::{comment_field, downtime_field};
use status_reading::StatusPage;
use std::alloc::{AllocError, AllocFailed, Global};
use thiserror::Error;

/// Why a request is no list of commands.
#[derive(Clone, Copy, Debug, Error)]
pub enum PlanFault {
    /// The words are faulty.
    #[error("{0}")]
    Request(RequestFault),
    /// `--all` stands beside more than two words.
    #[error("--all is of a host, or of a host and a service")]
    NoObject,
    /// Memory ran out.
    #[error("out of memory")]
    OutOfMemory,
}

impl From<AllocError> for PlanFault {
    ghost use Rattle.operator_effects.specs.declared.commands.PlanFault.TheVariants.{OutOfMemory};

    ghost from_gives = { λ _ fault. fault ≡ OutOfMemory };

    fn from(_: AllocError) -> PlanFault {
        PlanFault::OutOfMemory
    }
}

impl<T: Drop> From<AllocFailed<T>> for PlanFault {
    ghost use Rattle.operator_effects.specs.declared.commands.PlanFault.TheVariants.{OutOfMemory};

    ghost from_gives = { λ _ fault. fault ≡ OutOfMemory };

    fn from(_: AllocFailed<T>) -> PlanFault {
        PlanFault::OutOfMemory
    }
}

/// What is deleted by its id.
#[derive(Clone, Copy)]
pub enum Deleted {
    Comment,
    Downtime,
}

fn kind_of(service: Option<&[u8]>) -> Kind
    ensures { result ≡ kind_of (option_map (λ field. field.now) service.entry) }
{
    match service {
        Some(field) => {
            if field.is_empty() {
                Kind::Host
            } else {
                Kind::Service
            }
        }
        None => Kind::Host,
    }
}

fn deletion_of(page: &StatusPage<'_>, deleted: Deleted, id: u32) -> Body
    ensures { result ≡ deletion_of deleted (page_view page.now) id }
{
    match deleted {
        Deleted::Comment => Body::DelComment {
            kind: kind_of(comment_field(page.comments.as_slice(), id)),
            id,
        },
        Deleted::Downtime => Body::DelDowntime {
            kind: kind_of(downtime_field(page.downtimes.as_slice(), id)),
            id,
        },
    }
}

fn deletion(page: &StatusPage<'_>, deleted: Deleted, word: &Text) -> Result<Body, PlanFault>
    ensures body { IfOk result (λ body. deletion deleted (page_view page.now) word.now ≡ Some body) }
    ensures fault { IfErr result (λ fault.
        (fault ≡ PlanFault.Request BadId) × (number_of word.now ≡ None)) }
{
    match read_number(word.bytes()) {
        Some(id) => Ok(deletion_of(page, deleted, id)),
        None => Err(PlanFault::Request(RequestFault::BadId)),
    }
}

fn deletions(
    alloc: Global,
    page: &StatusPage<'_>,
    deleted: Deleted,
    words: &[Text],
) -> Result<Vec<Body>, PlanFault>
    ensures bodies { IfOk result (λ bodies.
        map Some bodies.items ≡ map (deletion deleted (page_view page.now)) words.now) }
    ensures fault { IfErr result (λ fault.
        fault ≢ PlanFault.OutOfMemory → ids_fault words.now ≡ Some fault) }
{
    let mut bodies = Vec::new(alloc);
    for word in words {
        bodies.push(deletion(page, deleted, word)?)?;
    }
    Ok(bodies)
}

fn comments_deletion(alloc: Global, words: &[Text]) -> Result<Body, PlanFault>
    ensures body { IfOk result (λ body. comments_deletion words.now ≡ Some body) }
    ensures fault { IfErr result (λ fault.
        fault ≢ PlanFault.OutOfMemory → object_fault words.now ≡ Some fault) }
{
    match words {
        [host] => Ok(Body::DelAllComments {
            host: Text::copied(alloc, host.bytes())?,
            service: None,
        }),
        [host, service] => Ok(Body::DelAllComments {
            host: Text::copied(alloc, host.bytes())?,
            service: Some(Text::copied(alloc, service.bytes())?),
        }),
        _ => Err(PlanFault::NoObject),
    }
}

fn downtime(
    user: Text,
    now: Moment,
    object: Object,
    remark: Remark,
    window: &Window,
    services: bool,
) -> Result<Body, PlanFault>
    ensures body { IfOk result (λ body.
        downtime user now object remark window.now services ≡ Some body) }
    ensures fault { IfErr result (λ fault. option_map PlanFault.Request
        (downtime_fault user now object remark window.now services) ≡ Some fault) }
{
    match times_of(now, window) {
        Ok(times) => match schedule(user, object, remark, times, services) {
            Ok(body) => Ok(body),
            Err(fault) => Err(PlanFault::Request(fault)),
        },
        Err(fault) => Err(PlanFault::Request(fault)),
    }
}

fn one(alloc: Global, body: Body) -> Result<Vec<Body>, PlanFault>
    ensures bodies { IfOk result (λ bodies. bodies.items ≡ body ∷ []) }
    ensures fault { IfErr result (λ fault. fault ≡ PlanFault.OutOfMemory) }
{
    let mut bodies = Vec::with_capacity(alloc, 1)?;
    bodies.push_reserved(body);
    Ok(bodies)
}

/// The commands of a request that is asked for now by this user, on a page: one for each id, and
/// otherwise one. An id is of a host's comment or downtime, or of a service's, as
/// the page has it.
///
/// `Request` and `NoObject` are the first fault of the words. `OutOfMemory` may be returned in
/// place of any other answer.
pub fn commands_for(
    alloc: Global,
    page: &StatusPage<'_>,
    now: Moment,
    user: Text,
    request: Request,
) -> Result<Vec<Body>, PlanFault>
    ensures bodies { IfOk result (λ bodies.
        map Some bodies.items ≡ commands_of (page_view page.now) now user request) }
    ensures fault { IfErr result (λ fault.
        fault ≢ PlanFault.OutOfMemory → first_fault now user request ≡ Some fault) }
{
    match request {
        Request::Uncomment { words, all } => {
            if all {
                one(alloc, comments_deletion(alloc, words.as_slice())?)
            } else {
                deletions(alloc, page, Deleted::Comment, words.as_slice())
            }
        }
        Request::Cancel { ids } => deletions(alloc, page, Deleted::Downtime, ids.as_slice()),
        Request::Downtime {
            object,
            remark,
            window,
            services,
        } => one(
            alloc,
            downtime(user, now, object, remark, &window, services)?,
        ),
        request => match body_for(user, request) {
            Ok(body) => one(alloc, body),
            Err(fault) => Err(PlanFault::Request(fault)),
        },
    }
}
