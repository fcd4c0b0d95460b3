//! The fate of what stands of a record.

ghost use Rattle.std.specs.Prelude.{◌≡◌, IfOk};
ghost use Rattle.std.specs.Option.{option_map};
ghost use Rattle.gate_model.specs.Table.{object_of};
ghost use Rattle.restore_plan.specs.Fates.{sent_to};

use gate_model::{Body, ObjectId, Text};
use gate_table::ObjectTable;
use std::alloc::{AllocError, Global};
use thiserror::Error;

/// Why a command is left out.
#[derive(Clone, Copy, Debug, Error)]
pub enum Cause {
    /// The fresh gateway doesn't monitor the object.
    #[error("the gateway has no such object")]
    NoSuchObject,
    /// The result is older than its object's freshness threshold, and would look fresh again.
    #[error("the result is older than its object's freshness")]
    TooOld,
    /// The window of the downtime entry is over, and a gateway would refuse it.
    #[error("its window is over")]
    Over,
    /// The downtime entry waits for an entry that isn't scheduled again.
    #[error("its trigger isn't scheduled again")]
    NoTrigger,
}

/// What becomes of the command for what stands of a record.
#[derive(Drop)]
pub enum Fate {
    /// It is sent.
    Sent(Body),
    /// It is left out for this cause.
    Left(Cause, Body),
}

/// The object of these names.
pub fn object_of(table: &ObjectTable, host: &Text, service: &Option<Text>) -> Option<ObjectId>
    ensures { result ≡ object_of table.now host.now service.now }
{
    match service {
        None => table.find_host(host.bytes()),
        Some(name) => table.find_service(host.bytes(), name.bytes()),
    }
}

/// Sends a command for this object of the fresh gateway.
pub fn sent_to(object: Option<ObjectId>, body: Body) -> Fate
    ensures { result ≡ sent_to object body }
{
    match object {
        Some(_) => Fate::Sent(body),
        None => Fate::Left(Cause::NoSuchObject, body),
    }
}

/// Copies a text.
pub fn copied(alloc: Global, text: &Text) -> Result<Text, AllocError>
    ensures { IfOk result (λ copy. copy ≡ text.now) }
{
    Text::copied(alloc, text.bytes())
}

/// Copies the name of a service.
pub fn copied_service(alloc: Global, service: &Option<Text>) -> Result<Option<Text>, AllocError>
    ensures { IfOk result (λ copy. copy ≡ service.now) }
{
    match service {
        None => Ok(None),
        Some(name) => Ok(Some(copied(alloc, name)?)),
    }
}
