ghost use Rattle.std.specs.Prelude.{◌≡◌};
ghost use Rattle.operator_commands.specs.Bodies.{body_for, schedule, code_of};

use crate::names::{host_code, service_code, setting_of};
use crate::request::{Object, Remark, Request};
use gate_model::{Body, Moment, Text};
use thiserror::Error;

/// Why a request is no command.
#[derive(Clone, Copy, Debug, Error)]
pub enum RequestFault {
    /// `--state` names no state of a service, or none of a host.
    #[error("--state is OK, WARNING, CRITICAL or UNKNOWN, or of a host UP, DOWN or UNREACHABLE")]
    BadState,
    /// `passive` has neither `on` nor `off`.
    #[error("passive is on or off")]
    BadSetting,
    /// `--services` stands beside a service.
    #[error("--services is of a host, and a service is named")]
    ServicesOfService,
    /// A moment is no number of seconds since 1970 below 2^32.
    #[error("a time is in seconds since 1970")]
    BadTime,
    /// A span is no number with a unit, or its seconds are not below 2^32.
    #[error("a span is a number with s, m, h or d, as 90m")]
    BadSpan,
    /// An id is no number.
    #[error("an id is a number")]
    BadId,
    /// Neither `--for` nor `--until` is there, or both are.
    #[error("downtime ends by one of --for and --until")]
    NoEnd,
    /// The request is not one command by itself: it names ids or times.
    #[error("the request is not one command")]
    NoCommand,
}

/// When downtime is.
#[derive(Clone, Copy)]
pub struct Times {
    pub starts: Moment,
    pub ends: Moment,
    /// How many seconds flexible downtime lasts; None: it is fixed.
    pub flexible: Option<u32>,
    /// The number of the downtime entry that triggers it, or 0.
    pub trigger: u32,
}

fn code_of(object: &Object, state: &[u8]) -> Option<i16>
    ensures { result ≡ code_of object.now state.now }
{
    match &object.service {
        Some(_) => service_code(state),
        None => host_code(state),
    }
}

/// The command of a request that is one by itself. Where the words name no author, it is the user.
///
/// Notifications are asked for, as `notify` has it, though a gateway sends none.
pub fn body_for(user: Text, request: Request) -> Result<Body, RequestFault>
    ensures { result ≡ body_for user request }
{
    match request {
        Request::Ack {
            object,
            remark,
            sticky,
            persistent,
        } => Ok(Body::Acknowledge {
            host: object.host,
            service: object.service,
            sticky: if sticky { 2 } else { 1 },
            notify: 1,
            persistent: u32::from(persistent),
            author: remark.author.unwrap_or(user),
            text: remark.text,
        }),
        Request::Unack { object } => Ok(Body::RemoveAck {
            host: object.host,
            service: object.service,
        }),
        Request::Comment {
            object,
            remark,
            persistent,
        } => Ok(Body::AddComment {
            host: object.host,
            service: object.service,
            persistent: u32::from(persistent),
            author: remark.author.unwrap_or(user),
            text: remark.text,
        }),
        Request::Passive { setting, object } => match setting_of(setting.bytes()) {
            Some(on) => Ok(Body::Passive {
                host: object.host,
                service: object.service,
                on,
            }),
            None => Err(RequestFault::BadSetting),
        },
        Request::Result {
            object,
            state,
            output,
        } => match code_of(&object, state.bytes()) {
            Some(code) => Ok(Body::Result {
                host: object.host,
                service: object.service,
                code,
                output,
            }),
            None => Err(RequestFault::BadState),
        },
        Request::Shutdown => Ok(Body::Shutdown),
        Request::Uncomment { .. } | Request::Downtime { .. } | Request::Cancel { .. } => {
            Err(RequestFault::NoCommand)
        }
    }
}

/// The command of `downtime` at these times, for the object or, with `services`, for each service of
/// its host. Where the words name no author, it is the user.
///
/// The only error is `ServicesOfService`.
pub fn schedule(
    user: Text,
    object: Object,
    remark: Remark,
    times: Times,
    services: bool,
) -> Result<Body, RequestFault>
    ensures { result ≡ schedule user object remark times services }
{
    let fixed = u32::from(times.flexible.is_none());
    let lasts = times.flexible.unwrap_or(0);
    let author = remark.author.unwrap_or(user);
    if services {
        if object.service.is_some() {
            return Err(RequestFault::ServicesOfService);
        }
        return Ok(Body::ScheduleServices {
            host: object.host,
            starts: times.starts,
            ends: times.ends,
            fixed,
            trigger: times.trigger,
            lasts,
            author,
            text: remark.text,
        });
    }
    Ok(Body::Schedule {
        host: object.host,
        service: object.service,
        starts: times.starts,
        ends: times.ends,
        fixed,
        trigger: times.trigger,
        lasts,
        author,
        text: remark.text,
    })
}
