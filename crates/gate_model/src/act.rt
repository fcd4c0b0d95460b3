//! What a body asks for, and of what: the commands of the External Command List come to five forms.

ghost use Rattle.std.specs.Prelude.{◌≡◌, option_copied};
ghost use Rattle.gate_model.specs.Act.{act_of, span_of, words_of, output_of};

use crate::object::Kind;
use crate::record::Moment;
use crate::submission::Body;
use crate::text::Text;
use std::marker::Model;

/// A name of a monitored object, where a body has it.
#[derive(Drop)]
pub struct Name<'a> {
    text: &'a Text,
}

impl<'a> Model for Name<'a> {
    ghost use Rattle.std.specs.Prelude.{ℕ, List};

    ghost Value = { List ℕ };

    ghost view = { λ name. name.text.now };
}

impl<'a> Name<'a> {
    /// The name that a text is.
    pub fn of(text: &'a Text) -> Name<'a>
        ensures { result ≡ text.now }
    {
        Name { text }
    }

    fn of_service(service: &'a Option<Text>) -> Option<Name<'a>>
        ensures { result ≡ service.now }
    {
        match service {
            None => None,
            Some(text) => Some(Name::of(text)),
        }
    }

    /// Its bytes.
    pub fn bytes(&self) -> &'a [u8]
        ensures { result.now ≡ self.now }
    {
        self.text.bytes()
    }
}

/// The author and the text of a comment, an acknowledgement or a downtime, where a body has them.
/// Contracts see both.
#[derive(Drop)]
pub struct Words<'a> {
    author: &'a Text,
    text: &'a Text,
}

impl<'a> Model for Words<'a> {
    ghost use Rattle.std.specs.Prelude.{ℕ, List};

    ghost Value = { List ℕ × List ℕ };

    ghost view = { λ words. (words.author.now, words.text.now) };
}

impl<'a> Words<'a> {
    /// The author's bytes.
    pub fn author(&self) -> &'a [u8]
        ensures { result.now ≡ self.now.0 }
    {
        self.author.bytes()
    }

    /// The text's bytes.
    pub fn text(&self) -> &'a [u8]
        ensures { result.now ≡ self.now.1 }
    {
        self.text.bytes()
    }
}

/// The downtime that a command asks for (Nagios Core 4 manual, Scheduled Downtime).
#[derive(Clone, Copy)]
pub struct Span {
    pub starts: Moment,
    pub ends: Moment,
    /// Whether the downtime is fixed. Any other is flexible.
    pub fixed: bool,
    /// The id of the entry whose beginning begins this one, or 0.
    pub trigger: u32,
    /// How many seconds a flexible downtime lasts.
    pub lasts: u32,
}

/// What is done to one monitored object, whichever command asks for it (External Command List).
#[derive(Clone, Copy)]
pub enum Deed {
    /// A passive check result (Nagios Core 4 manual, Passive Checks).
    Result {
        /// The return code, as it was sent.
        code: i16,
    },
    /// A comment is made.
    AddComment {
        persistent: bool,
    },
    /// All its comments are deleted.
    DelAllComments,
    /// Its problem is acknowledged.
    Acknowledge {
        sticky: bool,
        /// Whether the acknowledgement's comment is persistent.
        persistent: bool,
    },
    /// Its acknowledgement is removed.
    RemoveAck,
    /// Downtime is scheduled.
    Schedule {
        span: Span,
    },
    /// Passive checks are enabled or disabled.
    Passive {
        on: bool,
    },
}

/// What a body asks for, by reference to its names.
#[derive(Drop)]
pub enum Act<'a> {
    /// A deed on the object of these names.
    On {
        host: Name<'a>,
        service: Option<Name<'a>>,
        deed: Deed,
    },
    /// Downtime for each service of the host.
    ScheduleServices {
        host: Name<'a>,
        span: Span,
    },
    /// The comment of this id is deleted; its object is of this kind.
    DelComment {
        kind: Kind,
        id: u32,
    },
    /// The downtime entry of this id is deleted; its object is of this kind.
    DelDowntime {
        kind: Kind,
        id: u32,
    },
    /// The gateway closes.
    Shutdown,
}

impl Body {
    /// What the body asks for.
    pub fn act(&self) -> Act<'_>
        ensures { result ≡ act_of self.now }
    {
        match self {
            Body::Result {
                host,
                service,
                code,
                ..
            } => act_on(host, service, Deed::Result { code: *code }),
            Body::AddComment {
                host,
                service,
                persistent,
                ..
            } => {
                let persistent = *persistent != 0;
                act_on(host, service, Deed::AddComment { persistent })
            }
            Body::DelComment { kind, id } => Act::DelComment {
                kind: *kind,
                id: *id,
            },
            Body::DelAllComments { host, service } => act_on(host, service, Deed::DelAllComments),
            Body::Acknowledge {
                host,
                service,
                sticky,
                persistent,
                ..
            } => {
                let deed = Deed::Acknowledge {
                    sticky: *sticky == 2,
                    persistent: *persistent != 0,
                };
                act_on(host, service, deed)
            }
            Body::RemoveAck { host, service } => act_on(host, service, Deed::RemoveAck),
            Body::Schedule {
                host,
                service,
                starts,
                ends,
                fixed,
                trigger,
                lasts,
                ..
            } => {
                let span = span_of(*starts, *ends, *fixed, *trigger, *lasts);
                act_on(host, service, Deed::Schedule { span })
            }
            Body::DelDowntime { kind, id } => Act::DelDowntime {
                kind: *kind,
                id: *id,
            },
            Body::Passive { host, service, on } => {
                act_on(host, service, Deed::Passive { on: *on })
            }
            Body::ScheduleServices {
                host,
                starts,
                ends,
                fixed,
                trigger,
                lasts,
                ..
            } => {
                let span = span_of(*starts, *ends, *fixed, *trigger, *lasts);
                Act::ScheduleServices {
                    host: Name::of(host),
                    span,
                }
            }
            Body::Shutdown => Act::Shutdown,
        }
    }

    /// Who made its comment, acknowledgement or downtime, and what they wrote.
    pub fn words(&self) -> Option<Words<'_>>
        ensures { result ≡ words_of self.now }
    {
        match self {
            Body::AddComment { author, text, .. }
            | Body::Acknowledge { author, text, .. }
            | Body::Schedule { author, text, .. }
            | Body::ScheduleServices { author, text, .. } => Some(Words { author, text }),
            _ => None,
        }
    }

    /// The output of a check result.
    pub fn output(&self) -> Option<&[u8]>
        ensures { option_copied result ≡ output_of self.now }
    {
        match self {
            Body::Result { output, .. } => Some(output.bytes()),
            _ => None,
        }
    }
}

/// The deed on the object of these names.
fn act_on<'a>(host: &'a Text, service: &'a Option<Text>, deed: Deed) -> Act<'a>
    ensures { result ≡ Act.On host.now service.now deed }
{
    Act::On {
        host: Name::of(host),
        service: Name::of_service(service),
        deed,
    }
}

/// The downtime that a command with these arguments asks for.
fn span_of(starts: Moment, ends: Moment, fixed: u32, trigger: u32, lasts: u32) -> Span
    ensures { result ≡ span_of starts ends fixed trigger lasts }
{
    Span {
        starts,
        ends,
        fixed: fixed == 1,
        trigger,
        lasts,
    }
}
