ghost use Rattle.std.specs.Prelude.{◌≡◌};
ghost use Rattle.desk_guard.specs.Refusal.{status_of};

use std::alloc::AllocError;
use thiserror::Error;

/// Why nothing is sent for a request: the first test that it fails.
#[derive(Clone, Copy, Debug, Error)]
pub enum Refusal {
    /// The method is not POST.
    #[error("a command is sent by POST alone")]
    WrongMethod,
    /// Host is missing, repeated, or no name that is served.
    #[error("this name is not served")]
    WrongHost,
    /// The request comes from a page of another site: Origin is not the host's own, Sec-Fetch-Site is
    /// not `same-origin`, one is repeated, or both are missing.
    #[error("a command is sent from this site's own pages alone")]
    OtherSite,
    /// The body is no form of a browser: Content-Type is not `application/x-www-form-urlencoded`.
    #[error("a command is sent by a form")]
    WrongKind,
    /// The proxy names no user, or several.
    #[error("nobody is logged in")]
    NoUser,
    /// The user may not send commands.
    #[error("this user may not send commands")]
    UnknownUser,
    /// The form's token is not that of the user in this hour or the last.
    #[error("the page is too old: load it again")]
    OldToken,
    /// The same form was sent in the last ten minutes.
    #[error("this form was sent already")]
    Repeated,
    /// In the last ten minutes 131,072 forms were sent.
    #[error("too many commands: try again in a minute")]
    TooMany,
    /// Memory ran out.
    #[error("out of memory")]
    OutOfMemory,
}

impl From<AllocError> for Refusal {
    ghost use Rattle.desk_guard.specs.declared.refusal.Refusal.TheVariants.{OutOfMemory};

    ghost from_gives = { λ _ refusal. refusal ≡ OutOfMemory };

    fn from(_: AllocError) -> Refusal {
        Refusal::OutOfMemory
    }
}

impl Refusal {
    /// The status of the answer (RFC 9110, section 15). Own rule: which one.
    pub fn status(self) -> u16
        ensures { result ≡ status_of self }
    {
        match self {
            Refusal::Repeated => 303,
            Refusal::OtherSite | Refusal::NoUser | Refusal::UnknownUser | Refusal::OldToken => 403,
            Refusal::WrongMethod => 405,
            Refusal::WrongKind => 415,
            Refusal::WrongHost => 421,
            Refusal::TooMany | Refusal::OutOfMemory => 503,
        }
    }
}
