ghost use Rattle.std.specs.Prelude.{◌≡◌, [], ◌∷◌, ◌++◌, IfOk, IfErr, OnOk, OnErr};
ghost use Rattle.sha2.specs.Sha256.{sha256};
ghost use Rattle.http.specs.Request.{body_of};
ghost use Rattle.desk_guard.specs.Sent.{recent};
ghost use Rattle.desk_forms.specs.Admitted.{status_of, IsAdmitted, IsRefused};

use crate::fields::{Field, FieldsFault, read_fields};
use crate::lookup::value_or_empty;
use bytes::Bytes;
use desk_guard::{Admitted, Guard, Refusal, SentForms};
use gate_model::Text;
use http::Request;
use std::alloc::{AllocError, Global};
use std::marker::Model;
use thiserror::Error;

/// The form of a request that is admitted, with its user. No other code makes one.
#[derive(Drop)]
pub struct AdmittedForm {
    admitted: Admitted,
    fields: Vec<Field>,
}

impl Model for AdmittedForm {
    ghost use Rattle.desk_forms.specs.Sender.{Sender};

    ghost Value = { Sender };

    ghost view = { λ form. record { user = form.admitted; fields = form.fields.items } };
}

impl AdmittedForm {
    /// The user, as the proxy names them.
    pub fn user(&self) -> &Text
        ensures { result.now ≡ self.now.user }
    {
        self.admitted.user()
    }

    /// The fields of the form.
    pub fn fields(&self) -> &[Field]
        ensures { result.now ≡ self.now.fields }
    {
        self.fields.as_slice()
    }

    /// The form of the same request with these fields. The only error is out of memory.
    pub(crate) fn with_fields(
        &self,
        alloc: Global,
        fields: Vec<Field>,
    ) -> Result<AdmittedForm, AllocError>
        ensures { IfOk result (λ form.
            form ≡ record { user = self.now.user; fields = fields.items }) }
    {
        let admitted = self.admitted.again(alloc)?;
        Ok(AdmittedForm { admitted, fields })
    }
}

/// Why nothing is sent for a request.
#[derive(Clone, Copy, Debug, Error)]
pub enum AdmitFault {
    /// Its body is no form.
    #[error("{0}")]
    Form(FieldsFault),
    /// It fails a test.
    #[error("{0}")]
    Refused(Refusal),
}

impl AdmitFault {
    /// The status of the answer (RFC 9110, section 15). Own rule: which one.
    pub fn status(self) -> u16
        ensures { result ≡ status_of self }
    {
        match self {
            AdmitFault::Form(FieldsFault::TooLong) => 413,
            AdmitFault::Form(FieldsFault::NotUtf8 | FieldsFault::Twice) => 400,
            AdmitFault::Form(FieldsFault::OutOfMemory) => 503,
            AdmitFault::Refused(refusal) => refusal.status(),
        }
    }
}

/// Admits a request at a moment in seconds since 1970, where its body is a form and it passes each
/// test with the form's field `token`; otherwise nothing is to be sent for it.
pub fn admit_form(
    alloc: Global,
    guard: &Guard<'_>,
    sent: &mut SentForms,
    request: &Request<Bytes>,
    now: u32,
) -> Result<AdmittedForm, AdmitFault>
    ensures admitted { IfOk result (IsAdmitted guard.now sent.old request.now now) }
    ensures taken { OnOk result (sent.new ≡ recent now sent.old
        ++ record { digest = sha256 (body_of request.now); moment = now } ∷ []) }

    ensures refused { IfErr result (IsRefused guard.now sent.old request.now now) }
    ensures untaken { OnErr result (recent now sent.new ≡ recent now sent.old) }
{
    let fields = match read_fields(alloc, request.body().as_slice()) {
        Ok(fields) => fields,
        Err(fault) => return Err(AdmitFault::Form(fault)),
    };
    let token = value_or_empty(fields.as_slice(), "token");
    match guard.admit(alloc, sent, request, token, now) {
        Ok(admitted) => Ok(AdmittedForm { admitted, fields }),
        Err(refusal) => Err(AdmitFault::Refused(refusal)),
    }
}
