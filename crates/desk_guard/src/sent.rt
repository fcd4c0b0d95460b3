ghost use Rattle.std.specs.Prelude.{◌≡◌, [], ◌∷◌, ◌++◌, OnOk, OnErr, IfErr};
ghost use Rattle.std.specs.Str.{bytes_eq};
ghost use Rattle.sha2.specs.Sha256.{sha256};
ghost use Rattle.desk_guard.specs.Sent.{is_recent, recent, is_among, form_tests};
ghost use Rattle.desk_guard.specs.Tests.{first_failed, Refuses};

use crate::refusal::Refusal;
use sha2::{Digest, Sha256};
use std::alloc::Global;
use std::marker::Model;

// How many forms are kept.
const MOST_FORMS: usize = 131072;

// For how many seconds a form is kept.
const KEPT: u64 = 600;

/// A form that was sent: the digest of its bytes, and the moment in seconds since 1970.
#[derive(Clone, Copy)]
pub struct SentForm {
    pub digest: [u8; 32],
    pub moment: u32,
}

/// The forms that were sent in the last ten minutes.
#[derive(Drop)]
pub struct SentForms {
    forms: Vec<SentForm>,
}

impl Model for SentForms {
    ghost use Rattle.std.specs.Prelude.{List};
    ghost use Rattle.desk_guard.specs.declared.sent.SentForm.{SentForm as Form};

    ghost Value = { List Form };

    ghost view = { λ sent. sent.forms.items };
}

fn is_recent(form: &SentForm, now: u32) -> bool
    ensures { result ≡ is_recent now form.now }
{
    u64::from(now) < u64::from(form.moment) + KEPT
}

impl SentForms {
    /// No form was sent.
    pub fn new(alloc: Global) -> SentForms
        ensures { result ≡ [] }
    {
        SentForms {
            forms: Vec::new(alloc),
        }
    }

    fn forget_old(&mut self, now: u32)
        ensures { self.new ≡ recent now self.old }
    {
        self.forms.retain(|form| is_recent(form, now));
    }

    fn has(&self, digest: &[u8]) -> bool
        ensures { result ≡ is_among digest.now self.now }
    {
        self.forms
            .iter()
            .any(|form| form.digest.as_slice() == digest)
    }

    /// Takes in a form that is to be sent. Those older than ten minutes are forgotten.
    ///
    /// `Repeated`: the same form, byte for byte, was sent in the last ten minutes. `TooMany`: 131,072
    /// forms were. `OutOfMemory` may be returned in place of any other answer.
    pub(crate) fn take(&mut self, form: &[u8], now: u32) -> Result<(), Refusal>
        ensures taken { OnOk result (self.new
            ≡ recent now self.old ++ record { digest = sha256 form.now; moment = now } ∷ []) }
        ensures passed { OnOk result (first_failed (form_tests form.now now self.old) ≡ None) }
        ensures forgotten { OnErr result (self.new ≡ recent now self.old) }
        ensures refused { IfErr result (Refuses (form_tests form.now now self.old)) }
    {
        self.forget_old(now);
        let digest = Sha256::digest(form);
        if self.has(&digest) {
            return Err(Refusal::Repeated);
        }
        if self.forms.len() >= MOST_FORMS {
            return Err(Refusal::TooMany);
        }
        match self.forms.push(SentForm {
            digest,
            moment: now,
        }) {
            Ok(()) => Ok(()),
            Err(_) => Err(Refusal::OutOfMemory),
        }
    }
}
