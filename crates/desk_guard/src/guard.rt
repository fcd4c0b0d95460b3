ghost use Rattle.std.specs.Prelude.{◌≡◌, [], ◌∷◌, ◌++◌, ◌/◌, unwrap_or, codes, string_bytes, option_map, IfOk, IfErr, OnOk, OnErr};
ghost use Rattle.std.specs.List.{list_any};
ghost use Rattle.std.specs.Str.{bytes_eq};
ghost use Rattle.sha2.specs.Sha256.{sha256};
ghost use Rattle.http.specs.Request.{head_of, body_of};
ghost use Rattle.desk_guard.specs.Token.{token_of};
ghost use Rattle.desk_guard.specs.Sent.{recent, form_tests};
ghost use Rattle.desk_guard.specs.Fields.{values_of, only};
ghost use Rattle.desk_guard.specs.Tests.{first_failed, Refuses};
ghost use Rattle.desk_guard.specs.Guard.{is_one_of, is_served, is_form, user_of, host_of, site_tests, user_tests, token_tests, tests_of};

use crate::fields::{is_host_of, is_own_origin, is_same_origin, only_value};
use crate::refusal::Refusal;
use crate::sent::SentForms;
use crate::token::{is_current, token_of};
use bytes::Bytes;
use gate_model::Text;
use http::Request;
use std::alloc::{AllocError, Global};
use std::marker::Model;

/// What the tests of requests need.
#[derive(Drop)]
pub struct Guard<'a> {
    /// The hosts that are served: names or addresses, those of IPv6 in brackets, each with any port.
    pub hosts: Vec<&'a str>,
    /// The header field by which the proxy names the user.
    pub user_header: &'a str,
    /// The users who may send commands.
    pub users: Vec<&'a [u8]>,
    /// The key of the tokens: random bytes, which nobody else knows.
    pub key: [u8; 64],
}

/// A request that may send its commands, which contracts see as its user. `admit` alone makes one, and
/// `again` the same once more.
#[derive(Drop)]
pub struct Admitted {
    user: Text,
}

impl Model for Admitted {
    ghost use Rattle.std.specs.Prelude.{ℕ, List};

    ghost Value = { List ℕ };

    ghost view = { λ admitted. admitted.user };
}

impl Admitted {
    /// The user, as the proxy names them.
    pub fn user(&self) -> &Text
        ensures { result.now ≡ self.now }
    {
        &self.user
    }

    /// The same request once more, for a part of its form. The only error is out of memory.
    pub fn again(&self, alloc: Global) -> Result<Admitted, AllocError>
        ensures { IfOk result (λ again. again ≡ self.now) }
    {
        let user = Text::copied(alloc, self.user.bytes())?;
        Ok(Admitted { user })
    }
}

fn is_served(hosts: &[&str], value: &[u8]) -> bool
    ensures { result ≡ is_served hosts.now value.now }
{
    hosts.iter().any(|host| is_host_of(host.as_bytes(), value))
}

fn is_user(users: &[&[u8]], user: &[u8]) -> bool
    ensures { result ≡ is_one_of users.now user.now }
{
    users.iter().any(|one| *one == user)
}

fn is_form(kind: &[u8]) -> bool
    ensures { result ≡ is_form kind.now }
{
    kind == b"application/x-www-form-urlencoded".as_slice()
}

impl<'a> Guard<'a> {
    /// The token of a user for the forms of a page, at a moment in seconds since 1970. It is current
    /// in this hour and the next. The only error is out of memory.
    pub fn token(&self, alloc: Global, user: &[u8], now: u32) -> Result<String, AllocError>
        ensures { IfOk result (λ token.
            string_bytes token ≡ token_of self.now.key user.now (now / 3600)) }
    {
        token_of(alloc, self.key.as_slice(), user, now / 3600)
    }

    // What is asked, and from where.
    fn check_site(&self, request: &Request<Bytes>) -> Result<(), Refusal>
        ensures passed { OnOk result
            (first_failed (site_tests self.now.hosts.items request.now) ≡ None) }
        ensures refused { IfErr result (λ refusal.
            first_failed (site_tests self.now.hosts.items request.now) ≡ Some refusal) }
    {
        if request.method().as_str() != "POST" {
            return Err(Refusal::WrongMethod);
        }
        let Some(host) = only_value(request, "host") else {
            return Err(Refusal::WrongHost);
        };
        if !is_served(self.hosts.as_slice(), host) {
            return Err(Refusal::WrongHost);
        }
        if !is_own_origin(request, host) || !is_same_origin(request) {
            return Err(Refusal::OtherSite);
        }
        match only_value(request, "content-type") {
            Some(kind) if is_form(kind) => Ok(()),
            _ => Err(Refusal::WrongKind),
        }
    }

    /// Who asks, where they may send commands. The error is `NoUser` or `UnknownUser`.
    pub fn user<'r>(&self, request: &'r Request<Bytes>) -> Result<&'r [u8], Refusal>
        ensures passed { OnOk result (first_failed (user_tests self.now request.entry.now) ≡ None) }
        ensures user { IfOk result (λ user. user_of self.now request.entry.now ≡ Some user.now) }
        ensures refused { IfErr result (λ refusal.
            first_failed (user_tests self.now request.entry.now) ≡ Some refusal) }
    {
        let Some(user) = only_value(request, self.user_header) else {
            return Err(Refusal::NoUser);
        };
        if is_user(self.users.as_slice(), user) {
            Ok(user)
        } else {
            Err(Refusal::UnknownUser)
        }
    }

    fn check_token(&self, alloc: Global, user: &[u8], token: &[u8], now: u32) -> Result<(), Refusal>
        ensures passed { OnOk result
            (first_failed (token_tests self.now.key user.now token.now now) ≡ None) }
        ensures refused { IfErr result
            (Refuses (token_tests self.now.key user.now token.now now)) }
    {
        if is_current(alloc, self.key.as_slice(), user, now, token)? {
            Ok(())
        } else {
            Err(Refusal::OldToken)
        }
    }

    /// Admits a request whose form has this token, at a moment in seconds since 1970, where it passes
    /// each test; otherwise nothing is to be sent for it.
    ///
    /// The error is the refusal of the first test that it fails. `OutOfMemory` may be returned in
    /// place of any other answer.
    pub fn admit(
        &self,
        alloc: Global,
        sent: &mut SentForms,
        request: &Request<Bytes>,
        token: &[u8],
        now: u32,
    ) -> Result<Admitted, Refusal>
        ensures admitted { OnOk result
            (first_failed (tests_of self.now sent.old request.now token.now now) ≡ None) }
        ensures user { IfOk result (λ admitted.
            user_of self.now request.now ≡ Some admitted) }
        ensures taken { OnOk result (sent.new ≡ recent now sent.old
            ++ record { digest = sha256 (body_of request.now); moment = now } ∷ []) }

        ensures refused { IfErr result
            (Refuses (tests_of self.now sent.old request.now token.now now)) }
        // No form is taken for one that was sent.
        ensures untaken { OnErr result (recent now sent.new ≡ recent now sent.old) }
    {
        self.check_site(request)?;
        let user = self.user(request)?;
        self.check_token(alloc, user, token, now)?;
        let user = Text::copied(alloc, user)?;
        sent.take(request.body().as_slice(), now)?;
        Ok(Admitted { user })
    }
}
