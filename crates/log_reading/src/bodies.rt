//! The body of a command's text, of any that can take effect.

ghost use Rattle.std.specs.Prelude.{◌≡◌, ◌≢◌, ◌∷◌, ◌++◌, ℕ, ℤ, List, codes, false, None, Some, IfOk};
ghost use Rattle.std.specs.Option.{option_map};
ghost use Rattle.std.specs.Fmt.{signed_decimal};
ghost use Rattle.gate_grammar.specs.Spelling.{holds};
ghost use Rattle.gate_grammar.specs.Canonical.{body_text};
ghost use Rattle.status_reading.specs.Board.{HoldsNone};
ghost use Rattle.log_reading.specs.Log.{IsCode, IsWritten, IsReadableBody};
ghost use Rattle.log_reading.specs.inner.Gives.{Gives, GivesBody};

use crate::cuts::{cut, is_word};
use gate_grammar::{LineFault, read_code, read_line, round_trip};
use gate_model::{Body, Text};
use std::alloc::{AllocError, Global};

/// Copies the names of an object.
fn copied_names(
    alloc: Global,
    host: &[u8],
    service: Option<&[u8]>,
) -> Result<(Text, Option<Text>), AllocError>
    ensures { IfOk result (λ names. (names.0 ≡ host.now)
        × (names.1 ≡ option_map (λ name. name.now) service.entry)) }
{
    let service = match service {
        Some(name) => Some(Text::copied(alloc, name)?),
        None => None,
    };
    Ok((Text::copied(alloc, host)?, service))
}

/// The result of this object with this code and output, which a semicolon separates.
fn object_result(
    alloc: Global,
    host: &[u8],
    service: Option<&[u8]>,
    rest: &[u8],
) -> Result<Option<Body>, AllocError>
    ensures { (code : ℤ) (output : List ℕ) → IsCode code
        → rest.now ≡ signed_decimal code ++ 59 ∷ output
        → Gives result (Body.Result host.now (option_map (λ name. name.now) service.entry) code
        output) }
{
    let Some((digits, output)) = cut(rest, b';') else {
        return Ok(None);
    };
    let Some(code) = read_code(digits) else {
        return Ok(None);
    };
    let (owner, named) = copied_names(alloc, host, service)?;
    let copied = Text::copied(alloc, output)?;
    Ok(Some(Body::Result {
        host: owner,
        service: named,
        code,
        output: copied,
    }))
}

/// The result of a host, of its arguments.
fn host_result(alloc: Global, rest: &[u8]) -> Result<Option<Body>, AllocError>
    ensures { (host : List ℕ) (code : ℤ) (output : List ℕ) → HoldsNone host → IsCode code
        → rest.now ≡ host ++ 59 ∷ (signed_decimal code ++ 59 ∷ output)
        → Gives result (Body.Result host None code output) }
{
    let Some((host, after)) = cut(rest, b';') else {
        return Ok(None);
    };
    object_result(alloc, host, None, after)
}

/// The result of a service of this host, of the arguments after the host.
fn named_result(alloc: Global, host: &[u8], rest: &[u8]) -> Result<Option<Body>, AllocError>
    ensures { (name : List ℕ) (code : ℤ) (output : List ℕ) → HoldsNone name → IsCode code
        → rest.now ≡ name ++ 59 ∷ (signed_decimal code ++ 59 ∷ output)
        → Gives result (Body.Result host.now (Some name) code output) }
{
    let Some((name, after)) = cut(rest, b';') else {
        return Ok(None);
    };
    object_result(alloc, host, Some(name), after)
}

/// The result of a service, of its arguments.
fn service_result(alloc: Global, rest: &[u8]) -> Result<Option<Body>, AllocError>
    ensures { (host name : List ℕ) (code : ℤ) (output : List ℕ) → HoldsNone host → HoldsNone name
        → IsCode code
        → rest.now ≡ host ++ 59 ∷ (name ++ 59 ∷ (signed_decimal code ++ 59 ∷ output))
        → Gives result (Body.Result host (Some name) code output) }
{
    let Some((host, after)) = cut(rest, b';') else {
        return Ok(None);
    };
    named_result(alloc, host, after)
}

/// A line with this command.
fn line_with(alloc: Global, text: &[u8]) -> Result<Vec<u8>, AllocError>
    ensures { IfOk result (λ line. line.items ≡ codes "[0] " ++ text.now) }
{
    let mut line = Vec::from_slice(alloc, b"[0] ")?;
    line.extend_from_slice(text)?;
    Ok(line)
}

/// No body, unless memory ran out.
fn no_body(fault: LineFault) -> Result<Option<Body>, AllocError>
    ensures { IfOk result (λ found. fault ≢ LineFault.OutOfMemory) }
{
    match fault {
        LineFault::OutOfMemory => Err(AllocError),
        _ => Ok(None),
    }
}

/// The body of a command that a line can hold.
fn command_body(alloc: Global, text: &[u8]) -> Result<Option<Body>, AllocError>
    ensures { (body : Body) → IsWritten body → text.now ≡ body_text body → Gives result body }
{
    let line = line_with(alloc, text)?;
    round_trip();
    match read_line(alloc, &line) {
        Ok(command) => Ok(Some(command.body)),
        Err(fault) => no_body(fault),
    }
}

const HOST_RESULT: &[u8] = b"PROCESS_HOST_CHECK_RESULT";

const SERVICE_RESULT: &[u8] = b"PROCESS_SERVICE_CHECK_RESULT";

/// The body of a text, by the name before its first semicolon.
fn named_body(
    alloc: Global,
    text: &[u8],
    name: &[u8],
    rest: &[u8],
) -> Result<Option<Body>, AllocError>
    requires whole { text.now ≡ name.now ++ 59 ∷ rest.now }
    requires clean { holds 59 name.now ≡ false }
    ensures { GivesBody text.now result }
{
    if is_word(name, HOST_RESULT) {
        return host_result(alloc, rest);
    }
    if is_word(name, SERVICE_RESULT) {
        return service_result(alloc, rest);
    }
    command_body(alloc, text)
}

/// A body: that of which this is the text, where it can be known from it.
pub fn body_of(alloc: Global, text: &[u8]) -> Result<Option<Body>, AllocError>
    ensures { GivesBody text.now result }
{
    match cut(text, b';') {
        Some((name, rest)) => named_body(alloc, text, name, rest),
        None => command_body(alloc, text),
    }
}
