//! The token of a form: only a page that this program wrote for the user has it.

ghost use Rattle.std.specs.Prelude.{◌≡◌, ◌++◌, ◌∷◌, IfOk, string_bytes};
ghost use Rattle.std.specs.Fmt.{decimal};
ghost use Rattle.std.specs.Str.{bytes_eq};
ghost use Rattle.desk_guard.specs.Token.{turned, hmac, message_of, token_of, is_current};

use gate_model::push_number;
use sha2::{Digest, Sha256};
use std::alloc::{AllocError, Global};

fn turned(alloc: Global, bits: u8, key: &[u8]) -> Result<Vec<u8>, AllocError>
    ensures { IfOk result (λ block. block.items ≡ turned bits key.now) }
{
    key.iter().map(|byte| *byte ^ bits).collect(alloc)
}

fn hmac(alloc: Global, key: &[u8], message: &[u8]) -> Result<[u8; 32], AllocError>
    ensures { IfOk result (λ digest. digest ≡ hmac key.now message.now) }
{
    let inner_key = turned(alloc, 0x36, key)?;
    let mut inner = Sha256::new();
    inner.update(inner_key.as_slice());
    inner.update(message);
    let inner = inner.finalize();
    let outer_key = turned(alloc, 0x5c, key)?;
    let mut outer = Sha256::new();
    outer.update(outer_key.as_slice());
    outer.update(inner.as_slice());
    Ok(outer.finalize())
}

fn message_of(alloc: Global, user: &[u8], hour: u32) -> Result<Vec<u8>, AllocError>
    ensures { IfOk result (λ message. message.items ≡ message_of user.now hour) }
{
    let mut message = Vec::new(alloc);
    push_number(&mut message, u64::from(hour))?;
    message.push(b' ')?;
    message.extend_from_slice(user)?;
    Ok(message)
}

/// The token of a user in an hour since 1970. The only error is out of memory.
pub fn token_of(alloc: Global, key: &[u8], user: &[u8], hour: u32) -> Result<String, AllocError>
    ensures { IfOk result (λ token. string_bytes token ≡ token_of key.now user.now hour) }
{
    let message = message_of(alloc, user, hour)?;
    let digest = hmac(alloc, key, message.as_slice())?;
    hex::encode(alloc, digest.as_slice())
}

// Whether two texts are the same. Each byte is looked at, wherever the first difference is.
fn is_same(one: &[u8], other: &[u8]) -> bool
    ensures { result ≡ bytes_eq one.now other.now }
{
    if one.len() != other.len() {
        return false;
    }
    let mut differing = 0;
    for index in 0..one.len() {
        differing += usize::from(one[index] != other[index]);
    }
    differing == 0
}

/// Whether a token is of the user, and of the hour of this moment or the hour before it. The moment
/// is in seconds since 1970. The only error is out of memory.
pub fn is_current(
    alloc: Global,
    key: &[u8],
    user: &[u8],
    now: u32,
    token: &[u8],
) -> Result<bool, AllocError>
    ensures { IfOk result (λ is. is ≡ is_current key.now user.now now token.now) }
{
    let hour = now / 3600;
    let this = token_of(alloc, key, user, hour)?;
    let last = token_of(alloc, key, user, hour.saturating_sub(1))?;
    let is_of_this = is_same(token, this.as_bytes());
    let is_of_last = is_same(token, last.as_bytes());
    Ok(is_of_this || is_of_last)
}
