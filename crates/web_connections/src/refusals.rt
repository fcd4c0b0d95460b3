//! The refusals that `http_server` answers itself, with the fields of every answer.
ghost use Rattle.std.specs.Prelude.{◌≡◌, IfOk};
ghost use Rattle.web_connections.specs.Refusals.{guarded};

use httpdate::HttpDate;
use std::alloc::{AllocError, Global};

// The lines of the fields that a refusal lacks, and the name of the last of them.
const LINES: &[u8] = b"cache-control: no-store\r\n\
content-security-policy: default-src 'none'; style-src 'self'; form-action 'self'; base-uri 'none'; \
frame-ancestors 'none'\r\n\
x-content-type-options: nosniff\r\n\
referrer-policy: no-referrer\r\n\
cross-origin-resource-policy: same-origin\r\n\
date: ";

/// A refusal of `http_server`, which ends in an empty line, with the fields of every answer before
/// that line, and with this date. The only error is out of memory.
pub fn guarded(alloc: Global, refusal: &[u8], date: HttpDate) -> Result<Vec<u8>, AllocError>
    ensures { IfOk result (λ text. text.items ≡ guarded date refusal.now) }
{
    let head = refusal.len().saturating_sub(2);
    let mut text = Vec::from_slice(alloc, &refusal[..head])?;
    text.extend_from_slice(LINES)?;
    text.extend_from_slice(&date.to_bytes())?;
    text.extend_from_slice(b"\r\n\r\n")?;
    Ok(text)
}
