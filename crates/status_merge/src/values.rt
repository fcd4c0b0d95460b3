//! The value of a name in the query of a URL, whatever bytes it has.

ghost use Rattle.std.specs.Prelude.{◌≡◌, IfOk, OnOk, if◌then◌else◌};
ghost use Rattle.std.specs.Str.{bytes_eq};
ghost use Rattle.form_urlencoded.specs.Form.{decode, raw_pairs};
ghost use Rattle.status_merge.specs.Values.{value_in};

use form_urlencoded::raw_pairs;
use percent_encoding::percent_decode;
use std::alloc::{AllocError, Global};

// The bytes that an encoded name or value stands for.
fn decoded(alloc: Global, text: &[u8]) -> Result<Vec<u8>, AllocError>
    ensures { IfOk result (λ bytes. bytes.items ≡ decode text.now) }
{
    let mut spaced = Vec::with_capacity(alloc, text.len())?;
    for byte in text {
        spaced.push(if *byte == b'+' { b' ' } else { *byte })?;
    }
    let mut bytes = Vec::new(alloc);
    percent_decode(spaced.as_slice()).append_to(&mut bytes)?;
    Ok(bytes)
}

// Takes one pair of a query into account.
fn add_value(
    alloc: Global,
    known: &mut Vec<u8>,
    wanted: &str,
    name: &[u8],
    value: &[u8],
) -> Result<(), AllocError>
    ensures { OnOk result (known.new.items
        ≡ (if bytes_eq (decode name.now) wanted.now then decode value.now else known.old.items)) }
{
    let name = decoded(alloc, name)?;
    if name.as_slice() == wanted.as_bytes() {
        *known = decoded(alloc, value)?;
    }
    Ok(())
}

/// The value of a name in the query of a URL: that of its last pair, and empty where it is missing. The
/// only error is out of memory.
pub fn value_in(alloc: Global, wanted: &str, query: &str) -> Result<Vec<u8>, AllocError>
    ensures { IfOk result (λ found. found.items ≡ value_in wanted.now (raw_pairs query.now)) }
{
    let mut found = Vec::new(alloc);
    for (name, value) in raw_pairs(query.as_bytes()) {
        add_value(alloc, &mut found, wanted, name, value)?;
    }
    Ok(found)
}
