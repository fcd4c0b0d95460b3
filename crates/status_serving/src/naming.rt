//! The page of the object that the query of a URL names.

ghost use Rattle.std.specs.Prelude.{IfOk};
ghost use Rattle.status_serving.specs.Naming.{IsObjectText, IsObjectBody};

use crate::changing::changes_of;
use crate::headings::Heading;
use page_watching::Seen;
use status_memory::GatewayChange;
use status_merge::Gateway;
use status_view::{ObjectAsked, object_page, read_object_name};
use std::alloc::{AllocError, Global};

fn object_text(
    alloc: Global,
    heading: &Heading<'_>,
    gateways: &[Gateway<'_>],
    changes: &[GatewayChange<'_>],
    query: &str,
    clock: u32,
) -> Result<Vec<u8>, AllocError>
    ensures { IfOk result (λ body.
        IsObjectText heading.now gateways.now changes.now query.now clock body.items) }
{
    let name = read_object_name(alloc, query)?;
    let asked = ObjectAsked {
        title: heading.title,
        clock,
        refresh: heading.refresh,
        host: name.host.as_slice(),
        service: name.service.as_slice(),
        gateway: name.gateway.as_slice(),
        gateways,
        changes,
    };
    Ok(object_page(alloc, &asked)?.into_bytes())
}

/// The page of the object that a query names, of these gateways and of the changes that are kept, for an
/// answer that has a body; nothing for another. The only error is out of memory.
pub(crate) fn object_body<'t>(
    alloc: Global,
    heading: &Heading<'_>,
    seen: &'t [Seen<'t>],
    gateways: &[Gateway<'_>],
    query: &str,
    clock: u32,
    whole: bool,
) -> Result<Vec<u8>, AllocError>
    ensures { IfOk result (λ body. IsObjectBody whole heading.now seen.now gateways.now query.now clock
        body.items) }
{
    if whole {
        let changes = changes_of(alloc, seen)?;
        object_text(alloc, heading, gateways, changes.as_slice(), query, clock)
    } else {
        Ok(Vec::new(alloc))
    }
}
