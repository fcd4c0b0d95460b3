//! The text of a page that was read.

ghost use Rattle.std.specs.Prelude.{◌≡◌, MatchResult};
ghost use Rattle.status_reading.specs.Rows.{page_view};
ghost use Rattle.status_reading.specs.Text.{IsTextOf, IsRead};

use crate::page::{ReadFault, StatusPage, read_lines};
use std::alloc::Global;

/// The text of a status page that was read, and can be read again without a look at what its rows
/// say of one another.
#[derive(Drop)]
pub struct PageText {
    pub bytes: Vec<u8>,
    pub ghost read: { ∥ IsRead bytes.items ∥₁ },
}

impl PageText {
    /// Reads the page once more. The only fault is `OutOfMemory`.
    pub fn page(&self, alloc: Global) -> Result<StatusPage<'_>, ReadFault>
        ensures { MatchResult result
            (λ page. IsTextOf self.now.bytes.items (page_view page))
            (λ fault. fault ≡ ReadFault.OutOfMemory) }
    {
        read_lines(alloc, self.bytes.as_slice())
    }
}
