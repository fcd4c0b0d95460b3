//! The orders for a gateway that wait to be sent, the oldest first, and what came of the last ones, for
//! the users whose they are.
#![tactic(auto)]

mod labels;
mod outbox;
mod receipts;
mod showing;

pub use labels::{Label, Labelled, labelled_order};
pub use outbox::{Outbox, Settled, TakeFault};
pub use receipts::Receipt;
pub use showing::{Asked, Shown};
