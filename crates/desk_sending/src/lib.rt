//! The command of an admitted form at a gateway: its line is made where the gateway's page has no
//! objection, it is sent, and what became of it is reported.
#![tactic(auto)]

mod audit;
mod orders;
mod sending;

pub use orders::{Objection, Order, is_asked, order_on, push_objection};
pub use sending::{audit_of, push_answer, send_order};
