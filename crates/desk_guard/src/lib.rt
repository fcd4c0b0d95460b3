//! Which requests of a browser may send a command: those of a page that this program wrote, by a user
//! that the proxy names, and each once. Every other request is refused.
#![tactic(auto)]

mod fields;
mod guard;
mod refusal;
mod sent;
mod token;

pub use guard::{Admitted, Guard};
pub use refusal::Refusal;
pub use sent::SentForms;
