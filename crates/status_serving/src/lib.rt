//! The status and the changes of gateways as responses, of what is kept of their pages, and the threads
//! that serve them.
#![tactic(auto)]

mod bodies;
mod changing;
mod headings;
mod methods;
mod naming;
mod sending;
mod serving;

pub use bodies::{Form, gateways_of, status_body, status_kind};
pub use changing::{ChangesForm, changes_body, kind_of};
pub use headings::{Heading, refresh_in};
pub use methods::body_asked;
pub use sending::{Site, send_changes, send_object, send_status, send_style};
pub use serving::{ServeFault, serve};
