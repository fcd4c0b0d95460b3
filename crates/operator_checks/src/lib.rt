//! What is reported of gateways that were asked, as a plugin of Nagios reports it: one line, and an
//! exit status.
#![tactic(auto)]

mod drawing;
mod findings;
mod reporting;

pub use findings::{Figures, Finding, Port, figures_of};
pub use reporting::{push_line, status_of};
