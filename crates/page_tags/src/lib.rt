//! The tags of the web server's pages don't depend on what gateways show: laws alone.
#![tactic(auto)]

mod laws;

pub use laws::tag_laws;
