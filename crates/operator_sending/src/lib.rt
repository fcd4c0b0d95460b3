//! A request to a gateway: what the gateway would refuse is reported and not sent; otherwise each
//! command is sent, its answer read, and the page watched until it shows the effect.
#![tactic(auto)]

mod reporting;
mod requests;

pub use requests::carry_out_request;
