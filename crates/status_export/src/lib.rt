//! What other programs read of the status pages of one or more gateways: JSON for scripts, and
//! metrics for Prometheus; and objects of JSON on a line each.
#![tactic(auto)]

mod document;
mod entries;
mod gauges;
mod lines;
mod members;
mod metrics;

pub use document::json_text;
pub use lines::{Value, json_line};
pub use metrics::metrics_text;
