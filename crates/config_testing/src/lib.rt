//! A configuration, read as the daemon reads it, and where its fault stands.
#![tactic(auto)]

mod testing;

pub use testing::test_config;
