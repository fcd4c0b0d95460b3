//! Tests of the web servers' crates through their public items: pages, a token as another program makes
//! it, the texts of faults, and a form from its request to what its user sees. What the servers answer is
//! tested over sockets, by `scenarios/statusweb_test` and `scenarios/statusdesk_test`.
#![tactic(auto)]

#[cfg(test)]
mod forms;
#[cfg(test)]
mod orders;
#[cfg(test)]
mod pages;
