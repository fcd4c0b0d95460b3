//! Tests of nscagatectl through the public items of its crates: what no script can show, and wrong
//! answers that a script would show late.
#![tactic(auto)]

#[cfg(test)]
mod effects;
#[cfg(test)]
mod lines;
#[cfg(test)]
mod logs;
#[cfg(test)]
mod restoring;
#[cfg(test)]
mod showing;
