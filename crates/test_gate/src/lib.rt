//! Tests of the gateway's crates through their public items: the happy path of each call, devices that
//! fail, and what no contract states of the queue and of the threads.
#![tactic(auto)]

#[cfg(test)]
mod applier;
#[cfg(test)]
mod appliers;
#[cfg(test)]
mod closing;
#[cfg(test)]
mod comments;
#[cfg(test)]
mod devices;
#[cfg(test)]
mod downtime;
#[cfg(test)]
mod draining;
#[cfg(test)]
mod fakes;
#[cfg(test)]
mod gateways;
#[cfg(test)]
mod grammar;
#[cfg(test)]
mod machine;
#[cfg(test)]
mod model;
#[cfg(test)]
mod objects;
#[cfg(test)]
mod operating;
#[cfg(test)]
mod packet;
#[cfg(test)]
mod pages;
#[cfg(test)]
mod parts;
#[cfg(test)]
mod racing;
#[cfg(test)]
mod replay;
#[cfg(test)]
mod sockets;
#[cfg(test)]
mod solo;
#[cfg(test)]
mod submitting;
#[cfg(test)]
mod texts;
#[cfg(test)]
mod turns;
#[cfg(test)]
mod waking;
#[cfg(test)]
mod workers;
