use crate::times::PAUSE_MILLIS;
use std::thread;
use std::time::{Clock, Duration};

/// Waits 2 ms, before what can't be done yet is tried again.
pub fn pause<R: Clock>(rt: &R) {
    thread::sleep(rt, Duration::from_millis(PAUSE_MILLIS));
}
