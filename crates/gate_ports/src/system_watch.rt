use gate_environment::Watch;
use gate_model::Moment;
use std::time::{Clock, SystemTime};

/// The clock of the system, in whole seconds since 1970. One that can't be read stands at 0, where
/// no packet is stale, and the applier keeps its moment.
#[derive(Drop)]
pub struct SystemWatch<'a, R> {
    pub rt: &'a R,
}

fn seconds<R: Clock>(rt: &R) -> Option<u64> {
    let now = SystemTime::now(rt).ok()?;
    let since = now.duration_since(SystemTime::UNIX_EPOCH).ok()?;
    Some(since.as_secs())
}

impl<'a, R: Clock> Watch for SystemWatch<'a, R> {
    fn read(&self) -> Moment {
        let seconds = seconds(self.rt).unwrap_or(0);
        Moment(u32::try_from(seconds).unwrap_or(u32::MAX))
    }
}
