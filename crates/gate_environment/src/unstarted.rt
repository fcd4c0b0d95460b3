/// A thread can't be started.
#[derive(Clone, Copy)]
pub struct Unstarted;
