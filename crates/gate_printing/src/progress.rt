use std::sync::Wait;
use std::sync::atomic::{AtomicBool, AtomicU64, Ordering};
use std::thread::Parker;
use std::time::Duration;

/// How far a log page is, as the thread that prints it tells the one that watches it.
#[derive(Drop)]
pub struct Progress {
    // How many lines were printed so far.
    lines: AtomicU64,
    is_over: AtomicBool,
    // The watching thread parks on it until the page begins or all is over.
    parker: Parker,
}

impl Progress {
    /// Nothing is printed yet.
    pub fn new() -> Progress {
        Progress {
            lines: AtomicU64::new(0),
            is_over: AtomicBool::new(false),
            parker: Parker::new(),
        }
    }

    /// The page begins.
    pub fn begin(&self) {
        self.parker.unpark();
    }

    /// Waits until the page begins, or is over.
    pub(crate) fn wait<R: Wait>(&self, rt: &R) {
        self.parker.park(rt);
    }

    /// Rests until the page is over, for so long at most.
    pub(crate) fn rest<R: Wait>(&self, rt: &R, most: Duration) {
        self.parker.park_timeout(rt, most);
    }

    /// How many lines were printed by now.
    pub(crate) fn lines(&self) -> u64 {
        self.lines.load(Ordering::SeqCst)
    }

    pub(crate) fn is_over(&self) -> bool {
        self.is_over.load(Ordering::SeqCst)
    }

    /// One more line is printed.
    pub(crate) fn move_on(&self) {
        self.lines.fetch_add(1, Ordering::SeqCst);
    }

    /// The page is printed, or there is none.
    pub fn end(&self) {
        self.is_over.store(true, Ordering::SeqCst);
        self.parker.unpark();
    }
}
