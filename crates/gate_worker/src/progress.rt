ghost use Rattle.std.specs.Prelude.{◌≡◌, ℕ, ◌+◌, ◌<◌, ◌≤◌, [], OnOk, IsTrue, set, length};
ghost use Rattle.gate_worker.specs.Work.{count_of};
ghost use Rattle.gate_worker.specs.inner.Progress.{whole, progress_before, progress_after, IsAsBefore};

use gate_environment::pause;
use gate_environment::times::MEMORY_TRIES;
use gate_reader::SessionLimits;
use std::alloc::{AllocError, Global};
use std::time::Clock;

// For how many connections there is room from the beginning, where there is memory for it: for as many
// operators as may be open, so that one can shut the daemon down also once memory has run out.
const FIRST_PLACES: usize = 256;

/// What a worker keeps of a connection between two of its pieces.
#[derive(Clone, Copy)]
pub(crate) struct Progress {
    /// What is left of its limits.
    pub(crate) left: SessionLimits,
    /// Whether something of it was queued.
    pub(crate) is_counted: bool,
}

/// The progress of a worker's connections by their places, and of how many of them something was
/// queued. A place that the table doesn't reach has the limits of a whole connection.
#[derive(Drop)]
pub(crate) struct ProgressTable {
    session: SessionLimits,
    entries: Vec<Progress>,
    counted: u32,
}

// A connection of which nothing was served, with these limits.
fn whole(session: SessionLimits) -> Progress
    ensures { result ≡ whole session }
{
    Progress {
        left: session,
        is_counted: false,
    }
}

impl ProgressTable {
    /// A table of no connections, each of which will have these limits.
    pub(crate) fn new(alloc: Global, session: SessionLimits) -> ProgressTable
        ensures session { result.session ≡ session }
        ensures none { result.entries.items ≡ [] }
        ensures counted { result.counted ≡ 0 }
    {
        let mut entries = Vec::new(alloc);
        let _ = entries.reserve(FIRST_PLACES);
        ProgressTable {
            session,
            entries,
            counted: 0,
        }
    }

    /// Of how many connections something was queued.
    pub(crate) fn counted(&self) -> u32
        ensures { result ≡ self.now.counted }
    {
        self.counted
    }

    // Makes the table reach to this place. It fails where memory for it is missing.
    fn reach(&mut self, place: usize) -> Result<(), AllocError>
        ensures reached { OnOk result (place < length self.new.entries.items) }
        ensures as_before { IsAsBefore self.old self.new }
    {
        while self.entries.len() <= place {
            self.entries.push(whole(self.session))?;
        }
        Ok(())
    }

    /// Makes the table reach to this place, if it can: where memory for it is missing, it is tried for a
    /// second.
    pub(crate) fn try_to_reach<R: Clock>(&mut self, rt: &R, place: usize) -> bool
        ensures reached { IsTrue result → place < length self.new.entries.items }
        ensures as_before { IsAsBefore self.old self.new }
    {
        for _ in 0..MEMORY_TRIES {
            if self.reach(place).is_ok() {
                return true;
            }
            pause(rt);
        }
        false
    }

    /// The progress of the connection of a piece before it: where it is the first one, nothing was
    /// served.
    pub(crate) fn before(&self, place: usize, is_first: bool) -> Progress
        requires { place < length self.now.entries.items }
        ensures { result ≡ progress_before self.now.session self.now.entries.items is_first place }
    {
        if is_first {
            whole(self.session)
        } else {
            self.entries[place]
        }
    }

    /// Notes what a piece left of the limits of its connection, whose progress was this one before it,
    /// and whether something of it was queued.
    pub(crate) fn note(
        &mut self,
        place: usize,
        before: Progress,
        left: SessionLimits,
        has_queued: bool,
    )
        requires reached { place < length self.old.entries.items }
        requires few { self.old.counted < 4294967295 }
        ensures entries { self.new.entries.items
            ≡ set self.old.entries.items place (progress_after before left has_queued) }
        ensures session { self.new.session ≡ self.old.session }
        ensures counted { self.new.counted
            ≡ self.old.counted + count_of before.is_counted has_queued }
    {
        if has_queued && !before.is_counted {
            self.counted += 1;
        }
        self.entries[place] = Progress {
            left,
            is_counted: before.is_counted || has_queued,
        };
    }
}
