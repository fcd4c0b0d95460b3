ghost use Rattle.std.specs.Prelude.{◌≡◌, ◌+◌, min};
ghost use Rattle.std.specs.Ordering.{nat_cmp};

use std::cmp::Ordering;
use std::marker::Model;

/// A counter of comparisons, by which a search shows how many it makes.
#[derive(Drop)]
pub struct Steps {
    count: u32,
}

impl Model for Steps {
    ghost use Rattle.std.specs.Prelude.{ℕ};

    ghost Value = { ℕ };

    ghost view = { λ steps. steps.count };
}

impl Steps {
    /// A counter at 0.
    pub fn new() -> Steps
        ensures { result ≡ 0 }
    {
        Steps { count: 0 }
    }

    /// How many comparisons were made. The count stops at 4,294,967,295.
    pub fn count(&self) -> u32
        ensures { result ≡ self.now }
    {
        self.count
    }

    /// The order of two numbers. It counts as one comparison.
    pub fn compare(&mut self, one: u32, other: u32) -> Ordering
        ensures order { result ≡ nat_cmp one other }
        ensures count { self.new ≡ min (self.old + 1) 4294967295 }
    {
        self.count = self.count.saturating_add(1);
        one.cmp(&other)
    }
}
