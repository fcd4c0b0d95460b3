ghost use Rattle.std.specs.Prelude.{◌≤◌};

/// The limits of the daemon. Own rules: the ranges and the defaults.
#[derive(Clone, Copy)]
pub struct Limits {
    /// The most items that wait in the queue: 1 to 65,536, by default 256.
    pub capacity: u32,
    /// The greatest age of a packet, in seconds: 0 to 900, by default 30. With 0 every age is good.
    pub greatest_age: u32,
    /// The most packets or lines of one session: 1 to 1,000,000, by default 10,000.
    pub items: u32,
    /// The most records of the log: 1 to 1,000,000, by default 100,000.
    pub limit: u32,
    /// The most reads of one session: 1 to 4,294,967,295, by default 1,000,000.
    pub reads: u32,
    /// The most sessions of one worker: 1 to 1,000,000, by default 100,000.
    pub sessions: u32,
    ghost capacity_range: { (1 ≤ capacity) × (capacity ≤ 65536) },
    ghost age_range: { greatest_age ≤ 900 },
    ghost items_range: { (1 ≤ items) × (items ≤ 1000000) },
    ghost limit_range: { (1 ≤ limit) × (limit ≤ 1000000) },
    ghost reads_range: { 1 ≤ reads },
    ghost sessions_range: { (1 ≤ sessions) × (sessions ≤ 1000000) },
}
