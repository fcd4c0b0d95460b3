use gate_reader::SessionLimits;

/// How much a worker serves.
#[derive(Clone, Copy)]
pub struct WorkerLimits {
    /// Of how many connections something is queued at most, before a worker ends: 1 to 1,000,000. A
    /// gateway's operator is served without such a limit.
    pub sessions: u32,
    /// How many packets or lines each connection may have answered, 1 to 1,000,000, and how many
    /// reads it may take, 1 to 4,294,967,295.
    pub session: SessionLimits,
    /// The greatest age of a packet in seconds: 0 to 900. With 0 no packet is stale.
    pub greatest_age: u32,
}
