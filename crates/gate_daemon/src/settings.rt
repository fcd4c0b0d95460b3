use gate_table::ObjectTable;
use gate_worker::WorkerLimits;

/// What a gateway is run with.
#[derive(Drop)]
pub struct GatewaySettings {
    /// How many workers serve packets: 1 to 63.
    pub workers: u32,
    /// How many items the queue holds at most: 1 to 65,536.
    pub capacity: usize,
    /// How many records the log takes: 1 to 1,000,000.
    pub limit: u32,
    /// What each worker serves, the operator's too, but for its number of connections.
    pub worker: WorkerLimits,
    /// The monitored objects.
    pub table: ObjectTable,
}
