//! The limits of a gateway, all of them own rules. The definitions write out the same numbers.

/// The most lines of an object table: gate_table, `specs/Faults.antt`, `IsFaultless`.
pub const LINES: usize = 16_384;
/// The most hosts of a table: gate_table, `specs/Faults.antt`, `host_fault`.
pub const HOSTS: usize = 1_024;
/// The most services of one host: gate_table, `specs/Faults.antt`, `service_fault`.
pub const SERVICES_OF_HOST: usize = 1_024;
/// The most bytes of a host's name: gate_table, `specs/Faults.antt`, `is_named`.
pub const HOST_NAME: usize = 63;
/// The most bytes of a service's name: gate_table, `specs/Faults.antt`, `is_service_name`.
pub const SERVICE_NAME: usize = 127;

/// The most bytes of a command line, without its LF: gate_grammar, `specs/Parsing.antt`.
pub const LINE_LENGTH: usize = 8_192;
/// The greatest age of a packet that can be configured, in seconds: gate_config,
/// `specs/Keys.antt`; gate_replay, `specs/Script.antt`.
pub const GREATEST_AGE: u32 = 900;

/// The most clients of a queue: gate_core, `specs/Limits.antt`, `IsGoodCount`.
pub const MOST_CLIENTS: u32 = 64;
/// The most agents' workers of a gateway: gate_config, `specs/Keys.antt`, `kind_of`.
pub const MOST_WORKERS: u32 = 63;
// Each worker is a client, and the operators' worker is one more.
const _: () = prove!(MOST_WORKERS + 1 == MOST_CLIENTS);

/// The most items that a queue can be opened for: gate_core, `specs/Limits.antt`, `IsGoodCapacity`.
pub const MOST_CAPACITY: u32 = 65_536;
/// The most records of a log: gate_applier, `specs/Applier.antt`.
pub const MOST_RECORDS: u32 = 1_000_000;
// Each record may schedule an entry for each service of a host, and an id has 32 bits.
const _: () = prove!(MOST_RECORDS as u64 * SERVICES_OF_HOST as u64 <= u32::MAX as u64);
/// The most packets or lines of one session: gate_config, `specs/Keys.antt`, `kind_of`.
pub const MOST_ITEMS: u32 = 1_000_000;
/// The most sessions of one agents' worker: gate_config, `specs/Keys.antt`, `kind_of`.
pub const MOST_SESSIONS: u32 = 1_000_000;

/// The most bytes of a script of a replay, or of a configuration: gate_replay,
/// `specs/Replay.antt`; gate_config, `specs/Config.antt`, `IsDocument`.
pub const DOCUMENT_BYTES: usize = 1_048_576;
