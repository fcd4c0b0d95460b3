//! The times of the daemon, and how they fit together. Own rules.
//!
//! Those of a peer are the time that it may take for one thing that it owes, however many calls that
//! needs; only waiting for the peer counts. No time of a peer holds a worker: each port waits for all of
//! its peers at once.

/// In what time an agent takes its greeting.
pub const GREETING_MILLIS: u64 = 10_000;

/// For how many seconds an agent may be silent at least, after its greeting and after each packet. Where
/// the greatest age of a packet is more, it may be silent for so long: what comes later would be too
/// old. Where it is less, what comes too late is still read, and reported as stale.
pub const LEAST_SILENCE_SECONDS: u32 = 60;

/// For how many seconds an agent may be silent where packets are never too old: one whose machine went
/// away without a word isn't kept for ever.
pub const AGELESS_SILENCE_SECONDS: u32 = 900;

/// How long a `send_nsca` waits for its greeting.
const SEND_NSCA_MILLIS: u64 = 10_000;

// No agent is let go for its silence while it may still wait for its greeting, and where packets are
// never too old it has more time than where they are soon.
const _: () = prove!(
    GREETING_MILLIS <= SEND_NSCA_MILLIS
        && SEND_NSCA_MILLIS < LEAST_SILENCE_SECONDS as u64 * 1_000
        && LEAST_SILENCE_SECONDS <= AGELESS_SILENCE_SECONDS
);

/// In what time an operator takes the answers so far and ends its next line.
pub const LINE_MILLIS: u64 = 60_000;

/// In what time an operator takes the answers to its last line.
pub const ANSWER_MILLIS: u64 = 60_000;

/// In what time the reader of a page takes it.
pub const PAGE_MILLIS: u64 = 10_000;

/// In what time peers take what was written to them, once the daemon is to end.
pub const LAST_MILLIS: u64 = 2_000;

/// In what time an operator, or the reader of a page, ends its side after the last answer. What it
/// sends until then is read and dropped.
pub const PARTING_MILLIS: u64 = 500;

/// How long a reader may still come, once the page of the close can be shown and nobody waits for it.
pub const LAST_READER_MILLIS: u64 = 500;

/// How long a port that can't accept a connection rests before it tries again.
pub const ACCEPT_MILLIS: u64 = 100;

/// In what time the daemon ends after the answer `closing`, whatever its peers do.
const END_MILLIS: u64 = 15_000;

/// How often a board, or a page, is tried for which there is no memory: a rest lies between two tries,
/// so that it takes a second.
pub const MEMORY_TRIES: u32 = 500;

const _: () = prove!(MEMORY_TRIES as u64 * PAUSE_MILLIS == 1_000);

// The operators part; a board and a page are tried, as are those that show a close; a last reader comes;
// and the readers take their pages and part. The agents' workers are woken at once.
const _: () = prove!(
    LAST_MILLIS + PARTING_MILLIS + 4 * 1_000 + LAST_READER_MILLIS + LAST_MILLIS + PARTING_MILLIS
        < END_MILLIS
);

/// How long an agent's submission waits for room in the queue. An agent is never answered, so what is
/// dropped is lost without a trace: it waits for longer than a machine with too much work lets the
/// applier stand still.
pub const AGENT_ROOM_MILLIS: u64 = 60_000;

/// How long an operator's submission waits for room in the queue, until it is answered `full`. Other
/// operators wait with it, also the one who shuts the daemon down.
pub const OPERATOR_ROOM_MILLIS: u64 = 10_000;

/// How long the applier rests at an empty queue while a board is due, and whoever tries again what
/// can't be done yet.
pub const PAUSE_MILLIS: u64 = 2;

/// How long a submission rests before it looks again at a full queue: a tenth of the applier's, so
/// that a queue that it has emptied isn't left empty for long.
pub const ROOM_PAUSE_MICROS: u64 = 200;

const _: () = prove!(ROOM_PAUSE_MICROS * 10 == PAUSE_MILLIS * 1_000);

/// For how many times as long as a board took no other one is made: a tenth of the time at most goes
/// into boards.
pub const BOARD_RESTS: u64 = 9;

/// For how long at least no other board is made after one.
pub const LEAST_BOARD_REST_MILLIS: u64 = 50;

/// For how long at most no other board is made after one, where something isn't shown.
pub const MOST_BOARD_REST_MILLIS: u64 = 5_000;

/// How many rests of the applier without an item come before a board. While items come one after
/// another, a board is made each second at most.
pub const QUIET_PAUSES: u32 = 3;
