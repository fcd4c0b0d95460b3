/// How a stream is served. In words each number is a setting of its field's name.
#[derive(Clone, Copy)]
pub struct Settings {
    /// Packets, or else lines.
    pub is_packets: bool,
    /// The clock's first reading, and by how much each further one is later.
    pub moment: u32,
    pub tick: u32,
    /// The greatest age of a packet in seconds.
    pub age: u32,
    /// The limits of the session.
    pub items: u32,
    pub reads: u32,
    /// What the queue is opened with, and how many items it has before the session.
    pub capacity: u32,
    pub quota: u32,
    pub queued: u32,
    /// The moment of a close before the session; 0 is none.
    pub closed: u32,
    /// How many bytes a read gives at most, and the offset at which no read goes on.
    pub piece: u32,
    pub cut: u32,
    /// How many bytes a write takes at most, if it takes any; 0 is all.
    pub taken: u32,
    /// How many bytes of the input are a stream by themselves; 0 is all.
    pub each: u32,
    /// Whether the stream is served once for each number of bytes after which it ends, and whether once
    /// for each after which every read fails; 0 is not.
    pub every_end: u32,
    pub every_failure: u32,
    /// Which read fails, which is interrupted, and which call of the writer fails; 0 is none.
    pub failed_read: u32,
    pub interrupted_read: u32,
    pub failed_write: u32,
}

const DEFAULTS: Settings = Settings {
    is_packets: true,
    moment: 1000,
    tick: 0,
    age: 30,
    items: 10_000,
    reads: 1_000_000,
    capacity: 256,
    quota: u32::MAX,
    queued: 0,
    closed: 0,
    piece: u32::MAX,
    cut: 0,
    taken: 0,
    each: 0,
    every_end: 0,
    every_failure: 0,
    failed_read: 0,
    interrupted_read: 0,
    failed_write: 0,
};

impl Settings {
    fn number(&mut self, name: &str) -> Option<&mut u32> {
        match name {
            "moment" => Some(&mut self.moment),
            "tick" => Some(&mut self.tick),
            "age" => Some(&mut self.age),
            "items" => Some(&mut self.items),
            "reads" => Some(&mut self.reads),
            "capacity" => Some(&mut self.capacity),
            "quota" => Some(&mut self.quota),
            "queued" => Some(&mut self.queued),
            "closed" => Some(&mut self.closed),
            "piece" => Some(&mut self.piece),
            "cut" => Some(&mut self.cut),
            "taken" => Some(&mut self.taken),
            "each" => Some(&mut self.each),
            "every_end" => Some(&mut self.every_end),
            "every_failure" => Some(&mut self.every_failure),
            "failed_read" => Some(&mut self.failed_read),
            "interrupted_read" => Some(&mut self.interrupted_read),
            "failed_write" => Some(&mut self.failed_write),
            _ => None,
        }
    }

    fn set(&mut self, word: &str) -> Option<()> {
        let (name, value) = word.split_once('=')?;
        *self.number(name)? = value.parse::<u32>().ok()?;
        Some(())
    }
}

fn is_packets(kind: &str) -> Option<bool> {
    match kind {
        "packets" => Some(true),
        "lines" => Some(false),
        _ => None,
    }
}

/// The settings that the words name, if each word is one.
pub fn settings_of(words: &[String]) -> Option<Settings> {
    let (kind, others) = words.split_first()?;
    let mut settings = Settings {
        is_packets: is_packets(kind.as_str())?,
        ..DEFAULTS
    };
    for word in others {
        settings.set(word.as_str())?;
    }
    Some(settings)
}
