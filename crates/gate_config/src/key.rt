ghost use Rattle.std.specs.Prelude.{◌≡◌};
ghost use Rattle.gate_config.specs.Keys.{name_of};

use std::fmt;

/// A key of a configuration.
#[derive(Clone, Copy, Debug, PartialEq, Eq)]
pub enum Key {
    Agents,
    Operators,
    Pages,
    Capacity,
    GreatestAge,
    Items,
    Limit,
    Reads,
    Sessions,
    Host,
    Name,
    Freshness,
    Service,
    Workers,
}

impl Key {
    /// The key as a document has it.
    pub fn name(self) -> &'static str
        ensures { result.now ≡ name_of self }
    {
        match self {
            Key::Agents => "agents",
            Key::Operators => "operators",
            Key::Pages => "pages",
            Key::Capacity => "capacity",
            Key::GreatestAge => "greatest_age",
            Key::Items => "items",
            Key::Limit => "limit",
            Key::Reads => "reads",
            Key::Sessions => "sessions",
            Key::Host => "host",
            Key::Name => "name",
            Key::Freshness => "freshness",
            Key::Service => "service",
            Key::Workers => "workers",
        }
    }
}

/// Shows the key as a document has it.
impl fmt::Display for Key {
    fn fmt<W: fmt::Write>(&self, f: &mut fmt::Formatter<W>) -> fmt::Result {
        f.write_str(self.name())
    }
}
