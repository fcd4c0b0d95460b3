ghost use Rattle.std.specs.Prelude.{◌≡◌, ◌<◌, length, slice_get, Some};

/// Who connects to a port.
#[derive(Clone, Copy)]
pub enum Role {
    /// An agent sends packets, and has no answers.
    Agent,
    /// An operator sends lines, and each is answered.
    Operator,
    /// The reader of a page gets one, whatever it sends.
    Reader,
}

/// How far a peer has come.
#[derive(Clone, Copy)]
pub enum Stage {
    /// It may be served.
    Open,
    /// It was served for the last time, and takes what is left for it.
    Last,
    /// It took all; what it sends is dropped until it ends its side.
    Parting,
}

/// What a reader has of its page. All is 0 where it has none, and for other peers.
#[derive(Clone, Copy)]
pub struct Page {
    /// Which text it is: those who read the same one share it.
    pub text: u64,
    /// How many bytes it has.
    pub bytes: u64,
    /// How many of them the reader took.
    pub taken: u64,
}

/// What counts of a peer for its turn.
#[derive(Clone, Copy)]
pub struct Standing {
    pub role: Role,
    pub stage: Stage,
    /// It can be served: it is to be greeted, or has brought a whole packet or line, or its end.
    pub is_ready: bool,
    /// Since when it owes what it owes, in milliseconds of the port's clock.
    pub since: u64,
    /// The least is served first; given when it became ready.
    pub order: u64,
    /// Its address: an IPv6 address, or an IPv4 one mapped to it.
    pub address: u128,
    pub page: Page,
}

impl Standing {
    ghost use Rattle.gate_turns.specs.Standing.{can_be_served};

    /// Whether it can be served: it is ready, and wasn't served for the last time.
    pub(crate) fn can_be_served(&self) -> bool
        ensures { result ≡ can_be_served self.now }
    {
        self.stage == Stage::Open && self.is_ready
    }
}

ghost use Rattle.gate_turns.specs.Standing.{others};

/// The peer at this place, unless it is the excepted one.
pub(crate) fn other_at(
    peers: &[Option<Standing>],
    except: Option<usize>,
    place: usize,
) -> Option<Standing>
    requires { place < length peers.now }
    ensures { slice_get (others peers.now except) place ≡ Some result }
{
    if except == Some(place) {
        None
    } else {
        peers[place]
    }
}
