//! What the threads of a gateway meet outside it: where connections come from, what the clock shows,
//! what wakes them and what holds them up, and for how long they wait.
#![tactic(auto)]

mod clock;
mod connections;
mod pausing;
pub mod times;
mod unstarted;

pub use clock::{Clock, FixedClock};
pub use connections::{
    Connections, Hold, NoHold, Piece, PieceEnd, Point, SharedClock, Wake, Watch,
};
pub use pausing::pause;
pub use unstarted::Unstarted;
