//! What is kept of an earlier run, in one text: packets of results, then lines of other commands. It
//! is read whole, what has a fault is named, and the rest is served before any peer is.
#![tactic(auto)]

mod fault;
mod first;
mod order;
mod pieces;
mod text;
mod writing;

pub use fault::KeptFault;
pub use first::{FirstInput, FirstOutput, KeptBytes, KeptFirst, Turn};
pub use order::{LineTurn, Opens, Order, PacketTurn, TakenCount};
pub use pieces::{Part, pieces_of};
pub use text::{Kept, read_kept};
pub use writing::{Written, write_kept};
