//! What is kept of the status pages of gateways: a thread for each fetches its page again and again, and
//! whoever asks reads what was kept last. No lock is held over a fetch, so nobody waits for a gateway.
#![tactic(auto)]

mod causes;
mod places;
mod watching;

pub use causes::{NoPage, cause_of, old_cause};
pub use places::{Place, PlacesFault, address_in, every_in, places_in};
pub use watching::{Contents, Seen, Shared, Watch, Watched, clock};
