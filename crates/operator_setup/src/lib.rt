//! What each word of `nscagatectl` begins with: the files and the ports that its options name, the
//! clock and the output; and the fault that it ends with early, its line and its exit status.
#![tactic(auto)]

mod devices;
mod fault;
mod places;

pub use devices::{now, page_of, print};
pub use fault::{ControlFault, cause, words_fault};
pub use places::{
    Places, address_or, configuration, path_in, path_of, places_for, read_address,
    read_configuration, wait_in,
};
