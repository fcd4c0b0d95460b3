//! What an operator asks for, and the command that is sent for it (External Command List).
#![tactic(auto)]

mod bodies;
mod names;
mod request;
mod texts;
mod times;

pub use bodies::{RequestFault, Times, body_for, schedule};
pub use request::{Asked, Object, Options, Remark, Request, Task, Window};
pub use texts::Texts;
pub use times::{read_span, times_of};
