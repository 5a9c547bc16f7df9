//! A zone that threads share: the calls of all of them stand in one legal history.
#![tactic(auto)]

mod pass;
mod rule;
mod turn;
mod zone;

pub use pass::{Note, Pass};
pub use zone::SharedZone;
