//! A log replayed by several workers, which share the zones of a configuration.
#![tactic(auto)]

mod ask;
mod closing;
mod gate;
mod history;
mod merging;
mod opening;
mod passes;
mod rooms;
mod rows;
mod transposing;
mod whole;
mod work;
mod worker;

pub use gate::{Gate, OpenGate};
pub use history::ZoneHistory;
pub use whole::replay;
