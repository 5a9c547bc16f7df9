//! A request's steps: what a line of a log asks of the zones, by the replies so far, and what is decided of it.
#![tactic(auto)]

mod active;
mod call;
mod conns;
mod decision;
mod peers;
mod progress;
mod reqs;
mod room;
mod said;
mod script;
mod steps;
pub mod theorems;
mod vars;
mod zone_specs;
mod zones;

pub use active::{Active, Opened, Taken};
pub use call::{ZoneCall, ZoneReply};
pub use decision::{ConnStatus, Decision, Excess, Notice, Outcome, PeerAt, ReqStatus};
pub use room::{CALLS_A_LINE, rooms};
pub use said::{Delay, Hold, ReqSaid};
pub use script::{Next, Script};
pub use zone_specs::{conn_spec, peer_spec, req_spec};

#[cfg(test)]
mod tests;
