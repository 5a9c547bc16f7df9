//! The zone of `limit_conn`: how many connections each key has, in a table that forgets a key with its last one.
#![tactic(auto)]

mod calls;
mod connections;
mod errors;
mod node;
mod nodes;
mod opening;
mod state;
pub mod theorems;
mod zone;

pub use calls::{ConnCall, ConnReply, ConnSpec};
pub use errors::OpenFault;
pub use state::{ConnEntry, ConnState};
pub use zone::ConnZone;
