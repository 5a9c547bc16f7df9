//! The zone of an upstream's servers: which of them takes the next request, and what its end tells of it. It has the
//! rules, their law, and the zone in words, its opening and its calls.
#![tactic(auto)]

mod calls;
mod choosing;
mod errors;
mod fresh;
mod numbers;
mod object;
mod opening;
mod records;
mod rounds;
mod state;
mod takers;
pub mod theorems;
mod words;
mod writing;

pub use calls::{Method, PeerCall, PeerReply, PeerSpec, Server};
pub use errors::OpenFault;
pub use object::PeerZone;
pub use state::{PeerRecord, PeerState};
pub use words::PeerWords;
