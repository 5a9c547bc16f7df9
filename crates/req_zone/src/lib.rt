//! The zone of `limit_req`: how far each key is above its rate, in a table that forgets its oldest
//! entries.
#![tactic(auto)]

mod calls;
mod check;
mod errors;
mod nodes;
mod numbers;
mod object;
mod opening;
mod rules;
mod state;
pub mod theorems;
mod words;

pub use calls::{ReqCall, ReqReply, ReqSpec};
pub use errors::OpenFault;
pub use object::ReqZone;
pub use rules::{Allowed, amount, delay};
pub use state::{ReqEntry, ReqState};

#[cfg(test)]
mod tests;
