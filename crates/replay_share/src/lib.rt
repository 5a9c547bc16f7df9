//! A share of a log that is replayed against the zones: what it asks of them, and what is decided of its lines.
#![tactic(auto)]

mod answers;
mod journal;
mod journals;
mod opening;
mod share;
pub mod theorems;

pub use answers::Answers;
pub use journal::ZoneJournal;
pub use journals::{Journals, zone_of};
pub use opening::{OpeningFault, open_conn, open_peer, open_req, refused_line};
pub use share::replay_share;
