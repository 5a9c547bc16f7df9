//! Nodes in a queue by use and in a tree by key at once: the nodes and the context of a `limit_req` zone.
#![tactic(auto)]

mod calls;
mod table;

pub use table::Table;
