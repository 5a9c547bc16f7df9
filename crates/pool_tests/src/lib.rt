//! Tests of a tree and of a table whose nodes are blocks of a slab pool.
#![tactic(auto)]

pub mod entries;
pub mod nodes;
#[cfg(test)]
mod table_tests;
#[cfg(test)]
mod tests;
