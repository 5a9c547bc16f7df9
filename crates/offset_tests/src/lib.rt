//! Tests of the queue and the tree over blocks in memory: rows, small cases worked out by hand, and a long random run.
#![tactic(auto)]

pub mod grid;
pub mod keys;
pub mod line;
#[cfg(test)]
mod tests;
pub mod walk;
