//! Threads that share a row of counters, and tests of what they did.
#![tactic(auto)]

pub mod halves;
pub mod rounds;
#[cfg(test)]
mod tests;
