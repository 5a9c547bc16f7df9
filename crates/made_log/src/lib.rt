//! A log that is made of a seed, and the configuration in which it is replayed.
#![tactic(auto)]

mod config;
mod draws;
mod lines;
mod summary;
mod zones;

pub use config::made_config;
pub use lines::made_lines;
pub use summary::push_decisions_line;
pub use zones::push_zone_summary;

#[cfg(test)]
mod tests;
