//! Logs of requests: lines of words, each line ended by a line feed, and the first fault of a log.
#![tactic(auto)]

mod cut;
mod fault;
mod keys;
mod line;
mod lines;
mod locations;
mod numbers;
mod requests;
mod words;

pub use fault::{LineFault, LogFault};
pub use keys::{KeyLine, next_key, read_keys};
pub use line::{Event, Line};
pub use lines::{LineForm, read_lines};
pub use requests::read_log;

#[cfg(test)]
mod tests;
