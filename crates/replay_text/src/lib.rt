//! The text of a replay: what was decided of each line, and the history of each zone; and the words of a zone after it.
#![tactic(auto)]

mod decisions;
mod histories;
mod images;
mod left;
pub mod theorems;

pub use decisions::push_decisions;
pub use histories::push_zones;
pub use images::push_zone_words;
pub use left::{push_histories, push_histories_with_words};

#[cfg(test)]
mod tests;
