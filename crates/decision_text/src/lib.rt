//! The texts that the program prints, each by its definition.
#![tactic(auto)]

mod check;
mod coding;
mod decision;
#[cfg(test)]
mod decision_tests;
mod hexadecimal;
mod history;
mod numbers;
mod tail;
#[cfg(test)]
mod tests;
pub mod theorems;

pub use check::{check_text, name_of};
pub use coding::push_coded;
pub use decision::push_decision;
pub use history::{push_conn_entry, push_peer_entry, push_req_entry, push_zone_head};
pub use numbers::{push_number, push_thousandths};
pub use tail::{push_image, push_tail};
