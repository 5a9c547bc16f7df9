//! Keys of the zones' tables: lists of bytes, their words, their order and their hash.
#![tactic(auto)]

mod crc;
mod expr;
mod key;
mod order;
pub mod theorems;
mod vars;
mod word;

pub use crc::crc32;
pub use expr::{Expr, ExprFault, MAX_PARTS, Part, read_expr};
pub use key::Key;
pub use order::compare;
pub use vars::{Pair, Vars, value};
pub use word::word_of;

#[cfg(test)]
mod tests;
