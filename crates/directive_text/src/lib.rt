//! The grammar of nginx's configuration syntax: a text's directives, or its first fault.
#![tactic(auto)]

mod builder;
mod bytes;
mod fault;
mod reader;
mod scanner;
mod symbol;
pub mod theorems;
mod tree;

pub use builder::MAX_BLOCKS;
pub use fault::TextFault;
pub use reader::read;
pub use tree::{Directive, Tree};

#[cfg(test)]
mod tests;
