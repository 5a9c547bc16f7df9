//! Trees of blocks by byte offset: nginx's `ngx_rbtree_t`, whose links and colours are words of the blocks.
#![tactic(auto)]

mod attach;
mod delete_fixup;
mod find;
mod init;
mod insert;
mod insert_fixup;
mod keys;
mod links;
mod position;
mod remove;
mod side;
pub mod theorems;
mod tree;
mod turns;

pub use tree::{Form, Tree};
