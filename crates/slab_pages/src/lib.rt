//! Runs of free pages in the words of a zone, after `ngx_slab.c`.
#![tactic(auto)]

mod checks;
mod descriptors;
mod geometry;
mod opening;
mod pages;
mod places;
mod runs;

pub use descriptors::{offset_of, page_of};
pub use geometry::{Geometry, LEAST_ZONE, TooSmall};
pub use pages::{Page, Pages};
pub use places::{DATA_WORD, LOG_CTX_WORD, byte_offset, descriptor_at, head_at, stat_at};

#[cfg(test)]
mod tests;
