//! What a slab pool is, after `ngx_slab.c`, and a plain program that keeps one in lists.
#![tactic(auto)]

mod counts;
mod geometry;
mod grants;
mod live;
mod numbers;
mod page;
mod pages;
mod parts;
mod plain;
mod returns;
mod runs;
mod shape;
mod stat;
#[cfg(test)]
mod tests;
pub mod theorems;

pub use geometry::{
    DESCRIPTOR_SIZE, PAGE_SHIFT, PREFIX_SIZE, blocks_in_page, class_count, class_of, class_size,
    first_index, page_count, page_size, pages_for, start_offset, usable_blocks,
};
pub use numbers::Numbers;
pub use page::PageState;
pub use plain::PlainSlab;
pub use runs::Run;
pub use shape::Shape;
pub use stat::Stat;
