//! The slab pool in the words of a zone, after `ngx_slab.c`.
#![tactic(auto)]

mod bits;
mod clear;
mod fault;
mod grants;
mod lists;
mod places;
mod pool;
mod refusals;
mod returns;
mod runs;
mod stats;

pub use fault::FreeFault;
pub use pool::Pool;

#[cfg(test)]
mod tests;
