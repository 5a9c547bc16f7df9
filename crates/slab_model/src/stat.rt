/// The statistics of a class (`ngx_slab_stat_t`).
#[derive(Clone, Copy, Debug, PartialEq, Eq)]
pub struct Stat {
    /// The blocks that the class's pages can grant.
    pub total: u64,
    /// The live blocks.
    pub used: u64,
    /// The requests so far, at most 2^64 - 1.
    pub reqs: u64,
    /// The requests that were given no block, at most 2^64 - 1.
    pub fails: u64,
}
