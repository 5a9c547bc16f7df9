use zone_region::Block;

/// A circular queue with links both ways, as nginx's `ngx_queue_t`.
///
/// The head's two link words, previous and next, stand in block `head` from word `at` on. Each entry
/// has two such words too, from a word on that each call names. A link holds the byte offset of the
/// other's link words, and not that of its block.
#[derive(Clone, Copy, Debug, PartialEq, Eq)]
pub struct Queue {
    /// The block that has the head.
    pub head: Block,
    /// The word of that block at which the head begins.
    pub at: u64,
}
