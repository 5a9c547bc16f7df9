use crate::side::Side;

/// A position in the tree, which may be empty: what is linked there, its parent, and the side.
#[derive(Clone, Copy, Debug, PartialEq, Eq)]
pub struct Position {
    /// The byte offset that is linked there: a block's or the sentinel's.
    pub at: u64,
    /// The byte offset of the block above it, 0 for the root.
    pub parent: u64,
    /// The side of the parent that links it.
    pub side: Side,
}
