use zone_region::Block;

/// Byte places in a node of a tree: 34, 2, 80 in a request node, and 33, 1, 36 in a connection node.
#[derive(Clone, Copy, Debug, PartialEq, Eq)]
pub struct Form {
    /// The byte at which the key's length begins.
    pub len_at: u64,
    /// How many bytes that length has, the lowest first.
    pub len_bytes: u64,
    /// The byte at which the key begins.
    pub key_at: u64,
}

/// A red-black tree, by its context block and the form of its nodes.
///
/// Word 0 of the context is the root, word 1 the sentinel's offset, and words 3 to 7 are the sentinel,
/// as an `ngx_rbtree_t` and its sentinel side by side. Word 0 of a node is its hash, words 1 to 3 are its
/// left child, its right child and its parent, and the lowest byte of word 4 is its colour: 0 for black,
/// 1 for red.
#[derive(Clone, Copy, Debug, PartialEq, Eq)]
pub struct Tree {
    /// The block that holds the root word and the sentinel.
    pub context: Block,
    /// The places of length and key in its nodes.
    pub form: Form,
}
