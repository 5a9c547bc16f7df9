ghost use Rattle.std.specs.Prelude.{◌≡◌};
ghost use Rattle.offset_table.specs.Table.{tree_of, queue_of};

use offset_queue::Queue;
use offset_tree::{Form, Tree};
use zone_region::Block;

/// A table of nodes, by its context block of ten words: the tree's root and sentinel, and behind them the queue's head.
///
/// A node begins as a request node of nginx's `limit_req` does: the hash, the tree's links, the colour beside the key's
/// length, the queue's links, and from word 7 on what the owner keeps. The key begins at byte 80.
#[derive(Clone, Copy, Debug, PartialEq, Eq)]
pub struct Table {
    /// The block that holds the root, the sentinel and the queue's head.
    pub context: Block,
}

impl Table {
    /// The tree of its nodes.
    pub(crate) fn tree(&self) -> Tree
        ensures { result ≡ tree_of self.now }
    {
        let form = Form {
            len_at: 34,
            len_bytes: 2,
            key_at: 80,
        };
        Tree {
            context: self.context,
            form,
        }
    }

    /// The queue of its nodes, whose links begin at word 5 of a node.
    pub(crate) fn queue(&self) -> Queue
        ensures { result ≡ queue_of self.now }
    {
        Queue {
            head: self.context,
            at: 8,
        }
    }
}
