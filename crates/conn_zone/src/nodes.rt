ghost use Rattle.std.specs.Prelude.{◌≡◌, ℕ, ◌+◌, ◌*◌, ◌<◌, ◌≤◌, Bool, length, find, Some, None, MatchOption};
ghost use Rattle.zone_region.specs.Words.{word_at};
ghost use Rattle.slab_model.specs.Grant.{grant, granted_offset};
ghost use Rattle.slab_pool.specs.Live.{block_words};
ghost use Rattle.offset_tree.specs.Bounds.{search_cost};
ghost use Rattle.conn_zone.specs.declared.state.ConnEntry.{ConnEntry};
ghost use Rattle.conn_zone.specs.declared.state.ConnState.{ConnState};
ghost use Rattle.conn_zone.specs.Table.{entry_of, entry_at};
ghost use Rattle.conn_zone.specs.Step.{node_size};
ghost use Rattle.conn_zone.specs.Object.{IsKey};
ghost use Rattle.conn_zone.specs.Layout.{LaysFrom};
ghost use Rattle.conn_zone.specs.Changes.{IsFound, recounted, with_missing, without_entry};

use crate::node::{COUNT_WORD, NODE_SIZE, tree_at, with_count, write_node};
use slab_pool::Pool;
use std::sync::ledger::Ledger;
use zone_key::{Key, crc32};
use zone_region::{Block, Blocks, Steps};

/// The node of a key's entry; none exactly where the key has none.
pub fn find_node<L: Ledger>(
    pool: &Pool,
    context: Block,
    key: &Key,
    steps: &mut Steps<L>,
) -> Option<Block>
    requires { ((s : ConnState) × LaysFrom pool.now context.at s) }
    ensures found { (s : ConnState) → LaysFrom pool.now context.at s →
        MatchOption result (entry_of key.now s.table ≡ None) (λ b. ((entry : ConnEntry) × IsFound s key.now b.at entry)) }
    ensures cost { (s : ConnState) → LaysFrom pool.now context.at s →
        steps.new ≤ steps.old + search_cost (length s.table) (length key.now) }
{
    tree_at(context).find(pool, crc32(key.bytes()), key, steps)
}

/// Gives the entry of a node so many connections. `word` is the node's word 4.
pub fn recount(pool: &mut Pool, node: Block, word: u64, count: u64)
    requires room { 4 < length (block_words pool.old node.at) }
    requires word { word ≡ word_at (block_words pool.old) node.at 4 }
    requires count { count < 65536 }
    ensures { (s : ConnState) (context : ℕ) (test : ConnEntry → Bool) (entry : ConnEntry) →
        LaysFrom pool.old context s → find test s.table ≡ Some entry → entry.block ≡ node.at →
        LaysFrom pool.new context (recounted s test count entry) }
{
    pool.set(node, COUNT_WORD, with_count(word, count));
}

/// A node for a key that has none, with one connection; none exactly where the slab has no block for it.
pub fn add_node<L: Ledger>(
    pool: &mut Pool,
    context: Block,
    key: &Key,
    steps: &mut Steps<L>,
) -> Option<Block>
    requires there { ((s : ConnState) × LaysFrom pool.old context.at s × (entry_of key.now s.table ≡ None)) }
    requires key { IsKey key.now }
    ensures block { (s : ConnState) → LaysFrom pool.old context.at s → entry_of key.now s.table ≡ None →
        granted_offset result ≡ (grant s.slab (node_size + length key.now)).0 }
    ensures laid { (s : ConnState) → LaysFrom pool.old context.at s → entry_of key.now s.table ≡ None →
        LaysFrom pool.new context.at (with_missing s key.now) }
    ensures cost { (s : ConnState) → LaysFrom pool.old context.at s → entry_of key.now s.table ≡ None →
        steps.new ≤ steps.old + (3 * search_cost (length s.table) (length key.now) + 24) }
{
    let node = pool.alloc(NODE_SIZE + key.len())?;
    write_node(pool, node, key);
    tree_at(context).insert(pool, node, key, steps);
    Some(node)
}

/// Takes the node of an entry out of the tree and gives its block back.
pub fn remove_node(pool: &mut Pool, context: Block, node: Block)
    requires { ((s : ConnState) × (entry : ConnEntry) × LaysFrom pool.old context.at s × (entry_at node.at s.table ≡ Some entry)) }
    ensures { (s : ConnState) (entry : ConnEntry) → LaysFrom pool.old context.at s →
        entry_at node.at s.table ≡ Some entry → LaysFrom pool.new context.at (without_entry s node.at) }
{
    tree_at(context).remove(pool, node);
    pool.free(node);
}
