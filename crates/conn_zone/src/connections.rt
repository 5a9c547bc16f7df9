ghost use Rattle.std.specs.Prelude.{◌≡◌, ℕ, ◌+◌, ◌*◌, ◌<◌, ◌≤◌, List, length, None};
ghost use Rattle.conn_zone.specs.declared.state.ConnEntry.{ConnEntry};
ghost use Rattle.conn_zone.specs.declared.state.ConnState.{ConnState};
ghost use Rattle.conn_zone.specs.declared.calls.ConnCall.TheVariants.{Open, Close};
ghost use Rattle.offset_tree.specs.Bounds.{search_cost};
ghost use Rattle.conn_zone.specs.Table.{entry_of};
ghost use Rattle.conn_zone.specs.Object.{answer_of, zone_after, Ready, cost_of, IsKey};
ghost use Rattle.conn_zone.specs.Layout.{LaysFrom, LaysCounted};
ghost use Rattle.conn_zone.specs.Changes.{IsFound};

use crate::calls::ConnReply;
use crate::node::{COUNT_WORD, count_in};
use crate::nodes::{add_node, find_node, recount, remove_node};
use slab_pool::Pool;
use std::sync::ledger::Ledger;
use zone_key::Key;
use zone_region::{Block, Blocks, Steps};

/// One connection more of a key that has an entry, if the limit allows it.
fn open_found<L: Ledger>(
    pool: &mut Pool,
    node: Block,
    limit: u64,
    steps: &mut Steps<L>,
) -> ConnReply
    requires limit { limit < 65536 }
    requires there { ((s : ConnState) × (context : ℕ) × (key : List ℕ) × (entry : ConnEntry) × LaysFrom pool.old context s × IsFound s key node.at entry) }
    ensures reply { (s : ConnState) (context : ℕ) (key : List ℕ) (entry : ConnEntry) → LaysFrom pool.old context s →
        IsFound s key node.at entry → result ≡ answer_of s (Open key limit) }
    ensures laid { (s : ConnState) (context entries : ℕ) (key : List ℕ) (entry : ConnEntry) → LaysCounted pool.old context entries s →
        IsFound s key node.at entry → LaysCounted pool.new context entries (zone_after s (Open key limit)) }
    ensures cost { steps.new ≡ steps.old + 1 }
{
    let word = pool.word(node, COUNT_WORD, steps);
    let count = count_in(word);
    if count >= limit {
        return ConnReply::AtLimit { count };
    }
    recount(pool, node, word, count + 1);
    ConnReply::Opened {
        at: node.at,
        count: count + 1,
    }
}

/// One connection more of a key that has no entry, if there is a block for its node.
fn open_missing<L: Ledger>(
    pool: &mut Pool,
    context: Block,
    entries: &mut u64,
    key: &Key,
    steps: &mut Steps<L>,
) -> ConnReply
    requires key { IsKey key.now }
    requires there { ((s : ConnState) × LaysCounted pool.old context.at entries.old s × (entry_of key.now s.table ≡ None)) }
    ensures reply { (s : ConnState) (limit : ℕ) → LaysCounted pool.old context.at entries.old s → entry_of key.now s.table ≡ None →
        result ≡ answer_of s (Open key.now limit) }
    ensures laid { (s : ConnState) (limit : ℕ) → LaysCounted pool.old context.at entries.old s → entry_of key.now s.table ≡ None →
        LaysCounted pool.new context.at entries.new (zone_after s (Open key.now limit)) }
    ensures cost { (s : ConnState) → LaysCounted pool.old context.at entries.old s → entry_of key.now s.table ≡ None →
        steps.new ≤ steps.old + (3 * search_cost (length s.table) (length key.now) + 24) }
{
    match add_node(pool, context, key, steps) {
        Some(node) => {
            *entries += 1;
            ConnReply::Opened {
                at: node.at,
                count: 1,
            }
        }
        None => ConnReply::NoRoom,
    }
}

/// One connection more of a key.
pub fn open_connection<L: Ledger>(
    pool: &mut Pool,
    context: Block,
    entries: &mut u64,
    key: &Key,
    limit: u64,
    steps: &mut Steps<L>,
) -> ConnReply
    requires { ((s : ConnState) × LaysCounted pool.old context.at entries.old s × Ready s (Open key.now limit)) }
    ensures reply { (s : ConnState) → LaysCounted pool.old context.at entries.old s → Ready s (Open key.now limit) →
        result ≡ answer_of s (Open key.now limit) }
    ensures laid { (s : ConnState) → LaysCounted pool.old context.at entries.old s → Ready s (Open key.now limit) →
        LaysCounted pool.new context.at entries.new (zone_after s (Open key.now limit)) }
    ensures cost { (s : ConnState) → LaysCounted pool.old context.at entries.old s → Ready s (Open key.now limit) →
        steps.new ≤ steps.old + cost_of s (Open key.now limit) }
{
    match find_node(pool, context, key, steps) {
        Some(node) => open_found(pool, node, limit, steps),
        None => open_missing(pool, context, entries, key, steps),
    }
}

/// One connection less of the entry of a node; the last one takes the entry along.
pub fn close_connection<L: Ledger>(
    pool: &mut Pool,
    context: Block,
    entries: &mut u64,
    node: Block,
    steps: &mut Steps<L>,
) -> ConnReply
    requires { ((s : ConnState) × LaysCounted pool.old context.at entries.old s × Ready s (Close node.at)) }
    ensures reply { (s : ConnState) → LaysCounted pool.old context.at entries.old s → Ready s (Close node.at) →
        result ≡ answer_of s (Close node.at) }
    ensures laid { (s : ConnState) → LaysCounted pool.old context.at entries.old s → Ready s (Close node.at) →
        LaysCounted pool.new context.at entries.new (zone_after s (Close node.at)) }
    ensures cost { steps.new ≡ steps.old + 1 }
{
    let word = pool.word(node, COUNT_WORD, steps);
    let count = count_in(word) - 1;
    if count == 0 {
        remove_node(pool, context, node);
        *entries -= 1;
        return ConnReply::Closed { count };
    }
    recount(pool, node, word, count);
    ConnReply::Closed { count }
}
