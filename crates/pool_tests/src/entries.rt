ghost use Rattle.std.specs.Prelude.{◌≡◌, ◌<◌, length, IfSome};
ghost use Rattle.slab_model.specs.State.{Slab};
ghost use Rattle.slab_pool.specs.Pool.{LaysPool};
ghost use Rattle.offset_tests.specs.Grid.{key_at};
ghost use Rattle.pool_tests.specs.Tables.{HoldsTable};

use crate::nodes::write_key;
use offset_table::Table;
use offset_tests::keys::Keys;
use offset_tree::{Form, Tree};
use slab_pool::Pool;
use std::sync::ledger::Ledger;
use zone_key::{Key, crc32};
use zone_region::{Block, Steps};

/// An empty table, whose context is a block of the pool; none where the pool has no block for it.
pub fn begin(pool: &mut Pool) -> Option<Table>
    requires { ((slab : Slab) × LaysPool pool.old slab) }
    ensures { IfSome result (λ t. HoldsTable pool.new t) }
{
    let context = pool.alloc(80)?;
    let t = Table { context };
    t.init(pool);
    Some(t)
}

/// Puts a block of the pool with key `k` into a table, and gives it. None, and the same nodes, where the pool has no
/// block for it or a node has the key.
pub fn add<L: Ledger>(
    pool: &mut Pool,
    t: &Table,
    keys: &Keys,
    k: u64,
    key: &Key,
    steps: &mut Steps<L>,
) -> Option<Block>
    requires there { HoldsTable pool.old t.now }
    requires range { k < length keys.now.numbers.items }
    requires four { keys.now.len ≡ 4 }
    requires key { key.now ≡ key_at keys.now k }
    ensures { HoldsTable pool.new t.now }
{
    if t.find(pool, crc32(key.bytes()), key, steps).is_some() {
        return None;
    }
    let b = pool.alloc(84)?;
    let form = Form {
        len_at: 34,
        len_bytes: 2,
        key_at: 80,
    };
    let tree = Tree {
        context: t.context,
        form,
    };
    write_key(pool, &tree, keys, k, key, b);
    t.add(pool, b, key, steps);
    Some(b)
}

/// Makes the node of this key the one that was used last, and gives it; none where no node has the key.
pub fn touch<L: Ledger>(
    pool: &mut Pool,
    t: &Table,
    key: &Key,
    steps: &mut Steps<L>,
) -> Option<Block>
    requires { HoldsTable pool.old t.now }
    ensures { HoldsTable pool.new t.now }
{
    let b = t.find(pool, crc32(key.bytes()), key, steps)?;
    t.touch(pool, b);
    Some(b)
}

/// Takes the node of this key out, gives its block back to the pool, and says which it was; none where no node has the
/// key.
pub fn take<L: Ledger>(pool: &mut Pool, t: &Table, key: &Key, steps: &mut Steps<L>) -> Option<Block>
    requires { HoldsTable pool.old t.now }
    ensures { HoldsTable pool.new t.now }
{
    let b = t.find(pool, crc32(key.bytes()), key, steps)?;
    t.remove(pool, b);
    pool.free(b);
    Some(b)
}
