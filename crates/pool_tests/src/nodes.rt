ghost use Rattle.std.specs.Prelude.{◌≡◌, ◌≢◌, ℕ, ◌+◌, ◌<◌, ◌≤◌, length, IfSome};
ghost use Rattle.slab_model.specs.State.{Slab};
ghost use Rattle.slab_pool.specs.Pool.{LaysPool};
ghost use Rattle.slab_pool.specs.Live.{block_words, rest_of};
ghost use Rattle.offset_tree.specs.Keys.{IsForm, rank_of};
ghost use Rattle.offset_tests.specs.Grid.{key_at, rank_at};
ghost use Rattle.pool_tests.specs.Nodes.{HoldsTree};

use offset_tests::keys::Keys;
use offset_tree::{Form, Tree};
use slab_pool::Pool;
use std::sync::ledger::Ledger;
use zone_key::{Key, crc32};
use zone_region::{Block, Blocks, Steps};

/// An empty tree, whose context is a block of the pool; none where the pool has no block for it.
pub fn begin(pool: &mut Pool, form: Form) -> Option<Tree>
    requires { ((slab : Slab) × LaysPool pool.old slab) }
    ensures { IfSome result (λ t. (t.form ≡ form) × HoldsTree pool.new t 0) }
{
    let context = pool.alloc(80)?;
    let t = Tree { context, form };
    t.init(pool);
    Some(t)
}

/// Writes key `k`, its length and its CRC-32 into a node. A connection node holds three connections.
pub(crate) fn write_key(pool: &mut Pool, t: &Tree, keys: &Keys, k: u64, key: &Key, b: Block)
    requires form { IsForm t.now.form }
    requires range { k < length keys.now.numbers.items }
    requires short { keys.now.len ≤ 8 }
    requires key { key.now ≡ key_at keys.now k }
    requires room { 5 < length (block_words pool.old b.at) }
    requires more { t.now.form.len_bytes ≡ 2 → 10 < length (block_words pool.old b.at) }
    ensures lengths { (z : ℕ) → length (block_words pool.new z) ≡ length (block_words pool.old z) }
    ensures others { (z : ℕ) → z ≢ b.at → block_words pool.new z ≡ block_words pool.old z }
    ensures rank { rank_of (block_words pool.new) t.now.form b.at ≡ rank_at keys.now k }
    ensures rest { rest_of pool.new ≡ rest_of pool.old }
{
    let number = keys.numbers[k as usize];
    pool.set(b, 0, u64::from(crc32(key.bytes())));
    if t.form.len_bytes == 2 {
        pool.set(b, 4, keys.len * 65536);
        pool.set(b, 10, number);
    } else {
        pool.set(b, 4, keys.len * 256 + 3 * 65536 + (number << 32));
        pool.set(b, 5, number >> 32);
    }
}

/// Puts a block of the pool with key `k` into a tree of at most `k` blocks, and gives it. None, and no more blocks,
/// where the pool has no block for it or a block of the tree has the key.
pub fn add<L: Ledger>(
    pool: &mut Pool,
    t: &Tree,
    keys: &Keys,
    k: u64,
    key: &Key,
    steps: &mut Steps<L>,
) -> Option<Block>
    requires form { IsForm t.now.form }
    requires there { HoldsTree pool.old t.now k }
    requires range { k < length keys.now.numbers.items }
    requires four { keys.now.len ≡ 4 }
    requires key { key.now ≡ key_at keys.now k }
    ensures { HoldsTree pool.new t.now (k + 1) }
{
    if t.find(pool, crc32(key.bytes()), key, steps).is_some() {
        return None;
    }
    let b = pool.alloc(t.form.key_at + 4)?;
    write_key(pool, t, keys, k, key, b);
    t.insert(pool, b, key, steps);
    Some(b)
}

/// Takes the block of this key out of the tree, gives it back to the pool, and says which it was; none where no block
/// of the tree has the key.
pub fn take<L: Ledger>(pool: &mut Pool, t: &Tree, key: &Key, steps: &mut Steps<L>) -> Option<Block>
    requires form { IsForm t.now.form }
    requires there { ((n : ℕ) × HoldsTree pool.old t.now n) }
    ensures { (n : ℕ) → HoldsTree pool.old t.now n → HoldsTree pool.new t.now n }
{
    let b = t.find(pool, crc32(key.bytes()), key, steps)?;
    t.remove(pool, b);
    pool.free(b);
    Some(b)
}
