ghost use Rattle.std.specs.Prelude.{◌≡◌, ◌≢◌, ℕ, ◌+◌, ◌*◌, ◌<◌, ◌≤◌, ◌^◌, IfOk, length};
ghost use Rattle.zone_region.specs.Entries.{words_in};
ghost use Rattle.offset_tree.specs.Keys.{IsForm, rank_of};
ghost use Rattle.offset_tree.specs.Bounds.{search_cost};
ghost use Rattle.offset_tests.specs.Grid.{place_of, key_at, rank_at, HasTree, LacksKey};

use crate::keys::Keys;
use offset_tree::Tree;
use std::alloc::Global;
use std::sync::ledger::Ledger;
use zone_key::{Key, crc32};
use zone_outside::NoMemory;
use zone_region::{Block, Blocks, MemBlocks, Steps};

/// Block `k` of the grid.
pub fn place(k: u64) -> Block
    requires { k < 2 ^ 32 }
    ensures { result.at ≡ place_of k }
{
    Block { at: 8192 + 128 * k }
}

/// Writes the key of block `k`, its length and its CRC-32. A connection node holds three connections.
fn write_key(blocks: &mut MemBlocks, t: &Tree, keys: &Keys, k: u64, key: &Key)
    requires form { IsForm t.now.form }
    requires range { k < length keys.now.numbers.items }
    requires few { length keys.now.numbers.items ≤ 65536 }
    requires short { keys.now.len ≤ 8 }
    requires key { key.now ≡ key_at keys.now k }
    requires room { length (words_in blocks.old.entries (place_of k)) ≡ 16 }
    ensures lengths { (z : ℕ) → length (words_in blocks.new.entries z) ≡ length (words_in blocks.old.entries z) }
    ensures others { (z : ℕ) → z ≢ place_of k → words_in blocks.new.entries z ≡ words_in blocks.old.entries z }
    ensures rank { rank_of (words_in blocks.new.entries) t.now.form (place_of k) ≡ rank_at keys.now k }
{
    let b = place(k);
    let number = keys.numbers[k as usize];
    blocks.set(b, 0, u64::from(crc32(key.bytes())));
    if t.form.len_bytes == 2 {
        blocks.set(b, 4, keys.len * 65536);
        blocks.set(b, 10, number);
    } else {
        blocks.set(b, 4, keys.len * 256 + 3 * 65536 + (number << 32));
        blocks.set(b, 5, number >> 32);
    }
}

/// A grid of blocks with these keys, and an empty tree.
pub fn laid_out(alloc: Global, t: &Tree, keys: &Keys) -> Result<MemBlocks, NoMemory>
    requires form { IsForm t.now.form }
    requires context { t.now.context.at ≡ 4096 }
    requires few { length keys.now.numbers.items ≤ 65536 }
    requires short { keys.now.len ≤ 8 }
    ensures { IfOk result (λ blocks. HasTree (words_in blocks.entries) t.now keys.now) }
{
    let mut blocks = MemBlocks::new(alloc);
    blocks.add(alloc, t.context, 16)?;
    for k in 0..keys.numbers.len() as u64 {
        let key = keys.key(alloc, k)?;
        blocks.add(alloc, place(k), 16)?;
        write_key(&mut blocks, t, keys, k, &key);
    }
    t.init(&mut blocks);
    Ok(blocks)
}

/// Puts block `k` into the tree, where no block has its key.
pub fn put_in<B: Blocks, L: Ledger>(
    blocks: &mut B,
    t: &Tree,
    keys: &Keys,
    k: u64,
    key: &Key,
    steps: &mut Steps<L>,
)
    requires form { IsForm t.now.form }
    requires absent { LacksKey (B.words blocks.old) t.now keys.now k }
    requires range { k < length keys.now.numbers.items }
    requires short { keys.now.len ≤ 8 }
    requires key { key.now ≡ key_at keys.now k }
    ensures there { HasTree (B.words blocks.new) t.now keys.now }
    ensures cost { steps.new ≤ steps.old + (3 * search_cost (length keys.now.numbers.items) keys.now.len + 24) }
{
    t.insert(blocks, place(k), key, steps);
}

/// Puts block `k` into the tree, or takes it out where it is there. Says whether it is there now.
pub fn toggle<B: Blocks, L: Ledger>(
    blocks: &mut B,
    t: &Tree,
    keys: &Keys,
    k: u64,
    key: &Key,
    steps: &mut Steps<L>,
) -> bool
    requires form { IsForm t.now.form }
    requires there { HasTree (B.words blocks.old) t.now keys.now }
    requires range { k < length keys.now.numbers.items }
    requires short { keys.now.len ≤ 8 }
    requires key { key.now ≡ key_at keys.now k }
    ensures { HasTree (B.words blocks.new) t.now keys.now }
{
    match t.find(blocks, crc32(key.bytes()), key, steps) {
        Some(b) => {
            t.remove(blocks, b);
            false
        }
        None => {
            put_in(blocks, t, keys, k, key, steps);
            true
        }
    }
}
