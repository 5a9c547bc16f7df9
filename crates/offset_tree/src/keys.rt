ghost use Rattle.std.specs.Prelude.{◌≡◌, ◌+◌, ◌*◌, ◌/◌, ◌%◌, ◌^◌, ◌<◌, ◌≤◌, length};
ghost use Rattle.std.specs.Int.{w64, to_le_bytes};
ghost use Rattle.zone_key.specs.Word.{little_endian};
ghost use Rattle.zone_key.specs.Order.{key_order};
ghost use Rattle.offset_tree.specs.Keys.{IsForm, HoldsKey, key_of, rank_cmp, rank_of};

use crate::links::COLOUR;
use crate::tree::Form;
use std::cmp::Ordering;
use std::sync::ledger::Ledger;
use zone_key::Key;
use zone_region::{Block, Blocks, Steps};

/// The number of at most three bytes, the lowest first.
fn short_number(bytes: &[u8]) -> u64
    requires { length bytes.now ≤ 3 }
    ensures { result ≡ little_endian bytes.now }
{
    match bytes {
        [a, b, c] => u64::from(*a) + 256 * u64::from(*b) + 65536 * u64::from(*c),
        [a, b] => u64::from(*a) + 256 * u64::from(*b),
        [a] => u64::from(*a),
        _ => 0,
    }
}

/// The number of at most eight bytes, the lowest first.
fn number_in(bytes: &[u8]) -> u64
    requires { length bytes.now ≤ 8 }
    ensures { result ≡ little_endian bytes.now }
{
    let count = bytes.len();
    if count == 8 {
        return u64::from_le_bytes([
            bytes[0], bytes[1], bytes[2], bytes[3], bytes[4], bytes[5], bytes[6], bytes[7],
        ]);
    }
    if count < 4 {
        return short_number(bytes);
    }
    let low = u32::from_le_bytes([bytes[0], bytes[1], bytes[2], bytes[3]]);
    u64::from(low) + (short_number(&bytes[4..]) << 32)
}

/// The length of the key, from the word that has it.
fn len_in(form: &Form, word: u64) -> u64
    requires { IsForm form.now }
    ensures { result ≡ word / 2 ^ (8 * (form.now.len_at % 8)) % 2 ^ (8 * form.now.len_bytes) }
{
    if form.len_bytes == 2 {
        (word >> 16) % 65536
    } else {
        (word >> 8) % 256
    }
}

/// The number of `count` bytes of a word from byte `from` on, the lowest first.
fn part_of(word: u64, from: u64, count: u64) -> u64
    requires some { 0 < count }
    requires within { from + count ≤ 8 }
    ensures { result ≡ word / 2 ^ (8 * from) % 2 ^ (8 * count) }
{
    let spare = 64 - 8 * count;
    word >> (8 * from) << spare >> spare
}

/// The order of two words by their bytes, the lowest first.
fn compare_words(a: u64, b: u64) -> Ordering
    ensures { result ≡ key_order (to_le_bytes w64 a) (to_le_bytes w64 b) }
{
    a.swap_bytes().cmp(&b.swap_bytes())
}

/// The order of a key and the one of a node: the bytes of one word of the node at a time.
///
/// Few nodes have the hash that is looked for, so it is kept out of the loops that look for it.
#[inline(never)]
fn compare_keys<B: Blocks, L: Ledger>(
    blocks: &B,
    form: &Form,
    x: u64,
    key: &Key,
    steps: &mut Steps<L>,
) -> Ordering
    requires form { IsForm form.now }
    requires room { HoldsKey (B.words blocks.now) form.now x }
    ensures order { result ≡ key_order key.now (key_of (B.words blocks.now) form.now x) }
    ensures cost { steps.new ≤ steps.old + (3 + length key.now / 8) }
{
    let len = len_in(form, blocks.word(Block { at: x }, COLOUR, steps));
    let bytes = key.bytes();
    let both = key.len().min(len);
    let mut done = 0;
    while done < both {
        let place = form.key_at + done;
        let count = (8 - place % 8).min(both - done);
        let word = blocks.word(Block { at: x }, place / 8, steps);
        let part = number_in(&bytes[done as usize..(done + count) as usize]);
        let by_part = compare_words(part, part_of(word, place % 8, count));
        if by_part != Ordering::Equal {
            return by_part;
        }
        done += count;
    }
    key.len().cmp(&len)
}

/// The order of a hash and key and those of a node.
#[inline(always)]
pub fn compare_at<B: Blocks, L: Ledger>(
    blocks: &B,
    form: &Form,
    x: u64,
    hash: u64,
    key: &Key,
    steps: &mut Steps<L>,
) -> Ordering
    requires form { IsForm form.now }
    requires room { HoldsKey (B.words blocks.now) form.now x }
    ensures order { result ≡ rank_cmp (hash, key.now) (rank_of (B.words blocks.now) form.now x) }
    ensures cost { steps.new ≤ steps.old + (4 + length key.now / 8) }
{
    let node_hash = blocks.word(Block { at: x }, 0, steps);
    let by_hash = hash.cmp(&node_hash);
    if by_hash != Ordering::Equal {
        return by_hash;
    }
    compare_keys(blocks, form, x, key, steps)
}
