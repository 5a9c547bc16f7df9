ghost use Rattle.std.specs.Prelude.{◌≡◌, ◌≢◌, ◌+◌, ◌*◌, ◌<◌, ◌≤◌, ◌^◌, ℕ, length};
ghost use Rattle.zone_key.specs.Crc.{crc32_of};
ghost use Rattle.req_zone.specs.Step.{node_size};
ghost use Rattle.req_zone.specs.Words.{HoldsEntry};
ghost use Rattle.req_zone.specs.Lays.{entry_with, SetsNumbers, SetsNode};

use crate::numbers::Numbers;
use block_bytes::write_bytes;
use zone_region::{Block, Blocks};

/// The words of a node: the hash, the key's length above 16 bits, the moment, the excess, the count, and the first of
/// the key's bytes.
const HASH: u64 = 0;

const SIZE: u64 = 4;

pub(crate) const LAST: u64 = 7;

pub(crate) const EXCESS: u64 = 8;

pub(crate) const COUNT: u64 = 9;

const KEY: u64 = 10;

/// The factor by which a key's length stands above the colour.
const SIZE_FACTOR: u64 = 65_536;

/// Makes a node count this. Its other words stay.
pub(crate) fn write_numbers<B: Blocks>(blocks: &mut B, b: Block, numbers: Numbers)
    requires { 10 ≤ length (B.words blocks.old b.at) }
    ensures sets { SetsNumbers (B.words blocks.old) (B.words blocks.new) b.at numbers }
    ensures rest { B.rest blocks.new ≡ B.rest blocks.old }
{
    blocks.set(b, LAST, numbers.last);
    blocks.set(b, EXCESS, numbers.excess);
    blocks.set(b, COUNT, numbers.count);
}

/// Makes a block the black node of this key without links, whose entry counts this. The links stay as they are.
pub(crate) fn write_node<B: Blocks>(
    blocks: &mut B,
    b: Block,
    hash: u32,
    key: &[u8],
    numbers: Numbers,
)
    requires room { node_size + length key.now ≤ 8 * length (B.words blocks.old b.at) }
    requires short { length key.now < 2 ^ 16 }
    requires hash { hash ≡ crc32_of key.now }
    ensures sets { SetsNode (B.words blocks.old) (B.words blocks.new) (entry_with key.now b.at numbers) }
    ensures rest { B.rest blocks.new ≡ B.rest blocks.old }
{
    blocks.set(b, HASH, u64::from(hash));
    blocks.set(b, SIZE, key.len() as u64 * SIZE_FACTOR);
    write_numbers(blocks, b, numbers);
    write_bytes(blocks, b, KEY, key);
}
