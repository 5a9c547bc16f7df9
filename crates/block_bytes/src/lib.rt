//! Bytes in the words of a block: eight to a word, the lowest byte first, with 0 past their end.
#![tactic(auto)]

ghost use Rattle.std.specs.Prelude.{◌≡◌, ◌+◌, ◌/◌, ◌^◌, ◌<◌, ◌≤◌, length};
ghost use Rattle.zone_key.specs.Word.{key_word, little_endian};
ghost use Rattle.block_bytes.specs.Bytes.{PutsBytes};

use zone_region::{Block, Blocks};

/// The number of at most eight bytes, the lowest first.
fn number_in(bytes: &[u8]) -> u64
    requires { length bytes.now ≤ 8 }
    ensures { result ≡ little_endian bytes.now }
{
    let mut number = 0;
    for k in (0..bytes.len()).rev() {
        number = number * 256 + u64::from(bytes[k]);
    }
    number
}

/// The bytes 8i to 8i + 7 in one word, with 0 for bytes past the end.
fn word_in(bytes: &[u8], i: u64) -> u64
    requires { i < (length bytes.now + 7) / 8 }
    ensures { result ≡ key_word bytes.now i }
{
    let rest = &bytes[8 * i as usize..];
    if rest.len() > 8 {
        number_in(&rest[..8])
    } else {
        number_in(rest)
    }
}

/// Makes the words of a live block from `first` on hold these bytes, eight to a word, the lowest byte first, with 0
/// for bytes past their end. Every other word of the block, every other block and all beside the blocks stays.
pub fn write_bytes<B: Blocks>(blocks: &mut B, b: Block, first: u64, bytes: &[u8])
    requires room { first + (length bytes.now + 7) / 8 ≤ length (B.words blocks.old b.at) }
    requires ends { first + (length bytes.now + 7) / 8 < 2 ^ 64 }
    ensures puts { PutsBytes (B.words blocks.old) (B.words blocks.new) b.at first bytes.now }
    ensures rest { B.rest blocks.new ≡ B.rest blocks.old }
{
    let count = (bytes.len() as u64 + 7) / 8;
    for i in 0..count {
        blocks.set(b, first + i, word_in(bytes, i));
    }
}
