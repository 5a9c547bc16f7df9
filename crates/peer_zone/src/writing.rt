ghost use Rattle.std.specs.Prelude.{◌≡◌, ◌+◌, ◌<◌, ◌≤◌, ◌^◌, length};
ghost use Rattle.peer_zone.specs.CallSteps.{WritesWords};

use zone_region::{Block, Blocks};

/// Makes the words of a live block from `first` on be these.
pub(crate) fn write_words<B: Blocks>(blocks: &mut B, b: Block, first: u64, words: &[u64])
    requires room { first + length words.now ≤ length (B.words blocks.old b.at) }
    requires ends { first + length words.now < 2 ^ 64 }
    ensures writes { WritesWords (B.words blocks.old) (B.words blocks.new) b.at first words.now }
    ensures rest { B.rest blocks.new ≡ B.rest blocks.old }
{
    for i in 0..words.len() {
        blocks.set(b, first + i as u64, words[i]);
    }
}
