ghost use Rattle.std.specs.Prelude.{◌≡◌, ℕ, ◌+◌, ◌/◌, ◌<◌, ◌≤◌, length, List};
ghost use Rattle.slab_model.specs.declared.runs.Run.{Run};
ghost use Rattle.slab_model.specs.Geometry.{IsInLimits, greatest_zone, pages_of};
ghost use Rattle.slab_model.specs.State.{Slab};
ghost use Rattle.slab_model.specs.Blocks.{live_bytes};
ghost use Rattle.slab_model.specs.Grant.{block_bytes as bytes_of_block};
ghost use Rattle.slab_pages.specs.Places.{descriptor_word};
ghost use Rattle.slab_pages.specs.Layout.{LaysRuns};
ghost use Rattle.slab_pool.specs.Pool.{LaysPool};
ghost use Rattle.slab_pool.specs.Live.{ClearsWords};

use crate::places::shape_of;
use slab_model::{Shape, class_of, class_size, page_size, pages_for};
use slab_pages::Pages;
use zone_region::Block;

// Sets `count` words of the pages to 0.
fn clear_words(pages: &mut Pages, from: u64, count: u64)
    requires limits { IsInLimits pages.old.shape }
    requires laid { ((runs : List Run) × LaysRuns pages.old runs) }
    requires behind { descriptor_word (pages_of pages.old.shape) ≤ from }
    requires within { from + count ≤ length pages.old.words }
    ensures { ClearsWords pages.old pages.new from count }
{
    for w in from..from + count {
        pages.set_word(w, 0);
    }
}

// The bytes of a block that a request of `size` bytes is given.
#[tactic(auto, using(slab_model::proofs::ClassLemmas::class_known), unfolding(slab_model::specs::Grant::block_bytes))]
fn block_bytes(shape: Shape, size: u64) -> u64
    requires limits { IsInLimits shape }
    requires small { size ≤ greatest_zone }
    ensures { (slab : Slab) → slab.shape ≡ shape → result ≡ bytes_of_block slab size }
{
    match class_of(shape, size) {
        Some(class) => class_size(class),
        None => page_size(shape) * pages_for(shape, size),
    }
}

// Sets the words of a block that was granted for `size` bytes to 0.
pub(crate) fn clear_block(pages: &mut Pages, b: Block, size: u64)
    requires small { size ≤ greatest_zone }
    requires some { 0 < size }
    requires live { ((slab : Slab) × LaysPool pages.old slab × (live_bytes slab b.at ≡ bytes_of_block slab size)) }
    ensures { (slab : Slab) → LaysPool pages.old slab → ClearsWords pages.old pages.new (b.at / 8) (bytes_of_block slab size / 8) }
{
    let bytes = block_bytes(shape_of(pages), size);
    clear_words(pages, b.at / 8, bytes / 8);
}
