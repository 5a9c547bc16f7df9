ghost use Rattle.std.specs.Prelude.{◌≡◌, ◌/◌, ◌≤◌, length, replicate, IsTrue};
ghost use Rattle.slab_model.specs.Geometry.{IsInLimits, class_count as count_of_classes};
ghost use Rattle.slab_pages.specs.Shapes.{shape_in};
ghost use Rattle.slab_pages.specs.Places.{descriptor_word};
ghost use Rattle.slab_pages.specs.Opening.{IsPrepared, WritesHeads, all_below, put_all};

use crate::descriptors::offset_of;
use crate::geometry::Geometry;
use crate::places::{
    END_WORD, FREE_HEAD, FREE_WORD, LAST_WORD, MIN_SHIFT_WORD, MIN_SIZE_WORD, PAGES_WORD,
    START_WORD, STATS_WORD, byte_offset, head_at, stat_at,
};
use slab_model::{Shape, class_count};
use zone_region::Region;

// Writes these values to these words, one after another.
fn put_words(region: &mut Region, entries: &[(u64, u64)])
    requires room { descriptor_word 0 ≤ length region.old }
    requires within { IsTrue (all_below (descriptor_word 0) entries.now) }
    ensures { region.new ≡ put_all entries.now region.old }
{
    for &(w, v) in entries {
        region.store(w, v);
    }
}

// Makes the head of each class's list point to itself.
fn write_heads(region: &mut Region, shape: Shape)
    requires room { descriptor_word 0 ≤ length region.old }
    requires limits { IsInLimits shape }
    ensures { WritesHeads region.old region.new (count_of_classes shape) }
{
    for class in 0..class_count(shape) {
        let head = head_at(class);
        region.store(head + 1, byte_offset(head));
    }
}

// Writes the pool header and the heads of the lists of a zone whose words are 0.
// The words are those of `ngx_slab_pool_t`, in its order.
pub(crate) fn prepare(region: &mut Region, g: &Geometry)
    requires { region.old ≡ replicate (g.now.bytes / 8) 0 }
    ensures { IsPrepared (shape_in g.now) region.new }
{
    let header = [
        (MIN_SIZE_WORD, 8),
        (MIN_SHIFT_WORD, 3),
        (PAGES_WORD, offset_of(0)),
        (LAST_WORD, offset_of(g.pages)),
        (FREE_WORD + 1, FREE_HEAD),
        (STATS_WORD, byte_offset(stat_at(0))),
        (START_WORD, g.start),
        (END_WORD, g.bytes),
    ];
    put_words(region, &header);
    write_heads(region, g.shape());
}
