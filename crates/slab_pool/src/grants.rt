ghost use Rattle.std.specs.Prelude.{◌≡◌, ℕ, ◌+◌, ◌<◌, ◌≤◌, [], ◌∷◌, List, None, Some};
ghost use Rattle.zone_region.specs.Members.{In};
ghost use Rattle.slab_model.specs.declared.page.PageState.TheVariants.{First};
ghost use Rattle.slab_model.specs.Geometry.{greatest_zone, class_count, blocks_in_page as blocks_of, block_offset, first_index as first_of};
ghost use Rattle.slab_model.specs.Runs.{first_fit};
ghost use Rattle.slab_model.specs.State.{Slab, list_of, page_at};
ghost use Rattle.slab_model.specs.Blocks.{used_in};
ghost use Rattle.slab_model.specs.Grant.{grant as granted, grant_from_list as granted_from_list, grant_in_new_page as granted_in_new_page, grant_in_page as granted_in_page, granted_offset};
ghost use Rattle.slab_pages.specs.SlabLayout.{LaysSlab};
ghost use Rattle.slab_pool.specs.Bits.{HasBits};
ghost use Rattle.slab_pool.specs.Pool.{LaysPool};
ghost use Rattle.slab_pool.specs.Live.{KeepsPages, ClearsWords};
ghost use Rattle.slab_pool.specs.PoolSteps.{IsTaken, HasList, KeepsRuns, KeepsBehind, LeavesIfFull, BeginsPage, Answers};

use crate::bits::{begin_bits, first_unused, mark};
use crate::lists::{first_page, push, unlink};
use crate::places::{page_offset, shape_of};
use crate::runs::grant_run;
use crate::stats::{count_fail, count_grant};
use slab_model::{blocks_in_page, class_of, class_size, first_index, pages_for, usable_blocks};
use slab_pages::Pages;
use zone_region::Block;

// The block of an index in a page of a class.
fn block_at(pages: &Pages, class: u32, page: u64, index: u64) -> Block
    requires taken { IsTaken pages.now page }
    requires known { class < class_count pages.now.shape }
    requires low { index < blocks_of pages.now.shape class }
    ensures { result.at ≡ block_offset pages.now.shape page class index }
{
    Block {
        at: page_offset(pages, page) + class_size(class) * index,
    }
}

// Takes a page out of the class's list where this index, which will be used, is its last one.
fn leave_if_full(pages: &mut Pages, class: u32, page: u64, index: u64)
    requires taken { IsTaken pages.old page }
    requires bits { ((used : List ℕ) × HasBits pages.old.words pages.old.shape page class used) }
    requires list { ((listed : List ℕ) × HasList pages.old class listed × In page listed) }
    requires low { first_of pages.old.shape class ≤ index }
    requires high { index < blocks_of pages.old.shape class }
    ensures runs { KeepsRuns pages.old pages.new }
    ensures leaves { (used listed : List ℕ) → HasBits pages.old.words pages.old.shape page class used → HasList pages.old class listed → In page listed →
        LeavesIfFull pages.old.shape class page index used listed pages.old.words pages.new.words }
{
    if first_unused(pages, class, page, index + 1) == blocks_in_page(shape_of(pages), class) {
        unlink(pages, class, page);
    }
}

// Grants the lowest free index of the first page of the class's list.
fn grant_in_page(pages: &mut Pages, class: u32, page: u64) -> Block
    requires known { class < class_count pages.old.shape }
    requires laid { ((slab : Slab) × (rest : List ℕ) × LaysPool pages.old slab × (list_of slab class ≡ page ∷ rest)) }
    ensures granted { (slab : Slab) (rest : List ℕ) → LaysPool pages.old slab → list_of slab class ≡ page ∷ rest →
        Answers (granted_in_page slab class page rest (used_in (page_at slab.pages page))) (Some result.at) pages.new }
    ensures kept { KeepsPages pages.old pages.new }
{
    let index = first_unused(pages, class, page, first_index(shape_of(pages), class));
    leave_if_full(pages, class, page, index);
    mark(pages, class, page, index);
    count_grant(pages, class, 0);
    block_at(pages, class, page, index)
}

// Grants the first block of a page that was just taken, which becomes the class's only listed page.
fn grant_in_taken_page(pages: &mut Pages, class: u32, page: u64) -> Block
    requires known { class < class_count pages.old.shape }
    requires laid { ((slab : Slab) × LaysPool pages.old slab × (page_at slab.pages page ≡ First 1) × (list_of slab class ≡ [])) }
    ensures block { result.at ≡ block_offset pages.old.shape page class (first_of pages.old.shape class) }
    ensures begins { (slab : Slab) → LaysPool pages.old slab → page_at slab.pages page ≡ First 1 → list_of slab class ≡ [] → BeginsPage slab class page pages.new }
    ensures behind { KeepsBehind pages.old.shape class page pages.old.words pages.new.words }
{
    let index = first_index(shape_of(pages), class);
    begin_bits(pages, class, page);
    mark(pages, class, page, index);
    push(pages, class, page);
    let more = usable_blocks(shape_of(pages), class);
    count_grant(pages, class, more);
    block_at(pages, class, page, index)
}

// Grants the first block of a free page, if there is one.
fn grant_in_new_page(pages: &mut Pages, class: u32) -> Option<Block>
    requires known { class < class_count pages.old.shape }
    requires laid { ((slab : Slab) × LaysPool pages.old slab × (list_of slab class ≡ [])) }
    ensures granted { (slab : Slab) → LaysPool pages.old slab → list_of slab class ≡ [] →
        Answers (granted_in_new_page slab class (first_fit 1 slab.runs)) (granted_offset result) pages.new }
    ensures kept { KeepsPages pages.old pages.new }
{
    match pages.take(1) {
        None => {
            count_fail(pages, class);
            None
        }
        Some(page) => Some(grant_in_taken_page(pages, class, page.number)),
    }
}

// Grants a block of the class, if there is one.
fn grant_in_class(pages: &mut Pages, class: u32) -> Option<Block>
    requires known { class < class_count pages.old.shape }
    requires laid { ((slab : Slab) × LaysPool pages.old slab) }
    ensures granted { (slab : Slab) → LaysPool pages.old slab → Answers (granted_from_list slab class (list_of slab class)) (granted_offset result) pages.new }
    ensures kept { KeepsPages pages.old pages.new }
{
    match first_page(pages, class) {
        Some(page) => Some(grant_in_page(pages, class, page)),
        None => grant_in_new_page(pages, class),
    }
}

// Grants a block of at least `size` bytes, if there is one.
pub(crate) fn grant(pages: &mut Pages, size: u64) -> Option<Block>
    requires some { 0 < size }
    requires small { size ≤ greatest_zone }
    requires laid { ((slab : Slab) × LaysPool pages.old slab) }
    ensures block { (slab : Slab) → LaysPool pages.old slab → granted_offset result ≡ (granted slab size).0 }
    ensures laid { (slab : Slab) → LaysPool pages.old slab → LaysPool pages.new (granted slab size).1 }
    ensures kept { KeepsPages pages.old pages.new }
{
    let shape = shape_of(pages);
    match class_of(shape, size) {
        Some(class) => grant_in_class(pages, class),
        None => grant_run(pages, pages_for(shape, size)),
    }
}
