ghost use Rattle.std.specs.Prelude.{◌≡◌, ℕ, ◌+◌, ◌*◌, ◌-◌, ◌/◌, ◌<◌, ◌≤◌, length, slice_set};
ghost use Rattle.slab_model.specs.declared.runs.Run.{Run};
ghost use Rattle.slab_pages.specs.Places.{IsDescriptorOffset, page_limit, descriptor_word, descriptor, next_at, prev_at, slab_at};
ghost use Rattle.slab_pages.specs.RunSteps.{Links, FillsRun, SetsWords, BeginsRun};

use crate::places::{FREE_HEAD, byte_offset, descriptor_at};
use zone_region::Region;

/// Byte offset of a page's descriptor, as links hold it.
#[tactic(auto, unfolding(crate::specs::Places::descriptor))]
pub fn offset_of(page: u64) -> u64
    requires { page ≤ page_limit }
    ensures { result ≡ descriptor page }
{
    byte_offset(descriptor_at(page))
}

/// The page whose descriptor is at byte offset `o`.
#[tactic(auto, unfolding(crate::specs::Places::descriptor))]
pub fn page_of(o: u64) -> u64
    requires { ((page : ℕ) × (o ≡ descriptor page)) }
    ensures { (page : ℕ) → o ≡ descriptor page → result ≡ page }
{
    (o / 8 - descriptor_at(0)) / 3
}

// The slab word of the descriptor at byte offset `o`.
pub(crate) fn slab(region: &Region, o: u64) -> u64
    requires { o / 8 < length region.now }
    ensures { result ≡ slab_at region.now o }
{
    region.load(o / 8)
}

// Its next word.
pub(crate) fn next(region: &Region, o: u64) -> u64
    requires { o / 8 + 1 < length region.now }
    ensures { result ≡ next_at region.now o }
{
    region.load(o / 8 + 1)
}

// Its prev word.
pub(crate) fn prev(region: &Region, o: u64) -> u64
    requires { o / 8 + 2 < length region.now }
    ensures { result ≡ prev_at region.now o }
{
    region.load(o / 8 + 2)
}

// Makes the descriptor at `b` follow the one at `a`. The head's own prev word stays.
pub(crate) fn link(region: &mut Region, a: u64, b: u64)
    requires a_is { IsDescriptorOffset a }
    requires a_in { a / 8 + 1 < length region.old }
    requires b_is { IsDescriptorOffset b }
    requires b_in { b / 8 + 2 < length region.old }
    ensures { Links region.old region.new a b }
{
    region.store(a / 8 + 1, b);
    if b != FREE_HEAD {
        region.store(b / 8 + 2, a);
    }
}

// Writes the three words of the descriptor at byte offset `o`.
pub(crate) fn set_words(region: &mut Region, o: u64, slab: u64, next: u64, prev: u64)
    requires { o / 8 + 2 < length region.old }
    ensures { SetsWords region.old region.new o slab next prev }
{
    region.store(o / 8, slab);
    region.store(o / 8 + 1, next);
    region.store(o / 8 + 2, prev);
}

// Gives the descriptors of `count` pages this slab word and no links.
pub(crate) fn fill(region: &mut Region, first: u64, count: u64, slab: u64)
    requires small { first + count ≤ page_limit }
    requires room { descriptor_word (first + count) ≤ length region.old }
    ensures { FillsRun region.old region.new first count slab }
{
    for page in first..first + count {
        set_words(region, offset_of(page), slab, 0, 0);
    }
}

// Writes the number of pages into the first descriptor of a run, and the way back into its last one.
// The links of the list are still to be written.
pub(crate) fn begin_run(region: &mut Region, first: u64, pages: u64)
    requires some { 0 < pages }
    requires small { first + pages ≤ page_limit }
    requires room { descriptor_word (first + pages) ≤ length region.old }
    ensures { BeginsRun region.old region.new (record { first = first; pages = pages }) }
{
    let o = offset_of(first);
    region.store(offset_of(first + pages - 1) / 8 + 2, o);
    region.store(o / 8, pages);
}
