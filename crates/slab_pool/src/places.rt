ghost use Rattle.std.specs.Prelude.{◌≡◌, ℕ, ◌+◌, ◌*◌, ◌/◌, ◌<◌, ◌≤◌, length};
ghost use Rattle.slab_model.specs.Geometry.{IsInLimits, start_of, page_offset as offset_in};
ghost use Rattle.slab_model.specs.Blocks.{page_number as number_of};
ghost use Rattle.slab_pages.specs.Places.{head_count, class_head, page_limit, slab_at, next_at, prev_at};

use slab_model::{Shape, page_size};
use slab_pages::{Pages, byte_offset, head_at};

// Byte offset of the head of a class's list, as links hold it.
pub(crate) fn head_of(class: u32) -> u64
    requires { class < head_count }
    ensures { result ≡ class_head class }
{
    byte_offset(head_at(class))
}

// The slab word of the descriptor at byte offset `o`.
pub(crate) fn slab(pages: &Pages, o: u64) -> u64
    requires { o / 8 < length pages.now.words }
    ensures { result ≡ slab_at pages.now.words o }
{
    pages.word(o / 8)
}

// Its next word.
pub(crate) fn next(pages: &Pages, o: u64) -> u64
    requires { o / 8 + 1 < length pages.now.words }
    ensures { result ≡ next_at pages.now.words o }
{
    pages.word(o / 8 + 1)
}

// Its prev word.
pub(crate) fn prev(pages: &Pages, o: u64) -> u64
    requires { o / 8 + 2 < length pages.now.words }
    ensures { result ≡ prev_at pages.now.words o }
{
    pages.word(o / 8 + 2)
}

// The zone's bytes, and the size of its pages.
pub(crate) fn shape_of(pages: &Pages) -> Shape
    ensures shape { result ≡ pages.now.shape }
    ensures limits { IsInLimits pages.now.shape }
{
    pages.geometry().shape()
}

// Byte offset of a page.
#[tactic(auto, using(slab_model::proofs::ClassLemmas::zone))]
pub(crate) fn page_offset(pages: &Pages, page: u64) -> u64
    requires { page ≤ page_limit }
    ensures { result ≡ offset_in pages.now.shape page }
{
    let g = pages.geometry();
    g.start + page_size(g.shape()) * page
}

// The number of the page at this byte offset.
pub(crate) fn page_number(pages: &Pages, at: u64) -> u64
    requires { start_of pages.now.shape ≤ at }
    ensures { result ≡ number_of pages.now.shape at }
{
    let g = pages.geometry();
    (at - g.start) / page_size(g.shape())
}
