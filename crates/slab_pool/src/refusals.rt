ghost use Rattle.std.specs.Prelude.{◌≡◌, ℕ, ◌<◌, ◌≤◌, List};
ghost use Rattle.slab_model.specs.declared.page.PageState.TheVariants.{Class};
ghost use Rattle.slab_model.specs.Geometry.{page_size as page_bytes};
ghost use Rattle.slab_model.specs.State.{Slab, page_at, pages_in};
ghost use Rattle.slab_pool.specs.Bits.{HasBits};
ghost use Rattle.slab_pool.specs.Pool.{LaysPool};
ghost use Rattle.slab_pool.specs.Refusals.{refusal as refusal_of, refusal_in_class as refused_in_class, refusal_in_page as refused_in_page};
ghost use Rattle.slab_pool.specs.PoolSteps.{IsTaken};

use crate::bits::is_used;
use crate::fault::FreeFault;
use crate::places::{page_number, shape_of, slab};
use crate::returns::{class_at, place_in_page};
use crate::runs::USED;
use slab_model::{class_size, first_index, page_size};
use slab_pages::{Pages, offset_of};

// Why no block begins so far into a page of the class, none where a used one does.
fn refusal_in_class(pages: &Pages, class: u32, page: u64, place: u64) -> Option<FreeFault>
    requires taken { IsTaken pages.now page }
    requires bits { ((used : List ℕ) × HasBits pages.now.words pages.now.shape page class used) }
    requires low { place < page_bytes pages.now.shape }
    ensures { (used : List ℕ) → HasBits pages.now.words pages.now.shape page class used → result ≡ refused_in_class pages.now.shape class used place }
{
    let size = class_size(class);
    let index = place / size;
    if place % size != 0 {
        return Some(FreeFault::WrongChunk);
    }
    if index < first_index(shape_of(pages), class) {
        return Some(FreeFault::WrongChunk);
    }
    if is_used(pages, class, page, index) {
        return None;
    }
    Some(FreeFault::AlreadyFree)
}

// Why no used run begins so far into a page that isn't one of a class, none where one does.
fn refusal_in_page(pages: &Pages, page: u64, place: u64) -> Option<FreeFault>
    requires laid { ((slab : Slab) × LaysPool pages.now slab × (page < pages_in slab) × ((class : ℕ) (used : List ℕ) → page_at slab.pages page ≡ Class class used → ⊥)) }
    ensures { (slab : Slab) → LaysPool pages.now slab → result ≡ refused_in_page slab.shape (page_at slab.pages page) place }
{
    if place != 0 {
        return Some(FreeFault::WrongChunk);
    }
    let word = slab(pages, offset_of(page));
    if word < USED {
        return Some(FreeFault::PageAlreadyFree);
    }
    if word == u64::MAX {
        return Some(FreeFault::WrongPage);
    }
    None
}

// Why no live block begins at this offset, none where one does.
pub(crate) fn refusal(pages: &Pages, at: u64) -> Option<FreeFault>
    requires { ((slab : Slab) × LaysPool pages.now slab) }
    ensures { (slab : Slab) → LaysPool pages.now slab → result ≡ refusal_of slab at }
{
    let g = pages.geometry();
    if at < g.start {
        return Some(FreeFault::Outside);
    }
    let end = g.start + page_size(g.shape()) * g.pages;
    if at >= end {
        return Some(FreeFault::Outside);
    }
    let page = page_number(pages, at);
    let place = place_in_page(pages, at);
    match class_at(pages, page) {
        Some(class) => refusal_in_class(pages, class, page, place),
        None => refusal_in_page(pages, page, place),
    }
}
