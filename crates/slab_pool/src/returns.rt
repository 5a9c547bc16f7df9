ghost use Rattle.std.specs.Prelude.{◌≡◌, ℕ, ◌<◌, ◌≤◌, ◌⊎◌, true, List, ◌∷◌, [], length, MatchOption};
ghost use Rattle.slab_model.specs.declared.page.PageState.TheVariants.{Class};
ghost use Rattle.slab_model.specs.Numbers.{is_member, without};
ghost use Rattle.slab_model.specs.Geometry.{start_of};
ghost use Rattle.slab_model.specs.State.{Slab, page_at, pages_in};
ghost use Rattle.slab_model.specs.Blocks.{IsLive, live_bytes, is_full, place_in_page as place_of};
ghost use Rattle.slab_model.specs.Return.{give_back as given_back, give_in_page as given_in_page};
ghost use Rattle.slab_pages.specs.Places.{Image};
ghost use Rattle.slab_pool.specs.Pool.{LaysPool};
ghost use Rattle.slab_pool.specs.Live.{KeepsPages};
ghost use Rattle.slab_pool.specs.PoolSteps.{HasBitCleared};

use crate::bits::{EXACT, clear, is_unused};
use crate::lists::{push, unlink};
use crate::places::{next, page_number, prev, shape_of, slab};
use crate::runs::give_run;
use crate::stats::count_return;
use slab_model::{class_size, page_size, usable_blocks};
use slab_pages::{Page, Pages, offset_of};

// Gives the page of the last block that came back to the free runs.
fn give_last(pages: &mut Pages, class: u32, page: u64)
    requires { ((before : Image) × (slab : Slab) × (used : List ℕ) × (index : ℕ) × HasBitCleared before slab class page used index pages.old × (without index used ≡ [])) }
    ensures { (before : Image) (slab : Slab) (used : List ℕ) (index : ℕ) → HasBitCleared before slab class page used index pages.old → without index used ≡ [] →
        LaysPool pages.new (given_in_page slab page class used []) × KeepsPages before pages.new }
{
    unlink(pages, class, page);
    pages.put(Page { number: page }, 1);
    let less = usable_blocks(shape_of(pages), class);
    count_return(pages, class, less);
}

// Puts a page that was full at the head of its class's list.
fn list_again(pages: &mut Pages, class: u32, page: u64)
    requires { ((before : Image) × (slab : Slab) × (used : List ℕ) × (index : ℕ) × HasBitCleared before slab class page used index pages.old × (is_full slab.shape class used ≡ true)) }
    ensures { (before : Image) (slab : Slab) (used : List ℕ) (index first : ℕ) (left : List ℕ) → HasBitCleared before slab class page used index pages.old → without index used ≡ first ∷ left → is_full slab.shape class used ≡ true →
        LaysPool pages.new (given_in_page slab page class used (first ∷ left)) × KeepsPages before pages.new }
{
    push(pages, class, page);
    count_return(pages, class, 0);
}

// Gives a block of a page of the class back.
fn give_in_page(pages: &mut Pages, class: u32, page: u64, index: u64)
    requires { ((slab : Slab) × (used : List ℕ) × LaysPool pages.old slab × (page_at slab.pages page ≡ Class class used) × (is_member index used ≡ true)) }
    ensures laid { (slab : Slab) (used : List ℕ) → LaysPool pages.old slab → page_at slab.pages page ≡ Class class used → is_member index used ≡ true →
        LaysPool pages.new (given_in_page slab page class used (without index used)) }
    ensures kept { KeepsPages pages.old pages.new }
{
    let after = next(pages, offset_of(page));
    clear(pages, class, page, index);
    if is_unused(pages, class, page) {
        give_last(pages, class, page);
    } else if after == 0 {
        list_again(pages, class, page);
    } else {
        count_return(pages, class, 0);
    }
}

// The class of a page, none where it isn't one of a class.
pub(crate) fn class_at(pages: &Pages, page: u64) -> Option<u32>
    requires { ((slab : Slab) × LaysPool pages.now slab × (page < pages_in slab)) }
    ensures { (slab : Slab) → LaysPool pages.now slab →
        MatchOption result
        ((class : ℕ) (used : List ℕ) → page_at slab.pages page ≡ Class class used → ⊥)
        (λ class. ((used : List ℕ) × (page_at slab.pages page ≡ Class class used))) }
{
    let o = offset_of(page);
    let page_type = prev(pages, o) % 4;
    if page_type == 0 {
        return None;
    }
    if page_type == 2 {
        return Some(EXACT);
    }
    Some((slab(pages, o) % (1 << 32)) as u32 - 3)
}

// How far into its page this offset lies.
pub(crate) fn place_in_page(pages: &Pages, at: u64) -> u64
    requires { start_of pages.now.shape ≤ at }
    ensures { result ≡ place_of pages.now.shape at }
{
    let g = pages.geometry();
    (at - g.start) % page_size(g.shape())
}

// Gives the live block at this offset back.
pub(crate) fn give_back(pages: &mut Pages, at: u64)
    requires { ((slab : Slab) × LaysPool pages.old slab × IsLive slab at) }
    ensures laid { (slab : Slab) → LaysPool pages.old slab → LaysPool pages.new (given_back slab at) }
    ensures kept { KeepsPages pages.old pages.new }
{
    let page = page_number(pages, at);
    match class_at(pages, page) {
        Some(class) => {
            let index = place_in_page(pages, at) / class_size(class);
            give_in_page(pages, class, page, index);
        }
        None => give_run(pages, page),
    }
}
