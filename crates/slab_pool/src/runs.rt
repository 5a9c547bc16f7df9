ghost use Rattle.std.specs.Prelude.{◌≡◌, ℕ, ◌<◌, ◌≤◌, Some, Option};
ghost use Rattle.slab_model.specs.declared.page.PageState.TheVariants.{First};
ghost use Rattle.slab_model.specs.Runs.{first_fit};
ghost use Rattle.slab_model.specs.State.{Slab, page_at};
ghost use Rattle.slab_model.specs.Grant.{grant_run as granted_run, granted_offset};
ghost use Rattle.slab_model.specs.Return.{give_pages as given_pages};
ghost use Rattle.slab_pool.specs.Pool.{LaysPool};
ghost use Rattle.slab_pool.specs.Live.{KeepsPages};

use crate::places::{page_offset, slab};
use slab_pages::{Page, Pages, offset_of};
use zone_region::Block;

/// Marks the number of pages in the first descriptor of a used run.
pub(crate) const USED: u64 = 1 << 63;

// Grants whole pages.
pub(crate) fn grant_run(pages: &mut Pages, count: u64) -> Option<Block>
    requires some { 0 < count }
    requires laid { ((slab : Slab) × LaysPool pages.old slab) }
    ensures block { (slab : Slab) → LaysPool pages.old slab →
        granted_offset result ≡ (granted_run slab count (first_fit count slab.runs)).0 }
    ensures laid { (slab : Slab) → LaysPool pages.old slab →
        LaysPool pages.new (granted_run slab count (first_fit count slab.runs)).1 }
    ensures kept { KeepsPages pages.old pages.new }
{
    match pages.take(count) {
        None => None,
        Some(page) => Some(Block {
            at: page_offset(pages, page.number),
        }),
    }
}

// Gives back the used run that begins at this page.
pub(crate) fn give_run(pages: &mut Pages, page: u64)
    requires { ((slab : Slab) × (count : ℕ) × LaysPool pages.old slab × (page_at slab.pages page ≡ First count)) }
    ensures laid { (slab : Slab) (count : ℕ) → LaysPool pages.old slab → page_at slab.pages page ≡ First count →
        LaysPool pages.new (given_pages slab page count) }
    ensures kept { KeepsPages pages.old pages.new }
{
    let count = slab(pages, offset_of(page)) - USED;
    pages.put(Page { number: page }, count);
}
