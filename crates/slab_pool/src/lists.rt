ghost use Rattle.std.specs.Prelude.{◌≡◌, ℕ, ◌+◌, ◌/◌, ◌<◌, ◌≤◌, [], ◌∷◌, List, MatchOption};
ghost use Rattle.zone_region.specs.Members.{In};
ghost use Rattle.slab_model.specs.Geometry.{class_count, kind_of};
ghost use Rattle.slab_pages.specs.Places.{class_head, descriptor};
ghost use Rattle.slab_pages.specs.SlabLayout.{type_of as type_of_kind};
ghost use Rattle.slab_pool.specs.Links.{LinksPages};
ghost use Rattle.slab_pool.specs.PoolSteps.{IsTaken, IsTakenNode, HasList, HasRuns, KeepsRuns, UnlinksPage, Pushes};

use crate::bits::EXACT;
use crate::places::{head_of, next, prev};
use slab_pages::{Pages, offset_of, page_of};

// The type of a class's pages, in the low two bits of their prev word.
fn type_of(pages: &Pages, class: u32) -> u64
    requires { class < class_count pages.now.shape }
    ensures { result ≡ type_of_kind (kind_of pages.now.shape class) }
{
    if class < EXACT {
        3
    } else if class == EXACT {
        2
    } else {
        1
    }
}

// Makes the descriptor at `b` follow the one at `a` in the class's list.
fn link(pages: &mut Pages, class: u32, a: u64, b: u64)
    requires known { class < class_count pages.old.shape }
    requires runs { HasRuns pages.old }
    requires from { IsTakenNode pages.old class a }
    requires to { IsTakenNode pages.old class b }
    ensures runs { KeepsRuns pages.old pages.new }
    ensures links { LinksPages class (type_of_kind (kind_of pages.old.shape class)) pages.old.words pages.new.words a b }
{
    pages.set_word(a / 8 + 1, b);
    if b != head_of(class) {
        let v = a + type_of(pages, class);
        pages.set_word(b / 8 + 2, v);
    }
}

// The first page of the class's list.
pub(crate) fn first_page(pages: &Pages, class: u32) -> Option<u64>
    requires known { class < class_count pages.now.shape }
    requires runs { HasRuns pages.now }
    requires list { ((listed : List ℕ) × HasList pages.now class listed) }
    ensures { (listed : List ℕ) → HasList pages.now class listed →
        MatchOption result (listed ≡ []) (λ page. ((rest : List ℕ) × (listed ≡ page ∷ rest))) }
{
    let first = next(pages, head_of(class));
    if first == head_of(class) {
        return None;
    }
    Some(page_of(first))
}

// Takes a page out of the class's list.
pub(crate) fn unlink(pages: &mut Pages, class: u32, page: u64)
    requires known { class < class_count pages.old.shape }
    requires taken { IsTaken pages.old page }
    requires list { ((listed : List ℕ) × HasList pages.old class listed × In page listed) }
    ensures runs { KeepsRuns pages.old pages.new }
    ensures unlinks { (listed : List ℕ) → HasList pages.old class listed → In page listed → UnlinksPage pages.old.shape class page listed pages.old.words pages.new.words }
{
    let o = offset_of(page);
    let before = prev(pages, o) - type_of(pages, class);
    let after = next(pages, o);
    link(pages, class, before, after);
    pages.set_word(o / 8 + 1, 0);
    let v = type_of(pages, class);
    pages.set_word(o / 8 + 2, v);
}

// Puts a page at the head of the class's list.
pub(crate) fn push(pages: &mut Pages, class: u32, page: u64)
    requires known { class < class_count pages.old.shape }
    requires taken { IsTaken pages.old page }
    requires list { ((listed : List ℕ) × HasList pages.old class listed × (In page listed → ⊥)) }
    ensures runs { KeepsRuns pages.old pages.new }
    ensures pushes { (listed : List ℕ) → HasList pages.old class listed → (In page listed → ⊥) → Pushes pages.old.shape class page listed pages.old.words pages.new.words }
{
    let head = head_of(class);
    let o = offset_of(page);
    let first = next(pages, head);
    link(pages, class, o, first);
    link(pages, class, head, o);
}
