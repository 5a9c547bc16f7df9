ghost use Rattle.std.specs.Prelude.{◌≡◌, ◌≢◌, ℕ, ◌+◌, ◌^◌, ◌≤◌, suc, true, false, List, MatchOption};
ghost use Rattle.offset_tree.specs.Inside.Links.{Lies};
ghost use Rattle.offset_tree.specs.Changes.{ChangesNodes};
ghost use Rattle.offset_tree.specs.Inside.Balance.{red_of, Settled};
ghost use Rattle.offset_tree.specs.Inside.DeleteFixup.{Lacking, RedSibling, BlackSibling};

use crate::links::{child, is_red, other, parent, side_of};
use crate::position::Position;
use crate::side::Side;
use crate::tree::Tree;
use crate::turns::{recolour, rotate};
use std::sync::ledger::Ledger;
use zone_region::{Blocks, Steps};

/// Brings the red sibling `w` up, so that the new sibling is black.
fn calm<B: Blocks, L: Ledger>(
    blocks: &mut B,
    t: &Tree,
    p: u64,
    w: u64,
    side: Side,
    steps: &mut Steps<L>,
)
    requires ends { t.now.context.at + 64 ≤ 2 ^ 63 }
    requires there { ((xs : List ℕ) × RedSibling (B.words blocks.old) t.now.context.at p w side xs) }
    ensures black { (xs : List ℕ) (d : ℕ) →
        RedSibling (B.words blocks.old) t.now.context.at p w side xs → (v : ℕ) ×
        BlackSibling (B.words blocks.new) t.now.context.at p v side xs d }
    ensures changes { (xs : List ℕ) → RedSibling (B.words blocks.old) t.now.context.at p w side xs →
        ChangesNodes (B.words blocks.old) (B.words blocks.new) t.now.context.at xs }
    ensures rest { B.rest blocks.new ≡ B.rest blocks.old }
{
    recolour(blocks, t, w, false, steps);
    recolour(blocks, t, p, true, steps);
    rotate(blocks, t, p, side, steps);
}

/// Ends the delete fixup where the sibling `w` has the red outer child `v`.
fn finish<B: Blocks, L: Ledger>(
    blocks: &mut B,
    t: &Tree,
    p: u64,
    w: u64,
    v: u64,
    side: Side,
    steps: &mut Steps<L>,
)
    requires ends { t.now.context.at + 64 ≤ 2 ^ 63 }
    requires there { ((xs : List ℕ) × (d : ℕ) ×
        (r : BlackSibling (B.words blocks.old) t.now.context.at p w side xs d) ×
        (red_of r.outer ≡ true) × Lies (B.words blocks.old) (t.now.context.at + 24) r.outer v w) }
    ensures settled { (xs : List ℕ) (d : ℕ) (r : BlackSibling
        (B.words blocks.old) t.now.context.at p w side xs d) → red_of r.outer ≡ true →
        Lies (B.words blocks.old) (t.now.context.at + 24) r.outer v w →
        Settled (B.words blocks.new) t.now.context.at xs }
    ensures changes { (xs : List ℕ) (d : ℕ) (r : BlackSibling
        (B.words blocks.old) t.now.context.at p w side xs d) → red_of r.outer ≡ true →
        Lies (B.words blocks.old) (t.now.context.at + 24) r.outer v w →
        ChangesNodes (B.words blocks.old) (B.words blocks.new) t.now.context.at xs }
    ensures rest { B.rest blocks.new ≡ B.rest blocks.old }
{
    let red = is_red(blocks, t, p, steps);
    recolour(blocks, t, w, red, steps);
    recolour(blocks, t, p, false, steps);
    recolour(blocks, t, v, false, steps);
    rotate(blocks, t, p, side, steps);
}

/// Brings the red inner child `z` of the sibling `w` up into its place.
fn turn_sibling<B: Blocks, L: Ledger>(
    blocks: &mut B,
    t: &Tree,
    p: u64,
    w: u64,
    z: u64,
    side: Side,
    steps: &mut Steps<L>,
)
    requires ends { t.now.context.at + 64 ≤ 2 ^ 63 }
    requires there { ((xs : List ℕ) × (d : ℕ) ×
        (r : BlackSibling (B.words blocks.old) t.now.context.at p w side xs d) ×
        (red_of r.near ≡ true) × (red_of r.outer ≡ false) ×
        Lies (B.words blocks.old) (t.now.context.at + 24) r.near z w) }
    ensures turned { (xs : List ℕ) (d : ℕ) (r : BlackSibling
        (B.words blocks.old) t.now.context.at p w side xs d) → red_of r.near ≡ true →
        red_of r.outer ≡ false → Lies (B.words blocks.old) (t.now.context.at + 24) r.near z w →
        (k : BlackSibling (B.words blocks.new) t.now.context.at p z side xs d) ×
        (red_of k.outer ≡ true) × Lies (B.words blocks.new) (t.now.context.at + 24) k.outer w z }
    ensures changes { (xs : List ℕ) (d : ℕ) (r : BlackSibling
        (B.words blocks.old) t.now.context.at p w side xs d) → red_of r.near ≡ true →
        red_of r.outer ≡ false → Lies (B.words blocks.old) (t.now.context.at + 24) r.near z w →
        ChangesNodes (B.words blocks.old) (B.words blocks.new) t.now.context.at xs }
    ensures rest { B.rest blocks.new ≡ B.rest blocks.old }
{
    recolour(blocks, t, z, false, steps);
    recolour(blocks, t, w, true, steps);
    rotate(blocks, t, w, other(side), steps);
}

/// The sibling of a part that lacks a black block, made black.
fn black_sibling<B: Blocks, L: Ledger>(
    blocks: &mut B,
    t: &Tree,
    place: Position,
    steps: &mut Steps<L>,
) -> u64
    requires ends { t.now.context.at + 64 ≤ 2 ^ 63 }
    requires there { ((xs : List ℕ) × (d : ℕ) ×
        Lacking (B.words blocks.old) t.now.context.at place.at place.parent place.side xs d) }
    requires below { place.parent ≢ 0 }
    ensures black { (xs : List ℕ) (d : ℕ) →
        Lacking (B.words blocks.old) t.now.context.at place.at place.parent place.side xs d →
        BlackSibling (B.words blocks.new) t.now.context.at place.parent result place.side xs d }
    ensures changes { (xs : List ℕ) (d : ℕ) →
        Lacking (B.words blocks.old) t.now.context.at place.at place.parent place.side xs d →
        ChangesNodes (B.words blocks.old) (B.words blocks.new) t.now.context.at xs }
    ensures rest { B.rest blocks.new ≡ B.rest blocks.old }
{
    let far = other(place.side);
    let w = child(blocks, place.parent, far, steps);
    if !is_red(blocks, t, w, steps) {
        return w;
    }
    calm(blocks, t, place.parent, w, place.side, steps);
    child(blocks, place.parent, far, steps)
}

/// Paints the sibling `w` red: the part below `p` then lacks a black block as a whole, unless `p` was red.
fn sink<B: Blocks, L: Ledger>(
    blocks: &mut B,
    t: &Tree,
    p: u64,
    w: u64,
    side: Side,
    steps: &mut Steps<L>,
) -> Option<Position>
    requires ends { t.now.context.at + 64 ≤ 2 ^ 63 }
    requires there { ((xs : List ℕ) × (d : ℕ) ×
        (r : BlackSibling (B.words blocks.old) t.now.context.at p w side xs d) ×
        (red_of r.near ≡ false) × (red_of r.outer ≡ false)) }
    ensures goes_on { (xs : List ℕ) (d : ℕ) (r : BlackSibling
        (B.words blocks.old) t.now.context.at p w side xs d) → red_of r.near ≡ false →
        red_of r.outer ≡ false →
        MatchOption result (Settled (B.words blocks.new) t.now.context.at xs) (λ q. (e : ℕ) ×
        (suc e ≡ d) × Lacking (B.words blocks.new) t.now.context.at q.at q.parent q.side xs e) }
    ensures changes { (xs : List ℕ) (d : ℕ) (r : BlackSibling
        (B.words blocks.old) t.now.context.at p w side xs d) → red_of r.near ≡ false →
        red_of r.outer ≡ false →
        ChangesNodes (B.words blocks.old) (B.words blocks.new) t.now.context.at xs }
    ensures rest { B.rest blocks.new ≡ B.rest blocks.old }
{
    recolour(blocks, t, w, true, steps);
    if is_red(blocks, t, p, steps) {
        recolour(blocks, t, p, false, steps);
        return None;
    }
    let g = parent(blocks, p, steps);
    if g == 0 {
        return Some(Position {
            at: p,
            parent: 0,
            side: Side::Left,
        });
    }
    let above = side_of(blocks, g, p, steps);
    Some(Position {
        at: p,
        parent: g,
        side: above,
    })
}

/// One step of the delete fixup: it ends, or goes on at the parent.
fn delete_fixup_step<B: Blocks, L: Ledger>(
    blocks: &mut B,
    t: &Tree,
    place: Position,
    steps: &mut Steps<L>,
) -> Option<Position>
    requires ends { t.now.context.at + 64 ≤ 2 ^ 63 }
    requires there { ((xs : List ℕ) × (d : ℕ) ×
        Lacking (B.words blocks.old) t.now.context.at place.at place.parent place.side xs d) }
    ensures goes_on { (xs : List ℕ) (d : ℕ) →
        Lacking (B.words blocks.old) t.now.context.at place.at place.parent place.side xs d →
        MatchOption result (Settled (B.words blocks.new) t.now.context.at xs) (λ q. (e : ℕ) ×
        (suc e ≡ d) × Lacking (B.words blocks.new) t.now.context.at q.at q.parent q.side xs e) }
    ensures changes { (xs : List ℕ) (d : ℕ) →
        Lacking (B.words blocks.old) t.now.context.at place.at place.parent place.side xs d →
        ChangesNodes (B.words blocks.old) (B.words blocks.new) t.now.context.at xs }
    ensures rest { B.rest blocks.new ≡ B.rest blocks.old }
{
    if is_red(blocks, t, place.at, steps) {
        recolour(blocks, t, place.at, false, steps);
        return None;
    }
    let p = place.parent;
    if p == 0 {
        return None;
    }
    let w = black_sibling(blocks, t, place, steps);
    let outer = child(blocks, w, other(place.side), steps);
    if is_red(blocks, t, outer, steps) {
        finish(blocks, t, p, w, outer, place.side, steps);
        return None;
    }
    let near = child(blocks, w, place.side, steps);
    if is_red(blocks, t, near, steps) {
        turn_sibling(blocks, t, p, w, near, place.side, steps);
        finish(blocks, t, p, near, w, place.side, steps);
        return None;
    }
    sink(blocks, t, p, w, place.side, steps)
}

/// Makes a tree red-black again, of which one part lacks a black block.
pub(crate) fn delete_fixup<B: Blocks, L: Ledger>(
    blocks: &mut B,
    t: &Tree,
    place: Position,
    steps: &mut Steps<L>,
)
    requires ends { t.now.context.at + 64 ≤ 2 ^ 63 }
    requires there { ((xs : List ℕ) × (d : ℕ) ×
        Lacking (B.words blocks.old) t.now.context.at place.at place.parent place.side xs d) }
    ensures settled { (xs : List ℕ) (d : ℕ) →
        Lacking (B.words blocks.old) t.now.context.at place.at place.parent place.side xs d →
        Settled (B.words blocks.new) t.now.context.at xs }
    ensures changes { (xs : List ℕ) (d : ℕ) →
        Lacking (B.words blocks.old) t.now.context.at place.at place.parent place.side xs d →
        ChangesNodes (B.words blocks.old) (B.words blocks.new) t.now.context.at xs }
    ensures rest { B.rest blocks.new ≡ B.rest blocks.old }
{
    let mut lacking = place;
    for round in 0..u64::MAX {
        match delete_fixup_step(blocks, t, lacking, steps) {
            Some(above) => lacking = above,
            None => return,
        }
    }
    unreachable!()
}
