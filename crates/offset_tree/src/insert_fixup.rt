ghost use Rattle.std.specs.Prelude.{◌≡◌, ℕ, ◌+◌, ◌*◌, ◌^◌, ◌≤◌, suc, false, List, MatchOption};
ghost use Rattle.offset_tree.specs.Changes.{ChangesNodes};
ghost use Rattle.offset_tree.specs.Inside.Balance.{red_of, Settled};
ghost use Rattle.offset_tree.specs.Inside.InsertFixup.{Rising, Conflict, RedUncle, Straight};

use crate::links::{child, is_red, other, parent, side_of};
use crate::side::Side;
use crate::tree::Tree;
use crate::turns::{recolour, rotate};
use std::sync::ledger::Ledger;
use zone_region::{Blocks, Steps};

/// Paints `p` and its red sibling `v` black, and their parent `g` red.
fn lift<B: Blocks, L: Ledger>(
    blocks: &mut B,
    t: &Tree,
    p: u64,
    v: u64,
    g: u64,
    steps: &mut Steps<L>,
)
    requires { ((xs : List ℕ) × (d : ℕ) × RedUncle (B.words blocks.old) t.now.context.at p v g xs d) }
    ensures rising { (xs : List ℕ) (d : ℕ) →
        RedUncle (B.words blocks.old) t.now.context.at p v g xs d → (e : ℕ) × (suc (suc e) ≡ d) ×
        Rising (B.words blocks.new) t.now.context.at g xs e }
    ensures changes { (xs : List ℕ) (d : ℕ) →
        RedUncle (B.words blocks.old) t.now.context.at p v g xs d →
        ChangesNodes (B.words blocks.old) (B.words blocks.new) t.now.context.at xs }
    ensures cost { steps.new ≡ steps.old + 3 }
    ensures rest { B.rest blocks.new ≡ B.rest blocks.old }
{
    recolour(blocks, t, p, false, steps);
    recolour(blocks, t, v, false, steps);
    recolour(blocks, t, g, true, steps);
}

/// Paints and turns a straight conflict away.
fn settle<B: Blocks, L: Ledger>(
    blocks: &mut B,
    t: &Tree,
    p: u64,
    g: u64,
    side: Side,
    steps: &mut Steps<L>,
)
    requires ends { t.now.context.at + 64 ≤ 2 ^ 63 }
    requires there { ((xs : List ℕ) × Straight (B.words blocks.old) t.now.context.at p g side xs) }
    ensures settled { (xs : List ℕ) → Straight (B.words blocks.old) t.now.context.at p g side xs →
        Settled (B.words blocks.new) t.now.context.at xs }
    ensures changes { (xs : List ℕ) → Straight (B.words blocks.old) t.now.context.at p g side xs →
        ChangesNodes (B.words blocks.old) (B.words blocks.new) t.now.context.at xs }
    ensures cost { steps.new ≤ steps.old + 6 }
    ensures rest { B.rest blocks.new ≡ B.rest blocks.old }
{
    recolour(blocks, t, p, false, steps);
    recolour(blocks, t, g, true, steps);
    rotate(blocks, t, g, other(side), steps);
}

/// Ends a conflict whose uncle is black.
fn resolve<B: Blocks, L: Ledger>(
    blocks: &mut B,
    t: &Tree,
    x: u64,
    p: u64,
    g: u64,
    side: Side,
    steps: &mut Steps<L>,
)
    requires ends { t.now.context.at + 64 ≤ 2 ^ 63 }
    requires there { ((xs : List ℕ) × (d : ℕ) ×
        (c : Conflict (B.words blocks.old) t.now.context.at x p g side xs d) ×
        (red_of c.uncle ≡ false)) }
    ensures settled { (xs : List ℕ) (d : ℕ) (c : Conflict
        (B.words blocks.old) t.now.context.at x p g side xs d) → red_of c.uncle ≡ false →
        Settled (B.words blocks.new) t.now.context.at xs }
    ensures changes { (xs : List ℕ) (d : ℕ) (c : Conflict
        (B.words blocks.old) t.now.context.at x p g side xs d) → red_of c.uncle ≡ false →
        ChangesNodes (B.words blocks.old) (B.words blocks.new) t.now.context.at xs }
    ensures cost { steps.new ≤ steps.old + 11 }
    ensures rest { B.rest blocks.new ≡ B.rest blocks.old }
{
    let inner = child(blocks, p, other(side), steps);
    if inner == x {
        rotate(blocks, t, p, side, steps);
        settle(blocks, t, x, g, side, steps);
    } else {
        settle(blocks, t, p, g, side, steps);
    }
}

/// One step of the insert fixup: it ends, or goes on at the grandparent.
fn insert_fixup_step<B: Blocks, L: Ledger>(
    blocks: &mut B,
    t: &Tree,
    x: u64,
    steps: &mut Steps<L>,
) -> Option<u64>
    requires ends { t.now.context.at + 64 ≤ 2 ^ 63 }
    requires there { ((xs : List ℕ) × (d : ℕ) × Rising (B.words blocks.old) t.now.context.at x xs d) }
    ensures goes_on { (xs : List ℕ) (d : ℕ) → Rising (B.words blocks.old) t.now.context.at x xs d →
        MatchOption result (Settled (B.words blocks.new) t.now.context.at xs) (λ y. (e : ℕ) ×
        (suc (suc e) ≡ d) × Rising (B.words blocks.new) t.now.context.at y xs e) }
    ensures changes { (xs : List ℕ) (d : ℕ) → Rising (B.words blocks.old) t.now.context.at x xs d →
        ChangesNodes (B.words blocks.old) (B.words blocks.new) t.now.context.at xs }
    ensures cost { MatchOption result (steps.new ≤ steps.old + 17) (λ y. steps.new ≤ steps.old + 9) }
    ensures rest { B.rest blocks.new ≡ B.rest blocks.old }
{
    let p = parent(blocks, x, steps);
    if p == 0 {
        recolour(blocks, t, x, false, steps);
        return None;
    }
    if !is_red(blocks, t, p, steps) {
        return None;
    }
    let g = parent(blocks, p, steps);
    let side = side_of(blocks, g, p, steps);
    let v = child(blocks, g, other(side), steps);
    if is_red(blocks, t, v, steps) {
        lift(blocks, t, p, v, g, steps);
        Some(g)
    } else {
        resolve(blocks, t, x, p, g, side, steps);
        None
    }
}

/// Makes a tree red-black again, into which the red block `x` was put.
pub(crate) fn insert_fixup<B: Blocks, L: Ledger>(
    blocks: &mut B,
    t: &Tree,
    x: u64,
    steps: &mut Steps<L>,
)
    requires ends { t.now.context.at + 64 ≤ 2 ^ 63 }
    requires there { ((xs : List ℕ) × (d : ℕ) × Rising (B.words blocks.old) t.now.context.at x xs d) }
    ensures settled { (xs : List ℕ) (d : ℕ) → Rising (B.words blocks.old) t.now.context.at x xs d →
        Settled (B.words blocks.new) t.now.context.at xs }
    ensures changes { (xs : List ℕ) (d : ℕ) → Rising (B.words blocks.old) t.now.context.at x xs d →
        ChangesNodes (B.words blocks.old) (B.words blocks.new) t.now.context.at xs }
    ensures cost { (xs : List ℕ) (d : ℕ) → Rising (B.words blocks.old) t.now.context.at x xs d →
        steps.new ≤ steps.old + (17 + 5 * d) }
    ensures rest { B.rest blocks.new ≡ B.rest blocks.old }
{
    let mut at = x;
    for round in 0..u64::MAX {
        match insert_fixup_step(blocks, t, at, steps) {
            Some(grand) => at = grand,
            None => return,
        }
    }
    unreachable!()
}
