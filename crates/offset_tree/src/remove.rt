ghost use Rattle.std.specs.Prelude.{◌≡◌, ◌≢◌, ℕ, ◌+◌, ◌^◌, ◌<◌, ◌≤◌, List, ◌∷◌, ◌++◌, length};
ghost use Rattle.zone_region.specs.Words.{word_at};
ghost use Rattle.zone_region.specs.Members.{In};
ghost use Rattle.offset_tree.specs.Keys.{IsForm};
ghost use Rattle.offset_tree.specs.Layout.{IsTree};
ghost use Rattle.offset_tree.specs.Inside.Shape.{blocks_of, Shape};
ghost use Rattle.offset_tree.specs.Inside.Links.{IsShape, side_at};
ghost use Rattle.offset_tree.specs.Changes.{ChangesNodes};
ghost use Rattle.offset_tree.specs.Inside.Balance.{Settled};
ghost use Rattle.offset_tree.specs.Inside.DeleteFixup.{OneSided};
ghost use Rattle.offset_tree.specs.Inside.Attaching.{IsFresh, Filled};
ghost use Rattle.offset_tree.specs.Inside.Removing.{Seat, seated, Leftward};

use crate::delete_fixup::delete_fixup;
use crate::links::{
    PARENT, child, is_red, other, paint, parent, replace, sentinel, set_parent, side_of,
};
use crate::position::Position;
use crate::side::Side;
use crate::tree::Tree;
use std::marker::Brand;
use std::sync::ledger::{Blank, Ledger};
use zone_region::{Block, Blocks, Steps};

/// The side of `p` on which `y` is linked, if `p` isn't 0.
fn hole_side<B: Blocks, L: Ledger>(blocks: &B, p: u64, y: u64, steps: &mut Steps<L>) -> Side
    requires { p ≢ 0 → 5 ≤ length (B.words blocks.now p) }
    ensures { p ≢ 0 → result ≡ side_at (B.words blocks.now) p y }
{
    if p == 0 {
        Side::Left
    } else {
        side_of(blocks, p, y, steps)
    }
}

/// Takes the block `y` out, which has no child on one side: its other child takes its place.
fn take_out<B: Blocks, L: Ledger>(
    blocks: &mut B,
    t: &Tree,
    y: u64,
    side: Side,
    steps: &mut Steps<L>,
)
    requires ends { t.now.context.at + 64 ≤ 2 ^ 63 }
    requires there { ((xs : List ℕ) × OneSided (B.words blocks.old) t.now.context.at y side xs) }
    ensures settled { (xs : List ℕ) → OneSided (B.words blocks.old) t.now.context.at y side xs →
        Settled (B.words blocks.new) t.now.context.at xs }
    ensures changes { (xs : List ℕ) → OneSided (B.words blocks.old) t.now.context.at y side xs →
        ChangesNodes (B.words blocks.old) (B.words blocks.new) t.now.context.at xs }
    ensures rest { B.rest blocks.new ≡ B.rest blocks.old }
{
    let red = is_red(blocks, t, y, steps);
    let v = child(blocks, y, other(side), steps);
    let p = parent(blocks, y, steps);
    let hole = hole_side(blocks, p, y, steps);
    set_parent(blocks, t, v, p);
    replace(blocks, t, p, y, v, steps);
    if !red {
        delete_fixup(
            blocks,
            t,
            Position {
                at: v,
                parent: p,
                side: hole,
            },
            steps,
        );
    }
}

/// Gives a block its links and its colour.
fn fill<B: Blocks, L: Ledger>(
    blocks: &mut B,
    y: u64,
    left: u64,
    right: u64,
    p: u64,
    red: bool,
    steps: &mut Steps<L>,
)
    requires { 5 ≤ length (B.words blocks.old y) }
    ensures does { Filled (B.words blocks.old) (B.words blocks.new) y left right p red }
    ensures rest { B.rest blocks.new ≡ B.rest blocks.old }
{
    blocks.set(Block { at: y }, 1, left);
    blocks.set(Block { at: y }, 2, right);
    blocks.set(Block { at: y }, PARENT, p);
    paint(blocks, y, red, steps);
}

/// Puts `y` in the place of `x`.
fn substitute<B: Blocks, L: Ledger>(blocks: &mut B, t: &Tree, x: u64, y: u64, steps: &mut Steps<L>)
    requires ends { t.now.context.at + 64 ≤ 2 ^ 63 }
    requires there { ((u : Seat) × IsShape (B.words blocks.old) t.now.context.at (seated u x) ×
        IsFresh (B.words blocks.old) t.now.context.at y (seated u x)) }
    ensures shape { (u : Seat) → IsShape (B.words blocks.old) t.now.context.at (seated u x) →
        IsFresh (B.words blocks.old) t.now.context.at y (seated u x) →
        IsShape (B.words blocks.new) t.now.context.at (seated u y) }
    ensures changes { (u : Seat) (ys : List ℕ) →
        IsShape (B.words blocks.old) t.now.context.at (seated u x) →
        IsFresh (B.words blocks.old) t.now.context.at y (seated u x) → In y ys → ((z : ℕ) →
        In z (blocks_of (seated u x)) → In z ys) →
        ChangesNodes (B.words blocks.old) (B.words blocks.new) t.now.context.at ys }
    ensures rest { B.rest blocks.new ≡ B.rest blocks.old }
{
    let left = child(blocks, x, Side::Left, steps);
    let right = child(blocks, x, Side::Right, steps);
    let p = parent(blocks, x, steps);
    let red = is_red(blocks, t, x, steps);
    fill(blocks, y, left, right, p, red, steps);
    set_parent(blocks, t, left, y);
    set_parent(blocks, t, right, y);
    replace(blocks, t, p, x, y, steps);
}

/// The first block of a part of the tree.
fn first<B: Blocks, L: Ledger>(blocks: &B, t: &Tree, part: u64, steps: &mut Steps<L>) -> u64
    requires ends { t.now.context.at + 64 ≤ 2 ^ 63 }
    requires there { ((tree : Shape) × (before : List ℕ) ×
        Leftward (B.words blocks.now) t.now.context.at part tree before 0) }
    ensures first { (tree : Shape) (before : List ℕ) →
        Leftward (B.words blocks.now) t.now.context.at part tree before 0 → (d : ℕ) ×
        Leftward (B.words blocks.now) t.now.context.at result tree before d }
    ensures empty { word_at (B.words blocks.now) result 1 ≡ t.now.context.at + 24 }
{
    let nil = sentinel(t);
    let mut at = part;
    for round in 0..u64::MAX {
        let left = child(blocks, at, Side::Left, steps);
        if left == nil {
            return at;
        }
        at = left;
    }
    unreachable!()
}

/// Takes a block out of a red-black tree. The block after it, if it has two children, takes its place.
fn unlink<B: Blocks, L: Ledger>(blocks: &mut B, t: &Tree, b: Block, steps: &mut Steps<L>)
    requires ends { t.now.context.at + 64 ≤ 2 ^ 63 }
    requires there { ((before : List ℕ) × (after : List ℕ) ×
        Settled (B.words blocks.old) t.now.context.at (before ++ b.at ∷ after)) }
    ensures settled { (before after : List ℕ) →
        Settled (B.words blocks.old) t.now.context.at (before ++ b.at ∷ after) →
        Settled (B.words blocks.new) t.now.context.at (before ++ after) }
    ensures changes { (before after : List ℕ) →
        Settled (B.words blocks.old) t.now.context.at (before ++ b.at ∷ after) →
        ChangesNodes (B.words blocks.old) (B.words blocks.new) t.now.context.at
        (before ++ b.at ∷ after) }
    ensures rest { B.rest blocks.new ≡ B.rest blocks.old }
{
    let nil = sentinel(t);
    let left = child(blocks, b.at, Side::Left, steps);
    if left == nil {
        take_out(blocks, t, b.at, Side::Left, steps);
        return;
    }
    let right = child(blocks, b.at, Side::Right, steps);
    if right == nil {
        take_out(blocks, t, b.at, Side::Right, steps);
        return;
    }
    let next = first(blocks, t, right, steps);
    take_out(blocks, t, next, Side::Left, steps);
    substitute(blocks, t, b.at, next, steps);
}

fn remove_with<B: Blocks, L: Ledger>(blocks: &mut B, t: &Tree, b: Block, blank: Blank)
    requires name { blank.name ≡ L.name }
    requires parts { blank.parts ≡ L.parts }
    requires some { 0 < L.parts }
    requires form { IsForm t.now.form }
    requires there { ((xs : List ℕ) × IsTree (B.words blocks.old) t.now xs × In b.at xs) }
    ensures removed { (before after : List ℕ) →
        IsTree (B.words blocks.old) t.now (before ++ b.at ∷ after) →
        IsTree (B.words blocks.new) t.now (before ++ after) }
    ensures changes { (xs : List ℕ) → IsTree (B.words blocks.old) t.now xs → In b.at xs →
        ChangesNodes (B.words blocks.old) (B.words blocks.new) t.now.context.at xs }
    ensures rest { B.rest blocks.new ≡ B.rest blocks.old }
{
    let mut steps = Steps::<L>::new(blank);
    unlink(blocks, t, b, &mut steps);
}

impl Tree {
    /// Takes a block of the tree out (`ngx_rbtree_delete`). Nobody counts its reads.
    ///
    /// Where the block has two children, the block after it takes its place. The removed block's hash,
    /// length and key stay in its words.
    pub fn remove<B: Blocks>(&self, blocks: &mut B, b: Block)
        requires form { IsForm self.now.form }
        requires there { ((xs : List ℕ) × IsTree (B.words blocks.old) self.now xs × In b.at xs) }
        ensures removed { (before after : List ℕ) →
            IsTree (B.words blocks.old) self.now (before ++ b.at ∷ after) →
            IsTree (B.words blocks.new) self.now (before ++ after) }
        ensures changes { (xs : List ℕ) → IsTree (B.words blocks.old) self.now xs → In b.at xs →
            ChangesNodes (B.words blocks.old) (B.words blocks.new) self.now.context.at xs }
        ensures rest { B.rest blocks.new ≡ B.rest blocks.old }
    {
        remove_with::<B, Brand>(blocks, self, b, Blank::new(1))
    }
}
