ghost use Rattle.std.specs.Prelude.{◌≡◌, ◌≢◌, ◌+◌, ◌^◌, ◌≤◌, true, length};
ghost use Rattle.offset_tree.specs.Inside.Shape.{Path, plug, node, leaf};
ghost use Rattle.offset_tree.specs.Inside.Links.{IsShape};
ghost use Rattle.offset_tree.specs.Inside.Moves.{ChangesTree};
ghost use Rattle.offset_tree.specs.Inside.Attaching.{Gap, Cleared, Linked};

use crate::links::{PARENT, index, paint, sentinel};
use crate::side::Side;
use crate::tree::Tree;
use std::sync::ledger::Ledger;
use zone_region::{Block, Blocks, Steps};

/// Makes `b` a red block without children, under `p`.
fn clear<B: Blocks, L: Ledger>(blocks: &mut B, t: &Tree, b: u64, p: u64, steps: &mut Steps<L>)
    requires ends { t.now.context.at + 64 ≤ 2 ^ 63 }
    requires room { 5 ≤ length (B.words blocks.old b) }
    ensures clears { Cleared (B.words blocks.old) (B.words blocks.new) (t.now.context.at + 24) b p }
    ensures cost { steps.new ≡ steps.old + 1 }
    ensures rest { B.rest blocks.new ≡ B.rest blocks.old }
{
    let nil = sentinel(t);
    blocks.set(Block { at: b }, 1, nil);
    blocks.set(Block { at: b }, 2, nil);
    blocks.set(Block { at: b }, PARENT, p);
    paint(blocks, b, true, steps);
}

/// Links `b` under `p` on one side, or as the root where `p` is 0.
fn link<B: Blocks>(blocks: &mut B, t: &Tree, p: u64, side: Side, b: u64)
    requires context { 8 ≤ length (B.words blocks.old t.now.context.at) }
    requires live { p ≢ 0 → 5 ≤ length (B.words blocks.old p) }
    ensures does { Linked (B.words blocks.old) (B.words blocks.new) t.now.context.at p side b }
    ensures rest { B.rest blocks.new ≡ B.rest blocks.old }
{
    if p == 0 {
        blocks.set(t.context, 0, b);
    } else {
        blocks.set(Block { at: p }, index(side), b);
    }
}

/// Puts the red block `b` into an empty place.
pub(crate) fn attach<B: Blocks, L: Ledger>(
    blocks: &mut B,
    t: &Tree,
    p: u64,
    side: Side,
    b: u64,
    steps: &mut Steps<L>,
)
    requires ends { t.now.context.at + 64 ≤ 2 ^ 63 }
    requires there { ((k : Path) × Gap (B.words blocks.old) t.now.context.at p side k b) }
    ensures shape { (k : Path) → Gap (B.words blocks.old) t.now.context.at p side k b →
        IsShape (B.words blocks.new) t.now.context.at (plug k (node true leaf b leaf)) }
    ensures changes { (k : Path) → Gap (B.words blocks.old) t.now.context.at p side k b →
        ChangesTree (B.words blocks.old) (B.words blocks.new) t.now.context.at (plug k
        (node true leaf b leaf)) }
    ensures cost { steps.new ≡ steps.old + 1 }
    ensures rest { B.rest blocks.new ≡ B.rest blocks.old }
{
    clear(blocks, t, b, p, steps);
    link(blocks, t, p, side, b);
}
