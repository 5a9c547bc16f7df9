ghost use Rattle.std.specs.Prelude.{◌≡◌, ◌+◌, ◌^◌, ◌≤◌};
ghost use Rattle.offset_tree.specs.Inside.Links.{IsShape};
ghost use Rattle.offset_tree.specs.Inside.Moves.{Turn, unturned, turned, Spot, shape_at, recoloured, ChangesTree};

use crate::links::{child, other, paint, parent, replace, set_parent, set_two};
use crate::side::Side;
use crate::tree::Tree;
use std::sync::ledger::Ledger;
use zone_region::{Blocks, Steps};

/// Brings the child of `x` on the other side up, and `x` down on this side.
pub(crate) fn rotate<B: Blocks, L: Ledger>(
    blocks: &mut B,
    t: &Tree,
    x: u64,
    side: Side,
    steps: &mut Steps<L>,
)
    requires ends { t.now.context.at + 64 ≤ 2 ^ 63 }
    requires there { ((u : Turn) ×
        IsShape (B.words blocks.old) t.now.context.at (unturned u side x)) }
    ensures shape { (u : Turn) → IsShape (B.words blocks.old) t.now.context.at (unturned u side x) →
        IsShape (B.words blocks.new) t.now.context.at (turned u side x) }
    ensures changes { (u : Turn) →
        IsShape (B.words blocks.old) t.now.context.at (unturned u side x) →
        ChangesTree (B.words blocks.old) (B.words blocks.new) t.now.context.at (unturned u side x) }
    ensures cost { steps.new ≤ steps.old + 4 }
    ensures rest { B.rest blocks.new ≡ B.rest blocks.old }
{
    let far = other(side);
    let y = child(blocks, x, far, steps);
    let inner = child(blocks, y, side, steps);
    let p = parent(blocks, x, steps);
    set_two(blocks, x, far, inner, y);
    set_two(blocks, y, side, x, p);
    set_parent(blocks, t, inner, x);
    replace(blocks, t, p, x, y, steps);
}

/// Gives the block `x` of the tree a colour.
pub(crate) fn recolour<B: Blocks, L: Ledger>(
    blocks: &mut B,
    t: &Tree,
    x: u64,
    red: bool,
    steps: &mut Steps<L>,
)
    requires { ((u : Spot) × IsShape (B.words blocks.old) t.now.context.at (shape_at u x)) }
    ensures shape { (u : Spot) → IsShape (B.words blocks.old) t.now.context.at (shape_at u x) →
        IsShape (B.words blocks.new) t.now.context.at (recoloured u x red) }
    ensures changes { (u : Spot) → IsShape (B.words blocks.old) t.now.context.at (shape_at u x) →
        ChangesTree (B.words blocks.old) (B.words blocks.new) t.now.context.at (shape_at u x) }
    ensures cost { steps.new ≡ steps.old + 1 }
    ensures rest { B.rest blocks.new ≡ B.rest blocks.old }
{
    paint(blocks, x, red, steps);
}
