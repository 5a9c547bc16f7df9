ghost use Rattle.std.specs.Prelude.{◌≡◌, ◌≢◌, ◌+◌, ◌^◌, ◌≤◌, length};
ghost use Rattle.zone_region.specs.Words.{word_at, SetsWord};
ghost use Rattle.offset_tree.specs.Inside.Sides.{child_word, other_of};
ghost use Rattle.offset_tree.specs.Inside.Links.{SetsTwo, SetsParent, Replaces, red_at, side_at, with_colour};

use crate::side::Side;
use crate::tree::Tree;
use std::sync::ledger::Ledger;
use zone_region::{Block, Blocks, Steps};

/// The word of a node that links its parent.
pub const PARENT: u64 = 3;

/// The word of a node whose lowest byte is its colour.
pub const COLOUR: u64 = 4;

/// The word of a node that links its child on one side.
pub(crate) fn index(side: Side) -> u64
    ensures { result ≡ child_word side }
{
    match side {
        Side::Left => 1,
        Side::Right => 2,
    }
}

/// The other side.
pub(crate) fn other(side: Side) -> Side
    ensures { result ≡ other_of side }
{
    match side {
        Side::Left => Side::Right,
        Side::Right => Side::Left,
    }
}

/// The sentinel's offset, which stands for a missing child.
pub(crate) fn sentinel(t: &Tree) -> u64
    requires { t.now.context.at + 64 ≤ 2 ^ 63 }
    ensures { result ≡ t.now.context.at + 24 }
{
    t.context.at + 24
}

/// The child of a node on one side.
pub(crate) fn child<B: Blocks, L: Ledger>(
    blocks: &B,
    x: u64,
    side: Side,
    steps: &mut Steps<L>,
) -> u64
    requires { 5 ≤ length (B.words blocks.now x) }
    ensures value { result ≡ word_at (B.words blocks.now) x (child_word side) }
    ensures cost { steps.new ≡ steps.old + 1 }
{
    blocks.word(Block { at: x }, index(side), steps)
}

/// The parent of a node, 0 for the root.
pub(crate) fn parent<B: Blocks, L: Ledger>(blocks: &B, x: u64, steps: &mut Steps<L>) -> u64
    requires { 5 ≤ length (B.words blocks.now x) }
    ensures value { result ≡ word_at (B.words blocks.now) x 3 }
    ensures cost { steps.new ≡ steps.old + 1 }
{
    blocks.word(Block { at: x }, PARENT, steps)
}

/// Sets a node's child on one side, and its parent.
pub(crate) fn set_two<B: Blocks>(blocks: &mut B, x: u64, side: Side, v: u64, p: u64)
    requires { 5 ≤ length (B.words blocks.old x) }
    ensures does { SetsTwo (B.words blocks.old) (B.words blocks.new) x (child_word side) v 3 p }
    ensures rest { B.rest blocks.new ≡ B.rest blocks.old }
{
    blocks.set(Block { at: x }, index(side), v);
    blocks.set(Block { at: x }, PARENT, p);
}

/// Sets the parent of what is linked at `o`. The sentinel's words stay.
pub(crate) fn set_parent<B: Blocks>(blocks: &mut B, t: &Tree, o: u64, p: u64)
    requires ends { t.now.context.at + 64 ≤ 2 ^ 63 }
    requires live { o ≢ t.now.context.at + 24 → 5 ≤ length (B.words blocks.old o) }
    ensures does { SetsParent (B.words blocks.old) (B.words blocks.new) (t.now.context.at + 24) o p }
    ensures rest { B.rest blocks.new ≡ B.rest blocks.old }
{
    if o != sentinel(t) {
        blocks.set(Block { at: o }, PARENT, p);
    }
}

/// Links `v` where `o` is linked: at its parent `p`, or at the root where `p` is 0.
pub(crate) fn replace<B: Blocks, L: Ledger>(
    blocks: &mut B,
    t: &Tree,
    p: u64,
    o: u64,
    v: u64,
    steps: &mut Steps<L>,
)
    requires context { 8 ≤ length (B.words blocks.old t.now.context.at) }
    requires live { p ≢ 0 → 5 ≤ length (B.words blocks.old p) }
    ensures replaces { Replaces (B.words blocks.old) (B.words blocks.new) t.now.context.at p o v }
    ensures cost { steps.new ≤ steps.old + 1 }
    ensures rest { B.rest blocks.new ≡ B.rest blocks.old }
{
    if p == 0 {
        blocks.set(t.context, 0, v);
    } else if child(blocks, p, Side::Left, steps) == o {
        blocks.set(Block { at: p }, 1, v);
    } else {
        blocks.set(Block { at: p }, 2, v);
    }
}

/// Whether a red node is linked at `o`. The sentinel is black.
pub(crate) fn is_red<B: Blocks, L: Ledger>(
    blocks: &B,
    t: &Tree,
    o: u64,
    steps: &mut Steps<L>,
) -> bool
    requires ends { t.now.context.at + 64 ≤ 2 ^ 63 }
    requires live { o ≢ t.now.context.at + 24 → 5 ≤ length (B.words blocks.now o) }
    ensures value { result ≡ red_at (B.words blocks.now) (t.now.context.at + 24) o }
    ensures cost { steps.new ≤ steps.old + 1 }
{
    o != sentinel(t) && blocks.word(Block { at: o }, COLOUR, steps) % 256 == 1
}

/// The side of `p` on which `o` is linked.
pub(crate) fn side_of<B: Blocks, L: Ledger>(
    blocks: &B,
    p: u64,
    o: u64,
    steps: &mut Steps<L>,
) -> Side
    requires { 5 ≤ length (B.words blocks.now p) }
    ensures value { result ≡ side_at (B.words blocks.now) p o }
    ensures cost { steps.new ≡ steps.old + 1 }
{
    if child(blocks, p, Side::Left, steps) == o {
        Side::Left
    } else {
        Side::Right
    }
}

/// Gives a node a colour. The other bytes of that word stay.
pub(crate) fn paint<B: Blocks, L: Ledger>(blocks: &mut B, x: u64, red: bool, steps: &mut Steps<L>)
    requires { 5 ≤ length (B.words blocks.old x) }
    ensures paints { SetsWord (B.words blocks.old) (B.words blocks.new) x 4 (with_colour (word_at
        (B.words blocks.old) x 4) red) }
    ensures cost { steps.new ≡ steps.old + 1 }
    ensures rest { B.rest blocks.new ≡ B.rest blocks.old }
{
    let word = blocks.word(Block { at: x }, COLOUR, steps);
    let colour = if red { 1 } else { 0 };
    blocks.set(Block { at: x }, COLOUR, word - word % 256 + colour);
}
