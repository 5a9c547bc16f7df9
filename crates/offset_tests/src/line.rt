ghost use Rattle.std.specs.Prelude.{◌≡◌, ℕ, List, [], ◌∷◌, true, IfOk};
ghost use Rattle.zone_region.specs.Members.{In};
ghost use Rattle.offset_tests.specs.Line.{full, FitsLine, IsLine, HasLine};

use offset_queue::Queue;
use zone_outside::NoMemory;
use zone_region::{Block, Blocks};

/// A place in a full queue.
#[derive(Clone, Copy, Debug)]
pub enum Spot {
    /// The last entry.
    Back,
    /// The one between.
    Middle,
    /// The first entry.
    Front,
}

/// What is done to a full queue.
#[derive(Clone, Copy, Debug)]
pub enum Change {
    /// Nothing.
    Nothing,
    /// The entry moves to the front.
    ToFront(Spot),
    /// The entry leaves.
    Out(Spot),
}

/// The block at this place of a full queue.
fn block_at(spot: Spot) -> Block
    ensures { In result.at full }
{
    match spot {
        Spot::Back => Block { at: 8192 },
        Spot::Middle => Block { at: 8320 },
        Spot::Front => Block { at: 8448 },
    }
}

/// Puts a block of the three in at the front.
fn push<B: Blocks>(blocks: &mut B, q: &Queue, b: Block)
    requires one { In b.at full }
    requires there { ((xs : List ℕ) × IsLine (B.words blocks.old) q.now xs × (In b.at xs → ⊥)) }
    ensures { (xs : List ℕ) → IsLine (B.words blocks.old) q.now xs → (In b.at xs → ⊥) →
        IsLine (B.words blocks.new) q.now (b.at ∷ xs) }
{
    q.push_front(blocks, b, 5);
}

/// Makes an empty queue.
pub fn begin<B: Blocks>(blocks: &mut B, q: &Queue)
    requires { FitsLine (B.words blocks.old) q.now }
    ensures { IsLine (B.words blocks.new) q.now [] }
{
    q.init(blocks);
}

/// Puts the blocks at 8192, 8320 and 8448 into an empty queue, in this order.
pub fn fill<B: Blocks>(blocks: &mut B, q: &Queue)
    requires { IsLine (B.words blocks.old) q.now [] }
    ensures { IsLine (B.words blocks.new) q.now full }
{
    push(blocks, q, Block { at: 8192 });
    push(blocks, q, Block { at: 8320 });
    push(blocks, q, Block { at: 8448 });
}

/// Changes a full queue.
pub fn apply<B: Blocks>(blocks: &mut B, q: &Queue, change: Change)
    requires { IsLine (B.words blocks.old) q.now full }
    ensures { HasLine (B.words blocks.new) q.now }
{
    match change {
        Change::Nothing => {}
        Change::ToFront(spot) => q.move_front(blocks, block_at(spot), 5),
        Change::Out(spot) => q.remove(blocks, block_at(spot), 5),
    }
}

/// Takes the block at the back out of the queue, if there is one.
fn take_last<B: Blocks>(blocks: &mut B, q: &Queue) -> Option<Block>
    requires { HasLine (B.words blocks.old) q.now }
    ensures { HasLine (B.words blocks.new) q.now }
{
    let b = q.last(blocks, 5)?;
    q.remove(blocks, b, 5);
    Some(b)
}

/// Takes at most three blocks out of the queue, each from the back, and lists them in this order. Says whether the
/// queue is empty then.
pub fn drain<B: Blocks>(blocks: &mut B, q: &Queue, order: &mut Vec<u64>) -> Result<bool, NoMemory>
    requires { HasLine (B.words blocks.old) q.now }
    ensures { IfOk result (λ empty. empty ≡ true → IsLine (B.words blocks.new) q.now []) }
{
    for _ in 0..3 {
        if let Some(b) = take_last(blocks, q) {
            order.push(b.at)?;
        }
    }
    Ok(q.last(blocks, 5).is_none())
}
