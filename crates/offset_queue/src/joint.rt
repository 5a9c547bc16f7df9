ghost use Rattle.std.specs.Prelude.{◌≡◌, ◌≢◌, ℕ, ◌+◌, ◌*◌, ◌^◌, ◌≤◌, List, length};
ghost use Rattle.offset_queue.specs.Queue.{joint_offset, head_joint, AreLinked, IsQueue};
ghost use Rattle.offset_queue.specs.Inside.{IsJoint, joint_from, Joins};

use crate::queue::Queue;
use zone_region::{Block, Blocks, read};

/// Where two link words begin, previous and next: those of the head, or of an entry.
#[derive(Clone, Copy)]
pub(crate) struct Joint {
    /// The block that has them.
    pub block: Block,
    /// The word of it that is the previous link. The next link stands right behind.
    pub at: u64,
}

/// The head's joint.
pub(crate) fn head_of(q: &Queue) -> Joint
    ensures { (result.block.at, result.at) ≡ head_joint q.now }
{
    Joint {
        block: q.head,
        at: q.at,
    }
}

/// The joint at a byte offset: the head's, or that of the block whose links stand there.
fn joint_at(q: &Queue, link: u64, offset: u64) -> Joint
    requires head { joint_offset (head_joint q.now) ≤ 2 ^ 63 }
    requires entry { offset ≢ joint_offset (head_joint q.now) → 8 * link ≤ offset }
    ensures { (result.block.at, result.at) ≡ joint_from q.now link offset }
{
    if offset == q.head.at + 8 * q.at {
        head_of(q)
    } else {
        let block = Block {
            at: offset - 8 * link,
        };
        Joint { block, at: link }
    }
}

/// The joint before this one.
pub(crate) fn prev<B: Blocks>(blocks: &B, q: &Queue, link: u64, joint: Joint) -> Joint
    requires { ((xs : List ℕ) × IsQueue (B.words blocks.now) q.now link xs ×
        IsJoint q.now link xs (joint.block.at, joint.at)) }
    ensures { (xs : List ℕ) (a : ℕ × ℕ) → IsQueue (B.words blocks.now) q.now link xs →
        IsJoint q.now link xs a → AreLinked (B.words blocks.now) a (joint.block.at, joint.at) →
        (result.block.at, result.at) ≡ a }
{
    let offset = read(blocks, joint.block, joint.at);
    joint_at(q, link, offset)
}

/// The joint after this one.
pub(crate) fn next<B: Blocks>(blocks: &B, q: &Queue, link: u64, joint: Joint) -> Joint
    requires { ((xs : List ℕ) × IsQueue (B.words blocks.now) q.now link xs ×
        IsJoint q.now link xs (joint.block.at, joint.at)) }
    ensures { (xs : List ℕ) (b : ℕ × ℕ) → IsQueue (B.words blocks.now) q.now link xs →
        IsJoint q.now link xs b → AreLinked (B.words blocks.now) (joint.block.at, joint.at) b →
        (result.block.at, result.at) ≡ b }
{
    let offset = read(blocks, joint.block, joint.at + 1);
    joint_at(q, link, offset)
}

/// Links two joints to each other: the next link of `a` leads to `b`, and the previous link of `b` to `a`.
pub(crate) fn join<B: Blocks>(blocks: &mut B, a: Joint, b: Joint)
    requires first { a.at + 2 ≤ length (B.words blocks.old a.block.at) }
    requires second { b.at + 2 ≤ length (B.words blocks.old b.block.at) }
    requires one { a.block.at ≡ b.block.at → a.at ≡ b.at }
    requires first_ends { a.block.at + 8 * length (B.words blocks.old a.block.at) ≤ 2 ^ 63 }
    requires second_ends { b.block.at + 8 * length (B.words blocks.old b.block.at) ≤ 2 ^ 63 }
    ensures joins { Joins (B.words blocks.old) (B.words blocks.new) (a.block.at, a.at) (b.block.at, b.at) }
    ensures rest { B.rest blocks.new ≡ B.rest blocks.old }
{
    blocks.set(a.block, a.at + 1, b.block.at + 8 * b.at);
    blocks.set(b.block, b.at, a.block.at + 8 * a.at);
}
