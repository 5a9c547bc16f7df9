ghost use Rattle.std.specs.Prelude.{◌≡◌, ℕ, List, [], ◌∷◌, ◌++◌, MatchOption};
ghost use Rattle.zone_region.specs.Members.{In};
ghost use Rattle.offset_queue.specs.Queue.{IsHead, IsQueue, CanPush, ChangesLinks};

use crate::joint::{Joint, head_of, join, next, prev};
use crate::queue::Queue;
use zone_region::{Block, Blocks};

impl Queue {
    /// Makes the queue empty: the head is linked to itself both ways (`ngx_queue_init`).
    pub fn init<B: Blocks>(&self, blocks: &mut B)
        requires { IsHead (B.words blocks.old) self.now }
        ensures lays { (link : ℕ) → IsQueue (B.words blocks.new) self.now link [] }
        ensures changes { (link : ℕ) →
            ChangesLinks (B.words blocks.old) (B.words blocks.new) self.now link [] }
        ensures rest { B.rest blocks.new ≡ B.rest blocks.old }
    {
        let head = head_of(self);
        join(blocks, head, head);
    }

    /// Puts a block in at the front (`ngx_queue_insert_head`). The blocks' links begin at word `link`.
    pub fn push_front<B: Blocks>(&self, blocks: &mut B, b: Block, link: u64)
        requires { ((xs : List ℕ) × CanPush (B.words blocks.old) self.now link b.at xs) }
        ensures lays { (xs : List ℕ) → CanPush (B.words blocks.old) self.now link b.at xs →
            IsQueue (B.words blocks.new) self.now link (b.at ∷ xs) }
        ensures changes { (xs : List ℕ) → CanPush (B.words blocks.old) self.now link b.at xs →
            ChangesLinks (B.words blocks.old) (B.words blocks.new) self.now link (b.at ∷ xs) }
        ensures rest { B.rest blocks.new ≡ B.rest blocks.old }
    {
        let head = head_of(self);
        let entry = Joint { block: b, at: link };
        let front = next(blocks, self, link, head);
        join(blocks, entry, front);
        join(blocks, head, entry);
    }

    /// Takes a block of the queue out (`ngx_queue_remove`): its neighbours are linked to each other.
    pub fn remove<B: Blocks>(&self, blocks: &mut B, b: Block, link: u64)
        requires { ((xs : List ℕ) × IsQueue (B.words blocks.old) self.now link xs × In b.at xs) }
        ensures lays { (ys zs : List ℕ) → IsQueue (B.words blocks.old) self.now link (ys ++ b.at ∷ zs) →
            IsQueue (B.words blocks.new) self.now link (ys ++ zs) }
        ensures changes { (xs : List ℕ) → IsQueue (B.words blocks.old) self.now link xs → In b.at xs →
            ChangesLinks (B.words blocks.old) (B.words blocks.new) self.now link xs }
        ensures rest { B.rest blocks.new ≡ B.rest blocks.old }
    {
        let entry = Joint { block: b, at: link };
        let before = prev(blocks, self, link, entry);
        let after = next(blocks, self, link, entry);
        join(blocks, before, after);
    }

    /// Moves a block of the queue to the front.
    pub fn move_front<B: Blocks>(&self, blocks: &mut B, b: Block, link: u64)
        requires { ((xs : List ℕ) × IsQueue (B.words blocks.old) self.now link xs × In b.at xs) }
        ensures lays { (ys zs : List ℕ) → IsQueue (B.words blocks.old) self.now link (ys ++ b.at ∷ zs) →
            IsQueue (B.words blocks.new) self.now link (b.at ∷ ys ++ zs) }
        ensures changes { (xs : List ℕ) → IsQueue (B.words blocks.old) self.now link xs → In b.at xs →
            ChangesLinks (B.words blocks.old) (B.words blocks.new) self.now link xs }
        ensures rest { B.rest blocks.new ≡ B.rest blocks.old }
    {
        self.remove(blocks, b, link);
        self.push_front(blocks, b, link);
    }

    /// The block at the back, or none exactly where the queue is empty (`ngx_queue_last`, `ngx_queue_empty`).
    pub fn last<B: Blocks>(&self, blocks: &B, link: u64) -> Option<Block>
        requires { ((xs : List ℕ) × IsQueue (B.words blocks.now) self.now link xs) }
        ensures { (xs : List ℕ) → IsQueue (B.words blocks.now) self.now link xs →
            MatchOption result (xs ≡ []) (λ b. (ys : List ℕ) × (xs ≡ ys ++ b.at ∷ [])) }
    {
        let back = prev(blocks, self, link, head_of(self)).block;
        if back.at == self.head.at {
            None
        } else {
            Some(back)
        }
    }
}
