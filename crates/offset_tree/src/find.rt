ghost use Rattle.std.specs.Prelude.{◌≡◌, ◌≢◌, ℕ, ◌+◌, ◌≤◌, List, length, MatchOption};
ghost use Rattle.zone_region.specs.Members.{In};
ghost use Rattle.offset_tree.specs.Keys.{IsForm, rank_of};
ghost use Rattle.offset_tree.specs.Layout.{IsTree};
ghost use Rattle.offset_tree.specs.Bounds.{search_cost};

use crate::keys::compare_at;
use crate::links::sentinel;
use crate::tree::Tree;
use std::cmp::Ordering;
use std::sync::ledger::Ledger;
use zone_key::Key;
use zone_region::{Block, Blocks, Steps};

impl Tree {
    /// The block of this hash and key; none exactly where no block of the tree has both.
    ///
    /// Hashes are compared first, as nginx's look-ups by name do, then the keys' bytes, and last their lengths. Among
    /// `n` blocks, for a key of `len` bytes, at most `(2 * bits(n + 1) + 1) * (5 + len / 8)` steps are counted, each a
    /// word that is read.
    pub fn find<B: Blocks, L: Ledger>(
        &self,
        blocks: &B,
        hash: u32,
        key: &Key,
        steps: &mut Steps<L>,
    ) -> Option<Block>
        requires form { IsForm self.now.form }
        requires there { ((xs : List ℕ) × IsTree (B.words blocks.now) self.now xs) }
        ensures found { (xs : List ℕ) → IsTree (B.words blocks.now) self.now xs →
            MatchOption result
            ((x : ℕ) → In x xs → rank_of (B.words blocks.now) self.now.form x ≢ (hash, key.now))
            (λ b. In b.at xs × (rank_of (B.words blocks.now) self.now.form b.at ≡ (hash, key.now))) }
        ensures cost { (xs : List ℕ) → IsTree (B.words blocks.now) self.now xs →
            steps.new ≤ steps.old + search_cost (length xs) (length key.now) }
    {
        let nil = sentinel(self);
        let mut at = blocks.word(self.context, 0, steps);
        for round in 0..u64::MAX {
            if at == nil {
                return None;
            }
            match compare_at(blocks, &self.form, at, u64::from(hash), key, steps) {
                Ordering::Less => at = blocks.word(Block { at }, 1, steps),
                Ordering::Greater => at = blocks.word(Block { at }, 2, steps),
                Ordering::Equal => return Some(Block { at }),
            }
        }
        unreachable!()
    }
}
