ghost use Rattle.std.specs.Prelude.{◌≡◌, ◌≢◌, ℕ, ◌+◌, ◌*◌, ◌≤◌, List, [], ◌∷◌, ◌++◌, length, MatchOption};
ghost use Rattle.zone_region.specs.Members.{In};
ghost use Rattle.offset_tree.specs.Bounds.{search_cost};
ghost use Rattle.offset_table.specs.Table.{IsTable, IsTableContext, CanAdd, MakesTable, ChangesTable, rank_at};

use crate::table::Table;
use std::sync::ledger::Ledger;
use zone_key::Key;
use zone_region::{Block, Blocks, Steps};

/// The word of a node at which the queue's links begin.
const LINK: u64 = 5;

impl Table {
    /// Makes the table empty.
    pub fn init<B: Blocks>(&self, blocks: &mut B)
        requires { IsTableContext (B.words blocks.old) self.now }
        ensures lays { IsTable (B.words blocks.new) self.now [] }
        ensures changes { MakesTable (B.words blocks.old) (B.words blocks.new) self.now }
        ensures rest { B.rest blocks.new ≡ B.rest blocks.old }
    {
        let tree = self.tree();
        let queue = self.queue();
        tree.init(blocks);
        queue.init(blocks);
    }

    /// The node of this hash and key; none exactly where no node has both. With `n` nodes and a key of `len` bytes, at
    /// most `(2 * bits(n + 1) + 1) * (5 + len / 8)` steps are counted, each a word that is read.
    pub fn find<B: Blocks, L: Ledger>(
        &self,
        blocks: &B,
        hash: u32,
        key: &Key,
        steps: &mut Steps<L>,
    ) -> Option<Block>
        requires { ((order : List ℕ) × IsTable (B.words blocks.now) self.now order) }
        ensures found { (order : List ℕ) → IsTable (B.words blocks.now) self.now order →
            MatchOption result
            ((x : ℕ) → In x order → rank_at (B.words blocks.now) x ≢ (hash, key.now))
            (λ b. In b.at order × (rank_at (B.words blocks.now) b.at ≡ (hash, key.now))) }
        ensures cost { (order : List ℕ) → IsTable (B.words blocks.now) self.now order →
            steps.new ≤ steps.old + search_cost (length order) (length key.now) }
    {
        let tree = self.tree();
        tree.find(blocks, hash, key, steps)
    }

    /// Puts a block in as the node that was used last. Its words hold the key's hash, length and bytes already.
    ///
    /// The counted steps are at most three times those of a search for the key, and 24 more.
    pub fn add<B: Blocks, L: Ledger>(
        &self,
        blocks: &mut B,
        b: Block,
        key: &Key,
        steps: &mut Steps<L>,
    )
        requires { ((order : List ℕ) × CanAdd (B.words blocks.old) self.now b.at key.now order) }
        ensures lays { (order : List ℕ) → CanAdd (B.words blocks.old) self.now b.at key.now order →
            IsTable (B.words blocks.new) self.now (b.at ∷ order) }
        ensures changes { (order : List ℕ) → CanAdd (B.words blocks.old) self.now b.at key.now order →
            ChangesTable (B.words blocks.old) (B.words blocks.new) self.now (b.at ∷ order) }
        ensures cost { (order : List ℕ) → CanAdd (B.words blocks.old) self.now b.at key.now order →
            steps.new ≤ steps.old + (3 * search_cost (length order) (length key.now) + 24) }
        ensures rest { B.rest blocks.new ≡ B.rest blocks.old }
    {
        let tree = self.tree();
        let queue = self.queue();
        tree.insert(blocks, b, key, steps);
        queue.push_front(blocks, b, LINK);
    }

    /// Makes a node the one that was used last.
    pub fn touch<B: Blocks>(&self, blocks: &mut B, b: Block)
        requires { ((order : List ℕ) × IsTable (B.words blocks.old) self.now order × In b.at order) }
        ensures lays { (ys zs : List ℕ) → IsTable (B.words blocks.old) self.now (ys ++ b.at ∷ zs) →
            IsTable (B.words blocks.new) self.now (b.at ∷ ys ++ zs) }
        ensures changes { (order : List ℕ) → IsTable (B.words blocks.old) self.now order → In b.at order →
            ChangesTable (B.words blocks.old) (B.words blocks.new) self.now order }
        ensures rest { B.rest blocks.new ≡ B.rest blocks.old }
    {
        let queue = self.queue();
        queue.move_front(blocks, b, LINK);
    }

    /// Takes a node out.
    pub fn remove<B: Blocks>(&self, blocks: &mut B, b: Block)
        requires { ((order : List ℕ) × IsTable (B.words blocks.old) self.now order × In b.at order) }
        ensures lays { (ys zs : List ℕ) → IsTable (B.words blocks.old) self.now (ys ++ b.at ∷ zs) →
            IsTable (B.words blocks.new) self.now (ys ++ zs) }
        ensures changes { (order : List ℕ) → IsTable (B.words blocks.old) self.now order → In b.at order →
            ChangesTable (B.words blocks.old) (B.words blocks.new) self.now order }
        ensures rest { B.rest blocks.new ≡ B.rest blocks.old }
    {
        let tree = self.tree();
        let queue = self.queue();
        queue.remove(blocks, b, LINK);
        tree.remove(blocks, b);
    }

    /// The node that was used least lately, or none exactly where the table is empty.
    pub fn oldest<B: Blocks>(&self, blocks: &B) -> Option<Block>
        requires { ((order : List ℕ) × IsTable (B.words blocks.now) self.now order) }
        ensures { (order : List ℕ) → IsTable (B.words blocks.now) self.now order →
            MatchOption result (order ≡ []) (λ b. (ys : List ℕ) × (order ≡ ys ++ b.at ∷ [])) }
    {
        let queue = self.queue();
        queue.last(blocks, LINK)
    }
}
