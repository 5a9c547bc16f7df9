ghost use Rattle.std.specs.Prelude.{◌≡◌, ◌≢◌, ℕ, ◌+◌, ◌*◌, ◌≤◌, List, length};
ghost use Rattle.zone_region.specs.Members.{In};
ghost use Rattle.offset_tree.specs.Keys.{IsForm, rank_of};
ghost use Rattle.offset_tree.specs.Layout.{CanInsert, Inserted};
ghost use Rattle.offset_tree.specs.Bounds.{search_cost};
ghost use Rattle.offset_tree.specs.Inside.Trees.{IsDrawn};
ghost use Rattle.offset_tree.specs.Inside.Inserting.{Opening};

use crate::attach::attach;
use crate::insert_fixup::insert_fixup;
use crate::keys::compare_at;
use crate::links::sentinel;
use crate::position::Position;
use crate::side::Side;
use crate::tree::Tree;
use std::cmp::Ordering;
use std::sync::ledger::Ledger;
use zone_key::Key;
use zone_region::{Block, Blocks, Steps};

/// The empty place for a hash and key that no block has.
fn gap_for<B: Blocks, L: Ledger>(
    blocks: &B,
    t: &Tree,
    hash: u64,
    key: &Key,
    steps: &mut Steps<L>,
) -> Position
    requires form { IsForm t.now.form }
    requires there { ((xs : List ℕ) × IsDrawn (B.words blocks.now) t.now xs × ((x : ℕ) → In x xs →
        rank_of (B.words blocks.now) t.now.form x ≢ (hash, key.now))) }
    ensures opening { (xs : List ℕ) → IsDrawn (B.words blocks.now) t.now xs →
        Opening (B.words blocks.now) t.now (hash, key.now) xs result.parent result.side }
    ensures cost { (xs : List ℕ) → IsDrawn (B.words blocks.now) t.now xs →
        steps.new ≤ steps.old + search_cost (length xs) (length key.now) }
{
    let nil = sentinel(t);
    let mut at = blocks.word(t.context, 0, steps);
    let mut parent = 0;
    let mut side = Side::Left;
    for round in 0..u64::MAX {
        if at == nil {
            return Position { at, parent, side };
        }
        match compare_at(blocks, &t.form, at, hash, key, steps) {
            Ordering::Less => {
                parent = at;
                side = Side::Left;
                at = blocks.word(Block { at }, 1, steps);
            }
            Ordering::Greater => {
                parent = at;
                side = Side::Right;
                at = blocks.word(Block { at }, 2, steps);
            }
            Ordering::Equal => unreachable!(),
        }
    }
    unreachable!()
}

impl Tree {
    /// Puts a block into the tree (`ngx_rbtree_insert`). Its words hold the key's hash, length and bytes already.
    ///
    /// The counted steps, each a word that is read, are at most three times those of a search for the key, and 24 more;
    /// those of the insert fixup are among them.
    pub fn insert<B: Blocks, L: Ledger>(
        &self,
        blocks: &mut B,
        b: Block,
        key: &Key,
        steps: &mut Steps<L>,
    )
        requires form { IsForm self.now.form }
        requires there { ((xs : List ℕ) × CanInsert (B.words blocks.old) self.now b.at key.now xs) }
        ensures inserted { (xs : List ℕ) → CanInsert (B.words blocks.old) self.now b.at key.now xs →
            Inserted (B.words blocks.old) (B.words blocks.new) self.now b.at xs }
        ensures cost { (xs : List ℕ) → CanInsert (B.words blocks.old) self.now b.at key.now xs →
            steps.new ≤ steps.old + (3 * search_cost (length xs) (length key.now) + 24) }
        ensures rest { B.rest blocks.new ≡ B.rest blocks.old }
    {
        let hash = blocks.word(b, 0, steps);
        let place = gap_for(blocks, self, hash, key, steps);
        attach(blocks, self, place.parent, place.side, b.at, steps);
        insert_fixup(blocks, self, b.at, steps);
    }
}
