ghost use Rattle.std.specs.Prelude.{◌≡◌, ◌+◌, ◌*◌, ◌<◌, ◌≤◌, ◌^◌, ◌∷◌, ◌++◌, ℕ, List, [], length, MatchOption, None};
ghost use Rattle.zone_key.specs.Crc.{crc32_of};
ghost use Rattle.slab_model.specs.Grant.{grant, granted_offset};
ghost use Rattle.offset_tree.specs.Bounds.{search_cost};
ghost use Rattle.req_zone.specs.declared.state.ReqEntry.{ReqEntry};
ghost use Rattle.req_zone.specs.declared.state.ReqState.{ReqState};
ghost use Rattle.req_zone.specs.Amount.{IsRate};
ghost use Rattle.req_zone.specs.Table.{entry_of};
ghost use Rattle.req_zone.specs.Step.{node_size};
ghost use Rattle.req_zone.specs.Object.{IsKey};
ghost use Rattle.req_zone.specs.Laws.{with_table, oldest_left, asked_for, admitted};
ghost use Rattle.req_zone.specs.Lays.{Lays, IsFound, StandsAt, IsNode, numbers_of, with_numbers};

use crate::nodes::{COUNT, EXCESS, LAST, write_node, write_numbers};
use crate::numbers::Numbers;
use offset_table::Table;
use slab_pool::Pool;
use std::sync::ledger::Ledger;
use zone_key::Key;
use zone_outside::Text;
use zone_region::{Block, Blocks, Steps};

/// The bytes of a node before its key.
const NODE_SIZE: u64 = 80;

/// A request zone in its words: the pool that has them, the table in the pool's blocks, and what is kept beside them.
///
/// Contracts tie it to a state by `Lays`. Each call takes it from a state to that state's step.
#[derive(Drop)]
pub struct ReqWords {
    /// The zone's words, with the blocks that are granted of them.
    pub(crate) pool: Pool,
    /// The table of the nodes, newest first.
    pub(crate) table: Table,
    /// The zone's name.
    pub(crate) name: Text,
    /// The rate in thousandths of a request per second.
    pub(crate) rate: u64,
    /// How many entries the table has.
    pub(crate) entries: u64,
}

impl ReqWords {
    /// The node of a key, whose hash is its CRC-32; none exactly where the key has no entry.
    pub(crate) fn find<L: Ledger>(
        &self,
        hash: u32,
        key: &Key,
        steps: &mut Steps<L>,
    ) -> Option<Block>
        requires laid { ((s : ReqState) × Lays self.now s) }
        requires hash { hash ≡ crc32_of key.now }
        ensures found { (s : ReqState) → Lays self.now s →
            MatchOption result
            (entry_of key.now s.table ≡ None)
            (λ b. (entry : ReqEntry) × IsFound s key.now b.at entry) }
        ensures cost { (s : ReqState) → Lays self.now s →
            steps.new ≤ steps.old + search_cost (length s.table) (length key.now) }
    {
        self.table.find(&self.pool, hash, key, steps)
    }

    /// The node of the oldest entry; none exactly where there is no entry.
    pub(crate) fn oldest(&self) -> Option<Block>
        requires { ((s : ReqState) × Lays self.now s) }
        ensures { (s : ReqState) → Lays self.now s →
            MatchOption result
            (s.table ≡ [])
            (λ b. (newer : List ReqEntry) × (entry : ReqEntry) × StandsAt s b.at newer entry []) }
    {
        self.table.oldest(&self.pool)
    }

    /// What the entry of a node counts.
    pub(crate) fn numbers<L: Ledger>(&self, b: Block, steps: &mut Steps<L>) -> Numbers
        requires { ((s : ReqState) × Lays self.now s × IsNode s b.at) }
        ensures value { (s : ReqState) (newer : List ReqEntry) (entry : ReqEntry) (older : List ReqEntry) →
            Lays self.now s → StandsAt s b.at newer entry older → result ≡ numbers_of entry }
        ensures cost { steps.new ≤ steps.old + 3 }
    {
        Numbers {
            excess: self.pool.word(b, EXCESS, steps),
            last: self.pool.word(b, LAST, steps),
            count: self.pool.word(b, COUNT, steps),
        }
    }

    /// Makes the entry of a node count this. It keeps its place.
    pub(crate) fn set_numbers(&mut self, b: Block, numbers: Numbers)
        requires { ((s : ReqState) × Lays self.old s × IsNode s b.at) }
        ensures { (s : ReqState) (newer : List ReqEntry) (entry : ReqEntry) (older : List ReqEntry) →
            Lays self.old s → StandsAt s b.at newer entry older →
            Lays self.new (with_table s (newer ++ with_numbers numbers entry ∷ older)) }
    {
        write_numbers(&mut self.pool, b, numbers);
    }

    /// Makes the entry of a node the newest one.
    pub(crate) fn touch(&mut self, b: Block)
        requires { ((s : ReqState) × Lays self.old s × IsNode s b.at) }
        ensures { (s : ReqState) (newer : List ReqEntry) (entry : ReqEntry) (older : List ReqEntry) →
            Lays self.old s → StandsAt s b.at newer entry older →
            Lays self.new (with_table s (entry ∷ newer ++ older)) }
    {
        self.table.touch(&mut self.pool, b);
    }

    /// Takes the node of the oldest entry out, and gives its block back.
    pub(crate) fn remove_oldest(&mut self, b: Block)
        requires { ((s : ReqState) × Lays self.old s × ((newer : List ReqEntry) × (entry : ReqEntry) × StandsAt s b.at newer entry [])) }
        ensures { (s : ReqState) (newer : List ReqEntry) (entry : ReqEntry) →
            Lays self.old s → StandsAt s b.at newer entry [] →
            Lays self.new (oldest_left s newer entry) }
    {
        self.table.remove(&mut self.pool, b);
        self.pool.free(b);
        self.entries -= 1;
    }

    /// Makes a newest entry of a key that has none, for the last limit of a request or for an earlier one; none, and
    /// no entry more, exactly where the pool has no block for its node. It then takes no step.
    pub(crate) fn admit<L: Ledger>(
        &mut self,
        hash: u32,
        key: &Key,
        now: u64,
        last: bool,
        steps: &mut Steps<L>,
    ) -> Option<Block>
        requires laid { ((s : ReqState) × Lays self.old s × (entry_of key.now s.table ≡ None)) }
        requires hash { hash ≡ crc32_of key.now }
        requires key { IsKey key.now }
        ensures block { (s : ReqState) → Lays self.old s →
            granted_offset result ≡ (grant s.slab (node_size + length key.now)).0 }
        ensures laid { (s : ReqState) → Lays self.old s → entry_of key.now s.table ≡ None →
            MatchOption result
            (Lays self.new (asked_for s (node_size + length key.now)))
            (λ b. Lays self.new (admitted s key.now now last b.at)) }
        ensures cost { (s : ReqState) → Lays self.old s → entry_of key.now s.table ≡ None →
            MatchOption result
            (steps.new ≤ steps.old)
            (λ _. steps.new ≤ steps.old + (3 * search_cost (length s.table) (length key.now) + 24)) }
    {
        let b = self.pool.alloc(NODE_SIZE + key.len())?;
        write_node(
            &mut self.pool,
            b,
            hash,
            key.bytes(),
            Numbers::fresh(now, last),
        );
        self.table.add(&mut self.pool, b, key, steps);
        self.entries += 1;
        Some(b)
    }
}
