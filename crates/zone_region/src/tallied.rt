ghost use Rattle.std.specs.Prelude.{[], ◌∷◌, ◌≡◌, ◌+◌, ◌<◌, ◌^◌, OnOk, OnErr};
ghost use Rattle.std.specs.HashMap.{IsUnchanged};
ghost use Rattle.zone_region.specs.Entries.{words_in, AddsBlock};

use crate::blocks::{Block, Blocks};
use crate::memory::MemBlocks;
use crate::steps::Steps;
use std::alloc::Global;
use std::sync::ledger::Ledger;
use zone_outside::NoMemory;

/// Blocks in memory beside a tally of the blocks that were added, as a pool keeps statistics beside its blocks.
///
/// The tally is no block's word, so it is the `rest` of these blocks.
#[derive(Drop)]
pub struct TalliedBlocks {
    /// The blocks that are read and written.
    pub blocks: MemBlocks,
    /// How many blocks were added.
    pub added: u64,
}

impl TalliedBlocks {
    /// One block more, of `words` words of 0, and one more in the tally. It fails only where there is no memory for
    /// it, and then nothing changes.
    pub fn add(&mut self, alloc: Global, b: Block, words: u64) -> Result<(), NoMemory>
        requires { self.old.added + 1 < 2 ^ 64 }
        ensures block { let old = words_in self.old.blocks.entries in
            OnOk result (AddsBlock old (words_in self.new.blocks.entries) b.at words) }
        ensures tally { OnOk result (self.new.added ≡ self.old.added + 1) }
        ensures err { OnErr result (IsUnchanged self.old.blocks.entries self.new.blocks.entries) }
        ensures kept { OnErr result (self.new.added ≡ self.old.added) }
    {
        self.blocks.add(alloc, b, words)?;
        self.added += 1;
        Ok(())
    }
}

impl Blocks for TalliedBlocks {
    ghost words = { λ s. words_in s.blocks.entries };

    ghost rest = { λ s. s.added ∷ [] };

    fn word<L: Ledger>(&self, b: Block, i: u64, steps: &mut Steps<L>) -> u64 {
        self.blocks.word(b, i, steps)
    }

    fn set(&mut self, b: Block, i: u64, v: u64) {
        self.blocks.set(b, i, v);
    }
}
