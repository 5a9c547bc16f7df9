ghost use Rattle.std.specs.Prelude.{◌≡◌, []};
ghost use Rattle.zone_region.specs.Entries.{words_in};

use crate::blocks::{Block, Blocks};
use crate::memory::MemBlocks;
use crate::steps::Steps;
use std::sync::atomic::{AtomicU64, Ordering};
use std::sync::ledger::Ledger;

/// Blocks in memory that count the calls of `word` themselves, for tests of the steps that a call counts.
///
/// `word` takes `&self`, so the count stands in an atomic word. Contracts say nothing of it.
#[derive(Drop)]
pub struct CountedBlocks {
    /// The blocks that are read and written.
    pub blocks: MemBlocks,
    reads: AtomicU64,
}

impl CountedBlocks {
    /// These blocks, not yet read.
    pub fn new(blocks: MemBlocks) -> Self
        ensures { result.blocks ≡ blocks }
    {
        CountedBlocks {
            blocks,
            reads: AtomicU64::new(0),
        }
    }

    /// How often `word` was called. The count goes round at 2^64.
    pub fn reads(&self) -> u64 {
        self.reads.load(Ordering::SeqCst)
    }
}

impl Blocks for CountedBlocks {
    ghost words = { λ s. words_in s.blocks.entries };

    ghost rest = { λ _. [] };

    fn word<L: Ledger>(&self, b: Block, i: u64, steps: &mut Steps<L>) -> u64 {
        self.reads.fetch_add(1, Ordering::SeqCst);
        self.blocks.word(b, i, steps)
    }

    fn set(&mut self, b: Block, i: u64, v: u64) {
        self.blocks.set(b, i, v);
    }
}
