ghost use Rattle.std.specs.Prelude.{◌≡◌, ℕ, ◌+◌, ◌*◌, ◌/◌, ◌<◌, ◌≤◌, ◌↔◌, [], length, replicate, slice_index, slice_set, IfOk, IfSome, IsOk, MatchOption, MatchResult, OnErr, OnOk, Some, None};
ghost use Rattle.zone_region.specs.Words.{SetsWord, word_at};
ghost use Rattle.slab_model.specs.Geometry.{greatest_zone, class_count, pages_of};
ghost use Rattle.slab_model.specs.State.{Slab, fresh_slab, stat_of};
ghost use Rattle.slab_model.specs.Counting.{free_pages as free_pages_of};
ghost use Rattle.slab_model.specs.Grant.{grant as granted, block_bytes, granted_offset};
ghost use Rattle.slab_model.specs.Return.{give_back as given_back};
ghost use Rattle.slab_model.specs.Blocks.{IsLive};
ghost use Rattle.slab_pages.specs.Shapes.{shape_in};
ghost use Rattle.slab_pages.specs.Places.{log_ctx_word, data_word};
ghost use Rattle.slab_pages.specs.SlabLayout.{IsOpened};
ghost use Rattle.slab_pool.specs.Pool.{LaysPool};
ghost use Rattle.slab_pool.specs.Refusals.{fault_in, refusal as refusal_of};
ghost use Rattle.slab_pool.specs.Live.{block_words, rest_of, KeepsPages, KeepsPagesBut};
ghost use Rattle.zone_region.specs.Granting.{GrantsWords, ReturnsWords, SameBlockWords};

use crate::clear::clear_block;
use crate::fault::FreeFault;
use crate::grants::grant;
use crate::refusals::refusal;
use crate::returns::give_back;
use crate::stats::stat;
use slab_model::Stat;
use slab_pages::{DATA_WORD, Geometry, LOG_CTX_WORD, Pages};
use std::alloc::Global;
use std::marker::Model;
use std::sync::ledger::Ledger;
use zone_outside::NoMemory;
use zone_region::{Block, Blocks, Steps};

/// The slab pool of a zone, kept in the zone's words (`ngx_slab_pool_t`).
///
/// Contracts see the zone's shape and words. The words always lay out one sound slab, and only one (`LaysPool`), which
/// each call reads and changes as the slab's model. As `Blocks` the pool is seen by the words of its live blocks,
/// which the descriptors and bits of their pages tell (`block_words`), and by all else (`rest_of`).
#[derive(Drop)]
pub struct Pool {
    pages: Pages,
}

impl Model for Pool {
    ghost use Rattle.slab_model.specs.State.{Slab};
    ghost use Rattle.slab_pages.specs.Places.{Image};
    ghost use Rattle.slab_pool.specs.Pool.{LaysPool};

    ghost Value = { Image };

    ghost view = { λ p. p.pages };

    ghost invariant = { λ p. ((slab : Slab) × LaysPool p.pages slab) };
}

impl Pool {
    /// An empty pool: all pages are one free run, no block is live, and nothing was counted.
    ///
    /// `NoMemory` comes where there is no memory for the zone's bytes, and for nothing else.
    pub fn open(alloc: Global, g: Geometry) -> Result<Pool, NoMemory>
        ensures opened { IfOk result (IsOpened (shape_in g)) }
        ensures laid { IfOk result (λ pool. LaysPool pool (fresh_slab (shape_in g))) }
        ensures empty { IfOk result (λ pool. (at : ℕ) → block_words pool at ≡ []) }
    {
        Ok(Pool {
            pages: Pages::open(alloc, g)?,
        })
    }

    /// The number of free pages. The words always lay out one slab, and only one, whose free pages these are.
    pub fn free_pages(&self) -> u64
        ensures laid { ((slab : Slab) × LaysPool self.now slab) }
        ensures only { (a b : Slab) → LaysPool self.now a → LaysPool self.now b → a ≡ b }
        ensures count { (slab : Slab) → LaysPool self.now slab → result ≡ free_pages_of slab }
    {
        self.pages.free_count()
    }

    /// The number of the zone's pages.
    pub fn pages(&self) -> u64
        ensures { result ≡ pages_of self.now.shape }
    {
        self.pages.geometry().pages
    }

    /// The number of the zone's words.
    pub fn word_count(&self) -> u64
        ensures { result ≡ length self.now.words }
    {
        self.pages.word_count()
    }

    /// The statistics of a class, which is below 9 (`ngx_slab_stat_t`).
    pub fn stats(&self, class: u32) -> Stat
        requires { class < class_count self.now.shape }
        ensures { (slab : Slab) → LaysPool self.now slab → result ≡ stat_of slab class }
    {
        stat(&self.pages, class)
    }

    /// Word `w` of the zone, of a block or not.
    pub fn raw(&self, w: u64) -> u64
        requires { w < length self.now.words }
        ensures { result ≡ slice_index self.now.words w }
    {
        self.pages.word(w)
    }

    /// Grants a block of at least `size` bytes, 1 to 67,108,864 (`ngx_slab_alloc`). Up to 2,048 bytes it is the lowest free
    /// block in the first page of the size's class that has one, or the first block of a free page. More are whole pages,
    /// from the first free run that has as many. None exactly where the slab has no block for it, and then no block changes.
    pub fn alloc(&mut self, size: u64) -> Option<Block>
        requires some { 0 < size }
        requires small { size ≤ greatest_zone }
        ensures block { (slab : Slab) → LaysPool self.old slab → granted_offset result ≡ (granted slab size).0 }
        ensures laid { (slab : Slab) → LaysPool self.old slab → LaysPool self.new (granted slab size).1 }
        ensures words { (slab : Slab) → LaysPool self.old slab →
            MatchOption result
            (SameBlockWords (block_words self.old) (block_words self.new))
            (λ b. GrantsWords (block_words self.old) (block_words self.new) b.at (block_bytes slab size / 8)) }
        ensures known { ((slab : Slab) × LaysPool self.old slab) }
        ensures room { IfSome result (λ b. size ≤ 8 * length (block_words self.new b.at)) }
        ensures kept { KeepsPages self.old self.new }
    {
        grant(&mut self.pages, size)
    }

    /// The same with all words of the block set to 0 (`ngx_slab_calloc`).
    pub fn calloc(&mut self, size: u64) -> Option<Block>
        requires some { 0 < size }
        requires small { size ≤ greatest_zone }
        ensures block { (slab : Slab) → LaysPool self.old slab → granted_offset result ≡ (granted slab size).0 }
        ensures laid { (slab : Slab) → LaysPool self.old slab → LaysPool self.new (granted slab size).1 }
        ensures words { (slab : Slab) → LaysPool self.old slab →
            MatchOption result
            (SameBlockWords (block_words self.old) (block_words self.new))
            (λ b. GrantsWords (block_words self.old) (block_words self.new) b.at (block_bytes slab size / 8)) }
        ensures known { ((slab : Slab) × LaysPool self.old slab) }
        ensures room { IfSome result (λ b. size ≤ 8 * length (block_words self.new b.at)) }
        ensures zeros { (slab : Slab) → LaysPool self.old slab →
            IfSome result (λ b. block_words self.new b.at ≡ replicate (block_bytes slab size / 8) 0) }
        ensures kept { (slab : Slab) → LaysPool self.old slab →
            MatchOption result
            (KeepsPages self.old self.new)
            (λ b. KeepsPagesBut self.old self.new b.at (block_bytes slab size / 8)) }
    {
        match grant(&mut self.pages, size) {
            None => None,
            Some(block) => {
                clear_block(&mut self.pages, block, size);
                Some(block)
            }
        }
    }

    /// Gives a live block back (`ngx_slab_free`). A page that was full comes to the head of its class's list, and a page
    /// without a live block to the free runs.
    pub fn free(&mut self, b: Block)
        requires { 0 < length (block_words self.old b.at) }
        ensures laid { (slab : Slab) → LaysPool self.old slab → LaysPool self.new (given_back slab b.at) }
        ensures words { ReturnsWords (block_words self.old) (block_words self.new) b.at }
        ensures kept { KeepsPages self.old self.new }
    {
        give_back(&mut self.pages, b.at);
    }

    /// Gives back the live block that begins at this byte offset, and refuses an offset where none begins. The refusals
    /// are tried in this order, and after one the pool is as before:
    ///
    /// - `Outside`: the offset is before the first page or behind the last one.
    /// - `WrongChunk`, in a page of a class: no block of its size begins there, or it is one of those that hold the
    ///   page's own bits.
    /// - `AlreadyFree`, in a page of a class: that block isn't used.
    /// - `WrongChunk`, in another page: the page doesn't begin there.
    /// - `PageAlreadyFree`, in another page: the page is free.
    /// - `WrongPage`, in another page: the page is a later page of a used run.
    ///
    /// They are those of `ngx_slab_free_locked`: outside of pool, wrong chunk, chunk is already free, page is already
    /// free and pointer to wrong page.
    pub fn try_free(&mut self, offset: u64) -> Result<(), FreeFault>
        ensures refused { (slab : Slab) → LaysPool self.old slab → fault_in result ≡ refusal_of slab offset }
        ensures live { (slab : Slab) → LaysPool self.old slab → IsOk result ↔ IsLive slab offset }
        ensures laid { (slab : Slab) → LaysPool self.old slab → OnOk result (LaysPool self.new (given_back slab offset)) }
        ensures words { MatchResult result
            (λ _. ReturnsWords (block_words self.old) (block_words self.new) offset)
            (λ _. SameBlockWords (block_words self.old) (block_words self.new)) }
        ensures kept { KeepsPages self.old self.new }
        ensures unchanged { OnErr result (self.new ≡ self.old) }
    {
        match refusal(&self.pages, offset) {
            Some(fault) => Err(fault),
            None => {
                give_back(&mut self.pages, offset);
                Ok(())
            }
        }
    }

    /// Names the context and the name block of the zone in the header's words `data` and `log_ctx`, and changes no
    /// other word. Both blocks are live.
    pub fn set_root(&mut self, context: Block, name: Block)
        requires context { 0 < length (block_words self.old context.at) }
        requires name { 0 < length (block_words self.old name.at) }
        ensures set { self.new ≡ record { shape = self.old.shape; words = slice_set (slice_set self.old.words log_ctx_word name.at) data_word context.at } }
        ensures laid { (slab : Slab) → LaysPool self.old slab → LaysPool self.new slab }
        ensures words { SameBlockWords (block_words self.old) (block_words self.new) }
    {
        self.pages.set_word(LOG_CTX_WORD, name.at);
        self.pages.set_word(DATA_WORD, context.at);
    }
}

impl Blocks for Pool {
    ghost words = { block_words };

    ghost rest = { rest_of };

    fn word<L: Ledger>(&self, b: Block, i: u64, steps: &mut Steps<L>) -> u64 {
        steps.tick();
        self.pages.word(b.at / 8 + i)
    }

    fn set(&mut self, b: Block, i: u64, v: u64)
        requires { i < length (block_words self.old b.at) }
        ensures sets { SetsWord (block_words self.old) (block_words self.new) b.at i v }
        ensures rest { rest_of self.new ≡ rest_of self.old }
        ensures image { self.new ≡ record { shape = self.old.shape; words = slice_set self.old.words (b.at / 8 + i) v } }
    {
        self.pages.set_word(b.at / 8 + i, v);
    }
}
