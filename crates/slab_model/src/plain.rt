ghost use Rattle.std.specs.Prelude.{◌≡◌, ◌<◌, ◌≤◌, [], replicate, IfOk, OnOk, OnErr};
ghost use Rattle.slab_model.specs.Geometry.{IsInLimits, shape_of, least_zone, greatest_zone, class_count as class_count_of};
ghost use Rattle.slab_model.specs.Inside.{slab_of};
ghost use Rattle.slab_model.specs.State.{Slab, classes_in, no_stat, fresh_slab, stat_of};
ghost use Rattle.slab_model.specs.Blocks.{IsLive, live_bytes as live_bytes_of};
ghost use Rattle.slab_model.specs.Counting.{free_pages as free_pages_of};
ghost use Rattle.slab_model.specs.Grant.{grant as granted, granted_offset};
ghost use Rattle.slab_model.specs.Return.{give_back as given_back};
ghost use Rattle.slab_model.specs.Soundness.{IsSound};

use crate::geometry::{PAGE_SHIFT, class_count, page_count};
use crate::grants::grant;
use crate::live::live_bytes;
use crate::numbers::Numbers;
use crate::pages::free_pages;
use crate::parts::Parts;
use crate::returns::give_back;
use crate::runs::{Run, page_total};
use crate::shape::Shape;
use crate::stat::Stat;
use std::alloc::Global;
use std::marker::Model;
use zone_outside::NoMemory;
use zone_region::Block;

/// The slab pool of one zone, kept in lists and without the zone's words.
#[derive(Debug, Drop)]
pub struct PlainSlab {
    parts: Parts,
}

impl Model for PlainSlab {
    ghost use Rattle.slab_model.specs.State.{Slab};
    ghost use Rattle.slab_model.specs.Soundness.{IsSound};
    ghost use Rattle.slab_model.specs.Inside.{slab_of};

    ghost Value = { Slab };

    ghost view = { λ s. slab_of s.parts };

    ghost invariant = { λ s. IsSound (slab_of s.parts) };
}

/// An empty list for each class.
fn no_lists(alloc: Global, shape: Shape) -> Result<Vec<Numbers>, NoMemory>
    requires { IsInLimits shape }
    ensures { IfOk result (λ v. v.items ≡ replicate (class_count_of shape) []) }
{
    let count = class_count(shape);
    let mut lists = Vec::with_capacity(alloc, count as usize)?;
    for _class in 0..count {
        lists.push(Numbers::empty(alloc))?;
    }
    Ok(lists)
}

/// Statistics that have counted nothing, for each class.
fn no_stats(alloc: Global, shape: Shape) -> Result<Vec<Stat>, NoMemory>
    requires { IsInLimits shape }
    ensures { IfOk result (λ v. v.items ≡ replicate (class_count_of shape) no_stat) }
{
    let count = class_count(shape);
    let mut stats = Vec::with_capacity(alloc, count as usize)?;
    for _class in 0..count {
        stats.push(Stat {
            total: 0,
            used: 0,
            reqs: 0,
            fails: 0,
        })?;
    }
    Ok(stats)
}

/// The lists of a fresh pool.
fn fresh_parts(alloc: Global, shape: Shape) -> Result<Parts, NoMemory>
    requires { IsInLimits shape }
    ensures { IfOk result (λ p. slab_of p ≡ fresh_slab shape) }
{
    let count = page_count(shape);
    let pages = free_pages(alloc, count)?;
    let mut runs = Vec::with_capacity(alloc, 1)?;
    runs.push(Run {
        first: 0,
        pages: count,
    })?;
    let lists = no_lists(alloc, shape)?;
    let stats = no_stats(alloc, shape)?;
    Ok(Parts {
        shape,
        pages,
        runs,
        lists,
        stats,
    })
}

impl PlainSlab {
    /// The pool of a zone of `bytes` bytes, 32,768 to 67,108,864: all pages are one free run.
    ///
    /// `NoMemory` comes where there is no memory for its lists, and for nothing else. No size is refused here.
    pub fn open(alloc: Global, bytes: u64) -> Result<PlainSlab, NoMemory>
        requires large { least_zone (shape_of bytes) ≤ bytes }
        requires small { bytes ≤ greatest_zone }
        ensures { IfOk result (λ s. s ≡ fresh_slab (shape_of bytes)) }
    {
        let shape = Shape {
            bytes,
            page_shift: PAGE_SHIFT,
        };
        let parts = fresh_parts(alloc, shape)?;
        Ok(PlainSlab { parts })
    }

    /// Grants a block of at least `size` bytes (`ngx_slab_alloc`), or none where none fits.
    /// Where memory is wanting, the slab is as before.
    pub fn grant(&mut self, alloc: Global, size: u64) -> Result<Option<Block>, NoMemory>
        requires some { 0 < size }
        requires small { size ≤ greatest_zone }
        ensures block { IfOk result (λ b. granted_offset b ≡ (granted self.old size).0) }
        ensures slab { OnOk result (self.new ≡ (granted self.old size).1) }
        ensures err { OnErr result (self.new ≡ self.old) }
        ensures sound { IsSound self.new }
    {
        grant(&mut self.parts, alloc, size)
    }

    /// Gives a live block back (`ngx_slab_free`). Where memory is wanting, the slab is as before.
    pub fn give_back(&mut self, alloc: Global, block: Block) -> Result<(), NoMemory>
        requires { IsLive self.old block.at }
        ensures slab { OnOk result (self.new ≡ given_back self.old block.at) }
        ensures err { OnErr result (self.new ≡ self.old) }
        ensures sound { IsSound self.new }
    {
        give_back(&mut self.parts, alloc, block.at)
    }

    /// The bytes of the live block that begins there, 0 where none does.
    pub fn live_bytes(&self, block: Block) -> u64
        ensures { result ≡ live_bytes_of self.now block.at }
    {
        live_bytes(&self.parts, block.at)
    }

    /// The number of free pages.
    pub fn free_pages(&self) -> u64
        ensures { result ≡ free_pages_of self.now }
    {
        page_total(&self.parts.runs)
    }

    /// The statistics of a class.
    pub fn stat(&self, class: u32) -> Stat
        requires { class < classes_in self.now }
        ensures { result ≡ stat_of self.now class }
    {
        self.parts.stats[class as usize]
    }
}
