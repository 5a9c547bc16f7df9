ghost use Rattle.std.specs.Prelude.{◌≡◌, ◌+◌, ◌<◌, ◌/◌, length, false, List, Some, None, MatchOption, IfSome, IfNone, IfOk, IsTrue, ◌↔◌, slice_index, slice_set};
ghost use Rattle.slab_model.specs.declared.runs.Run.{Run};
ghost use Rattle.slab_model.specs.Runs.{first_fit, give_run, page_total, take_run};
ghost use Rattle.slab_pages.specs.Shapes.{shape_in};
ghost use Rattle.slab_pages.specs.Places.{Image, KeepsOthers};
ghost use Rattle.slab_pages.specs.Layout.{HasUsedRun, LaysRuns, MayPut, MaySet};
ghost use Rattle.slab_pages.specs.SlabLayout.{IsOpened};

use crate::checks::can_come_back;
use crate::geometry::Geometry;
use crate::opening::prepare;
use crate::places::PFREE_WORD;
use crate::runs::{add_run, find_fit, give_pages, take_pages};
use std::alloc::Global;
use std::marker::Model;
use zone_outside::NoMemory;
use zone_region::Region;

/// A page of a zone, by its number from 0.
#[derive(Clone, Copy, Debug, PartialEq, Eq)]
pub struct Page {
    /// The first page after the descriptors is number 0, and begins at the zone's `start`.
    pub number: u64,
}

/// The words of a zone, with its free pages kept in runs, after `ngx_slab_alloc_pages` and
/// `ngx_slab_free_pages`.
///
/// Contracts see the zone's shape and words. The words always lay out one sound list of free runs (`LaysRuns`),
/// which each call reads and changes as a list.
#[derive(Drop)]
pub struct Pages {
    region: Region,
    geometry: Geometry,
}

impl Model for Pages {
    ghost use Rattle.std.specs.Prelude.{List};
    ghost use Rattle.slab_model.specs.declared.runs.Run.{Run};
    ghost use Rattle.slab_pages.specs.Shapes.{shape_in};
    ghost use Rattle.slab_pages.specs.Places.{Image};
    ghost use Rattle.slab_pages.specs.Layout.{LaysRuns};

    ghost Value = { Image };

    ghost view = { λ p. record { shape = shape_in p.geometry; words = p.region } };

    ghost invariant = { λ p. ((runs : List Run) × LaysRuns (record { shape = shape_in p.geometry; words = p.region }) runs) };
}

impl Pages {
    /// A fresh zone: all pages are free, in one run, and the header is written.
    ///
    /// `NoMemory` comes where there is no memory for the zone's bytes, and for nothing else.
    pub fn open(alloc: Global, g: Geometry) -> Result<Pages, NoMemory>
        ensures { IfOk result (λ pages. IsOpened (shape_in g) pages) }
    {
        let mut region = Region::zeroed(alloc, g.bytes / 8)?;
        prepare(&mut region, &g);
        add_run(&mut region, 0, g.pages);
        region.store(PFREE_WORD, g.pages);
        Ok(Pages {
            region,
            geometry: g,
        })
    }

    /// How the zone is cut.
    pub fn geometry(&self) -> Geometry
        ensures { shape_in result ≡ self.now.shape }
    {
        self.geometry
    }

    /// The number of free pages. The words always lay out one list of free runs, and only one, whose pages these are.
    pub fn free_count(&self) -> u64
        ensures laid { ((runs : List Run) × LaysRuns self.now runs) }
        ensures only { (xs ys : List Run) → LaysRuns self.now xs → LaysRuns self.now ys → xs ≡ ys }
        ensures count { (runs : List Run) → LaysRuns self.now runs → result ≡ page_total runs }
    {
        self.region.load(PFREE_WORD)
    }

    /// The number of the zone's words.
    pub fn word_count(&self) -> u64
        ensures { result ≡ length self.now.words }
    {
        self.region.len()
    }

    /// Word `w` of the zone.
    pub fn word(&self, w: u64) -> u64
        requires { w < length self.now.words }
        ensures { result ≡ slice_index self.now.words w }
    {
        self.region.load(w)
    }

    /// Makes word `w` be `v`, and leaves every other word. No free run may be kept in it: it is none of the header
    /// words of the page list, and none of the descriptor of a free page.
    pub fn set_word(&mut self, w: u64, v: u64)
        requires { MaySet self.old w }
        ensures set { self.new ≡ record { shape = self.old.shape; words = slice_set self.old.words w v } }
        ensures laid { (runs : List Run) → LaysRuns self.old runs → LaysRuns self.new runs }
    {
        self.region.store(w, v);
    }

    /// Takes `n` pages, at least 1, from the front of the first run in list order that has as many.
    /// What is left of the run stands in its place. None where no free run has `n` pages.
    ///
    /// It takes time linear in the number of free runs and of pages taken.
    pub fn take(&mut self, n: u64) -> Option<Page>
        requires { 0 < n }
        ensures page { (runs : List Run) → LaysRuns self.old runs →
            MatchOption result (first_fit n runs ≡ None) (λ p. first_fit n runs ≡ Some p.number) }
        ensures laid { (runs : List Run) → LaysRuns self.old runs → LaysRuns self.new (take_run n runs) }
        ensures used { IfSome result (λ p. HasUsedRun self.new.words p.number n) }
        ensures kept { (runs : List Run) → LaysRuns self.old runs → KeepsOthers runs self.old.words self.new.words }
        ensures shape { self.new.shape ≡ self.old.shape }
        ensures none { IfNone result (self.new ≡ self.old) }
    {
        match find_fit(&self.region, n) {
            None => None,
            Some(first) => {
                take_pages(&mut self.region, first, n);
                Some(Page { number: first })
            }
        }
    }

    /// Whether the `n` pages from `p` on can be given back: there are such pages, none of them is free, and the
    /// descriptors beside them are those of a free run or of pages that aren't free.
    ///
    /// It walks the list of free runs at most three times: for the pages, and for the page on each side of them.
    pub fn can_put(&self, p: Page, n: u64) -> bool
        ensures { IsTrue result ↔ MayPut self.now (record { first = p.number; pages = n }) }
    {
        let pages = self.geometry.pages;
        if n == 0 || p.number >= pages || n > pages - p.number {
            return false;
        }
        can_come_back(&self.region, pages, p.number, n)
    }

    /// Gives back the `n` pages from `p` on. They are merged with the free run right after them and with the one
    /// right before them, and the merged run goes to the head of the list.
    ///
    /// It asks that there are such pages, at least one, that none of them is free, and that a page right beside
    /// them that isn't free has the descriptor of one; `can_put` is the test. It doesn't ask that they are a whole
    /// run as `take` gave it: a caller that gives back a part of one has to see to the descriptors of the rest.
    ///
    /// It reads the descriptors next to the pages and doesn't walk the list, so its time doesn't grow with it.
    pub fn put(&mut self, p: Page, n: u64)
        requires { MayPut self.old (record { first = p.number; pages = n }) }
        ensures laid { let run : Run = record { first = p.number; pages = n } in
            (runs : List Run) → LaysRuns self.old runs → LaysRuns self.new (give_run run runs) }
        ensures kept { let run : Run = record { first = p.number; pages = n } in
            (runs : List Run) → LaysRuns self.old runs → KeepsOthers (give_run run runs) self.old.words self.new.words }
        ensures shape { self.new.shape ≡ self.old.shape }
    {
        give_pages(&mut self.region, self.geometry.pages, p.number, n);
    }
}
