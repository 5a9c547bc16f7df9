ghost use Rattle.std.specs.Prelude.{◌≡◌, ℕ, ◌+◌, ◌<◌, ◌≤◌, ◌↔◌, ◌||◌, length, false, List, IsTrue};
ghost use Rattle.slab_model.specs.declared.runs.Run.{Run};
ghost use Rattle.slab_model.specs.Runs.{is_covered, is_within};
ghost use Rattle.slab_pages.specs.Places.{page_limit, descriptor_word};
ghost use Rattle.slab_pages.specs.Layout.{IsBusy, CanComeBack};
ghost use Rattle.slab_pages.specs.RunSteps.{IsClearOfFree, LaysList};

use crate::descriptors::{next, offset_of, page_of, prev, slab};
use crate::places::FREE_HEAD;
use slab_model::Run;
use zone_region::Region;

// The page is one of the `pages` pages from `first` on.
fn is_in(page: u64, first: u64, pages: u64) -> bool
    ensures { result ≡ is_within page first pages }
{
    first <= page && page - first < pages
}

// The `n` pages from `first` on and those of a run have one in common.
fn meets(first: u64, n: u64, run: Run) -> bool
    ensures { result ≡ (is_within first run.first run.pages || is_within run.first first n) }
{
    is_in(first, run.first, run.pages) || is_in(run.first, first, n)
}

// None of the `n` pages from `first` on is free. It walks the list of free runs once.
pub(crate) fn is_apart(region: &Region, first: u64, n: u64) -> bool
    requires some { 0 < n }
    requires laid { ((count : ℕ) × (runs : List Run) × LaysList count region.now runs) }
    ensures { (count : ℕ) (runs : List Run) → LaysList count region.now runs →
        (IsTrue result ↔ IsClearOfFree runs first (first + n)) }
{
    let mut o = next(region, FREE_HEAD);
    // There are fewer runs than words.
    for step in 0..region.len() {
        if o == FREE_HEAD {
            return true;
        }
        let run = Run {
            first: page_of(o),
            pages: slab(region, o),
        };
        if meets(first, n, run) {
            return false;
        }
        o = next(region, o);
    }
    unreachable!()
}

// The page's descriptor is that of a page that isn't free.
fn is_busy(region: &Region, page: u64) -> bool
    requires small { page < page_limit }
    requires room { descriptor_word page + 2 < length region.now }
    ensures { IsTrue result ↔ IsBusy region.now page }
{
    let o = offset_of(page);
    prev(region, o) % 4 != 0 || (next(region, o) == 0 && slab(region, o) != 0)
}

// The page is free, or its descriptor is that of a page that isn't.
pub(crate) fn is_settled(region: &Region, page: u64) -> bool
    requires { ((count : ℕ) × (runs : List Run) × LaysList count region.now runs × (page < count)) }
    ensures { (count : ℕ) (runs : List Run) → LaysList count region.now runs →
        (IsTrue result ↔ (is_covered page runs ≡ false → IsBusy region.now page)) }
{
    is_busy(region, page) || !is_apart(region, page, 1)
}

// The page before this one, if there is one, is settled.
fn is_settled_before(region: &Region, first: u64) -> bool
    requires { ((count : ℕ) × (runs : List Run) × LaysList count region.now runs × (first ≤ count)) }
    ensures { (count : ℕ) (runs : List Run) → LaysList count region.now runs →
        (IsTrue result ↔ ((page : ℕ) → page + 1 ≡ first → is_covered page runs ≡ false → IsBusy region.now page)) }
{
    if first == 0 {
        return true;
    }
    is_settled(region, first - 1)
}

// This page, if the zone has it, is settled.
fn is_settled_after(region: &Region, count: u64, page: u64) -> bool
    requires { ((runs : List Run) × LaysList count region.now runs × (page ≤ count)) }
    ensures { (runs : List Run) → LaysList count region.now runs →
        (IsTrue result ↔ (page < count → is_covered page runs ≡ false → IsBusy region.now page)) }
{
    if page == count {
        return true;
    }
    is_settled(region, page)
}

// The `n` pages from `first` on can come back to a zone of `count` pages.
pub(crate) fn can_come_back(region: &Region, count: u64, first: u64, n: u64) -> bool
    requires some { 0 < n }
    requires within { first + n ≤ count }
    requires laid { ((runs : List Run) × LaysList count region.now runs) }
    ensures { let run : Run = record { first = first; pages = n } in
        (runs : List Run) → LaysList count region.now runs → (IsTrue result ↔ CanComeBack count region.now runs run) }
{
    if !is_apart(region, first, n) {
        return false;
    }
    if !is_settled_before(region, first) {
        return false;
    }
    is_settled_after(region, count, first + n)
}
