ghost use Rattle.std.specs.Prelude.{◌≡◌, ◌≢◌, ◌⊎◌, ℕ, ◌+◌, ◌*◌, ◌-◌, ◌/◌, ◌%◌, ◌<◌, ◌≤◌, ◌↔◌, length, List, ◌∷◌, Some, MatchOption, IsTrue, false, slice_index};
ghost use Rattle.slab_model.specs.declared.runs.Run.{Run};
ghost use Rattle.slab_model.specs.Runs.{first_fit, give_run, is_covered, page_total, pages_before, pages_from, take_run};
ghost use Rattle.slab_pages.specs.Places.{page_limit, descriptor_word, descriptor, next_at, pfree_word, prev_at};
ghost use Rattle.slab_pages.specs.Layout.{CanComeBack};
ghost use Rattle.slab_pages.specs.RunSteps.{Detaches, GivesRun, IsAfter, IsBefore, IsCleared, LaysList, MarksUsed, Relists, TakesRun, Unlinks, start_at};

use crate::descriptors::{begin_run, fill, link, next, offset_of, page_of, prev, set_words, slab};
use crate::places::{FREE_HEAD, PFREE_WORD};
use zone_region::Region;

/// Marks the number of pages in the first descriptor of a used run.
const USED: u64 = 1 << 63;

/// The slab word of the later pages of a used run.
const LATER: u64 = u64::MAX;

// The first page of the first run in list order that has at least `n` pages.
pub(crate) fn find_fit(region: &Region, n: u64) -> Option<u64>
    requires { ((count : ℕ) × (runs : List Run) × LaysList count region.now runs) }
    ensures { (count : ℕ) (runs : List Run) → LaysList count region.now runs → result ≡ first_fit n runs }
{
    let mut o = next(region, FREE_HEAD);
    // There are fewer runs than words.
    for step in 0..region.len() {
        if o == FREE_HEAD {
            return None;
        }
        if slab(region, o) >= n {
            return Some(page_of(o));
        }
        o = next(region, o);
    }
    unreachable!()
}

// Takes the run that begins at page `first` out of the list.
fn unlink(region: &mut Region, first: u64)
    requires { ((count : ℕ) × (runs : List Run) × LaysList count region.old runs × (0 < pages_from first runs)) }
    ensures { (count : ℕ) (runs : List Run) → LaysList count region.old runs → 0 < pages_from first runs →
        Unlinks count runs region.old region.new first }
{
    let o = offset_of(first);
    let before = prev(region, o);
    let after = next(region, o);
    link(region, before, after);
}

// Puts what is left of a run, once its first `n` pages are taken, in its place in the list.
fn shorten(region: &mut Region, first: u64, n: u64, pages: u64)
    requires some { 0 < n }
    requires laid { ((count : ℕ) × (runs : List Run) × LaysList count region.old runs ×
        (first_fit n runs ≡ Some first) × (pages ≡ pages_from first runs) × (n < pages)) }
    ensures { (count : ℕ) (runs : List Run) → LaysList count region.old runs →
        first_fit n runs ≡ Some first → pages ≡ pages_from first runs → n < pages →
        Relists count runs (take_run n runs) region.old region.new }
{
    let o = offset_of(first);
    let before = prev(region, o);
    let after = next(region, o);
    let rest = offset_of(first + n);
    begin_run(region, first + n, pages - n);
    link(region, rest, after);
    link(region, before, rest);
}

// Takes `n` pages off the front of the run that begins at page `first`, the first fit.
fn cut(region: &mut Region, first: u64, n: u64)
    requires some { 0 < n }
    requires laid { ((count : ℕ) × (runs : List Run) × LaysList count region.old runs × (first_fit n runs ≡ Some first)) }
    ensures { (count : ℕ) (runs : List Run) → LaysList count region.old runs → first_fit n runs ≡ Some first →
        Relists count runs (take_run n runs) region.old region.new }
{
    let pages = slab(region, offset_of(first));
    if pages == n {
        unlink(region, first);
    } else {
        shorten(region, first, n, pages);
    }
}

// Writes the descriptors of a used run.
fn mark_used(region: &mut Region, first: u64, n: u64)
    requires some { 0 < n }
    requires small { first + n ≤ page_limit }
    requires room { descriptor_word (first + n) ≤ length region.old }
    ensures { MarksUsed region.old region.new first n }
{
    set_words(region, offset_of(first), n + USED, 0, 0);
    fill(region, first + 1, n - 1, LATER);
}

// Takes the run that begins at page `first` out of the list, clears its descriptors, and gives its pages.
fn detach(region: &mut Region, first: u64) -> u64
    requires { ((count : ℕ) × (runs : List Run) × LaysList count region.old runs × (0 < pages_from first runs)) }
    ensures { (count : ℕ) (runs : List Run) → LaysList count region.old runs → 0 < pages_from first runs →
        Detaches count runs region.old region.new first result }
{
    let o = offset_of(first);
    let pages = slab(region, o);
    unlink(region, first);
    set_words(region, o, 0, 0, 0);
    set_words(region, offset_of(first + pages - 1), 0, 0, 0);
    pages
}

// A free run begins at this page, if one that isn't free ends before it.
fn is_first(region: &Region, page: u64) -> bool
    requires small { page < page_limit }
    requires room { descriptor_word page + 2 < length region.now }
    ensures { IsTrue result ↔ ((prev_at region.now (descriptor page) % 4 ≡ 0) × (next_at region.now (descriptor page) ≢ 0)) }
{
    let o = offset_of(page);
    prev(region, o) % 4 == 0 && next(region, o) != 0
}

// Detaches the run that begins at this page, where one does, and gives its pages.
fn detach_after(region: &mut Region, page: u64, count: u64) -> u64
    requires { ((runs : List Run) × LaysList count region.old runs × IsAfter count region.old runs page) }
    ensures { (runs : List Run) → LaysList count region.old runs → IsAfter count region.old runs page →
        Detaches count runs region.old region.new page result }
{
    if page == count {
        return 0;
    }
    if is_first(region, page) {
        detach(region, page)
    } else {
        0
    }
}

// The first descriptor of the run whose last one is at `o`.
fn start_of_run(region: &Region, o: u64) -> u64
    requires { o / 8 + 2 < length region.now }
    ensures { result ≡ start_at region.now o }
{
    if slab(region, o) == 0 {
        prev(region, o)
    } else {
        o
    }
}

// The first page of the free run that ends right before this page, none where the page before isn't free.
fn run_before(region: &Region, page: u64) -> Option<u64>
    requires { ((count : ℕ) × (runs : List Run) × LaysList count region.now runs × IsBefore count region.now runs page) }
    ensures { (count : ℕ) (runs : List Run) → LaysList count region.now runs → IsBefore count region.now runs page →
        MatchOption result
        (pages_before page runs ≡ 0)
        (λ first. (0 < pages_before page runs) × (first + pages_before page runs ≡ page)) }
{
    let last = offset_of(page - 1);
    if prev(region, last) % 4 != 0 {
        return None;
    }
    let first = start_of_run(region, last);
    if next(region, first) == 0 {
        return None;
    }
    Some(page_of(first))
}

// Detaches the run that ends right before this page, where one does, and gives its pages.
fn detach_before(region: &mut Region, page: u64) -> u64
    requires { ((count : ℕ) × (runs : List Run) × LaysList count region.old runs × ((page ≡ 0) ⊎ IsBefore count region.old runs page)) }
    ensures { (count : ℕ) (runs : List Run) → LaysList count region.old runs → (page ≡ 0) ⊎ IsBefore count region.old runs page →
        is_covered page runs ≡ false →
        (result ≡ pages_before page runs) × Detaches count runs region.old region.new (page - result) result }
{
    if page == 0 {
        return 0;
    }
    match run_before(region, page) {
        None => 0,
        Some(first) => detach(region, first),
    }
}

// Puts a run whose descriptors are cleared at the head of the list.
pub(crate) fn add_run(region: &mut Region, first: u64, pages: u64)
    requires { ((count : ℕ) × (runs : List Run) × LaysList count region.old runs ×
        IsCleared count region.old runs (record { first = first; pages = pages })) }
    ensures { let run : Run = record { first = first; pages = pages } in
        (count : ℕ) (runs : List Run) → LaysList count region.old runs → IsCleared count region.old runs run →
        Relists count (run ∷ runs) (run ∷ runs) region.old region.new }
{
    let o = offset_of(first);
    let head = next(region, FREE_HEAD);
    begin_run(region, first, pages);
    link(region, o, head);
    link(region, FREE_HEAD, o);
}

// Takes `n` pages from the run that begins at page `first`, the first fit, and counts them.
pub(crate) fn take_pages(region: &mut Region, first: u64, n: u64)
    requires some { 0 < n }
    requires laid { ((count : ℕ) × (runs : List Run) × LaysList count region.old runs × (first_fit n runs ≡ Some first) ×
        (slice_index region.old pfree_word ≡ page_total runs)) }
    ensures { (count : ℕ) (runs : List Run) → LaysList count region.old runs → first_fit n runs ≡ Some first →
        slice_index region.old pfree_word ≡ page_total runs →
        TakesRun count runs region.old region.new first n }
{
    cut(region, first, n);
    mark_used(region, first, n);
    let free = region.load(PFREE_WORD);
    region.store(PFREE_WORD, free - n);
}

// Gives `n` pages from page `first` on back to a zone of `count` pages, and counts them.
pub(crate) fn give_pages(region: &mut Region, count: u64, first: u64, n: u64)
    requires { let run : Run = record { first = first; pages = n } in
        ((runs : List Run) × LaysList count region.old runs × CanComeBack count region.old runs run ×
        (slice_index region.old pfree_word ≡ page_total runs)) }
    ensures { let run : Run = record { first = first; pages = n } in
        (runs : List Run) → LaysList count region.old runs → CanComeBack count region.old runs run →
        slice_index region.old pfree_word ≡ page_total runs →
        GivesRun count runs region.old region.new run }
{
    fill(region, first, n, 0);
    let after = detach_after(region, first + n, count);
    let before = detach_before(region, first);
    add_run(region, first - before, before + n + after);
    let free = region.load(PFREE_WORD);
    region.store(PFREE_WORD, free + n);
}
