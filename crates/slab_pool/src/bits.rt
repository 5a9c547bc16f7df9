ghost use Rattle.std.specs.Prelude.{◌≡◌, ℕ, ◌+◌, ◌*◌, ◌/◌, ◌<◌, ◌≤◌, [], List, IsTrue, ◌↔◌};
ghost use Rattle.slab_model.specs.Geometry.{IsInLimits, class_count, blocks_in_page as blocks_of, first_index as first_of, kind_of, small};
ghost use Rattle.slab_model.specs.Numbers.{is_member, with_number, without};
ghost use Rattle.slab_pages.specs.Places.{bitmap_words as bitmap_words_of, page_word as page_word_of};
ghost use Rattle.slab_pages.specs.SlabLayout.{LaysBits};
ghost use Rattle.slab_pool.specs.Bits.{bits_word, bits_limit, HasShift, IsBitsWord, HasBits};
ghost use Rattle.slab_pool.specs.WordBits.{IsLowestClear};
ghost use Rattle.slab_pool.specs.PoolSteps.{IsTaken, KeepsRuns, ChangesBits, SetsBits, IsFirstUnused};

use crate::places::{page_offset, shape_of, slab};
use slab_model::{Shape, blocks_in_page, first_index};
use slab_pages::{Pages, offset_of};

/// The class of 64 blocks in a page: the classes before it are small, those behind it big.
pub(crate) const EXACT: u32 = 3;

// The words that hold the bits of a page of the class.
fn bitmap_words(pages: &Pages, class: u32) -> u64
    requires { class < class_count pages.now.shape }
    ensures { result ≡ bitmap_words_of pages.now.shape class }
{
    (blocks_in_page(shape_of(pages), class) + 63) / 64
}

// The first word of a page.
fn page_word(pages: &Pages, page: u64) -> u64
    requires { IsTaken pages.now page }
    ensures { result ≡ page_word_of pages.now.shape page }
{
    page_offset(pages, page) / 8
}

// Word `j` of a page's bits.
fn bits(pages: &Pages, class: u32, page: u64, j: u64) -> u64
    requires taken { IsTaken pages.now page }
    requires known { class < class_count pages.now.shape }
    requires word { j < bitmap_words_of pages.now.shape class }
    ensures value { result ≡ bits_word (kind_of pages.now.shape class) pages.now.words pages.now.shape page j }
    ensures small { result < bits_limit (kind_of pages.now.shape class) }
{
    if class < EXACT {
        pages.word(page_word(pages, page) + j)
    } else if class == EXACT {
        slab(pages, offset_of(page))
    } else {
        slab(pages, offset_of(page)) >> 32
    }
}

// Makes word `j` of a page's bits be `v`.
fn set_bits(pages: &mut Pages, class: u32, page: u64, j: u64, v: u64)
    requires taken { IsTaken pages.old page }
    requires known { class < class_count pages.old.shape }
    requires word { j < bitmap_words_of pages.old.shape class }
    requires small { v < bits_limit (kind_of pages.old.shape class) }
    ensures runs { KeepsRuns pages.old pages.new }
    ensures changes { ChangesBits pages.old.shape class page pages.old.words pages.new.words }
    ensures sets { SetsBits pages.old.shape class page j v pages.old.words pages.new.words }
{
    if class < EXACT {
        let w = page_word(pages, page) + j;
        pages.set_word(w, v);
    } else if class == EXACT {
        pages.set_word(offset_of(page) / 8, v);
    } else {
        pages.set_word(offset_of(page) / 8, (v << 32) + 3 + class as u64);
    }
}

// The lowest bit from `from` on that isn't set, 64 where all are.
fn lowest_clear(v: u64, from: u64) -> u64
    requires { from < 64 }
    ensures { IsLowestClear v from result }
{
    (v | ((1 << from) - 1)).trailing_ones() as u64
}

// The lowest index from `from` on that isn't used, or the number of the page's blocks where all are.
pub(crate) fn first_unused(pages: &Pages, class: u32, page: u64, from: u64) -> u64
    requires taken { IsTaken pages.now page }
    requires bits { ((used : List ℕ) × HasBits pages.now.words pages.now.shape page class used) }
    requires low { first_of pages.now.shape class ≤ from }
    requires high { from ≤ blocks_of pages.now.shape class }
    ensures { (used : List ℕ) → HasBits pages.now.words pages.now.shape page class used → IsFirstUnused pages.now.shape class from used result }
{
    for j in from / 64..bitmap_words(pages, class) {
        let k = lowest_clear(bits(pages, class, page, j), from.saturating_sub(64 * j));
        if k < 64 {
            return 64 * j + k;
        }
    }
    blocks_in_page(shape_of(pages), class)
}

// The index is used.
pub(crate) fn is_used(pages: &Pages, class: u32, page: u64, index: u64) -> bool
    requires taken { IsTaken pages.now page }
    requires bits { ((used : List ℕ) × HasBits pages.now.words pages.now.shape page class used) }
    requires low { first_of pages.now.shape class ≤ index }
    requires high { index < blocks_of pages.now.shape class }
    ensures { (used : List ℕ) → HasBits pages.now.words pages.now.shape page class used → result ≡ is_member index used }
{
    bits(pages, class, page, index / 64) >> (index % 64) & 1 == 1
}

// The index becomes used.
pub(crate) fn mark(pages: &mut Pages, class: u32, page: u64, index: u64)
    requires taken { IsTaken pages.old page }
    requires bits { ((used : List ℕ) × HasBits pages.old.words pages.old.shape page class used) }
    requires low { first_of pages.old.shape class ≤ index }
    requires high { index < blocks_of pages.old.shape class }
    ensures runs { KeepsRuns pages.old pages.new }
    ensures changes { ChangesBits pages.old.shape class page pages.old.words pages.new.words }
    ensures marked { (used : List ℕ) → HasBits pages.old.words pages.old.shape page class used → HasBits pages.new.words pages.old.shape page class (with_number index used) }
{
    let v = bits(pages, class, page, index / 64);
    set_bits(pages, class, page, index / 64, v | 1 << (index % 64));
}

// The index is no longer used.
pub(crate) fn clear(pages: &mut Pages, class: u32, page: u64, index: u64)
    requires taken { IsTaken pages.old page }
    requires bits { ((used : List ℕ) × HasBits pages.old.words pages.old.shape page class used) }
    requires low { first_of pages.old.shape class ≤ index }
    requires high { index < blocks_of pages.old.shape class }
    ensures runs { KeepsRuns pages.old pages.new }
    ensures changes { ChangesBits pages.old.shape class page pages.old.words pages.new.words }
    ensures cleared { (used : List ℕ) → HasBits pages.old.words pages.old.shape page class used → HasBits pages.new.words pages.old.shape page class (without index used) }
{
    let v = bits(pages, class, page, index / 64);
    set_bits(pages, class, page, index / 64, v & !(1 << (index % 64)));
}

// Word `j` of the bits of a page without a used index: those of the bits' own blocks are set.
fn own_bits(shape: Shape, class: u32, j: u64) -> u64
    requires limits { IsInLimits shape }
    requires known { class < class_count shape }
    ensures own { IsBitsWord shape class j [] result }
    ensures small { result < bits_limit (kind_of shape class) }
{
    if j == 0 {
        (1 << first_index(shape, class)) - 1
    } else {
        0
    }
}

// No index of the page is used.
pub(crate) fn is_unused(pages: &Pages, class: u32, page: u64) -> bool
    requires taken { IsTaken pages.now page }
    requires bits { ((used : List ℕ) × HasBits pages.now.words pages.now.shape page class used) }
    ensures { (used : List ℕ) → HasBits pages.now.words pages.now.shape page class used → IsTrue result ↔ (used ≡ []) }
{
    for j in 0..bitmap_words(pages, class) {
        if bits(pages, class, page, j) != own_bits(shape_of(pages), class, j) {
            return false;
        }
    }
    true
}

// Writes the slab word of a small class's page, which has the class's shift.
fn begin_shift(pages: &mut Pages, class: u32, page: u64)
    requires taken { IsTaken pages.old page }
    requires known { class < class_count pages.old.shape }
    ensures runs { KeepsRuns pages.old pages.new }
    ensures changes { ChangesBits pages.old.shape class page pages.old.words pages.new.words }
    ensures shift { kind_of pages.old.shape class ≡ small → HasShift small pages.new.words page class }
{
    if class < EXACT {
        pages.set_word(offset_of(page) / 8, 3 + class as u64);
    }
}

// Writes the bits of a page without a used index.
pub(crate) fn begin_bits(pages: &mut Pages, class: u32, page: u64)
    requires taken { IsTaken pages.old page }
    requires known { class < class_count pages.old.shape }
    ensures runs { KeepsRuns pages.old pages.new }
    ensures changes { ChangesBits pages.old.shape class page pages.old.words pages.new.words }
    ensures begun { HasBits pages.new.words pages.old.shape page class [] }
{
    begin_shift(pages, class, page);
    for j in 0..bitmap_words(pages, class) {
        set_bits(pages, class, page, j, own_bits(shape_of(pages), class, j));
    }
}
