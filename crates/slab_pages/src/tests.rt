use crate::geometry::{Geometry, TooSmall};
use crate::pages::{Page, Pages};
use crate::places::{byte_offset, descriptor_at, head_at, stat_at};
use crate::{offset_of, page_of};
use slab_model::PlainSlab;
use std::alloc::Global;
use std::process::Abort;
use std::test::Fail;
use zone_region::Block;

/// The slab word of the first page of a used run of one page.
const ONE: u64 = (1 << 63) + 1;

/// For each step from 0, the words of a zone of 32,768 bytes that aren't 0, but for `FIXED`: the step, the word,
/// its value. Pages 0, 1 and 2 are taken; 0 and 2 come back, 2 is taken again; 2 and 1 come back.
const WORDS: [(u64, u64, u64); 78] = [
    (0, 7, 0x2c0),
    (0, 10, 7),
    (0, 88, 7),
    (0, 89, 0x30),
    (0, 90, 0x30),
    (0, 108, 0x2c0),
    (1, 7, 0x2d8),
    (1, 10, 6),
    (1, 88, ONE),
    (1, 91, 6),
    (1, 92, 0x30),
    (1, 93, 0x30),
    (1, 108, 0x2d8),
    (2, 7, 0x2f0),
    (2, 10, 5),
    (2, 88, ONE),
    (2, 91, ONE),
    (2, 94, 5),
    (2, 95, 0x30),
    (2, 96, 0x30),
    (2, 108, 0x2f0),
    (3, 7, 0x308),
    (3, 10, 4),
    (3, 88, ONE),
    (3, 91, ONE),
    (3, 94, ONE),
    (3, 97, 4),
    (3, 98, 0x30),
    (3, 99, 0x30),
    (3, 108, 0x308),
    (4, 7, 0x2c0),
    (4, 10, 5),
    (4, 88, 1),
    (4, 89, 0x308),
    (4, 90, 0x30),
    (4, 91, ONE),
    (4, 94, ONE),
    (4, 97, 4),
    (4, 98, 0x30),
    (4, 99, 0x2c0),
    (4, 108, 0x308),
    (5, 7, 0x2f0),
    (5, 10, 6),
    (5, 88, 1),
    (5, 89, 0x30),
    (5, 90, 0x2f0),
    (5, 91, ONE),
    (5, 94, 5),
    (5, 95, 0x2c0),
    (5, 96, 0x30),
    (5, 108, 0x2f0),
    (6, 7, 0x308),
    (6, 10, 5),
    (6, 88, 1),
    (6, 89, 0x30),
    (6, 90, 0x308),
    (6, 91, ONE),
    (6, 94, ONE),
    (6, 97, 4),
    (6, 98, 0x2c0),
    (6, 99, 0x30),
    (6, 108, 0x308),
    (7, 7, 0x2f0),
    (7, 10, 6),
    (7, 88, 1),
    (7, 89, 0x30),
    (7, 90, 0x2f0),
    (7, 91, ONE),
    (7, 94, 5),
    (7, 95, 0x2c0),
    (7, 96, 0x30),
    (7, 108, 0x2f0),
    (8, 7, 0x2c0),
    (8, 10, 7),
    (8, 88, 7),
    (8, 89, 0x30),
    (8, 90, 0x30),
    (8, 108, 0x2c0),
];

/// The words that no take and no put changes.
const FIXED: [(u64, u64, u64); 16] = [
    (0, 2, 8),
    (0, 3, 3),
    (0, 4, 0x2c0),
    (0, 5, 0x368),
    (0, 9, 0x1a0),
    (0, 11, 0x1000),
    (0, 12, 0x8000),
    (0, 26, 0xc8),
    (0, 29, 0xe0),
    (0, 32, 0xf8),
    (0, 35, 0x110),
    (0, 38, 0x128),
    (0, 41, 0x140),
    (0, 44, 0x158),
    (0, 47, 0x170),
    (0, 50, 0x188),
];

/// The words that aren't 0, but for `FIXED`, once pages 0 to 5 are taken one by one and 2, 0, 4 and 3 come back:
/// page 3 merges with 2 and 4, and their run stands before those of pages 0 and 6.
const MERGED: [(u64, u64, u64); 14] = [
    (0, 7, 0x2f0),
    (0, 10, 5),
    (0, 88, 1),
    (0, 89, 0x350),
    (0, 90, 0x2f0),
    (0, 91, ONE),
    (0, 94, 3),
    (0, 95, 0x2c0),
    (0, 96, 0x30),
    (0, 102, 0x2f0),
    (0, 103, ONE),
    (0, 106, 1),
    (0, 107, 0x30),
    (0, 108, 0x2c0),
];

/// The page that is taken or comes back, after step 0.
const STEPS: [(bool, u64); 8] = [
    (true, 0),
    (true, 1),
    (true, 2),
    (false, 0),
    (false, 2),
    (true, 2),
    (false, 2),
    (false, 1),
];

fn value_in(entries: &[(u64, u64, u64)], step: u64, w: u64) -> u64 {
    for &(at, word, v) in entries {
        if at == step && word == w {
            return v;
        }
    }
    0
}

// Each word of the zone is the one that the table gives for this step, or that of `FIXED`, or 0.
fn expect_words<R: Abort>(rt: &R, pages: &Pages, table: &[(u64, u64, u64)], step: u64) {
    for w in 0..pages.word_count() {
        let want = value_in(table, step, w) | value_in(&FIXED, 0, w);
        assert_eq!(*rt; pages.word(w), want, "word {w} after step {step}");
    }
}

fn put<R: Abort>(rt: &R, pages: &mut Pages, number: u64, n: u64) {
    let page = Page { number };
    assert!(*rt; pages.can_put(page, n));
    pages.put(page, n);
}

fn put_plain<R: Abort>(rt: &R, alloc: Global, plain: &mut PlainSlab, at: u64) -> Result<(), Fail> {
    let block = Block { at };
    assert!(*rt; plain.live_bytes(block) > 0);
    plain.give_back(alloc, block)?;
    Ok(())
}

// Takes `n` pages from both, and gives the first.
fn take_both<R: Abort>(
    rt: &R,
    alloc: Global,
    pages: &mut Pages,
    plain: &mut PlainSlab,
    n: u64,
) -> Result<Option<u64>, Fail> {
    assert!(*rt; 0 < n && n < 6);
    let start = pages.geometry().start;
    let taken = pages.take(n);
    let granted = plain.grant(alloc, 4096 * n)?;
    assert_eq!(*rt;
        taken.map(|page| page.number),
        granted.map(|block| block.at.saturating_sub(start) / 4096)
    );
    Ok(taken.map(|page| page.number))
}

// Gives `n` pages back to both.
fn put_both<R: Abort>(
    rt: &R,
    alloc: Global,
    pages: &mut Pages,
    plain: &mut PlainSlab,
    number: u64,
    n: u64,
) -> Result<(), Fail> {
    put(rt, pages, number, n);
    assert!(*rt; number < 2544);
    let at = pages.geometry().start.saturating_add(4096 * number);
    put_plain(rt, alloc, plain, at)
}

#[test]
fn three_pages(rt: HostRuntime) -> Result<(), Fail> {
    let mut pages = Pages::open(rt.alloc(), Geometry::of(32_768, 12)?)?;
    let mut plain = PlainSlab::open(rt.alloc(), 32_768)?;
    let mut step = 0;
    expect_words(&rt, &pages, &WORDS, step);
    for (takes, number) in STEPS {
        if takes {
            assert_eq!(rt;
                take_both(&rt, rt.alloc(), &mut pages, &mut plain, 1)?,
                Some(number)
            );
        } else {
            put_both(&rt, rt.alloc(), &mut pages, &mut plain, number, 1)?;
        }
        step = number_after(step);
        expect_words(&rt, &pages, &WORDS, step);
        assert_eq!(rt; pages.free_count(), plain.free_pages(), "step {step}");
    }
    assert_eq!(rt; pages.take(8), None);
    Ok(())
}

#[test]
fn merge_on_both_sides(rt: HostRuntime) -> Result<(), Fail> {
    let mut pages = Pages::open(rt.alloc(), Geometry::of(32_768, 12)?)?;
    for number in 0..6u64 {
        assert_eq!(rt; pages.take(1), Some(Page { number }));
    }
    for number in [2, 0, 4, 3] {
        put(&rt, &mut pages, number, 1);
    }
    expect_words(&rt, &pages, &MERGED, 0);
    Ok(())
}

/// A word that the free runs aren't kept in: `log_ctx`, word 20.
#[test]
fn one_word(rt: HostRuntime) -> Result<(), Fail> {
    let mut pages = Pages::open(rt.alloc(), Geometry::of(32_768, 12)?)?;
    assert!(rt; 20 < pages.word_count());
    pages.set_word(20, 0x1040);
    assert_eq!(rt; word(&rt, &pages, 20), 0x1040);
    pages.set_word(20, 0);
    expect_words(&rt, &pages, &WORDS, 0);
    Ok(())
}

fn number_after(n: u64) -> u64 {
    n.saturating_add(1)
}

fn word<R: Abort>(rt: &R, pages: &Pages, w: u64) -> u64 {
    assert!(*rt; w < pages.word_count());
    pages.word(w)
}

// The descriptor at `o` is that of a run's last page, and those between are cleared.
fn expect_tail<R: Abort>(rt: &R, pages: &Pages, o: u64, count: u64) {
    assert!(*rt; 1 < count && count <= 2544 && o < 65_536);
    let last = o / 8 + 3 * (count - 1);
    for w in o / 8 + 3..last + 2 {
        assert_eq!(*rt; word(rt, pages, w), 0, "word {w} within a run");
    }
    assert_eq!(*rt; word(rt, pages, last + 2), o);
}

// Reads the list of free runs as the layout gives it, and counts the pages.
fn listed_pages<R: Abort>(rt: &R, pages: &Pages) -> u64 {
    let mut before = 48;
    let mut total = 0u64;
    for _ in 0..2544u64 {
        let o = word(rt, pages, before / 8 + 1);
        if o == 48 {
            return total;
        }
        assert_eq!(*rt; word(rt, pages, o / 8 + 2), before, "the way back from {o}");
        let count = word(rt, pages, o / 8);
        if count > 1 {
            expect_tail(rt, pages, o, count);
        }
        total = total.saturating_add(count);
        before = o;
    }
    panic!(*rt; "the list doesn't end")
}

fn next_draw(state: u64) -> u64 {
    state
        .wrapping_mul(6_364_136_223_846_793_005)
        .wrapping_add(1_442_695_040_888_963_407)
}

// One generated step: pages are taken, or a run that is held comes back. Whether pages were asked for in vain.
fn one_step<R: Abort>(
    rt: &R,
    alloc: Global,
    pages: &mut Pages,
    plain: &mut PlainSlab,
    held: &mut Vec<(u64, u64)>,
    draw: u64,
) -> Result<bool, Fail> {
    let n = 1 + draw / 8 % 5;
    if draw % 8 < 5 || held.is_empty() {
        return match take_both(rt, alloc, pages, plain, n)? {
            Some(number) => {
                held.push((number, n))?;
                Ok(false)
            }
            None => Ok(true),
        };
    }
    let (number, length) = held.swap_remove((draw / 8) as usize % held.len());
    put_both(rt, alloc, pages, plain, number, length)?;
    Ok(false)
}

// Generated steps in a zone of `bytes` bytes. How often pages were asked for in vain.
fn generated_steps<R: Abort>(rt: &R, alloc: Global, bytes: u64) -> Result<u64, Fail> {
    assert!(*rt; 32_768 <= bytes && bytes <= 67_108_864);
    let mut pages = Pages::open(alloc, Geometry::of(bytes, 12)?)?;
    let mut plain = PlainSlab::open(alloc, bytes)?;
    let mut held: Vec<(u64, u64)> = Vec::new(alloc);
    let mut state = 7u64;
    let mut vain = 0u64;
    for step in 0..2000u64 {
        state = next_draw(state);
        if one_step(rt, alloc, &mut pages, &mut plain, &mut held, state >> 33)? {
            vain = number_after(vain);
        }
        assert_eq!(*rt; pages.free_count(), plain.free_pages(), "step {step}");
        if step % 50 == 0 {
            assert_eq!(*rt; listed_pages(rt, &pages), pages.free_count(), "step {step}");
        }
    }
    Ok(vain)
}

#[test]
fn generated(rt: HostRuntime) -> Result<(), Fail> {
    generated_steps(&rt, rt.alloc(), 10_485_760)?;
    Ok(())
}

/// The least zone, of seven pages, runs dry again and again.
#[test]
fn generated_until_dry(rt: HostRuntime) -> Result<(), Fail> {
    assert!(rt; generated_steps(&rt, rt.alloc(), 32_768)? > 100);
    Ok(())
}

/// Places by hand from the layout: the first and the last class, and page 7.
#[test]
fn places(rt: HostRuntime) {
    for (class, head, stat) in [(0, 25, 52), (8, 49, 84)] {
        assert_eq!(rt; (head_at(class), stat_at(class)), (head, stat));
    }
    assert_eq!(rt; (descriptor_at(7), byte_offset(109)), (109, 872));
    assert_eq!(rt; (offset_of(7), page_of(offset_of(7))), (872, 7));
}

#[test]
fn fault_text(rt: HostRuntime) -> Result<(), Fail> {
    let text = format!(in rt.alloc(); "{TooSmall}")?;
    assert_eq!(rt; text.as_str(), "the zone is smaller than 8 pages");
    Ok(())
}
