ghost use Rattle.std.specs.Prelude.{◌≡◌, ◌<◌};

use crate::{FreeFault, Pool};
use slab_model::PlainSlab;
use slab_pages::Geometry;
use std::alloc::Global;
use std::marker::Brand;
use std::process::Abort;
use std::sync::ledger::{Blank, Ledger};
use std::test::Fail;
use zone_region::{Block, Blocks, Steps};

fn small_pool(alloc: Global) -> Result<Pool, Fail> {
    Ok(Pool::open(alloc, Geometry::of(32_768, 12)?)?)
}

/// The words of a zone of 32,768 bytes that the tables below have in common: the header but for the page list,
/// the heads of the classes, their statistics, the descriptors of the first three pages, and their bitmaps.
const SAME: [(u64, u64); 45] = [
    (2, 8),
    (3, 3),
    (4, 704),
    (5, 872),
    (9, 416),
    (11, 4096),
    (12, 32_768),
    (26, 704),
    (29, 728),
    (32, 752),
    (35, 272),
    (38, 296),
    (41, 320),
    (44, 344),
    (47, 368),
    (50, 392),
    (52, 504),
    (53, 2),
    (54, 2),
    (55, 0),
    (56, 254),
    (57, 1),
    (58, 1),
    (59, 0),
    (60, 127),
    (61, 1),
    (62, 1),
    (63, 0),
    (88, 3),
    (89, 200),
    (90, 203),
    (91, 4),
    (92, 224),
    (93, 227),
    (94, 5),
    (95, 248),
    (96, 251),
    (512, 0x3ff),
    (513, 0),
    (1024, 7),
    (1025, 0),
    (1536, 3),
    (1537, 0),
    (6, 0),
    (8, 0),
];

fn value_in(entries: &[(u64, u64)], w: u64) -> Option<u64> {
    for &(word, v) in entries {
        if word == w {
            return Some(v);
        }
    }
    None
}

// Each word of the zone is the one that this table gives, or that of `SAME`, or 0.
fn expect_words<R: Abort>(rt: &R, pool: &Pool, table: &[(u64, u64)]) {
    for w in 0..pool.word_count() {
        let want = match value_in(table, w) {
            Some(v) => v,
            None => value_in(&SAME, w).unwrap_or(0),
        };
        assert_eq!(*rt; pool.raw(w), want, "word {w}");
    }
}

fn word<R: Abort>(rt: &R, pool: &Pool, w: u64) -> u64 {
    assert!(*rt; w < pool.word_count());
    pool.raw(w)
}

fn alloc<R: Abort>(rt: &R, pool: &mut Pool, size: u64) -> Option<u64> {
    assert!(*rt; 0 < size && size <= 67_108_864);
    pool.alloc(size).map(|block| block.at)
}

/// The words that aren't those of `SAME` once the four blocks are granted: one free run of four pages.
const GRANTED: [(u64, u64); 6] = [(7, 776), (10, 4), (97, 4), (98, 48), (99, 48), (108, 776)];

/// And once two more pages are granted.
const TWO_PAGES: [(u64, u64); 8] = [
    (7, 824),
    (10, 2),
    (97, (1 << 63) + 2),
    (100, u64::MAX),
    (103, 2),
    (104, 48),
    (105, 48),
    (108, 824),
];

// Four grants of the three small classes, each class in a page of its own, and then each refusal of a return.
#[test]
fn grants_and_refusals(rt: HostRuntime) -> Result<(), Fail> {
    let mut pool = small_pool(rt.alloc())?;
    for (size, at) in [(8, 4160), (16, 8224), (32, 12_320), (8, 4168)] {
        assert_eq!(rt; alloc(&rt, &mut pool, size), Some(at));
    }
    let s = pool.stats(0);
    assert_eq!(rt; (s.total, s.used, s.reqs, s.fails), (504, 2, 2, 0));
    expect_words(&rt, &pool, &GRANTED);
    for (at, fault) in [
        (0, FreeFault::Outside),
        (32_768, FreeFault::Outside),
        (4161, FreeFault::WrongChunk),
        (4096, FreeFault::WrongChunk),
        (4176, FreeFault::AlreadyFree),
        (16_385, FreeFault::WrongChunk),
        (16_384, FreeFault::PageAlreadyFree),
    ] {
        assert_eq!(rt; pool.try_free(at), Err(fault));
    }
    expect_words(&rt, &pool, &GRANTED);
    assert_eq!(rt; alloc(&rt, &mut pool, 8192), Some(16_384));
    expect_words(&rt, &pool, &TWO_PAGES);
    assert_eq!(rt; pool.try_free(20_480), Err(FreeFault::WrongPage));
    assert_eq!(rt; pool.try_free(16_384), Ok(()));
    expect_words(&rt, &pool, &GRANTED);
    Ok(())
}

// The first page and the length of each free run, in list order, read from the words.
fn expect_runs<R: Abort>(rt: &R, pool: &Pool, runs: &[(u64, u64)]) {
    let mut at = word(rt, pool, 7);
    for &(first, pages) in runs {
        assert!(*rt; first < 7);
        assert_eq!(*rt; at, 704 + 24 * first);
        assert_eq!(*rt; word(rt, pool, 88 + 3 * first), pages);
        at = word(rt, pool, 89 + 3 * first);
    }
    assert_eq!(*rt; at, 48);
}

// Pages that come back are merged with the free run before them and with the one behind.
#[test]
fn pages_merge(rt: HostRuntime) -> Result<(), Fail> {
    let mut pool = small_pool(rt.alloc())?;
    for at in [4096, 8192, 12_288] {
        assert_eq!(rt; pool.alloc(4096), Some(Block { at }));
    }
    assert_eq!(rt; pool.try_free(4096), Ok(()));
    expect_runs(&rt, &pool, &[(0, 1), (3, 4)]);
    assert_eq!(rt; pool.try_free(12_288), Ok(()));
    expect_runs(&rt, &pool, &[(2, 5), (0, 1)]);
    assert_eq!(rt; pool.alloc(4096), Some(Block { at: 12_288 }));
    expect_runs(&rt, &pool, &[(3, 4), (0, 1)]);
    assert_eq!(rt; pool.try_free(12_288), Ok(()));
    assert_eq!(rt; pool.try_free(8192), Ok(()));
    expect_runs(&rt, &pool, &[(0, 7)]);
    Ok(())
}

// The blocks of a request zone: its context, its name block and the node of a first key of 4 bytes.
#[test]
fn request_zone(rt: HostRuntime) -> Result<(), Fail> {
    let mut pool = small_pool(rt.alloc())?;
    assert_eq!(rt; pool.pages(), 7);
    assert_eq!(rt; pool.calloc(80), Some(Block { at: 4096 }));
    assert_eq!(rt; pool.calloc(25), Some(Block { at: 8224 }));
    assert_eq!(rt; pool.alloc(84), Some(Block { at: 4224 }));
    assert_eq!(rt; pool.free_pages(), 5);
    Ok(())
}

// Two blocks that the root names. Their words are read as they were written, also once the other block came back.
fn named_blocks<L: Ledger, R: Abort>(rt: &R, heap: Global, blank: Blank) -> Result<(), Fail>
    requires name { blank.name ≡ L.name }
    requires parts { blank.parts ≡ L.parts }
    requires some { 0 < L.parts }
{
    let mut steps = Steps::<L>::new(blank);
    let mut pool = small_pool(heap)?;
    let context = match pool.calloc(80) {
        Some(block) => block,
        None => panic!(*rt; "no context"),
    };
    let name = match pool.alloc(25) {
        Some(block) => block,
        None => panic!(*rt; "no name block"),
    };
    pool.set_root(context, name);
    pool.set(context, 9, 5);
    pool.set(name, 3, 7);
    assert_eq!(*rt; pool.word(context, 9, &mut steps), 5);
    assert_eq!(*rt; pool.word(name, 3, &mut steps), 7);
    pool.free(name);
    assert_eq!(*rt; pool.word(context, 8, &mut steps), 0);
    assert_eq!(*rt; pool.word(context, 9, &mut steps), 5);
    pool.free(context);
    assert_eq!(*rt; (word(rt, &pool, 20), word(rt, &pool, 23)), (8224, 4096));
    assert_eq!(*rt; pool.free_pages(), 7);
    Ok(())
}

#[test]
fn words_of_blocks(rt: HostRuntime) -> Result<(), Fail> {
    named_blocks::<Brand, HostRuntime>(&rt, rt.alloc(), Blank::new(1))
}

fn next_draw(state: u64) -> u64 {
    state
        .wrapping_mul(6_364_136_223_846_793_005)
        .wrapping_add(1_442_695_040_888_963_407)
}

fn compare<R: Abort>(rt: &R, pool: &Pool, plain: &PlainSlab, step: u64) {
    assert_eq!(*rt; pool.free_pages(), plain.free_pages(), "step {step}");
    for class in 0..9u32 {
        assert_eq!(*rt;
            pool.stats(class),
            plain.stat(class),
            "step {step} class {class}"
        );
    }
}

fn return_both<R: Abort>(
    rt: &R,
    alloc: Global,
    pool: &mut Pool,
    plain: &mut PlainSlab,
    at: u64,
) -> Result<(), Fail> {
    let block = Block { at };
    assert!(*rt; plain.live_bytes(block) > 0);
    plain.give_back(alloc, block)?;
    assert_eq!(*rt; pool.try_free(at), Ok(()));
    Ok(())
}

// One generated step: a block is granted, or one that is held comes back. Whether a block was asked for in vain.
fn one_step<R: Abort>(
    rt: &R,
    heap: Global,
    pool: &mut Pool,
    plain: &mut PlainSlab,
    held: &mut Vec<u64>,
    draw: u64,
) -> Result<bool, Fail> {
    if draw % 8 < 5 || held.is_empty() {
        let most = if draw % 2 == 0 { 6000 } else { 300 };
        let size = 1 + draw / 8 % most;
        let granted = plain.grant(heap, size)?.map(|block| block.at);
        assert_eq!(*rt; alloc(rt, pool, size), granted);
        return match granted {
            Some(at) => {
                held.push(at)?;
                Ok(false)
            }
            None => Ok(true),
        };
    }
    let at = held.swap_remove((draw / 8) as usize % held.len());
    return_both(rt, heap, pool, plain, at)?;
    assert!(*rt; pool.try_free(at) != Ok(()));
    Ok(false)
}

// Generated steps in a zone of `bytes` bytes. How often a block was asked for in vain.
fn generated_steps<R: Abort>(rt: &R, heap: Global, bytes: u64) -> Result<u64, Fail> {
    assert!(*rt; 32_768 <= bytes && bytes <= 67_108_864);
    let mut pool = Pool::open(heap, Geometry::of(bytes, 12)?)?;
    let mut plain = PlainSlab::open(heap, bytes)?;
    let mut held: Vec<u64> = Vec::new(heap);
    let mut state = 7u64;
    let mut vain = 0u64;
    for step in 0..2000u64 {
        state = next_draw(state);
        if one_step(rt, heap, &mut pool, &mut plain, &mut held, state >> 33)? {
            vain = vain.saturating_add(1);
        }
        compare(rt, &pool, &plain, step);
    }
    for &at in &held {
        return_both(rt, heap, &mut pool, &mut plain, at)?;
        compare(rt, &pool, &plain, at);
    }
    assert_eq!(*rt; pool.free_pages(), pool.pages());
    Ok(vain)
}

// In 32,768 bytes the pool runs dry.
#[test]
fn generated_small(rt: HostRuntime) -> Result<(), Fail> {
    assert!(rt; generated_steps(&rt, rt.alloc(), 32_768)? > 100);
    Ok(())
}

#[test]
fn generated_large(rt: HostRuntime) -> Result<(), Fail> {
    generated_steps(&rt, rt.alloc(), 1_048_576)?;
    Ok(())
}
