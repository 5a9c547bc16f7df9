use crate::plain::PlainSlab;
use crate::stat::Stat;
use std::alloc::Global;
use std::process::Abort;
use std::test::Fail;
use zone_outside::NoMemory;
use zone_region::Block;

/// A call, and what it is to answer.
#[derive(Clone, Copy)]
enum Step {
    /// A request of so many bytes is given the block at this offset.
    Take(u64, Option<u64>),
    /// The block at this offset comes back.
    Give(u64),
}

/// A call, then the number of free pages and the statistics of one class.
type Row = (Step, u64, (u32, u64, u64, u64, u64));

const NONE: (u32, u64, u64, u64, u64) = (0, 0, 0, 0, 0);

/// Three pages come back in the order first, third, second.
const MERGES: [Row; 9] = [
    (Step::Take(4096, Some(4096)), 6, NONE),
    (Step::Take(4096, Some(8192)), 5, NONE),
    (Step::Take(4096, Some(12288)), 4, NONE),
    (Step::Give(4096), 5, NONE),
    (Step::Give(12288), 6, NONE),
    (Step::Take(4096, Some(12288)), 5, NONE),
    (Step::Give(12288), 6, NONE),
    (Step::Give(8192), 7, NONE),
    (Step::Take(28672, Some(4096)), 0, NONE),
];

/// A run that is split stays in its place, and the first one that is long enough serves.
const SPLITS: [Row; 8] = [
    (Step::Take(4096, Some(4096)), 6, NONE),
    (Step::Take(8192, Some(8192)), 4, NONE),
    (Step::Give(4096), 5, NONE),
    (Step::Take(8192, Some(16384)), 3, NONE),
    (Step::Take(4096, Some(4096)), 2, NONE),
    (Step::Take(4096, Some(24576)), 1, NONE),
    (Step::Give(8192), 3, NONE),
    (Step::Take(12288, None), 3, NONE),
];

/// The first blocks of small classes lie behind their page's own bits.
const SMALL: [Row; 6] = [
    (Step::Take(8, Some(4160)), 6, (0, 504, 1, 1, 0)),
    (Step::Take(16, Some(8224)), 5, (1, 254, 1, 1, 0)),
    (Step::Take(32, Some(12320)), 4, (2, 127, 1, 1, 0)),
    (Step::Take(8, Some(4168)), 4, (0, 504, 2, 2, 0)),
    (Step::Give(4160), 4, (0, 504, 1, 2, 0)),
    (Step::Take(1, Some(4160)), 4, (0, 504, 2, 3, 0)),
];

/// Full pages leave their list and come back to its head; a page without a block is free.
const FULL: [Row; 16] = [
    (Step::Take(2048, Some(4096)), 6, (8, 2, 1, 1, 0)),
    (Step::Take(2048, Some(6144)), 6, (8, 2, 2, 2, 0)),
    (Step::Take(1025, Some(8192)), 5, (8, 4, 3, 3, 0)),
    (Step::Take(2048, Some(10240)), 5, (8, 4, 4, 4, 0)),
    (Step::Give(4096), 5, (8, 4, 3, 4, 0)),
    (Step::Give(10240), 5, (8, 4, 2, 4, 0)),
    (Step::Take(2048, Some(10240)), 5, (8, 4, 3, 5, 0)),
    (Step::Take(2048, Some(4096)), 5, (8, 4, 4, 6, 0)),
    (Step::Give(8192), 5, (8, 4, 3, 6, 0)),
    (Step::Give(10240), 6, (8, 2, 2, 6, 0)),
    (Step::Take(28672, None), 6, (8, 2, 2, 6, 0)),
    (Step::Take(24576, Some(8192)), 0, (8, 2, 2, 6, 0)),
    (Step::Take(2048, None), 0, (8, 2, 2, 7, 1)),
    (Step::Take(2049, None), 0, (8, 2, 2, 7, 1)),
    (Step::Give(6144), 0, (8, 2, 1, 7, 1)),
    (Step::Give(4096), 1, (8, 0, 0, 7, 1)),
];

/// What follows once 64 blocks of 64 bytes, whose bits are one word, have filled the first page and left the class
/// without a listed page: a second page serves, until the first one has a block again and stands before it.
const EXACT: [Row; 8] = [
    (Step::Take(64, Some(8192)), 5, (3, 128, 65, 65, 0)),
    (Step::Take(33, Some(8256)), 5, (3, 128, 66, 66, 0)),
    (Step::Give(4736), 5, (3, 128, 65, 66, 0)),
    (Step::Take(64, Some(4736)), 5, (3, 128, 66, 67, 0)),
    (Step::Take(64, Some(8320)), 5, (3, 128, 67, 68, 0)),
    (Step::Give(8256), 5, (3, 128, 66, 68, 0)),
    (Step::Give(4096), 5, (3, 128, 65, 68, 0)),
    (Step::Take(64, Some(4096)), 5, (3, 128, 66, 69, 0)),
];

fn take_one(
    rt: &impl Abort,
    slab: &mut PlainSlab,
    alloc: Global,
    size: u64,
    want: Option<u64>,
) -> Result<(), NoMemory> {
    assert!(rt; 0 < size && size <= 67_108_864);
    let got = slab.grant(alloc, size)?;
    assert_eq!(rt; got.map(|b| b.at), want, "{size} bytes");
    Ok(())
}

fn give_one(rt: &impl Abort, slab: &mut PlainSlab, alloc: Global, at: u64) -> Result<(), NoMemory> {
    let block = Block { at };
    let live = slab.live_bytes(block);
    assert!(rt; 0 < live, "no block at {at}");
    slab.give_back(alloc, block)
}

fn check_row(
    rt: &impl Abort,
    slab: &mut PlainSlab,
    alloc: Global,
    row: Row,
) -> Result<(), NoMemory> {
    let (step, free, (class, total, used, reqs, fails)) = row;
    match step {
        Step::Take(size, want) => take_one(rt, slab, alloc, size, want)?,
        Step::Give(at) => give_one(rt, slab, alloc, at)?,
    }
    assert_eq!(rt; slab.free_pages(), free);
    assert!(rt; class < 9);
    assert_eq!(rt;
        slab.stat(class),
        Stat {
            total,
            used,
            reqs,
            fails
        }
    );
    Ok(())
}

fn check_rows(rt: &impl Abort, alloc: Global, rows: &[Row]) -> Result<(), NoMemory> {
    let mut slab = PlainSlab::open(alloc, 32768)?;
    for row in rows {
        check_row(rt, &mut slab, alloc, *row)?;
    }
    Ok(())
}

#[test]
fn worked_rows(rt: HostRuntime) -> Result<(), Fail> {
    let alloc = rt.alloc();
    check_rows(&rt, alloc, &MERGES)?;
    check_rows(&rt, alloc, &SPLITS)?;
    check_rows(&rt, alloc, &SMALL)?;
    check_rows(&rt, alloc, &FULL)?;
    Ok(())
}

/// The first block of 64 bytes begins the first page, and 64 of them fill it. No block of it holds bits.
#[test]
fn exact_page(rt: HostRuntime) -> Result<(), Fail> {
    let alloc = rt.alloc();
    let mut slab = PlainSlab::open(alloc, 32768)?;
    for i in 0u64..64 {
        let row = (
            Step::Take(64, Some(4096 + 64 * i)),
            6,
            (3, 64, i + 1, i + 1, 0),
        );
        check_row(&rt, &mut slab, alloc, row)?;
    }
    for row in EXACT {
        check_row(&rt, &mut slab, alloc, row)?;
    }
    Ok(())
}

/// A thousand blocks of four sizes, which come back in the order of their grants.
#[test]
fn two_thousand_calls(rt: HostRuntime) -> Result<(), Fail> {
    let alloc = rt.alloc();
    let mut slab = PlainSlab::open(alloc, 8_388_608)?;
    let pages = slab.free_pages();
    let mut blocks = Vec::new(alloc);
    for i in 0u64..1000 {
        let size = 8 + i % 4 * 1400;
        assert!(rt; 0 < size && size <= 67_108_864);
        let block = slab.grant(alloc, size)?.ok_or("no block")?;
        blocks.push(block.at)?;
    }
    for at in &blocks {
        give_one(&rt, &mut slab, alloc, *at)?;
    }
    assert_eq!(rt; slab.free_pages(), pages);
    Ok(())
}
