ghost use Rattle.std.specs.Prelude.{◌≡◌, ◌+◌, ◌<◌, ◌≤◌, length};
ghost use Rattle.zone_region.specs.Entries.{words_in};
ghost use Rattle.offset_tree.specs.Bounds.{search_cost};
ghost use Rattle.offset_tree.specs.Keys.{IsForm};
ghost use Rattle.offset_tests.specs.Grid.{key_at, HasTree};

use crate::grid::{laid_out, place, put_in, toggle};
use crate::keys::{Keys, colliding, counted, multiple};
use crate::line::{Change, Spot, apply, begin, drain, fill};
use crate::walk::{Part, peek, walk};
use offset_queue::Queue;
use offset_tree::{Form, Tree};
use std::alloc::Global;
use std::marker::Brand;
use std::process::Abort;
use std::sync::ledger::{Blank, Ledger};
use std::test::Fail;
use zone_key::{Key, crc32};
use zone_outside::NoMemory;
use zone_region::{Block, Blocks, CountedBlocks, MemBlocks, Steps};

/// A tree of request nodes.
fn request_tree() -> Tree
    ensures form { IsForm result.form }
    ensures context { result.context.at ≡ 4096 }
{
    Tree {
        context: Block { at: 4096 },
        form: Form {
            len_at: 34,
            len_bytes: 2,
            key_at: 80,
        },
    }
}

/// A tree of connection nodes, whose keys begin inside a word.
fn connection_tree() -> Tree
    ensures form { IsForm result.form }
    ensures context { result.context.at ≡ 4096 }
{
    Tree {
        context: Block { at: 4096 },
        form: Form {
            len_at: 33,
            len_bytes: 1,
            key_at: 36,
        },
    }
}

/// Looks for key `k`. The steps rise by at most `most`, and so does a count of the reads from outside.
fn seek<L: Ledger, R: Abort>(
    rt: &R,
    blocks: &CountedBlocks,
    t: &Tree,
    keys: &Keys,
    k: u64,
    key: &Key,
    inside: bool,
    most: u64,
    steps: &mut Steps<L>,
)
    requires form { IsForm t.now.form }
    requires there { HasTree (words_in blocks.now.blocks.entries) t.now keys.now }
    requires range { k < length keys.now.numbers.items }
    requires few { length keys.now.numbers.items ≤ 65536 }
    requires short { keys.now.len ≤ 8 }
    requires key { key.now ≡ key_at keys.now k }
    requires most { search_cost (length keys.now.numbers.items) keys.now.len ≤ most }
    ensures cost { steps.new ≤ steps.old + most }
{
    let before = blocks.reads();
    let found = t.find(blocks, crc32(key.bytes()), key, steps);
    let reads = blocks.reads().wrapping_sub(before);
    let want = if inside { Some(place(k)) } else { None };
    assert_eq!(rt; found, want, "at {k}");
    assert!(rt; reads <= most, "at {k}");
}

/// Puts block `k` in. A count of the reads of `insert` from outside rises by at most `most`.
fn add<L: Ledger, R: Abort>(
    rt: &R,
    blocks: &mut CountedBlocks,
    t: &Tree,
    keys: &Keys,
    k: u64,
    key: &Key,
    most: u64,
    steps: &mut Steps<L>,
)
    requires form { IsForm t.now.form }
    requires there { HasTree (words_in blocks.old.blocks.entries) t.now keys.now }
    requires range { k < length keys.now.numbers.items }
    requires short { keys.now.len ≤ 8 }
    requires key { key.now ≡ key_at keys.now k }
    ensures { HasTree (words_in blocks.new.blocks.entries) t.now keys.now }
{
    match t.find(blocks, crc32(key.bytes()), key, steps) {
        Some(_) => panic!(rt; "{k} is there"),
        None => {
            let before = blocks.reads();
            put_in(blocks, t, keys, k, key, steps);
            assert!(rt; blocks.reads().wrapping_sub(before) <= most, "at {k}");
        }
    }
}

/// A thousand keys are put in and found; the even ones are taken out and are gone. The bound on a search is 105
/// words, and 3 * 105 + 24 on an insertion.
fn thousand<L: Ledger, R: Abort>(rt: &R, alloc: Global, t: &Tree, blank: Blank) -> Result<(), Fail>
    requires name { blank.name ≡ L.name }
    requires parts { blank.parts ≡ L.parts }
    requires some { 0 < L.parts }
    requires form { IsForm t.now.form }
    requires context { t.now.context.at ≡ 4096 }
{
    let mut steps = Steps::<L>::new(blank);
    let keys = counted(alloc, 1000)?;
    let mut blocks = CountedBlocks::new(laid_out(alloc, t, &keys)?);
    for added in 0..1000u64 {
        let key = keys.key(alloc, added)?;
        add(rt, &mut blocks, t, &keys, added, &key, 339, &mut steps);
    }
    for k in 0..1000u64 {
        let key = keys.key(alloc, k)?;
        seek(rt, &blocks, t, &keys, k, &key, true, 105, &mut steps);
    }
    for half in 0..500u64 {
        let key = keys.key(alloc, 2 * half)?;
        assert!(rt; !toggle(&mut blocks, t, &keys, 2 * half, &key, &mut steps));
    }
    for left in 0..1000u64 {
        let key = keys.key(alloc, left)?;
        seek(
            rt,
            &blocks,
            t,
            &keys,
            left,
            &key,
            left % 2 == 1,
            105,
            &mut steps,
        );
    }
    Ok(())
}

/// The numbers of the keys in the order of their CRC-32 and then of their bytes, each with its CRC-32.
///
/// Keys have one length, so they are in order as numbers whose highest byte is the key's first.
fn sorted(alloc: Global, keys: &Keys) -> Result<Vec<(u32, u64, u64)>, NoMemory>
    requires short { keys.now.len ≤ 8 }
{
    let mut order = Vec::new(alloc);
    for k in 0..keys.numbers.len() as u64 {
        let key = keys.key(alloc, k)?;
        let by_bytes = keys.numbers[k as usize].swap_bytes();
        order.push((crc32(key.bytes()), by_bytes, k))?;
    }
    order.sort_unstable();
    Ok(order)
}

/// The tree is red-black, and its blocks are those that are said to be there, in this order.
fn compare<R: Abort>(
    rt: &R,
    alloc: Global,
    blocks: &MemBlocks,
    sorted: &[(u32, u64, u64)],
    inside: &[bool],
) -> Result<(), Fail> {
    let mut order = Vec::new(alloc);
    let whole = Part {
        at: peek(blocks, 4096, 0),
        parent: 0,
        under_red: true,
    };
    let height = walk(blocks, 4120, whole, 64, &mut order)?;
    assert!(rt; height.is_some());
    let mut want = Vec::new(alloc);
    for (_, _, k) in sorted {
        if inside.get(*k as usize) == Some(&true) {
            want.push(8192 + 128 * (*k % 64))?;
        }
    }
    assert!(rt; order.as_slice() == want.as_slice());
    Ok(())
}

/// Two thousand random changes of a tree of at most 64 blocks in four sets of sixteen, each with one hash. The bound
/// on a search is 75 words.
fn random_run<L: Ledger, R: Abort>(
    rt: &R,
    alloc: Global,
    t: &Tree,
    blank: Blank,
) -> Result<(), Fail>
    requires name { blank.name ≡ L.name }
    requires parts { blank.parts ≡ L.parts }
    requires some { 0 < L.parts }
    requires form { IsForm t.now.form }
    requires context { t.now.context.at ≡ 4096 }
{
    let mut steps = Steps::<L>::new(blank);
    let keys = colliding(alloc)?;
    let order = sorted(alloc, &keys)?;
    let mut blocks = CountedBlocks::new(laid_out(alloc, t, &keys)?);
    let mut inside = vec![in alloc; false; 64]?;
    let mut seed = 1u64;
    for step in 0..2000u64 {
        seed = seed
            .wrapping_mul(6364136223846793005)
            .wrapping_add(1442695040888963407);
        let k = seed / 8589934592 % 64;
        let key = keys.key(alloc, k)?;
        let now = toggle(&mut blocks, t, &keys, k, &key, &mut steps);
        if let Some(was) = inside.get_mut(k as usize) {
            assert!(rt; *was != now);
            *was = now;
        }
        seek(rt, &blocks, t, &keys, k, &key, now, 75, &mut steps);
        compare(
            rt,
            alloc,
            &blocks.blocks,
            order.as_slice(),
            inside.as_slice(),
        )?;
    }
    Ok(())
}

/// Key `k` of the random run has the CRC-32 of the key whose first byte is `k % 4` and whose other bytes are 0, so
/// sixteen keys have one hash; and no two keys are equal.
#[test]
fn keys_collide(rt: HostRuntime) -> Result<(), Fail> {
    let alloc = rt.alloc();
    assert_eq!(rt; multiple(1).to_le_bytes(), *b"A\x06q\xDB\x01\0\0\0");
    assert_eq!(rt; crc32(b"A\x06q\xDB\x01"), crc32(b"\0\0\0\0\0"));
    let order = sorted(alloc, &colliding(alloc)?)?;
    assert_eq!(rt; order.len(), 64);
    for (hash, _, k) in &order {
        assert_eq!(rt; *hash, crc32(&[(*k % 4) as u8, 0, 0, 0, 0]));
    }
    for (key, next) in order.iter().zip(order.iter().skip(1)) {
        assert!(rt; (key.0, key.1) < (next.0, next.1));
    }
    Ok(())
}

/// A block, a word of it and its value.
type Wanted = (u64, usize, u64);

/// An empty tree: the root is the sentinel, at 4096 + 24, and the sentinel's words are 0.
const EMPTY: [Wanted; 10] = [
    (4096, 0, 4120),
    (4096, 1, 4120),
    (4096, 2, 7),
    (4096, 3, 0),
    (4096, 4, 0),
    (4096, 5, 0),
    (4096, 6, 0),
    (4096, 7, 0),
    (4096, 8, 7),
    (4096, 15, 7),
];

/// The root is the sentinel.
const NONE: [Wanted; 2] = [(4096, 0, 4120), (4096, 1, 4120)];

/// Block 0 alone: black, under parent 0, with the sentinel on both sides.
const ROOT: [Wanted; 5] = [
    (4096, 0, 8192),
    (8192, 1, 4120),
    (8192, 2, 4120),
    (8192, 3, 0),
    (8192, 4, 262144),
];

/// Block 1, red, on the right of block 0.
const RED_CHILD: [Wanted; 4] = [
    (4096, 0, 8192),
    (8192, 2, 8320),
    (8320, 3, 8192),
    (8320, 4, 262145),
];

/// Block 1, black, above the red blocks 0 and 2, after a turn to the left.
const TURNED: [Wanted; 13] = [
    (4096, 0, 8320),
    (8320, 1, 8192),
    (8320, 2, 8448),
    (8320, 3, 0),
    (8320, 4, 262144),
    (8192, 1, 4120),
    (8192, 2, 4120),
    (8192, 3, 8320),
    (8192, 4, 262145),
    (8448, 1, 4120),
    (8448, 2, 4120),
    (8448, 3, 8320),
    (8448, 4, 262145),
];

/// Block 2 in the place of block 1, which keeps its hash, the CRC-32 of 0, 0, 0, 1, and its key.
const REPLACED: [Wanted; 9] = [
    (4096, 0, 8448),
    (8448, 1, 8192),
    (8448, 2, 4120),
    (8448, 3, 0),
    (8448, 4, 262144),
    (8192, 3, 8448),
    (8192, 4, 262145),
    (8320, 0, 1447292810),
    (8320, 10, 16777216),
];

/// Block 2 alone.
const ROOT_ALONE: [Wanted; 5] = [
    (4096, 0, 8448),
    (8448, 1, 4120),
    (8448, 2, 4120),
    (8448, 3, 0),
    (8448, 4, 262144),
];

/// Connection node 1 alone: four bytes of key, three connections, and the key's bytes 0, 0, 0, 1 in the upper half.
const CONNECTIONS: [Wanted; 4] = [
    (4096, 0, 8320),
    (8320, 0, 1447292810),
    (8320, 4, 0x0100_0000_0003_0400),
    (8320, 5, 0),
];

/// Connection node 2, red, on the right of node 1.
const RED_CONNECTIONS: [Wanted; 2] = [
    (8320, 4, 0x0100_0000_0003_0400),
    (8448, 4, 0x0200_0000_0003_0401),
];

/// Connection node 2 alone, black; node 1 keeps its hash and its key.
const CONNECTIONS_LEFT: [Wanted; 4] = [
    (4096, 0, 8448),
    (8448, 4, 0x0200_0000_0003_0400),
    (8320, 0, 1447292810),
    (8320, 4, 0x0100_0000_0003_0400),
];

fn compare_words<R: Abort>(rt: &R, blocks: &MemBlocks, wanted: &[Wanted]) {
    for (at, i, value) in wanted {
        assert_eq!(rt; peek(blocks, *at, *i), *value, "word {i} at {at}");
    }
}

/// A change of a small tree: the block that is put in or taken out, how many words are read for that, and words that
/// stand then.
type Row<'a> = (u64, u64, &'a [Wanted]);

/// Blocks put in or taken out one after the other. After each, the words and a count of the reads from outside are
/// compared with those worked out by hand. Gives the number of rows.
fn small_tree<L: Ledger, R: Abort>(
    rt: &R,
    alloc: Global,
    t: &Tree,
    rows: &[Row],
    blank: Blank,
) -> Result<u64, Fail>
    requires name { blank.name ≡ L.name }
    requires parts { blank.parts ≡ L.parts }
    requires some { 0 < L.parts }
    requires form { IsForm t.now.form }
    requires context { t.now.context.at ≡ 4096 }
{
    let mut steps = Steps::<L>::new(blank);
    let keys = counted(alloc, 3)?;
    let mut blocks = CountedBlocks::new(laid_out(alloc, t, &keys)?);
    let mut tried = 0u64;
    for (k, reads, wanted) in rows {
        assert!(rt; *k < 3);
        let key = keys.key(alloc, *k)?;
        let before = blocks.reads();
        toggle(&mut blocks, t, &keys, *k, &key, &mut steps);
        assert_eq!(rt; blocks.reads().wrapping_sub(before), *reads, "at {k}");
        compare_words(rt, &blocks.blocks, wanted);
        tried = tried.wrapping_add(1);
    }
    Ok(tried)
}

/// Request nodes put in by rising hashes, the middle one taken out, and then the others.
///
/// A change looks for the key first. That reads the root word, of a node with another hash the hash and a child, and of
/// the node itself the hash, the length and the key's bytes.
#[test]
fn small_request_tree(rt: HostRuntime) -> Result<(), Fail> {
    let rows = [
        (0, 1 + 5, ROOT.as_slice()),
        (1, 3 + 7, &RED_CHILD),
        (2, 5 + 18, &TURNED),
        (1, 4 + 13, &REPLACED),
        (0, 6 + 6, &ROOT_ALONE),
        (2, 4 + 4, &NONE),
    ];
    let t = request_tree();
    let tried = small_tree::<Brand, HostRuntime>(&rt, rt.alloc(), &t, &rows, Blank::new(1))?;
    assert_eq!(rt; tried, 6);
    Ok(())
}

#[test]
fn small_connection_tree(rt: HostRuntime) -> Result<(), Fail> {
    let rows = [
        (1, 1 + 5, CONNECTIONS.as_slice()),
        (2, 3 + 7, &RED_CONNECTIONS),
        (1, 4 + 6, &CONNECTIONS_LEFT),
        (2, 4 + 4, &NONE),
    ];
    let t = connection_tree();
    let tried = small_tree::<Brand, HostRuntime>(&rt, rt.alloc(), &t, &rows, Blank::new(1))?;
    assert_eq!(rt; tried, 4);
    Ok(())
}

/// `init` sets words 0, 1 and 3 to 7 of the context, whatever they were, and no others.
#[test]
fn empty_tree(rt: HostRuntime) -> Result<(), Fail> {
    let t = request_tree();
    let mut blocks = MemBlocks::new(rt.alloc());
    blocks.add(rt.alloc(), t.context, 16)?;
    for i in 0..16u64 {
        blocks.set(t.context, i, 7);
    }
    t.init(&mut blocks);
    compare_words(&rt, &blocks, &EMPTY);
    Ok(())
}

/// The three blocks in a queue whose head is at word 8 of the context: links to the other's two link words, the
/// previous one first.
const FULL: [Wanted; 8] = [
    (4096, 8, 8232),
    (4096, 9, 8488),
    (8448, 5, 4160),
    (8448, 6, 8360),
    (8320, 5, 8488),
    (8320, 6, 8232),
    (8192, 5, 8360),
    (8192, 6, 4160),
];

/// The head of an empty queue.
const EMPTIED: [Wanted; 2] = [(4096, 8, 4160), (4096, 9, 4160)];

/// A queue is filled, changed, and emptied from the back, and this again for each change.
#[test]
fn queue_of_three(rt: HostRuntime) -> Result<(), Fail> {
    let alloc = rt.alloc();
    let t = request_tree();
    let mut blocks = laid_out(alloc, &t, &counted(alloc, 3)?)?;
    let q = Queue {
        head: t.context,
        at: 8,
    };
    let rows = [
        (Change::Nothing, [8192u64, 8320, 8448].as_slice()),
        (Change::ToFront(Spot::Back), &[8320, 8448, 8192]),
        (Change::ToFront(Spot::Middle), &[8192, 8448, 8320]),
        (Change::ToFront(Spot::Front), &[8192, 8320, 8448]),
        (Change::Out(Spot::Back), &[8320, 8448]),
        (Change::Out(Spot::Middle), &[8192, 8448]),
        (Change::Out(Spot::Front), &[8192, 8320]),
    ];
    begin(&mut blocks, &q);
    let mut tried = 0u64;
    for (change, want) in rows {
        compare_words(&rt, &blocks, &EMPTIED);
        fill(&mut blocks, &q);
        compare_words(&rt, &blocks, &FULL);
        apply(&mut blocks, &q, change);
        let mut order = Vec::new(alloc);
        assert!(rt; drain(&mut blocks, &q, &mut order)?, "{change:?}");
        assert_eq!(rt; order.as_slice(), want, "{change:?}");
        tried = tried.wrapping_add(1);
    }
    assert_eq!(rt; tried, 7);
    compare_words(&rt, &blocks, &EMPTIED);
    Ok(())
}

#[test]
fn rows_of_request_nodes(rt: HostRuntime) -> Result<(), Fail> {
    thousand::<Brand, HostRuntime>(&rt, rt.alloc(), &request_tree(), Blank::new(1))
}

#[test]
fn rows_of_connection_nodes(rt: HostRuntime) -> Result<(), Fail> {
    thousand::<Brand, HostRuntime>(&rt, rt.alloc(), &connection_tree(), Blank::new(1))
}

#[test]
fn random_request_nodes(rt: HostRuntime) -> Result<(), Fail> {
    random_run::<Brand, HostRuntime>(&rt, rt.alloc(), &request_tree(), Blank::new(1))
}

#[test]
fn random_connection_nodes(rt: HostRuntime) -> Result<(), Fail> {
    random_run::<Brand, HostRuntime>(&rt, rt.alloc(), &connection_tree(), Blank::new(1))
}
