ghost use Rattle.std.specs.Prelude.{◌≡◌, ◌<◌};

use crate::{Block, Blocks, CountedBlocks, MemBlocks, Region, Steps, TalliedBlocks, read};
use std::alloc::Global;
use std::marker::Brand;
use std::process::Abort;
use std::sync::ledger::{Blank, Ledger};
use std::test::Fail;

#[test]
fn regions(rt: HostRuntime) -> Result<(), Fail> {
    let mut region = Region::zeroed(rt.alloc(), 4096)?;
    assert_eq!(rt; region.len(), 4096);
    region.store(0, 7);
    region.store(4095, u64::MAX);
    region.store(0, 3);
    assert_eq!(rt; region.len(), 4096);
    assert_eq!(rt; region.load(0), 3);
    assert_eq!(rt; region.load(1), 0);
    assert_eq!(rt; region.load(4095), u64::MAX);
    assert_eq!(rt; Region::zeroed(rt.alloc(), 0)?.len(), 0);
    assert!(rt; Region::zeroed(rt.alloc(), u64::MAX).is_err());
    Ok(())
}

fn counts<L: Ledger, R: Abort>(rt: &R, alloc: Global, blank: Blank) -> Result<(), Fail>
    requires name { blank.name ≡ L.name }
    requires parts { blank.parts ≡ L.parts }
    requires some { 0 < L.parts }
{
    let mut steps = Steps::<L>::new(blank);
    let (low, high) = (Block { at: 64 }, Block { at: 4096 });
    let mut memory = MemBlocks::new(alloc);
    memory.add(alloc, low, 2)?;
    memory.add(alloc, high, 3)?;
    let mut blocks = CountedBlocks::new(memory);
    blocks.set(high, 2, 9);
    blocks.set(low, 1, 5);
    assert_eq!(*rt; blocks.word(high, 2, &mut steps), 9);
    assert_eq!(*rt; blocks.word(low, 1, &mut steps), 5);
    assert_eq!(*rt; read(&blocks, low, 0), 0);
    assert_eq!(*rt; blocks.reads(), 3);
    Ok(())
}

#[test]
fn blocks(rt: HostRuntime) -> Result<(), Fail> {
    counts::<Brand, HostRuntime>(&rt, rt.alloc(), Blank::new(1))
}

/// A word that is set leaves the tally beside the blocks.
#[test]
fn tally(rt: HostRuntime) -> Result<(), Fail> {
    let b = Block { at: 64 };
    let mut zone = TalliedBlocks {
        blocks: MemBlocks::new(rt.alloc()),
        added: 0,
    };
    zone.add(rt.alloc(), b, 2)?;
    zone.set(b, 1, 9);
    assert_eq!(rt; read(&zone, b, 1), 9);
    assert_eq!(rt; zone.added, 1);
    Ok(())
}
