ghost use Rattle.std.specs.Prelude.{◌≡◌, ◌<◌, length};
ghost use Rattle.pool_tests.specs.Tables.{HoldsTable};

use crate::entries::{add, begin, take, touch};
use offset_table::Table;
use offset_tests::keys::{Keys, counted};
use slab_pages::Geometry;
use slab_pool::Pool;
use std::alloc::Global;
use std::marker::Brand;
use std::process::Abort;
use std::sync::ledger::{Blank, Ledger};
use std::test::Fail;
use zone_outside::NoMemory;
use zone_region::{Block, Steps};

/// A step on a table of three keys, by their numbers.
#[derive(Clone, Copy)]
enum Step {
    Add(u64),
    Touch(u64),
    Take(u64),
    Oldest,
}

/// Steps, and the offset of the block that each answers. The context is the block at 4096, and nodes are blocks of 128
/// bytes behind it.
const STEPS: [(Step, Option<u64>); 20] = [
    (Step::Oldest, None),
    (Step::Add(0), Some(4224)),
    (Step::Add(1), Some(4352)),
    (Step::Add(2), Some(4480)),
    (Step::Add(1), None),
    (Step::Oldest, Some(4224)),
    (Step::Touch(0), Some(4224)),
    (Step::Oldest, Some(4352)),
    (Step::Take(1), Some(4352)),
    (Step::Take(1), None),
    (Step::Touch(1), None),
    (Step::Oldest, Some(4480)),
    (Step::Add(1), Some(4352)),
    (Step::Touch(2), Some(4480)),
    (Step::Oldest, Some(4224)),
    (Step::Take(0), Some(4224)),
    (Step::Oldest, Some(4352)),
    (Step::Take(1), Some(4352)),
    (Step::Take(2), Some(4480)),
    (Step::Oldest, None),
];

/// Makes one step, and gives the block that it answers.
fn run<L: Ledger>(
    pool: &mut Pool,
    alloc: Global,
    t: &Table,
    keys: &Keys,
    step: Step,
    steps: &mut Steps<L>,
) -> Result<Option<Block>, NoMemory>
    requires there { HoldsTable pool.old t.now }
    requires three { length keys.now.numbers.items ≡ 3 }
    requires four { keys.now.len ≡ 4 }
    ensures { HoldsTable pool.new t.now }
{
    match step {
        Step::Add(k) => {
            let key = keys.key(alloc, k % 3)?;
            Ok(add(pool, t, keys, k % 3, &key, steps))
        }
        Step::Touch(k) => {
            let key = keys.key(alloc, k % 3)?;
            Ok(touch(pool, t, &key, steps))
        }
        Step::Take(k) => {
            let key = keys.key(alloc, k % 3)?;
            Ok(take(pool, t, &key, steps))
        }
        Step::Oldest => Ok(t.oldest(pool)),
    }
}

/// The steps in a zone of 32,768 bytes. Gives the number of live blocks of 128 bytes then.
fn all_steps<L: Ledger, R: Abort>(rt: &R, alloc: Global, blank: Blank) -> Result<u64, Fail>
    requires name { blank.name ≡ L.name }
    requires parts { blank.parts ≡ L.parts }
    requires some { 0 < L.parts }
{
    let mut steps = Steps::<L>::new(blank);
    let keys = counted(alloc, 3)?;
    let mut pool = Pool::open(alloc, Geometry::of(32_768, 12)?)?;
    let t = match begin(&mut pool) {
        Some(t) => t,
        None => panic!(rt; "no context"),
    };
    for &(step, want) in &STEPS {
        let found = run(&mut pool, alloc, &t, &keys, step, &mut steps)?;
        assert_eq!(rt; found.map(|block| block.at), want);
    }
    Ok(pool.stats(4).used)
}

/// Three nodes come and go by key, and the one that was used least lately is known throughout.
#[test]
fn table_by_use(rt: HostRuntime) -> Result<(), Fail> {
    let used = all_steps::<Brand, HostRuntime>(&rt, rt.alloc(), Blank::new(1))?;
    assert_eq!(rt; used, 1);
    Ok(())
}
