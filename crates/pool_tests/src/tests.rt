ghost use Rattle.std.specs.Prelude.{◌≡◌, ◌+◌, ◌<◌, ◌≤◌};
ghost use Rattle.offset_tree.specs.Keys.{IsForm};
ghost use Rattle.offset_tests.specs.Grid.{key_at};
ghost use Rattle.pool_tests.specs.Nodes.{HoldsTree};

use crate::nodes::{add, begin, take};
use offset_tests::keys::{Keys, counted};
use offset_tree::{Form, Tree};
use slab_pages::Geometry;
use slab_pool::Pool;
use std::alloc::Global;
use std::marker::Brand;
use std::process::Abort;
use std::sync::ledger::{Blank, Ledger};
use std::test::Fail;
use zone_key::{Key, crc32};
use zone_region::{Block, Steps};

/// Looks for key `k` in a tree of at most a thousand blocks. The steps rise by at most 105.
fn seek<L: Ledger, R: Abort>(
    rt: &R,
    pool: &Pool,
    t: &Tree,
    keys: &Keys,
    k: u64,
    key: &Key,
    want: Option<Block>,
    steps: &mut Steps<L>,
)
    requires form { IsForm t.now.form }
    requires there { HoldsTree pool.now t.now 1000 }
    requires four { keys.now.len ≡ 4 }
    requires key { key.now ≡ key_at keys.now k }
    ensures cost { steps.new ≤ steps.old + 105 }
{
    let found = t.find(pool, crc32(key.bytes()), key, steps);
    assert_eq!(rt; found, want, "at {k}");
}

/// A thousand keys are put in and found; the even ones are taken out and are gone. Gives the numbers of live blocks of
/// 64 and of 128 bytes then.
fn thousand<L: Ledger, R: Abort>(
    rt: &R,
    alloc: Global,
    form: Form,
    blank: Blank,
) -> Result<(u64, u64), Fail>
    requires name { blank.name ≡ L.name }
    requires parts { blank.parts ≡ L.parts }
    requires some { 0 < L.parts }
    requires form { IsForm form }
{
    let mut steps = Steps::<L>::new(blank);
    let keys = counted(alloc, 1000)?;
    let mut pool = Pool::open(alloc, Geometry::of(1_048_576, 12)?)?;
    let t = match begin(&mut pool, form) {
        Some(t) => t,
        None => panic!(rt; "no context"),
    };
    let mut places = Vec::new(alloc);
    for added in 0..1000u64 {
        let key = keys.key(alloc, added)?;
        match add(&mut pool, &t, &keys, added, &key, &mut steps) {
            Some(b) => places.push(b)?,
            None => panic!(rt; "no node for {added}"),
        }
    }
    for k in 0..1000u64 {
        let key = keys.key(alloc, k)?;
        let want = places.get(k as usize).copied();
        assert!(rt; want.is_some());
        seek(rt, &pool, &t, &keys, k, &key, want, &mut steps);
    }
    for half in 0..500u64 {
        let key = keys.key(alloc, 2 * half)?;
        let want = places.get(2 * half as usize).copied();
        assert_eq!(rt; take(&mut pool, &t, &key, &mut steps), want);
    }
    for left in 0..1000u64 {
        let key = keys.key(alloc, left)?;
        let want = if left % 2 == 1 {
            places.get(left as usize).copied()
        } else {
            None
        };
        seek(rt, &pool, &t, &keys, left, &key, want, &mut steps);
    }
    Ok((pool.stats(3).used, pool.stats(4).used))
}

/// Nodes of 84 bytes, which are blocks of 128, as the context is: 500 nodes and the context are left.
#[test]
fn rows_of_request_nodes(rt: HostRuntime) -> Result<(), Fail> {
    let form = Form {
        len_at: 34,
        len_bytes: 2,
        key_at: 80,
    };
    let used = thousand::<Brand, HostRuntime>(&rt, rt.alloc(), form, Blank::new(1))?;
    assert_eq!(rt; used, (0, 501));
    Ok(())
}

/// Nodes of 40 bytes, which are blocks of 64: 500 are left, and the context of 128.
#[test]
fn rows_of_connection_nodes(rt: HostRuntime) -> Result<(), Fail> {
    let form = Form {
        len_at: 33,
        len_bytes: 1,
        key_at: 36,
    };
    let used = thousand::<Brand, HostRuntime>(&rt, rt.alloc(), form, Blank::new(1))?;
    assert_eq!(rt; used, (500, 1));
    Ok(())
}
