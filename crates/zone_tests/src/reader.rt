use std::alloc::Global;
use std::cmp::Ordering;
use std::process::Abort;
use std::test::Fail;
use zone_object::ZoneView;

/// Word `i` of the block at an offset.
pub(crate) fn word<R: Abort, V: ZoneView>(rt: &R, zone: &V, at: u64, i: u64) -> u64 {
    assert!(*rt; at % 8 == 0);
    let w = (at / 8).saturating_add(i);
    assert!(*rt; w < zone.words(), "a block at {at}");
    zone.word_at(w)
}

/// Byte `i` of the bytes that begin in a block at byte `from`.
fn byte<R: Abort, V: ZoneView>(rt: &R, zone: &V, at: u64, from: u64, i: u64) -> u8 {
    let place = from.saturating_add(i);
    let value = word(rt, zone, at, place / 8);
    ((value >> (8 * (place % 8))) % 256) as u8
}

/// Compares the bytes that begin in a block at byte `from` with a key.
fn compare_bytes<R: Abort, V: ZoneView>(
    rt: &R,
    zone: &V,
    at: u64,
    from: u64,
    len: u64,
    key: &[u8],
) -> Ordering {
    for i in 0..len {
        let Some(wanted) = key.get(i as usize) else {
            return Ordering::Greater;
        };
        let order = byte(rt, zone, at, from, i).cmp(wanted);
        if order != Ordering::Equal {
            return order;
        }
    }
    len.cmp(&(key.len() as u64))
}

/// Where a node has the length and the bytes of its key.
#[derive(Clone, Copy)]
pub(crate) struct Form {
    /// What word 4 is divided by.
    pub(crate) divisor: u64,
    /// What the length is below.
    pub(crate) bound: u64,
    /// The byte of the node at which the key begins.
    pub(crate) key_at: u64,
}

/// The length of a node's key.
fn length_of<R: Abort, V: ZoneView>(rt: &R, zone: &V, form: Form, node: u64) -> u64 {
    assert!(*rt; form.divisor > 0 && form.bound > 0);
    word(rt, zone, node, 4) / form.divisor % form.bound
}

/// Asks that the tree has so many nodes, each of which names the node above it: the sentinel ends each way.
pub(crate) fn count_nodes<R: Abort, V: ZoneView>(
    rt: &R,
    alloc: Global,
    zone: &V,
    context: u64,
    wanted: u64,
) -> Result<(), Fail> {
    let sentinel = word(rt, zone, context, 1);
    let mut ways = Vec::new(alloc);
    ways.push((word(rt, zone, context, 0), 0))?;
    let mut nodes = 0u64;
    for _way in 0..=wanted.saturating_mul(2) {
        let Some((node, above)) = ways.pop() else {
            break;
        };
        if node != sentinel {
            assert_eq!(*rt; word(rt, zone, node, 3), above);
            nodes = nodes.saturating_add(1);
            ways.push((word(rt, zone, node, 1), node))?;
            ways.push((word(rt, zone, node, 2), node))?;
        }
    }
    assert_eq!(*rt; (nodes, ways.len()), (wanted, 0));
    Ok(())
}

/// The node of a key, by a walk from the root: the sentinel ends it.
pub(crate) fn find<R: Abort, V: ZoneView>(
    rt: &R,
    zone: &V,
    context: u64,
    form: Form,
    hash: u64,
    key: &[u8],
) -> Option<u64> {
    let sentinel = word(rt, zone, context, 1);
    let mut node = word(rt, zone, context, 0);
    for _depth in 0..64u32 {
        if node == sentinel {
            return None;
        }
        let mut order = word(rt, zone, node, 0).cmp(&hash);
        if order == Ordering::Equal {
            let len = length_of(rt, zone, form, node);
            order = compare_bytes(rt, zone, node, form.key_at, len, key);
        }
        node = match order {
            Ordering::Equal => return Some(node),
            Ordering::Greater => word(rt, zone, node, 1),
            Ordering::Less => word(rt, zone, node, 2),
        };
    }
    None
}
