use slab_model::PlainSlab;
use std::alloc::Global;
use std::process::Abort;
use std::test::Fail;
use zone_object::ZoneView;
use zone_region::Block;

/// A plain slab for a zone of so many bytes, once the blocks of these sizes were granted of it.
pub(crate) fn opened<R: Abort>(
    rt: &R,
    alloc: Global,
    bytes: u64,
    sizes: &[u64],
) -> Result<PlainSlab, Fail> {
    assert!(*rt; 32_768 <= bytes && bytes <= 67_108_864);
    let mut slab = PlainSlab::open(alloc, bytes)?;
    for size in sizes {
        assert!(*rt; grant(rt, alloc, &mut slab, *size)?.is_some());
    }
    Ok(slab)
}

/// The offset of a block of this size, if the slab has one.
pub(crate) fn grant<R: Abort>(
    rt: &R,
    alloc: Global,
    slab: &mut PlainSlab,
    size: u64,
) -> Result<Option<u64>, Fail> {
    assert!(*rt; 0 < size && size <= 67_108_864);
    Ok(slab.grant(alloc, size)?.map(|block| block.at))
}

/// Gives the block at this offset back.
pub(crate) fn give_back<R: Abort>(
    rt: &R,
    alloc: Global,
    slab: &mut PlainSlab,
    at: u64,
) -> Result<(), Fail> {
    let block = Block { at };
    assert!(*rt; slab.live_bytes(block) > 0);
    slab.give_back(alloc, block)?;
    Ok(())
}

/// Asks that a zone has as many free pages as the plain slab, and the same statistics of each class.
pub(crate) fn compare<R: Abort, V: ZoneView>(rt: &R, zone: &V, slab: &PlainSlab) {
    assert_eq!(*rt; zone.free_count(), slab.free_pages());
    for class in 0..9u32 {
        assert_eq!(*rt; zone.stat_of(class), slab.stat(class), "class {class}");
    }
}
