use zone_outside::NoMemory;
use zone_region::MemBlocks;

/// Word `i` of the block at byte offset `at`, 0 where there is none.
pub fn peek(blocks: &MemBlocks, at: u64, i: usize) -> u64 {
    match blocks.entries.get(&at) {
        Some(words) => words.get(i).copied().unwrap_or(0),
        None => 0,
    }
}

/// A part of a tree: what is linked at `at`, under `parent`, at most so many blocks deep.
#[derive(Clone, Copy, Debug)]
pub struct Part {
    /// The byte offset of its top block, or the sentinel's.
    pub at: u64,
    /// The byte offset of the block above it, 0 for the root.
    pub parent: u64,
    /// Whether the block above it is red, or its top may not be red.
    pub under_red: bool,
}

/// Walks a part of a tree in order, over the words alone, and adds the blocks' offsets to `order`.
///
/// Gives the number of black blocks on each way down, and none where the part isn't red-black, a parent's
/// offset is wrong, or a way down is longer than `most`.
pub fn walk(
    blocks: &MemBlocks,
    nil: u64,
    part: Part,
    most: u64,
    order: &mut Vec<u64>,
) -> Result<Option<u64>, NoMemory> {
    let at = part.at;
    if at == nil {
        return Ok(Some(0));
    }
    let red = peek(blocks, at, 4) % 256 == 1;
    if most == 0 || peek(blocks, at, 3) != part.parent || red && part.under_red {
        return Ok(None);
    }
    let left = Part {
        at: peek(blocks, at, 1),
        parent: at,
        under_red: red,
    };
    let right = Part {
        at: peek(blocks, at, 2),
        parent: at,
        under_red: red,
    };
    let below_left = walk(blocks, nil, left, most - 1, order)?;
    order.push(at)?;
    let below_right = walk(blocks, nil, right, most - 1, order)?;
    Ok(height_of(red, below_left, below_right))
}

/// The black height above two parts, which have to agree.
fn height_of(red: bool, left: Option<u64>, right: Option<u64>) -> Option<u64> {
    let height = left?;
    if right? != height {
        return None;
    }
    if red {
        Some(height)
    } else {
        height.checked_add(1)
    }
}
