ghost use Rattle.std.specs.Prelude.{◌≡◌, ℕ, List, IfOk};
ghost use Rattle.conn_zone.specs.Object.{opened_zone};
ghost use Rattle.conn_zone.specs.Layout.{LaysFrom, name_bytes};
ghost use Rattle.conn_zone.specs.Changes.{IsFresh};

use crate::node::tree_at;
use block_bytes::write_bytes;
use slab_pool::Pool;
use std::alloc::{AllocError, Global};
use zone_region::{Block, Blocks};

/// The bytes of the context: the root of the tree, the sentinel's offset, a word of 0, and the sentinel's five words.
const CONTEXT_SIZE: u64 = 64;

/// What the name block holds, for the log: the kind and the name of the zone, and a 0 byte.
pub fn name_text(alloc: Global, name: &[u8]) -> Result<Vec<u8>, AllocError>
    ensures { IfOk result (λ text. text.items ≡ name_bytes name.now) }
{
    let mut text = Vec::from_slice(alloc, b" in limit_conn_zone \"")?;
    text.extend_from_slice(name)?;
    text.extend_from_slice(b"\"\0")?;
    Ok(text)
}

/// Begins a zone in a fresh pool: grants the blocks of the context and of the name, and names both in the header. Gives
/// the context.
pub fn begin(pool: &mut Pool, text: &[u8]) -> Block
    requires { ((name : List ℕ) × (bytes : ℕ) × IsFresh pool.old name bytes text.now) }
    ensures { (name : List ℕ) (bytes : ℕ) → IsFresh pool.old name bytes text.now → LaysFrom pool.new result.at (opened_zone name bytes) }
{
    let Some(context) = pool.alloc(CONTEXT_SIZE) else {
        unreachable!()
    };
    let Some(name) = pool.alloc(text.len() as u64) else {
        unreachable!()
    };
    tree_at(context).init(pool);
    pool.set(context, 2, 0);
    write_bytes(pool, name, 0, text);
    pool.set_root(context, name);
    context
}
