ghost use Rattle.std.specs.Prelude.{◌≡◌, ◌*◌, ◌/◌, ◌<◌, ◌≤◌, ℕ, List, length, replicate, IfOk, Some};
ghost use Rattle.zone_region.specs.Granting.{GrantsWords};
ghost use Rattle.slab_model.specs.Geometry.{IsInLimits, shape_of, greatest_zone};
ghost use Rattle.slab_model.specs.State.{Slab, fresh_slab};
ghost use Rattle.slab_model.specs.Grant.{grant, block_bytes};
ghost use Rattle.slab_pool.specs.Pool.{LaysPool};
ghost use Rattle.slab_pool.specs.Live.{block_words};
ghost use Rattle.req_zone.specs.Object.{IsName, opened_zone};
ghost use Rattle.req_zone.specs.Words.{name_text, table_in, LaysReq};

use block_bytes::write_bytes;
use offset_table::Table;
use slab_pool::Pool;
use std::alloc::Global;
use zone_outside::NoMemory;
use zone_region::Block;

/// The bytes of the zone's context (`ngx_http_limit_req_shctx_t`).
const CONTEXT_SIZE: u64 = 80;

/// What stands before the name in the name block, but for its quote.
const BEFORE_NAME: &[u8] = b" in limit_req zone ";

/// The bytes of the block of a zone's name, as `ngx_http_limit_req_init_zone` writes them for the error log.
pub(crate) fn text_of(alloc: Global, name: &[u8]) -> Result<Vec<u8>, NoMemory>
    ensures { IfOk result (λ text. text.items ≡ name_text name.now) }
{
    let mut text = Vec::new(alloc);
    text.extend_from_slice(BEFORE_NAME)?;
    text.push(b'"')?;
    text.extend_from_slice(name)?;
    text.extend_from_slice(b"\"\0")?;
    Ok(text)
}

/// A block of zeros of this size, which the pool has.
fn take_block(pool: &mut Pool, size: u64) -> Block
    requires some { 0 < size }
    requires small { size ≤ greatest_zone }
    requires fits { ((slab : Slab) × (at : ℕ) × LaysPool pool.old slab × ((grant slab size).0 ≡ Some at)) }
    ensures block { (slab : Slab) → LaysPool pool.old slab → (grant slab size).0 ≡ Some result.at }
    ensures laid { (slab : Slab) → LaysPool pool.old slab → LaysPool pool.new (grant slab size).1 }
    ensures words { (slab : Slab) → LaysPool pool.old slab →
        GrantsWords (block_words pool.old) (block_words pool.new) result.at (block_bytes slab size / 8) }
    ensures zeros { (slab : Slab) → LaysPool pool.old slab →
        block_words pool.new result.at ≡ replicate (block_bytes slab size / 8) 0 }
    ensures room { size ≤ 8 * length (block_words pool.new result.at) }
{
    match pool.calloc(size) {
        Some(block) => block,
        None => unreachable!(),
    }
}

/// Grants a fresh pool's first blocks, that of the context and that of this text of the zone's name, and makes the table
/// in the context empty (`ngx_http_limit_req_init_zone`).
pub(crate) fn begin(pool: &mut Pool, text: &[u8]) -> Table
    requires { ((bytes : ℕ) × (name : List ℕ) × LaysPool pool.old (fresh_slab (shape_of bytes)) × IsInLimits (shape_of bytes) ×
        IsName name × (text.now ≡ name_text name)) }
    ensures { (rate bytes : ℕ) (name : List ℕ) → LaysPool pool.old (fresh_slab (shape_of bytes)) → IsInLimits (shape_of bytes) →
        IsName name → text.now ≡ name_text name →
        LaysReq pool.new (opened_zone rate name bytes) × (result ≡ table_in (opened_zone rate name bytes)) }
{
    let context = take_block(pool, CONTEXT_SIZE);
    let name = take_block(pool, text.len() as u64);
    let table = Table { context };
    table.init(pool);
    write_bytes(pool, name, 0, text);
    pool.set_root(context, name);
    table
}
