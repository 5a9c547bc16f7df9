ghost use Rattle.std.specs.Prelude.{◌≡◌, ℕ, ◌+◌, ◌*◌, ◌<◌, ◌≤◌, ◌&&◌, nat_eq, length, Some, IfOk, MatchResult};
ghost use Rattle.std.specs.List.{All};
ghost use Rattle.slab_model.specs.Geometry.{greatest_zone};
ghost use Rattle.slab_model.specs.State.{Slab};
ghost use Rattle.slab_model.specs.Grant.{grant};
ghost use Rattle.slab_pool.specs.Pool.{LaysPool};
ghost use Rattle.slab_pool.specs.Live.{block_words};
ghost use Rattle.peer_zone.specs.Object.{IsServer};
ghost use Rattle.peer_zone.specs.Opening.{record_size, list_size, record_requests, backup_requests, grant_all, grants_of, pool_of, IsSpec};
ghost use Rattle.peer_zone.specs.Layout.{name_text};
ghost use Rattle.peer_zone.specs.Placing.{GrantsBlock, IsRefused, PlacesRecords, PlacesBackup, IsPlaced, Begins};

use crate::calls::{PeerSpec, Server};
use crate::fresh::{write_context, write_list, write_record};
use block_bytes::write_bytes;
use slab_pool::Pool;
use std::alloc::Global;
use zone_outside::NoMemory;
use zone_region::Block;

/// The bytes of a zone's context.
const CONTEXT_SIZE: u64 = 64;

/// The bytes of the block that heads a list.
const LIST_SIZE: u64 = 64;

/// The bytes of a server's record, but for its address.
const RECORD_SIZE: u64 = 104;

/// What stands before the name in the name block, but for its quote.
const BEFORE_NAME: &[u8] = b" in upstream zone ";

/// The bytes of the block of a zone's name.
pub(crate) fn text_of(alloc: Global, name: &[u8]) -> Result<Vec<u8>, NoMemory>
    ensures { IfOk result (λ text. text.items ≡ name_text name.now) }
{
    let mut text = Vec::new(alloc);
    text.extend_from_slice(BEFORE_NAME)?;
    text.push(b'"')?;
    text.extend_from_slice(name)?;
    text.extend_from_slice(b"\"\0")?;
    Ok(text)
}

/// The blocks of a zone that its context and header name.
#[derive(Clone, Copy, Debug)]
pub(crate) struct Placed {
    /// The context.
    pub(crate) context: Block,
    /// The name.
    pub(crate) name: Block,
    /// The block that heads the primary list.
    pub(crate) list: Block,
    /// The offset of the first primary record.
    pub(crate) first: u64,
    /// The offset of the block that heads the backup list, where there are backup servers.
    pub(crate) backup: Option<u64>,
}

/// A block of this size, which the pool has.
fn take_block(pool: &mut Pool, size: u64) -> Block
    requires some { 0 < size }
    requires small { size ≤ greatest_zone }
    requires fits { ((slab : Slab) × (at : ℕ) × LaysPool pool.old slab × ((grant slab size).0 ≡ Some at)) }
    ensures { (slab : Slab) → LaysPool pool.old slab → GrantsBlock pool.old pool.new slab size result.at }
{
    match pool.alloc(size) {
        Some(block) => block,
        None => unreachable!(),
    }
}

/// The bytes of a server's record.
fn record_bytes(server: &Server) -> u64
    requires { IsServer server.now }
    ensures { result ≡ record_size server.now }
{
    RECORD_SIZE + server.address.bytes().len() as u64
}

/// Places the records of servers, of which the first has this number, each linked to the next: grants a block for each
/// in their order, up to the first for which there is none, whose number is the error. Gives the offset of the first
/// record, or 0.
fn place_records(pool: &mut Pool, servers: &[Server], number: u32) -> Result<u64, u32>
    requires servers { All IsServer servers.now }
    requires few { number + length servers.now ≤ 128 }
    ensures { (slab : Slab) → LaysPool pool.old slab → MatchResult result
        (PlacesRecords pool.old pool.new (grant_all slab (record_requests number servers.now)) servers.now)
        (IsRefused (grant_all slab (record_requests number servers.now))) }
{
    let Some((server, rest)) = servers.split_first() else {
        return Ok(0);
    };
    let Some(b) = pool.alloc(record_bytes(server)) else {
        return Err(number);
    };
    let next = place_records(pool, rest, number + 1)?;
    write_record(pool, b, next, server);
    Ok(b.at)
}

/// Places the backup list, where there are backup servers: the block that heads it, which the pool has, and its records.
/// Gives the offset of that block.
fn place_backup(pool: &mut Pool, servers: &[Server], number: u32) -> Result<Option<u64>, u32>
    requires servers { All IsServer servers.now }
    requires few { number + length servers.now ≤ 128 }
    requires fits { 0 < length servers.now → ((slab : Slab) × (at : ℕ) × LaysPool pool.old slab × ((grant slab list_size).0 ≡ Some at)) }
    ensures { (slab : Slab) → LaysPool pool.old slab → MatchResult result
        (PlacesBackup pool.old pool.new (grant_all slab (backup_requests number servers.now)) servers.now)
        (IsRefused (grant_all slab (backup_requests number servers.now))) }
{
    if servers.is_empty() {
        return Ok(None);
    }
    let list = take_block(pool, LIST_SIZE);
    let first = place_records(pool, servers, number)?;
    write_list(pool, list, first, servers.len() as u64, false);
    Ok(Some(list.at))
}

/// Grants a fresh pool's blocks to the context, the name and the lists of a zone, and places the records in them. The
/// error is the number of the first server for whose record there is no block.
fn place(pool: &mut Pool, spec: &PeerSpec, name_size: u64) -> Result<Placed, u32>
    requires fresh { LaysPool pool.old (pool_of spec.now) }
    requires spec { IsSpec spec.now }
    requires size { name_size ≡ length (name_text spec.now.name) }
    ensures { MatchResult result (IsPlaced pool.new spec.now) (IsRefused (grants_of spec.now)) }
{
    let context = take_block(pool, CONTEXT_SIZE);
    let name = take_block(pool, name_size);
    let list = take_block(pool, LIST_SIZE);
    let first = place_records(pool, spec.primary.as_slice(), 0)?;
    let backup = place_backup(pool, spec.backup.as_slice(), spec.primary.len() as u32)?;
    Ok(Placed {
        context,
        name,
        list,
        first,
        backup,
    })
}

/// Whether the upstream has exactly one server and no backup.
fn is_single(spec: &PeerSpec) -> bool
    ensures { result ≡ (nat_eq (length spec.now.primary) 1 && nat_eq (length spec.now.backup) 0) }
{
    spec.primary.len() == 1 && spec.backup.len() == 0
}

/// Writes what names the placed blocks: the block that heads the primary list, the context, the name and the header.
fn write_roots(pool: &mut Pool, spec: &PeerSpec, text: &[u8], placed: &Placed)
    requires spec { IsSpec spec.now }
    requires text { text.now ≡ name_text spec.now.name }
    requires placed { IsPlaced pool.old spec.now placed.now }
    ensures { Begins pool.new spec.now placed.now }
{
    let servers = spec.primary.len() as u64;
    write_list(pool, placed.list, placed.first, servers, is_single(spec));
    let backup = placed.backup.unwrap_or(0);
    write_context(pool, placed.context, placed.list.at, backup, spec.method);
    write_bytes(pool, placed.name, 0, text);
    pool.set_root(placed.context, placed.name);
}

/// Begins a zone in a fresh pool, with this text of its name: grants the blocks of the context, the name, the lists and
/// the records in their order, and writes them. The error is the number of the first server for whose record there is
/// no block.
pub(crate) fn begin(pool: &mut Pool, spec: &PeerSpec, text: &[u8]) -> Result<Placed, u32>
    requires fresh { LaysPool pool.old (pool_of spec.now) }
    requires spec { IsSpec spec.now }
    requires text { text.now ≡ name_text spec.now.name }
    ensures { MatchResult result (Begins pool.new spec.now) (IsRefused (grants_of spec.now)) }
{
    let placed = place(pool, spec, text.len() as u64)?;
    write_roots(pool, spec, text, &placed);
    Ok(placed)
}
