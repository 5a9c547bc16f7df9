ghost use Rattle.std.specs.Prelude.{ℕ, ◌≡◌, ◌<◌, List, length, map, Some, slice_get, vec_items, IfOk};
ghost use Rattle.zone_config.specs.declared.data.ZoneSpec.{ZoneSpec};
ghost use Rattle.replay_workers.specs.declared.passes.Shared.{Shared as SharedZones};
ghost use Rattle.replay_workers.specs.Passes.{id_of};
ghost use Rattle.replay_workers.specs.Columns.{AreAt, IsReq, IsConn, IsPeer, CanClose, IsClosed};
ghost use Rattle.replay_workers.specs.Zones.{AreColumns, AreClosed};

use crate::history::ZoneHistory;
use crate::passes::{Shared, ZonePass};
use conn_zone::ConnZone;
use peer_zone::PeerZone;
use req_zone::ReqZone;
use shared_zone::SharedZone;
use std::alloc::Global;
use std::sync::Wait;
use zone_outside::NoMemory;

/// Ends a request zone, in its turn, for which it may wait. All its passes come back here.
fn close_req<R: Wait>(
    rt: &R,
    alloc: Global,
    zone: SharedZone<ReqZone>,
    column: Vec<ZonePass>,
) -> Result<ZoneHistory, NoMemory>
    requires { (zones : List SharedZones) × (rooms : List ℕ) × (z : ℕ) × (spec : ZoneSpec) × IsReq spec × (slice_get (map id_of zones) z ≡ Some zone) × (0 < length rooms) × AreAt zones rooms z spec column.items }
    ensures { (zones : List SharedZones) (rooms : List ℕ) (z : ℕ) (spec : ZoneSpec) → IsReq spec → slice_get (map id_of zones) z ≡ Some zone → 0 < length rooms → AreAt zones rooms z spec column.items → IfOk result (IsClosed rooms spec column.items) }
{
    let mut passes = Vec::with_capacity(alloc, column.len())?;
    for pass in column {
        match pass {
            ZonePass::Req { pass } => passes.push(pass)?,
            ZonePass::Conn { pass: _ } => unreachable!(),
            ZonePass::Peer { pass: _ } => unreachable!(),
        }
    }
    let (zone, entries) = zone.close(rt, passes);
    Ok(ZoneHistory::Req { zone, entries })
}

/// Ends a connection zone, in its turn, for which it may wait. All its passes come back here.
fn close_conn<R: Wait>(
    rt: &R,
    alloc: Global,
    zone: SharedZone<ConnZone>,
    column: Vec<ZonePass>,
) -> Result<ZoneHistory, NoMemory>
    requires { (zones : List SharedZones) × (rooms : List ℕ) × (z : ℕ) × (spec : ZoneSpec) × IsConn spec × (slice_get (map id_of zones) z ≡ Some zone) × (0 < length rooms) × AreAt zones rooms z spec column.items }
    ensures { (zones : List SharedZones) (rooms : List ℕ) (z : ℕ) (spec : ZoneSpec) → IsConn spec → slice_get (map id_of zones) z ≡ Some zone → 0 < length rooms → AreAt zones rooms z spec column.items → IfOk result (IsClosed rooms spec column.items) }
{
    let mut passes = Vec::with_capacity(alloc, column.len())?;
    for pass in column {
        match pass {
            ZonePass::Conn { pass } => passes.push(pass)?,
            ZonePass::Req { pass: _ } => unreachable!(),
            ZonePass::Peer { pass: _ } => unreachable!(),
        }
    }
    let (zone, entries) = zone.close(rt, passes);
    Ok(ZoneHistory::Conn { zone, entries })
}

/// Ends an upstream's zone, in its turn, for which it may wait. All its passes come back here.
fn close_peer<R: Wait>(
    rt: &R,
    alloc: Global,
    zone: SharedZone<PeerZone>,
    column: Vec<ZonePass>,
) -> Result<ZoneHistory, NoMemory>
    requires { (zones : List SharedZones) × (rooms : List ℕ) × (z : ℕ) × (spec : ZoneSpec) × IsPeer spec × (slice_get (map id_of zones) z ≡ Some zone) × (0 < length rooms) × AreAt zones rooms z spec column.items }
    ensures { (zones : List SharedZones) (rooms : List ℕ) (z : ℕ) (spec : ZoneSpec) → IsPeer spec → slice_get (map id_of zones) z ≡ Some zone → 0 < length rooms → AreAt zones rooms z spec column.items → IfOk result (IsClosed rooms spec column.items) }
{
    let mut passes = Vec::with_capacity(alloc, column.len())?;
    for pass in column {
        match pass {
            ZonePass::Peer { pass } => passes.push(pass)?,
            ZonePass::Req { pass: _ } => unreachable!(),
            ZonePass::Conn { pass: _ } => unreachable!(),
        }
    }
    let (zone, entries) = zone.close(rt, passes);
    Ok(ZoneHistory::Peer { zone, entries })
}

/// Ends a zone.
fn close_zone<R: Wait>(
    rt: &R,
    alloc: Global,
    zone: Shared,
    column: Vec<ZonePass>,
) -> Result<ZoneHistory, NoMemory>
    requires { (zones : List SharedZones) × (rooms : List ℕ) × (z : ℕ) × (spec : ZoneSpec) × CanClose zones rooms z spec zone column.items }
    ensures { (zones : List SharedZones) (rooms : List ℕ) (z : ℕ) (spec : ZoneSpec) → CanClose zones rooms z spec zone column.items → IfOk result (IsClosed rooms spec column.items) }
{
    match zone {
        Shared::Req { zone } => close_req(rt, alloc, zone, column),
        Shared::Conn { zone } => close_conn(rt, alloc, zone, column),
        Shared::Peer { zone } => close_peer(rt, alloc, zone, column),
    }
}

/// Ends all zones, with the passes of all workers to each of them.
pub(crate) fn close_zones<R: Wait>(
    rt: &R,
    alloc: Global,
    mut zones: Vec<Shared>,
    mut columns: Vec<Vec<ZonePass>>,
) -> Result<Vec<ZoneHistory>, NoMemory>
    requires { (rooms : List ℕ) × (specs : List ZoneSpec) × (0 < length rooms) × AreColumns rooms specs zones.items (map vec_items columns.items) }
    ensures { (rooms : List ℕ) (specs : List ZoneSpec) → 0 < length rooms → AreColumns rooms specs zones.items (map vec_items columns.items) → IfOk result (λ left. AreClosed 0 rooms specs (map vec_items columns.items) left.items) }
{
    let mut left = Vec::with_capacity(alloc, zones.len())?;
    while let Some(zone) = zones.pop() {
        let Some(column) = columns.pop() else {
            unreachable!()
        };
        left.insert(0, close_zone(rt, alloc, zone, column)?)?;
    }
    Ok(left)
}
