ghost use Rattle.std.specs.Prelude.{◌≡◌, List, length, map, None, vec_items, IfOk};
ghost use Rattle.std.specs.List.{All};
ghost use Rattle.zone_config.specs.declared.data.ReqData.{ReqData};
ghost use Rattle.zone_config.specs.declared.data.ConnData.{ConnData};
ghost use Rattle.zone_config.specs.declared.data.PeerData.{PeerData};
ghost use Rattle.zone_config.specs.Conditions.{AreZones, IsZoneSpec, HasOwnServers};
ghost use Rattle.replay_share.specs.Opening.{IsNewReq, IsNewConn, IsNewPeer, refused_at, refused_line};
ghost use Rattle.replay_workers.specs.Columns.{AreRooms, IsOpenedZone, IsOpenedReq, IsOpenedConn, IsOpenedPeer};
ghost use Rattle.replay_workers.specs.Zones.{AreOpened};

use crate::passes::{Shared, ZonePass};
use conn_zone::ConnZone;
use peer_zone::PeerZone;
use replay_share::{OpeningFault, open_conn, open_peer, open_req};
use req_zone::ReqZone;
use shared_zone::SharedZone;
use std::alloc::Global;
use std::sync::Wait;
use zone_config::ZoneSpec;
use zone_outside::NoMemory;

/// A request zone that the workers share, with a pass for each.
fn share_req<R: Wait>(
    rt: &R,
    alloc: Global,
    zone: ReqZone,
    rooms: &[u32],
) -> Result<(Shared, Vec<ZonePass>), NoMemory>
    requires new { (spec : ReqData) × IsNewReq spec zone }
    requires rooms { AreRooms rooms.now }
    ensures { (spec : ReqData) → IsNewReq spec zone → IfOk result (λ r. IsOpenedReq rooms.now spec r.0 r.1.items) }
{
    let (zone, passes) = SharedZone::open(rt, alloc, zone, rooms)?;
    let mut column = Vec::with_capacity(alloc, passes.len())?;
    for pass in passes {
        column.push(ZonePass::Req { pass })?;
    }
    Ok((Shared::Req { zone }, column))
}

/// A connection zone that the workers share, with a pass for each.
fn share_conn<R: Wait>(
    rt: &R,
    alloc: Global,
    zone: ConnZone,
    rooms: &[u32],
) -> Result<(Shared, Vec<ZonePass>), NoMemory>
    requires new { (spec : ConnData) × IsNewConn spec zone }
    requires rooms { AreRooms rooms.now }
    ensures { (spec : ConnData) → IsNewConn spec zone → IfOk result (λ r. IsOpenedConn rooms.now spec r.0 r.1.items) }
{
    let (zone, passes) = SharedZone::open(rt, alloc, zone, rooms)?;
    let mut column = Vec::with_capacity(alloc, passes.len())?;
    for pass in passes {
        column.push(ZonePass::Conn { pass })?;
    }
    Ok((Shared::Conn { zone }, column))
}

/// An upstream's zone that the workers share, with a pass for each.
fn share_peer<R: Wait>(
    rt: &R,
    alloc: Global,
    zone: PeerZone,
    rooms: &[u32],
) -> Result<(Shared, Vec<ZonePass>), NoMemory>
    requires new { (spec : PeerData) × IsNewPeer spec zone }
    requires rooms { AreRooms rooms.now }
    ensures { (spec : PeerData) → IsNewPeer spec zone → IfOk result (λ r. IsOpenedPeer rooms.now spec r.0 r.1.items) }
{
    let (zone, passes) = SharedZone::open(rt, alloc, zone, rooms)?;
    let mut column = Vec::with_capacity(alloc, passes.len())?;
    for pass in passes {
        column.push(ZonePass::Peer { pass })?;
    }
    Ok((Shared::Peer { zone }, column))
}

/// Opens a zone of the configuration that has blocks for all servers of its upstream.
fn open_shared<R: Wait>(
    rt: &R,
    alloc: Global,
    spec: &ZoneSpec,
    rooms: &[u32],
) -> Result<(Shared, Vec<ZonePass>), NoMemory>
    requires zone { IsZoneSpec spec.now }
    requires servers { HasOwnServers spec.now }
    requires opens { refused_at spec.now ≡ None }
    requires rooms { AreRooms rooms.now }
    ensures { IfOk result (λ r. IsOpenedZone rooms.now spec.now r.0 r.1.items) }
{
    match spec {
        ZoneSpec::Req { spec, key: _ } => share_req(rt, alloc, open_req(alloc, spec)?, rooms),
        ZoneSpec::Conn { spec, key: _ } => share_conn(rt, alloc, open_conn(alloc, spec)?, rooms),
        ZoneSpec::Peer { spec, line } => match open_peer(alloc, spec, *line) {
            Ok(zone) => share_peer(rt, alloc, zone, rooms),
            Err(OpeningFault::NoMemory) => Err(NoMemory),
            Err(OpeningFault::Refused { line: _ }) => unreachable!(),
        },
    }
}

/// Opens all zones of the configuration, each with a pass for each worker.
pub(crate) fn open_zones<R: Wait>(
    rt: &R,
    alloc: Global,
    specs: &[ZoneSpec],
    rooms: &[u32],
) -> Result<(Vec<Shared>, Vec<Vec<ZonePass>>), NoMemory>
    requires zones { AreZones specs.now }
    requires servers { All HasOwnServers specs.now }
    requires opens { refused_line specs.now ≡ None }
    requires rooms { AreRooms rooms.now }
    ensures { IfOk result (λ r. AreOpened rooms.now specs.now r.0.items (map vec_items r.1.items)) }
{
    let mut zones = Vec::with_capacity(alloc, specs.len())?;
    let mut columns = Vec::with_capacity(alloc, specs.len())?;
    for spec in specs {
        let (zone, column) = open_shared(rt, alloc, spec, rooms)?;
        zones.push(zone)?;
        columns.push(column)?;
    }
    Ok((zones, columns))
}
