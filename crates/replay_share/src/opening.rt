ghost use Rattle.std.specs.Prelude.{◌≡◌, [], ◌∷◌, ◌++◌, IfOk, OnOk, is_some};
ghost use Rattle.peer_zone.specs.Opening.{refused_server};
ghost use Rattle.request_script.specs.ZoneSpecs.{peer_spec as spec_of_peer};
ghost use Rattle.std.specs.List.{All};
ghost use Rattle.zone_config.specs.Conditions.{AreZones, IsZone, IsWithin, IsZoneSpec, HasServers, HasOwnServers};
ghost use Rattle.replay_share.specs.Opening.{IsNewReq, IsNewConn, BeginsReq, BeginsConn, BeginsPeer, OpensPeer, OpensZone, OpensZones, refused_at, refused_line};

use crate::journal::ZoneJournal;
use crate::journals::Journals;
use conn_zone::ConnZone;
use peer_zone::PeerZone;
use req_zone::ReqZone;
use request_script::{conn_spec, peer_spec, req_spec};
use std::alloc::Global;
use thiserror::Error;
use zone_config::{ConnData, PeerData, ReqData, ZoneSpec};
use zone_object::Journal;
use zone_outside::NoMemory;

/// Why the zones of a configuration can't be opened.
#[derive(Clone, Copy, Debug, PartialEq, Eq, Error)]
pub enum OpeningFault {
    /// The upstream zone of this line has no block for one of its servers.
    #[error("line {line}: the zone has no block for a server")]
    Refused { line: u64 },
    /// There is no memory.
    #[error("no memory")]
    NoMemory,
}

impl From<NoMemory> for OpeningFault {
    ghost use Rattle.std.specs.Prelude.{◌≡◌};
    ghost use Rattle.replay_share.specs.declared.opening.OpeningFault.TheVariants.{NoMemory};

    ghost from_gives = { λ _ fault. fault ≡ NoMemory };

    fn from(_error: NoMemory) -> OpeningFault {
        OpeningFault::NoMemory
    }
}

/// Opens a request zone.
pub fn open_req(alloc: Global, given: &ReqData) -> Result<ReqZone, NoMemory>
    requires zone { IsZone given.now.name given.now.bytes given.now.page_shift }
    requires rate { IsWithin 1 1000000000 given.now.rate }
    ensures { IfOk result (IsNewReq given.now) }
{
    let spec = req_spec(alloc, given)?;
    match ReqZone::open(alloc, &spec) {
        Ok(zone) => Ok(zone),
        Err(req_zone::OpenFault::NoMemory) => Err(NoMemory),
        Err(req_zone::OpenFault::TooSmall) => unreachable!(),
    }
}

/// Opens a connection zone.
pub fn open_conn(alloc: Global, given: &ConnData) -> Result<ConnZone, NoMemory>
    requires { IsZone given.now.name given.now.bytes given.now.page_shift }
    ensures { IfOk result (IsNewConn given.now) }
{
    let spec = conn_spec(alloc, given)?;
    match ConnZone::open(alloc, spec) {
        Ok(zone) => Ok(zone),
        Err(conn_zone::OpenFault::NoMemory) => Err(NoMemory),
        Err(conn_zone::OpenFault::TooSmall) => unreachable!(),
    }
}

/// Opens an upstream's zone, which stands at this line. `Refused` comes exactly where it has no block for one of its servers.
pub fn open_peer(alloc: Global, given: &PeerData, line: u64) -> Result<PeerZone, OpeningFault>
    requires zone { IsZone given.now.name given.now.bytes given.now.page_shift }
    requires servers { HasServers given.now }
    ensures { OpensPeer given.now line result }
{
    let spec = peer_spec(alloc, given)?;
    match PeerZone::open(alloc, spec) {
        Ok(zone) => Ok(zone),
        Err(peer_zone::OpenFault::Small { server: _ }) => Err(OpeningFault::Refused { line }),
        Err(peer_zone::OpenFault::NoMemory) => Err(OpeningFault::NoMemory),
        Err(peer_zone::OpenFault::TooSmall) => unreachable!(),
    }
}

/// Opens a request zone, with room for so many calls.
fn begin_req(alloc: Global, given: &ReqData, room: u32) -> Result<Journal<ReqZone>, NoMemory>
    requires zone { IsZone given.now.name given.now.bytes given.now.page_shift }
    requires rate { IsWithin 1 1000000000 given.now.rate }
    ensures { IfOk result (BeginsReq given.now room) }
{
    let zone = open_req(alloc, given)?;
    Ok(Journal::new(alloc, zone, room)?)
}

/// Opens a connection zone, with room for so many calls.
fn begin_conn(alloc: Global, given: &ConnData, room: u32) -> Result<Journal<ConnZone>, NoMemory>
    requires { IsZone given.now.name given.now.bytes given.now.page_shift }
    ensures { IfOk result (BeginsConn given.now room) }
{
    let zone = open_conn(alloc, given)?;
    Ok(Journal::new(alloc, zone, room)?)
}

/// Opens an upstream's zone of this line, with room for so many calls.
fn begin_peer(
    alloc: Global,
    given: &PeerData,
    line: u64,
    room: u32,
) -> Result<Journal<PeerZone>, OpeningFault>
    requires zone { IsZone given.now.name given.now.bytes given.now.page_shift }
    requires servers { HasServers given.now }
    ensures { BeginsPeer given.now line room result }
{
    match open_peer(alloc, given, line) {
        Ok(zone) => Ok(Journal::new(alloc, zone, room)?),
        Err(fault) => Err(fault),
    }
}

/// Opens a zone that the configuration says, with room for so many calls.
pub(crate) fn open_zone(
    alloc: Global,
    spec: &ZoneSpec,
    room: u32,
) -> Result<ZoneJournal, OpeningFault>
    requires zone { IsZoneSpec spec.now }
    requires servers { HasOwnServers spec.now }
    ensures { OpensZone spec.now room result }
{
    Ok(match spec {
        ZoneSpec::Req { spec, key: _ } => ZoneJournal::Req {
            journal: begin_req(alloc, spec, room)?,
        },
        ZoneSpec::Conn { spec, key: _ } => ZoneJournal::Conn {
            journal: begin_conn(alloc, spec, room)?,
        },
        ZoneSpec::Peer { spec, line } => ZoneJournal::Peer {
            journal: begin_peer(alloc, spec, *line, room)?,
        },
    })
}

/// Whether an upstream's zone has no block for one of its servers. The zone is opened and given up again.
fn is_refused(alloc: Global, given: &PeerData) -> Result<bool, NoMemory>
    requires zone { IsZone given.now.name given.now.bytes given.now.page_shift }
    requires servers { HasServers given.now }
    ensures { IfOk result (λ refused. refused ≡ is_some (refused_server (spec_of_peer given.now))) }
{
    match open_peer(alloc, given, 0) {
        Ok(_) => Ok(false),
        Err(OpeningFault::Refused { line: _ }) => Ok(true),
        Err(OpeningFault::NoMemory) => Err(NoMemory),
    }
}

/// The line of a zone that has no block for a server of its upstream.
fn refused_at(alloc: Global, zone: &ZoneSpec) -> Result<Option<u64>, NoMemory>
    requires zone { IsZoneSpec zone.now }
    requires servers { HasOwnServers zone.now }
    ensures { IfOk result (λ line. line ≡ refused_at zone.now) }
{
    match zone {
        ZoneSpec::Peer { spec, line } => Ok(is_refused(alloc, spec)?.then_some(*line)),
        _ => Ok(None),
    }
}

/// The line of the first zone of a configuration that has no block for a server of its upstream. Each zone of an upstream
/// is opened and given up again, one after another; other zones always have their blocks.
pub fn refused_line(alloc: Global, zones: &[ZoneSpec]) -> Result<Option<u64>, NoMemory>
    requires zones { AreZones zones.now }
    requires servers { All HasOwnServers zones.now }
    ensures { IfOk result (λ line. line ≡ refused_line zones.now) }
{
    for zone in zones {
        if let Some(line) = refused_at(alloc, zone)? {
            return Ok(Some(line));
        }
    }
    Ok(None)
}

/// Adds a journal to those of the zones before.
fn keep(journals: &mut Vec<ZoneJournal>, journal: ZoneJournal) -> Result<(), NoMemory>
    ensures { OnOk result (journals.new.items ≡ journals.old.items ++ journal ∷ []) }
{
    journals.push(journal)?;
    Ok(())
}

impl Journals {
    /// Opens the zones of a configuration, each with room for so many calls. `Refused` comes exactly where one of them has no
    /// block for a server of its upstream, with the line of the first.
    pub fn open(alloc: Global, zones: &[ZoneSpec], room: u32) -> Result<Journals, OpeningFault>
        requires zones { AreZones zones.now }
        requires servers { All HasOwnServers zones.now }
        ensures { OpensZones zones.now room result }
    {
        let mut journals = Vec::new(alloc);
        for zone in zones {
            keep(&mut journals, open_zone(alloc, zone, room)?)?;
        }
        Ok(Journals { journals })
    }
}
