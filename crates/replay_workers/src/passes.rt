use conn_zone::ConnZone;
use peer_zone::PeerZone;
use req_zone::ReqZone;
use shared_zone::{Pass, SharedZone};

/// A zone of the configuration that the workers share.
#[derive(Drop)]
pub(crate) enum Shared {
    Req { zone: SharedZone<ReqZone> },
    Conn { zone: SharedZone<ConnZone> },
    Peer { zone: SharedZone<PeerZone> },
}

/// A worker's pass to a zone.
#[derive(Drop)]
pub(crate) enum ZonePass {
    Req { pass: Pass<ReqZone> },
    Conn { pass: Pass<ConnZone> },
    Peer { pass: Pass<PeerZone> },
}

/// The passes of one worker, by the zones' numbers.
#[derive(Drop)]
pub(crate) struct Row {
    pub(crate) number: u32,
    pub(crate) passes: Vec<ZonePass>,
}

/// What a worker has decided of its lines, in their order, and its passes afterwards.
#[derive(Drop)]
pub(crate) struct Played {
    pub(crate) number: u32,
    pub(crate) decisions: Vec<request_script::Decision>,
    pub(crate) passes: Vec<ZonePass>,
}
