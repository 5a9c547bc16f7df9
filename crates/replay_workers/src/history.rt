use conn_zone::ConnZone;
use peer_zone::PeerZone;
use req_zone::ReqZone;
use zone_object::Entry;

/// A zone as a replay leaves it, with the history of all calls to it, oldest first.
#[derive(Drop)]
pub enum ZoneHistory {
    /// A request zone.
    Req {
        /// The zone.
        zone: ReqZone,
        /// The calls to it with its replies.
        entries: Vec<Entry<ReqZone>>,
    },
    /// A connection zone.
    Conn {
        /// The zone.
        zone: ConnZone,
        /// The calls to it with its replies.
        entries: Vec<Entry<ConnZone>>,
    },
    /// An upstream's zone.
    Peer {
        /// The zone.
        zone: PeerZone,
        /// The calls to it with its replies.
        entries: Vec<Entry<PeerZone>>,
    },
}
