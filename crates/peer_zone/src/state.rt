use crate::calls::{Method, Server};
use slab_model::PlainSlab;
use std::collections::LinkedList;
use zone_outside::Text;

/// The record of a server (`ngx_http_upstream_rr_peer_t`), as contracts see it. A moment is in seconds.
pub struct PeerRecord {
    /// What the server was declared as.
    pub server: Server,
    /// Its effective weight: the weight, less what its failures took and good rounds have not yet brought back.
    pub effective: u64,
    /// How near it is to its turn: grows by the effective weight in each round, and falls by the round's total when
    /// the server is chosen.
    pub current: i64,
    /// The requests that it has now.
    pub conns: u64,
    /// The failures that count against it.
    pub fails: u64,
    /// The moment of its last failure, or of a choice after its timeout.
    pub checked: u64,
    /// The moment of its last failure.
    pub accessed: u64,
}

/// The state of an upstream's zone, which its calls see and change. No value of it is made: contracts alone speak of
/// it.
pub struct PeerState {
    /// The zone's name.
    pub name: Text,
    /// How it chooses among its servers.
    pub method: Method,
    /// The records of the primary servers.
    pub primary: LinkedList<PeerRecord>,
    /// The records of the backup servers.
    pub backup: LinkedList<PeerRecord>,
    /// The pool that the blocks come from.
    pub slab: PlainSlab,
    /// The offsets of the zone's blocks in the order of their grants: the context, the name, the primary list and its
    /// records, the backup list and its records.
    pub blocks: LinkedList<u64>,
}
