use conn_zone::{ConnCall, ConnReply};
use peer_zone::{PeerCall, PeerReply};
use req_zone::{ReqCall, ReqReply};

/// A call to a zone, which is named by its number in the configuration.
#[derive(Debug, Drop)]
pub enum ZoneCall {
    /// A call to a request zone.
    Req {
        /// The zone's number.
        zone: u32,
        /// The call.
        call: ReqCall,
    },
    /// A call to a connection zone.
    Conn {
        /// The zone's number.
        zone: u32,
        /// The call.
        call: ConnCall,
    },
    /// A call to an upstream's zone.
    Peer {
        /// The zone's number.
        zone: u32,
        /// The call.
        call: PeerCall,
    },
}

/// What a zone answers.
#[derive(Clone, Copy, Debug)]
pub enum ZoneReply {
    /// What a request zone answers.
    Req {
        /// The reply.
        reply: ReqReply,
    },
    /// What a connection zone answers.
    Conn {
        /// The reply.
        reply: ConnReply,
    },
    /// What an upstream's zone answers.
    Peer {
        /// The reply.
        reply: PeerReply,
    },
}
