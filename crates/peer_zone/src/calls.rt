use sqlite_items::Items;
use zone_outside::Text;

/// How an upstream chooses among its servers.
#[derive(Clone, Copy, Debug, PartialEq, Eq)]
pub enum Method {
    /// By weight, one after another (`ngx_http_upstream_round_robin`).
    Round,
    /// By the fewest connections to a server's weight (`least_conn`).
    Least,
}

/// A server of an upstream, as `server` declares it.
#[derive(Debug, Drop)]
pub struct Server {
    /// Its address, 1 to 255 bytes.
    pub address: Text,
    /// Its weight, 1 to 65,535.
    pub weight: u64,
    /// The most connections at once, up to 1,000,000,000, or 0 for any number.
    pub max_conns: u64,
    /// The failures after which it is left alone, up to 1,000,000,000, or 0 for never.
    pub max_fails: u64,
    /// For how many seconds it is left alone, up to 31,536,000.
    pub fail_timeout: u64,
    /// Whether it is never chosen.
    pub down: bool,
}

/// What an upstream's zone is opened with (`zone` in an `upstream` block).
#[derive(Debug, Drop)]
pub struct PeerSpec {
    /// The zone's name, 1 to 255 bytes.
    pub name: Text,
    /// The size of its shared memory in bytes, at most 67,108,864.
    pub bytes: u64,
    /// The binary logarithm of a page's size, 12.
    pub page_shift: u32,
    /// How it chooses among its servers.
    pub method: Method,
    /// The servers that are asked first, 1 to 64.
    pub primary: Items<Server>,
    /// The servers that are asked where none of the first can be, 0 to 64.
    pub backup: Items<Server>,
}

/// What an upstream's zone is asked. A moment is in seconds and below 2^42. List 0 has the primary servers and list 1
/// the backup servers.
#[derive(Debug, Drop)]
pub enum PeerCall {
    /// Which server of a list takes a request (`ngx_http_upstream_get_round_robin_peer`,
    /// `ngx_http_upstream_get_least_conn_peer`).
    Choose {
        /// The list, 0 or 1.
        list: u32,
        /// The servers that the request has tried: bit i stands for server i of the list.
        tried: u64,
        /// The moment of the choice.
        now: u64,
    },
    /// A request is done with a server that it was given (`ngx_http_upstream_free_round_robin_peer`).
    Free {
        /// The list, 0 or 1.
        list: u32,
        /// The server's index in the list.
        index: u32,
        /// Whether the server failed.
        failed: bool,
        /// The moment of the end.
        now: u64,
    },
}

/// What it answers.
#[derive(Clone, Copy, Debug, PartialEq, Eq)]
pub enum PeerReply {
    /// The server of this index takes the request.
    Peer {
        /// The server's index in the list.
        index: u32,
    },
    /// No server of the list is available.
    NoPeer,
    /// The request is done with the server.
    Freed,
}
