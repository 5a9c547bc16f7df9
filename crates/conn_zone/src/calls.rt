use zone_key::Key;
use zone_outside::Text;

/// What a connection zone is opened with (`limit_conn_zone`).
#[derive(Debug, Drop)]
pub struct ConnSpec {
    /// The zone's name, 1 to 255 bytes.
    pub name: Text,
    /// The size of its shared memory in bytes, at most 67,108,864.
    pub bytes: u64,
    /// The binary logarithm of a page's size, 12.
    pub page_shift: u32,
}

/// What a connection zone is asked.
#[derive(Debug, Drop)]
pub enum ConnCall {
    /// Whether one connection more of a key is within the limit, which is then counted (`ngx_http_limit_conn_handler`).
    Open {
        /// The key, 1 to 255 bytes.
        key: Key,
        /// The most connections of the key at once, 1 to 65,535.
        limit: u64,
    },
    /// A connection that was counted ends (`ngx_http_limit_conn_cleanup`).
    Close {
        /// The offset of the entry's block, as `Opened` gave it.
        at: u64,
    },
}

/// What it answers.
#[derive(Clone, Copy, Debug, PartialEq, Eq)]
pub enum ConnReply {
    /// The connection is counted, until a close.
    Opened {
        /// The offset of the entry's block, by which the close names it.
        at: u64,
        /// The connections that the key now has.
        count: u64,
    },
    /// The key has as many connections as the limit, or more.
    AtLimit {
        /// The connections that it has.
        count: u64,
    },
    /// There was no block for a missing key.
    NoRoom,
    /// The connection is no longer counted.
    Closed {
        /// The connections that the key now has; at 0 its entry is gone.
        count: u64,
    },
}
