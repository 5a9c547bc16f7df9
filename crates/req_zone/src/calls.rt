use zone_key::Key;
use zone_outside::Text;

/// What a request zone is opened with (`limit_req_zone`).
#[derive(Debug, Drop)]
pub struct ReqSpec {
    /// The zone's name, 1 to 255 bytes.
    pub name: Text,
    /// The size of its shared memory in bytes, at most 67,108,864.
    pub bytes: u64,
    /// The binary logarithm of a page's size, 12.
    pub page_shift: u32,
    /// The rate in thousandths of a request per second, 1 to 1,000,000,000.
    pub rate: u64,
}

/// What a request zone is asked. A moment is in ms and below 2^42.
#[derive(Debug, Drop)]
pub enum ReqCall {
    /// Whether one request more of a key is within the burst (`ngx_http_limit_req_lookup`).
    Check {
        /// The key, 1 to 65,535 bytes.
        key: Key,
        /// The moment of the request.
        now: u64,
        /// The burst in thousandths of a request, at most 1,000,000,000.
        burst: u64,
        /// Whether this is the last limit of the request, which stores what it counts; an earlier one holds the entry.
        last: bool,
    },
    /// Counts the request on an entry that an earlier limit of it holds, and lets the entry go (`ngx_http_limit_req_account`).
    Account {
        /// The offset of the entry's block, as `Again` gave it.
        at: u64,
        /// The moment of the request.
        now: u64,
    },
    /// Lets an entry go without counting (`ngx_http_limit_req_unlock`).
    Release {
        /// The offset of the entry's block, as `Again` gave it.
        at: u64,
    },
}

/// What it answers. An excess is in thousandths of a request.
#[derive(Clone, Copy, Debug, PartialEq, Eq)]
pub enum ReqReply {
    /// The request may go on, and the last limit has stored its excess.
    Pass {
        /// The excess, at most the burst.
        excess: u64,
    },
    /// The request may go on so far: this limit holds the entry until an account or a release.
    Again {
        /// The excess, at most the burst.
        excess: u64,
        /// The offset of the entry's block, by which the account or the release names it.
        at: u64,
    },
    /// The excess is above the burst.
    Busy {
        /// The excess.
        excess: u64,
    },
    /// There was no block for a missing key, neither before nor after the forced expiry.
    NoRoom {
        /// How many entries both expiries removed.
        evicted: u64,
    },
    /// The request is counted.
    Accounted {
        /// The excess that the entry now has.
        excess: u64,
    },
    /// The entry is let go.
    Released,
}
