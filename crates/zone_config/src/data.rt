use sqlite_items::Items;
use zone_key::Expr;
use zone_outside::Text;

/// A request zone, as `limit_req_zone` declares it.
#[derive(Debug, Drop)]
pub struct ReqData {
    /// Its name, of 1 to 255 bytes.
    pub name: Text,
    /// Its size in bytes.
    pub bytes: u64,
    /// The binary logarithm of a page's bytes.
    pub page_shift: u32,
    /// Its rate, in thousandths of a request a second.
    pub rate: u64,
}

/// A connection zone, as `limit_conn_zone` declares it.
#[derive(Debug, Drop)]
pub struct ConnData {
    /// Its name, of 1 to 255 bytes.
    pub name: Text,
    /// Its size in bytes.
    pub bytes: u64,
    /// The binary logarithm of a page's bytes.
    pub page_shift: u32,
}

/// How an upstream chooses among its servers.
#[derive(Clone, Copy, Debug)]
pub enum MethodData {
    /// By weight, one after another.
    Round,
    /// By the fewest connections to a server's weight: `least_conn`.
    Least,
}

/// A server of an upstream.
#[derive(Debug, Drop)]
pub struct ServerData {
    /// Its address, of 1 to 255 bytes.
    pub address: Text,
    /// Its weight.
    pub weight: u64,
    /// The most connections at once, or 0 for any number.
    pub max_conns: u64,
    /// The failures after which it is left alone, or 0 for never.
    pub max_fails: u64,
    /// For how long it is left alone, in seconds.
    pub fail_timeout: u64,
    /// Whether it is never chosen.
    pub down: bool,
}

/// An upstream's zone, as `zone` declares it in an `upstream` block.
#[derive(Debug, Drop)]
pub struct PeerData {
    /// Its name, of 1 to 255 bytes.
    pub name: Text,
    /// Its size in bytes.
    pub bytes: u64,
    /// The binary logarithm of a page's bytes.
    pub page_shift: u32,
    /// How it chooses among its servers.
    pub method: MethodData,
    /// The servers that are asked first.
    pub primary: Items<ServerData>,
    /// The servers that are asked where none of the first can be.
    pub backup: Items<ServerData>,
}

/// A zone of a configuration.
#[derive(Debug, Drop)]
pub enum ZoneSpec {
    /// A request zone, and the key of a request.
    Req { spec: ReqData, key: Expr },
    /// A connection zone, and the key of a request.
    Conn { spec: ConnData, key: Expr },
    /// An upstream's zone, and the line of its `zone` directive.
    Peer { spec: PeerData, line: u64 },
}

/// A limit of requests.
#[derive(Debug, Drop)]
pub struct ReqLimit {
    /// The number of its zone.
    pub zone: u32,
    /// Its burst, in thousandths of a request.
    pub burst: u64,
    /// Whether `nodelay` counts.
    pub allowed_never: bool,
    /// The excess up to which there is no delay, in thousandths of a request; 0 where `nodelay` counts.
    pub delay: u64,
}

/// A limit of connections.
#[derive(Debug, Drop)]
pub struct ConnLimit {
    /// The number of its zone.
    pub zone: u32,
    /// The most connections of one key.
    pub limit: u64,
}

/// The server or a location, with what it inherits.
#[derive(Debug, Drop)]
pub struct Level {
    /// A location's words with a space between two; empty for the server.
    pub name: Text,
    /// Its limits of requests, in the order of their directives.
    pub req: Items<ReqLimit>,
    /// Its limits of connections, in the order of their directives.
    pub conn: Items<ConnLimit>,
    /// The status of a request that a limit of requests refuses.
    pub req_status: u32,
    /// The status of a request that a limit of connections refuses.
    pub conn_status: u32,
    /// Whether limits of requests refuse and delay nothing.
    pub req_dry: bool,
    /// Whether limits of connections refuse nothing.
    pub conn_dry: bool,
    /// The number of the zone of the upstream to which it passes requests.
    pub peers: Option<u32>,
}

/// An upstream.
#[derive(Debug, Drop)]
pub struct Upstream {
    /// Its name.
    pub name: Text,
    /// How many servers are asked first.
    pub primary: u32,
    /// How many servers are asked where none of the first can be.
    pub backup: u32,
    /// How it chooses among its servers.
    pub method: MethodData,
    /// The number of its zone.
    pub zone: Option<u32>,
}

/// What the directives of a text say, with inheritance done.
#[derive(Debug, Drop)]
pub struct Config {
    /// The zones, in the order of their directives.
    pub zones: Items<ZoneSpec>,
    /// The upstreams, in the order of their directives.
    pub upstreams: Items<Upstream>,
    /// The server.
    pub server: Level,
    /// The locations, in the order of their directives.
    pub locations: Items<Level>,
    /// How many directives were passed over: each that is none of those that are read, counted once
    /// with all that its block holds.
    pub passed: u64,
}
