ghost use Rattle.std.specs.Prelude.{◌≡◌, ◌∷◌, [], IfOk, None};
ghost use Rattle.zone_config.specs.Conditions.{IsConfig};
ghost use Rattle.replay_share.specs.Opening.{refused_line};
ghost use Rattle.made_log.specs.MadeConfig.{addr_limit, addr_zone, back_data, back_upstream, by_address, made_config, made_location, made_server, made_zones, one_limit, one_zone, server};

use sqlite_items::Items;
use std::alloc::{AllocError, Global};
use zone_config::{
    Config, ConnData, ConnLimit, Level, MethodData, PeerData, ReqData, ReqLimit, ServerData,
    Upstream, ZoneSpec,
};
use zone_key::{Expr, Part};
use zone_outside::{NoMemory, Text};

/// The bytes of each zone.
const ZONE_BYTES: u64 = 1_048_576;

/// The binary logarithm of a page's bytes.
const PAGE_SHIFT: u32 = 12;

/// The status of a request that a limit refuses.
const REFUSED: u32 = 503;

/// A list of one item.
fn only<T: Drop>(alloc: Global, item: T) -> Result<Items<T>, AllocError>
    ensures { IfOk result (λ items. items ≡ item ∷ []) }
{
    let mut items = Items::new(alloc);
    items.push(item)?;
    Ok(items)
}

/// The key of an address.
fn by_address(alloc: Global) -> Result<Expr, AllocError>
    ensures { IfOk result (λ key. key ≡ by_address) }
{
    Ok(Expr {
        parts: only(alloc, Part::Binary)?,
    })
}

/// The request zone.
fn one_zone(alloc: Global) -> Result<ZoneSpec, NoMemory>
    ensures { IfOk result (λ zone. zone ≡ one_zone) }
{
    let spec = ReqData {
        name: Text::of(alloc, b"one")?,
        bytes: ZONE_BYTES,
        page_shift: PAGE_SHIFT,
        rate: 1000,
    };
    let key = by_address(alloc)?;
    Ok(ZoneSpec::Req { spec, key })
}

/// The connection zone.
fn addr_zone(alloc: Global) -> Result<ZoneSpec, NoMemory>
    ensures { IfOk result (λ zone. zone ≡ addr_zone) }
{
    let spec = ConnData {
        name: Text::of(alloc, b"addr")?,
        bytes: ZONE_BYTES,
        page_shift: PAGE_SHIFT,
    };
    let key = by_address(alloc)?;
    Ok(ZoneSpec::Conn { spec, key })
}

/// A server of this weight.
fn server(alloc: Global, address: &[u8], weight: u64) -> Result<ServerData, NoMemory>
    ensures { IfOk result (λ made. made ≡ server address.now weight) }
{
    Ok(ServerData {
        address: Text::of(alloc, address)?,
        weight,
        max_conns: 0,
        max_fails: 1,
        fail_timeout: 10,
        down: false,
    })
}

/// The upstream's zone.
fn back_data(alloc: Global) -> Result<PeerData, NoMemory>
    ensures { IfOk result (λ zone. zone ≡ back_data) }
{
    let mut primary = only(alloc, server(alloc, b"10.1.0.1:80", 5)?)?;
    primary.push(server(alloc, b"10.1.0.2:80", 1)?)?;
    let backup = only(alloc, server(alloc, b"10.1.0.3:80", 1)?)?;
    Ok(PeerData {
        name: Text::of(alloc, b"back")?,
        bytes: ZONE_BYTES,
        page_shift: PAGE_SHIFT,
        method: MethodData::Round,
        primary,
        backup,
    })
}

/// The zones.
fn made_zones(alloc: Global) -> Result<Items<ZoneSpec>, NoMemory>
    ensures { IfOk result (λ zones. zones ≡ made_zones) }
{
    let mut zones = only(alloc, one_zone(alloc)?)?;
    zones.push(addr_zone(alloc)?)?;
    let spec = back_data(alloc)?;
    zones.push(ZoneSpec::Peer { spec, line: 5 })?;
    Ok(zones)
}

/// The upstream.
fn back_upstream(alloc: Global) -> Result<Upstream, NoMemory>
    ensures { IfOk result (λ upstream. upstream ≡ back_upstream) }
{
    Ok(Upstream {
        name: Text::of(alloc, b"back")?,
        primary: 2,
        backup: 1,
        method: MethodData::Round,
        zone: Some(2),
    })
}

/// The server.
fn made_server(alloc: Global) -> Result<Level, NoMemory>
    ensures { IfOk result (λ level. level ≡ made_server) }
{
    Ok(Level {
        name: Text::of(alloc, b"")?,
        req: Items::new(alloc),
        conn: Items::new(alloc),
        req_status: REFUSED,
        conn_status: REFUSED,
        req_dry: false,
        conn_dry: false,
        peers: None,
    })
}

/// The location.
fn made_location(alloc: Global) -> Result<Level, NoMemory>
    ensures { IfOk result (λ level. level ≡ made_location) }
{
    let limit = ReqLimit {
        zone: 0,
        burst: 3000,
        allowed_never: false,
        delay: 0,
    };
    Ok(Level {
        name: Text::of(alloc, b"/")?,
        req: only(alloc, limit)?,
        conn: only(alloc, ConnLimit { zone: 1, limit: 4 })?,
        req_status: REFUSED,
        conn_status: REFUSED,
        req_dry: false,
        conn_dry: false,
        peers: Some(2),
    })
}

/// The configuration, part by part.
fn built(alloc: Global) -> Result<Config, NoMemory>
    ensures { IfOk result (λ config. config ≡ made_config) }
{
    let zones = made_zones(alloc)?;
    let server = made_server(alloc)?;
    let upstream = back_upstream(alloc)?;
    let location = made_location(alloc)?;
    Ok(Config {
        zones,
        upstreams: only(alloc, upstream)?,
        server,
        locations: only(alloc, location)?,
        passed: 0,
    })
}

/// The configuration in which the made log is replayed. It is the one that these directives give:
///
/// ```text
/// http {
///   limit_req_zone $binary_remote_addr zone=one:1m rate=1r/s;
///   limit_conn_zone $binary_remote_addr zone=addr:1m;
///   upstream back {
///     zone back 1m;
///     server 10.1.0.1:80 weight=5;
///     server 10.1.0.2:80;
///     server 10.1.0.3:80 backup;
///   }
///   server {
///     location / { limit_req zone=one burst=3; limit_conn addr 4; proxy_pass http://back; }
///   }
/// }
/// ```
///
/// Each server of the upstream has a block in its zone. `NoMemory`: there was none for the configuration.
pub fn made_config(alloc: Global) -> Result<Config, NoMemory>
    ensures made { IfOk result (λ config. config ≡ made_config) }
    ensures in_limits { IfOk result IsConfig }
    ensures opens { IfOk result (λ config. refused_line config.zones ≡ None) }
{
    let config = built(alloc)?;
    Ok(config)
}
