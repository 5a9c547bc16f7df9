ghost use Rattle.std.specs.Prelude.{◌≡◌, ◌≤◌, [], IfOk, codes, length, map, unwrap_or, count_by};
ghost use Rattle.std.specs.Option.{option_and_then, option_copied};
ghost use Rattle.std.specs.List.{filter, find, list_any, position, prefix_len};
ghost use Rattle.zone_key.specs.Expr.{expr_of};
ghost use Rattle.config_rules.specs.Words.{behind_scheme, first_of, host_of, is_called, is_host_byte, parameter};
ghost use Rattle.config_rules.specs.Numbers.{rate_of, time_of, zone_size};
ghost use Rattle.config_rules.specs.Rules.{is_primary};
ghost use Rattle.zone_config.specs.Configuration.{arguments_called, conn_limit, conn_zone, declared_or_none, delay_of, delay_with, in_32_bits, is_backup_server, is_down_word, is_zone_called, level_from, level_of, method_of, value_of_number, number_or, own_zone, peer_zone, peers_of, req_limit, req_zone, server_of, status_of, switch_of, upstream_of, zone_name, zone_number};
ghost use Rattle.config_rules.specs.Views.{declared_now, place_now, sources_now};
ghost use Rattle.zone_config.specs.Views.{delay_now};

use crate::data::{
    ConnData, ConnLimit, Level, MethodData, PeerData, ReqData, ReqLimit, ServerData, Upstream,
    ZoneSpec,
};
use crate::names::NamedUpstreams;
use config_rules::numbers::{digits_of, rate_of, time_of, zone_size};
use config_rules::place::inherited;
use config_rules::words::{
    Declaration, arguments_of, behind_first, declared_by, first_of, has_called, inner_of,
    is_called, is_same_name, parameter, value_of,
};
use config_rules::{Origins, Spot, is_backup, is_primary, location_name};
use directive_text::Directive;
use sqlite_items::Items;
use std::alloc::Global;
use zone_key::{Expr, ExprFault, read_expr};
use zone_outside::{NoMemory, Text};

/// The binary logarithm of a page's bytes.
pub const PAGE_SHIFT: u32 = 12;

/// A count in 32 bits, which stands still at the greatest of them.
fn in_32_bits(count: usize) -> u32
    ensures { result ≡ in_32_bits count }
{
    if count < 4_294_967_295 {
        count as u32
    } else {
        4_294_967_295
    }
}

/// A number, and 0 where there is none.
fn value_of_number(word: &[u8]) -> u64
    ensures value { result ≡ value_of_number word.now }
    ensures within { result ≤ 1073741823 }
{
    match digits_of(1_073_741_823, word) {
        Some(number) => number,
        None => 0,
    }
}

/// The number behind a prefix, or one that holds where it isn't given.
fn number_or(prefix: &[u8], default: u64, words: &[Text]) -> u64
    ensures value { result ≡ number_or prefix.now default words.now }
    ensures within { default ≤ 1073741823 → result ≤ 1073741823 }
{
    match parameter(prefix, words) {
        Some(value) => value_of_number(value),
        None => default,
    }
}

/// The key of a zone that is declared.
fn key_of(alloc: Global, words: &[Text]) -> Result<Expr, NoMemory>
    ensures { IfOk result (λ key. key.parts ≡ unwrap_or (expr_of (first_of words.now)) []) }
{
    match words {
        [] => Ok(Expr {
            parts: Items::new(alloc),
        }),
        [word, ..] => match read_expr(alloc, word) {
            Ok(expr) => Ok(expr),
            Err(ExprFault::BadKey) => Ok(Expr {
                parts: Items::new(alloc),
            }),
            Err(ExprFault::NoMemory) => Err(NoMemory),
        },
    }
}

/// The bytes of a zone's size, 0 where it is none.
fn bytes_of(size: &[u8]) -> u64
    ensures { result ≡ unwrap_or (zone_size size.now) 0 }
{
    match zone_size(size) {
        Some(bytes) => bytes,
        None => 0,
    }
}

/// The rate that a request zone's directive gives.
fn rate_in(words: &[Text]) -> u64
    ensures { result ≡ unwrap_or (option_and_then rate_of (parameter (codes "rate=") words.now)) 0 }
{
    match parameter(b"rate=", words) {
        Some(value) => match rate_of(value) {
            Some(rate) => rate,
            None => 0,
        },
        None => 0,
    }
}

/// A request zone.
pub(crate) fn req_zone(alloc: Global, words: &[Text]) -> Result<ZoneSpec, NoMemory>
    ensures { IfOk result (λ zone. zone ≡ req_zone words.now) }
{
    let later = behind_first(words);
    let declared = declared_or_none(later);
    let name = Text::of(alloc, declared.name)?;
    let bytes = bytes_of(declared.size);
    let rate = rate_in(later);
    let key = key_of(alloc, words)?;
    Ok(ZoneSpec::Req {
        spec: ReqData {
            name,
            bytes,
            page_shift: PAGE_SHIFT,
            rate,
        },
        key,
    })
}

/// The zone that arguments declare, an empty one where they declare none.
fn declared_or_none(words: &[Text]) -> Declaration<'_>
    ensures { declared_now result ≡ declared_or_none words.now }
{
    match declared_by(words) {
        Some(declared) => declared,
        None => Declaration {
            name: &[],
            size: &[],
        },
    }
}

/// A connection zone.
pub(crate) fn conn_zone(alloc: Global, words: &[Text]) -> Result<ZoneSpec, NoMemory>
    ensures { IfOk result (λ zone. zone ≡ conn_zone words.now) }
{
    let declared = declared_or_none(behind_first(words));
    let name = Text::of(alloc, declared.name)?;
    let bytes = bytes_of(declared.size);
    let key = key_of(alloc, words)?;
    Ok(ZoneSpec::Conn {
        spec: ConnData {
            name,
            bytes,
            page_shift: PAGE_SHIFT,
        },
        key,
    })
}

/// For how long a server that fails is left alone, in seconds.
fn fail_timeout_in(words: &[Text]) -> u64
    ensures { result ≡ unwrap_or (option_and_then time_of (parameter (codes "fail_timeout=") words.now)) 10 }
{
    match parameter(b"fail_timeout=", words) {
        Some(value) => match time_of(value) {
            Some(seconds) => seconds,
            None => 10,
        },
        None => 10,
    }
}

/// Whether a server is down.
fn is_down(words: &[Text]) -> bool
    ensures { result ≡ list_any is_down_word words.now }
{
    words.iter().any(|word| word.bytes() == b"down".as_slice())
}

/// A server of an upstream.
fn server_of(alloc: Global, directive: &Directive) -> Result<ServerData, NoMemory>
    ensures { IfOk result (λ server. server ≡ server_of directive.now) }
{
    let words = behind_first(arguments_of(directive));
    let address = Text::of(alloc, first_of(arguments_of(directive)))?;
    Ok(ServerData {
        address,
        weight: number_or(b"weight=", 1, words),
        max_conns: number_or(b"max_conns=", 0, words),
        max_fails: number_or(b"max_fails=", 1, words),
        fail_timeout: fail_timeout_in(words),
        down: is_down(words),
    })
}

/// Whether a directive is a server of the backup list.
fn is_backup_server(directive: &Directive) -> bool
    ensures { result ≡ is_backup_server directive.now }
{
    is_called(b"server", directive) && is_backup(directive)
}

/// The method of an upstream's block.
fn method_of(block: &[Directive]) -> MethodData
    ensures { result ≡ method_of block.now }
{
    if has_called(b"least_conn", block) {
        MethodData::Least
    } else {
        MethodData::Round
    }
}

/// The servers of a block's primary list.
fn primary_servers(alloc: Global, block: &[Directive]) -> Result<Items<ServerData>, NoMemory>
    ensures { IfOk result (λ servers. servers ≡ map server_of (filter is_primary block.now)) }
{
    let mut servers = Items::new(alloc);
    for directive in block {
        if is_primary(directive) {
            servers.push(server_of(alloc, directive)?)?;
        }
    }
    Ok(servers)
}

/// The servers of a block's backup list.
fn backup_servers(alloc: Global, block: &[Directive]) -> Result<Items<ServerData>, NoMemory>
    ensures { IfOk result (λ servers. servers ≡ map server_of (filter is_backup_server block.now)) }
{
    let mut servers = Items::new(alloc);
    for directive in block {
        if is_backup_server(directive) {
            servers.push(server_of(alloc, directive)?)?;
        }
    }
    Ok(servers)
}

/// The zone of an upstream, whose block this is.
pub(crate) fn peer_zone(
    alloc: Global,
    words: &[Text],
    line: u64,
    block: &[Directive],
) -> Result<ZoneSpec, NoMemory>
    ensures { IfOk result (λ zone. zone ≡ peer_zone words.now line block.now) }
{
    let name = Text::of(alloc, first_of(words))?;
    let primary = primary_servers(alloc, block)?;
    let backup = backup_servers(alloc, block)?;
    Ok(ZoneSpec::Peer {
        spec: PeerData {
            name,
            bytes: bytes_of(first_of(behind_first(words))),
            page_shift: PAGE_SHIFT,
            method: method_of(block),
            primary,
            backup,
        },
        line,
    })
}

/// A zone's name.
fn zone_name(zone: &ZoneSpec) -> &[u8]
    ensures { result.now ≡ zone_name zone.now }
{
    match zone {
        ZoneSpec::Req { spec, .. } => spec.name.bytes(),
        ZoneSpec::Conn { spec, .. } => spec.name.bytes(),
        ZoneSpec::Peer { spec, .. } => spec.name.bytes(),
    }
}

/// The place of the zone of a name.
fn zone_place(zones: &[ZoneSpec], name: &[u8]) -> Option<usize>
    ensures { result ≡ position (is_zone_called name.now) zones.now }
{
    zones.iter().position(|zone| zone_name(zone) == name)
}

/// The number of the zone of a name.
fn zone_number(zones: &[ZoneSpec], name: &[u8]) -> Option<u32>
    ensures { result ≡ zone_number zones.now name.now }
{
    match zone_place(zones, name) {
        Some(place) => Some(in_32_bits(place)),
        None => None,
    }
}

/// The first directive of a name.
fn directive_called<'a>(name: &[u8], block: &'a [Directive]) -> Option<&'a Directive>
    ensures { option_copied result ≡ find (is_called name.now) block.now }
{
    block.iter().find(|directive| is_called(name, directive))
}

/// The arguments of the first directive of a name.
fn arguments_called<'a>(name: &[u8], block: &'a [Directive]) -> Option<&'a [Text]>
    ensures { option_copied result ≡ arguments_called name.now block.now }
{
    match directive_called(name, block) {
        Some(directive) => Some(arguments_of(directive)),
        None => None,
    }
}

/// The number of the zone that an upstream's block names.
fn own_zone(zones: &[ZoneSpec], block: &[Directive]) -> Option<u32>
    ensures { result ≡ own_zone zones.now block.now }
{
    match arguments_called(b"zone", block) {
        Some(words) => zone_number(zones, first_of(words)),
        None => None,
    }
}

/// How many servers a block's primary list has.
fn count_primary(block: &[Directive]) -> usize
    ensures { result ≡ count_by is_primary block.now }
{
    block
        .iter()
        .filter(|directive| is_primary(directive))
        .count()
}

/// How many servers a block's backup list has.
fn count_backup(block: &[Directive]) -> usize
    ensures { result ≡ count_by is_backup_server block.now }
{
    block
        .iter()
        .filter(|directive| is_backup_server(directive))
        .count()
}

/// An upstream.
pub(crate) fn upstream_of(
    alloc: Global,
    zones: &[ZoneSpec],
    directive: &Directive,
) -> Result<Upstream, NoMemory>
    ensures { IfOk result (λ upstream. upstream ≡ upstream_of zones.now directive.now) }
{
    let block = inner_of(directive);
    let name = Text::of(alloc, first_of(arguments_of(directive)))?;
    Ok(Upstream {
        name,
        primary: in_32_bits(count_primary(block)),
        backup: in_32_bits(count_backup(block)),
        method: method_of(block),
        zone: own_zone(zones, block),
    })
}

/// What counts of `delay=N` and `nodelay`.
#[derive(Clone, Copy)]
pub(crate) struct DelayWord {
    /// Whether `nodelay` counts.
    pub(crate) never: bool,
    /// The number of `delay`.
    pub(crate) delay: u64,
}

/// What counts behind another word.
fn delay_with(delay: DelayWord, word: &[u8]) -> DelayWord
    ensures value { delay_now result ≡ delay_with (delay_now delay) word.now }
    ensures within { delay.delay ≤ 1073741823 → result.delay ≤ 1073741823 }
{
    if word == b"nodelay".as_slice() {
        return DelayWord {
            never: true,
            delay: 0,
        };
    }
    match value_of(b"delay=", word) {
        Some(value) => DelayWord {
            never: false,
            delay: value_of_number(value),
        },
        None => delay,
    }
}

/// What counts of `delay=N` and `nodelay`.
fn delay_of(words: &[Text]) -> DelayWord
    ensures value { delay_now result ≡ delay_of words.now }
    ensures within { result.delay ≤ 1073741823 }
{
    let mut delay = DelayWord {
        never: false,
        delay: 0,
    };
    for word in words {
        delay = delay_with(delay, word.bytes());
    }
    delay
}

/// The zone that `limit_req` names.
fn limit_zone(zones: &[ZoneSpec], words: &[Text]) -> u32
    ensures { result ≡ unwrap_or (option_and_then (zone_number zones.now) (parameter (codes "zone=") words.now)) 0 }
{
    match parameter(b"zone=", words) {
        Some(name) => match zone_number(zones, name) {
            Some(number) => number,
            None => 0,
        },
        None => 0,
    }
}

/// A limit of requests.
fn req_limit(zones: &[ZoneSpec], directive: &Directive) -> ReqLimit
    ensures { result ≡ req_limit zones.now directive.now }
{
    let words = arguments_of(directive);
    let delay = delay_of(words);
    ReqLimit {
        zone: limit_zone(zones, words),
        burst: 1000 * number_or(b"burst=", 0, words),
        allowed_never: delay.never,
        delay: 1000 * delay.delay,
    }
}

/// A limit of connections.
fn conn_limit(zones: &[ZoneSpec], directive: &Directive) -> ConnLimit
    ensures { result ≡ conn_limit zones.now directive.now }
{
    let words = arguments_of(directive);
    let zone = match zone_number(zones, first_of(words)) {
        Some(number) => number,
        None => 0,
    };
    ConnLimit {
        zone,
        limit: value_of_number(first_of(behind_first(words))),
    }
}

/// The limits of requests of a block.
fn req_limits(
    alloc: Global,
    zones: &[ZoneSpec],
    block: &[Directive],
) -> Result<Items<ReqLimit>, NoMemory>
    ensures { IfOk result (λ limits. limits ≡ map (req_limit zones.now) (filter (is_called (codes "limit_req")) block.now)) }
{
    let mut limits = Items::new(alloc);
    for directive in block {
        if is_called(b"limit_req", directive) {
            limits.push(req_limit(zones, directive))?;
        }
    }
    Ok(limits)
}

/// The limits of connections of a block.
fn conn_limits(
    alloc: Global,
    zones: &[ZoneSpec],
    block: &[Directive],
) -> Result<Items<ConnLimit>, NoMemory>
    ensures { IfOk result (λ limits. limits ≡ map (conn_limit zones.now) (filter (is_called (codes "limit_conn")) block.now)) }
{
    let mut limits = Items::new(alloc);
    for directive in block {
        if is_called(b"limit_conn", directive) {
            limits.push(conn_limit(zones, directive))?;
        }
    }
    Ok(limits)
}

/// A status: that of the directive of this name, or 503.
fn status_of(name: &[u8], source: &[Directive]) -> u32
    ensures { result ≡ status_of name.now source.now }
{
    match arguments_called(name, source) {
        Some(words) => value_of_number(first_of(words)) as u32,
        None => 503,
    }
}

/// A switch: on where the directive of this name says so.
fn switch_of(name: &[u8], source: &[Directive]) -> bool
    ensures { result ≡ switch_of name.now source.now }
{
    match arguments_called(name, source) {
        Some(words) => first_of(words) == b"on".as_slice(),
        None => false,
    }
}

/// What stands behind the first `://`.
fn behind_scheme(word: &[u8]) -> Option<&[u8]>
    ensures { option_copied result ≡ behind_scheme word.now }
{
    let mut rest = word;
    'bytes: while let [_, later @ ..] = rest {
        if rest.starts_with(b"://") {
            return Some(&rest[3..]);
        }
        rest = later;
    }
    None
}

/// How many bytes stand before the first `/`.
fn host_len(word: &[u8]) -> usize
    ensures value { result ≡ prefix_len is_host_byte word.now }
    ensures within { result ≤ length word.now }
{
    word.iter().take_while(|byte| **byte != b'/').count()
}

/// The host of a URL.
fn host_of(word: &[u8]) -> Option<&[u8]>
    ensures { option_copied result ≡ host_of word.now }
{
    match behind_scheme(word) {
        Some(rest) => Some(&rest[..host_len(rest)]),
        None => None,
    }
}

/// The zone of the upstream to which a block passes its requests.
fn peers_of(
    alloc: Global,
    upstreams: &NamedUpstreams<'_>,
    block: &[Directive],
) -> Result<Option<u32>, NoMemory>
    ensures { IfOk result (λ zone. zone ≡ peers_of upstreams.now block.now) }
{
    match arguments_called(b"proxy_pass", block) {
        Some(words) => match host_of(first_of(words)) {
            Some(name) => upstreams.zone_of(alloc, name),
            None => Ok(None),
        },
        None => Ok(None),
    }
}

/// A level of these sources.
fn level_from(
    alloc: Global,
    zones: &[ZoneSpec],
    upstreams: &NamedUpstreams<'_>,
    directive: &Directive,
    sources: &Origins<'_>,
) -> Result<Level, NoMemory>
    ensures { IfOk result (λ level. level ≡ level_from zones.now upstreams.now directive.now (sources_now sources.now)) }
{
    let name = location_name(alloc, arguments_of(directive))?;
    let req = req_limits(alloc, zones, sources.req)?;
    let conn = conn_limits(alloc, zones, sources.conn)?;
    let peers = peers_of(alloc, upstreams, inner_of(directive))?;
    Ok(Level {
        name,
        req,
        conn,
        req_status: status_of(b"limit_req_status", sources.req_status),
        conn_status: status_of(b"limit_conn_status", sources.conn_status),
        req_dry: switch_of(b"limit_req_dry_run", sources.req_dry),
        conn_dry: switch_of(b"limit_conn_dry_run", sources.conn_dry),
        peers,
    })
}

/// The level of a server or a location.
pub(crate) fn level_of(
    alloc: Global,
    zones: &[ZoneSpec],
    upstreams: &NamedUpstreams<'_>,
    place: &Spot<'_>,
) -> Result<Level, NoMemory>
    ensures { IfOk result (λ level. level ≡ level_of zones.now upstreams.now (place_now place.now)) }
{
    let sources = inherited(inner_of(place.directive), &place.scope.sources);
    level_from(alloc, zones, upstreams, place.directive, &sources)
}
