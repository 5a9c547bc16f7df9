ghost use Rattle.std.specs.Prelude.{◌≡◌, slice_get, count_by, IfOk};
ghost use Rattle.request_script.specs.Progress.{HasFewServers};
ghost use Rattle.request_script.specs.Zones.{backup_in, has_backups, is_single, is_skipped, is_up, key_of, level_at, primary_in, rate_of, servers_up};

use std::alloc::Global;
use zone_config::{Config, Level, ServerData, ZoneSpec};
use zone_key::{Key, Vars, value};
use zone_outside::NoMemory;

/// The server, or the location of a number.
pub(crate) fn level_at(config: &Config, location: Option<u32>) -> &Level
    ensures { result.now ≡ level_at config.now location }
{
    match location {
        None => &config.server,
        Some(number) => match config.locations.get(number as usize) {
            Some(level) => level,
            None => &config.server,
        },
    }
}

/// The key of a request in a zone.
pub(crate) fn key_of(
    alloc: Global,
    config: &Config,
    vars: &Vars,
    zone: u32,
) -> Result<Key, NoMemory>
    ensures { IfOk result (λ key. key ≡ key_of config.now vars.now zone) }
{
    match config.zones.get(zone as usize) {
        Some(ZoneSpec::Req { spec: _, key }) => value(alloc, key, vars),
        Some(ZoneSpec::Conn { spec: _, key }) => value(alloc, key, vars),
        Some(ZoneSpec::Peer { spec: _, line: _ }) => Ok(Key::from_vec(Vec::new(alloc))),
        None => Ok(Key::from_vec(Vec::new(alloc))),
    }
}

/// Whether a zone takes no key like this: an empty one, or one of more bytes than its nodes have.
pub(crate) fn is_skipped(most: u64, key: &Key) -> bool
    ensures { result ≡ is_skipped most key.now }
{
    key.len() == 0 || most < key.len()
}

/// The rate of a zone; 1 stands for that of another zone than one of requests.
pub(crate) fn rate_of(config: &Config, zone: u32) -> u64
    ensures { result ≡ rate_of config.now zone }
{
    match config.zones.get(zone as usize) {
        Some(ZoneSpec::Req { spec, key: _ }) => spec.rate,
        Some(ZoneSpec::Conn { spec: _, key: _ }) => 1,
        Some(ZoneSpec::Peer { spec: _, line: _ }) => 1,
        None => 1,
    }
}

/// The servers of an upstream that are asked first.
fn primary_of(config: &Config, zone: u32) -> &[ServerData]
    ensures { result.now ≡ primary_in (slice_get config.now.zones zone) }
{
    match config.zones.get(zone as usize) {
        Some(ZoneSpec::Peer { spec, line: _ }) => spec.primary.as_slice(),
        Some(ZoneSpec::Req { spec: _, key: _ }) => &[],
        Some(ZoneSpec::Conn { spec: _, key: _ }) => &[],
        None => &[],
    }
}

/// The servers of an upstream that are asked where none of the first can be.
fn backup_of(config: &Config, zone: u32) -> &[ServerData]
    ensures { result.now ≡ backup_in (slice_get config.now.zones zone) }
{
    match config.zones.get(zone as usize) {
        Some(ZoneSpec::Peer { spec, line: _ }) => spec.backup.as_slice(),
        Some(ZoneSpec::Req { spec: _, key: _ }) => &[],
        Some(ZoneSpec::Conn { spec: _, key: _ }) => &[],
        None => &[],
    }
}

/// Whether an upstream has backup servers.
pub(crate) fn has_backups(config: &Config, zone: u32) -> bool
    ensures { result ≡ has_backups config.now zone }
{
    0 < backup_of(config, zone).len()
}

/// Whether an upstream has exactly one server and no backup.
pub(crate) fn is_single(config: &Config, zone: u32) -> bool
    ensures { result ≡ is_single config.now zone }
{
    primary_of(config, zone).len() == 1 && !has_backups(config, zone)
}

/// How many of these servers aren't down.
fn up_in(servers: &[ServerData]) -> usize
    ensures { result ≡ count_by is_up servers.now }
{
    servers.iter().filter(|server| !server.down).count()
}

/// How many servers of both lists of an upstream aren't down.
pub(crate) fn servers_up(config: &Config, zone: u32) -> u64
    requires { HasFewServers config.now }
    ensures { result ≡ servers_up config.now zone }
{
    (up_in(primary_of(config, zone)) + up_in(backup_of(config, zone))) as u64
}
