ghost use Rattle.std.specs.Prelude.{◌≡◌, ◌++◌, IfOk, OnOk, MatchResult, map};
ghost use Rattle.std.specs.Option.{option_to_list};
ghost use Rattle.std.specs.List.{filter_map};
ghost use Rattle.config_rules.specs.InOrder.{places_of};
ghost use Rattle.zone_config.specs.Configuration.{Configures, location_at, server_among, upstream_of};
ghost use Rattle.zone_config.specs.Conditions.{IsConfig};
ghost use Rattle.config_rules.specs.Answers.{ReadsFault};
ghost use Rattle.zone_config.specs.Reading.{GivesConfig, IsWithoutServer};
ghost use Rattle.config_rules.specs.Views.{place_now};

use crate::build::{level_of, upstream_of};
use crate::data::{Config, Level, Upstream, ZoneSpec};
use crate::names::NamedUpstreams;
use crate::outline::{Outline, outline_of};
use config_rules::place::kind_at;
use config_rules::{ConfigFault, Kind, Spot, check_directives};
use directive_text::{Directive, Tree};
use sqlite_items::Items;
use std::alloc::Global;
use zone_outside::NoMemory;

/// The upstreams of these directives, in their order.
fn upstreams_of(
    alloc: Global,
    zones: &[ZoneSpec],
    directives: &[&Directive],
) -> Result<Items<Upstream>, NoMemory>
    ensures { IfOk result (λ upstreams. upstreams ≡ map (upstream_of zones.now) (map (λ d. d.now) directives.now)) }
{
    let mut upstreams = Items::new(alloc);
    let mut rest = directives;
    'directives: while let [directive, later @ ..] = rest {
        upstreams.push(upstream_of(alloc, zones, directive)?)?;
        rest = later;
    }
    Ok(upstreams)
}

/// The level of the server, if it is among these places.
fn server_among(
    alloc: Global,
    zones: &[ZoneSpec],
    upstreams: &NamedUpstreams<'_>,
    places: &[Spot<'_>],
) -> Result<Option<Level>, NoMemory>
    ensures { IfOk result (λ server. server ≡ server_among zones.now upstreams.now (map place_now places.now)) }
{
    let mut rest = places;
    'places: while let [place, later @ ..] = rest {
        if let Kind::Server = kind_at(place) {
            let server = level_of(alloc, zones, upstreams, place)?;
            return Ok(Some(server));
        }
        rest = later;
    }
    Ok(None)
}

/// Adds the level of a location.
fn add_location(
    alloc: Global,
    zones: &[ZoneSpec],
    upstreams: &NamedUpstreams<'_>,
    levels: &mut Items<Level>,
    place: &Spot<'_>,
) -> Result<(), NoMemory>
    ensures { OnOk result (levels.new ≡ levels.old ++ option_to_list (location_at zones.now upstreams.now (place_now place.now))) }
{
    if let Kind::Location = kind_at(place) {
        levels.push(level_of(alloc, zones, upstreams, place)?)?;
    }
    Ok(())
}

/// The levels of the locations among these places, in their order.
fn locations_of(
    alloc: Global,
    zones: &[ZoneSpec],
    upstreams: &NamedUpstreams<'_>,
    places: &[Spot<'_>],
) -> Result<Items<Level>, NoMemory>
    ensures { IfOk result (λ levels. levels ≡ filter_map (location_at zones.now upstreams.now) (map place_now places.now)) }
{
    let mut levels = Items::new(alloc);
    let mut rest = places;
    'places: while let [place, later @ ..] = rest {
        add_location(alloc, zones, upstreams, &mut levels, place)?;
        rest = later;
    }
    Ok(levels)
}

/// The level of the server, if it is among these places, and those of the locations.
fn levels_of(
    alloc: Global,
    zones: &[ZoneSpec],
    upstreams: &[Upstream],
    places: &[Spot<'_>],
) -> Result<(Option<Level>, Items<Level>), NoMemory>
    ensures { IfOk result (λ levels. (levels.0 ≡ server_among zones.now upstreams.now (map place_now places.now)) × (levels.1 ≡ filter_map (location_at zones.now upstreams.now) (map place_now places.now))) }
{
    let upstreams = NamedUpstreams::of(alloc, upstreams)?;
    let server = server_among(alloc, zones, &upstreams, places)?;
    let locations = locations_of(alloc, zones, &upstreams, places)?;
    Ok((server, locations))
}

/// The configuration of directives that break no rule.
fn configured(alloc: Global, directives: &[Directive]) -> Result<Config, ConfigFault>
    ensures { MatchResult result (λ config. Configures (places_of directives.now) config)
        (λ fault. IsWithoutServer fault (places_of directives.now)) }
{
    let outline = outline_of(alloc, directives)?;
    let Outline {
        zones,
        upstreams: blocks,
        levels,
        passed,
    } = outline;
    let upstreams = upstreams_of(alloc, zones.as_slice(), &blocks)?;
    let (server, locations) = levels_of(alloc, zones.as_slice(), upstreams.as_slice(), &levels)?;
    match server {
        Some(server) => Ok(Config {
            zones,
            upstreams,
            server,
            locations,
            passed,
        }),
        None => Err(ConfigFault::At { line: 1, rule: 1 }),
    }
}

/// The configuration of directives, or their first fault.
fn read_directives(alloc: Global, directives: &[Directive]) -> Result<Config, ConfigFault>
    ensures { MatchResult result (λ config. GivesConfig directives.now config)
        (λ fault. ReadsFault directives.now fault) }
{
    check_directives(alloc, directives)?;
    configured(alloc, directives)
}

/// The configuration that the directives of a text give, with inheritance done: a block without limits of its
/// own has those of the block around it, and so for each status and each dry run by itself, as nginx's
/// documentation of `ngx_http_limit_req_module` and `ngx_http_limit_conn_module` says.
///
/// `ConfigFault::At` comes exactly where a rule is broken: with the line of the first directive that breaks
/// one, and the least rule that it breaks. `ConfigFault::NoMemory` comes where there is no memory for the
/// configuration.
///
/// The zones and the locations of a configuration are few, and have names of their own. Each zone, upstream and
/// level is in its limits, and so are the bytes of all zones together; a limit's zone is one of its kind.
pub fn config_of(alloc: Global, tree: &Tree) -> Result<Config, ConfigFault>
    ensures reads { MatchResult result (λ config. GivesConfig tree.now.directives config)
        (λ fault. ReadsFault tree.now.directives fault) }
    ensures limits { IfOk result IsConfig }
{
    read_directives(alloc, tree.directives.as_slice())
}
