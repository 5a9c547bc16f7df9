ghost use Rattle.std.specs.Prelude.{◌≡◌, ◌+◌, ◌++◌, IfOk, OnOk, count_by, map, [], ◌∷◌};
ghost use Rattle.std.specs.Option.{option_to_list};
ghost use Rattle.config_rules.specs.InOrder.{kind_at, places_of};
ghost use Rattle.config_rules.specs.Views.{place_now};
ghost use Rattle.zone_config.specs.Configuration.{in_64_bits, is_passed, passed_among, zone_at, zones_of};
ghost use Rattle.zone_config.specs.Outline.{if_level, if_upstream, level_places, upstream_directives};

use crate::build::{conn_zone, peer_zone, req_zone};
use crate::data::ZoneSpec;
use config_rules::place::kind_at;
use config_rules::words::arguments_of;
use config_rules::{Kind, Spot, Walk};
use directive_text::Directive;
use sqlite_items::Items;
use std::alloc::Global;
use zone_outside::NoMemory;

/// What one walk over the directives of a text finds: the zones, and where that stands which is built when all
/// zones are known.
#[derive(Drop)]
pub(crate) struct Outline<'a> {
    /// The zones, in the order of their directives.
    pub(crate) zones: Items<ZoneSpec>,
    /// The directives of the upstreams.
    pub(crate) upstreams: Vec<&'a Directive>,
    /// The places of the server and of the locations.
    pub(crate) levels: Vec<Spot<'a>>,
    /// How many directives are passed over.
    pub(crate) passed: u64,
}

/// Adds the zone that a directive of this kind declares.
fn add_zone(
    alloc: Global,
    zones: &mut Items<ZoneSpec>,
    kind: Kind,
    place: &Spot<'_>,
) -> Result<(), NoMemory>
    requires { kind ≡ kind_at (place_now place.now) }
    ensures { OnOk result (zones.new ≡ zones.old ++ option_to_list (zone_at (place_now place.now))) }
{
    let words = arguments_of(place.directive);
    match kind {
        Kind::ReqZone => zones.push(req_zone(alloc, words)?)?,
        Kind::ConnZone => zones.push(conn_zone(alloc, words)?)?,
        Kind::PeerZone => {
            let line = place.directive.line;
            zones.push(peer_zone(alloc, words, line, place.scope.block)?)?;
        }
        _ => {}
    }
    Ok(())
}

/// Adds a directive of this kind, if it is an upstream's.
fn add_upstream<'a>(
    upstreams: &mut Vec<&'a Directive>,
    kind: Kind,
    place: &Spot<'a>,
) -> Result<(), NoMemory>
    requires { kind ≡ kind_at (place_now place.now) }
    ensures { OnOk result (map (λ d. d.now) upstreams.new.items ≡ map (λ d. d.now) upstreams.old.items ++ option_to_list (if_upstream (place_now place.now))) }
{
    if let Kind::Upstream = kind {
        upstreams.push(place.directive)?;
    }
    Ok(())
}

/// Adds the place of a directive of this kind, if it is the server's or a location's.
fn add_level<'a>(levels: &mut Vec<Spot<'a>>, kind: Kind, place: &Spot<'a>) -> Result<(), NoMemory>
    requires { kind ≡ kind_at (place_now place.now) }
    ensures { OnOk result (map place_now levels.new.items ≡ map place_now levels.old.items ++ option_to_list (if_level (place_now place.now))) }
{
    if let Kind::Server | Kind::Location = kind {
        levels.push(*place)?;
    }
    Ok(())
}

/// Counts a directive of this kind, if it is passed over.
fn with_passed(passed: u64, kind: Kind, place: &Spot<'_>) -> u64
    requires { kind ≡ kind_at (place_now place.now) }
    ensures { result ≡ in_64_bits (passed + count_by is_passed (place_now place.now ∷ [])) }
{
    match kind {
        Kind::Unnamed => passed.saturating_add(1),
        _ => passed,
    }
}

/// Adds a directive in its place.
fn add_place<'a>(alloc: Global, outline: &mut Outline<'a>, place: &Spot<'a>) -> Result<(), NoMemory>
    ensures zones { OnOk result (outline.new.zones ≡ outline.old.zones ++ option_to_list (zone_at (place_now place.now))) }
    ensures upstreams { OnOk result (map (λ d. d.now) outline.new.upstreams.items ≡ map (λ d. d.now) outline.old.upstreams.items ++ option_to_list (if_upstream (place_now place.now))) }
    ensures levels { OnOk result (map place_now outline.new.levels.items ≡ map place_now outline.old.levels.items ++ option_to_list (if_level (place_now place.now))) }
    ensures passed { OnOk result (outline.new.passed ≡ in_64_bits (outline.old.passed + count_by is_passed (place_now place.now ∷ []))) }
{
    let kind = kind_at(place);
    add_zone(alloc, &mut outline.zones, kind, place)?;
    add_upstream(&mut outline.upstreams, kind, place)?;
    add_level(&mut outline.levels, kind, place)?;
    outline.passed = with_passed(outline.passed, kind, place);
    Ok(())
}

/// What one walk over directives finds.
pub(crate) fn outline_of(alloc: Global, directives: &[Directive]) -> Result<Outline<'_>, NoMemory>
    ensures zones { IfOk result (λ outline. outline.zones ≡ zones_of (places_of directives.now)) }
    ensures upstreams { IfOk result (λ outline. map (λ d. d.now) outline.upstreams.items ≡ upstream_directives (places_of directives.now)) }
    ensures levels { IfOk result (λ outline. map place_now outline.levels.items ≡ level_places (places_of directives.now)) }
    ensures passed { IfOk result (λ outline. outline.passed ≡ passed_among (places_of directives.now)) }
{
    let mut outline = Outline {
        zones: Items::new(alloc),
        upstreams: Vec::new(alloc),
        levels: Vec::new(alloc),
        passed: 0,
    };
    let mut walk = Walk::new(alloc, directives)?;
    'places: while let Some(place) = walk.next()? {
        add_place(alloc, &mut outline, &place)?;
    }
    Ok(outline)
}
