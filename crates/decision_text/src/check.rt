ghost use Rattle.std.specs.Prelude.{◌≡◌, ◌++◌, ◌≤◌, IfOk, OnOk};
ghost use Rattle.std.specs.List.{All, flat_map};
ghost use Rattle.zone_config.specs.Configuration.{zone_name};
ghost use Rattle.zone_config.specs.Conditions.{IsWithin, IsZoneSpec, AreZones};
ghost use Rattle.decision_text.specs.CheckText.{zone_words, zone_line, name_or_dash, zone_numbered, method_word, upstream_line, limits_words, location_line, check_text};

use crate::coding::push_coded;
use crate::numbers::push_number;
use slab_model::{Shape, page_count};
use std::alloc::{AllocError, Global};
use zone_config::{Config, Level, MethodData, Upstream, ZoneSpec};
use zone_outside::{NoMemory, Text};

/// Adds `zone NAME KIND bytes=B pages=P`, whose kind has `bytes=` behind it.
fn push_zone_words(
    text: &mut Vec<u8>,
    name: &[u8],
    kind: &[u8],
    bytes: u64,
    page_shift: u32,
) -> Result<(), AllocError>
    requires bytes { IsWithin 32768 67108864 bytes }
    requires shift { page_shift ≡ 12 }
    ensures { OnOk result (text.new.items ≡ text.old.items ++ zone_words name.now kind.now bytes page_shift) }
{
    text.extend_from_slice(b"zone ")?;
    push_coded(text, name)?;
    text.extend_from_slice(kind)?;
    push_number(text, bytes)?;
    text.extend_from_slice(b" pages=")?;
    push_number(text, page_count(Shape { bytes, page_shift }))?;
    text.extend_from_slice(b"\n")
}

/// Adds the line of a zone.
fn push_zone(text: &mut Vec<u8>, zone: &ZoneSpec) -> Result<(), AllocError>
    requires { IsZoneSpec zone.now }
    ensures { OnOk result (text.new.items ≡ text.old.items ++ zone_line zone.now) }
{
    match zone {
        ZoneSpec::Req { spec, key: _ } => push_zone_words(
            text,
            spec.name.bytes(),
            b" req bytes=",
            spec.bytes,
            spec.page_shift,
        ),
        ZoneSpec::Conn { spec, key: _ } => push_zone_words(
            text,
            spec.name.bytes(),
            b" conn bytes=",
            spec.bytes,
            spec.page_shift,
        ),
        ZoneSpec::Peer { spec, line: _ } => push_zone_words(
            text,
            spec.name.bytes(),
            b" peer bytes=",
            spec.bytes,
            spec.page_shift,
        ),
    }
}

/// The name of a zone of a configuration.
pub fn name_of(zone: &ZoneSpec) -> &[u8]
    ensures { result.now ≡ zone_name zone.now }
{
    match zone {
        ZoneSpec::Req { spec, key: _ } => spec.name.bytes(),
        ZoneSpec::Conn { spec, key: _ } => spec.name.bytes(),
        ZoneSpec::Peer { spec, line: _ } => spec.name.bytes(),
    }
}

/// The word of a method.
fn method_word(method: MethodData) -> &'static [u8]
    ensures { result.now ≡ method_word method }
{
    match method {
        MethodData::Round => b"round",
        MethodData::Least => b"least",
    }
}

/// Adds the name of the zone of this number, or `-` where there is none.
fn push_zone_name(
    text: &mut Vec<u8>,
    zones: &[ZoneSpec],
    number: Option<u32>,
) -> Result<(), AllocError>
    ensures { OnOk result (text.new.items ≡ text.old.items ++ name_or_dash (zone_numbered zones.now number)) }
{
    match number.and_then(|number| zones.get(number as usize)) {
        Some(zone) => push_coded(text, name_of(zone)),
        None => text.extend_from_slice(b"-"),
    }
}

/// Adds the line of an upstream.
fn push_upstream(
    text: &mut Vec<u8>,
    zones: &[ZoneSpec],
    upstream: &Upstream,
) -> Result<(), AllocError>
    ensures { OnOk result (text.new.items ≡ text.old.items ++ upstream_line zones.now upstream.now) }
{
    text.extend_from_slice(b"upstream ")?;
    push_coded(text, upstream.name.bytes())?;
    text.extend_from_slice(b" primary=")?;
    push_number(text, u64::from(upstream.primary))?;
    text.extend_from_slice(b" backup=")?;
    push_number(text, u64::from(upstream.backup))?;
    text.extend_from_slice(b" method=")?;
    text.extend_from_slice(method_word(upstream.method))?;
    text.extend_from_slice(b" zone=")?;
    push_zone_name(text, zones, upstream.zone)?;
    text.extend_from_slice(b"\n")
}

/// Adds how many limits of each kind a level has.
fn push_limits(text: &mut Vec<u8>, level: &Level) -> Result<(), AllocError>
    ensures { OnOk result (text.new.items ≡ text.old.items ++ limits_words level.now) }
{
    text.extend_from_slice(b"req=")?;
    push_number(text, level.req.len() as u64)?;
    text.extend_from_slice(b" conn=")?;
    push_number(text, level.conn.len() as u64)?;
    text.extend_from_slice(b"\n")
}

/// Adds the line of a location.
fn push_location(text: &mut Vec<u8>, level: &Level) -> Result<(), AllocError>
    ensures { OnOk result (text.new.items ≡ text.old.items ++ location_line level.now) }
{
    text.extend_from_slice(b"location ")?;
    push_coded(text, level.name.bytes())?;
    text.extend_from_slice(b" ")?;
    push_limits(text, level)
}

/// Adds the lines of all zones.
fn push_zones(text: &mut Vec<u8>, zones: &[ZoneSpec]) -> Result<(), AllocError>
    requires { All IsZoneSpec zones.now }
    ensures { OnOk result (text.new.items ≡ text.old.items ++ flat_map zone_line zones.now) }
{
    for zone in zones {
        push_zone(text, zone)?;
    }
    Ok(())
}

/// Adds the lines of all upstreams.
fn push_upstreams(
    text: &mut Vec<u8>,
    zones: &[ZoneSpec],
    upstreams: &[Upstream],
) -> Result<(), AllocError>
    ensures { OnOk result (text.new.items ≡ text.old.items ++ flat_map (upstream_line zones.now) upstreams.now) }
{
    for upstream in upstreams {
        push_upstream(text, zones, upstream)?;
    }
    Ok(())
}

/// Adds the lines of all locations.
fn push_locations(text: &mut Vec<u8>, locations: &[Level]) -> Result<(), AllocError>
    ensures { OnOk result (text.new.items ≡ text.old.items ++ flat_map location_line locations.now) }
{
    for location in locations {
        push_location(text, location)?;
    }
    Ok(())
}

/// What a configuration says, a line for each zone, each upstream, the server and each location, with the limits that
/// they inherit, and one for the directives that were passed over. `NoMemory`: there was none for the text.
pub fn check_text(alloc: Global, config: &Config) -> Result<Text, NoMemory>
    requires { AreZones config.now.zones }
    ensures { IfOk result (λ text. text ≡ check_text config.now) }
{
    let mut text = Vec::new(alloc);
    let zones = config.zones.as_slice();
    push_zones(&mut text, zones)?;
    push_upstreams(&mut text, zones, config.upstreams.as_slice())?;
    text.extend_from_slice(b"server ")?;
    push_limits(&mut text, &config.server)?;
    push_locations(&mut text, config.locations.as_slice())?;
    text.extend_from_slice(b"passed over ")?;
    push_number(&mut text, config.passed)?;
    text.extend_from_slice(b"\n")?;
    Ok(Text::from_vec(text))
}
