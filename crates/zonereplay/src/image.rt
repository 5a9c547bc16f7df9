ghost use Rattle.std.specs.Prelude.{◌≡◌, ◌<◌, length, None, IfSome, map};
ghost use Rattle.std.specs.List.{position};
ghost use Rattle.zone_config.specs.Conditions.{IsConfig};
ghost use Rattle.zone_config.specs.Configuration.{is_zone_called};
ghost use Rattle.replay_share.specs.Opening.{refused_line};
ghost use Rattle.zonereplay.specs.Plan.{image_log, image_plan};
ghost use Rattle.zonereplay.specs.Stages.{Prepares};

use crate::prepare::{open_config, read_text};
use crate::replay::{Wanted, read_requests};
use crate::stop::{Refusal, Stop};
use decision_text::name_of;
use std::alloc::Global;
use zone_config::{Config, ZoneSpec};
use zone_outside::{Shelf, Text};
use zone_watch::Watcher;

/// The rule that a zone that is named is one of the configuration.
const NO_ZONE: u32 = 11;

/// The number of the zone of a name.
fn zone_number(zones: &[ZoneSpec], name: &[u8]) -> Option<usize>
    ensures number { result ≡ position (is_zone_called name.now) zones.now }
    ensures there { IfSome result (λ zone. zone < length zones.now) }
{
    zones.iter().position(|zone| name_of(zone) == name)
}

/// The words of the zone of this name, after a replay of the log of this name. Where the configuration has no such zone,
/// it is refused by rule 11 at line 0, and the log isn't opened.
fn read_image<F: Shelf>(
    alloc: Global,
    config: &Config,
    zone: &Text,
    log: &Text,
    files: &mut F,
    watchers: &mut Vec<Box<dyn Watcher>>,
) -> Result<Text, Stop>
    requires config { IsConfig config.now }
    requires given { refused_line config.now.zones ≡ None }
    ensures { Prepares (image_log log.now zone.now config.now)
        (record { contents = F.contents files.old; faults = F.faults files.old })
        (record { contents = F.contents files.new; faults = F.faults files.new })
        (map (λ b. watched b) watchers.old.items)
        (map (λ b. watched b) watchers.new.items)
        result }
{
    match zone_number(config.zones.as_slice(), zone.bytes()) {
        Some(zone) => read_requests(alloc, config, Wanted::Words { zone }, log, files, watchers),
        None => Err(Stop::Refused(Refusal::Rule {
            line: 0,
            rule: NO_ZONE,
        })),
    }
}

/// The text of `image`, with all the memory that it takes, before any of it is written.
pub(crate) fn prepare_image<F: Shelf>(
    alloc: Global,
    name: &Text,
    log: &Text,
    zone: &Text,
    files: &mut F,
    watchers: &mut Vec<Box<dyn Watcher>>,
) -> Result<Text, Stop>
    ensures { Prepares (image_plan name.now log.now zone.now)
        (record { contents = F.contents files.old; faults = F.faults files.old })
        (record { contents = F.contents files.new; faults = F.faults files.new })
        (map (λ b. watched b) watchers.old.items)
        (map (λ b. watched b) watchers.new.items)
        result }
{
    let text = match read_text(alloc, files, name) {
        Ok(text) => text,
        Err(stop) => return Err(stop),
    };
    match open_config(alloc, &text) {
        Ok(config) => read_image(alloc, &config, zone, log, files, watchers),
        Err(stop) => Err(stop),
    }
}
