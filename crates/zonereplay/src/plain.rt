ghost use Rattle.std.specs.Prelude.{map};
ghost use Rattle.zonereplay.specs.Plan.{plain_plan};
ghost use Rattle.zonereplay.specs.Stages.{Prepares};

use crate::prepare::{open_config, read_text};
use crate::replay::{Wanted, read_requests};
use crate::stop::Stop;
use std::alloc::Global;
use zone_outside::{Shelf, Text};
use zone_watch::Watcher;

/// The text of `plain`, with all the memory that it takes, before any of it is written.
pub(crate) fn prepare_plain<F: Shelf>(
    alloc: Global,
    name: &Text,
    log: &Text,
    files: &mut F,
    watchers: &mut Vec<Box<dyn Watcher>>,
) -> Result<Text, Stop>
    ensures { Prepares (plain_plan name.now log.now)
        (record { contents = F.contents files.old; faults = F.faults files.old })
        (record { contents = F.contents files.new; faults = F.faults files.new })
        (map (λ b. watched b) watchers.old.items)
        (map (λ b. watched b) watchers.new.items)
        result }
{
    let text = match read_text(alloc, files, name) {
        Ok(text) => text,
        Err(stop) => return Err(stop),
    };
    match open_config(alloc, &text) {
        Ok(config) => read_requests(alloc, &config, Wanted::Histories, log, files, watchers),
        Err(stop) => Err(stop),
    }
}
