ghost use Rattle.std.specs.Prelude.{ℕ, ◌≡◌, ◌≤◌, ◌++◌, List, length, map, None, IfOk, OnOk};
ghost use Rattle.std.specs.List.{All};
ghost use Rattle.zone_config.specs.Conditions.{IsConfig};
ghost use Rattle.replay_log.specs.Limits.{IsLineOf};
ghost use Rattle.request_script.specs.Turn.{Exchange};
ghost use Rattle.replay_share.specs.Journals.{Serves, log_of};
ghost use Rattle.replay_share.specs.Opening.{refused_line};
ghost use Rattle.made_log.specs.MadeConfig.{made_config};
ghost use Rattle.made_log.specs.MadeLog.{made_lines};
ghost use Rattle.made_log.specs.Summary.{zone_lines};
ghost use Rattle.zonereplay.specs.Told.{ShowsSummary};
ghost use Rattle.zonereplay.specs.Plan.{made_plan};
ghost use Rattle.zonereplay.specs.Devices.{Files};
ghost use Rattle.zone_watch.specs.Watched.{Watched};
ghost use Rattle.zonereplay.specs.Stages.{Prepares};

use crate::replay::play;
use crate::stop::Stop;
use made_log::{made_config, made_lines, push_decisions_line, push_zone_summary};
use replay_log::Line;
use replay_share::Journals;
use std::alloc::{AllocError, Global};
use zone_config::{Config, ZoneSpec};
use zone_outside::{NoMemory, Text};

/// Adds the line of each zone after its history, in the order of the zones.
fn push_zone_lines(
    text: &mut Vec<u8>,
    specs: &[ZoneSpec],
    zones: &Journals,
) -> Result<(), AllocError>
    requires { (room : ℕ) × (asked : List Exchange) × Serves zones.now specs.now room asked }
    ensures { (room : ℕ) (asked : List Exchange) → Serves zones.now specs.now room asked → OnOk result (text.new.items ≡ text.old.items ++ zone_lines specs.now (map log_of zones.now)) }
{
    let journals = zones.as_slice();
    for (spec, journal) in specs.iter().zip(journals) {
        push_zone_summary(text, spec, journal)?;
    }
    Ok(())
}

/// The summary of a replay of these lines on one worker.
fn write_summary(alloc: Global, config: &Config, lines: &[Line]) -> Result<Text, NoMemory>
    requires config { IsConfig config.now }
    requires given { refused_line config.now.zones ≡ None }
    requires lines { All (IsLineOf (length config.now.locations)) lines.now }
    requires few { length lines.now ≤ 131072 }
    ensures { IfOk result (λ text. ShowsSummary config.now lines.now text) }
{
    let (zones, decisions) = play(alloc, config, lines)?;
    let mut text = Vec::new(alloc);
    push_decisions_line(&mut text, &decisions)?;
    push_zone_lines(&mut text, config.zones.as_slice(), &zones)?;
    Ok(Text::from_vec(text))
}

/// The summary of the made log of so many lines of a seed.
fn write_made(alloc: Global, seed: u64, count: u32) -> Result<Text, NoMemory>
    requires { count ≤ 131072 }
    ensures { IfOk result (λ text. ShowsSummary made_config (made_lines seed count) text) }
{
    let config = made_config(alloc)?;
    let lines = made_lines(alloc, seed, count)?;
    write_summary(alloc, &config, &lines)
}

/// The text of `made`, with all the memory that it takes, before any of it is written. It leaves the files alone, whatever
/// they are.
pub(crate) fn prepare_made(alloc: Global, seed: u64, count: u32) -> Result<Text, Stop>
    requires { count ≤ 131072 }
    ensures { (files : Files) (watchers : List Watched) → Prepares (made_plan seed count) files files watchers watchers result }
{
    match write_made(alloc, seed, count) {
        Ok(written) => Ok(written),
        Err(_) => Err(Stop::NoMemory),
    }
}
