ghost use Rattle.std.specs.Prelude.{◌≡◌, ◌≤◌, length, map, None};
ghost use Rattle.std.specs.List.{All};
ghost use Rattle.zone_config.specs.Conditions.{IsConfig};
ghost use Rattle.replay_log.specs.Limits.{IsLineOf};
ghost use Rattle.replay_share.specs.Opening.{refused_line};
ghost use Rattle.zonereplay.specs.Told.{Writes};
ghost use Rattle.zonereplay.specs.Plan.{workers_told, workers_log, replay_plan};
ghost use Rattle.zonereplay.specs.Stages.{Prepares};

use crate::job::ReplayJob;
use crate::prepare::{open_config, read_text};
use crate::replay::{read_lines, with_reports};
use crate::stop::Stop;
use replay_log::Line;
use replay_text::{push_decisions, push_histories, push_histories_with_words};
use replay_workers::{Gate, replay};
use std::alloc::Global;
use std::sync::Wait;
use std::thread::Threads;
use zone_config::Config;
use zone_outside::{NoMemory, Shelf, Text};
use zone_watch::Watcher;

/// The text of a replay on several workers: what is decided of each line, the history of each zone, with its words where they
/// are asked for, and the reports of the watchers.
fn write_replay<R: Threads + Wait + Sync, G: Gate + Sync>(
    rt: &R,
    alloc: Global,
    config: &Config,
    job: ReplayJob,
    lines: &[Line],
    gate: &G,
    watchers: &mut Vec<Box<dyn Watcher>>,
) -> Result<Text, NoMemory>
    requires config { IsConfig config.now }
    requires given { refused_line config.now.zones ≡ None }
    requires lines { All (IsLineOf (length config.now.locations)) lines.now }
    requires few { length lines.now ≤ 131072 }
    ensures { Writes (workers_told job.workers job.words config.now lines.now) (map (λ b. watched b) watchers.old.items) (map (λ b. watched b) watchers.new.items) result }
{
    let (decisions, left) = replay(rt, alloc, config, lines, job.workers, gate)?;
    let mut text = Vec::new(alloc);
    push_decisions(&mut text, config, lines, &decisions)?;
    if job.words {
        push_histories_with_words(alloc, &mut text, config.zones.as_slice(), &left)?;
        return with_reports(alloc, text, lines, &decisions, watchers);
    }
    push_histories(alloc, &mut text, config.zones.as_slice(), &left)?;
    with_reports(alloc, text, lines, &decisions, watchers)
}

/// The text of a replay on several workers of the log of this name.
fn replay_log<R: Threads + Wait + Sync, F: Shelf, G: Gate + Sync>(
    rt: &R,
    alloc: Global,
    config: &Config,
    job: ReplayJob,
    log: &Text,
    files: &mut F,
    gate: &G,
    watchers: &mut Vec<Box<dyn Watcher>>,
) -> Result<Text, Stop>
    requires config { IsConfig config.now }
    requires given { refused_line config.now.zones ≡ None }
    ensures { Prepares (workers_log log.now job.workers job.words config.now)
        (record { contents = F.contents files.old; faults = F.faults files.old })
        (record { contents = F.contents files.new; faults = F.faults files.new })
        (map (λ b. watched b) watchers.old.items)
        (map (λ b. watched b) watchers.new.items)
        result }
{
    let lines = match read_lines(alloc, config, log, files) {
        Ok(lines) => lines,
        Err(stop) => return Err(stop),
    };
    match write_replay(rt, alloc, config, job, &lines, gate, watchers) {
        Ok(written) => Ok(written),
        Err(_) => Err(Stop::NoMemory),
    }
}

/// The text of `replay`, with all the memory that it takes, before any of it is written.
pub(crate) fn prepare_replay<R: Threads + Wait + Sync, F: Shelf, G: Gate + Sync>(
    rt: &R,
    alloc: Global,
    name: &Text,
    log: &Text,
    job: ReplayJob,
    files: &mut F,
    gate: &G,
    watchers: &mut Vec<Box<dyn Watcher>>,
) -> Result<Text, Stop>
    ensures { Prepares (replay_plan name.now log.now job.workers job.words)
        (record { contents = F.contents files.old; faults = F.faults files.old })
        (record { contents = F.contents files.new; faults = F.faults files.new })
        (map (λ b. watched b) watchers.old.items)
        (map (λ b. watched b) watchers.new.items)
        result }
{
    let text = match read_text(alloc, files, name) {
        Ok(text) => text,
        Err(stop) => return Err(stop),
    };
    match open_config(alloc, &text) {
        Ok(config) => replay_log(rt, alloc, &config, job, log, files, gate, watchers),
        Err(stop) => Err(stop),
    }
}
