ghost use Rattle.std.specs.Prelude.{ℕ, ◌≡◌, ◌<◌, ◌≤◌, length, map, None, IfOk};
ghost use Rattle.std.specs.List.{All};
ghost use Rattle.zone_config.specs.Conditions.{IsConfig};
ghost use Rattle.replay_log.specs.Limits.{IsLineOf};
ghost use Rattle.replay_share.specs.Journals.{Serves};
ghost use Rattle.replay_share.specs.Opening.{refused_line};
ghost use Rattle.replay_share.specs.Share.{HasReplayed};
ghost use Rattle.zone_watch.specs.Notices.{notices_of};
ghost use Rattle.zonereplay.specs.Told.{ShowsImage, Tells, Writes};
ghost use Rattle.zonereplay.specs.Told.Told.{replay};
ghost use Rattle.zonereplay.specs.Plan.{log_plan};
ghost use Rattle.zonereplay.specs.Replays.{told_of, IsThere};
ghost use Rattle.zonereplay.specs.Stages.{Prepares, ReadsLog};

use crate::prepare::read_text;
use crate::stop::{Refusal, Stop};
use replay_log::{Line, LogFault, read_log};
use replay_share::{Journals, OpeningFault, replay_share};
use replay_text::{push_decisions, push_zone_words, push_zones};
use request_script::{CALLS_A_LINE, Decision};
use std::alloc::Global;
use zone_config::Config;
use zone_outside::{NoMemory, Shelf, Text};
use zone_watch::{Watcher, show_and_report};

/// One worker, whose number is 0, has all lines.
const ONE_WORKER: u32 = 1;

const FIRST_WORKER: u32 = 0;

/// What is written of a replay on one worker.
#[derive(Clone, Copy, Debug)]
pub(crate) enum Wanted {
    /// What is decided of each line, and the history of each zone.
    Histories,
    /// The words of the zone of this number.
    Words { zone: usize },
}

/// Replays the lines on one worker: the zones with their journals, and what is decided of each line.
pub(crate) fn play(
    alloc: Global,
    config: &Config,
    lines: &[Line],
) -> Result<(Journals, Vec<Decision>), NoMemory>
    requires config { IsConfig config.now }
    requires given { refused_line config.now.zones ≡ None }
    requires lines { All (IsLineOf (length config.now.locations)) lines.now }
    requires few { length lines.now ≤ 131072 }
    ensures { IfOk result (λ played. (room : ℕ) × HasReplayed (Serves played.0 config.now.zones room) config.now lines.now played.1.items) }
{
    let room = lines.len() as u32 * CALLS_A_LINE;
    let mut zones = match Journals::open(alloc, config.zones.as_slice(), room) {
        Ok(zones) => zones,
        Err(OpeningFault::Refused { line: _ }) => unreachable!(),
        Err(OpeningFault::NoMemory) => return Err(NoMemory),
    };
    let decisions = replay_share(alloc, config, lines, ONE_WORKER, FIRST_WORKER, &mut zones)?;
    Ok((zones, decisions))
}

/// A text of a replay with the reports of the watchers that are left when they were shown what is decided of each line.
/// `NoMemory`: the watchers may have been shown it.
pub(crate) fn with_reports(
    alloc: Global,
    mut text: Vec<u8>,
    lines: &[Line],
    decisions: &[Decision],
    watchers: &mut Vec<Box<dyn Watcher>>,
) -> Result<Text, NoMemory>
    ensures { Tells (notices_of lines.now decisions.now) (map (λ b. watched b) watchers.old.items) (map (λ b. watched b) watchers.new.items) text.items result }
{
    match show_and_report(alloc, &mut text, lines, decisions, watchers) {
        Ok(()) => Ok(Text::from_vec(text)),
        Err(NoMemory) => Err(NoMemory),
    }
}

/// The text of a replay on one worker: what is decided of each line, the history of each zone, and the reports of the watchers.
fn write_histories(
    alloc: Global,
    config: &Config,
    lines: &[Line],
    watchers: &mut Vec<Box<dyn Watcher>>,
) -> Result<Text, NoMemory>
    requires config { IsConfig config.now }
    requires given { refused_line config.now.zones ≡ None }
    requires lines { All (IsLineOf (length config.now.locations)) lines.now }
    requires few { length lines.now ≤ 131072 }
    ensures { Writes (replay config.now 1 lines.now) (map (λ b. watched b) watchers.old.items) (map (λ b. watched b) watchers.new.items) result }
{
    let (zones, decisions) = play(alloc, config, lines)?;
    let mut text = Vec::new(alloc);
    push_decisions(&mut text, config, lines, &decisions)?;
    push_zones(alloc, &mut text, config.zones.as_slice(), &zones)?;
    with_reports(alloc, text, lines, &decisions, watchers)
}

/// The text of the words of the zone of this number, after a replay on one worker.
fn write_words(
    alloc: Global,
    config: &Config,
    zone: usize,
    lines: &[Line],
) -> Result<Text, NoMemory>
    requires config { IsConfig config.now }
    requires given { refused_line config.now.zones ≡ None }
    requires there { zone < length config.now.zones }
    requires lines { All (IsLineOf (length config.now.locations)) lines.now }
    requires few { length lines.now ≤ 131072 }
    ensures { IfOk result (λ text. ShowsImage config.now zone lines.now text) }
{
    let (zones, _decisions) = play(alloc, config, lines)?;
    let mut text = Vec::new(alloc);
    push_zone_words(alloc, &mut text, config.zones.as_slice(), &zones, zone)?;
    Ok(Text::from_vec(text))
}

/// The text that is wanted of a replay on one worker.
fn write_wanted(
    alloc: Global,
    config: &Config,
    wanted: Wanted,
    lines: &[Line],
    watchers: &mut Vec<Box<dyn Watcher>>,
) -> Result<Text, NoMemory>
    requires config { IsConfig config.now }
    requires given { refused_line config.now.zones ≡ None }
    requires there { IsThere wanted config.now }
    requires lines { All (IsLineOf (length config.now.locations)) lines.now }
    requires few { length lines.now ≤ 131072 }
    ensures { Writes (told_of wanted config.now lines.now) (map (λ b. watched b) watchers.old.items) (map (λ b. watched b) watchers.new.items) result }
{
    match wanted {
        Wanted::Histories => write_histories(alloc, config, lines, watchers),
        Wanted::Words { zone } => write_words(alloc, config, zone, lines),
    }
}

/// The lines of the log of this name.
pub(crate) fn read_lines<F: Shelf>(
    alloc: Global,
    config: &Config,
    log: &Text,
    files: &mut F,
) -> Result<Vec<Line>, Stop>
    requires { IsConfig config.now }
    ensures { ReadsLog log.now config.now
        (record { contents = F.contents files.old; faults = F.faults files.old })
        (record { contents = F.contents files.new; faults = F.faults files.new })
        result }
{
    let text = match read_text(alloc, files, log) {
        Ok(text) => text,
        Err(stop) => return Err(stop),
    };
    match read_log(alloc, &text, config) {
        Ok(lines) => Ok(lines),
        Err(LogFault::At { line, kind }) => Err(Stop::Refused(Refusal::Log { line, kind })),
        Err(LogFault::NoMemory) => Err(Stop::NoMemory),
    }
}

/// The text that is wanted of the log of this name.
pub(crate) fn read_requests<F: Shelf>(
    alloc: Global,
    config: &Config,
    wanted: Wanted,
    log: &Text,
    files: &mut F,
    watchers: &mut Vec<Box<dyn Watcher>>,
) -> Result<Text, Stop>
    requires config { IsConfig config.now }
    requires given { refused_line config.now.zones ≡ None }
    requires there { IsThere wanted config.now }
    ensures { Prepares (log_plan log.now config.now (told_of wanted config.now))
        (record { contents = F.contents files.old; faults = F.faults files.old })
        (record { contents = F.contents files.new; faults = F.faults files.new })
        (map (λ b. watched b) watchers.old.items)
        (map (λ b. watched b) watchers.new.items)
        result }
{
    let lines = match read_lines(alloc, config, log, files) {
        Ok(lines) => lines,
        Err(stop) => return Err(stop),
    };
    match write_wanted(alloc, config, wanted, &lines, watchers) {
        Ok(written) => Ok(written),
        Err(_) => Err(Stop::NoMemory),
    }
}
