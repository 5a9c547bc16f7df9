ghost use Rattle.std.specs.Prelude.{List};
ghost use Rattle.replay_log.specs.Keys.{keys_of};
ghost use Rattle.zonereplay.specs.Jobs.{asked};
ghost use Rattle.zonereplay.specs.Plan.{one_plan, one_run, check_plan, check_run};
ghost use Rattle.zonereplay.specs.Devices.{Files};
ghost use Rattle.zone_watch.specs.Watched.{Watched};
ghost use Rattle.zonereplay.specs.Stages.{Configures, OpensConfig, Prepares, ReadsText};

use crate::job::Job;
use crate::one::text_of;
use crate::stop::{Refusal, Stop};
use decision_text::check_text;
use directive_text::{TextFault, read};
use replay_log::LogFault;
use replay_share::refused_line;
use std::alloc::Global;
use zone_config::{Config, ConfigFault, config_of};
use zone_outside::{ReadAnswer, Shelf, Text, read_named};

/// The most bytes of a text that is read.
const TEXT_LIMIT: u64 = 16_777_216;

/// The rule that each upstream's zone has a block for each of its servers.
const NO_BLOCK: u32 = 19;

/// The text of a file, opened, read to its end and settled.
pub(crate) fn read_text<F: Shelf>(
    alloc: Global,
    files: &mut F,
    name: &Text,
) -> Result<Vec<u8>, Stop>
    ensures { ReadsText name.now
        (record { contents = F.contents files.old; faults = F.faults files.old })
        (record { contents = F.contents files.new; faults = F.faults files.new })
        result }
{
    let Ok(copy) = Text::of(alloc, name.bytes()) else {
        return Err(Stop::NoMemory);
    };
    match read_named(alloc, files, copy, TEXT_LIMIT) {
        Ok(text) => Ok(text),
        Err(ReadAnswer::Fault) => Err(Stop::ReadFault),
        Err(ReadAnswer::TooLong) => Err(Stop::Refused(Refusal::TooLong)),
        Err(ReadAnswer::NoMemory) => Err(Stop::NoMemory),
    }
}

/// The text of `one` for a log's text. It leaves the files alone, whatever they are.
fn run_log(alloc: Global, job: Job, text: &[u8]) -> Result<Text, Stop>
    ensures { (files : Files) (watchers : List Watched) → Prepares (one_run (asked job) (keys_of text.now)) files files watchers watchers result }
{
    match text_of(alloc, job, text) {
        Ok(written) => Ok(written),
        Err(LogFault::At { line, kind }) => Err(Stop::Refused(Refusal::Log { line, kind })),
        Err(LogFault::NoMemory) => Err(Stop::NoMemory),
    }
}

/// The text of `one`, with all the memory that it takes, before any of it is written.
pub(crate) fn prepare_one<F: Shelf>(
    alloc: Global,
    job: Job,
    log: &Text,
    files: &mut F,
) -> Result<Text, Stop>
    ensures { (watchers : List Watched) → Prepares (one_plan (asked job) log.now)
        (record { contents = F.contents files.old; faults = F.faults files.old })
        (record { contents = F.contents files.new; faults = F.faults files.new })
        watchers watchers result }
{
    match read_text(alloc, files, log) {
        Ok(text) => run_log(alloc, job, &text),
        Err(stop) => Err(stop),
    }
}

/// The configuration of a text, or why it has none.
fn read_config(alloc: Global, text: &[u8]) -> Result<Config, Stop>
    ensures { Configures text.now result }
{
    let tree = match read(alloc, text) {
        Ok(tree) => tree,
        Err(TextFault::At { line, kind }) => {
            return Err(Stop::Refused(Refusal::Text { line, kind }));
        }
        Err(TextFault::NoMemory) => return Err(Stop::NoMemory),
    };
    match config_of(alloc, &tree) {
        Ok(config) => Ok(config),
        Err(ConfigFault::At { line, rule }) => Err(Stop::Refused(Refusal::Rule { line, rule })),
        Err(ConfigFault::NoMemory) => Err(Stop::NoMemory),
    }
}

/// The configuration of a text, each of whose zones has a block for each server, or why it is refused.
pub(crate) fn open_config(alloc: Global, text: &[u8]) -> Result<Config, Stop>
    ensures { OpensConfig text.now result }
{
    let config = read_config(alloc, text)?;
    match refused_line(alloc, config.zones.as_slice()) {
        Ok(None) => Ok(config),
        Ok(Some(line)) => Err(Stop::Refused(Refusal::Rule {
            line,
            rule: NO_BLOCK,
        })),
        Err(_) => Err(Stop::NoMemory),
    }
}

/// The text of `check` for a configuration's text. It leaves the files alone, whatever they are.
fn run_check(alloc: Global, text: &[u8]) -> Result<Text, Stop>
    ensures { (files : Files) (watchers : List Watched) → Prepares (check_run text.now) files files watchers watchers result }
{
    let config = match open_config(alloc, text) {
        Ok(config) => config,
        Err(stop) => return Err(stop),
    };
    match check_text(alloc, &config) {
        Ok(written) => Ok(written),
        Err(_) => Err(Stop::NoMemory),
    }
}

/// The text of `check`, with all the memory that it takes, before any of it is written.
pub(crate) fn prepare_check<F: Shelf>(
    alloc: Global,
    name: &Text,
    files: &mut F,
) -> Result<Text, Stop>
    ensures { (watchers : List Watched) → Prepares (check_plan name.now)
        (record { contents = F.contents files.old; faults = F.faults files.old })
        (record { contents = F.contents files.new; faults = F.faults files.new })
        watchers watchers result }
{
    match read_text(alloc, files, name) {
        Ok(text) => run_check(alloc, &text),
        Err(stop) => Err(stop),
    }
}
