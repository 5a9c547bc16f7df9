ghost use Rattle.std.specs.Prelude.{◌≡◌, ◌⊎◌, map, IsSome};
ghost use Rattle.zonereplay.specs.Words.{one_of, check_of, plain_of, image_of, made_of, replay_of};
ghost use Rattle.zonereplay.specs.Plan.{plan_of};
ghost use Rattle.zonereplay.specs.Answers.{Does};
ghost use Rattle.zonereplay.specs.Stages.{Concludes};

use crate::image::prepare_image;
use crate::made::prepare_made;
use crate::output::write_lines;
use crate::plain::prepare_plain;
use crate::prepare::{prepare_check, prepare_one};
use crate::status::Status;
use crate::stop::Stop;
use crate::tell::{tell_stop, tell_write_fault};
use crate::words::{read_check, read_image, read_made, read_one, read_plain, read_replay};
use crate::workers::prepare_replay;
use replay_workers::Gate;
use std::alloc::Global;
use std::sync::Wait;
use std::thread::Threads;
use zone_outside::{Shelf, Sink, Text};
use zone_watch::Watcher;

/// Writes the text that a command prepared, or tells why it stopped.
fn conclude<O: Sink, E: Sink>(
    alloc: Global,
    prepared: Result<Text, Stop>,
    out: &mut O,
    err: &mut E,
) -> Status
    ensures { Concludes prepared result
        (record { text = O.taken out.old; faults = O.faults out.old }) (record { text = O.taken out.new; faults = O.faults out.new })
        (record { text = E.taken err.old; faults = E.faults err.old }) (record { text = E.taken err.new; faults = E.faults err.new }) }
{
    match prepared {
        Ok(text) => match write_lines(out, text.bytes()) {
            Ok(()) => Status::Done,
            Err(_) => tell_write_fault(err),
        },
        Err(stop) => tell_stop(alloc, err, stop),
    }
}

/// Replays a log of keys in one request zone named `one`, and writes a line for each. The words are
/// `one RATE BURST SIZE LOG`.
pub fn one_command<F: Shelf, O: Sink, E: Sink>(
    alloc: Global,
    words: &[Text],
    files: &mut F,
    out: &mut O,
    err: &mut E,
    _watchers: &mut Vec<Box<dyn Watcher>>,
) -> u8
    requires { IsSome (one_of words.now) }
    ensures { Does (plan_of words.now)
        (record {
          files = record { contents = F.contents files.old; faults = F.faults files.old };
          out = record { text = O.taken out.old; faults = O.faults out.old };
          err = record { text = E.taken err.old; faults = E.faults err.old };
          watchers = map (λ b. watched b) _watchers.old.items;
        })
        (record {
          files = record { contents = F.contents files.new; faults = F.faults files.new };
          out = record { text = O.taken out.new; faults = O.faults out.new };
          err = record { text = E.taken err.new; faults = E.faults err.new };
          watchers = map (λ b. watched b) _watchers.new.items;
        })
        result }
{
    let Some((job, log)) = read_one(words) else {
        unreachable!()
    };
    let prepared = prepare_one(alloc, job, log, files);
    conclude(alloc, prepared, out, err).code()
}

/// Reads a configuration, and writes what it says of its zones, upstreams and limits. The words are `check CONFIG`.
pub fn check_command<F: Shelf, O: Sink, E: Sink>(
    alloc: Global,
    words: &[Text],
    files: &mut F,
    out: &mut O,
    err: &mut E,
    _watchers: &mut Vec<Box<dyn Watcher>>,
) -> u8
    requires { IsSome (check_of words.now) }
    ensures { Does (plan_of words.now)
        (record {
          files = record { contents = F.contents files.old; faults = F.faults files.old };
          out = record { text = O.taken out.old; faults = O.faults out.old };
          err = record { text = E.taken err.old; faults = E.faults err.old };
          watchers = map (λ b. watched b) _watchers.old.items;
        })
        (record {
          files = record { contents = F.contents files.new; faults = F.faults files.new };
          out = record { text = O.taken out.new; faults = O.faults out.new };
          err = record { text = E.taken err.new; faults = E.faults err.new };
          watchers = map (λ b. watched b) _watchers.new.items;
        })
        result }
{
    let Some(name) = read_check(words) else {
        unreachable!()
    };
    let prepared = prepare_check(alloc, name, files);
    conclude(alloc, prepared, out, err).code()
}

/// Replays a log of requests on one worker in the zones of a configuration, and writes what is decided of each line and
/// each zone's history. The words are `plain CONFIG LOG`.
pub fn plain_command<F: Shelf, O: Sink, E: Sink>(
    alloc: Global,
    words: &[Text],
    files: &mut F,
    out: &mut O,
    err: &mut E,
    watchers: &mut Vec<Box<dyn Watcher>>,
) -> u8
    requires { IsSome (plain_of words.now) }
    ensures { Does (plan_of words.now)
        (record {
          files = record { contents = F.contents files.old; faults = F.faults files.old };
          out = record { text = O.taken out.old; faults = O.faults out.old };
          err = record { text = E.taken err.old; faults = E.faults err.old };
          watchers = map (λ b. watched b) watchers.old.items;
        })
        (record {
          files = record { contents = F.contents files.new; faults = F.faults files.new };
          out = record { text = O.taken out.new; faults = O.faults out.new };
          err = record { text = E.taken err.new; faults = E.faults err.new };
          watchers = map (λ b. watched b) watchers.new.items;
        })
        result }
{
    let Some((name, log)) = read_plain(words) else {
        unreachable!()
    };
    let prepared = prepare_plain(alloc, name, log, files, watchers);
    conclude(alloc, prepared, out, err).code()
}

/// Replays a log of requests on one worker in the zones of a configuration, and writes the words of the zone of a name as
/// they are then. The words are `image CONFIG LOG ZONE`.
pub fn image_command<F: Shelf, O: Sink, E: Sink>(
    alloc: Global,
    words: &[Text],
    files: &mut F,
    out: &mut O,
    err: &mut E,
    watchers: &mut Vec<Box<dyn Watcher>>,
) -> u8
    requires { IsSome (image_of words.now) }
    ensures { Does (plan_of words.now)
        (record {
          files = record { contents = F.contents files.old; faults = F.faults files.old };
          out = record { text = O.taken out.old; faults = O.faults out.old };
          err = record { text = E.taken err.old; faults = E.faults err.old };
          watchers = map (λ b. watched b) watchers.old.items;
        })
        (record {
          files = record { contents = F.contents files.new; faults = F.faults files.new };
          out = record { text = O.taken out.new; faults = O.faults out.new };
          err = record { text = E.taken err.new; faults = E.faults err.new };
          watchers = map (λ b. watched b) watchers.new.items;
        })
        result }
{
    let Some((name, log, zone)) = read_image(words) else {
        unreachable!()
    };
    let prepared = prepare_image(alloc, name, log, zone, files, watchers);
    conclude(alloc, prepared, out, err).code()
}

/// Makes a log of a seed, replays it on one worker, and writes a summary: how many opens pass, are delayed, are refused and
/// find no server, and how full each zone is then. The words are `made SEED LINES`. No file is read.
pub fn made_command<F: Shelf, O: Sink, E: Sink>(
    alloc: Global,
    words: &[Text],
    _files: &mut F,
    out: &mut O,
    err: &mut E,
    _watchers: &mut Vec<Box<dyn Watcher>>,
) -> u8
    requires { IsSome (made_of words.now) }
    ensures does { Does (plan_of words.now)
        (record {
          files = record { contents = F.contents _files.old; faults = F.faults _files.old };
          out = record { text = O.taken out.old; faults = O.faults out.old };
          err = record { text = E.taken err.old; faults = E.faults err.old };
          watchers = map (λ b. watched b) _watchers.old.items;
        })
        (record {
          files = record { contents = F.contents _files.new; faults = F.faults _files.new };
          out = record { text = O.taken out.new; faults = O.faults out.new };
          err = record { text = E.taken err.new; faults = E.faults err.new };
          watchers = map (λ b. watched b) _watchers.new.items;
        })
        result }
    // Nothing can be wrong with the words and with files.
    ensures statuses { (result ≡ 0) ⊎ ((result ≡ 5) ⊎ (result ≡ 7)) }
{
    let Some((seed, lines)) = read_made(words) else {
        unreachable!()
    };
    let prepared = prepare_made(alloc, seed, lines);
    conclude(alloc, prepared, out, err).code()
}

/// Replays a log of requests on several workers in the zones of a configuration, and writes what is decided of each line and
/// each zone's history. The words are `replay CONFIG LOG WORKERS`; with a further word `words`, each zone's words are written
/// behind its history. It may wait: for a zone's turn, and where the gate waits.
pub fn replay_command<R: Threads + Wait + Sync, F: Shelf, O: Sink, E: Sink, G: Gate + Sync>(
    rt: &R,
    alloc: Global,
    words: &[Text],
    files: &mut F,
    out: &mut O,
    err: &mut E,
    gate: &G,
    watchers: &mut Vec<Box<dyn Watcher>>,
) -> u8
    requires { IsSome (replay_of words.now) }
    ensures { Does (plan_of words.now)
        (record {
          files = record { contents = F.contents files.old; faults = F.faults files.old };
          out = record { text = O.taken out.old; faults = O.faults out.old };
          err = record { text = E.taken err.old; faults = E.faults err.old };
          watchers = map (λ b. watched b) watchers.old.items;
        })
        (record {
          files = record { contents = F.contents files.new; faults = F.faults files.new };
          out = record { text = O.taken out.new; faults = O.faults out.new };
          err = record { text = E.taken err.new; faults = E.faults err.new };
          watchers = map (λ b. watched b) watchers.new.items;
        })
        result }
{
    let Some((name, log, job)) = read_replay(words) else {
        unreachable!()
    };
    let prepared = prepare_replay(rt, alloc, name, log, job, files, gate, watchers);
    conclude(alloc, prepared, out, err).code()
}
