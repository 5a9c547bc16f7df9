//! The replayer of nginx's shared memory zones: reads directives and a log, and prints each decision.
#![tactic(auto)]

mod close;
mod commands;
mod image;
mod job;
mod made;
mod one;
mod output;
mod plain;
mod prepare;
mod replay;
mod run;
mod status;
mod stop;
mod tell;
#[cfg(test)]
mod tests;
mod text;
mod theorems;
#[cfg(test)]
mod watcher_tests;
mod words;
#[cfg(test)]
mod worker_tests;
mod workers;

use close::close;
use replay_workers::{Gate, OpenGate};
use run::run;
use status::Status;
use std::alloc::Global;
use std::process::ExitCode;
use std::rt::Env;
use std::sync::Wait;
use std::thread::Threads;
use std::{env, io};
use zone_outside::{BufferedSink, FileShelf, NoMemory, Shelf, Sink, StdSink, Text};
use zone_watch::{RefusedWatch, StatusWatch, Watcher};

/// The words after the program's name; none of them where one isn't text.
fn words_of(rt: &(impl Env + AllocGlobal)) -> Result<Vec<Text>, NoMemory> {
    let alloc = rt.alloc();
    let mut words = Vec::new(alloc);
    let arguments = match env::args(rt) {
        Ok(arguments) => arguments,
        Err(error) if error.kind() == io::ErrorKind::OutOfMemory => return Err(NoMemory),
        Err(_) => return Ok(words),
    };
    for argument in arguments.skip(1) {
        words.push(Text::of(alloc, argument.as_bytes())?)?;
    }
    Ok(words)
}

/// Runs with the watcher that counts all decisions and the one that counts refused requests. `NoMemory`: there was none for
/// their boxes, and nothing was done.
fn run_watched<R: Threads + Wait + Sync, F: Shelf, O: Sink, E: Sink, G: Gate + Sync>(
    rt: &R,
    alloc: Global,
    words: &[Text],
    files: &mut F,
    out: &mut O,
    err: &mut E,
    gate: &G,
) -> Result<u8, NoMemory> {
    let mut watchers: Vec<Box<dyn Watcher>> = Vec::new(alloc);
    watchers.push(Box::new(alloc, StatusWatch::new())?)?;
    watchers.push(Box::new(alloc, RefusedWatch::new())?)?;
    Ok(run(rt, alloc, words, files, out, err, gate, &mut watchers))
}

fn main(rt: HostRuntime) -> ExitCode {
    let alloc = rt.alloc();
    let Ok(words) = words_of(&rt) else {
        return ExitCode::from(Status::NoMemory.code());
    };
    let Ok(mut out) = BufferedSink::of(alloc, StdSink::of(rt.stdout())) else {
        return ExitCode::from(Status::NoMemory.code());
    };
    let mut err = StdSink::of(rt.stderr());
    let mut files = FileShelf::of(&rt);
    let done = run_watched(
        &rt, alloc, &words, &mut files, &mut out, &mut err, &OpenGate,
    );
    let Ok(number) = done else {
        return ExitCode::from(Status::NoMemory.code());
    };
    ExitCode::from(close(number, &mut out, &mut err))
}
