use crate::run::run;
use replay_workers::{Gate, OpenGate};
use std::process::Abort;
use std::sync::Wait;
use std::test::Fail;
use std::thread::Threads;
use zone_outside::{MemFile, MemShelf, MemSink, MemText, Text};
use zone_watch::Watcher;

/// Runs these words with a shelf of these files, of whose opens these fail, and nobody watching.
pub(crate) fn run_words<R: AllocGlobal + Threads + Wait + Sync, G: Gate + Sync>(
    rt: &R,
    words: &[&str],
    files: &[MemFile<'_>],
    failing_opens: &[u64],
    gate: &G,
    out: &mut MemSink<'_>,
    err: &mut MemSink<'_>,
) -> Result<u8, Fail> {
    let mut nobody = Vec::new(rt.alloc());
    watch_words(rt, words, files, failing_opens, gate, out, err, &mut nobody)
}

/// The same with these watchers. All tests call `run` here.
pub(crate) fn watch_words<R: AllocGlobal + Threads + Wait + Sync, G: Gate + Sync>(
    rt: &R,
    words: &[&str],
    files: &[MemFile<'_>],
    failing_opens: &[u64],
    gate: &G,
    out: &mut MemSink<'_>,
    err: &mut MemSink<'_>,
    watchers: &mut Vec<Box<dyn Watcher>>,
) -> Result<u8, Fail> {
    let alloc = rt.alloc();
    let mut texts = Vec::new(alloc);
    for word in words {
        texts.push(Text::of(alloc, word.as_bytes())?)?;
    }
    let mut shelf = MemShelf::of(files, failing_opens);
    Ok(run(rt, alloc, &texts, &mut shelf, out, err, gate, watchers))
}

/// Runs `one` at this rate with a shelf that has one text, named `log`.
fn status_of<R: AllocGlobal + Threads + Wait + Sync>(
    rt: &R,
    rate: &str,
    text: MemText<'_>,
    failing_opens: &[u64],
    out: &mut MemSink<'_>,
    err: &mut MemSink<'_>,
) -> Result<u8, Fail> {
    let words = ["one", rate, "9", "32768", "log"];
    let files = [MemFile { name: b"log", text }];
    run_words(rt, &words, &files, failing_opens, &OpenGate, out, err)
}

/// Five requests of one key in one moment.
const LOG: &[u8; 20] = b"0 a\n0 a\n0 a\n0 a\n0 a\n";

/// Their lines: each waits for those before it.
const LINES: &str =
    "1 ok 0.000 0\n2 ok 1.000 1000\n3 ok 2.000 2000\n4 ok 3.000 3000\n5 ok 4.000 4000\n";

/// With ample memory the job is done, also where a read and a write move one byte.
#[test]
fn replays_a_log(rt: HostRuntime) -> Result<(), Fail> {
    let texts = [MemText::of(LOG), MemText::of(LOG).with_most(1)];
    for text in texts {
        let mut out = MemSink::of(rt.alloc(), 1, &[]);
        let mut err = MemSink::of(rt.alloc(), 1, &[]);
        let status = status_of(&rt, "1r/s", text, &[], &mut out, &mut err)?;
        assert_eq!(rt; status, 0);
        assert_eq!(rt; out.bytes(), LINES.as_bytes());
        assert_eq!(rt; err.bytes(), b"".as_slice());
    }
    Ok(())
}

/// Each write of the five lines fails in turn: those before it were taken, and no more.
#[test]
fn meets_failing_writes(rt: HostRuntime) -> Result<(), Fail> {
    for number in 1..6u64 {
        let failing = [number];
        let mut out = MemSink::of(rt.alloc(), 1000, &failing);
        let mut err = MemSink::of(rt.alloc(), 1, &[]);
        let status = status_of(&rt, "1r/s", MemText::of(LOG), &[], &mut out, &mut err)?;
        assert_eq!(rt; status, 5);
        assert!(rt; LINES.as_bytes().starts_with(out.bytes()));
        let lines = out.bytes().iter().filter(|byte| **byte == b'\n').count() as u64;
        assert_eq!(rt; lines, number - 1);
        assert_eq!(rt; err.bytes(), b"write fault\n".as_slice());
    }
    Ok(())
}

/// Each read of the log fails in turn, the one that would find its end too, and its open.
#[test]
fn meets_failing_reads(rt: HostRuntime) -> Result<(), Fail> {
    for number in 0..6u64 {
        let reads = [number];
        let opens: &[u64] = if number == 0 { &[1] } else { &[] };
        let text = MemText::of(LOG).with_most(5).with_failing(&reads);
        let mut out = MemSink::of(rt.alloc(), 1, &[]);
        let mut err = MemSink::of(rt.alloc(), 1000, &[]);
        let status = status_of(&rt, "1r/s", text, opens, &mut out, &mut err)?;
        assert_eq!(rt; (status, out.bytes().len()), (4, 0), "read {number}");
        assert_eq!(rt; err.bytes(), b"read fault\n".as_slice());
    }
    Ok(())
}

/// Where standard error refuses these writes, a status with a line becomes 5, and it has taken this.
fn refuse<R: AllocGlobal + Threads + Wait + Sync + Abort>(
    rt: &R,
    rate: &str,
    text: MemText<'_>,
    failing_opens: &[u64],
    failing: &[u64],
    want: &str,
) -> Result<(), Fail> {
    let mut out = MemSink::of(rt.alloc(), 1, &[]);
    let mut err = MemSink::of(rt.alloc(), 1000, failing);
    let status = status_of(rt, rate, text, failing_opens, &mut out, &mut err)?;
    assert_eq!(rt; (status, out.bytes().len()), (5, 0), "{rate}");
    assert_eq!(rt; err.bytes(), want.as_bytes(), "{rate}");
    Ok(())
}

/// Each status with a line becomes 5 where standard error refuses the line, and `write fault` is told
/// where it takes that.
#[test]
fn meets_a_failing_error_output(rt: HostRuntime) -> Result<(), Fail> {
    let piece = b"0123456789abcdef";
    let rows: [(&[u64], &str); 2] = [(&[1, 2], ""), (&[1], "write fault\n")];
    for (failing, want) in rows {
        refuse(&rt, "1r/x", MemText::of(b""), &[], failing, want)?;
        refuse(&rt, "1r/s", MemText::of(b"x\n"), &[], failing, want)?;
        refuse(&rt, "1r/s", MemText::of(b""), &[1], failing, want)?;
        let long = MemText::repeating(b"!", piece, 1_048_576);
        refuse(&rt, "1r/s", long, &[], failing, want)?;
    }
    Ok(())
}
