//! Replays that are watched: what is left of the watchers, and their reports behind the text.
use crate::tests::watch_words;
use decision_text::push_number;
use replay_workers::OpenGate;
use request_script::Notice;
use std::alloc::Global;
use std::sync::Wait;
use std::test::Fail;
use std::thread::Threads;
use zone_outside::{MemFile, MemSink, MemText, NoMemory, Text};
use zone_watch::{Stay, Watcher};

/// A watcher that counts notices, leaves at its last one, and reports its count, unless it has no memory for that.
#[derive(Drop)]
struct Counter {
    count: u64,
    last: u64,
    has_memory: bool,
}

impl Watcher for Counter {
    ghost use Rattle.std.specs.Prelude.{◌∷◌, [], map, nat_eq, slice_index_or, if◌then◌else◌, codes};
    ghost use Rattle.zone_watch.specs.Counting.{one_more, with_count};
    ghost use Rattle.zone_watch.specs.declared.stay.Stay.TheVariants.{Keep, Leave};

    ghost watched = { λ c. record {
      rule = record {
        after = λ counts notice. map one_more counts;
        answer = λ counts notice. if nat_eq (one_more (slice_index_or counts 0 0)) c.last then Leave else Keep;
        report = λ counts. with_count (codes "counted ") (slice_index_or counts 0 0);
      };
      counts = c.count ∷ [];
    } };

    fn see(&mut self, _notice: &Notice) -> Stay {
        self.count = self.count.saturating_add(1);
        if self.count == self.last {
            return Stay::Leave;
        }
        Stay::Keep
    }

    fn report(&self, alloc: Global) -> Result<Text, NoMemory> {
        if !self.has_memory {
            return Err(NoMemory);
        }
        let mut text = Vec::from_slice(alloc, b"counted ")?;
        push_number(&mut text, self.count)?;
        Ok(Text::from_vec(text))
    }
}

/// One that leaves at this notice.
fn until(last: u64) -> Counter {
    Counter {
        count: 0,
        last,
        has_memory: true,
    }
}

const CONFIG: &[u8] =
    b"http{limit_req_zone $binary_remote_addr zone=one:32k rate=1r/s;server{limit_req zone=one;}}";

/// Three lines: an open that passes, one that is refused, and an end.
const LOG: &[u8] = b"0 0 open - 10.0.0.1\n0 1 open - 10.0.0.1\n0 0 done\n";

/// What is decided of them, and the history.
const TEXT: &str = "1 0 open pass req=PASSED delay=0 by=- excess=- conn=- peer=-
2 1 open 503 req=REJECTED delay=0 by=one excess=1.000 conn=- peer=-
3 0 done end
zone one req calls=2
1 0 check 0a000001 0 0 1 ok 0
2 0 check 0a000001 0 0 1 busy 1000
pages 7 free 5 entries 1
slot 32 total 127 used 1 reqs 1 fails 0
slot 128 total 32 used 2 reqs 2 fails 0
";

/// The status of these words on those lines, with these watchers, and both outputs.
fn watched<'a, R: AllocGlobal + Threads + Wait + Sync>(
    rt: &R,
    words: &[&str],
    watchers: &mut Vec<Box<dyn Watcher>>,
) -> Result<(u8, MemSink<'a>, MemSink<'a>), Fail> {
    let files = [
        MemFile {
            name: b"config",
            text: MemText::of(CONFIG),
        },
        MemFile {
            name: b"log",
            text: MemText::of(LOG),
        },
    ];
    let mut out = MemSink::of(rt.alloc(), 1000, &[]);
    let mut err = MemSink::of(rt.alloc(), 1000, &[]);
    let status = watch_words(
        rt,
        words,
        &files,
        &[],
        &OpenGate,
        &mut out,
        &mut err,
        watchers,
    )?;
    Ok((status, out, err))
}

/// Where nobody watches the text is that of the replay alone.
#[test]
fn plain_is_watched_by_nobody(rt: HostRuntime) -> Result<(), Fail> {
    let mut nobody = Vec::new(rt.alloc());
    let (status, out, err) = watched(&rt, &["plain", "config", "log"], &mut nobody)?;
    assert_eq!(rt; (status, err.bytes().len()), (0, 0));
    assert_eq!(rt; out.bytes(), TEXT.as_bytes());
    Ok(())
}

/// The commands that are watched.
const WATCHED: [&[&str]; 3] = [
    &["plain", "config", "log"],
    &["replay", "config", "log", "1"],
    &["replay", "config", "log", "2", "words"],
];

/// Of two watchers the first leaves at its second notice: the second alone stays, has seen three, and ends the text.
#[test]
fn one_watcher_leaves(rt: HostRuntime) -> Result<(), Fail> {
    let alloc = rt.alloc();
    for words in WATCHED {
        let mut watchers: Vec<Box<dyn Watcher>> = Vec::new(alloc);
        watchers.push(Box::new(alloc, until(2))?)?;
        watchers.push(Box::new(alloc, until(9))?)?;
        let (status, out, err) = watched(&rt, words, &mut watchers)?;
        assert_eq!(rt; (status, err.bytes().len(), watchers.len()), (0, 0, 1));
        assert!(rt; out.bytes().ends_with(b"\ncounted 3"));
    }
    Ok(())
}

/// A watcher whose report finds no memory: nothing is written.
#[test]
fn a_report_without_memory(rt: HostRuntime) -> Result<(), Fail> {
    let alloc = rt.alloc();
    for words in WATCHED {
        let poor = Counter {
            count: 0,
            last: 9,
            has_memory: false,
        };
        let mut watchers: Vec<Box<dyn Watcher>> = Vec::new(alloc);
        watchers.push(Box::new(alloc, poor)?)?;
        let (status, out, err) = watched(&rt, words, &mut watchers)?;
        assert_eq!(rt; (status, out.bytes().len(), err.bytes().len()), (7, 0, 0));
    }
    Ok(())
}

/// The other commands show nobody anything.
#[test]
fn the_others_are_not_watched(rt: HostRuntime) -> Result<(), Fail> {
    let alloc = rt.alloc();
    let rows: [&[&str]; 3] = [
        &["check", "config"],
        &["image", "config", "log", "one"],
        &["made", "7", "3"],
    ];
    for words in rows {
        let mut watchers: Vec<Box<dyn Watcher>> = Vec::new(alloc);
        watchers.push(Box::new(alloc, until(1))?)?;
        let (status, out, _err) = watched(&rt, words, &mut watchers)?;
        assert_eq!(rt; (status, watchers.len()), (0, 1));
        assert!(rt; !out.bytes().ends_with(b"counted 0"));
    }
    Ok(())
}
