//! Replays on several workers, whose order a gate tells or leaves free.
use crate::tests::run_words;
use replay_workers::{Gate, OpenGate};
use std::process::Abort;
use std::sync::Wait;
use std::sync::atomic::{AtomicBool, AtomicU64, Ordering};
use std::test::Fail;
use std::thread::Threads;
use zone_outside::{MemFile, MemSink, MemText};

/// The most times that a worker looks for another.
const MOST_LOOKS: u32 = 200_000_000;

/// Whether a flag is found set, looked at so many times at most.
fn is_found(flag: &AtomicBool) -> bool {
    for _ in 0..MOST_LOOKS {
        if flag.load(Ordering::SeqCst) {
            return true;
        }
    }
    false
}

/// What `replay` of these files on so many workers writes, with status 0.
fn replayed<'a, R: AllocGlobal + Threads + Wait + Sync + Abort, G: Gate + Sync>(
    rt: &R,
    config: &[u8],
    log: &[u8],
    workers: &str,
    gate: &G,
) -> Result<MemSink<'a>, Fail> {
    let words = ["replay", "config", "log", workers];
    let files = [
        MemFile {
            name: b"config",
            text: MemText::of(config),
        },
        MemFile {
            name: b"log",
            text: MemText::of(log),
        },
    ];
    let mut out = MemSink::of(rt.alloc(), 1000, &[]);
    let mut err = MemSink::of(rt.alloc(), 1000, &[]);
    let status = run_words(rt, &words, &files, &[], gate, &mut out, &mut err)?;
    assert_eq!(rt; (status, err.bytes().len()), (0, 0));
    Ok(out)
}

/// One zone, of which two workers make a call each, of one key in one moment.
const CONFIG: &[u8] =
    b"http{limit_req_zone $binary_remote_addr zone=one:32k rate=1r/s;server{limit_req zone=one;}}";

const LOG: &[u8] = b"0 0 open - 10.0.0.1\n0 1 open - 10.0.0.1\n";

/// A worker's flag, and whether it found the other's.
#[derive(Drop)]
struct Side {
    came: AtomicBool,
    met: AtomicBool,
}

fn absent() -> Side {
    Side {
        came: AtomicBool::new(false),
        met: AtomicBool::new(false),
    }
}

/// A gate at which two workers look for each other: before its first call each sets its flag and looks for the other's.
#[derive(Drop)]
struct Meeting {
    first: Side,
    second: Side,
}

impl Gate for Meeting {
    fn before<R: Wait>(&self, _rt: &R, worker: u32, call: u32) {
        if call == 1 {
            let (mine, other) = if worker == 0 {
                (&self.first, &self.second)
            } else {
                (&self.second, &self.first)
            };
            mine.came.store(true, Ordering::SeqCst);
            mine.met.store(is_found(&other.came), Ordering::SeqCst);
        }
    }

    fn after<R: Wait>(&self, _rt: &R, _worker: u32, _call: u32) {}
}

/// Two workers are in calls of their own at once. Workers that went one after another wouldn't find each other.
#[test]
fn two_workers_meet(rt: HostRuntime) -> Result<(), Fail> {
    let gate = Meeting {
        first: absent(),
        second: absent(),
    };
    replayed(&rt, CONFIG, LOG, "2", &gate)?;
    assert!(rt; gate.first.met.load(Ordering::SeqCst));
    assert!(rt; gate.second.met.load(Ordering::SeqCst));
    Ok(())
}

/// A gate at which the other worker waits, before its first call, until this one has made its first. This one then waits
/// until the other has made its own, so that a gate which is told of a call before it is made is found out.
#[derive(Drop)]
struct InTurn {
    leader: u32,
    leads: Side,
    follows: Side,
}

impl Gate for InTurn {
    fn before<R: Wait>(&self, _rt: &R, worker: u32, call: u32) {
        if worker != self.leader && call == 1 {
            self.follows
                .met
                .store(is_found(&self.leads.came), Ordering::SeqCst);
        }
    }

    fn after<R: Wait>(&self, _rt: &R, worker: u32, call: u32) {
        if worker != self.leader && call == 1 {
            self.follows.came.store(true, Ordering::SeqCst);
        }
        if worker == self.leader && call == 1 {
            self.leads.came.store(true, Ordering::SeqCst);
            self.leads
                .met
                .store(is_found(&self.follows.came), Ordering::SeqCst);
        }
    }
}

/// What is decided, and the history, where worker 0 goes first and where worker 1 does.
const IN_TURN: [(u32, &[u8]); 2] = [
    (
        0,
        b"1 0 open pass req=PASSED delay=0 by=- excess=- conn=- peer=-
2 1 open 503 req=REJECTED delay=0 by=one excess=1.000 conn=- peer=-
zone one req calls=2
1 0 check 0a000001 0 0 1 ok 0
2 1 check 0a000001 0 0 1 busy 1000
pages 7 free 5 entries 1
slot 32 total 127 used 1 reqs 1 fails 0
slot 128 total 32 used 2 reqs 2 fails 0
",
    ),
    (
        1,
        b"1 0 open 503 req=REJECTED delay=0 by=one excess=1.000 conn=- peer=-
2 1 open pass req=PASSED delay=0 by=- excess=- conn=- peer=-
zone one req calls=2
1 1 check 0a000001 0 0 1 ok 0
2 0 check 0a000001 0 0 1 busy 1000
pages 7 free 5 entries 1
slot 32 total 127 used 1 reqs 1 fails 0
slot 128 total 32 used 2 reqs 2 fails 0
",
    ),
];

/// The one that goes first passes, and the history tells their order. Workers that went in an order of their own would fail
/// one of the two.
#[test]
fn two_workers_go_in_turn(rt: HostRuntime) -> Result<(), Fail> {
    for (leader, text) in IN_TURN {
        let gate = InTurn {
            leader,
            leads: absent(),
            follows: absent(),
        };
        let out = replayed(&rt, CONFIG, LOG, "2", &gate)?;
        assert!(rt; gate.follows.met.load(Ordering::SeqCst));
        assert!(rt; gate.leads.met.load(Ordering::SeqCst));
        assert_eq!(rt; out.bytes(), text, "worker {leader} goes first");
    }
    Ok(())
}

/// A gate that counts what it is told, and finds out what doesn't come in its turn: before the first call, after it, before the
/// second, and so on, always of worker 0.
#[derive(Drop)]
struct Counting {
    told: AtomicU64,
    wrong: AtomicBool,
}

impl Counting {
    /// It is told something that is due where it has been told so many things before.
    fn tell(&self, worker: u32, due: u64) {
        let told = self.told.fetch_add(1, Ordering::SeqCst);
        if worker != 0 || told != due {
            self.wrong.store(true, Ordering::SeqCst);
        }
    }
}

impl Gate for Counting {
    fn before<R: Wait>(&self, _rt: &R, worker: u32, call: u32) {
        self.tell(worker, (2 * u64::from(call)).wrapping_sub(2));
    }

    fn after<R: Wait>(&self, _rt: &R, worker: u32, call: u32) {
        self.tell(worker, (2 * u64::from(call)).wrapping_sub(1));
    }
}

/// The gate is told of each call of a worker to any zone, before it and after it, with the call's number from 1 on.
#[test]
fn the_gate_is_told_of_each_call(rt: HostRuntime) -> Result<(), Fail> {
    let config =
        b"http{limit_req_zone $binary_remote_addr zone=r:32k rate=1r/s;limit_conn_zone $binary_remote_addr zone=c:32k;server{limit_req zone=r;limit_conn c 1;}}";
    let gate = Counting {
        told: AtomicU64::new(0),
        wrong: AtomicBool::new(false),
    };
    replayed(&rt, config, b"0 0 open - 10.0.0.1\n1 0 done\n", "1", &gate)?;
    assert!(rt; !gate.wrong.load(Ordering::SeqCst));
    assert_eq!(rt; gate.told.load(Ordering::SeqCst), 6);
    Ok(())
}

/// Seven opens on seven connections in one second take the servers by their weights, in the order of the history.
#[test]
fn four_workers_take_servers_by_weight(rt: HostRuntime) -> Result<(), Fail> {
    let config =
        b"http{upstream u{zone z 32k;server a weight=5;server b;server c;}server{location /{proxy_pass http://u;}}}";
    let log =
        b"0 0 open / 1.1.1.1\n0 1 open / 1.1.1.1\n0 2 open / 1.1.1.1\n0 3 open / 1.1.1.1\n0 4 open / 1.1.1.1\n0 5 open / 1.1.1.1\n0 6 open / 1.1.1.1\n";
    let out = replayed(&rt, config, log, "4", &OpenGate)?;
    let mut servers = String::new(rt.alloc());
    for line in std::str::from_utf8(out.bytes())?.lines() {
        if let Some((_, server)) = line.split_once(" 0 peer ") {
            servers.push_str(server)?;
        }
    }
    assert_eq!(rt; servers.as_str(), "0010200");
    Ok(())
}
