ghost use Rattle.std.specs.Prelude.{◌≡◌, ◌+◌, ◌<◌, [], length, IfOk};

use crate::ReqReply::{Busy, Pass};
use crate::{Allowed, OpenFault, ReqCall, ReqReply, ReqSpec, ReqZone, amount, delay};
use std::alloc::Global;
use std::process::Abort;
use std::test::Fail;
use zone_key::Key;
use zone_object::{Journal, ZoneView};
use zone_outside::Text;

/// A zone `one` of this rate and of 32,768 bytes, with an empty journal.
fn small_zone(
    rt: &impl Abort,
    alloc: Global,
    rate: u64,
    room: u32,
) -> Result<Journal<ReqZone>, Fail>
    ensures { IfOk result (λ journal. (journal.room ≡ room) × (journal.log ≡ [])) }
{
    assert!(rt; rate >= 1 && rate <= 1_000_000_000);
    let spec = ReqSpec {
        name: Text::of(alloc, b"one")?,
        bytes: 32_768,
        page_shift: 12,
        rate,
    };
    let zone = ReqZone::open(alloc, &spec)?;
    Ok(Journal::new(alloc, zone, room)?)
}

/// What a check of a key by the last limit of a request is answered.
fn checked(
    rt: &impl Abort,
    journal: &mut Journal<ReqZone>,
    key: Key,
    now: u64,
    burst: u64,
) -> ReqReply
    requires { length journal.old.log < journal.old.room }
    ensures room { journal.new.room ≡ journal.old.room }
    ensures log { length journal.new.log ≡ length journal.old.log + 1 }
{
    let long = key.bytes().len();
    assert!(rt; long > 0 && long < 65_536);
    assert!(rt; now < 1 << 42 && burst <= 1_000_000_000);
    journal.call(
        0,
        ReqCall::Check {
            key,
            now,
            burst,
            last: true,
        },
    )
}

/// Checks in a fresh zone of 8 pages, each with the reply that is wanted.
struct Case {
    rate: u64,
    burst: u64,
    calls: &'static [(u64, &'static [u8], ReqReply)],
}

const LONG: &[u8] = b"a key of forty-eight bytes, and of not one more.";

const CASES: [Case; 9] = [
    // a refusal stores nothing
    Case {
        rate: 1000,
        burst: 0,
        calls: &[
            (0, b"a", Pass { excess: 0 }),
            (500, b"a", Busy { excess: 500 }),
            (1000, b"a", Pass { excess: 0 }),
        ],
    },
    // one request a minute
    Case {
        rate: 16,
        burst: 0,
        calls: &[
            (0, b"a", Pass { excess: 0 }),
            (60_000, b"a", Busy { excess: 40 }),
            (62_499, b"a", Busy { excess: 1 }),
            (62_500, b"a", Pass { excess: 0 }),
        ],
    },
    // a clock that runs back by 30,000 ms, and then by 70,000 ms
    Case {
        rate: 1000,
        burst: 5000,
        calls: &[
            (100_000, b"a", Pass { excess: 0 }),
            (70_000, b"a", Pass { excess: 1000 }),
            (30_000, b"a", Pass { excess: 1999 }),
            (30_500, b"a", Pass { excess: 2499 }),
        ],
    },
    // by 60,000 ms and no more: the entry keeps its moment
    Case {
        rate: 1000,
        burst: 5000,
        calls: &[
            (100_000, b"a", Pass { excess: 0 }),
            (40_000, b"a", Pass { excess: 1000 }),
            (101_000, b"a", Pass { excess: 1000 }),
        ],
    },
    // after 60,000 ms the two oldest of three entries leave
    Case {
        rate: 1,
        burst: 1000,
        calls: &[
            (0, b"a", Pass { excess: 0 }),
            (0, b"b", Pass { excess: 0 }),
            (0, b"c", Pass { excess: 0 }),
            (60_000, b"d", Pass { excess: 0 }),
            (60_000, b"c", Pass { excess: 940 }),
            (60_000, b"a", Pass { excess: 0 }),
            (60_000, b"b", Pass { excess: 0 }),
        ],
    },
    // after 59,999 ms none leaves
    Case {
        rate: 1,
        burst: 1000,
        calls: &[
            (0, b"a", Pass { excess: 0 }),
            (59_999, b"d", Pass { excess: 0 }),
            (59_999, b"a", Pass { excess: 941 }),
        ],
    },
    // a rate and a time whose product has more than 64 bits
    Case {
        rate: 999_600_000,
        burst: 0,
        calls: &[
            (0, b"a", Pass { excess: 0 }),
            (18_454_125_724, b"a", Pass { excess: 0 }),
        ],
    },
    // the last moments
    Case {
        rate: 1_000_000_000,
        burst: 1000,
        calls: &[
            (0, b"a", Pass { excess: 0 }),
            (4_398_046_511_103, b"a", Pass { excess: 0 }),
            (4_398_046_511_102, b"a", Pass { excess: 1000 }),
        ],
    },
    // keys of 1 and of 48 bytes
    Case {
        rate: 1000,
        burst: 0,
        calls: &[
            (0, LONG, Pass { excess: 0 }),
            (0, b"a", Pass { excess: 0 }),
            (0, LONG, Busy { excess: 1000 }),
        ],
    },
];

/// Makes the checks of a case.
fn run(rt: &impl Abort, alloc: Global, case: &Case) -> Result<(), Fail> {
    let calls = case.calls;
    assert!(rt; calls.len() < 100);
    let mut journal = small_zone(rt, alloc, case.rate, calls.len() as u32)?;
    for (now, key, want) in calls {
        let key = Key::of(alloc, key)?;
        let reply = checked(rt, &mut journal, key, *now, case.burst);
        assert_eq!(rt; reply, *want, "at {now}");
    }
    Ok(())
}

#[test]
fn small_zones(rt: HostRuntime) -> Result<(), Fail> {
    for case in &CASES {
        run(&rt, rt.alloc(), case)?;
    }
    Ok(())
}

/// The words of an empty zone `one` of 32,768 bytes that aren't 0.
const EMPTY: [(u64, u64); 44] = [
    (2, 8),
    (3, 3),
    (4, 0x2c0),
    (5, 0x368),
    (7, 0x2f0),
    (9, 0x1a0),
    (10, 5),
    (11, 0x1000),
    (12, 0x8000),
    (20, 0x2020),
    (23, 0x1000),
    // the heads of the classes
    (26, 0xc8),
    (29, 0xe0),
    (32, 0x2d8),
    (35, 0x110),
    (38, 0x2c0),
    (41, 0x140),
    (44, 0x158),
    (47, 0x170),
    (50, 0x188),
    // the statistics of the classes of 32 and 128 bytes
    (60, 0x7f),
    (61, 1),
    (62, 1),
    (68, 0x20),
    (69, 1),
    (70, 1),
    // the descriptors of their pages, and of the free run
    (88, 0x1_0000_0007),
    (89, 0x128),
    (90, 0x129),
    (91, 5),
    (92, 0xf8),
    (93, 0xfb),
    (94, 5),
    (95, 0x30),
    (96, 0x30),
    (108, 0x2f0),
    // the context: the root, the sentinel's offset, and the queue's head
    (512, 0x1018),
    (513, 0x1018),
    (520, 0x1040),
    (521, 0x1040),
    // the bits of the name's page, and the name
    (1024, 3),
    (1028, 0x696d_696c_206e_6920),
    (1029, 0x6f7a_2071_6572_5f74),
    (1030, 0x2265_6e6f_2220_656e),
];

/// The words that differ after one check of the key `123456789` at moment 5, by the last limit.
const CHECKED: [(u64, u64); 15] = [
    // one block of 128 bytes more
    (69, 2),
    (70, 2),
    (88, 0x3_0000_0007),
    // the root, and both ends of the queue
    (512, 0x1080),
    (520, 0x10a8),
    (521, 0x10a8),
    // the node
    (528, 0xcbf4_3926),
    (529, 0x1018),
    (530, 0x1018),
    (532, 0x9_0000),
    (533, 0x1040),
    (534, 0x1040),
    (535, 5),
    (538, 0x3837_3635_3433_3231),
    (539, 0x39),
];

/// The value of a word in such a list.
fn listed(list: &[(u64, u64)], word: u64) -> Option<u64> {
    for (at, value) in list {
        if *at == word {
            return Some(*value);
        }
    }
    None
}

/// Compares all words of a zone with those of the empty zone and these changes.
fn compare(rt: &impl Abort, zone: &ReqZone, changes: &[(u64, u64)]) {
    let words = zone.words();
    assert!(rt; words == 4096);
    for word in 0..words {
        let empty = listed(&EMPTY, word).unwrap_or(0);
        let want = listed(changes, word).unwrap_or(empty);
        assert_eq!(rt; zone.word_at(word), want, "word {word}");
    }
}

#[test]
fn words_of_a_zone(rt: HostRuntime) -> Result<(), Fail> {
    let alloc = rt.alloc();
    let mut journal = small_zone(&rt, alloc, 1000, 1)?;
    compare(&rt, journal.object(), &[]);
    let key = Key::of(alloc, b"123456789")?;
    assert_eq!(rt; checked(&rt, &mut journal, key, 5, 0), Pass { excess: 0 });
    let zone = journal.object();
    compare(&rt, zone, &CHECKED);
    assert_eq!(rt;
        (zone.page_count(), zone.free_count(), zone.entry_count()),
        (7, 5, 1)
    );
    assert_eq!(rt;
        (
            zone.stat_of(4).used,
            zone.stat_of(4).reqs,
            zone.stat_of(9).total
        ),
        (2, 2, 0)
    );
    Ok(())
}

#[test]
fn too_small(rt: HostRuntime) -> Result<(), Fail> {
    let spec = ReqSpec {
        name: Text::of(rt.alloc(), b"one")?,
        bytes: 32_767,
        page_shift: 12,
        rate: 1000,
    };
    assert!(rt; matches!(ReqZone::open(rt.alloc(), &spec), Err(OpenFault::TooSmall)));
    Ok(())
}

#[test]
fn amounts_and_delays(rt: HostRuntime) {
    assert_eq!(rt; amount(1000, 500, 0, 250), 1250);
    assert_eq!(rt; amount(1000, 0, 0, 5000), 0);
    assert_eq!(rt; amount(1000, 5, 60_000, 0), 1005);
    assert_eq!(rt; amount(1000, 5, 60_001, 0), 1004);
    assert_eq!(rt; delay(2499, Allowed::Above { excess: 1000 }, 1000), 1499);
    assert_eq!(rt; delay(2499, Allowed::Above { excess: 2499 }, 1000), 0);
    assert_eq!(rt; delay(2499, Allowed::Never, 1000), 0);
    assert_eq!(rt; delay(1000, Allowed::Above { excess: 0 }, 16), 62_500);
    assert_eq!(rt; delay(1000, Allowed::Above { excess: 0 }, 16_666), 60);
}
