use crate::peer_calls::{Declared, ONE, made, opened};
use peer_zone::PeerCall::{Choose, Free};
use peer_zone::PeerReply::{Freed, NoPeer, Peer};
use peer_zone::{Method, OpenFault, PeerCall, PeerReply};
use std::alloc::Global;
use std::process::Abort;
use std::test::Fail;
use zone_object::{Journal, ZoneView};

const TWO: Declared = Declared { weight: 2, ..ONE };

const FIVE: Declared = Declared { weight: 5, ..ONE };

/// At most one connection.
const LIMITED: Declared = Declared {
    max_conns: 1,
    ..ONE
};

/// An address of 255 bytes.
const LONG: Declared = Declared {
    address: &[97; 255],
    ..ONE
};

/// Calls on a fresh zone of 32,768 bytes, each with the reply that is wanted, and words afterwards.
struct Case {
    method: Method,
    primary: &'static [Declared],
    backup: &'static [Declared],
    calls: &'static [(PeerCall, PeerReply)],
    words: &'static [(u64, u64)],
}

/// A first try in list 0 at moment 0.
const FIRST_TRY: PeerCall = Choose {
    list: 0,
    tried: 0,
    now: 0,
};

/// A first try in list 1.
const BACKUP: PeerCall = Choose {
    list: 1,
    tried: 0,
    now: 0,
};

/// A try in list 0 of a request that has tried its first server.
const SECOND_TRY: PeerCall = Choose {
    list: 0,
    tried: 1,
    now: 0,
};

/// A failure of the first server of list 0 at moment 0.
const FAILURE: PeerCall = Free {
    list: 0,
    index: 0,
    failed: true,
    now: 0,
};

const CASES: [Case; 6] = [
    // weights 5, 1, 1: a cycle of seven
    Case {
        method: Method::Round,
        primary: &[FIVE, ONE, ONE],
        backup: &[],
        calls: &[
            (FIRST_TRY, Peer { index: 0 }),
            (FIRST_TRY, Peer { index: 0 }),
            (FIRST_TRY, Peer { index: 1 }),
            (FIRST_TRY, Peer { index: 0 }),
            (FIRST_TRY, Peer { index: 2 }),
            (FIRST_TRY, Peer { index: 0 }),
            (FIRST_TRY, Peer { index: 0 }),
        ],
        words: &[(1540, 5), (1556, 1), (1572, 1)],
    },
    // the primary server fails, its backup serves until the timeout is over, and a good end forgets the failure
    Case {
        method: Method::Round,
        primary: &[ONE],
        backup: &[ONE],
        calls: &[
            (FIRST_TRY, Peer { index: 0 }),
            (FAILURE, Freed),
            (SECOND_TRY, NoPeer),
            (BACKUP, Peer { index: 0 }),
            (
                Free {
                    list: 1,
                    index: 0,
                    failed: false,
                    now: 0,
                },
                Freed,
            ),
            (
                Choose {
                    list: 0,
                    tried: 0,
                    now: 10,
                },
                NoPeer,
            ),
            (
                Choose {
                    list: 0,
                    tried: 0,
                    now: 11,
                },
                Peer { index: 0 },
            ),
            (
                Free {
                    list: 0,
                    index: 0,
                    failed: false,
                    now: 11,
                },
                Freed,
            ),
        ],
        words: &[(1540, 0), (1542, 0), (1545, 11), (1546, 0)],
    },
    // a single server that fails is chosen again at once
    Case {
        method: Method::Round,
        primary: &[ONE],
        backup: &[],
        calls: &[
            (FIRST_TRY, Peer { index: 0 }),
            (FAILURE, Freed),
            (SECOND_TRY, Peer { index: 0 }),
            (BACKUP, NoPeer),
        ],
        words: &[(513, 0), (522, 1), (1540, 1), (1542, 0)],
    },
    // least connections over weights 2 and 1: the first and the fourth choice are ties
    Case {
        method: Method::Least,
        primary: &[TWO, ONE],
        backup: &[],
        calls: &[
            (FIRST_TRY, Peer { index: 0 }),
            (FIRST_TRY, Peer { index: 1 }),
            (FIRST_TRY, Peer { index: 0 }),
            (FIRST_TRY, Peer { index: 1 }),
        ],
        words: &[(514, 1), (1540, 2), (1556, 2)],
    },
    // servers of one connection at most, until one has none
    Case {
        method: Method::Round,
        primary: &[LIMITED, LIMITED],
        backup: &[],
        calls: &[
            (FIRST_TRY, Peer { index: 0 }),
            (FIRST_TRY, Peer { index: 1 }),
            (FIRST_TRY, NoPeer),
            (
                Free {
                    list: 0,
                    index: 0,
                    failed: false,
                    now: 0,
                },
                Freed,
            ),
            (FIRST_TRY, Peer { index: 0 }),
        ],
        words: &[(1540, 1), (1556, 1)],
    },
    // the second list goes round by its own weights
    Case {
        method: Method::Round,
        primary: &[LIMITED],
        backup: &[ONE, FIVE],
        calls: &[
            (FIRST_TRY, Peer { index: 0 }),
            (FIRST_TRY, NoPeer),
            (BACKUP, Peer { index: 1 }),
            (BACKUP, Peer { index: 1 }),
            (BACKUP, Peer { index: 0 }),
        ],
        words: &[(1540, 1), (1556, 1), (1572, 2)],
    },
];

/// Makes the calls of a case.
fn run(rt: &impl Abort, alloc: Global, case: &Case) -> Result<(), Fail> {
    let calls = case.calls;
    assert!(rt; calls.len() < 100);
    let zone = opened(rt, alloc, 32_768, case.method, case.primary, case.backup)??;
    let mut journal = Journal::new(alloc, zone, calls.len() as u32)?;
    for (call, reply) in calls {
        assert!(rt; made(rt, &mut journal, call) == *reply);
    }
    for (word, value) in case.words {
        assert!(rt; *word < journal.object().words());
        assert!(rt; journal.object().word_at(*word) == *value, "word {word}");
    }
    Ok(())
}

#[test]
fn rows(rt: HostRuntime) -> Result<(), Fail> {
    for case in &CASES {
        run(&rt, rt.alloc(), case)?;
    }
    Ok(())
}

/// The first server for whose record a zone of 32,768 bytes with these servers has no block.
fn refused(
    rt: &impl Abort,
    alloc: Global,
    primary: &[Declared],
    backup: &[Declared],
) -> Result<Option<u32>, Fail> {
    match opened(rt, alloc, 32_768, Method::Round, primary, backup)? {
        Ok(_zone) => Ok(None),
        Err(OpenFault::Small { server }) => Ok(Some(server)),
        Err(fault) => Err(Fail::from(fault)),
    }
}

/// Primary and backup servers, and the first of them for which there is no block: a record with an address of 255 bytes
/// takes 512 bytes, so a page has eight, and five of the seven pages are left.
const FULL: [(&[Declared], &[Declared], Option<u32>); 3] = [
    (&[LONG; 64], &[], Some(40)),
    (&[LONG; 40], &[], None),
    (&[LONG; 38], &[LONG; 3], Some(40)),
];

#[test]
fn refusals(rt: HostRuntime) -> Result<(), Fail> {
    for (primary, backup, server) in &FULL {
        let answer = refused(&rt, rt.alloc(), primary, backup)?;
        assert!(rt; answer == *server);
    }
    Ok(())
}

#[test]
fn too_small(rt: HostRuntime) -> Result<(), Fail> {
    let answer = opened(&rt, rt.alloc(), 32_767, Method::Least, &[ONE], &[])?;
    assert!(rt; matches!(answer, Err(OpenFault::TooSmall)));
    Ok(())
}

/// The words of a fresh zone `u` of 32,768 bytes, by least connections, with one primary and one backup server.
const FRESH: [(u64, u64); 68] = [
    (2, 8),
    (3, 3),
    (4, 704),
    (5, 872),
    (7, 776),
    (9, 416),
    (10, 4),
    (11, 4096),
    (12, 32_768),
    (20, 8224),
    (23, 4096),
    // the heads of the classes
    (26, 200),
    (29, 224),
    (32, 728),
    (35, 704),
    (38, 752),
    (41, 320),
    (44, 344),
    (47, 368),
    (50, 392),
    // the statistics of the classes of 32, 64 and 128 bytes
    (60, 127),
    (61, 1),
    (62, 1),
    (64, 64),
    (65, 3),
    (66, 3),
    (68, 32),
    (69, 2),
    (70, 2),
    // the descriptors of their pages, and of the free run
    (88, 7),
    (89, 272),
    (90, 274),
    (91, 5),
    (92, 248),
    (93, 251),
    (94, 0x3_0000_0007),
    (95, 296),
    (96, 297),
    (97, 4),
    (98, 48),
    (99, 48),
    (108, 776),
    // the context, and the heads of both lists
    (512, 4160),
    (513, 4224),
    (514, 1),
    (520, 12_288),
    (521, 1),
    (528, 12_416),
    (529, 1),
    // the bits of the name's page, and the name
    (1024, 3),
    (1028, 0x7473_7075_206e_6920),
    (1029, 0x6e6f_7a20_6d61_6572),
    (1030, 0x22_7522_2065),
    // the primary server
    (1537, 5),
    (1538, 5),
    (1541, 7),
    (1543, 2),
    (1544, 30),
    (1548, 11),
    (1549, 0x312e_302e_302e_3031),
    (1550, 0x30_383a),
    // the backup server
    (1553, 1),
    (1554, 1),
    (1559, 1),
    (1560, 10),
    (1563, 1),
    (1564, 1),
    (1565, 98),
];

/// What is wanted of a word of it: 0 where the table has none.
fn wanted(word: u64) -> u64 {
    for (at, value) in &FRESH {
        if *at == word {
            return *value;
        }
    }
    0
}

#[test]
fn words_of_a_fresh_zone(rt: HostRuntime) -> Result<(), Fail> {
    let primary = Declared {
        address: b"10.0.0.1:80",
        weight: 5,
        max_conns: 7,
        max_fails: 2,
        fail_timeout: 30,
        down: false,
    };
    let backup = Declared {
        address: b"b",
        down: true,
        ..ONE
    };
    let zone = opened(
        &rt,
        rt.alloc(),
        32_768,
        Method::Least,
        &[primary],
        &[backup],
    )??;
    let words = zone.words();
    assert!(rt; words == 4096);
    for word in 0..words {
        assert!(rt; zone.word_at(word) == wanted(word), "word {word}");
    }
    assert!(rt; (zone.page_count(), zone.free_count(), zone.entry_count()) == (7, 4, 2));
    Ok(())
}
