ghost use Rattle.std.specs.Prelude.{◌+◌, ◌≤◌, length};

use crate::conn_calls::{made, opened};
use conn_zone::{ConnCall, ConnReply, ConnSpec, ConnZone, OpenFault};
use std::alloc::Global;
use std::process::Abort;
use std::test::Fail;
use zone_key::Key;
use zone_object::{Journal, ZoneView};
use zone_outside::Text;

/// The size of the zones.
const BYTES: u64 = 32_768;

/// A connection of this key opens, of which there may be one at once.
fn open(alloc: Global, key: &[u8]) -> Result<ConnCall, Fail> {
    Ok(ConnCall::Open {
        key: Key::of(alloc, key)?,
        limit: 1,
    })
}

/// Two callers open a connection of one key, of which there may be one at once; then the first closes what it opened, and
/// the second opens one of another key.
fn one_at_once(rt: &impl Abort, alloc: Global, journal: &mut Journal<ConnZone>) -> Result<(), Fail>
    requires { length journal.old.log + 4 ≤ journal.old.room }
{
    let opened = made(rt, journal, 0, open(alloc, b"123456789")?);
    assert_eq!(rt; opened, ConnReply::Opened { at: 4160, count: 1 });
    let refused = made(rt, journal, 1, open(alloc, b"123456789")?);
    assert_eq!(rt; refused, ConnReply::AtLimit { count: 1 });
    let closed = made(rt, journal, 0, ConnCall::Close { at: 4160 });
    assert_eq!(rt; closed, ConnReply::Closed { count: 0 });
    let again = made(rt, journal, 1, open(alloc, b"1234")?);
    assert_eq!(rt; again, ConnReply::Opened { at: 4160, count: 1 });
    Ok(())
}

/// What a zone tells of itself, and its words that aren't those of an empty one.
fn compare_one(rt: &impl Abort, zone: &ConnZone) {
    assert_eq!(rt;
        (zone.entry_count(), zone.page_count(), zone.free_count()),
        (1, 7, 5)
    );
    assert_eq!(rt; (zone.stat_of(3).used, zone.stat_of(3).reqs), (2, 3));
    assert_eq!(rt; zone.stat_of(9).total, 0);
    compare(rt, zone, &REOPENED);
}

/// A freed node keeps the key's hash and the key but for its first four bytes, which the next grant of the block finds.
#[test]
fn rows_of_one_connection(rt: HostRuntime) -> Result<(), Fail> {
    let alloc = rt.alloc();
    let mut journal = opened(&rt, alloc, BYTES, 4)?;
    one_at_once(&rt, alloc, &mut journal)?;
    compare_one(&rt, journal.object());
    Ok(())
}

/// A zone of 32,768 bytes holds 383 nodes of keys of four bytes, and the next key finds no room.
#[test]
fn rows_of_a_full_zone(rt: HostRuntime) -> Result<(), Fail> {
    let alloc = rt.alloc();
    let mut journal = opened(&rt, alloc, BYTES, 384)?;
    for n in 0..384u32 {
        let call = open(alloc, &[10, 0, (n / 256) as u8, (n % 256) as u8])?;
        let reply = made(&rt, &mut journal, 0, call);
        assert_eq!(rt; reply == ConnReply::NoRoom, n == 383, "at {n}");
    }
    assert_eq!(rt; journal.object().entry_count(), 383);
    Ok(())
}

/// The words of an empty zone `c` of 32,768 bytes that aren't 0.
const EMPTY: [(u64, u64); 42] = [
    (2, 8),
    (3, 3),
    (4, 704),
    (5, 872),
    (7, 752),
    (9, 416),
    (10, 5),
    (11, 4096),
    (12, 32_768),
    (20, 8224),
    (23, 4096),
    // the heads of the classes
    (26, 200),
    (29, 224),
    (32, 728),
    (35, 704),
    (38, 296),
    (41, 320),
    (44, 344),
    (47, 368),
    (50, 392),
    // the statistics of the classes of 32 and 64 bytes
    (60, 127),
    (61, 1),
    (62, 1),
    (64, 64),
    (65, 1),
    (66, 1),
    // the descriptors of their pages, and of the free run
    (88, 1),
    (89, 272),
    (90, 274),
    (91, 5),
    (92, 248),
    (93, 251),
    (94, 5),
    (95, 48),
    (96, 48),
    (108, 752),
    // the context: the root, and the sentinel's offset
    (512, 4120),
    (513, 4120),
    // the bits of the name's page, and the name
    (1024, 3),
    (1028, 0x696d_696c_206e_6920),
    (1029, 0x7a5f_6e6e_6f63_5f74),
    (1030, 0x0022_6322_2065_6e6f),
];

/// The words that differ with one connection of the key `123456789`.
const OPENED: [(u64, u64); 9] = [
    // one block of 64 bytes more
    (65, 2),
    (66, 2),
    (88, 3),
    // the root
    (512, 4160),
    // the node
    (520, 0xcbf4_3926),
    (521, 4120),
    (522, 4120),
    (524, 0x3433_3231_0001_0900),
    (525, 0x39_3837_3635),
];

/// The words that differ with one connection of the key `1234`, in the block in which `123456789` stood before.
const REOPENED: [(u64, u64); 9] = [
    // three requests for a block of 64 bytes, of which two are live
    (65, 2),
    (66, 3),
    (88, 3),
    // the root
    (512, 4160),
    // the node
    (520, 0x9be3_e0a3),
    (521, 4120),
    (522, 4120),
    (524, 0x3433_3231_0001_0400),
    (525, 0x39_3837_3635),
];

/// The value of a word in such a list.
fn listed(list: &[(u64, u64)], word: u64) -> Option<u64> {
    for (at, value) in list {
        if *at == word {
            return Some(*value);
        }
    }
    None
}

/// Compares all words of a zone with those of the empty zone and these changes.
fn compare(rt: &impl Abort, zone: &ConnZone, changes: &[(u64, u64)]) {
    let words = zone.words();
    assert!(rt; words == 4096);
    for word in 0..words {
        let empty = listed(&EMPTY, word).unwrap_or(0);
        let want = listed(changes, word).unwrap_or(empty);
        assert_eq!(rt; zone.word_at(word), want, "word {word}");
    }
}

#[test]
fn words_of_a_zone(rt: HostRuntime) -> Result<(), Fail> {
    let alloc = rt.alloc();
    let mut journal = opened(&rt, alloc, BYTES, 1)?;
    compare(&rt, journal.object(), &[]);
    let reply = made(&rt, &mut journal, 0, open(alloc, b"123456789")?);
    assert_eq!(rt; reply, ConnReply::Opened { at: 4160, count: 1 });
    compare(&rt, journal.object(), &OPENED);
    Ok(())
}

#[test]
fn too_small(rt: HostRuntime) -> Result<(), Fail> {
    let spec = ConnSpec {
        name: Text::of(rt.alloc(), b"c")?,
        bytes: 32_767,
        page_shift: 12,
    };
    assert!(rt; matches!(ConnZone::open(rt.alloc(), spec), Err(OpenFault::TooSmall)));
    Ok(())
}
