ghost use Rattle.std.specs.Prelude.{◌<◌};

use crate::conn_calls::{made, opened};
use crate::conn_plain::{PlainConn, PlainEntry};
use crate::draws::Draws;
use crate::plain_slab;
use crate::reader::{Form, count_nodes, find, word};
use conn_zone::ConnReply::{AtLimit, Closed, NoRoom, Opened};
use conn_zone::{ConnCall, ConnReply, ConnZone};
use std::alloc::Global;
use std::process::Abort;
use std::test::Fail;
use zone_key::{Key, crc32};
use zone_object::ZoneView;

/// How many calls a zone is asked.
const CALLS: u32 = 2000;

/// A call: a connection of a key opens, or one that is open closes, more often the more are open.
fn drawn(alloc: Global, draws: &mut Draws, held: &mut Vec<u64>, most: u64) -> Result<ConnCall, Fail>
    requires { 0 < most }
{
    let open = held.len() as u64;
    if open == 0 || draws.below(most) >= open {
        return Ok(ConnCall::Open {
            key: Key::of(alloc, &draws.key(alloc, 400, false)?)?,
            limit: 1 + draws.below(12),
        });
    }
    let place = draws.below(open) as usize;
    Ok(ConnCall::Close {
        at: held.swap_remove(place),
    })
}

/// Where a node has its key.
const FORM: Form = Form {
    divisor: 256,
    bound: 256,
    key_at: 36,
};

/// Compares a node with its entry.
fn compare_node(rt: &impl Abort, zone: &ConnZone, context: u64, entry: &PlainEntry) {
    let hash = u64::from(crc32(&entry.key));
    let found = find(rt, zone, context, FORM, hash, &entry.key);
    assert_eq!(rt; found, Some(entry.block));
    let count = word(rt, zone, entry.block, 4) / 65_536 % 65_536;
    assert_eq!(rt; count, entry.count);
}

/// Compares the words of a zone with the plain table, and how full it is.
fn compare(rt: &impl Abort, alloc: Global, zone: &ConnZone, plain: &PlainConn) -> Result<(), Fail> {
    let context = word(rt, zone, 0, 23);
    for entry in &plain.entries {
        compare_node(rt, zone, context, entry);
    }
    let entries = plain.entries.len() as u64;
    assert_eq!(rt; zone.entry_count(), entries);
    count_nodes(rt, alloc, zone, context, entries)?;
    plain_slab::compare(rt, zone, &plain.slab);
    Ok(())
}

/// How often each reply came.
#[derive(Clone, Copy)]
struct Seen {
    opened: u32,
    at_limit: u32,
    no_room: u32,
    closed: u32,
}

impl Seen {
    fn with(self, reply: ConnReply) -> Seen {
        let mut seen = self;
        match reply {
            Opened { .. } => seen.opened = seen.opened.saturating_add(1),
            AtLimit { .. } => seen.at_limit = seen.at_limit.saturating_add(1),
            NoRoom => seen.no_room = seen.no_room.saturating_add(1),
            Closed { .. } => seen.closed = seen.closed.saturating_add(1),
        }
        seen
    }
}

/// Makes generated calls on an empty zone and on the plain table, and compares the replies, and the words at times.
fn generated(
    rt: &impl Abort,
    alloc: Global,
    seed: u64,
    most: u64,
    bytes: u64,
    before: Seen,
) -> Result<Seen, Fail> {
    assert!(rt; most > 0);
    let mut journal = opened(rt, alloc, bytes, CALLS)?;
    let mut plain = PlainConn::open(rt, alloc, bytes)?;
    let mut held: Vec<u64> = Vec::new(alloc);
    let mut draws = Draws::new(seed);
    let mut seen = before;
    for n in 0..CALLS {
        let call = drawn(alloc, &mut draws, &mut held, most)?;
        let want = plain.step(rt, alloc, &call)?;
        let reply = made(rt, &mut journal, 0, call);
        assert_eq!(rt; reply, want, "seed {seed} call {n}");
        if let Opened { at, count: _ } = reply {
            held.push(at)?;
        }
        seen = seen.with(reply);
        if n % 100 == 99 {
            compare(rt, alloc, journal.object(), &plain)?;
        }
    }
    Ok(seen)
}

/// Ten zones, of three sizes, with some 20 to 1,000 connections open at once: 20,000 calls.
#[test]
fn generated_connection_calls(rt: HostRuntime) -> Result<(), Fail> {
    let alloc = rt.alloc();
    let mut seen = Seen {
        opened: 0,
        at_limit: 0,
        no_room: 0,
        closed: 0,
    };
    for (seed, most, bytes) in [
        (1, 40, 32_768),
        (2, 300, 32_768),
        (3, 600, 32_768),
        (4, 1000, 32_768),
        (5, 2000, 32_768),
        (6, 300, 65_536),
        (7, 1000, 65_536),
        (8, 2000, 65_536),
        (9, 40, 1_048_576),
        (10, 2000, 1_048_576),
    ] {
        seen = generated(&rt, alloc, seed, most, bytes, seen)?;
    }
    assert!(rt; seen.opened > 5000 && seen.at_limit > 2000);
    assert!(rt; seen.no_room > 500 && seen.closed > 3000);
    Ok(())
}
