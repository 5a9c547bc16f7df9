ghost use Rattle.std.specs.Prelude.{◌≡◌, ◌+◌, ◌<◌, ◌≤◌, ◌^◌, [], length, sum_by, IfOk};
ghost use Rattle.zone_object.specs.History.{own};
ghost use Rattle.req_zone.specs.Object.{given as given_in, back as back_in, given_by, back_by};

use crate::draws::Draws;
use crate::plain_slab;
use crate::reader::{Form, count_nodes, find, word};
use crate::req_plain::{PlainEntry, PlainReq};
use req_zone::ReqReply::{Accounted, Again, Busy, NoRoom, Pass, Released};
use req_zone::{ReqCall, ReqReply, ReqSpec, ReqZone};
use std::alloc::Global;
use std::process::Abort;
use std::test::Fail;
use zone_key::{Key, crc32};
use zone_object::{Entry, Journal, ZoneView};
use zone_outside::Text;

/// How many calls a zone is asked.
const CALLS: u32 = 2000;

/// An empty zone of this rate and of so many bytes, with an empty journal.
fn opened(rt: &impl Abort, alloc: Global, rate: u64, bytes: u64) -> Result<Journal<ReqZone>, Fail>
    ensures { IfOk result (λ journal. (journal.room ≡ 2000) × (journal.log ≡ [])) }
{
    assert!(rt; rate >= 1 && rate <= 1_000_000_000 && bytes <= 67_108_864);
    let spec = ReqSpec {
        name: Text::of(alloc, b"one")?,
        bytes,
        page_shift: 12,
        rate,
    };
    let zone = ReqZone::open(alloc, &spec)?;
    Ok(Journal::new(alloc, zone, CALLS)?)
}

/// How many holds on the entry of a block a reply gives.
fn given(reply: ReqReply, block: u64) -> u64
    ensures { result ≡ given_by block reply }
{
    match reply {
        Again { excess: _, at } => u64::from(at == block),
        Pass { .. } => 0,
        Busy { .. } => 0,
        NoRoom { .. } => 0,
        Accounted { .. } => 0,
        Released => 0,
    }
}

/// How many a call gives back.
fn back(call: &ReqCall, block: u64) -> u64
    ensures { result ≡ back_by block call.now }
{
    match call {
        ReqCall::Check { .. } => 0,
        ReqCall::Account { at, now: _ } => u64::from(*at == block),
        ReqCall::Release { at } => u64::from(*at == block),
    }
}

/// The holds on the entry of a block that caller 0 was given, and those that it gave back.
#[derive(Clone, Copy)]
struct Tally {
    given: u64,
    back: u64,
}

/// Those of these entries.
fn had(entries: &[Entry<ReqZone>], block: u64) -> Tally
    requires { length entries.now < 2 ^ 32 }
    ensures given { result.given ≡ sum_by (given_in block) (own entries.now 0) }
    ensures back { result.back ≡ sum_by (back_in block) (own entries.now 0) }
    ensures few { (result.given ≤ length entries.now) × (result.back ≤ length entries.now) }
{
    let Some((entry, rest)) = entries.split_first() else {
        return Tally { given: 0, back: 0 };
    };
    let later = had(rest, block);
    if entry.caller != 0 {
        return later;
    }
    Tally {
        given: given(entry.reply, block) + later.given,
        back: back(&entry.call, block) + later.back,
    }
}

/// Makes a call for caller 0, which gives back only what it holds.
fn made(rt: &impl Abort, journal: &mut Journal<ReqZone>, call: ReqCall) -> ReqReply
    requires { length journal.old.log < journal.old.room }
    ensures room { journal.new.room ≡ journal.old.room }
    ensures log { length journal.new.log ≡ length journal.old.log + 1 }
{
    match call {
        ReqCall::Check {
            key,
            now,
            burst,
            last,
        } => {
            let long = key.bytes().len();
            assert!(rt; long > 0 && long < 65_536);
            assert!(rt; now < 1 << 42 && burst <= 1_000_000_000);
            journal.call(
                0,
                ReqCall::Check {
                    key,
                    now,
                    burst,
                    last,
                },
            )
        }
        ReqCall::Account { at, now } => {
            let entries = journal.entries();
            assert!(rt; entries.len() < 1_000_000);
            let had = had(entries, at);
            assert!(rt; now < 1 << 42 && had.back < had.given);
            journal.call(0, ReqCall::Account { at, now })
        }
        ReqCall::Release { at } => {
            let entries = journal.entries();
            assert!(rt; entries.len() < 1_000_000);
            let had = had(entries, at);
            assert!(rt; had.back < had.given);
            journal.call(0, ReqCall::Release { at })
        }
    }
}

/// A call at this moment: a check of a key, or the end of a hold.
fn drawn(alloc: Global, draws: &mut Draws, held: &mut Vec<u64>, now: u64) -> Result<ReqCall, Fail> {
    if held.is_empty() || draws.happens(70) {
        return Ok(ReqCall::Check {
            key: Key::of(alloc, &draws.key(alloc, 220, true)?)?,
            now,
            burst: 1000 * draws.below(4),
            last: draws.happens(70),
        });
    }
    let place = draws.below(held.len() as u64) as usize;
    let at = held.swap_remove(place);
    Ok(if draws.happens(60) {
        ReqCall::Account { at, now }
    } else {
        ReqCall::Release { at }
    })
}

/// Where a node has its key.
const FORM: Form = Form {
    divisor: 65_536,
    bound: 65_536,
    key_at: 80,
};

/// Compares a node with its entry.
fn compare_node(rt: &impl Abort, zone: &ReqZone, context: u64, entry: &PlainEntry) {
    let hash = u64::from(crc32(&entry.key));
    let found = find(rt, zone, context, FORM, hash, &entry.key);
    assert_eq!(rt; found, Some(entry.block));
    assert_eq!(rt; word(rt, zone, entry.block, 7), entry.last);
    assert_eq!(rt; word(rt, zone, entry.block, 8), entry.excess);
    assert_eq!(rt; word(rt, zone, entry.block, 9), entry.count);
}

/// Compares the words of a zone with the plain table: the queue from the front, each of its nodes, and how full it is.
fn compare(rt: &impl Abort, alloc: Global, zone: &ReqZone, plain: &PlainReq) -> Result<(), Fail> {
    let context = word(rt, zone, 0, 23);
    let head = context.saturating_add(64);
    let mut before = head;
    let mut link = word(rt, zone, context, 9);
    for entry in &plain.entries {
        assert_eq!(rt; link, entry.block.saturating_add(40));
        assert_eq!(rt; word(rt, zone, link, 0), before);
        compare_node(rt, zone, context, entry);
        before = link;
        link = word(rt, zone, link, 1);
    }
    assert_eq!(rt; (link, word(rt, zone, head, 0)), (head, before));
    let entries = plain.entries.len() as u64;
    assert_eq!(rt; zone.entry_count(), entries);
    count_nodes(rt, alloc, zone, context, entries)?;
    plain_slab::compare(rt, zone, &plain.slab);
    Ok(())
}

/// How often each reply came.
#[derive(Clone, Copy)]
struct Seen {
    pass: u32,
    again: u32,
    busy: u32,
    no_room: u32,
    ended: u32,
}

impl Seen {
    fn with(self, reply: ReqReply) -> Seen {
        let mut seen = self;
        match reply {
            Pass { .. } => seen.pass = seen.pass.saturating_add(1),
            Again { .. } => seen.again = seen.again.saturating_add(1),
            Busy { .. } => seen.busy = seen.busy.saturating_add(1),
            NoRoom { .. } => seen.no_room = seen.no_room.saturating_add(1),
            Accounted { .. } => seen.ended = seen.ended.saturating_add(1),
            Released => seen.ended = seen.ended.saturating_add(1),
        }
        seen
    }
}

/// Makes generated calls on an empty zone and on the plain table, and compares the replies, and the words at times.
fn generated(
    rt: &impl Abort,
    alloc: Global,
    seed: u64,
    rate: u64,
    bytes: u64,
    before: Seen,
) -> Result<Seen, Fail> {
    let mut journal = opened(rt, alloc, rate, bytes)?;
    let mut plain = PlainReq::open(rt, alloc, rate, bytes)?;
    let mut held: Vec<u64> = Vec::new(alloc);
    let mut draws = Draws::new(seed);
    let mut seen = before;
    let mut now = 1_000_000u64;
    for n in 0..CALLS {
        now = draws.moment(now, 300, 130_000);
        let call = drawn(alloc, &mut draws, &mut held, now)?;
        let want = plain.step(rt, alloc, &call)?;
        let reply = made(rt, &mut journal, call);
        assert_eq!(rt; reply, want, "seed {seed} call {n}");
        if let Again { excess: _, at } = reply {
            held.push(at)?;
        }
        seen = seen.with(reply);
        if n % 100 == 99 {
            compare(rt, alloc, journal.object(), &plain)?;
        }
    }
    Ok(seen)
}

/// Ten zones, of four rates and three sizes: 20,000 calls.
#[test]
fn generated_request_calls(rt: HostRuntime) -> Result<(), Fail> {
    let alloc = rt.alloc();
    let mut seen = Seen {
        pass: 0,
        again: 0,
        busy: 0,
        no_room: 0,
        ended: 0,
    };
    for (seed, rate, bytes) in [
        (1, 1000, 32_768),
        (2, 1000, 32_768),
        (3, 16, 32_768),
        (4, 10_000, 32_768),
        (5, 10_000, 32_768),
        (6, 1_000_000_000, 32_768),
        (7, 1000, 65_536),
        (8, 16, 65_536),
        (9, 10_000, 1_048_576),
        (10, 1000, 1_048_576),
    ] {
        seen = generated(&rt, alloc, seed, rate, bytes, seen)?;
    }
    assert!(rt; seen.pass > 5000 && seen.again > 2000 && seen.busy > 2000);
    assert!(rt; seen.no_room > 100 && seen.ended > 2000);
    Ok(())
}
