ghost use Rattle.std.specs.Prelude.{◌≡◌, [], IfOk};

use crate::draws::Draws;
use crate::peer_calls::{Declared, ONE, made, opened};
use crate::peer_plain::{PlainPeer, choose, free};
use crate::reader::word;
use peer_zone::PeerCall::{Choose, Free};
use peer_zone::PeerReply::{Freed, NoPeer, Peer};
use peer_zone::{Method, PeerCall, PeerReply, PeerZone};
use std::alloc::Global;
use std::process::Abort;
use std::test::Fail;
use zone_object::Journal;

/// How many calls a zone is asked.
const CALLS: u32 = 2000;

// ---- the zones

/// An upstream: its method and its lists.
#[derive(Drop)]
struct Upstream {
    method: Method,
    primary: Vec<PlainPeer>,
    backup: Vec<PlainPeer>,
}

impl Upstream {
    fn is_single(&self) -> bool {
        self.primary.len() == 1 && self.backup.is_empty()
    }

    /// Makes a call, and says what it is answered.
    fn step(&mut self, rt: &impl Abort, call: &PeerCall) -> PeerReply {
        let single = self.is_single();
        let method = self.method;
        let list = match call {
            Choose { list, .. } => *list,
            Free { list, .. } => *list,
        };
        if list == 0 {
            answer(rt, &mut self.primary, method, single, call)
        } else {
            answer(rt, &mut self.backup, method, single, call)
        }
    }
}

/// Makes a call on the servers of its list.
fn answer(
    rt: &impl Abort,
    peers: &mut [PlainPeer],
    method: Method,
    single: bool,
    call: &PeerCall,
) -> PeerReply {
    match call {
        Choose {
            list: _,
            tried,
            now,
        } => match choose(peers, method, single, *tried, *now) {
            Some(index) => {
                assert!(rt; index < 64);
                Peer {
                    index: index as u32,
                }
            }
            None => NoPeer,
        },
        Free {
            list: _,
            index,
            failed,
            now,
        } => {
            free(rt, peers, single, *index, *failed, *now);
            Freed
        }
    }
}

/// A list of so many servers.
fn drawn_list(alloc: Global, draws: &mut Draws, many: u64) -> Result<Vec<Declared>, Fail> {
    let mut list = Vec::new(alloc);
    for _server in 0..many {
        list.push(Declared {
            weight: 1 + draws.below(6),
            max_conns: draws.below(3) * 4,
            max_fails: draws.below(4),
            fail_timeout: draws.below(12),
            down: draws.happens(8),
            ..ONE
        })?;
    }
    Ok(list)
}

/// The plain list of these servers.
fn plain_list(alloc: Global, declared: &[Declared]) -> Result<Vec<PlainPeer>, Fail> {
    let mut list = Vec::new(alloc);
    for one in declared {
        list.push(PlainPeer::new(one))?;
    }
    Ok(list)
}

/// A zone of 32,768 bytes with these servers, with an empty journal.
fn begun(
    rt: &impl Abort,
    alloc: Global,
    method: Method,
    primary: &[Declared],
    backup: &[Declared],
) -> Result<Journal<PeerZone>, Fail>
    ensures { IfOk result (λ journal. (journal.room ≡ 2000) × (journal.log ≡ [])) }
{
    let zone = opened(rt, alloc, 32_768, method, primary, backup)??;
    Ok(Journal::new(alloc, zone, CALLS)?)
}

// ---- the calls

/// A server that a request has.
#[derive(Clone, Copy)]
struct Taken {
    list: u32,
    index: u32,
}

/// A call at this moment: a choice, or the end of a request.
fn drawn(draws: &mut Draws, held: &mut Vec<Taken>, now: u64) -> PeerCall {
    if held.is_empty() || draws.happens(55) {
        return Choose {
            list: u32::from(draws.happens(30)),
            tried: if draws.happens(30) {
                draws.below(128)
            } else {
                0
            },
            now,
        };
    }
    let place = draws.below(held.len() as u64) as usize;
    let Taken { list, index } = held.swap_remove(place);
    Free {
        list,
        index,
        failed: draws.happens(40),
        now,
    }
}

// ---- the words

/// Compares a record with the plain one, and gives the offset of the next.
fn compare_record(rt: &impl Abort, zone: &PeerZone, record: u64, peer: &PlainPeer) -> u64 {
    let wanted = peer.words();
    for i in 0..11u64 {
        assert_eq!(rt; word(rt, zone, record, i + 1), wanted[i as usize]);
    }
    // the address
    assert_eq!(rt; word(rt, zone, record, 12), 1);
    assert_eq!(rt; word(rt, zone, record, 13), 97);
    word(rt, zone, record, 0)
}

/// Compares a list of records with the plain list.
fn compare_list(rt: &impl Abort, zone: &PeerZone, at: u64, peers: &[PlainPeer]) {
    assert_eq!(rt; word(rt, zone, at, 1), peers.len() as u64);
    let mut record = word(rt, zone, at, 0);
    for peer in peers {
        record = compare_record(rt, zone, record, peer);
    }
    assert_eq!(rt; record, 0);
}

/// Compares the words of a zone with the plain lists.
fn compare(rt: &impl Abort, zone: &PeerZone, plain: &Upstream) {
    let context = word(rt, zone, 0, 23);
    let method = match plain.method {
        Method::Round => 0,
        Method::Least => 1,
    };
    assert_eq!(rt; word(rt, zone, context, 2), method);
    let primary = word(rt, zone, context, 0);
    compare_list(rt, zone, primary, &plain.primary);
    let single = word(rt, zone, primary, 2);
    assert_eq!(rt; single, u64::from(plain.is_single()));
    let backup = word(rt, zone, context, 1);
    assert_eq!(rt; backup == 0, plain.backup.is_empty());
    if backup != 0 {
        compare_list(rt, zone, backup, &plain.backup);
        assert_eq!(rt; word(rt, zone, backup, 2), 0);
    }
}

/// How often each reply came.
#[derive(Clone, Copy)]
struct Seen {
    peer: u32,
    no_peer: u32,
    freed: u32,
}

impl Seen {
    fn with(self, reply: PeerReply) -> Seen {
        let mut seen = self;
        match reply {
            Peer { .. } => seen.peer = seen.peer.saturating_add(1),
            NoPeer => seen.no_peer = seen.no_peer.saturating_add(1),
            Freed => seen.freed = seen.freed.saturating_add(1),
        }
        seen
    }
}

/// Makes generated calls on a fresh zone and on the plain lists, and compares the replies, and the words at times.
fn generated(
    rt: &impl Abort,
    alloc: Global,
    seed: u64,
    many: (u64, u64),
    method: Method,
    before: Seen,
) -> Result<Seen, Fail> {
    let mut draws = Draws::new(seed);
    let primary = drawn_list(alloc, &mut draws, many.0)?;
    let backup = drawn_list(alloc, &mut draws, many.1)?;
    let mut journal = begun(rt, alloc, method, &primary, &backup)?;
    let mut plain = Upstream {
        method,
        primary: plain_list(alloc, &primary)?,
        backup: plain_list(alloc, &backup)?,
    };
    let mut held: Vec<Taken> = Vec::new(alloc);
    let mut seen = before;
    let mut now = 1000u64;
    for n in 0..CALLS {
        now = draws.moment(now, 3, 20);
        let call = drawn(&mut draws, &mut held, now);
        let want = plain.step(rt, &call);
        let reply = made(rt, &mut journal, &call);
        assert_eq!(rt; reply, want, "seed {seed} call {n}");
        if let (Choose { list, .. }, Peer { index }) = (&call, reply) {
            held.push(Taken { list: *list, index })?;
        }
        seen = seen.with(reply);
        if n % 100 == 99 {
            compare(rt, journal.object(), &plain);
        }
    }
    Ok(seen)
}

/// Ten zones, with 1 to 9 primary and 0 to 5 backup servers: 20,000 calls.
#[test]
fn generated_peer_calls(rt: HostRuntime) -> Result<(), Fail> {
    let alloc = rt.alloc();
    let mut seen = Seen {
        peer: 0,
        no_peer: 0,
        freed: 0,
    };
    for (seed, many, method) in [
        (1, (3, 0), Method::Round),
        (2, (1, 0), Method::Round),
        (3, (5, 2), Method::Round),
        (4, (9, 5), Method::Round),
        (5, (1, 1), Method::Round),
        (6, (3, 0), Method::Least),
        (7, (1, 0), Method::Least),
        (8, (5, 2), Method::Least),
        (9, (9, 5), Method::Least),
        (10, (2, 3), Method::Least),
    ] {
        seen = generated(&rt, alloc, seed, many, method, seen)?;
    }
    assert!(rt; seen.peer > 5000 && seen.no_peer > 1000 && seen.freed > 5000);
    Ok(())
}
