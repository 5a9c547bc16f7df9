ghost use Rattle.std.specs.Prelude.{◌≡◌, ◌+◌, ◌<◌, ◌≤◌, ◌^◌, length, sum_by, IfOk};
ghost use Rattle.std.specs.List.{All};
ghost use Rattle.zone_object.specs.History.{own};
ghost use Rattle.peer_zone.specs.declared.state.PeerState.{PeerState};
ghost use Rattle.peer_zone.specs.Object.{IsServer, given as given_in, back as back_in, given_by, back_by};
ghost use Rattle.peer_zone.specs.Opening.{IsOpened};
ghost use Rattle.peer_zone.specs.Lays.{Lays};

use peer_zone::PeerCall::{Choose, Free};
use peer_zone::PeerReply::{Freed, NoPeer, Peer};
use peer_zone::{Method, OpenFault, PeerCall, PeerReply, PeerSpec, PeerZone, Server};
use sqlite_items::Items;
use std::alloc::Global;
use std::process::Abort;
use std::test::Fail;
use zone_object::{Entry, Journal};
use zone_outside::Text;

// ---- zones

/// What a server is declared as.
#[derive(Clone, Copy)]
pub(crate) struct Declared {
    pub(crate) address: &'static [u8],
    pub(crate) weight: u64,
    pub(crate) max_conns: u64,
    pub(crate) max_fails: u64,
    pub(crate) fail_timeout: u64,
    pub(crate) down: bool,
}

/// Weight 1 and the other defaults of the directive, at an address of one byte.
pub(crate) const ONE: Declared = Declared {
    address: b"a",
    weight: 1,
    max_conns: 0,
    max_fails: 1,
    fail_timeout: 10,
    down: false,
};

/// The server that was declared.
fn server(rt: &impl Abort, alloc: Global, declared: &Declared) -> Result<Server, Fail>
    ensures { IfOk result (λ server. IsServer server) }
{
    let address = Text::of(alloc, declared.address)?;
    let long = address.bytes().len();
    assert!(rt; long > 0 && long < 256);
    assert!(rt; declared.weight > 0 && declared.weight < 65_536);
    assert!(rt; declared.max_conns <= 1_000_000_000 && declared.max_fails <= 1_000_000_000);
    assert!(rt; declared.fail_timeout <= 31_536_000);
    Ok(Server {
        address,
        weight: declared.weight,
        max_conns: declared.max_conns,
        max_fails: declared.max_fails,
        fail_timeout: declared.fail_timeout,
        down: declared.down,
    })
}

/// The servers that were declared.
fn servers(rt: &impl Abort, alloc: Global, declared: &[Declared]) -> Result<Items<Server>, Fail>
    ensures { IfOk result (λ servers. All IsServer servers) }
{
    let mut servers = Items::new(alloc);
    for one in declared {
        servers.push(server(rt, alloc, one)?)?;
    }
    Ok(servers)
}

/// What is answered where a zone `u` of so many bytes with these servers is opened.
pub(crate) fn opened(
    rt: &impl Abort,
    alloc: Global,
    bytes: u64,
    method: Method,
    primary: &[Declared],
    backup: &[Declared],
) -> Result<Result<PeerZone, OpenFault>, Fail>
    ensures { IfOk result (λ opened. IfOk opened (λ zone. (s : PeerState) × IsOpened s × Lays zone s)) }
{
    let name = Text::of(alloc, b"u")?;
    let primary = servers(rt, alloc, primary)?;
    let backup = servers(rt, alloc, backup)?;
    assert!(rt; name.bytes().len() == 1 && bytes <= 67_108_864);
    assert!(rt; primary.len() > 0 && primary.len() <= 64 && backup.len() <= 64);
    let spec = PeerSpec {
        name,
        bytes,
        page_shift: 12,
        method,
        primary,
        backup,
    };
    Ok(PeerZone::open(alloc, spec))
}

// ---- calls

/// How often a reply gives this server.
fn given(call: &PeerCall, reply: PeerReply, list: u32, index: u32) -> u64
    ensures { result ≡ given_by list index call.now reply }
{
    match call {
        Choose { list: to, .. } => match reply {
            Peer { index: at } => u64::from(*to == list && at == index),
            NoPeer => 0,
            Freed => 0,
        },
        Free { .. } => 0,
    }
}

/// How often a call gives it back.
fn back(call: &PeerCall, list: u32, index: u32) -> u64
    ensures { result ≡ back_by list index call.now }
{
    match call {
        Choose { .. } => 0,
        Free {
            list: to,
            index: at,
            ..
        } => u64::from(*to == list && *at == index),
    }
}

/// What caller 0 was given of a server, and what it gave back.
#[derive(Clone, Copy)]
struct Tally {
    given: u64,
    back: u64,
}

/// The same in these entries.
fn had(entries: &[Entry<PeerZone>], list: u32, index: u32) -> Tally
    requires { length entries.now < 2 ^ 32 }
    ensures given { result.given ≡ sum_by (given_in list index) (own entries.now 0) }
    ensures back { result.back ≡ sum_by (back_in list index) (own entries.now 0) }
    ensures few { (result.given ≤ length entries.now) × (result.back ≤ length entries.now) }
{
    let Some((entry, rest)) = entries.split_first() else {
        return Tally { given: 0, back: 0 };
    };
    let later = had(rest, list, index);
    if entry.caller != 0 {
        return later;
    }
    Tally {
        given: given(&entry.call, entry.reply, list, index) + later.given,
        back: back(&entry.call, list, index) + later.back,
    }
}

/// Makes a call for caller 0, which frees only what it has.
pub(crate) fn made(rt: &impl Abort, journal: &mut Journal<PeerZone>, call: &PeerCall) -> PeerReply
    requires { length journal.old.log < journal.old.room }
    ensures room { journal.new.room ≡ journal.old.room }
    ensures log { length journal.new.log ≡ length journal.old.log + 1 }
{
    match call {
        Choose { list, tried, now } => {
            let (list, tried, now) = (*list, *tried, *now);
            assert!(rt; list < 2 && now < 1 << 42);
            journal.call(0, Choose { list, tried, now })
        }
        Free {
            list,
            index,
            failed,
            now,
        } => {
            let (list, index, failed, now) = (*list, *index, *failed, *now);
            let entries = journal.entries();
            assert!(rt; entries.len() < 1_000_000);
            let had = had(entries, list, index);
            assert!(rt; list < 2 && now < 1 << 42 && had.back < had.given);
            journal.call(
                0,
                Free {
                    list,
                    index,
                    failed,
                    now,
                },
            )
        }
    }
}
