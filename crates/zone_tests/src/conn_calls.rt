ghost use Rattle.std.specs.Prelude.{◌≡◌, ◌+◌, ◌<◌, ◌≤◌, ◌^◌, [], length, sum_by, IfOk};
ghost use Rattle.zone_object.specs.History.{own};
ghost use Rattle.conn_zone.specs.Object.{given as given_in, back as back_in, given_by, back_by};

use conn_zone::ConnReply::{AtLimit, Closed, NoRoom, Opened};
use conn_zone::{ConnCall, ConnReply, ConnSpec, ConnZone};
use std::alloc::Global;
use std::process::Abort;
use std::test::Fail;
use zone_object::{Entry, Journal};
use zone_outside::Text;

/// An empty zone `c` of so many bytes, with an empty journal for so many calls.
pub(crate) fn opened(
    rt: &impl Abort,
    alloc: Global,
    bytes: u64,
    room: u32,
) -> Result<Journal<ConnZone>, Fail>
    ensures { IfOk result (λ journal. (journal.room ≡ room) × (journal.log ≡ [])) }
{
    assert!(rt; bytes <= 67_108_864);
    let spec = ConnSpec {
        name: Text::of(alloc, b"c")?,
        bytes,
        page_shift: 12,
    };
    let zone = ConnZone::open(alloc, spec)?;
    Ok(Journal::new(alloc, zone, room)?)
}

/// How many connections on the entry of a block a reply gives.
fn given(reply: ConnReply, block: u64) -> u64
    ensures { result ≡ given_by block reply }
{
    match reply {
        Opened { at, count: _ } => u64::from(at == block),
        AtLimit { .. } => 0,
        NoRoom => 0,
        Closed { .. } => 0,
    }
}

/// How many a call gives back.
fn back(call: &ConnCall, block: u64) -> u64
    ensures { result ≡ back_by block call.now }
{
    match call {
        ConnCall::Open { .. } => 0,
        ConnCall::Close { at } => u64::from(*at == block),
    }
}

/// The connections on the entry of a block that a caller was given, and those that it gave back.
#[derive(Clone, Copy)]
struct Tally {
    given: u64,
    back: u64,
}

/// Those of these entries.
fn had(entries: &[Entry<ConnZone>], who: u32, block: u64) -> Tally
    requires { length entries.now < 2 ^ 32 }
    ensures given { result.given ≡ sum_by (given_in block) (own entries.now who) }
    ensures back { result.back ≡ sum_by (back_in block) (own entries.now who) }
    ensures few { (result.given ≤ length entries.now) × (result.back ≤ length entries.now) }
{
    let Some((entry, rest)) = entries.split_first() else {
        return Tally { given: 0, back: 0 };
    };
    let later = had(rest, who, block);
    if entry.caller != who {
        return later;
    }
    Tally {
        given: given(entry.reply, block) + later.given,
        back: back(&entry.call, block) + later.back,
    }
}

/// Makes a call for a caller, which closes only what it opened.
pub(crate) fn made(
    rt: &impl Abort,
    journal: &mut Journal<ConnZone>,
    who: u32,
    call: ConnCall,
) -> ConnReply
    requires { length journal.old.log < journal.old.room }
    ensures room { journal.new.room ≡ journal.old.room }
    ensures log { length journal.new.log ≡ length journal.old.log + 1 }
{
    match call {
        ConnCall::Open { key, limit } => {
            let long = key.bytes().len();
            assert!(rt; long > 0 && long < 256 && limit > 0 && limit < 65_536);
            journal.call(who, ConnCall::Open { key, limit })
        }
        ConnCall::Close { at } => {
            let entries = journal.entries();
            assert!(rt; entries.len() < 1_000_000);
            let had = had(entries, who, at);
            assert!(rt; had.back < had.given);
            journal.call(who, ConnCall::Close { at })
        }
    }
}
