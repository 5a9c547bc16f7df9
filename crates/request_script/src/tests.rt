ghost use Rattle.std.specs.Prelude.{IfOk, OnOk};
ghost use Rattle.std.specs.List.{All};
ghost use Rattle.zone_config.specs.Conditions.{IsConfig};
ghost use Rattle.request_script.specs.Replies.{HasSmallExcess, HasSmallIndex, IsInRange};
ghost use Rattle.request_script.specs.Script.{MayBegin, state_of};

use crate::{Next, Script, ZoneReply, conn_spec, peer_spec, req_spec, rooms};
use directive_text::read;
use peer_zone::{Method, PeerReply};
use replay_log::{Event, Line};
use req_zone::ReqReply;
use sqlite_items::Items;
use std::alloc::Global;
use std::process::Abort;
use std::test::Fail;
use zone_config::{Config, ConnData, MethodData, PeerData, ReqData, ServerData, config_of};
use zone_key::Vars;
use zone_outside::Text;

/// What is asked of an open that the second of two limits refuses, and what is decided.
const REFUSED: &str =
    "Req { zone: 0, call: Check { key: Key { bytes: [10, 0, 0, 1] }, now: 1000500, burst: 5000, last: false } }
Req { zone: 1, call: Check { key: Key { bytes: [10, 0, 0, 1] }, now: 1000500, burst: 0, last: true } }
Req { zone: 0, call: Release { at: 4224 } }
Started { outcome: Limited { status: 503 }, req: Rejected, delay: 0, by: Some(1), excess: Amount { value: 500 }, conn: Unset, peer: None }";

/// What is asked when a server takes a request,
const OPENED: &str = "Peer { zone: 0, call: Choose { list: 0, tried: 0, now: 11 } }
Started { outcome: Pass, req: Unset, delay: 0, by: None, excess: Unset, conn: Unset, peer: Some(PeerAt { zone: 0, list: 0, index: 0 }) }";

/// when it fails and the backup takes the request,
const FAILED: &str = "Peer { zone: 0, call: Free { list: 0, index: 0, failed: true, now: 11 } }
Peer { zone: 0, call: Choose { list: 0, tried: 1, now: 11 } }
Peer { zone: 0, call: Choose { list: 1, tried: 0, now: 11 } }
NextPeer { peer: PeerAt { zone: 0, list: 1, index: 0 } }";

/// and when the request ends.
const ENDED: &str = "Peer { zone: 0, call: Free { list: 1, index: 0, failed: false, now: 11 } }
Ended";

/// A server of this address and weight, of which all else is left out.
fn server(alloc: Global, address: &[u8], weight: u64) -> Result<ServerData, Fail> {
    Ok(ServerData {
        address: Text::of(alloc, address)?,
        weight,
        max_conns: 0,
        max_fails: 1,
        fail_timeout: 10,
        down: false,
    })
}

/// Zones are opened with what a configuration says of them.
#[test]
fn zones_are_opened(rt: HostRuntime) -> Result<(), Fail> {
    let req = ReqData {
        name: Text::of(rt.alloc(), b"one")?,
        bytes: 32_768,
        page_shift: 12,
        rate: 2000,
    };
    let spec = req_spec(rt.alloc(), &req)?;
    assert_eq!(rt; spec.name.bytes(), b"one".as_slice());
    assert_eq!(rt;
        (spec.bytes, spec.page_shift, spec.rate),
        (32_768, 12, 2000)
    );
    let conn = ConnData {
        name: Text::of(rt.alloc(), b"addr")?,
        bytes: 65_536,
        page_shift: 12,
    };
    let spec = conn_spec(rt.alloc(), &conn)?;
    assert_eq!(rt; spec.name.bytes(), b"addr".as_slice());
    assert_eq!(rt; (spec.bytes, spec.page_shift), (65_536, 12));
    let mut primary = Items::new(rt.alloc());
    primary.push(server(rt.alloc(), b"a", 5)?)?;
    let peer = PeerData {
        name: Text::of(rt.alloc(), b"back")?,
        bytes: 32_768,
        page_shift: 12,
        method: MethodData::Least,
        primary,
        backup: Items::new(rt.alloc()),
    };
    let spec = peer_spec(rt.alloc(), &peer)?;
    assert!(rt; matches!(spec.method, Method::Least));
    assert_eq!(rt; (spec.primary.len(), spec.backup.len()), (1, 0));
    Ok(())
}

/// One line asks each of two zones at most 3 times.
#[test]
fn three_calls_a_line(rt: HostRuntime) -> Result<(), Fail> {
    let text = b"http{limit_req_zone $a zone=r:1m rate=1r/s;limit_conn_zone $a zone=c:1m;server{}}";
    let config = config_of(rt.alloc(), &read(rt.alloc(), text)?)?;
    let line = Line {
        number: 1,
        moment: 0,
        conn: 0,
        event: Event::Done,
    };
    assert_eq!(rt;
        rooms(rt.alloc(), &config, &[line])?.as_slice(),
        [3, 3].as_slice()
    );
    Ok(())
}

/// Lines of a connection at location 0.
fn line(moment: u64, conn: u32, event: Event) -> Line {
    Line {
        number: 1,
        moment,
        conn,
        event,
    }
}

/// An open from 10.0.0.1 at location 0.
fn open(alloc: Global) -> Event {
    Event::Start {
        level: Some(0),
        vars: Vars {
            address: [10, 0, 0, 1],
            pairs: Items::new(alloc),
        },
    }
}

/// What a script asks of a line, as it is shown, where these are the replies; and what it decides.
fn run(
    rt: &impl Abort,
    alloc: Global,
    script: &mut Script<'_>,
    line: &Line,
    replies: &[ZoneReply],
) -> Result<String, Fail>
    requires may { MayBegin (state_of script.old).stage }
    requires ranges { All IsInRange replies.now }
    ensures { OnOk result (MayBegin (state_of script.new).stage) }
{
    let mut shown = String::new(alloc);
    let mut next = script.begin(line)?;
    for reply in replies {
        match next {
            Next::Ask { call } => {
                write!(shown, "{call:?}\n")?;
                next = script.answer(*reply)?;
            }
            Next::Told { decision } => panic!(rt; "{decision:?}"),
        }
    }
    match next {
        Next::Ask { call } => panic!(rt; "{call:?}"),
        Next::Told { decision } => write!(shown, "{decision:?}")?,
    }
    Ok(shown)
}

/// What a request zone answers, with an excess in its range.
fn req(reply: ReqReply) -> ZoneReply
    requires { HasSmallExcess reply }
    ensures { IsInRange result }
{
    ZoneReply::Req { reply }
}

/// What an upstream's zone answers, with an index in its range.
fn peer(reply: PeerReply) -> ZoneReply
    requires { HasSmallIndex reply }
    ensures { IsInRange result }
{
    ZoneReply::Peer { reply }
}

/// What these directives say.
fn configured(alloc: Global, text: &[u8]) -> Result<Config, Fail>
    ensures { IfOk result IsConfig }
{
    let tree = read(alloc, text)?;
    Ok(config_of(alloc, &tree)?)
}

/// Checks what a script asks of a line with these replies, and what it decides.
fn expect(
    rt: &impl Abort,
    alloc: Global,
    script: &mut Script<'_>,
    line: Line,
    replies: &[ZoneReply],
    expected: &str,
) -> Result<(), Fail>
    requires may { MayBegin (state_of script.old).stage }
    requires ranges { All IsInRange replies.now }
    ensures { OnOk result (MayBegin (state_of script.new).stage) }
{
    let shown = run(rt, alloc, script, &line, replies)?;
    assert_eq!(rt; shown.as_str(), expected);
    Ok(())
}

/// The second of two limits refuses.
fn expect_refusal(rt: &impl Abort, alloc: Global, config: &Config) -> Result<(), Fail>
    requires { IsConfig config.now }
{
    let mut script = Script::new(alloc, config);
    let again = req(ReqReply::Again {
        excess: 500,
        at: 4224,
    });
    let busy = req(ReqReply::Busy { excess: 500 });
    let released = req(ReqReply::Released);
    let opens = line(1_000_500, 1, open(alloc));
    expect(
        rt,
        alloc,
        &mut script,
        opens,
        &[again, busy, released],
        REFUSED,
    )
}

/// A server fails, and the backup takes its request and ends it.
fn expect_failure(rt: &impl Abort, alloc: Global, config: &Config) -> Result<(), Fail>
    requires { IsConfig config.now }
{
    let mut script = Script::new(alloc, config);
    let first = peer(PeerReply::Peer { index: 0 });
    let none = peer(PeerReply::NoPeer);
    let freed = peer(PeerReply::Freed);
    let opens = line(11_900, 0, open(alloc));
    expect(rt, alloc, &mut script, opens, &[first], OPENED)?;
    let fails = line(11_900, 0, Event::Fail);
    expect(rt, alloc, &mut script, fails, &[freed, none, first], FAILED)?;
    let ends = line(11_900, 0, Event::Done);
    expect(rt, alloc, &mut script, ends, &[freed], ENDED)
}

/// A limit lets a request go on, the next one refuses it, and the first one's hold is let go.
#[test]
fn a_limit_refuses(rt: HostRuntime) -> Result<(), Fail> {
    let text =
        b"http{limit_req_zone $binary_remote_addr zone=ra:1m rate=1r/s;limit_req_zone $binary_remote_addr zone=rb:1m rate=1r/s;server{location /{limit_req zone=ra burst=5;limit_req zone=rb;}}}";
    let config = configured(rt.alloc(), text)?;
    expect_refusal(&rt, rt.alloc(), &config)
}

/// A server fails, and the backup takes its request and ends it.
#[test]
fn a_server_fails(rt: HostRuntime) -> Result<(), Fail> {
    let text =
        b"http{upstream back{zone back 1m;server a;server b backup;}server{location /{proxy_pass http://back;}}}";
    let config = configured(rt.alloc(), text)?;
    expect_failure(&rt, rt.alloc(), &config)
}
