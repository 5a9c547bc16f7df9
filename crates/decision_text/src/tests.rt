use crate::{
    check_text, push_conn_entry, push_peer_entry, push_req_entry, push_thousandths, push_zone_head,
};
use conn_zone::{ConnCall, ConnReply};
use directive_text::read;
use peer_zone::{PeerCall, PeerReply};
use req_zone::{ReqCall, ReqReply};
use std::alloc::Global;
use std::test::Fail;
use zone_config::config_of;
use zone_key::Key;

/// The heads of zones: a name with a blank and a `%`, and one without.
#[test]
fn heads(rt: HostRuntime) -> Result<(), Fail> {
    let mut text = Vec::new(rt.alloc());
    push_zone_head(&mut text, b"one", b" req ", 2)?;
    push_zone_head(&mut text, b"a b%\xff", b" peer ", 0)?;
    assert_eq!(rt;
        text.as_slice(),
        b"zone one req calls=2\nzone a%20b%25%FF peer calls=0\n".as_slice()
    );
    Ok(())
}

/// The calls of request zones, each with an answer that it can get.
fn req_entries(alloc: Global, text: &mut Vec<u8>) -> Result<(), Fail> {
    let check = ReqCall::Check {
        key: Key::of(alloc, &[10, 0, 0, 1])?,
        now: 1_000_000,
        burst: 5000,
        last: true,
    };
    let held = ReqCall::Check {
        key: Key::of(alloc, b"\xff")?,
        now: 0,
        burst: 0,
        last: false,
    };
    push_req_entry(alloc, text, 1, 0, &check, ReqReply::Pass { excess: 800 })?;
    push_req_entry(
        alloc,
        text,
        2,
        3,
        &held,
        ReqReply::Again {
            excess: 0,
            at: 4224,
        },
    )?;
    push_req_entry(alloc, text, 3, 0, &check, ReqReply::Busy { excess: 5500 })?;
    push_req_entry(alloc, text, 4, 0, &check, ReqReply::NoRoom { evicted: 1 })?;
    let account = ReqCall::Account { at: 4224, now: 7 };
    push_req_entry(
        alloc,
        text,
        5,
        15,
        &account,
        ReqReply::Accounted { excess: 1000 },
    )?;
    push_req_entry(
        alloc,
        text,
        6,
        0,
        &ReqCall::Release { at: 4224 },
        ReqReply::Released,
    )?;
    Ok(())
}

/// The calls of connection zones.
fn conn_entries(alloc: Global, text: &mut Vec<u8>) -> Result<(), Fail> {
    let open = ConnCall::Open {
        key: Key::of(alloc, &[10, 0, 0, 1])?,
        limit: 10,
    };
    push_conn_entry(
        alloc,
        text,
        7,
        0,
        &open,
        ConnReply::Opened {
            at: 65_600,
            count: 2,
        },
    )?;
    push_conn_entry(alloc, text, 8, 0, &open, ConnReply::AtLimit { count: 10 })?;
    push_conn_entry(alloc, text, 9, 0, &open, ConnReply::NoRoom)?;
    push_conn_entry(
        alloc,
        text,
        10,
        1,
        &ConnCall::Close { at: 65_600 },
        ConnReply::Closed { count: 1 },
    )?;
    Ok(())
}

/// The calls of upstream zones.
fn peer_entries(alloc: Global, text: &mut Vec<u8>) -> Result<(), Fail> {
    let choose = PeerCall::Choose {
        list: 0,
        tried: 0x8000_0000_0000_00a1,
        now: 1000,
    };
    let failed = PeerCall::Free {
        list: 1,
        index: 63,
        failed: true,
        now: 1000,
    };
    let good = PeerCall::Free {
        list: 0,
        index: 0,
        failed: false,
        now: 5,
    };
    push_peer_entry(alloc, text, 11, 0, &choose, PeerReply::Peer { index: 1 })?;
    push_peer_entry(alloc, text, 12, 0, &choose, PeerReply::NoPeer)?;
    push_peer_entry(alloc, text, 13, 0, &failed, PeerReply::Freed)?;
    push_peer_entry(alloc, text, 14, 0, &good, PeerReply::Freed)?;
    Ok(())
}

/// The lines of all calls and answers.
const LINES: &str = "1 0 check 0a000001 1000000 5000 1 ok 800
2 3 check ff 0 0 0 again 0 4224
3 0 check 0a000001 1000000 5000 1 busy 5500
4 0 check 0a000001 1000000 5000 1 noroom 1
5 15 account 4224 7 accounted 1000
6 0 release 4224 released
7 0 open 0a000001 10 opened 65600 2
8 0 open 0a000001 10 atlimit 10
9 0 open 0a000001 10 noroom
10 1 close 65600 closed 1
11 0 choose 0 80000000000000a1 1000 peer 1
12 0 choose 0 80000000000000a1 1000 nopeer
13 0 free 1 63 failed 1000 freed
14 0 free 0 0 good 5 freed
";

#[test]
fn entries(rt: HostRuntime) -> Result<(), Fail> {
    let alloc = rt.alloc();
    let mut text = Vec::new(alloc);
    req_entries(alloc, &mut text)?;
    conn_entries(alloc, &mut text)?;
    peer_entries(alloc, &mut text)?;
    assert_eq!(rt; text.as_slice(), LINES.as_bytes());
    Ok(())
}

#[test]
fn amounts(rt: HostRuntime) -> Result<(), Fail> {
    let mut text = Vec::new(rt.alloc());
    for amount in [0, 7, 1000, 5_891, 12_345_060] {
        push_thousandths(&mut text, amount)?;
        text.push(b' ')?;
    }
    assert_eq!(rt;
        text.as_slice(),
        b"0.000 0.007 1.000 5.891 12345.060 ".as_slice()
    );
    Ok(())
}

/// Directives with a zone of each kind, a location that inherits and one that doesn't, and an upstream without a zone.
const DIRECTIVES: &[u8] = b"worker_processes 2;
http {
  limit_req_zone $binary_remote_addr zone=one:10m rate=1r/s;
  limit_conn_zone $binary_remote_addr zone=addr:32768;
  upstream back { zone back_zone 10m; server a weight=5; server b backup; least_conn; }
  upstream plain { server c; server d; }
  server {
    limit_conn addr 10;
    location / { proxy_pass http://back; limit_req zone=one burst=5; }
    location ~ \\.php$ { limit_conn addr 1; }
  }
}
";

/// What `check` says of them.
const CHECKED: &str = "zone one req bytes=10485760 pages=2544
zone addr conn bytes=32768 pages=7
zone back_zone peer bytes=10485760 pages=2544
upstream back primary=1 backup=1 method=least zone=back_zone
upstream plain primary=2 backup=0 method=round zone=-
server req=0 conn=1
location / req=1 conn=1
location ~%20\\.php$ req=0 conn=1
passed over 1
";

#[test]
fn configurations(rt: HostRuntime) -> Result<(), Fail> {
    let alloc = rt.alloc();
    let Ok(tree) = read(alloc, DIRECTIVES) else {
        return Err(Fail::new("the directives have a fault"));
    };
    let Ok(config) = config_of(alloc, &tree) else {
        return Err(Fail::new("a rule is broken"));
    };
    let text = check_text(alloc, &config)?;
    assert_eq!(rt; text.bytes(), CHECKED.as_bytes());
    Ok(())
}
