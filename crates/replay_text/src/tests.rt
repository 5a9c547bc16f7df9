ghost use Rattle.std.specs.Prelude.{◌≤◌, length, IfOk};
ghost use Rattle.std.specs.List.{All};
ghost use Rattle.zone_config.specs.Conditions.{IsConfig};
ghost use Rattle.replay_log.specs.Limits.{IsLineOf};

use crate::{push_decisions, push_zones};
use directive_text::read;
use replay_log::{Line, read_log};
use replay_share::{Journals, replay_share};
use request_script::CALLS_A_LINE;
use std::alloc::Global;
use std::test::Fail;
use zone_config::{Config, config_of};

/// A zone of each kind.
const CONFIG: &[u8] =
    b"http{limit_req_zone $binary_remote_addr zone=r:32k rate=1r/s;limit_conn_zone $binary_remote_addr zone=c:32k;upstream back{zone z 32k;server a;}server{location /{limit_req zone=r burst=1;limit_conn c 1;proxy_pass http://back;}}}";

/// The second request is delayed by the limit of requests, and the limit of connections refuses it.
const LOG: &[u8] = b"0 0 open / 10.0.0.1\n500 1 open / 10.0.0.1\n600 0 done\n";

/// What is decided of each line, and each zone's history and tail: an entry that stays, one that leaves, and a server.
const TEXT: &[u8] = b"1 0 open pass req=PASSED delay=0 by=- excess=- conn=PASSED peer=a
2 1 open 503 req=DELAYED delay=500 by=r excess=0.500 conn=REJECTED:c peer=-
3 0 done end
zone r req calls=2
1 0 check 0a000001 0 1000 1 ok 0
2 0 check 0a000001 500 1000 1 ok 500
pages 7 free 5 entries 1
slot 32 total 127 used 1 reqs 1 fails 0
slot 128 total 32 used 2 reqs 2 fails 0
zone c conn calls=3
1 0 open 0a000001 1 opened 4160 1
2 0 open 0a000001 1 atlimit 1
3 0 close 4160 closed 0
pages 7 free 5 entries 0
slot 32 total 127 used 1 reqs 1 fails 0
slot 64 total 64 used 1 reqs 2 fails 0
zone z peer calls=2
1 0 choose 0 0000000000000000 0 peer 0
2 0 free 0 0 good 0 freed
pages 7 free 4 entries 1
slot 32 total 127 used 1 reqs 1 fails 0
slot 64 total 64 used 2 reqs 2 fails 0
slot 128 total 32 used 1 reqs 1 fails 0
";

/// What the directives say.
fn configured(alloc: Global, text: &[u8]) -> Result<Config, Fail>
    ensures { IfOk result IsConfig }
{
    let tree = read(alloc, text)?;
    Ok(config_of(alloc, &tree)?)
}

/// The text of a replay on one worker.
fn printed(alloc: Global, config: &Config, lines: &[Line]) -> Result<Vec<u8>, Fail>
    requires config { IsConfig config.now }
    requires lines { All (IsLineOf (length config.now.locations)) lines.now }
    requires few { length lines.now ≤ 131072 }
{
    let room = lines.len() as u32 * CALLS_A_LINE;
    let mut zones = Journals::open(alloc, config.zones.as_slice(), room)?;
    let decisions = replay_share(alloc, config, lines, 1, 0, &mut zones)?;
    let mut text = Vec::new(alloc);
    push_decisions(&mut text, config, lines, &decisions)?;
    push_zones(alloc, &mut text, config.zones.as_slice(), &zones)?;
    Ok(text)
}

/// Three lines in a zone of each kind.
#[test]
fn a_replay(rt: HostRuntime) -> Result<(), Fail> {
    let config = configured(rt.alloc(), CONFIG)?;
    let lines = read_log(rt.alloc(), LOG, &config)?;
    let text = printed(rt.alloc(), &config, &lines)?;
    assert_eq!(rt; text.as_slice(), TEXT);
    Ok(())
}
