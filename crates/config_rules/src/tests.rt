use crate::{ConfigFault, check_directives};
use directive_text::read;
use std::alloc::{AllocError, Global};

/// Texts with the first fault of their directives, `^` between the two and `|` between cases: the line and the
/// rule, or `ok`.
const FAULTS: &str = "\
    http{a{server{}}}^1:1|\
    http{server{}}^ok|\
    http{\nserver{}\nserver x{}}^3:2|\
    http{server{}\nserver;}^2:4|\
    limit_req zone=a;^1:3|\
    http{server{location /{zone a 1m;}}}^1:3|\
    http{upstream u{server a;\nlimit_req zone=a;}}^2:3|\
    http{server{location a b c{}}}^1:4|\
    http{limit_req_zone $a zone=a:1m;}^1:4|\
    http{limit_req_zone $a zone=a rate=1r/s;}^1:5|\
    http{limit_req NODELAY;}^1:5|\
    http{limit_conn_zone $a zone=a:1mk;}^1:6|\
    http{limit_req_zone $binary_remote_addr zone=one:32767 rate=1r/s;}^1:7|\
    http{limit_conn_zone $a zone=a:32k;limit_conn_zone $a zone=b:00032K;limit_conn_zone $a zone=c:1M;server{}}^ok|\
    http{limit_conn_zone $a zone=a:67108865;}^1:8|\
    http{limit_conn_zone $a zone=a:64m;limit_conn_zone $a zone=b:64m;limit_conn_zone $a zone=c:64m;limit_conn_zone $a zone=d:64m;\nlimit_conn_zone $a zone=e:32k;}^2:8|\
    http{limit_req_zone $a zone=a:1m rate=1000001r/s;}^1:9|\
    http{limit_req_zone $a zone=a:1m rate=0001000000r/m;server{}}^ok|\
    http{limit_conn \"\" 1;}^1:10|\
    http{limit_req_dry_run ON;}^1:10|\
    http{upstream u{server a fail_timeout=366d;}}^1:10|\
    http{limit_conn_zone $a zone=a:1m;limit_req zone=a;}^1:11|\
    http{server{}limit_req zone=a;\nlimit_req_zone $k zone=a:bad rate=1r/s;}^2:6|\
    http{server{location /{limit_conn c 1;}}limit_conn_zone $a zone=c:1m;}^ok|\
    http{limit_conn_zone $a zone=a:1m;limit_req_zone $b rate=1r/s zone=a:1m;}^1:12|\
    http{limit_req_zone $a zone=a:1m rate=1r/s;limit_req zone=a;server{limit_req zone=a;}}^ok|\
    http{limit_req_zone $a zone=a:1m rate=1r/s;limit_req zone=a zone=x;}^1:13|\
    http{upstream u{server a weight=1 weight=1;}}^1:13|\
    http{server{location /A{}location /a{}}}^ok|\
    http{limit_conn_zone $a zone=a:32k;limit_conn_zone $a zone=b:32k;limit_conn_zone $a zone=c:32k;limit_conn_zone $a zone=d:32k;limit_conn_zone $a zone=e:32k;limit_conn_zone $a zone=f:32k;limit_conn_zone $a zone=g:32k;limit_conn_zone $a zone=h:32k;limit_conn_zone $a zone=i:32k;limit_conn_zone $a zone=j:32k;limit_conn_zone $a zone=k:32k;limit_conn_zone $a zone=l:32k;limit_conn_zone $a zone=m:32k;limit_conn_zone $a zone=n:32k;limit_conn_zone $a zone=o:32k;limit_conn_zone $a zone=p:32k;limit_conn_zone $a zone=q:32k;}^1:14|\
    http{server{location a b{}location \"a b\"{}}}^1:15|\
    http{upstream back{server a;}upstream BACK{server a;}}^1:15|\
    http{limit_conn_zone ${a zone=a:1m;}^1:16|\
    http{upstream u{\nserver a backup weight=0;}}^1:17|\
    http{upstream u{server backup;}server{}}^ok|\
    http{upstream u{server a;\nip_hash;}}^2:18|\
    http{limit_req_zone $ zone=:1k rate=0r/s;}^1:7|\
    http{limit_conn_zone $a zone=a:1m;\nlimit_conn_zone $ zone=a:1m;}^2:12";

/// What the directives of a text break first: the line and the rule, or `ok`.
fn found(alloc: Global, text: &[u8]) -> Result<String, AllocError> {
    match read(alloc, text) {
        Ok(tree) => match check_directives(alloc, tree.directives.as_slice()) {
            Ok(()) => String::from_str(alloc, "ok"),
            Err(ConfigFault::At { line, rule }) => format!(in alloc; "{line}:{rule}"),
            Err(ConfigFault::NoMemory) => String::from_str(alloc, "no memory"),
        },
        Err(_fault) => String::from_str(alloc, "text"),
    }
}

#[test]
fn faults_are_first(rt: HostRuntime) -> Result<(), AllocError> {
    for case in FAULTS.split('|') {
        if let Some((text, want)) = case.split_once('^') {
            let got = found(rt.alloc(), text.as_bytes())?;
            assert!(rt; got.as_str() == want, "{case}");
        }
    }
    Ok(())
}
