use crate::data::{MethodData, ServerData};
use crate::{Config, ConfigFault, Level, ZoneSpec, config_of};
use directive_text::read;
use std::alloc::{AllocError, Global};

/// Texts with what they configure, `^` between the two and `|` between cases. A zone is its kind, its name, its
/// bytes, and a rate, or a method with the servers; a server is its numbers in their order. An upstream is its
/// name, its counts and its zone. A level is its name, its limits, statuses and dry runs, and its peers.
const CONFIGS: &str = "\
    http{}^1:1|\
    http{\nserver{}\nserver{}}^3:2|\
    http { server { location ~ \\.php$ { } } }^S[]503,503,00,-L[~ \\.php$]503,503,00,-!0|\
    worker_processes 2;\nevents { worker_connections 1024; }\nhttp {\n  include mime.types;\n  limit_req_zone $binary_remote_addr zone=one:10m rate=1r/s;\n  limit_conn_zone $binary_remote_addr zone=addr:10m;\n  upstream back {\n    zone back_zone 10m;\n    server 127.0.0.1:8080 weight=5;\n    server 127.0.0.1:8081;\n  }\n  server {\n    listen 80;\n    limit_conn addr 10;\n    location / { proxy_pass http://back; limit_req zone=one burst=5; }\n    location /static/ { root /var/www; }\n  }\n}\n^\
    R[one]10485760,1000C[addr]10485760P[back_zone]10485760@8,r(127.0.0.1:8080 5,0,1,10)(127.0.0.1:8081 1,0,1,10)+U[back]2+0=2\
    S[]c1:10,503,503,00,-L[/]r0:5000:0c1:10,503,503,00,2L[/static/]c1:10,503,503,00,-!5|\
    http{limit_req_zone $a zone=a:1m rate=1r/m;limit_req zone=a burst=1 nodelay delay=2;server{location /{limit_req zone=a delay=2 nodelay;}location /b{limit_req_status 429;limit_req_dry_run on;}}}^\
    R[a]1048576,16S[]r0:1000:2000,503,503,00,-L[/]r0:0:n,503,503,00,-L[/b]r0:1000:2000,429,503,10,-!0|\
    http{limit_conn_status 500;server{limit_conn_status 501;limit_conn_dry_run on;location a{location b{limit_conn_dry_run off;}location c{}}}}^\
    S[]503,501,01,-L[a]503,501,01,-L[b]503,501,00,-L[c]503,501,01,-!0|\
    http{limit_conn_zone $a zone=a:1m;limit_conn_zone $a zone=b:1m;limit_req_zone $a zone=c:1m rate=2r/s;server{limit_conn a 1;limit_conn b 2;limit_req zone=c;location /{limit_conn b 3;location /x{}}}}^\
    C[a]1048576C[b]1048576R[c]1048576,2000S[]r2:0:0c0:1c1:2,503,503,00,-L[/]r2:0:0c1:3,503,503,00,-L[/x]r2:0:0c1:3,503,503,00,-!0|\
    http{upstream A{server a fail_timeout=1m max_conns=3 max_fails=0 down;server b backup fail_timeout=2h;least_conn;}upstream B{server c;zone zb 32k;}server{location /{proxy_pass x://b/y/z;}location /a{proxy_pass http://A;location /d{}}location /b{proxy_pass b;}location /c{proxy_pass http://c;}}}^\
    P[zb]32768@1,r(c 1,0,1,10)+U[A]1+1=-U[B]1+0=0S[]503,503,00,-L[/]503,503,00,0L[/a]503,503,00,-L[/d]503,503,00,-L[/b]503,503,00,-L[/c]503,503,00,-!0|\
    http{upstream A{server a fail_timeout=1m max_conns=3 max_fails=0 down;server b backup fail_timeout=2h;least_conn;zone z 1m;}server{location /{proxy_pass http://a;}}}^\
    P[z]1048576@1,l(a 1,3,0,60d)+(b 1,0,1,7200)U[A]1+1=0S[]503,503,00,-L[/]503,503,00,0!0|\
    a;b{c;d{}}http{e;server{f{g;}location /{h;}}i{j{}}upstream u{k;server a;}}^U[u]1+0=-S[]503,503,00,-L[/]503,503,00,-!7";

/// Adds a number in decimal.
fn push_number(alloc: Global, out: &mut Vec<u8>, number: u64) -> Result<(), AllocError> {
    out.extend_from_slice(format!(in alloc; "{number}")?.as_bytes())
}

/// Adds the servers of a list.
fn push_servers(
    alloc: Global,
    out: &mut Vec<u8>,
    servers: &[ServerData],
) -> Result<(), AllocError> {
    for server in servers {
        out.push(b'(')?;
        out.extend_from_slice(server.address.bytes())?;
        out.push(b' ')?;
        push_number(alloc, out, server.weight)?;
        out.push(b',')?;
        push_number(alloc, out, server.max_conns)?;
        out.push(b',')?;
        push_number(alloc, out, server.max_fails)?;
        out.push(b',')?;
        push_number(alloc, out, server.fail_timeout)?;
        if server.down {
            out.push(b'd')?;
        }
        out.push(b')')?;
    }
    Ok(())
}

/// Adds a zone's name and its bytes.
fn push_head(
    alloc: Global,
    out: &mut Vec<u8>,
    kind: u8,
    name: &[u8],
    bytes: u64,
) -> Result<(), AllocError> {
    out.push(kind)?;
    out.push(b'[')?;
    out.extend_from_slice(name)?;
    out.push(b']')?;
    push_number(alloc, out, bytes)
}

/// Adds a zone.
fn push_zone(alloc: Global, out: &mut Vec<u8>, zone: &ZoneSpec) -> Result<(), AllocError> {
    match zone {
        ZoneSpec::Req { spec, .. } => {
            push_head(alloc, out, b'R', spec.name.bytes(), spec.bytes)?;
            out.push(b',')?;
            push_number(alloc, out, spec.rate)
        }
        ZoneSpec::Conn { spec, .. } => push_head(alloc, out, b'C', spec.name.bytes(), spec.bytes),
        ZoneSpec::Peer { spec, line } => {
            push_head(alloc, out, b'P', spec.name.bytes(), spec.bytes)?;
            out.push(b'@')?;
            push_number(alloc, out, *line)?;
            out.extend_from_slice(match spec.method {
                MethodData::Round => b",r",
                MethodData::Least => b",l",
            })?;
            push_servers(alloc, out, spec.primary.as_slice())?;
            out.push(b'+')?;
            push_servers(alloc, out, spec.backup.as_slice())
        }
    }
}

/// Adds a number of a zone, or `-`.
fn push_zone_number(alloc: Global, out: &mut Vec<u8>, zone: Option<u32>) -> Result<(), AllocError> {
    match zone {
        Some(number) => push_number(alloc, out, u64::from(number)),
        None => {
            out.push(b'-')?;
            Ok(())
        }
    }
}

/// Adds a level.
fn push_level(alloc: Global, out: &mut Vec<u8>, kind: u8, level: &Level) -> Result<(), AllocError> {
    out.push(kind)?;
    out.push(b'[')?;
    out.extend_from_slice(level.name.bytes())?;
    out.push(b']')?;
    for limit in level.req.as_slice() {
        out.push(b'r')?;
        push_number(alloc, out, u64::from(limit.zone))?;
        out.push(b':')?;
        push_number(alloc, out, limit.burst)?;
        out.push(b':')?;
        if limit.allowed_never {
            out.push(b'n')?;
        } else {
            push_number(alloc, out, limit.delay)?;
        }
    }
    for limit in level.conn.as_slice() {
        out.push(b'c')?;
        push_number(alloc, out, u64::from(limit.zone))?;
        out.push(b':')?;
        push_number(alloc, out, limit.limit)?;
    }
    if !level.req.is_empty() || !level.conn.is_empty() {
        out.push(b',')?;
    }
    push_number(alloc, out, u64::from(level.req_status))?;
    out.push(b',')?;
    push_number(alloc, out, u64::from(level.conn_status))?;
    out.push(b',')?;
    out.push(if level.req_dry { b'1' } else { b'0' })?;
    out.push(if level.conn_dry { b'1' } else { b'0' })?;
    out.push(b',')?;
    push_zone_number(alloc, out, level.peers)
}

/// A configuration, as in `CONFIGS`.
fn shown(alloc: Global, config: &Config) -> Result<Vec<u8>, AllocError> {
    let mut out = Vec::new(alloc);
    for zone in config.zones.as_slice() {
        push_zone(alloc, &mut out, zone)?;
    }
    for upstream in config.upstreams.as_slice() {
        out.extend_from_slice(b"U[")?;
        out.extend_from_slice(upstream.name.bytes())?;
        out.push(b']')?;
        push_number(alloc, &mut out, u64::from(upstream.primary))?;
        out.push(b'+')?;
        push_number(alloc, &mut out, u64::from(upstream.backup))?;
        out.push(b'=')?;
        push_zone_number(alloc, &mut out, upstream.zone)?;
    }
    push_level(alloc, &mut out, b'S', &config.server)?;
    for level in config.locations.as_slice() {
        push_level(alloc, &mut out, b'L', level)?;
    }
    out.push(b'!')?;
    push_number(alloc, &mut out, config.passed)?;
    Ok(out)
}

/// What the directives of a text give: all that they configure, or their first fault.
fn found(alloc: Global, text: &[u8]) -> Result<Vec<u8>, AllocError> {
    let mut out = Vec::new(alloc);
    match read(alloc, text) {
        Ok(tree) => match config_of(alloc, &tree) {
            Ok(config) => return shown(alloc, &config),
            Err(ConfigFault::At { line, rule }) => {
                push_number(alloc, &mut out, line)?;
                out.push(b':')?;
                push_number(alloc, &mut out, u64::from(rule))?;
            }
            Err(ConfigFault::NoMemory) => out.push(b'?')?,
        },
        Err(_fault) => out.extend_from_slice(b"text")?,
    }
    Ok(out)
}

#[test]
fn texts_configure(rt: HostRuntime) -> Result<(), AllocError> {
    for case in CONFIGS.split('|') {
        if let Some((text, want)) = case.split_once('^') {
            let got = found(rt.alloc(), text.as_bytes())?;
            assert!(rt; got.as_slice() == want.as_bytes(), "{case}");
        }
    }
    Ok(())
}
