use crate::{Event, Line, LogFault, next_key, read_keys, read_log};
use sqlite_items::Items;
use std::alloc::{AllocError, Global};
use std::process::Abort;
use std::test::Fail;
use zone_config::{Config, Level};
use zone_key::Vars;
use zone_outside::{NoMemory, Text};

/// Lines, and the kind of the first fault of each, 0 for none. The locations are `/`, `a b` and `-`.
const LINES: [(&str, u32); 52] = [
    ("", 2),
    (" 0 done", 2),
    ("00 0 done", 2),
    ("-1 0 done", 2),
    ("4398046511104 0 done", 2),
    ("4398046511103 0 done", 0),
    ("x y z", 2),
    ("0", 3),
    ("0 ", 3),
    ("0  done", 3),
    ("0 - open / 10.0.0.1", 3),
    ("0 4294967296 done", 3),
    ("0 4294967295 done", 0),
    ("0 y z", 3),
    ("0 0", 4),
    ("0 0 ", 4),
    ("0 0 DONE", 4),
    ("0 0 opens / 10.0.0.1", 4),
    ("0 0 reload x", 4),
    ("0 0 open", 5),
    ("0 0 open ", 5),
    ("0 0 open  10.0.0.1", 5),
    ("0 0 open /x 10.0.0.1", 5),
    ("0 0 open %2 10.0.0.1", 5),
    ("0 0 open a b 10.0.0.1", 5),
    ("0 0 open A%20b 10.0.0.1", 5),
    ("0 0 open a%20b 10.0.0.1", 0),
    ("0 0 open %2D 10.0.0.1", 0),
    ("0 0 open /", 6),
    ("0 0 open / ", 6),
    ("0 0 open / 10.0.0", 6),
    ("0 0 open / 10.0.0.256", 6),
    ("0 0 open / 10.0.0.01", 6),
    ("0 0 open / 10.0.0.1.2", 6),
    ("0 0 open / 10.0..1", 6),
    ("0 0 open / ::1", 7),
    ("0 0 open / 10.0.0.1:80", 7),
    ("0 0 open - 10.0.0.1 ", 8),
    ("0 0 open - 10.0.0.1 a", 8),
    ("0 0 open - 10.0.0.1 =b", 8),
    ("0 0 open - 10.0.0.1 a-b=c", 8),
    ("0 0 open - 10.0.0.1 remote_addr=c", 8),
    ("0 0 open - 10.0.0.1 binary_remote_addr=c", 8),
    ("0 0 open - 10.0.0.1 a=%4", 8),
    ("0 0 open - 10.0.0.1 a=b a=%4", 8),
    ("0 0 open - 10.0.0.1 a= B_1=c=d a_=%ff", 0),
    ("0 0 open - 10.0.0.1 a=b c=d a=e", 9),
    ("0 0 open - 10.0.0.1 a=b a=b x", 9),
    ("0 0 fail ", 10),
    ("0 0 fail x", 10),
    ("0 0 done x", 10),
    ("0 0 done  ", 10),
];

/// A level of this name without limits.
fn level(alloc: Global, name: &str) -> Result<Level, NoMemory> {
    Ok(Level {
        name: Text::of(alloc, name.as_bytes())?,
        req: Items::new(alloc),
        conn: Items::new(alloc),
        req_status: 503,
        conn_status: 503,
        req_dry: false,
        conn_dry: false,
        peers: None,
    })
}

/// What a log says in a configuration with the locations `/`, `a b` and `-`.
fn read(alloc: Global, log: &[u8]) -> Result<Result<Vec<Line>, LogFault>, Fail> {
    let mut locations = Items::new(alloc);
    locations.push(level(alloc, "/")?)?;
    locations.push(level(alloc, "a b")?)?;
    locations.push(level(alloc, "-")?)?;
    let config = Config {
        zones: Items::new(alloc),
        upstreams: Items::new(alloc),
        server: level(alloc, "")?,
        locations,
        passed: 0,
    };
    Ok(read_log(alloc, log, &config))
}

/// What a log says in short: the number of its lines, or the line and the kind of its fault.
fn answer(rt: &(impl AllocGlobal + Abort), log: &[u8]) -> Result<(u64, u32), Fail> {
    match read(rt.alloc(), log)? {
        Ok(lines) => Ok((lines.len() as u64, 0)),
        Err(fault) => {
            assert_ne!(rt; fault, LogFault::NoMemory);
            match fault {
                LogFault::At { line, kind } => Ok((line, kind)),
                LogFault::NoMemory => Ok((0, 0)),
            }
        }
    }
}

/// The level and the variables of an open.
fn start_of(line: &Line) -> Option<(Option<u32>, &Vars)> {
    match &line.event {
        Event::Start { level, vars } => Some((*level, vars)),
        _ => None,
    }
}

/// Adds a line to a log.
fn push_line(log: &mut Vec<u8>, line: &str) -> Result<(), AllocError> {
    log.extend_from_slice(line.as_bytes())?;
    log.extend_from_slice(b"\n")
}

/// Each line as the first, before one that says nothing wrong or much, and as the last.
#[test]
fn tells_the_first_fault(rt: HostRuntime) -> Result<(), Fail> {
    for (line, kind) in LINES {
        let mut first = Vec::new(rt.alloc());
        push_line(&mut first, line)?;
        push_line(&mut first, if kind == 0 { "0 0 done" } else { "x" })?;
        let mut last = Vec::new(rt.alloc());
        push_line(&mut last, "0 0 open - 0.0.255.0")?;
        push_line(&mut last, line)?;
        let at = if kind == 0 { 2 } else { 1 };
        assert_eq!(rt; answer(&rt, &first)?, (at, kind), "{line}");
        assert_eq!(rt; answer(&rt, &last)?, (2, kind), "{line}");
    }
    Ok(())
}

/// A last line without a line feed, and a line too many, whatever else they say.
#[test]
fn counts_lines(rt: HostRuntime) -> Result<(), Fail> {
    assert_eq!(rt; answer(&rt, b"")?, (0, 0));
    assert_eq!(rt; answer(&rt, b"0 0 done")?, (1, 1));
    assert_eq!(rt; answer(&rt, b"0 0 done\nx")?, (2, 1));
    assert_eq!(rt; answer(&rt, b"0 0 done\nx\n0 0 done")?, (2, 2));
    let mut log = Vec::new(rt.alloc());
    for _ in 0..131_072u32 {
        push_line(&mut log, "0 0 done")?;
    }
    assert_eq!(rt; answer(&rt, &log)?, (131_072, 0));
    log.extend_from_slice(b"x")?;
    assert_eq!(rt; answer(&rt, &log)?, (131_073, 1));
    log.extend_from_slice(b"\n")?;
    assert_eq!(rt; answer(&rt, &log)?, (131_073, 11));
    Ok(())
}

/// Four lines of two connections, and all that they say.
#[test]
fn reads_lines(rt: HostRuntime) -> Result<(), Fail> {
    let log = b"1000000 0 open - 10.0.0.1\n\
        1000200 1 open %2d 10.0.0.255 a=%2f b=\n\
        1000300 1 fail\n\
        1000400 0 done\n";
    let lines = read(rt.alloc(), log)?.ok().ok_or("a fault")?;
    assert_eq!(rt; lines.len(), 4);
    assert_eq!(rt;
        (lines[0].number, lines[0].moment, lines[0].conn),
        (1, 1_000_000, 0)
    );
    assert_eq!(rt;
        (lines[1].number, lines[1].moment, lines[1].conn),
        (2, 1_000_200, 1)
    );
    assert!(rt; matches!(&lines[2].event, Event::Fail));
    assert!(rt; matches!(&lines[3].event, Event::Done));
    let (level, vars) = start_of(&lines[0]).ok_or("no open")?;
    assert_eq!(rt;
        (level.is_none(), vars.address, vars.pairs.len()),
        (true, [10, 0, 0, 1], 0)
    );
    let (level, vars) = start_of(&lines[1]).ok_or("no open")?;
    assert_eq!(rt; (level, vars.address), (Some(2), [10, 0, 0, 255]));
    let pairs = vars.pairs.as_slice();
    assert_eq!(rt; pairs.len(), 2);
    assert_eq!(rt;
        (pairs[0].name.bytes(), pairs[0].value.bytes()),
        (b"a".as_slice(), b"/".as_slice())
    );
    assert_eq!(rt;
        (pairs[1].name.bytes(), pairs[1].value.bytes()),
        (b"b".as_slice(), b"".as_slice())
    );
    Ok(())
}

/// Lines of a log of keys, and the kind of the first fault of each, 0 for none.
const KEYS: [(&str, u32); 15] = [
    ("", 2),
    (" a", 2),
    ("00 a", 2),
    ("4398046511104 a", 2),
    ("x %4", 2),
    ("0", 12),
    ("0 ", 12),
    ("0  a", 12),
    ("0 %4", 12),
    ("0 %4 b", 12),
    ("0 a\t", 12),
    ("0 a ", 10),
    ("0 a b", 10),
    ("0 a", 0),
    ("4398046511103 %2f%FF", 0),
];

/// Each line as the last, behind one that says nothing wrong.
#[test]
fn tells_the_first_fault_of_keys(rt: HostRuntime) -> Result<(), Fail> {
    for (line, kind) in KEYS {
        let mut log = Vec::new(rt.alloc());
        push_line(&mut log, "7 a%20b")?;
        push_line(&mut log, line)?;
        match read_keys(rt.alloc(), &log) {
            Ok(keys) => {
                assert_eq!(rt; (keys.len(), kind), (2, 0), "{line}");
                assert_eq!(rt; keys[0].moment, 7);
                assert_eq!(rt; keys[0].key.bytes(), b"a b".as_slice());
            }
            Err(fault) => assert_eq!(rt; fault, LogFault::At { line: 2, kind }, "{line}"),
        }
    }
    Ok(())
}

/// The first key of what is left of a log: its moment, its bytes and what is behind it; or the kind of its fault.
#[test]
fn gives_the_next_key(rt: HostRuntime) -> Result<(), Fail> {
    let rows: [(&[u8], u32, u32, u64, &[u8], &[u8]); 5] = [
        (b"7 a%20b\n9 cd\n", 1, 0, 7, b"a b", b"9 cd\n"),
        (b"9 cd\n", 131_072, 0, 9, b"cd", b""),
        (b"9 cd\n", 131_073, 11, 0, b"", b""),
        (b"5 %4\n7 a\n", 3, 12, 0, b"", b""),
        (b"5 a", 4, 1, 0, b"", b""),
    ];
    for (rest, number, kind, moment, key, tail) in rows {
        if rest.is_empty() {
            continue;
        }
        match next_key(rt.alloc(), number, rest) {
            Ok((line, left)) => {
                assert_eq!(rt; (line.moment, kind), (moment, 0));
                assert_eq!(rt; line.key.bytes(), key);
                assert_eq!(rt; left, tail);
            }
            Err(fault) => {
                let line = u64::from(number);
                assert_eq!(rt; fault, LogFault::At { line, kind });
            }
        }
    }
    Ok(())
}
