use crate::{made_config, made_lines};
use directive_text::read;
use replay_log::{Event, Line};
use std::test::Fail;
use zone_config::config_of;

/// A seed, a number of lines, and the checksum of the log, by a program of its own in another language.
const LOGS: [(u64, u32, u64); 16] = [
    (0, 0, 0),
    (0, 1, 887538064908416),
    (0, 1000, 7990881221699265526),
    (0, 131072, 10649366154643920347),
    (1, 0, 0),
    (1, 1, 887553810941534),
    (1, 1000, 6085688948803651212),
    (1, 131072, 8557131083343806085),
    (7, 0, 0),
    (7, 1, 961067271),
    (7, 1000, 15982020028483714656),
    (7, 131072, 47487979126812540),
    (u64::MAX, 0, 0),
    (u64::MAX, 1, 887547340753246),
    (u64::MAX, 1000, 215662592913430923),
    (u64::MAX, 131072, 13898298402325860383),
];

/// The directives of the configuration.
const DIRECTIVES: &str = "http {
  limit_req_zone $binary_remote_addr zone=one:1m rate=1r/s;
  limit_conn_zone $binary_remote_addr zone=addr:1m;
  upstream back {
    zone back 1m;
    server 10.1.0.1:80 weight=5;
    server 10.1.0.2:80;
    server 10.1.0.3:80 backup;
  }
  server {
    location / { limit_req zone=one burst=3; limit_conn addr 4; proxy_pass http://back; }
  }
}
";

/// A checksum with a number more.
fn mixed(sum: u64, number: u64) -> u64 {
    sum.wrapping_mul(31).wrapping_add(number)
}

/// A checksum with an event more: 0 and the address, 1 or 2.
fn mixed_event(sum: u64, event: &Event) -> u64 {
    match event {
        Event::Start { level: _, vars } => {
            let mut sum = mixed(sum, 0);
            for octet in &vars.address {
                sum = mixed(sum, u64::from(*octet));
            }
            sum
        }
        Event::Fail => mixed(sum, 1),
        Event::Done => mixed(sum, 2),
    }
}

/// The checksum of a log.
fn checksum(lines: &[Line]) -> u64 {
    let mut sum = 0;
    for line in lines {
        sum = mixed(sum, u64::from(line.number));
        sum = mixed(sum, line.moment);
        sum = mixed(sum, u64::from(line.conn));
        sum = mixed_event(sum, &line.event);
    }
    sum
}

#[test]
fn makes_the_logs_of_seeds(rt: HostRuntime) -> Result<(), Fail> {
    for (seed, count, sum) in LOGS {
        if count <= 131_072 {
            let lines = made_lines(rt.alloc(), seed, count)?;
            assert_eq!(rt; lines.len(), count as usize, "seed {seed}");
            assert_eq!(rt; checksum(&lines), sum, "seed {seed}, {count} lines");
        }
    }
    Ok(())
}

/// The directives give the configuration, with all its numbers, names and lines.
#[test]
fn is_what_its_directives_give(rt: HostRuntime) -> Result<(), Fail> {
    let tree = read(rt.alloc(), DIRECTIVES.as_bytes())?;
    let given = config_of(rt.alloc(), &tree)?;
    let made = made_config(rt.alloc())?;
    let given = format!(in rt.alloc(); "{given:?}")?;
    let made = format!(in rt.alloc(); "{made:?}")?;
    assert!(rt; made.len() > 500);
    assert_eq!(rt; given.as_str(), made.as_str());
    Ok(())
}
