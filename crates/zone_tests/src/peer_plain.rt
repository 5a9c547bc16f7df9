use crate::peer_calls::Declared;
use peer_zone::Method;
use std::process::Abort;

/// A record of the plain list.
#[derive(Clone, Copy)]
pub(crate) struct PlainPeer {
    weight: u64,
    effective: u64,
    current: i64,
    conns: u64,
    max_conns: u64,
    fails: u64,
    max_fails: u64,
    fail_timeout: u64,
    checked: u64,
    accessed: u64,
    down: bool,
    /// Whether it takes part in the choice that is made.
    part: bool,
}

impl PlainPeer {
    /// A server as it is declared.
    pub(crate) fn new(declared: &Declared) -> PlainPeer {
        PlainPeer {
            weight: declared.weight,
            effective: declared.weight,
            current: 0,
            conns: 0,
            max_conns: declared.max_conns,
            fails: 0,
            max_fails: declared.max_fails,
            fail_timeout: declared.fail_timeout,
            checked: 0,
            accessed: 0,
            down: declared.down,
            part: false,
        }
    }

    /// The words 1 to 11 of its record.
    pub(crate) fn words(&self) -> [u64; 11] {
        [
            self.weight,
            self.effective,
            self.current.cast_unsigned(),
            self.conns,
            self.max_conns,
            self.fails,
            self.max_fails,
            self.fail_timeout,
            self.checked,
            self.accessed,
            u64::from(self.down),
        ]
    }

    fn is_available(&self, single: bool, tried: bool, now: u64) -> bool {
        let full = self.max_conns > 0 && self.conns >= self.max_conns;
        let failed = self.max_fails > 0
            && self.fails >= self.max_fails
            && now.saturating_sub(self.checked) <= self.fail_timeout;
        !self.down && !full && (single || !(tried || failed))
    }

    /// Its connections times the other's weight.
    fn load(&self, other: &PlainPeer) -> u64 {
        self.conns.saturating_mul(other.weight)
    }

    /// What follows a choice.
    fn take(&mut self, total: u64, now: u64) {
        let total = i64::try_from(total).unwrap_or(i64::MAX);
        self.current = self.current.saturating_sub(total);
        if now.saturating_sub(self.checked) > self.fail_timeout {
            self.checked = now;
        }
        self.conns = self.conns.saturating_add(1);
    }
}

/// The Round step over those that take part, and the best of them.
fn round(peers: &mut [PlainPeer], now: u64) -> Option<usize> {
    let mut total = 0u64;
    let mut best: Option<(usize, i64)> = None;
    let mut index = 0usize;
    for peer in peers.iter_mut() {
        if peer.part {
            let effective = i64::try_from(peer.effective).unwrap_or(i64::MAX);
            peer.current = peer.current.saturating_add(effective);
            total = total.saturating_add(peer.effective);
            if peer.effective < peer.weight {
                peer.effective += 1;
            }
            let nearest = match best {
                None => true,
                Some((_, most)) => peer.current > most,
            };
            if nearest {
                best = Some((index, peer.current));
            }
        }
        index = index.saturating_add(1);
    }
    let (at, _) = best?;
    let peer = peers.get_mut(at)?;
    peer.take(total, now);
    Some(at)
}

/// The first of the least busy ones, and whether another is as busy.
fn least_busy(peers: &[PlainPeer]) -> Option<(usize, PlainPeer, bool)> {
    let mut best: Option<(usize, PlainPeer, bool)> = None;
    let mut index = 0usize;
    for peer in peers {
        if peer.part {
            best = match best {
                None => Some((index, *peer, false)),
                Some((_, least, _)) if peer.load(&least) < least.load(peer) => {
                    Some((index, *peer, false))
                }
                Some((at, least, tied)) => {
                    Some((at, least, tied || peer.load(&least) == least.load(peer)))
                }
            };
        }
        index = index.saturating_add(1);
    }
    best
}

/// The choice by least connections.
fn least(peers: &mut [PlainPeer], now: u64) -> Option<usize> {
    let (at, least, tied) = least_busy(peers)?;
    if !tied {
        let peer = peers.get_mut(at)?;
        peer.take(0, now);
        return Some(at);
    }
    let mut index = 0usize;
    for peer in peers.iter_mut() {
        peer.part = peer.part && index >= at && peer.load(&least) == least.load(peer);
        index = index.saturating_add(1);
    }
    round(peers, now)
}

/// Which server of a list takes a request, by its index.
pub(crate) fn choose(
    peers: &mut [PlainPeer],
    method: Method,
    single: bool,
    tried: u64,
    now: u64,
) -> Option<usize> {
    let mut bits = tried;
    for peer in peers.iter_mut() {
        peer.part = peer.is_available(single, bits % 2 == 1, now);
        bits /= 2;
    }
    if single {
        let peer = peers.get_mut(0)?;
        if !peer.part {
            return None;
        }
        peer.conns = peer.conns.saturating_add(1);
        return Some(0);
    }
    match method {
        Method::Round => round(peers, now),
        Method::Least => least(peers, now),
    }
}

/// The end of a request with a server of a list.
pub(crate) fn free<R: Abort>(
    rt: &R,
    peers: &mut [PlainPeer],
    single: bool,
    index: u32,
    failed: bool,
    now: u64,
) {
    assert!(*rt; (index as usize) < peers.len());
    let peer = &mut peers[index as usize];
    if failed && !single {
        peer.fails = peer.fails.saturating_add(1);
        peer.accessed = now;
        peer.checked = now;
        if peer.max_fails > 0 {
            peer.effective = peer.effective.saturating_sub(peer.weight / peer.max_fails);
        }
    } else if !single && peer.accessed < peer.checked {
        peer.fails = 0;
    }
    peer.conns = peer.conns.saturating_sub(1);
}
