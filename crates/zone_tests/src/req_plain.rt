use crate::plain_slab;
use req_zone::ReqReply::{Accounted, Again, Busy, NoRoom, Pass, Released};
use req_zone::{ReqCall, ReqReply};
use slab_model::PlainSlab;
use std::alloc::Global;
use std::process::Abort;
use std::test::Fail;

/// An entry of the plain table.
#[derive(Drop)]
pub(crate) struct PlainEntry {
    pub(crate) key: Vec<u8>,
    pub(crate) block: u64,
    pub(crate) excess: u64,
    pub(crate) last: u64,
    pub(crate) count: u64,
}

/// A request zone as a list of entries, newest first, over the plain slab.
#[derive(Drop)]
pub(crate) struct PlainReq {
    rate: u64,
    pub(crate) slab: PlainSlab,
    pub(crate) entries: Vec<PlainEntry>,
}

/// The milliseconds that count between two moments.
fn elapsed(last: u64, now: u64) -> u64 {
    if now >= last {
        now - last
    } else if last - now > 60_000 {
        1
    } else {
        0
    }
}

/// What the rate lets through in so many milliseconds.
fn through(rate: u64, ms: u64) -> u64 {
    let product = u128::from(rate).saturating_mul(u128::from(ms));
    u64::try_from(product / 1000).unwrap_or(u64::MAX)
}

impl PlainEntry {
    /// The excess that one request more makes.
    fn amount(&self, rate: u64, now: u64) -> u64 {
        let more = self.excess.saturating_add(1000);
        more.saturating_sub(through(rate, elapsed(self.last, now)))
    }

    fn is_stale(&self, rate: u64, now: u64) -> bool {
        let apart = now.abs_diff(self.last);
        apart >= 60_000 && self.excess <= through(rate, apart)
    }

    fn store(&mut self, excess: u64, now: u64) {
        self.excess = excess;
        if elapsed(self.last, now) != 0 {
            self.last = now;
        }
    }
}

impl PlainReq {
    /// An empty zone of this rate and of so many bytes, with a name of three bytes.
    pub(crate) fn open<R: Abort>(
        rt: &R,
        alloc: Global,
        rate: u64,
        bytes: u64,
    ) -> Result<PlainReq, Fail> {
        Ok(PlainReq {
            rate,
            slab: plain_slab::opened(rt, alloc, bytes, &[80, 25])?,
            entries: Vec::new(alloc),
        })
    }

    /// Makes a call, and says what it is answered.
    pub(crate) fn step<R: Abort>(
        &mut self,
        rt: &R,
        alloc: Global,
        call: &ReqCall,
    ) -> Result<ReqReply, Fail> {
        match call {
            ReqCall::Check {
                key,
                now,
                burst,
                last,
            } => match self.place_of(key.bytes()) {
                Some(place) => self.check_found(rt, place, *now, *burst, *last),
                None => self.check_missing(rt, alloc, key.bytes(), *now, *last),
            },
            ReqCall::Account { at, now } => {
                let rate = self.rate;
                let entry = self.held(rt, *at);
                let excess = entry.amount(rate, *now);
                entry.store(excess, *now);
                entry.count = entry.count.saturating_sub(1);
                Ok(Accounted { excess })
            }
            ReqCall::Release { at } => {
                let entry = self.held(rt, *at);
                entry.count = entry.count.saturating_sub(1);
                Ok(Released)
            }
        }
    }

    fn place_of(&self, key: &[u8]) -> Option<usize> {
        self.entries
            .iter()
            .position(|entry| entry.key.as_slice() == key)
    }

    /// The entry of this block.
    fn held<R: Abort>(&mut self, rt: &R, at: u64) -> &mut PlainEntry {
        let place = self
            .entries
            .iter()
            .position(|entry| entry.block == at)
            .unwrap_or(usize::MAX);
        assert!(*rt; place < self.entries.len());
        &mut self.entries[place]
    }

    fn check_found<R: Abort>(
        &mut self,
        rt: &R,
        place: usize,
        now: u64,
        burst: u64,
        last: bool,
    ) -> Result<ReqReply, Fail> {
        assert!(*rt; place < self.entries.len());
        let mut entry = self.entries.remove(place);
        let excess = entry.amount(self.rate, now);
        let reply = if excess > burst {
            Busy { excess }
        } else if last {
            entry.store(excess, now);
            Pass { excess }
        } else {
            entry.count = entry.count.saturating_add(1);
            Again {
                excess,
                at: entry.block,
            }
        };
        self.entries.insert(0, entry)?;
        Ok(reply)
    }

    fn check_missing<R: Abort>(
        &mut self,
        rt: &R,
        alloc: Global,
        key: &[u8],
        now: u64,
        last: bool,
    ) -> Result<ReqReply, Fail> {
        let size = (key.len() as u64).saturating_add(80);
        let mut evicted = self.expire(rt, alloc, now, false)?;
        let mut block = plain_slab::grant(rt, alloc, &mut self.slab, size)?;
        if block.is_none() {
            evicted = evicted.saturating_add(self.expire(rt, alloc, now, true)?);
            block = plain_slab::grant(rt, alloc, &mut self.slab, size)?;
        }
        let Some(at) = block else {
            return Ok(NoRoom { evicted });
        };
        let mut own = Vec::new(alloc);
        own.extend_from_slice(key)?;
        let entry = PlainEntry {
            key: own,
            block: at,
            excess: 0,
            last: if last { now } else { 0 },
            count: u64::from(!last),
        };
        self.entries.insert(0, entry)?;
        Ok(if last {
            Pass { excess: 0 }
        } else {
            Again { excess: 0, at }
        })
    }

    /// Lets up to two stale entries leave, and before them the oldest one where that is forced. How many left.
    fn expire<R: Abort>(
        &mut self,
        rt: &R,
        alloc: Global,
        now: u64,
        forced: bool,
    ) -> Result<u64, Fail> {
        let mut left = 0u64;
        if forced && self.leaves(rt, alloc, now, true)? {
            left = 1;
        } else if forced {
            return Ok(0);
        }
        for _turn in 0..2u32 {
            if !self.leaves(rt, alloc, now, false)? {
                return Ok(left);
            }
            left = left.saturating_add(1);
        }
        Ok(left)
    }

    /// Lets the oldest entry leave, if it may. Whether it left.
    fn leaves<R: Abort>(
        &mut self,
        rt: &R,
        alloc: Global,
        now: u64,
        forced: bool,
    ) -> Result<bool, Fail> {
        let Some(oldest) = self.entries.last() else {
            return Ok(false);
        };
        if oldest.count != 0 || !(forced || oldest.is_stale(self.rate, now)) {
            return Ok(false);
        }
        let at = oldest.block;
        self.entries.pop();
        plain_slab::give_back(rt, alloc, &mut self.slab, at)?;
        Ok(true)
    }
}
