ghost use Rattle.std.specs.Prelude.{◌≡◌, ◌+◌, ◌*◌, ◌<◌, ◌≤◌, ◌^◌, ℕ, List, length, reverse, None};
ghost use Rattle.std.specs.List.{All};
ghost use Rattle.zone_key.specs.Crc.{crc32_of};
ghost use Rattle.offset_tree.specs.Bounds.{search_cost};
ghost use Rattle.req_zone.specs.declared.state.ReqEntry.{ReqEntry};
ghost use Rattle.req_zone.specs.declared.state.ReqState.{ReqState};
ghost use Rattle.req_zone.specs.declared.calls.ReqCall.TheVariants.{Check, Account, Release};
ghost use Rattle.req_zone.specs.declared.calls.ReqReply.TheVariants.{Accounted, Released};
ghost use Rattle.req_zone.specs.Amount.{IsMoment, greatest_burst};
ghost use Rattle.req_zone.specs.Table.{entry_of};
ghost use Rattle.req_zone.specs.Expiry.{stale_leaving, forced_leaving};
ghost use Rattle.req_zone.specs.Object.{IsKey, HasRoom, Ready, answer_of, zone_after, cost_of};
ghost use Rattle.req_zone.specs.Laws.{stale_expired, forced_expired};
ghost use Rattle.req_zone.specs.Step.{new_reply};
ghost use Rattle.req_zone.specs.Lays.{Lays, IsFound};

use crate::calls::{ReqCall, ReqReply};
use crate::words::ReqWords;
use std::sync::ledger::Ledger;
use zone_key::{Key, crc32};
use zone_region::{Block, Steps};

/// The most stale entries that one expiry lets leave.
const MOST_STALE: u32 = 2;

impl ReqWords {
    /// Makes a call, and says what it is answered.
    pub(crate) fn answer<L: Ledger>(&mut self, call: &ReqCall, steps: &mut Steps<L>) -> ReqReply
        requires { ((s : ReqState) × Lays self.old s × Ready s call.now) }
        ensures reply { (s : ReqState) → Lays self.old s → Ready s call.now → result ≡ answer_of s call.now }
        ensures laid { (s : ReqState) → Lays self.old s → Ready s call.now → Lays self.new (zone_after s call.now) }
        ensures cost { (s : ReqState) → Lays self.old s → Ready s call.now → steps.new ≤ steps.old + cost_of s call.now }
    {
        match call {
            ReqCall::Check {
                key,
                now,
                burst,
                last,
            } => self.check(key, *now, *burst, *last, steps),
            ReqCall::Account { at, now } => self.account(Block { at: *at }, *now, steps),
            ReqCall::Release { at } => self.release(Block { at: *at }, steps),
        }
    }

    /// Whether one request more of a key is within the burst (`ngx_http_limit_req_lookup`).
    fn check<L: Ledger>(
        &mut self,
        key: &Key,
        now: u64,
        burst: u64,
        last: bool,
        steps: &mut Steps<L>,
    ) -> ReqReply
        requires { ((s : ReqState) × Lays self.old s × Ready s (Check key.now now burst last)) }
        ensures reply { (s : ReqState) → Lays self.old s → result ≡ answer_of s (Check key.now now burst last) }
        ensures laid { (s : ReqState) → Lays self.old s → Lays self.new (zone_after s (Check key.now now burst last)) }
        ensures cost { (s : ReqState) → Lays self.old s →
            steps.new ≤ steps.old + (4 * search_cost (length s.table) (length key.now) + 64) }
    {
        let hash = crc32(key.bytes());
        match self.find(hash, key, steps) {
            Some(b) => self.check_found(b, now, burst, last, steps),
            None => self.check_missing(hash, key, now, last, steps),
        }
    }

    /// The check of a key that has an entry. It becomes the newest one, and is else as before where the excess is above
    /// the burst.
    fn check_found<L: Ledger>(
        &mut self,
        b: Block,
        now: u64,
        burst: u64,
        last: bool,
        steps: &mut Steps<L>,
    ) -> ReqReply
        requires found { ((s : ReqState) × (key : List ℕ) × (entry : ReqEntry) ×
            Lays self.old s × All HasRoom s.table × IsFound s key b.at entry) }
        requires now { IsMoment now }
        requires burst { burst ≤ greatest_burst }
        ensures reply { (s : ReqState) (key : List ℕ) (entry : ReqEntry) → Lays self.old s → IsFound s key b.at entry →
            result ≡ answer_of s (Check key now burst last) }
        ensures laid { (s : ReqState) (key : List ℕ) (entry : ReqEntry) → Lays self.old s → IsFound s key b.at entry →
            Lays self.new (zone_after s (Check key now burst last)) }
        ensures cost { steps.new ≤ steps.old + 3 }
    {
        self.touch(b);
        let numbers = self.numbers(b, steps);
        let excess = numbers.amount(self.rate, now);
        if excess > burst {
            return ReqReply::Busy { excess };
        }
        if last {
            self.set_numbers(b, numbers.stored(excess, now));
            ReqReply::Pass { excess }
        } else {
            self.set_numbers(b, numbers.held());
            ReqReply::Again { excess, at: b.at }
        }
    }

    /// The check of a key that has no entry: the first expiry, and a new entry where its node then has room; or else the
    /// forced expiry, and a new entry where it has room then.
    fn check_missing<L: Ledger>(
        &mut self,
        hash: u32,
        key: &Key,
        now: u64,
        last: bool,
        steps: &mut Steps<L>,
    ) -> ReqReply
        requires missing { ((s : ReqState) × Lays self.old s × All HasRoom s.table × (entry_of key.now s.table ≡ None)) }
        requires hash { hash ≡ crc32_of key.now }
        requires key { IsKey key.now }
        requires now { IsMoment now }
        ensures reply { (s : ReqState) (burst : ℕ) → Lays self.old s → entry_of key.now s.table ≡ None →
            result ≡ answer_of s (Check key.now now burst last) }
        ensures laid { (s : ReqState) (burst : ℕ) → Lays self.old s → entry_of key.now s.table ≡ None →
            Lays self.new (zone_after s (Check key.now now burst last)) }
        ensures cost { (s : ReqState) → Lays self.old s → entry_of key.now s.table ≡ None →
            steps.new ≤ steps.old + (3 * search_cost (length s.table) (length key.now) + 40) }
    {
        let stale = self.expire_stale(now, MOST_STALE, steps);
        if let Some(b) = self.admit(hash, key, now, last, steps) {
            return admitted(b, last);
        }
        let forced = self.expire_forced(now, steps);
        match self.admit(hash, key, now, last, steps) {
            Some(b) => admitted(b, last),
            None => ReqReply::NoRoom {
                evicted: stale + forced,
            },
        }
    }

    /// Lets the oldest entry leave while it is stale and no request holds it, `most` times at most, and says how many left
    /// (`ngx_http_limit_req_expire` with 1).
    fn expire_stale<L: Ledger>(&mut self, now: u64, most: u32, steps: &mut Steps<L>) -> u64
        requires room { ((s : ReqState) × Lays self.old s × All HasRoom s.table) }
        requires now { IsMoment now }
        ensures laid { (s : ReqState) → Lays self.old s → Lays self.new (stale_expired most now s) }
        ensures left { (s : ReqState) → Lays self.old s → result ≡ stale_leaving s.rate now most (reverse s.table) }
        ensures bound { result ≤ most }
        ensures cost { steps.new ≤ steps.old + 3 * most }
    {
        if most == 0 {
            return 0;
        }
        let Some(b) = self.oldest() else {
            return 0;
        };
        let numbers = self.numbers(b, steps);
        if !numbers.is_free() {
            return 0;
        }
        if !numbers.is_stale(self.rate, now) {
            return 0;
        }
        self.remove_oldest(b);
        1 + self.expire_stale(now, most - 1, steps)
    }

    /// Lets the oldest entry leave, stale or not, where no request holds it, and then up to two stale ones, and says how
    /// many left (`ngx_http_limit_req_expire` with 0).
    fn expire_forced<L: Ledger>(&mut self, now: u64, steps: &mut Steps<L>) -> u64
        requires room { ((s : ReqState) × Lays self.old s × All HasRoom s.table) }
        requires now { IsMoment now }
        ensures laid { (s : ReqState) → Lays self.old s → Lays self.new (forced_expired s now) }
        ensures left { (s : ReqState) → Lays self.old s → result ≡ forced_leaving s.rate now s.table }
        ensures bound { result ≤ 3 }
        ensures cost { steps.new ≤ steps.old + 9 }
    {
        let Some(b) = self.oldest() else {
            return 0;
        };
        if !self.numbers(b, steps).is_free() {
            return 0;
        }
        self.remove_oldest(b);
        1 + self.expire_stale(now, MOST_STALE, steps)
    }

    /// Counts a request on the entry that it holds, and lets the entry go (`ngx_http_limit_req_account`).
    fn account<L: Ledger>(&mut self, b: Block, now: u64, steps: &mut Steps<L>) -> ReqReply
        requires { ((s : ReqState) × Lays self.old s × Ready s (Account b.at now)) }
        ensures reply { (s : ReqState) → Lays self.old s → Ready s (Account b.at now) → result ≡ answer_of s (Account b.at now) }
        ensures laid { (s : ReqState) → Lays self.old s → Ready s (Account b.at now) → Lays self.new (zone_after s (Account b.at now)) }
        ensures cost { steps.new ≤ steps.old + 3 }
    {
        let numbers = self.numbers(b, steps);
        let excess = numbers.amount(self.rate, now);
        self.set_numbers(b, numbers.stored(excess, now).released());
        ReqReply::Accounted { excess }
    }

    /// Lets an entry go (`ngx_http_limit_req_unlock`).
    fn release<L: Ledger>(&mut self, b: Block, steps: &mut Steps<L>) -> ReqReply
        requires { ((s : ReqState) × Lays self.old s × Ready s (Release b.at)) }
        ensures reply { (s : ReqState) → Lays self.old s → Ready s (Release b.at) → result ≡ answer_of s (Release b.at) }
        ensures laid { (s : ReqState) → Lays self.old s → Ready s (Release b.at) → Lays self.new (zone_after s (Release b.at)) }
        ensures cost { steps.new ≤ steps.old + 3 }
    {
        let numbers = self.numbers(b, steps);
        self.set_numbers(b, numbers.released());
        ReqReply::Released
    }
}

/// The answer for a new entry, for the last limit of a request or for an earlier one.
fn admitted(b: Block, last: bool) -> ReqReply
    ensures { result ≡ new_reply last b.at }
{
    if last {
        ReqReply::Pass { excess: 0 }
    } else {
        ReqReply::Again {
            excess: 0,
            at: b.at,
        }
    }
}
