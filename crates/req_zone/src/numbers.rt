ghost use Rattle.std.specs.Prelude.{◌≡◌, ◌==◌, ◌+◌, ◌-◌, ◌<◌, ◌≤◌, ◌^◌, ◌&&◌, ℕ, List};
ghost use Rattle.req_zone.specs.declared.state.ReqEntry.{ReqEntry};
ghost use Rattle.req_zone.specs.Amount.{IsRate, IsMoment, amount_of};
ghost use Rattle.req_zone.specs.Table.{is_stale};
ghost use Rattle.req_zone.specs.Step.{stored, with_count, new_entry};
ghost use Rattle.req_zone.specs.Lays.{numbers_of, entry_with, with_numbers};

use crate::rules::{allowed_in, amount, elapsed_ms};

/// The time in ms after which an entry whose excess is used up is forgotten.
const STALE_MS: u64 = 60_000;

/// What an entry counts (`ngx_http_limit_req_node_t`).
#[derive(Clone, Copy, Debug, PartialEq, Eq)]
pub(crate) struct Numbers {
    /// The excess in thousandths of a request.
    pub(crate) excess: u64,
    /// The moment in ms that the entry keeps.
    pub(crate) last: u64,
    /// How many requests hold the entry.
    pub(crate) count: u64,
}

impl Numbers {
    /// Those of a new entry: the last limit of a request stores the moment `now`, an earlier one holds the entry.
    pub(crate) fn fresh(now: u64, last: bool) -> Numbers
        ensures { (key : List ℕ) (at : ℕ) → entry_with key at result ≡ new_entry key now last at }
    {
        if last {
            Numbers {
                excess: 0,
                last: now,
                count: 0,
            }
        } else {
            Numbers {
                excess: 0,
                last: 0,
                count: 1,
            }
        }
    }

    /// Whether no request holds the entry.
    pub(crate) fn is_free(self) -> bool
        ensures { result ≡ (self.count == 0) }
    {
        self.count == 0
    }

    /// Whether a minute or more lies between the entry's moment and `now`, and its excess is used up by then.
    pub(crate) fn is_stale(self, rate: u64, now: u64) -> bool
        requires rate { IsRate rate }
        requires last { IsMoment self.last }
        requires now { IsMoment now }
        ensures { (entry : ReqEntry) → self ≡ numbers_of entry → result ≡ is_stale rate now entry }
    {
        let apart = now.abs_diff(self.last);
        apart >= STALE_MS && self.excess <= allowed_in(rate, apart)
    }

    /// The excess in thousandths of a request that a request at the moment `now` makes.
    pub(crate) fn amount(self, rate: u64, now: u64) -> u64
        requires rate { IsRate rate }
        requires excess { self.excess < 2 ^ 51 }
        requires last { IsMoment self.last }
        requires now { IsMoment now }
        ensures { result ≡ amount_of rate self.excess self.last now }
    {
        amount(rate, self.excess, self.last, now)
    }

    /// Those with an excess that was counted at the moment `now`, and with that moment where a millisecond counts.
    pub(crate) fn stored(self, excess: u64, now: u64) -> Numbers
        ensures value { (entry : ReqEntry) → self ≡ numbers_of entry → with_numbers result entry ≡ stored excess now entry }
        ensures count { result.count ≡ self.count }
    {
        Numbers {
            excess,
            last: if elapsed_ms(self.last, now) == 0 {
                self.last
            } else {
                now
            },
            count: self.count,
        }
    }

    /// Those with one hold more.
    pub(crate) fn held(self) -> Numbers
        requires { self.count < 2 ^ 32 }
        ensures { (entry : ReqEntry) → self ≡ numbers_of entry → with_numbers result entry ≡ with_count (entry.count + 1) entry }
    {
        Numbers {
            count: self.count + 1,
            ..self
        }
    }

    /// Those with one hold less.
    pub(crate) fn released(self) -> Numbers
        requires { 0 < self.count }
        ensures { (entry : ReqEntry) → self ≡ numbers_of entry → with_numbers result entry ≡ with_count (entry.count - 1) entry }
    {
        Numbers {
            count: self.count - 1,
            ..self
        }
    }
}
