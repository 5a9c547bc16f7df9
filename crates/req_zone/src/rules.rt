ghost use Rattle.std.specs.Prelude.{◌≡◌, ◌≤◌, ◌<◌, ◌^◌};
ghost use Rattle.req_zone.specs.Amount.{IsRate, IsMoment, elapsed, allowance, amount_of, delay_of};

/// The milliseconds that count from `last` to `now`. A clock that ran back by more than 60,000 ms
/// counts as 1, one that ran back by 60,000 ms or less as 0 (`ngx_http_limit_req_lookup`).
pub(crate) fn elapsed_ms(last: u64, now: u64) -> u64
    ensures { result ≡ elapsed last now }
{
    if now >= last {
        now - last
    } else if last - now > 60_000 {
        1
    } else {
        0
    }
}

/// What a rate lets through in so many milliseconds, in thousandths of a request, rounded down. The seconds are taken by
/// themselves, so that 64 bits hold each product.
pub(crate) fn allowed_in(rate: u64, ms: u64) -> u64
    requires rate { IsRate rate }
    requires ms { IsMoment ms }
    ensures { result ≡ allowance rate ms }
{
    rate * (ms / 1000) + rate * (ms % 1000) / 1000
}

/// The excess in thousandths of a request that one request more makes at the moment `now`, where an
/// entry has this excess and moment: what the rate let through since is taken off, and the request
/// is added. It is never below 0. The moments are in ms and below 2^42, the excess below 2^52, and
/// the rate is 1 to 1,000,000,000 thousandths of a request per second.
pub fn amount(rate: u64, excess: u64, last: u64, now: u64) -> u64
    requires rate { IsRate rate }
    requires excess { excess < 2 ^ 52 }
    requires last { IsMoment last }
    requires now { IsMoment now }
    ensures { result ≡ amount_of rate excess last now }
{
    (excess + 1000).saturating_sub(allowed_in(rate, elapsed_ms(last, now)))
}

/// How much excess a limit lets through without a delay.
#[derive(Clone, Copy, Debug, PartialEq, Eq)]
pub enum Allowed {
    /// No request is delayed (`nodelay`).
    Never,
    /// Only what is above this excess, in thousandths of a request, is delayed (`delay`).
    Above { excess: u64 },
}

/// The milliseconds by which a request of this excess is delayed, rounded down. The excess is below
/// 2^52 thousandths of a request, and the rate is 1 to 1,000,000,000 of them per second.
pub fn delay(excess: u64, allowed: Allowed, rate: u64) -> u64
    requires excess { excess < 2 ^ 52 }
    requires rate { IsRate rate }
    ensures { result ≡ delay_of excess allowed rate }
{
    match allowed {
        Allowed::Never => 0,
        Allowed::Above { excess: free } => excess.saturating_sub(free) * 1000 / rate,
    }
}
