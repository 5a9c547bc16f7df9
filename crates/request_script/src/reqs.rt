ghost use Rattle.std.specs.Prelude.{◌≡◌, ◌<◌, ◌^◌, reverse, IfOk};
ghost use Rattle.request_script.specs.Replies.{HasSmallExcess};
ghost use Rattle.request_script.specs.ReqLimits.{accounted, accounts, after_check, allowed_of, delay_by, delayed, greater, refused, releases, unset, walk_ends};
ghost use Rattle.request_script.specs.Progress.{HasFewServers, HasRates, behind_reqs, level_of, reqs_from, next_turn};

use crate::call::ZoneCall;
use crate::conns::after_reqs;
use crate::decision::{Excess, ReqStatus};
use crate::progress::{Asked, Progress};
use crate::said::{Delay, Hold, ReqSaid};
use crate::script::Next;
use crate::zones::{is_skipped, key_of, level_at, rate_of};
use req_zone::{Allowed, ReqCall, ReqReply, delay};
use std::alloc::Global;
use zone_config::{Config, ReqLimit};
use zone_outside::NoMemory;

/// No limit was asked.
pub(crate) fn unset() -> ReqSaid
    ensures { result ≡ unset }
{
    ReqSaid {
        status: ReqStatus::Unset,
        delay: 0,
        by: None,
        excess: Excess::Unset,
    }
}

/// A request is delayed by so much, or passes where that is 0 ms.
fn delayed(dry: bool, delay: Delay) -> ReqSaid
    ensures { result ≡ delayed dry delay }
{
    if 0 < delay.ms {
        ReqSaid {
            status: if dry {
                ReqStatus::DelayedDry
            } else {
                ReqStatus::Delayed
            },
            delay: delay.ms,
            by: Some(delay.zone),
            excess: Excess::Amount {
                value: delay.excess,
            },
        }
    } else {
        ReqSaid {
            status: ReqStatus::Passed,
            delay: 0,
            by: None,
            excess: Excess::Unset,
        }
    }
}

/// A request is refused by the limit of a zone.
fn refused(dry: bool, zone: u32, excess: Excess) -> ReqSaid
    ensures { result ≡ refused dry zone excess }
{
    ReqSaid {
        status: if dry {
            ReqStatus::RejectedDry
        } else {
            ReqStatus::Rejected
        },
        delay: 0,
        by: Some(zone),
        excess,
    }
}

/// The excess that a limit lets go on without a delay.
fn allowed_of(limit: &ReqLimit) -> Allowed
    ensures { result ≡ allowed_of limit.now }
{
    if limit.allowed_never {
        Allowed::Never
    } else {
        Allowed::Above {
            excess: limit.delay,
        }
    }
}

/// The delay that an excess of a zone makes.
fn delay_by(config: &Config, zone: u32, allowed: Allowed, excess: u64) -> Delay
    requires rates { HasRates config.now }
    requires excess { excess < 2 ^ 52 }
    ensures { result ≡ delay_by config.now zone allowed excess }
{
    Delay {
        ms: delay(excess, allowed, rate_of(config, zone)),
        zone,
        excess,
    }
}

/// The greater of two delays, the first where they are equal.
fn greater(first: Delay, second: Delay) -> Delay
    ensures { result ≡ greater first second }
{
    if first.ms < second.ms { second } else { first }
}

/// A copy of a limit.
pub(crate) fn copy_of(limit: &ReqLimit) -> ReqLimit
    ensures { result ≡ limit.now }
{
    ReqLimit {
        zone: limit.zone,
        burst: limit.burst,
        allowed_never: limit.allowed_never,
        delay: limit.delay,
    }
}

/// Lets the holds of the request go, the last one first.
pub(crate) fn release(
    alloc: Global,
    config: &Config,
    progress: &mut Progress,
) -> Result<Next, NoMemory>
    requires { HasFewServers config.now }
    ensures { IfOk result (λ next. next_turn config.now progress.new next ≡ releases (reverse progress.old.holds) (behind_reqs config.now progress.old.opening progress.old.said)) }
{
    let Some(hold) = progress.holds.pop() else {
        return after_reqs(alloc, config, progress);
    };
    progress.asked = Asked::Release;
    Ok(Next::Ask {
        call: ZoneCall::Req {
            zone: hold.zone,
            call: ReqCall::Release { at: hold.at },
        },
    })
}

/// Accounts the holds of the request, the last one first, where this is the greatest delay so far.
fn account(
    alloc: Global,
    config: &Config,
    progress: &mut Progress,
    greatest: Delay,
) -> Result<Next, NoMemory>
    requires { HasFewServers config.now }
    ensures { IfOk result (λ next. next_turn config.now progress.new next ≡ accounts config.now progress.old.opening.moment progress.old.opening.vars (level_of config.now progress.old.opening).req_dry greatest (reverse progress.old.holds) (behind_reqs config.now progress.old.opening)) }
{
    match progress.holds.pop() {
        Some(hold) => {
            progress.asked = Asked::Account { hold, greatest };
            Ok(Next::Ask {
                call: ZoneCall::Req {
                    zone: hold.zone,
                    call: ReqCall::Account {
                        at: hold.at,
                        now: progress.opening.moment,
                    },
                },
            })
        }
        None => {
            let dry = level_at(config, progress.opening.location).req_dry;
            progress.said = delayed(dry, greatest);
            after_reqs(alloc, config, progress)
        }
    }
}

/// The walk has come to the end of its list.
fn walk_ends(alloc: Global, config: &Config, progress: &mut Progress) -> Result<Next, NoMemory>
    requires { HasFewServers config.now }
    ensures { IfOk result (λ next. next_turn config.now progress.new next ≡ walk_ends config.now progress.old.opening.moment progress.old.opening.vars (level_of config.now progress.old.opening).req_dry progress.old.holds (behind_reqs config.now progress.old.opening)) }
{
    if progress.holds.is_empty() {
        progress.said = unset();
        after_reqs(alloc, config, progress)
    } else {
        let none = Delay {
            ms: 0,
            zone: 0,
            excess: 0,
        };
        account(alloc, config, progress, none)
    }
}

/// Goes along the limits of requests from a place of their list on.
pub(crate) fn walk_reqs(
    alloc: Global,
    config: &Config,
    progress: &mut Progress,
    from: usize,
) -> Result<Next, NoMemory>
    requires { HasFewServers config.now }
    ensures { IfOk result (λ next. next_turn config.now progress.new next ≡ reqs_from config.now progress.old.opening progress.old.holds from) }
{
    let limits = level_at(config, progress.opening.location).req.as_slice();
    let mut place = from;
    'limits: while place < limits.len() {
        let limit = &limits[place];
        place += 1;
        let key = key_of(alloc, config, &progress.opening.vars, limit.zone)?;
        if !is_skipped(65_535, &key) {
            progress.asked = Asked::Check {
                limit: copy_of(limit),
                behind: place,
            };
            return Ok(Next::Ask {
                call: ZoneCall::Req {
                    zone: limit.zone,
                    call: ReqCall::Check {
                        key,
                        now: progress.opening.moment,
                        burst: limit.burst,
                        last: place == limits.len(),
                    },
                },
            });
        }
    }
    walk_ends(alloc, config, progress)
}

/// What a limit's zone has answered of the request.
pub(crate) fn checked(
    alloc: Global,
    config: &Config,
    progress: &mut Progress,
    limit: ReqLimit,
    behind: usize,
    reply: ReqReply,
) -> Result<Next, NoMemory>
    requires rates { HasRates config.now }
    requires servers { HasFewServers config.now }
    requires range { HasSmallExcess reply }
    ensures { IfOk result (λ next. next_turn config.now progress.new next ≡ after_check config.now progress.old.opening.moment progress.old.opening.vars (level_of config.now progress.old.opening).req_dry limit progress.old.holds (λ more. reqs_from config.now progress.old.opening more behind) (behind_reqs config.now progress.old.opening) reply) }
{
    let dry = level_at(config, progress.opening.location).req_dry;
    match reply {
        ReqReply::Again { excess: _, at } => {
            progress.holds.push(Hold {
                zone: limit.zone,
                at,
                allowed: allowed_of(&limit),
            })?;
            walk_reqs(alloc, config, progress, behind)
        }
        ReqReply::Pass { excess } => {
            let delay = delay_by(config, limit.zone, allowed_of(&limit), excess);
            account(alloc, config, progress, delay)
        }
        ReqReply::Busy { excess } => {
            progress.said = refused(dry, limit.zone, Excess::Amount { value: excess });
            release(alloc, config, progress)
        }
        ReqReply::NoRoom { .. } | ReqReply::Accounted { .. } | ReqReply::Released => {
            progress.said = refused(dry, limit.zone, Excess::Full);
            release(alloc, config, progress)
        }
    }
}

/// The excess that an account told.
fn accounted(reply: ReqReply) -> u64
    requires { HasSmallExcess reply }
    ensures value { result ≡ accounted reply }
    ensures range { result < 2 ^ 52 }
{
    match reply {
        ReqReply::Accounted { excess } => excess,
        ReqReply::Pass { .. } | ReqReply::Again { .. } | ReqReply::Busy { .. } => 0,
        ReqReply::NoRoom { .. } | ReqReply::Released => 0,
    }
}

/// A hold was accounted with this reply.
pub(crate) fn account_more(
    alloc: Global,
    config: &Config,
    progress: &mut Progress,
    hold: Hold,
    greatest: Delay,
    reply: ReqReply,
) -> Result<Next, NoMemory>
    requires rates { HasRates config.now }
    requires servers { HasFewServers config.now }
    requires range { HasSmallExcess reply }
    ensures { IfOk result (λ next. next_turn config.now progress.new next ≡ accounts config.now progress.old.opening.moment progress.old.opening.vars (level_of config.now progress.old.opening).req_dry (greater greatest (delay_by config.now hold.zone hold.allowed (accounted reply))) (reverse progress.old.holds) (behind_reqs config.now progress.old.opening)) }
{
    let delay = delay_by(config, hold.zone, hold.allowed, accounted(reply));
    account(alloc, config, progress, greater(greatest, delay))
}
