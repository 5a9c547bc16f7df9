//! A caller's rounds: it raises a counter and lowers it again.
ghost use Rattle.std.specs.Prelude.{◌≡◌, ℕ, ◌+◌, ◌*◌, ◌≤◌, length, vec_len, All, IfOk};
ghost use Rattle.shared_zone.specs.Callers.{made, IsSameCaller};
ghost use Rattle.shared_tests.specs.Rounds.{home, LowersOwn, HasRoomFor, MayGo};

use shared_zone::{Pass, SharedZone};
use std::alloc::Global;
use std::sync::Wait;
use zone_counters::{CounterCall, CounterReply, Counters};
use zone_outside::NoMemory;

/// A zone of two counters, with sixteen passes that have room for 64 calls each.
pub fn opened_zone<R: Wait>(
    rt: &R,
    alloc: Global,
) -> Result<(SharedZone<Counters>, Vec<Pass<Counters>>), NoMemory>
    ensures count { IfOk result (λ r. vec_len r.1 ≡ 16) }
    ensures passes { IfOk result (λ r. All (MayGo (home r.0) 32) r.1.items) }
{
    let (zone, passes) = SharedZone::open(rt, alloc, Counters::new(alloc, 2)?, &[64; 16])?;
    Ok((zone, passes))
}

/// Raises the counter at this place, and lowers it again where there is one. It answers whether there is one.
pub fn round<R: Wait>(
    rt: &R,
    zone: &SharedZone<Counters>,
    pass: &mut Pass<Counters>,
    at: u64,
) -> bool
    requires zone { pass.old.zone.id ≡ zone.now }
    requires room { HasRoomFor 2 pass.old }
    requires own_only { LowersOwn pass.old }
    ensures pass { IsSameCaller pass.old pass.new }
    ensures own_only { LowersOwn pass.new }
    ensures made { length (made pass.new) ≤ length (made pass.old) + 2 }
{
    match zone.call(rt, pass, CounterCall::Raise { at }) {
        CounterReply::Raised { count: _ } => {
            zone.call(rt, pass, CounterCall::Lower { at });
            true
        }
        CounterReply::NoCounter => false,
        CounterReply::Lowered { count: _ } => false,
    }
}

/// So many rounds.
pub fn rounds<R: Wait>(
    rt: &R,
    zone: &SharedZone<Counters>,
    pass: &mut Pass<Counters>,
    at: u64,
    count: u32,
)
    requires zone { pass.old.zone.id ≡ zone.now }
    requires room { HasRoomFor (2 * count) pass.old }
    requires own_only { LowersOwn pass.old }
    ensures { IsSameCaller pass.old pass.new }
{
    for _ in 0..count {
        round(rt, zone, pass, at);
    }
}
