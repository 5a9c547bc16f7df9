//! Sixteen passes whose rounds are divided among threads by halving.
ghost use Rattle.std.specs.Prelude.{◌≡◌, ◌*◌, ◌≤◌, IfOk, All, vec_len};
ghost use Rattle.zone_object.specs.History.{HasRun};
ghost use Rattle.zone_counters.specs.Counting.{AreZero, Lays, Permits, zero_counters, reply_of, state_after};
ghost use Rattle.shared_tests.specs.Rounds.{home, MayGo};
ghost use denote.Param.Send.{IsSync};

use crate::rounds::{opened_zone, rounds};
use shared_zone::{Pass, SharedZone};
use std::alloc::Global;
use std::sync::Wait;
use std::thread::{Threads, join};
use zone_counters::Counters;
use zone_object::Entry;
use zone_outside::NoMemory;

// The rounds of one pass, on the first counter.
fn one<R: Wait>(
    rt: &R,
    zone: &SharedZone<Counters>,
    mut pass: Pass<Counters>,
    count: u32,
) -> Pass<Counters>
    requires { MayGo (home zone.now) count pass }
    ensures { result.zone ≡ pass.zone }
{
    rounds(rt, zone, &mut pass, 0, count);
    pass
}

/// Each pass makes its rounds on the first counter, in a thread of its own. They come back in their order.
pub fn all_rounds<R: Threads + Wait + Sync>(
    rt: &R,
    alloc: Global,
    zone: &SharedZone<Counters>,
    mut passes: Vec<Pass<Counters>>,
    count: u32,
) -> Result<Vec<Pass<Counters>>, NoMemory>
    requires { All (MayGo (home zone.now) count) passes.items }
    ensures count { IfOk result (λ done. vec_len done ≡ vec_len passes) }
    ensures zone { IfOk result (λ done. All (λ pass. pass.zone ≡ home zone.now) done.items) }
{
    if passes.len() < 2 {
        let mut done = Vec::new(alloc);
        if let Some(pass) = passes.pop() {
            done.push(one(rt, zone, pass, count))?;
        }
        return Ok(done);
    }
    let half = passes.len() / 2;
    let rest = passes.split_off(half)?;
    let (first, second) = join(
        rt,
        move || -> Result<Vec<Pass<Counters>>, NoMemory>
            requires { IsSync R.row × All (MayGo (home zone.now) count) passes.items }
            ensures count { IfOk result (λ done. vec_len done ≡ vec_len passes) }
            ensures zone { IfOk result (λ done. All (λ pass. pass.zone ≡ home zone.entry.now) done.items) }
        { all_rounds(rt, alloc, zone, passes, count) },
        move || -> Result<Vec<Pass<Counters>>, NoMemory>
            requires { IsSync R.row × All (MayGo (home zone.now) count) rest.items }
            ensures count { IfOk result (λ done. vec_len done ≡ vec_len rest) }
            ensures zone { IfOk result (λ done. All (λ pass. pass.zone ≡ home zone.entry.now) done.items) }
        { all_rounds(rt, alloc, zone, rest, count) },
    );
    let mut first = first?;
    let mut second = second?;
    first.append(&mut second)?;
    Ok(first)
}

/// Sixteen callers make 32 rounds each, in threads of their own. What they did is one legal history, from two counters
/// that say 0, which the counters have run.
pub fn sixteen<R: Threads + Wait + Sync>(
    rt: &R,
    alloc: Global,
) -> Result<(Counters, Vec<Entry<Counters>>), NoMemory>
    ensures { IfOk result (λ r. HasRun AreZero Lays reply_of state_after Permits (zero_counters 2) r.0 r.1.items) }
{
    let (zone, passes) = opened_zone(rt, alloc)?;
    let passes = all_rounds(rt, alloc, &zone, passes, 32)?;
    Ok(zone.close(rt, passes))
}
