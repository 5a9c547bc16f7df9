ghost use Rattle.std.specs.Prelude.{◌≡◌};

use crate::halves::sixteen;
use crate::rounds::opened_zone;
use shared_zone::{Pass, SharedZone};
use std::alloc::Global;
use std::sync::Wait;
use std::test::Fail;
use zone_counters::{CounterCall, CounterReply, Counters};
use zone_object::{Entry, ZoneView};

fn callers(alloc: Global, log: &[Entry<Counters>]) -> Result<Vec<u32>, Fail> {
    let mut callers = Vec::new(alloc);
    for entry in log {
        callers.push(entry.caller)?;
    }
    Ok(callers)
}

fn replies(alloc: Global, log: &[Entry<Counters>]) -> Result<Vec<CounterReply>, Fail> {
    let mut replies = Vec::new(alloc);
    for entry in log {
        replies.push(entry.reply)?;
    }
    Ok(replies)
}

fn closed<R: Wait>(
    rt: &R,
    alloc: Global,
    zone: SharedZone<Counters>,
    first: Pass<Counters>,
    second: Pass<Counters>,
) -> Result<(Counters, Vec<Entry<Counters>>), Fail>
    requires { (first.zone.id ≡ zone) × (second.zone ≡ first.zone) }
{
    let mut passes = Vec::new(alloc);
    passes.push(first)?;
    passes.push(second)?;
    Ok(zone.close(rt, passes))
}

#[test]
fn callers_that_meet(rt: HostRuntime) -> Result<(), Fail> {
    let (zone, mut passes) = opened_zone(&rt, rt.alloc())?;
    let Some(mut second) = passes.pop() else {
        unreachable!()
    };
    let Some(mut first) = passes.pop() else {
        unreachable!()
    };
    let raised = zone.call(&rt, &mut first, CounterCall::Raise { at: 1 });
    let note = zone.note(&mut first);
    zone.meet(&mut second, note);
    let raised_again = zone.call(&rt, &mut second, CounterCall::Raise { at: 1 });
    let none = zone.call(&rt, &mut second, CounterCall::Raise { at: 2 });
    let other = zone.call(&rt, &mut first, CounterCall::Raise { at: 0 });
    assert_eq!(rt; raised, CounterReply::Raised { count: 1 });
    assert_eq!(rt; raised_again, CounterReply::Raised { count: 2 });
    assert_eq!(rt; none, CounterReply::NoCounter);
    assert_eq!(rt; other, CounterReply::Raised { count: 1 });
    let (counters, log) = closed(&rt, rt.alloc(), zone, first, second)?;
    assert_eq!(rt; counters.words(), 2);
    assert_eq!(rt; counters.word_at(0), 1);
    assert_eq!(rt; counters.word_at(1), 2);
    let who = callers(rt.alloc(), &log)?;
    assert_eq!(rt; who.as_slice(), [14, 15, 15, 14].as_slice());
    let told = replies(rt.alloc(), &log)?;
    let wanted = [raised, raised_again, none, other];
    assert_eq!(rt; told.as_slice(), wanted.as_slice());
    Ok(())
}

#[test]
fn sixteen_threads(rt: HostRuntime) -> Result<(), Fail> {
    let (counters, log) = sixteen(&rt, rt.alloc())?;
    assert_eq!(rt; counters.words(), 2);
    assert_eq!(rt; counters.word_at(0), 0);
    assert_eq!(rt; counters.word_at(1), 0);
    let who = callers(rt.alloc(), &log)?;
    for k in 0..16 {
        assert_eq!(rt; who.iter().filter(|caller| **caller == k).count(), 64);
    }
    Ok(())
}
