ghost use Rattle.std.specs.Prelude.{◌≡◌, ◌+◌, ◌<◌, ◌≤◌, [], length, sum_by, IfOk};
ghost use Rattle.zone_object.specs.History.{own};
ghost use Rattle.zone_counters.specs.Counting.{given, back};

use crate::{CounterCall, CounterReply, Counters};
use slab_model::Stat;
use std::alloc::Global;
use std::test::Fail;
use zone_object::{Journal, ZoneView, apply_uncounted};

const NO_STAT: Stat = Stat {
    total: 0,
    used: 0,
    reqs: 0,
    fails: 0,
};

/// Raises a counter and lowers it again, where there is one. It answers both replies.
fn there_and_back(
    journal: &mut Journal<Counters>,
    who: u32,
    at: u64,
) -> (CounterReply, Option<CounterReply>)
    requires room { length journal.old.log + 1 < journal.old.room }
    requires even { sum_by (back at) (own journal.old.log who) ≤ sum_by (given at) (own journal.old.log who) }
    ensures room { journal.new.room ≡ journal.old.room }
    ensures more { length journal.new.log ≤ length journal.old.log + 2 }
{
    let raised = journal.call(who, CounterCall::Raise { at });
    match raised {
        CounterReply::Raised { count: _ } => {
            (raised, Some(journal.call(who, CounterCall::Lower { at })))
        }
        CounterReply::NoCounter => (raised, None),
        CounterReply::Lowered { count: _ } => (raised, None),
    }
}

/// A row of three counters with an empty journal.
fn row(alloc: Global, room: u32) -> Result<Journal<Counters>, Fail>
    ensures { IfOk result (λ journal. (journal.room ≡ room) × (journal.log ≡ [])) }
{
    let counters = Counters::new(alloc, 3)?;
    Ok(Journal::new(alloc, counters, room)?)
}

#[test]
fn journals(rt: HostRuntime) -> Result<(), Fail> {
    let mut journal = row(rt.alloc(), 6)?;
    let first = journal.call(1, CounterCall::Raise { at: 2 });
    assert_eq!(rt; first, CounterReply::Raised { count: 1 });
    let second = there_and_back(&mut journal, 0, 2);
    assert_eq!(rt; second.0, CounterReply::Raised { count: 2 });
    assert_eq!(rt; second.1, Some(CounterReply::Lowered { count: 1 }));
    let last = journal.call(0, CounterCall::Raise { at: 3 });
    assert_eq!(rt; last, CounterReply::NoCounter);
    let callers = journal.entries().iter().map(|entry| entry.caller);
    assert!(rt; callers.eq([1, 0, 0, 0]));
    assert_eq!(rt; journal.object().entry_count(), 3);
    let (counters, entries) = journal.into_parts();
    assert_eq!(rt; entries.len(), 4);
    assert_eq!(rt; counters.words(), 3);
    assert_eq!(rt; counters.word_at(2), 1);
    Ok(())
}

#[test]
fn numbers(rt: HostRuntime) -> Result<(), Fail> {
    let mut counters = Counters::new(rt.alloc(), 3)?;
    let reply = apply_uncounted(&mut counters, 5, &CounterCall::Raise { at: 1 });
    assert_eq!(rt; reply, CounterReply::Raised { count: 1 });
    assert_eq!(rt; counters.words(), 3);
    assert_eq!(rt; counters.word_at(0), 0);
    assert_eq!(rt; counters.word_at(1), 1);
    assert_eq!(rt; counters.entry_count(), 3);
    assert_eq!(rt; counters.page_count(), 0);
    assert_eq!(rt; counters.free_count(), 0);
    assert_eq!(rt; counters.stat_of(0), NO_STAT);
    Ok(())
}
