//! A row of counters, the smallest object whose law needs the whole history: an example of how an author fills in the
//! traits, and an object for the tests of the crates above.
#![tactic(auto)]

ghost use Rattle.std.specs.Prelude.{IfOk};
ghost use Rattle.zone_counters.specs.Counting.{Lays, AreZero, zero_counters};

use slab_model::Stat;
use std::alloc::Global;
use std::collections::LinkedList;
use std::marker::Model;
use std::sync::ledger::Ledger;
use zone_object::{ZoneObject, ZoneView};
use zone_outside::NoMemory;
use zone_region::Steps;

/// What a row of counters is asked.
#[derive(Debug, Drop)]
pub enum CounterCall {
    /// One more on the counter at this place.
    Raise { at: u64 },
    /// One less there, by a caller that raised it more often than it lowered it.
    Lower { at: u64 },
}

/// What it answers.
#[derive(Clone, Copy, Debug, PartialEq, Eq)]
pub enum CounterReply {
    /// What the counter says afterwards.
    Raised { count: u64 },
    /// The row has no counter at this place.
    NoCounter,
    /// What the counter says afterwards.
    Lowered { count: u64 },
}

/// What the calls see: what each counter says. No value of it is made.
pub struct CounterState {
    /// The counts, by place.
    pub counts: LinkedList<u64>,
}

/// A row of counters. Its words are the counts.
#[derive(Drop)]
pub struct Counters {
    words: Vec<u64>,
}

impl Model for Counters {
    ghost use Rattle.std.specs.Prelude.{List, ℕ};

    ghost Value = { List ℕ };

    ghost view = { λ c. c.words.items };
}

impl Counters {
    /// So many counters that say 0. It fails only where there is no memory for them.
    pub fn new(alloc: Global, places: u64) -> Result<Counters, NoMemory>
        ensures laid { IfOk result (λ c. Lays c (zero_counters places)) }
        ensures quiet { AreZero (zero_counters places) }
    {
        Ok(Counters {
            words: vec![in alloc; 0u64; places as usize]?,
        })
    }
}

impl ZoneObject for Counters {
    ghost use Rattle.zone_counters.specs.Counting.{Lays, AreZero, reply_of, state_after, Permits, Ready, CanAnswer};
    ghost use Rattle.zone_counters.specs.CountingLaws.{ready-law, answer-law, start-law};

    type State = CounterState;

    type Call = CounterCall;

    type Reply = CounterReply;

    ghost lays = { Lays };

    ghost is_quiet = { AreZero };

    ghost reply_of = { reply_of };

    ghost state_after = { state_after };

    ghost permits = { Permits };

    ghost ready = { Ready };

    ghost can_answer = { CanAnswer };

    ghost cost = { λ s call. 1 };

    fn apply<L: Ledger>(
        &mut self,
        _who: u32,
        call: &CounterCall,
        steps: &mut Steps<L>,
    ) -> CounterReply {
        steps.tick();
        match call {
            CounterCall::Raise { at } => match self.words.get_mut(*at as usize) {
                Some(count) => {
                    *count += 1;
                    CounterReply::Raised { count: *count }
                }
                None => CounterReply::NoCounter,
            },
            CounterCall::Lower { at } => {
                let count = self.words[*at as usize] - 1;
                self.words[*at as usize] = count;
                CounterReply::Lowered { count }
            }
        }
    }

    ghost each_is_ready = { ready-law };

    ghost each_can_answer = { answer-law };

    ghost one_start = { start-law };
}

impl ZoneView for Counters {
    ghost use Rattle.std.specs.Prelude.{◌≡◌, [], length};

    ghost image = { λ c. c };

    ghost image_lays = { λ words s. words ≡ s.counts };

    ghost pages_in = { λ s. 0 };

    ghost free_in = { λ s. 0 };

    ghost entries_in = { λ s. length s.counts };

    ghost stats_in = { λ s. [] };

    fn words(&self) -> u64 {
        self.words.len() as u64
    }

    fn word_at(&self, w: u64) -> u64 {
        self.words[w as usize]
    }

    fn page_count(&self) -> u64 {
        0
    }

    fn free_count(&self) -> u64 {
        0
    }

    fn stat_of(&self, _class: u32) -> Stat {
        Stat {
            total: 0,
            used: 0,
            reqs: 0,
            fails: 0,
        }
    }

    fn entry_count(&self) -> u64 {
        self.words.len() as u64
    }

    ghost image_is_laid = { λ object s laid. laid };
}

#[cfg(test)]
mod tests;
