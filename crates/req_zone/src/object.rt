ghost use Rattle.std.specs.Prelude.{◌≡◌, ◌<◌, ◌≤◌, length, IfOk, MatchResult};
ghost use Rattle.slab_model.specs.Geometry.{shape_of, least_zone, greatest_zone};
ghost use Rattle.req_zone.specs.Amount.{IsRate};
ghost use Rattle.req_zone.specs.Object.{IsName, IsOpened, opened_zone};
ghost use Rattle.req_zone.specs.Opening.{IsFaultOf};
ghost use Rattle.req_zone.specs.Lays.{Lays};

use crate::calls::{ReqCall, ReqReply, ReqSpec};
use crate::errors::OpenFault;
use crate::opening::{begin, text_of};
use crate::state::ReqState;
use crate::words::ReqWords;
use slab_model::Stat;
use slab_pages::Geometry;
use slab_pool::Pool;
use std::alloc::Global;
use std::marker::Model;
use std::sync::ledger::Ledger;
use zone_object::{ZoneObject, ZoneView};
use zone_outside::Text;
use zone_region::Steps;

/// The number of classes of blocks.
const CLASSES: u32 = 9;

/// A zone of `limit_req`: how far each key is above its rate, in a table of nodes that stands in the zone's words.
///
/// It always lays out a state (`Lays`), which each call reads and changes.
#[derive(Drop)]
pub struct ReqZone {
    words: ReqWords,
}

impl Model for ReqZone {
    ghost use Rattle.req_zone.specs.declared.words.ReqWords.{ReqWords};
    ghost use Rattle.req_zone.specs.declared.state.ReqState.{ReqState};
    ghost use Rattle.req_zone.specs.Lays.{Lays};

    ghost Value = { ReqWords };

    ghost view = { λ z. z.words };

    ghost invariant = { λ z. ((s : ReqState) × Lays z.words s) };
}

impl ReqZone {
    /// Opens a zone without entries. `TooSmall` comes exactly where it has fewer bytes than 8 pages.
    pub fn open(alloc: Global, spec: &ReqSpec) -> Result<ReqZone, OpenFault>
        requires name { IsName spec.now.name }
        requires bytes { spec.now.bytes ≤ greatest_zone }
        requires page_shift { spec.now.page_shift ≡ 12 }
        requires rate { IsRate spec.now.rate }
        ensures laid { MatchResult result
            (λ zone. (least_zone (shape_of spec.now.bytes) ≤ spec.now.bytes) × Lays zone (opened_zone spec.now.rate spec.now.name spec.now.bytes))
            (IsFaultOf spec.now.bytes) }
        ensures quiet { IfOk result (λ _. IsOpened (opened_zone spec.now.rate spec.now.name spec.now.bytes)) }
    {
        let Ok(geometry) = Geometry::of(spec.bytes, spec.page_shift) else {
            return Err(OpenFault::TooSmall);
        };
        let name = Text::of(alloc, spec.name.bytes())?;
        let text = text_of(alloc, spec.name.bytes())?;
        let mut pool = Pool::open(alloc, geometry)?;
        let table = begin(&mut pool, &text);
        Ok(ReqZone {
            words: ReqWords {
                pool,
                table,
                name,
                rate: spec.rate,
                entries: 0,
            },
        })
    }
}

impl ZoneObject for ReqZone {
    ghost use Rattle.req_zone.specs.Object.{IsOpened, answer_of, zone_after, Permits, Ready, CanAnswer, cost_of};
    ghost use Rattle.req_zone.specs.ObjectLaws.{ready-law};
    ghost use Rattle.req_zone.specs.Proving.Answers.{answer-law};
    ghost use Rattle.req_zone.specs.Lays.{Lays};
    ghost use Rattle.req_zone.specs.WordsLaws.{one_start-law};

    type State = ReqState;

    type Call = ReqCall;

    type Reply = ReqReply;

    ghost lays = { Lays };

    ghost is_quiet = { IsOpened };

    ghost reply_of = { answer_of };

    ghost state_after = { zone_after };

    ghost permits = { Permits };

    ghost ready = { Ready };

    ghost can_answer = { CanAnswer };

    ghost cost = { cost_of };

    fn apply<L: Ledger>(&mut self, _who: u32, call: &ReqCall, steps: &mut Steps<L>) -> ReqReply {
        self.words.answer(call, steps)
    }

    ghost each_is_ready = { ready-law };

    ghost each_can_answer = { answer-law };

    ghost one_start = { one_start-law };
}

impl ZoneView for ReqZone {
    ghost use Rattle.std.specs.Prelude.{length};
    ghost use Rattle.slab_model.specs.State.{pages_in};
    ghost use Rattle.slab_model.specs.Counting.{free_pages};
    ghost use Rattle.req_zone.specs.Words.{LaysImage};
    ghost use Rattle.req_zone.specs.WordsLaws.{image-law};

    ghost image = { λ z. z.pool.words };

    ghost image_lays = { LaysImage };

    ghost pages_in = { λ s. pages_in s.slab };

    ghost free_in = { λ s. free_pages s.slab };

    ghost entries_in = { λ s. length s.table };

    ghost stats_in = { λ s. s.slab.stats };

    fn words(&self) -> u64 {
        self.words.pool.word_count()
    }

    fn word_at(&self, w: u64) -> u64 {
        self.words.pool.raw(w)
    }

    fn page_count(&self) -> u64 {
        self.words.pool.pages()
    }

    fn free_count(&self) -> u64 {
        self.words.pool.free_pages()
    }

    fn stat_of(&self, class: u32) -> Stat {
        if class < CLASSES {
            self.words.pool.stats(class)
        } else {
            Stat {
                total: 0,
                used: 0,
                reqs: 0,
                fails: 0,
            }
        }
    }

    fn entry_count(&self) -> u64 {
        self.words.entries
    }

    ghost image_is_laid = { image-law };
}
