ghost use Rattle.std.specs.Prelude.{◌≡◌, ◌<◌, ◌≤◌, length, IfOk, MatchResult, None};
ghost use Rattle.std.specs.List.{All};
ghost use Rattle.slab_model.specs.Geometry.{greatest_zone};
ghost use Rattle.peer_zone.specs.Object.{IsServer};
ghost use Rattle.peer_zone.specs.Opening.{IsOpened, opened_zone, refused_server};
ghost use Rattle.peer_zone.specs.Lays.{Lays};
ghost use Rattle.peer_zone.specs.Faults.{HasPages, IsFaultOf};

use crate::calls::{PeerCall, PeerReply, PeerSpec};
use crate::errors::OpenFault;
use crate::opening::{begin, text_of};
use crate::state::PeerState;
use crate::words::PeerWords;
use slab_model::Stat;
use slab_pages::Geometry;
use slab_pool::Pool;
use std::alloc::Global;
use std::marker::Model;
use std::sync::ledger::Ledger;
use zone_object::{ZoneObject, ZoneView};
use zone_region::Steps;

/// The number of classes of blocks.
const CLASSES: u32 = 9;

/// The zone of an upstream's servers: which of them takes the next request, by records that stand in the zone's words.
///
/// It always lays out a state (`Lays`), which each call reads and changes.
#[derive(Drop)]
pub struct PeerZone {
    words: PeerWords,
}

impl Model for PeerZone {
    ghost use Rattle.peer_zone.specs.declared.words.PeerWords.{PeerWords};
    ghost use Rattle.peer_zone.specs.declared.state.PeerState.{PeerState};
    ghost use Rattle.peer_zone.specs.Lays.{Lays};

    ghost Value = { PeerWords };

    ghost view = { λ z. z.words };

    ghost invariant = { λ z. ((s : PeerState) × Lays z.words s) };
}

impl PeerZone {
    /// Opens a zone whose servers have had no request. `TooSmall` comes exactly where it has fewer bytes than 8 pages, and
    /// `Small` exactly where the pool has no block for the record of a server: it tells the first such one.
    pub fn open(alloc: Global, spec: PeerSpec) -> Result<PeerZone, OpenFault>
        requires name { (0 < length spec.name) × (length spec.name < 256) }
        requires bytes { spec.bytes ≤ greatest_zone }
        requires page_shift { spec.page_shift ≡ 12 }
        requires some { 0 < length spec.primary }
        requires primary { All IsServer spec.primary }
        requires primary_few { length spec.primary ≤ 64 }
        requires backup { All IsServer spec.backup }
        requires backup_few { length spec.backup ≤ 64 }
        ensures laid { MatchResult result
            (λ zone. HasPages spec × (refused_server spec ≡ None) × Lays zone (opened_zone spec))
            (IsFaultOf spec) }
        ensures quiet { IfOk result (λ _. IsOpened (opened_zone spec)) }
    {
        let Ok(geometry) = Geometry::of(spec.bytes, spec.page_shift) else {
            return Err(OpenFault::TooSmall);
        };
        let text = text_of(alloc, spec.name.bytes())?;
        let mut pool = Pool::open(alloc, geometry)?;
        let entries = (spec.primary.len() + spec.backup.len()) as u64;
        match begin(&mut pool, &spec, &text) {
            Err(server) => Err(OpenFault::Small { server }),
            Ok(placed) => Ok(PeerZone {
                words: PeerWords {
                    pool,
                    spec,
                    primary: placed.list.at,
                    backup: placed.backup,
                    entries,
                },
            }),
        }
    }
}

impl ZoneObject for PeerZone {
    ghost use Rattle.peer_zone.specs.Object.{answer_of, zone_after, Permits, Ready, CanAnswer, cost_of};
    ghost use Rattle.peer_zone.specs.Opening.{IsOpened};
    ghost use Rattle.peer_zone.specs.ObjectLaws.{ready-law, answer-law};
    ghost use Rattle.peer_zone.specs.Lays.{Lays};
    ghost use Rattle.peer_zone.specs.WordsLaws.{one_start-law};

    type State = PeerState;

    type Call = PeerCall;

    type Reply = PeerReply;

    ghost lays = { Lays };

    ghost is_quiet = { IsOpened };

    ghost reply_of = { answer_of };

    ghost state_after = { zone_after };

    ghost permits = { Permits };

    ghost ready = { Ready };

    ghost can_answer = { CanAnswer };

    ghost cost = { cost_of };

    fn apply<L: Ledger>(&mut self, _who: u32, call: &PeerCall, steps: &mut Steps<L>) -> PeerReply {
        self.words.answer(call, steps)
    }

    ghost each_is_ready = { ready-law };

    ghost each_can_answer = { answer-law };

    ghost one_start = { one_start-law };
}

impl ZoneView for PeerZone {
    ghost use Rattle.std.specs.Prelude.{◌+◌, length};
    ghost use Rattle.slab_model.specs.State.{pages_in};
    ghost use Rattle.slab_model.specs.Counting.{free_pages};
    ghost use Rattle.peer_zone.specs.Layout.{LaysImage};
    ghost use Rattle.peer_zone.specs.WordsLaws.{image-law};

    ghost image = { λ z. z.pool.words };

    ghost image_lays = { LaysImage };

    ghost pages_in = { λ s. pages_in s.slab };

    ghost free_in = { λ s. free_pages s.slab };

    ghost entries_in = { λ s. length s.primary + length s.backup };

    ghost stats_in = { λ s. s.slab.stats };

    fn words(&self) -> u64 {
        self.words.pool.word_count()
    }

    fn word_at(&self, w: u64) -> u64 {
        self.words.pool.raw(w)
    }

    fn page_count(&self) -> u64 {
        self.words.pool.pages()
    }

    fn free_count(&self) -> u64 {
        self.words.pool.free_pages()
    }

    fn stat_of(&self, class: u32) -> Stat {
        if class < CLASSES {
            self.words.pool.stats(class)
        } else {
            Stat {
                total: 0,
                used: 0,
                reqs: 0,
                fails: 0,
            }
        }
    }

    fn entry_count(&self) -> u64 {
        self.words.entries
    }

    ghost image_is_laid = { image-law };
}
