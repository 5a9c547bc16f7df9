ghost use Rattle.std.specs.Prelude.{◌≡◌, ◌≤◌, MatchResult, IfOk};
ghost use Rattle.slab_model.specs.Geometry.{shape_of, least_zone, greatest_zone};
ghost use Rattle.conn_zone.specs.Object.{IsName, IsOpened, opened_zone};
ghost use Rattle.conn_zone.specs.Opening.{IsFaultOf};
ghost use Rattle.conn_zone.specs.Layout.{Lays};

use crate::calls::{ConnCall, ConnReply, ConnSpec};
use crate::connections::{close_connection, open_connection};
use crate::errors::OpenFault;
use crate::opening::{begin, name_text};
use crate::state::ConnState;
use slab_model::Stat;
use slab_pages::Geometry;
use slab_pool::Pool;
use std::alloc::Global;
use std::marker::Model;
use std::sync::ledger::Ledger;
use zone_object::{ZoneObject, ZoneView};
use zone_outside::Text;
use zone_region::{Block, Steps};

/// The classes of a pool.
const CLASSES: u32 = 9;

/// The zone of `limit_conn` in the words of its shared memory: a tree of nodes, one a key (`ngx_http_limit_conn_ctx_t`).
///
/// Contracts see the words, the block of the context, the name and the number of entries. They always lay out the state
/// of such a zone (`Lays`), by which its calls answer.
#[derive(Drop)]
pub struct ConnZone {
    pool: Pool,
    context: Block,
    name: Text,
    entries: u64,
}

impl Model for ConnZone {
    ghost use Rattle.conn_zone.specs.declared.state.ConnState.{ConnState};
    ghost use Rattle.conn_zone.specs.Layout.{Zone, Lays};

    ghost Value = { Zone };

    ghost view = { λ z. record { image = z.pool; context = z.context.at; name = z.name; entries = z.entries } };

    ghost invariant = { λ z. ((s : ConnState) × Lays (record { image = z.pool; context = z.context.at; name = z.name; entries = z.entries }) s) };
}

impl ConnZone {
    /// Opens a zone without entries (`ngx_http_limit_conn_init_zone`). `TooSmall` comes exactly where it has fewer bytes than
    /// 8 pages.
    pub fn open(alloc: Global, spec: ConnSpec) -> Result<ConnZone, OpenFault>
        requires name { IsName spec.name }
        requires bytes { spec.bytes ≤ greatest_zone }
        requires page_shift { spec.page_shift ≡ 12 }
        ensures opened { IfOk result (λ zone. Lays zone (opened_zone spec.name spec.bytes)) }
        ensures quiet { IfOk result (λ zone. IsOpened (opened_zone spec.name spec.bytes)) }
        ensures fault { MatchResult result (λ zone. least_zone (shape_of spec.bytes) ≤ spec.bytes) (IsFaultOf spec.bytes) }
    {
        let Ok(geometry) = Geometry::of(spec.bytes, spec.page_shift) else {
            return Err(OpenFault::TooSmall);
        };
        let text = name_text(alloc, spec.name.bytes())?;
        let mut pool = Pool::open(alloc, geometry)?;
        let context = begin(&mut pool, &text);
        Ok(ConnZone {
            pool,
            context,
            name: spec.name,
            entries: 0,
        })
    }
}

impl ZoneObject for ConnZone {
    ghost use Rattle.conn_zone.specs.Object.{IsOpened, answer_of, zone_after, Permits, Ready, CanAnswer, cost_of};
    ghost use Rattle.conn_zone.specs.Layout.{Lays};
    ghost use Rattle.conn_zone.specs.ObjectLaws.{ready-law, answer-law};
    ghost use Rattle.conn_zone.specs.Starting.{one_start-law};

    type State = ConnState;

    type Call = ConnCall;

    type Reply = ConnReply;

    ghost lays = { Lays };

    ghost is_quiet = { IsOpened };

    ghost reply_of = { answer_of };

    ghost state_after = { zone_after };

    ghost permits = { Permits };

    ghost ready = { Ready };

    ghost can_answer = { CanAnswer };

    ghost cost = { cost_of };

    fn apply<L: Ledger>(&mut self, _who: u32, call: &ConnCall, steps: &mut Steps<L>) -> ConnReply {
        match call {
            ConnCall::Open { key, limit } => open_connection(
                &mut self.pool,
                self.context,
                &mut self.entries,
                key,
                *limit,
                steps,
            ),
            ConnCall::Close { at } => close_connection(
                &mut self.pool,
                self.context,
                &mut self.entries,
                Block { at: *at },
                steps,
            ),
        }
    }

    ghost each_is_ready = { ready-law };

    ghost each_can_answer = { answer-law };

    ghost one_start = { one_start-law };
}

impl ZoneView for ConnZone {
    ghost use Rattle.std.specs.Prelude.{length};
    ghost use Rattle.slab_model.specs.State.{pages_in};
    ghost use Rattle.slab_model.specs.Counting.{free_pages};
    ghost use Rattle.conn_zone.specs.Layout.{LaysWords};
    ghost use Rattle.conn_zone.specs.Starting.{words-law};

    ghost image = { λ zone. zone.image.words };

    ghost image_lays = { LaysWords };

    ghost pages_in = { λ s. pages_in s.slab };

    ghost free_in = { λ s. free_pages s.slab };

    ghost entries_in = { λ s. length s.table };

    ghost stats_in = { λ s. s.slab.stats };

    fn words(&self) -> u64 {
        self.pool.word_count()
    }

    fn word_at(&self, w: u64) -> u64 {
        self.pool.raw(w)
    }

    fn page_count(&self) -> u64 {
        self.pool.pages()
    }

    fn free_count(&self) -> u64 {
        self.pool.free_pages()
    }

    fn stat_of(&self, class: u32) -> Stat {
        if class < CLASSES {
            return self.pool.stats(class);
        }
        Stat {
            total: 0,
            used: 0,
            reqs: 0,
            fails: 0,
        }
    }

    fn entry_count(&self) -> u64 {
        self.entries
    }

    ghost image_is_laid = { words-law };
}
