ghost use Rattle.std.specs.Prelude.{◌≡◌, ℕ, ◌+◌, ◌*◌, ◌≤◌, [], List, length, MatchOption};
ghost use Rattle.peer_zone.specs.declared.state.PeerState.{PeerState};
ghost use Rattle.peer_zone.specs.declared.calls.PeerCall.TheVariants.{Choose, Free};
ghost use Rattle.peer_zone.specs.Object.{list_of as list_in, reply_for, answer_of, zone_after, Ready, cost_of};
ghost use Rattle.peer_zone.specs.Lays.{Lays, head_in, records_in, IsHead, AreFew};

use crate::calls::{PeerCall, PeerReply, PeerSpec};
use crate::choosing::{choose, free};
use crate::takers::Takers;
use slab_pool::Pool;
use std::sync::ledger::Ledger;
use zone_region::{Block, Blocks, Steps};

/// The words of the block that heads a list (`ngx_http_upstream_rr_peers_t`).
const FIRST: u64 = 0;

const SERVERS: u64 = 1;

const SINGLE: u64 = 2;

/// What the block that heads a list tells of it.
#[derive(Clone, Copy, Debug)]
pub(crate) struct ListHead {
    /// The offset of the first record.
    pub(crate) first: u64,
    /// The number of servers.
    pub(crate) servers: u32,
    /// Whether the upstream has a single server.
    pub(crate) single: bool,
}

/// An upstream's zone in its words: the pool that has them, and what is kept beside them.
///
/// Contracts tie it to a state by `Lays`. Each call takes it from a state to that state's step.
#[derive(Drop)]
pub struct PeerWords {
    /// The zone's words, with the blocks that are granted of them.
    pub(crate) pool: Pool,
    /// What the zone was opened with.
    pub(crate) spec: PeerSpec,
    /// The offset of the block that heads the primary list.
    pub(crate) primary: u64,
    /// The offset of the block that heads the backup list, where there are backup servers.
    pub(crate) backup: Option<u64>,
    /// How many servers both lists have.
    pub(crate) entries: u64,
}

/// The reply of a choice.
fn reply(chosen: Option<u32>) -> PeerReply
    ensures { result ≡ reply_for chosen }
{
    match chosen {
        Some(index) => PeerReply::Peer { index },
        None => PeerReply::NoPeer,
    }
}

impl PeerWords {
    /// The offset of the block that heads a list; none where there are no backup servers.
    fn head_at(&self, list: u32) -> Option<u64>
        ensures { (s : PeerState) (l : Lays self.now s) → result ≡ head_in l.words list }
    {
        if list == 0 {
            Some(self.primary)
        } else {
            self.backup
        }
    }

    /// What the block that heads a list tells of it; none where the list has no servers.
    fn head<L: Ledger>(&self, list: u32, steps: &mut Steps<L>) -> Option<ListHead>
        requires { ((s : PeerState) × Lays self.now s × AreFew s) }
        ensures head { (s : PeerState) (l : Lays self.now s) →
            MatchOption result (list_in s list ≡ []) (IsHead s list (records_in l.words list)) }
        ensures cost { steps.new ≤ steps.old + 3 }
    {
        match self.head_at(list) {
            None => None,
            Some(at) => {
                let b = Block { at };
                Some(ListHead {
                    first: self.pool.word(b, FIRST, steps),
                    servers: self.pool.word(b, SERVERS, steps) as u32,
                    single: self.pool.word(b, SINGLE, steps) == 1,
                })
            }
        }
    }

    /// Which server of a list takes a request (`ngx_http_upstream_get_round_robin_peer`,
    /// `ngx_http_upstream_get_least_conn_peer`).
    fn choose<L: Ledger>(
        &mut self,
        list: u32,
        tried: u64,
        now: u64,
        steps: &mut Steps<L>,
    ) -> PeerReply
        requires { ((s : PeerState) × Lays self.old s × Ready s (Choose list tried now)) }
        ensures reply { (s : PeerState) → Lays self.old s → Ready s (Choose list tried now) → result ≡ answer_of s (Choose list tried now) }
        ensures laid { (s : PeerState) → Lays self.old s → Ready s (Choose list tried now) → Lays self.new (zone_after s (Choose list tried now)) }
        ensures cost { (s : PeerState) → Lays self.old s → Ready s (Choose list tried now) → steps.new ≤ steps.old + cost_of s (Choose list tried now) }
    {
        match self.head(list, steps) {
            None => PeerReply::NoPeer,
            Some(head) => {
                let takers = Takers {
                    single: head.single,
                    tried,
                    moment: now,
                    least: None,
                };
                let chosen = choose(
                    &mut self.pool,
                    head.first,
                    head.servers,
                    self.spec.method,
                    &takers,
                    steps,
                );
                reply(chosen)
            }
        }
    }

    /// A request is done with a server (`ngx_http_upstream_free_round_robin_peer`).
    fn free<L: Ledger>(
        &mut self,
        list: u32,
        index: u32,
        failed: bool,
        now: u64,
        steps: &mut Steps<L>,
    ) -> PeerReply
        requires { ((s : PeerState) × Lays self.old s × Ready s (Free list index failed now)) }
        ensures reply { (s : PeerState) → result ≡ answer_of s (Free list index failed now) }
        ensures laid { (s : PeerState) → Lays self.old s → Ready s (Free list index failed now) → Lays self.new (zone_after s (Free list index failed now)) }
        ensures cost { (s : PeerState) → Lays self.old s → Ready s (Free list index failed now) → steps.new ≤ steps.old + cost_of s (Free list index failed now) }
    {
        match self.head(list, steps) {
            None => PeerReply::Freed,
            Some(head) => {
                free(
                    &mut self.pool,
                    head.first,
                    index,
                    head.single,
                    failed,
                    now,
                    steps,
                );
                PeerReply::Freed
            }
        }
    }

    /// Makes a call, and says what it is answered.
    pub(crate) fn answer<L: Ledger>(&mut self, call: &PeerCall, steps: &mut Steps<L>) -> PeerReply
        requires { ((s : PeerState) × Lays self.old s × Ready s call.now) }
        ensures reply { (s : PeerState) → Lays self.old s → Ready s call.now → result ≡ answer_of s call.now }
        ensures laid { (s : PeerState) → Lays self.old s → Ready s call.now → Lays self.new (zone_after s call.now) }
        ensures cost { (s : PeerState) → Lays self.old s → Ready s call.now → steps.new ≤ steps.old + cost_of s call.now }
    {
        match call {
            PeerCall::Choose { list, tried, now } => self.choose(*list, *tried, *now, steps),
            PeerCall::Free {
                list,
                index,
                failed,
                now,
            } => self.free(*list, *index, *failed, *now, steps),
        }
    }
}
