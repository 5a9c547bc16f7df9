ghost use Rattle.std.specs.Prelude.{◌≡◌, ℕ, ◌+◌, ◌*◌, ◌<◌, ◌≤◌, ◌^◌, List, Some, None};
ghost use Rattle.std.specs.Option.{ForSome};
ghost use Rattle.peer_zone.specs.declared.state.PeerRecord.{PeerRecord};
ghost use Rattle.peer_zone.specs.Choice.{taken, freed, by_round as chosen_by_round, by_least as chosen_by_least, by_single as chosen_by_single, choose as chosen};
ghost use Rattle.peer_zone.specs.Numbers.{part_of, IsLight};
ghost use Rattle.peer_zone.specs.CallSteps.{IsChain, HasPeer, IsTakeable, IsFreeable, ChangesRecord, Chooses};

use crate::calls::Method;
use crate::records::{numbers_at, record_at, set_numbers};
use crate::rounds::{count_taking, least_busy, raise_all};
use crate::takers::Takers;
use std::sync::ledger::Ledger;
use zone_region::{Block, Blocks, Steps};

/// The server of this index takes a request: it falls back by the round's total.
fn take<B: Blocks, L: Ledger>(
    blocks: &mut B,
    first: u64,
    index: u32,
    total: u64,
    now: u64,
    steps: &mut Steps<L>,
)
    requires there { ((ps : List PeerRecord) × (ats : List ℕ) × (p : PeerRecord) × HasPeer (B.words blocks.old) first index ps ats p × IsTakeable p) }
    requires total { total ≤ 2 ^ 22 }
    ensures does { (ps : List PeerRecord) (ats : List ℕ) (p : PeerRecord) → HasPeer (B.words blocks.old) first index ps ats p →
        ChangesRecord (B.words blocks.old) (B.words blocks.new) index (taken total now) ps ats }
    ensures cost { steps.new ≤ steps.old + (index + 11) }
    ensures rest { B.rest blocks.new ≡ B.rest blocks.old }
{
    let b = record_at(blocks, first, index, steps);
    let peer = numbers_at(blocks, b, steps);
    set_numbers(blocks, b, peer.taken(total, now));
}

/// A request is done with the server of this index (`ngx_http_upstream_free_round_robin_peer`).
pub(crate) fn free<B: Blocks, L: Ledger>(
    blocks: &mut B,
    first: u64,
    index: u32,
    single: bool,
    failed: bool,
    now: u64,
    steps: &mut Steps<L>,
)
    requires { ((ps : List PeerRecord) × (ats : List ℕ) × (p : PeerRecord) × HasPeer (B.words blocks.old) first index ps ats p × IsFreeable p) }
    ensures does { (ps : List PeerRecord) (ats : List ℕ) (p : PeerRecord) → HasPeer (B.words blocks.old) first index ps ats p →
        ChangesRecord (B.words blocks.old) (B.words blocks.new) index (freed single failed now) ps ats }
    ensures cost { steps.new ≤ steps.old + (index + 11) }
    ensures rest { B.rest blocks.new ≡ B.rest blocks.old }
{
    let b = record_at(blocks, first, index, steps);
    let peer = numbers_at(blocks, b, steps);
    set_numbers(blocks, b, peer.freed(single, failed, now));
}

/// The choice of an upstream with a single server.
fn by_single<B: Blocks, L: Ledger>(
    blocks: &mut B,
    first: u64,
    servers: u32,
    takers: &Takers,
    steps: &mut Steps<L>,
) -> Option<u32>
    requires least { takers.now.least ≡ None }
    requires there { ((ps : List PeerRecord) × (ats : List ℕ) × IsChain (B.words blocks.old) first servers ps ats) }
    ensures does { (ps : List PeerRecord) (ats : List ℕ) → IsChain (B.words blocks.old) first servers ps ats →
        Chooses (B.words blocks.old) (B.words blocks.new) ats (chosen_by_single (part_of takers.now) ps) result }
    ensures cost { steps.new ≤ steps.old + 11 }
    ensures rest { B.rest blocks.new ≡ B.rest blocks.old }
{
    if servers == 0 {
        return None;
    }
    let b = Block { at: first };
    let peer = numbers_at(blocks, b, steps);
    if !takers.include(0, &peer) {
        return None;
    }
    set_numbers(blocks, b, peer.taken_alone());
    Some(0)
}

/// A choice by one round (`ngx_http_upstream_get_peer`).
fn by_round<B: Blocks, L: Ledger>(
    blocks: &mut B,
    first: u64,
    servers: u32,
    takers: &Takers,
    steps: &mut Steps<L>,
) -> Option<u32>
    requires few { servers ≤ 64 }
    requires least { ForSome takers.now.least (λ least. IsLight least.peer) }
    requires there { ((ps : List PeerRecord) × (ats : List ℕ) × IsChain (B.words blocks.old) first servers ps ats) }
    ensures does { (ps : List PeerRecord) (ats : List ℕ) → IsChain (B.words blocks.old) first servers ps ats →
        Chooses (B.words blocks.old) (B.words blocks.new) ats (chosen_by_round (part_of takers.now) takers.now.moment ps) result }
    ensures cost { steps.new ≤ steps.old + (13 * servers + 11) }
    ensures rest { B.rest blocks.new ≡ B.rest blocks.old }
{
    let raised = raise_all(blocks, first, 0, servers, takers, steps);
    match raised.nearest {
        None => None,
        Some(nearest) => {
            take(
                blocks,
                first,
                nearest.index,
                raised.total,
                takers.moment,
                steps,
            );
            Some(nearest.index)
        }
    }
}

/// A choice by least connections (`ngx_http_upstream_get_least_conn_peer`): the least busy server, or where others are as
/// busy, one of them by a round.
fn by_least<B: Blocks, L: Ledger>(
    blocks: &mut B,
    first: u64,
    servers: u32,
    takers: &Takers,
    steps: &mut Steps<L>,
) -> Option<u32>
    requires few { servers ≤ 64 }
    requires least { takers.now.least ≡ None }
    requires there { ((ps : List PeerRecord) × (ats : List ℕ) × IsChain (B.words blocks.old) first servers ps ats) }
    ensures does { (ps : List PeerRecord) (ats : List ℕ) → IsChain (B.words blocks.old) first servers ps ats →
        Chooses (B.words blocks.old) (B.words blocks.new) ats (chosen_by_least (part_of takers.now) takers.now.moment ps) result }
    ensures cost { steps.new ≤ steps.old + (37 * servers + 11) }
    ensures rest { B.rest blocks.new ≡ B.rest blocks.old }
{
    let Some(least) = least_busy(blocks, first, 0, servers, None, takers, steps) else {
        return None;
    };
    let tied = Takers {
        least: Some(least),
        ..*takers
    };
    if count_taking(blocks, first, 0, servers, &tied, steps) > 1 {
        return by_round(blocks, first, servers, &tied, steps);
    }
    take(blocks, first, least.index, 0, takers.moment, steps);
    Some(least.index)
}

/// Which server of a list takes a request.
pub(crate) fn choose<B: Blocks, L: Ledger>(
    blocks: &mut B,
    first: u64,
    servers: u32,
    method: Method,
    takers: &Takers,
    steps: &mut Steps<L>,
) -> Option<u32>
    requires few { servers ≤ 64 }
    requires least { takers.now.least ≡ None }
    requires there { ((ps : List PeerRecord) × (ats : List ℕ) × IsChain (B.words blocks.old) first servers ps ats) }
    ensures does { (ps : List PeerRecord) (ats : List ℕ) → IsChain (B.words blocks.old) first servers ps ats →
        Chooses (B.words blocks.old) (B.words blocks.new) ats (chosen takers.now.single method (part_of takers.now) takers.now.moment ps) result }
    ensures cost { steps.new ≤ steps.old + (37 * servers + 11) }
    ensures rest { B.rest blocks.new ≡ B.rest blocks.old }
{
    if takers.single {
        return by_single(blocks, first, servers, takers, steps);
    }
    match method {
        Method::Round => by_round(blocks, first, servers, takers, steps),
        Method::Least => by_least(blocks, first, servers, takers, steps),
    }
}
