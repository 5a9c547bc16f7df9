ghost use Rattle.std.specs.Prelude.{◌≡◌, ℕ, ◌+◌, ◌*◌, ◌<◌, ◌≤◌, ◌&&◌, List, Option, Some, if◌then◌else◌, length};
ghost use Rattle.std.specs.Option.{ForSome};
ghost use Rattle.peer_zone.specs.declared.state.PeerRecord.{PeerRecord};
ghost use Rattle.peer_zone.specs.Choice.{Found, replaces as replaces_in, nearer as nearer_of, raised, least_in, count_in};
ghost use Rattle.peer_zone.specs.Numbers.{numbers_of, part_of, as_record, IsLight, IsLeast, IsNearest};
ghost use Rattle.peer_zone.specs.CallSteps.{IsChain, RaisesAll};

use crate::numbers::PeerNumbers;
use crate::records::{next_of, numbers_at, set_numbers};
use crate::takers::{Least, Nearest, Takers};
use std::sync::ledger::Ledger;
use zone_region::{Block, Blocks, Steps};

/// What a round found.
#[derive(Clone, Copy, Debug)]
pub(crate) struct Raised {
    /// The effective weights of all that take part.
    pub(crate) total: u64,
    /// The nearest of them to its turn, the first on a tie.
    pub(crate) nearest: Option<Nearest>,
}

/// Of an earlier server and the nearest of the later ones, the one that is nearer to its turn; the earlier one on a tie.
fn nearer(earlier: Nearest, later: Option<Nearest>) -> Nearest
    ensures { (e : Found) (l : Option Found) → IsNearest (Some earlier) (Some e) → IsNearest later l →
        IsNearest (Some result) (nearer_of e l) }
{
    match later {
        Some(later) if earlier.current < later.current => later,
        _ => earlier,
    }
}

/// One round over the servers of a list from one on (`ngx_http_upstream_get_peer`): each that takes part is nearer to its
/// turn by its effective weight.
pub(crate) fn raise_all<B: Blocks, L: Ledger>(
    blocks: &mut B,
    first: u64,
    index: u32,
    left: u32,
    takers: &Takers,
    steps: &mut Steps<L>,
) -> Raised
    requires few { index + left ≤ 64 }
    requires least { ForSome takers.now.least (λ least. IsLight least.peer) }
    requires there { ((ps : List PeerRecord) × (ats : List ℕ) × IsChain (B.words blocks.old) first left ps ats) }
    ensures does { (ps : List PeerRecord) (ats : List ℕ) → IsChain (B.words blocks.old) first left ps ats →
        RaisesAll (B.words blocks.old) (B.words blocks.new) (part_of takers.now) index ps ats result }
    ensures few { result.total ≤ 65535 * left }
    ensures cost { steps.new ≤ steps.old + 12 * left }
    ensures rest { B.rest blocks.new ≡ B.rest blocks.old }
{
    if left == 0 {
        return Raised {
            total: 0,
            nearest: None,
        };
    }
    let b = Block { at: first };
    let next = next_of(blocks, b, steps);
    let peer = numbers_at(blocks, b, steps);
    let later = raise_all(blocks, next, index + 1, left - 1, takers, steps);
    if !takers.include(index, &peer) {
        return later;
    }
    let raised = peer.raised();
    set_numbers(blocks, b, raised);
    let here = Nearest {
        index,
        current: raised.current,
    };
    Raised {
        total: peer.effective + later.total,
        nearest: Some(nearer(here, later.nearest)),
    }
}

/// The least busy server so far, once this one is looked at: a later one takes the place of an earlier one only where it
/// is less busy.
fn less_busy(takers: &Takers, index: u32, peer: PeerNumbers, best: Option<Least>) -> Option<Least>
    requires index { index < 64 }
    requires light { IsLight peer }
    requires least { ForSome takers.now.least (λ least. IsLight least.peer) }
    requires best { ForSome best (λ least. IsLight least.peer) }
    ensures is { (p : PeerRecord) (f : Option Found) → peer ≡ numbers_of p → IsLeast best f →
        IsLeast result (if part_of takers.now index p && replaces_in p f then Some (record { index = index; peer = p }) else f) }
    ensures light { ForSome result (λ least. IsLight least.peer) }
{
    if !takers.include(index, &peer) {
        return best;
    }
    match best {
        Some(least) if !peer.is_less_busy(&least.peer) => best,
        _ => Some(Least { index, peer }),
    }
}

/// The least busy server of a list from one on, where this is the least busy one before it.
pub(crate) fn least_busy<B: Blocks, L: Ledger>(
    blocks: &B,
    first: u64,
    index: u32,
    left: u32,
    best: Option<Least>,
    takers: &Takers,
    steps: &mut Steps<L>,
) -> Option<Least>
    requires few { index + left ≤ 64 }
    requires least { ForSome takers.now.least (λ least. IsLight least.peer) }
    requires best { ForSome best (λ least. IsLight least.peer) }
    requires there { ((ps : List PeerRecord) × (ats : List ℕ) × IsChain (B.words blocks.now) first left ps ats) }
    ensures is { (ps : List PeerRecord) (ats : List ℕ) (f : Option Found) → IsChain (B.words blocks.now) first left ps ats → IsLeast best f →
        IsLeast result (least_in (part_of takers.now) index f ps) }
    ensures light { ForSome result (λ least. IsLight least.peer) }
    ensures cost { steps.new ≤ steps.old + 12 * left }
{
    if left == 0 {
        return best;
    }
    let b = Block { at: first };
    let next = next_of(blocks, b, steps);
    let peer = numbers_at(blocks, b, steps);
    let better = less_busy(takers, index, peer, best);
    least_busy(blocks, next, index + 1, left - 1, better, takers, steps)
}

/// How many servers of a list from one on take part.
pub(crate) fn count_taking<B: Blocks, L: Ledger>(
    blocks: &B,
    first: u64,
    index: u32,
    left: u32,
    takers: &Takers,
    steps: &mut Steps<L>,
) -> u32
    requires few { index + left ≤ 64 }
    requires least { ForSome takers.now.least (λ least. IsLight least.peer) }
    requires there { ((ps : List PeerRecord) × (ats : List ℕ) × IsChain (B.words blocks.now) first left ps ats) }
    ensures is { (ps : List PeerRecord) (ats : List ℕ) → IsChain (B.words blocks.now) first left ps ats →
        result ≡ count_in (part_of takers.now) index ps }
    ensures few { result ≤ left }
    ensures cost { steps.new ≤ steps.old + 12 * left }
{
    if left == 0 {
        return 0;
    }
    let b = Block { at: first };
    let next = next_of(blocks, b, steps);
    let peer = numbers_at(blocks, b, steps);
    let behind = count_taking(blocks, next, index + 1, left - 1, takers, steps);
    if takers.include(index, &peer) {
        behind + 1
    } else {
        behind
    }
}
