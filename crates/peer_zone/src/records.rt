ghost use Rattle.std.specs.Prelude.{◌≡◌, ◌≢◌, ◌⊎◌, ℕ, ◌+◌, ◌<◌, ◌≤◌, List, length, slice_index};
ghost use Rattle.zone_region.specs.Words.{word_at};
ghost use Rattle.peer_zone.specs.declared.state.PeerRecord.{PeerRecord};
ghost use Rattle.peer_zone.specs.Words.{HoldsNumbers, LaysRecords, first_of};
ghost use Rattle.peer_zone.specs.Records.{peer_at};
ghost use Rattle.peer_zone.specs.Numbers.{numbers_of};
ghost use Rattle.peer_zone.specs.CallSteps.{SetsNumbers};

use crate::numbers::PeerNumbers;
use crate::writing::write_words;
use std::sync::ledger::Ledger;
use zone_region::{Block, Blocks, Steps};

/// The words of a record (`ngx_http_upstream_rr_peer_t`).
const NEXT: u64 = 0;

const WEIGHT: u64 = 1;

const EFFECTIVE: u64 = 2;

const CURRENT: u64 = 3;

const CONNS: u64 = 4;

const MAX_CONNS: u64 = 5;

const FAILS: u64 = 6;

const MAX_FAILS: u64 = 7;

const FAIL_TIMEOUT: u64 = 8;

const CHECKED: u64 = 9;

const ACCESSED: u64 = 10;

const DOWN: u64 = 11;

/// The offset of the record after this one, or 0.
pub(crate) fn next_of<B: Blocks, L: Ledger>(blocks: &B, b: Block, steps: &mut Steps<L>) -> u64
    requires { 13 ≤ length (B.words blocks.now b.at) }
    ensures value { result ≡ word_at (B.words blocks.now) b.at 0 }
    ensures cost { steps.new ≡ steps.old + 1 }
{
    blocks.word(b, NEXT, steps)
}

/// The numbers of a record.
pub(crate) fn numbers_at<B: Blocks, L: Ledger>(
    blocks: &B,
    b: Block,
    steps: &mut Steps<L>,
) -> PeerNumbers
    requires { 13 ≤ length (B.words blocks.now b.at) }
    ensures value { (n : PeerNumbers) → HoldsNumbers (B.words blocks.now) b.at n → result ≡ n }
    ensures cost { steps.new ≡ steps.old + 11 }
{
    PeerNumbers {
        weight: blocks.word(b, WEIGHT, steps),
        effective: blocks.word(b, EFFECTIVE, steps),
        current: blocks.word(b, CURRENT, steps).cast_signed(),
        conns: blocks.word(b, CONNS, steps),
        max_conns: blocks.word(b, MAX_CONNS, steps),
        fails: blocks.word(b, FAILS, steps),
        max_fails: blocks.word(b, MAX_FAILS, steps),
        fail_timeout: blocks.word(b, FAIL_TIMEOUT, steps),
        checked: blocks.word(b, CHECKED, steps),
        accessed: blocks.word(b, ACCESSED, steps),
        down: blocks.word(b, DOWN, steps) == 1,
    }
}

/// Makes a record have these numbers.
pub(crate) fn set_numbers<B: Blocks>(blocks: &mut B, b: Block, n: PeerNumbers)
    requires { 13 ≤ length (B.words blocks.old b.at) }
    ensures sets { SetsNumbers (B.words blocks.old) (B.words blocks.new) b.at n }
    ensures rest { B.rest blocks.new ≡ B.rest blocks.old }
{
    let words = [
        n.weight,
        n.effective,
        n.current.cast_unsigned(),
        n.conns,
        n.max_conns,
        n.fails,
        n.max_fails,
        n.fail_timeout,
        n.checked,
        n.accessed,
        u64::from(n.down),
    ];
    write_words(blocks, b, WEIGHT, &words);
}

/// The block of the record of this index.
pub(crate) fn record_at<B: Blocks, L: Ledger>(
    blocks: &B,
    first: u64,
    index: u32,
    steps: &mut Steps<L>,
) -> Block
    requires { ((ps : List PeerRecord) × (ats : List ℕ) × LaysRecords (B.words blocks.now) ps ats × (first ≡ first_of ats) × (index < length ps)) }
    ensures block { (ps : List PeerRecord) (ats : List ℕ) → LaysRecords (B.words blocks.now) ps ats → first ≡ first_of ats → index < length ps → result.at ≡ slice_index ats index }
    ensures cost { steps.new ≡ steps.old + index }
{
    let mut at = first;
    for _passed in 0..index {
        at = next_of(blocks, Block { at }, steps);
    }
    Block { at }
}
