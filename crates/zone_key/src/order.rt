ghost use Rattle.std.specs.Prelude.{◌≡◌, ◌↔◌, List, ℕ};
ghost use Rattle.std.specs.Cmp.{IsTotalOrder};
ghost use Rattle.zone_key.specs.Order.{key_order};

use crate::key::Key;
use std::cmp::Ordering;

/// How two keys compare: byte by byte, and a proper prefix is less. This is a total order, and only
/// equal keys are `Equal` in it.
pub fn compare(a: &Key, b: &Key) -> Ordering
    ensures value { result ≡ key_order a.now b.now }
    ensures equal { (result ≡ Ordering.Equal) ↔ (a.now ≡ b.now) }
    ensures total { IsTotalOrder key_order }
{
    a.bytes().cmp(&b.bytes())
}
