ghost use Rattle.std.specs.Prelude.{◌≡◌, ◌<◌};

use crate::object::ZoneObject;
use std::marker::Brand;
use std::sync::ledger::{Blank, Ledger};
use zone_region::Steps;

/// A call whose steps nobody counts.
pub fn apply_uncounted<S: ZoneObject>(object: &mut S, who: u32, call: &S::Call) -> S::Reply
    requires { (s : S.State) × S.lays object.old s × S.ready s call.now }
    ensures reply { (s : S.State) → S.lays object.old s → S.ready s call.now → result ≡ S.reply_of s call.now }
    ensures laid { (s : S.State) → S.lays object.old s → S.ready s call.now → S.lays object.new (S.state_after s call.now) }
{
    apply_with::<Brand, S>(object, who, call, Blank::new(1))
}

// The same with steps of its own, which it drops.
fn apply_with<L: Ledger, S: ZoneObject>(
    object: &mut S,
    who: u32,
    call: &S::Call,
    blank: Blank,
) -> S::Reply
    requires ready { (s : S.State) × S.lays object.old s × S.ready s call.now }
    requires name { blank.name ≡ L.name }
    requires parts { blank.parts ≡ L.parts }
    requires some { 0 < L.parts }
    ensures reply { (s : S.State) → S.lays object.old s → S.ready s call.now → result ≡ S.reply_of s call.now }
    ensures laid { (s : S.State) → S.lays object.old s → S.ready s call.now → S.lays object.new (S.state_after s call.now) }
{
    let mut steps = Steps::<L>::new(blank);
    object.apply(who, call, &mut steps)
}
