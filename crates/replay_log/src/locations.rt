ghost use Rattle.std.specs.Prelude.{◌≡◌, ℕ, ◌≤◌, ◌^◌, ◌<◌, List, length, IfOk};
ghost use Rattle.std.specs.Ordering.{nat_cmp};
ghost use Rattle.std.specs.Cmp.Lexicographic.{slice_cmp};
ghost use Rattle.std.specs.BTreeMap.{get_by};
ghost use Rattle.replay_log.specs.Requests.{locations_in};

use std::alloc::{AllocError, Global};
use std::collections::BTreeMap;
use zone_config::Level;

/// The numbers of locations by their names; of several of one name, that of the first.
pub(crate) fn numbers_of<'a>(
    alloc: Global,
    levels: &'a [Level],
) -> Result<BTreeMap<&'a [u8], u32>, AllocError>
    requires { length levels.now ≤ 64 }
    ensures { IfOk result (λ numbers. (name : List ℕ) → get_by (λ k. slice_cmp nat_cmp name k.now) numbers ≡ locations_in levels.now name) }
{
    let mut numbers = BTreeMap::new(alloc);
    let mut at = levels.len();
    'levels: while at > 0 {
        at -= 1;
        numbers.insert(levels[at].name.bytes(), at as u32)?;
    }
    Ok(numbers)
}
