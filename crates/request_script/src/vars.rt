ghost use Rattle.std.specs.Prelude.{◌≡◌, IfOk};

use sqlite_items::Items;
use std::alloc::Global;
use zone_key::{Pair, Vars};
use zone_outside::{NoMemory, Text};

/// A copy of a variable's name and its value.
fn copy_of_pair(alloc: Global, pair: &Pair) -> Result<Pair, NoMemory>
    ensures { IfOk result (λ copy. copy ≡ pair.now) }
{
    Ok(Pair {
        name: Text::of(alloc, pair.name.bytes())?,
        value: Text::of(alloc, pair.value.bytes())?,
    })
}

/// A copy of the pairs of variables.
fn copy_of_pairs(alloc: Global, pairs: &[Pair]) -> Result<Items<Pair>, NoMemory>
    ensures { IfOk result (λ copy. copy ≡ pairs.now) }
{
    let mut copy = Items::new(alloc);
    for pair in pairs {
        copy.push(copy_of_pair(alloc, pair)?)?;
    }
    Ok(copy)
}

/// A copy of what a request gives to the variables of key expressions.
pub(crate) fn copy_of(alloc: Global, vars: &Vars) -> Result<Vars, NoMemory>
    ensures { IfOk result (λ copy. copy ≡ vars.now) }
{
    Ok(Vars {
        address: vars.address,
        pairs: copy_of_pairs(alloc, vars.pairs.as_slice())?,
    })
}
